//! A live run: each line of the input is answered before the next one is read.
//!
//! It is a driver of its provider, since what serves the lines owns its caller.

ghost use Rattle.std.specs.Prelude.{ℕ, List, Option, IfOk};
ghost use Rattle.am_command_line.specs.FirstLines.{IsFirstLine};
ghost use Rattle.am_replay.specs.Live.{IsEnd, IsFailure, IsFirstAs, IsLive, IsWritten, LivesUnder, is_following, line_or_empty};
ghost use Rattle.am_runner.specs.Sessions.{setting_of};

use crate::transcript::counts_line;
use am_command_line::{
    Arguments, FIRST_LINE_TOO_LARGE, FirstLine, Mode, Status, advise, fault_advice, refused_config,
    refused_script,
};
use am_config::Config;
use am_provider::{Caller, Counts, Provider, Recorded};
use am_runner::{InputLine, Serving, next_line, serve_all};
use am_script::{Form, WorkFault, script_advice, write_text};
use sinnoraku::{Driver, Limits, run_driver};
use std::alloc::{AllocError, Global};
use std::io::{BufRead, Write};
use std::sync::Wait;

/// Reads the configuration, serves each line after it, and prints the counts at the input's end.
pub fn live<R: Wait, I: BufRead, O: Write, E: Write>(
    rt: &R,
    alloc: Global,
    arguments: Arguments,
    input: &mut I,
    out: &mut O,
    err: &mut E,
) -> Status
    ensures { IsLive arguments (I.remaining input.old) (O.contents out.old) result (O.contents out.new) }
{
    let line = match next_line(alloc, input) {
        Ok(line) => line,
        Err(failure) => return status_of(failure),
    };
    match read_first(alloc, &line) {
        Ok(FirstLine::Read(config)) => live_under(rt, alloc, arguments, &config, input, out),
        Ok(FirstLine::Refused(fault)) => {
            let advice = fault_advice(alloc, bytes_of(&line), &fault).ok();
            let status = refuse(refused_config(alloc, arguments.form, fault), out);
            advise(err, status, &advice);
            status
        },
        Ok(FirstLine::TooLong) => {
            let status = refuse(
                refused_script(alloc, arguments.form, FIRST_LINE_TOO_LARGE),
                out,
            );
            advise(
                err,
                status,
                &script_advice(alloc, &[], FIRST_LINE_TOO_LARGE).ok(),
            );
            status
        },
        Err(_) => Status::OutOfMemory,
    }
}

// What the first line is found to be, as it was read.
fn read_first(alloc: Global, line: &Option<InputLine>) -> Result<FirstLine, AllocError>
    ensures { IfOk result (λ first. (bytes : Option (List ℕ)) → IsFirstAs bytes line.now
        → IsFirstLine (line_or_empty bytes) first) }
{
    match line {
        Some(InputLine::TooLong) => Ok(FirstLine::TooLong),
        Some(InputLine::NoMemory) => Err(AllocError),
        Some(InputLine::Read(bytes)) => FirstLine::read(alloc, bytes),
        None => FirstLine::read(alloc, &[]),
    }
}

// The bytes of the line that were kept; none at the input's end.
fn bytes_of(line: &Option<InputLine>) -> &[u8] {
    match line {
        Some(InputLine::Read(bytes)) => bytes.as_slice(),
        _ => &[],
    }
}

// How a failure of the program's own work ends it.
fn status_of(failure: WorkFault) -> Status
    ensures { IsFailure result }
{
    match failure {
        WorkFault::Read => Status::ReadFailed,
        WorkFault::Write => Status::WriteFailed,
        _ => Status::OutOfMemory,
    }
}

// Prints why the first line is no configuration.
fn refuse<O: Write>(text: Result<String, AllocError>, out: &mut O) -> Status
    ensures { IsWritten text (O.contents out.old) result (O.contents out.new) }
{
    match text {
        Ok(text) => match write_text(out, text.as_bytes()) {
            Ok(()) => Status::Refused,
            Err(_) => Status::WriteFailed,
        },
        Err(_) => Status::OutOfMemory,
    }
}

// Serves the lines after the configuration on a new provider.
fn live_under<R: Wait, I: BufRead, O: Write>(
    rt: &R,
    alloc: Global,
    arguments: Arguments,
    config: &Config,
    input: &mut I,
    out: &mut O,
) -> Status
    ensures { LivesUnder (setting_of arguments.places arguments.full config.now.resolve_timeout) arguments.form
        (is_following arguments.mode) config.now (I.remaining input.old) (O.contents out.old) result (O.contents out.new) }
{
    let limits = Limits::with_callers(1)
        .places(arguments.places)
        .policy(arguments.full)
        .resolve_timeout(config.resolve_timeout);
    let mut living = Living {
        alloc,
        arguments,
        config,
        input,
        out,
    };
    let ran = run_driver(rt, alloc, limits, &mut living);
    let Living {
        alloc: _,
        arguments: _,
        config: _,
        input: _,
        out,
    } = living;
    // Nothing is done here: a look at `out` after the loan has ended is what tells the proof its contents.
    let _ = &*out;
    match ran {
        Ok((Ok(()), settled)) => print_counts(alloc, arguments.form, settled.counts(), out),
        Ok((Err(failure), _)) => status_of(failure),
        Err(_) => Status::OutOfMemory,
    }
}

// The lines after the configuration, and where their answers are written.
#[derive(Drop)]
struct Living<'c, 'i, 'o, I, O> {
    alloc: Global,
    arguments: Arguments,
    config: &'c Config,
    input: &'i mut I,
    out: &'o mut O,
}

impl<'c, 'i, 'o, R: Wait, I: BufRead, O: Write> Driver<R> for Living<'c, 'i, 'o, I, O> {
    ghost use Rattle.std.specs.Prelude.{◌≡◌};
    ghost use Rattle.am_runner.specs.Sessions.{setting_of};
    ghost use Rattle.am_replay.specs.Live.{IsServedAs, is_following};

    type Outcome = Result<(), WorkFault>;

    ghost fits = { λ _ limits. limits.callers ≡ 1 };

    ghost comes_to = { λ old new limits passes fronts served. (new.out.ghost_name ≡ old.out.ghost_name)
        × IsServedAs old.config.now (setting_of limits.places limits.policy limits.resolve_timeout) old.arguments.form
        (is_following old.arguments.mode) (I.remaining old.input.now) (I.remaining new.input.now)
        (O.contents old.out.now) (O.contents new.out.now) passes fronts served };

    fn drive<'p, N: Recorded>(
        &mut self,
        rt: &'p R,
        _limits: Limits,
        provider: &'p Provider<N>,
        callers: Vec<Caller<N>>,
    ) -> (Self::Outcome, Vec<Caller<N>>) {
        let mut callers = callers;
        let Some(caller) = callers.pop() else {
            unreachable!()
        };
        let (alloc, config) = (self.alloc, self.config);
        let serving = Serving {
            form: self.arguments.form,
            follows: self.arguments.mode == Mode::Follow,
        };
        let (input, out) = (&mut *self.input, &mut *self.out);
        let (served, caller) = serve_all(rt, alloc, provider, config, caller, serving, input, out);
        callers.push_reserved(caller);
        (served, callers)
    }
}

// Prints the last line.
fn print_counts<O: Write>(alloc: Global, form: Form, counts: Counts, out: &mut O) -> Status
    ensures { IsEnd form counts (O.contents out.old) result (O.contents out.new) }
{
    match counts_line(alloc, form, counts) {
        Ok(text) => match write_text(out, text.as_bytes()) {
            Ok(()) => Status::Done,
            Err(_) => Status::WriteFailed,
        },
        Err(_) => Status::OutOfMemory,
    }
}
