//! Serving the lines of an input, one after another.
//!
//! `serve_all` is apart from its caller in am_replay, since its signature gives the runtime and the provider one lifetime, as
//! a context lent as `&mut` has.

ghost use Rattle.std.specs.Prelude.{◌≡◌, ℕ, List, [], OnErr, OnOk, IfOk};
ghost use Rattle.std.specs.Io.KnownBytes.{Appends};
ghost use Rattle.am_runner.specs.Sessions.{LeavesAll, setting_of};
ghost use Rattle.am_runner.specs.live.Answering.{Answers};
ghost use Rattle.am_runner.specs.live.Reading.{IsInputOf};
ghost use Rattle.am_runner.specs.live.Serving.{IsBeginning, IsServed, IsServedInPart};
ghost use Rattle.am_runner.specs.live.Standing.{RunView, new_run};

use crate::context::Context;
use crate::live::answering::answer_input;
use crate::live::live_run::LiveRun;
use crate::live::reading::{InputLine, next_line};
use crate::session::Session;
use am_answers::PreparedConfig;
use am_config::Config;
use am_provider::{Caller, Gate, NoGate, Provider, Recorded};
use am_script::{Form, LineReader, WorkFault, write_text};
use std::alloc::Global;
use std::io::{BufRead, Write};
use std::sync::Wait;

/// How lines are served.
#[derive(Clone, Copy, Debug, Drop)]
pub struct Serving {
    /// In which form the answers are printed.
    pub form: Form,
    /// Whether a read that finds nothing more goes on.
    pub follows: bool,
}

/// Answers each line of the input with this caller, and at its end leaves the subscriptions that are open then. The caller
/// comes back. The first line has number 2: the configuration was before it.
pub fn serve_all<'p, 'c, N: Recorded, R: Wait, I: BufRead, O: Write>(
    rt: &'p R,
    alloc: Global,
    provider: &'p Provider<N>,
    config: &'c Config,
    caller: Caller<N>,
    serving: Serving,
    input: &mut I,
    out: &mut O,
) -> (Result<(), WorkFault>, Caller<N>)
    ensures served { OnOk result.0 ((end : RunView) × IsServed config.now
        (setting_of N.places N.policy provider.now.resolve_timeout) serving.form 2
        (new_run (record { pass = caller.pass; front = caller.front; opened = [] }) serving.follows)
        (I.remaining input.old) (I.remaining input.new) (O.contents out.old) (O.contents out.new) end
        × LeavesAll end.session (record { pass = result.1.pass; front = result.1.front; opened = [] })) }
    ensures err { OnErr result.0 (IsServedInPart config.now
        (setting_of N.places N.policy provider.now.resolve_timeout) serving.form 2
        (new_run (record { pass = caller.pass; front = caller.front; opened = [] }) serving.follows)
        (I.remaining input.old) (O.contents out.old) (O.contents out.new)) }
{
    let mut context = Context {
        rt,
        alloc,
        provider,
        config: PreparedConfig::new(config),
        turns: &NoGate,
    };
    let session = Session::begin(alloc, caller);
    let mut run = LiveRun::begin(alloc, session, serving.follows);
    let served = serve(&mut context, &mut run, serving.form, 2, input, out);
    (served, run.into_session().end(&context))
}

/// Answers each line of the input before it reads the next, to the input's end. The first line has this
/// number. After a line the journal is compacted if that is due: once more than 1,024 alerts were posted or
/// removed, and more than half of what was stored at the last compaction, each call counted as one too. A
/// compaction costs no more than a few times that, so over many lines a line costs what its own alerts do.
pub fn serve<'p, 'c, N: Recorded, R: Wait, G: Gate, I: BufRead, O: Write>(
    context: &mut Context<'p, 'c, N, R, G>,
    run: &mut LiveRun<'p, 'c, N>,
    form: Form,
    first: u64,
    input: &mut I,
    out: &mut O,
) -> Result<(), WorkFault>
    ensures served { OnOk result (IsServed context.old.config
        (setting_of N.places N.policy context.old.provider.now.resolve_timeout) form first run.old
        (I.remaining input.old) (I.remaining input.new) (O.contents out.old) (O.contents out.new) run.new) }
    ensures err { OnErr result (IsServedInPart context.old.config
        (setting_of N.places N.policy context.old.provider.now.resolve_timeout) form first run.old
        (I.remaining input.old) (O.contents out.old) (O.contents out.new)) }
{
    let mut reader = LineReader::new(context.alloc);
    for number in first..u64::MAX {
        let Some(line) = next_line(context.alloc, input)? else {
            return Ok(());
        };
        serve_line(context, run, &mut reader, form, number, &line, out)?;
        run.compact_if_due(context);
    }
    Err(WorkFault::Read)
}

// Answers one line.
fn serve_line<'p, 'c, N: Recorded, R: Wait, G: Gate, O: Write>(
    context: &mut Context<'p, 'c, N, R, G>,
    run: &mut LiveRun<'p, 'c, N>,
    reader: &mut LineReader,
    form: Form,
    number: u64,
    line: &InputLine,
    out: &mut O,
) -> Result<(), WorkFault>
    ensures answers { OnOk result ((bytes : List ℕ) → IsInputOf bytes line.now → (more : List ℕ)
        × Answers context.old.config
        (setting_of N.places N.policy context.old.provider.now.resolve_timeout) form number bytes
        run.old more run.new × Appends (O.contents out.old) (O.contents out.new) more) }
    ensures err { OnErr result ((bytes : List ℕ) → IsInputOf bytes line.now → (beginning : List ℕ)
        × IsBeginning context.old.config
        (setting_of N.places N.policy context.old.provider.now.resolve_timeout) form number run.old
        beginning × Appends (O.contents out.old) (O.contents out.new) beginning) }
    ensures same { context.new ≡ context.old }
{
    let text = answer_input(context, run, reader, form, number, line)?;
    write_text(out, text.as_bytes())?;
    match out.flush() {
        Ok(()) => Ok(()),
        Err(_) => Err(WorkFault::Write),
    }
}
