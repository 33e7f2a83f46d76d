//! A whole run of the program, over any reader and writer.

ghost use Rattle.std.specs.Prelude.{◌≡◌, [], Ok, IfOk, IfErr, map, string_bytes};
ghost use Rattle.am_script.specs.Script.{Checks, IsRefused, lines_of};
ghost use Rattle.am_command_line.specs.FirstLines.{IsFirstLine};
ghost use Rattle.am_replay.specs.Printing.{ran_out_of_memory, transcript_text};
ghost use Rattle.am_replay.specs.Programs.{IsProgram, IsRunAs, IsTelling};
ghost use Rattle.am_replay.specs.Replays.{ComesTo, IsReplay, status_of};

use crate::live::live;
use crate::script_run::{Ran, Settings, run_script};
use am_command_line::{
    Arguments, ArgumentsFault, FIRST_LINE_TOO_LARGE, FirstLine, Mode, Status, advise, fault_advice,
    refused_config, refused_script,
};
use am_config::Config;
use am_script::{
    Form, Line, ScriptFault, WorkFault, config_line, read_input, read_script_in_threads,
    script_advice, write_text,
};
use am_threads::RunFault;
use std::alloc::Global;
use std::io::{BufReader, Read, Write};
use std::mem;
use std::sync::Wait;
use std::thread::Threads;

/// Reads a script, runs it as the arguments ask, and prints each answer. `err` gets what a person may want to
/// know of a script that is refused; no contract says what.
pub fn run<R: AllocGlobal + Threads + Wait + Sync, I: Read, O: Write, E: Write>(
    rt: &R,
    arguments: &[String],
    input: &mut I,
    out: &mut O,
    err: &mut E,
) -> Status
    ensures { IsProgram (map string_bytes arguments.now) (I.remaining input.old)
        (O.contents out.old) result (O.contents out.new) }
{
    match Arguments::read(rt.alloc(), arguments) {
        Ok(arguments) => obey(rt, rt.alloc(), arguments, input, out, err),
        Err(ArgumentsFault::Refused(text)) => tell(out, &text),
        Err(_) => Status::OutOfMemory,
    }
}

// Runs the whole script, or each line as it comes.
fn obey<R: Threads + Wait + Sync, I: Read, O: Write, E: Write>(
    rt: &R,
    alloc: Global,
    arguments: Arguments,
    input: &mut I,
    out: &mut O,
    err: &mut E,
) -> Status
    ensures { IsRunAs arguments (I.remaining input.old) (O.contents out.old) result (O.contents out.new) }
{
    if !matches!(arguments.mode, Mode::Live | Mode::Follow) {
        return replay(rt, alloc, arguments, input, out, err);
    }
    match BufReader::new(alloc, input) {
        Ok(mut input) => live(rt, alloc, arguments, &mut input, out, err),
        Err(_) => Status::OutOfMemory,
    }
}

// Prints what is to be said of the arguments.
fn tell<O: Write>(out: &mut O, text: &str) -> Status
    ensures { IsTelling text.now (O.contents out.old) result (O.contents out.new) }
{
    match write_text(out, text.as_bytes()) {
        Ok(()) => Status::BadArguments,
        Err(_) => Status::WriteFailed,
    }
}

fn replay<R: Threads + Wait + Sync, I: Read, O: Write, E: Write>(
    rt: &R,
    alloc: Global,
    arguments: Arguments,
    input: &mut I,
    out: &mut O,
    err: &mut E,
) -> Status
    ensures { IsReplay arguments (I.remaining input.old) (O.contents out.old) result (O.contents out.new) }
{
    let text = match read_input(alloc, input) {
        Ok(text) => text,
        Err(WorkFault::OutOfMemory) => return Status::OutOfMemory,
        Err(_) => return Status::ReadFailed,
    };
    let printout = match printout_of(rt, alloc, arguments, text) {
        Ok(printout) => printout,
        Err(RunFault::NoThread) => return Status::NoThread,
        Err(_) => return Status::OutOfMemory,
    };
    let status = match write_text(out, printout.output.as_bytes()) {
        Ok(()) => printout.status,
        Err(_) => Status::WriteFailed,
    };
    advise(err, status, &printout.advice);
    // The process ends: freeing what it has would take longer than ending it does.
    mem::forget(printout);
    status
}

// How the replay is to end, and all that is to be printed.
#[derive(Drop)]
struct Printout {
    status: Status,
    output: String,
    // What a person may want to know of a refusal.
    advice: Option<String>,
    // What was run, which isn't let go before the output was written.
    ran: Option<Ran>,
}

fn printout_of<R: Threads + Wait + Sync>(
    rt: &R,
    alloc: Global,
    arguments: Arguments,
    text: Vec<u8>,
) -> Result<Printout, RunFault>
    ensures { IfOk result
        (λ printout. ComesTo arguments text.items printout.status (string_bytes printout.output)) }
{
    match FirstLine::read(alloc, &text)? {
        FirstLine::TooLong => {
            let output = refused_script(alloc, arguments.form, FIRST_LINE_TOO_LARGE)?;
            let advice = script_advice(alloc, &text, FIRST_LINE_TOO_LARGE);
            Ok(refused(output, advice.ok()))
        }
        FirstLine::Refused(fault) => {
            let advice = fault_advice(alloc, config_line(&text), &fault);
            let output = refused_config(alloc, arguments.form, fault)?;
            Ok(refused(output, advice.ok()))
        }
        FirstLine::Read(config) => printout_under(rt, alloc, arguments, &config, text),
    }
}

// Nothing was run.
fn refused(output: String, advice: Option<String>) -> Printout
    ensures status { result.status ≡ Status.Refused }
    ensures output { result.output ≡ output }
{
    Printout {
        status: Status::Refused,
        output,
        advice,
        ran: None,
    }
}

// What is to be printed of a script under its configuration.
fn printout_under<R: Threads + Wait + Sync>(
    rt: &R,
    alloc: Global,
    arguments: Arguments,
    config: &Config,
    text: Vec<u8>,
) -> Result<Printout, RunFault>
    requires { IsFirstLine text.items (FirstLine.Read config.now) }
    ensures { IfOk result
        (λ printout. ComesTo arguments text.items printout.status (string_bytes printout.output)) }
{
    match take_lines(rt, alloc, text) {
        Ok(lines) => {
            let settings = Settings {
                rt,
                alloc,
                arguments,
                config,
            };
            ran(rt, alloc, arguments.form, run_script(&settings, lines)?)
        }
        Err((ScriptFault::Refused(refusal), text)) => {
            let output = refused_script(alloc, arguments.form, refusal)?;
            Ok(refused(output, script_advice(alloc, &text, refusal).ok()))
        }
        Err(_) => Err(RunFault::NoMemory),
    }
}

// The lines of a script, whose text is let go; or why it is refused, and its text.
fn take_lines<R: Threads + Sync>(
    rt: &R,
    alloc: Global,
    text: Vec<u8>,
) -> Result<Vec<Line>, (ScriptFault, Vec<u8>)>
    ensures read { IfOk result (λ lines. Checks 1 [] (lines_of text.items) (Ok lines.items)) }
    ensures refused { IfErr result (λ refused. IsRefused text.items refused.0) }
{
    match read_script_in_threads(rt, alloc, &text) {
        Ok(lines) => Ok(lines),
        Err(fault) => Err((fault, text)),
    }
}

fn ran<R: Threads + Sync>(rt: &R, alloc: Global, form: Form, ran: Ran) -> Result<Printout, RunFault>
    ensures output { IfOk result (λ printout. string_bytes printout.output
        ≡ transcript_text form ran.transcript.lines.items ran.transcript.answers.items ran.transcript.counts) }
    ensures status { IfOk result (λ printout. printout.status
        ≡ status_of (ran_out_of_memory ran.transcript.answers.items)) }
{
    let status = if ran.transcript.ran_out_of_memory() {
        Status::CallOutOfMemory
    } else {
        Status::Done
    };
    Ok(Printout {
        status,
        output: ran.transcript.text(rt, alloc, form)?,
        advice: None,
        ran: Some(ran),
    })
}
