//! Answering one line.
//!
//! A line is answered E0 only as long as nothing is lost with the answer. That of a post, a read or a `take` may
//! be lost after it was done, so these end the run.

ghost use Rattle.std.specs.Prelude.{◌≡◌, ◌++◌, ℕ, List, IfOk, OnOk, string_bytes, true};
ghost use Rattle.am_script.specs.JsonLines.{about_line, object_line};
ghost use Rattle.am_runner.specs.Sessions.{setting_of};
ghost use Rattle.am_runner.specs.live.Answering.{Answers, Obeys, has_free_name, has_moment_if_needed};
ghost use Rattle.am_runner.specs.live.Answering.{no_memory_text, refusal_members, refused_for, refused_text};
ghost use Rattle.am_runner.specs.live.Reading.{IsInputOf};
ghost use Rattle.am_answers.specs.Known.{known_after, places_after};
ghost use Rattle.am_answers.specs.Showing.{kept_printed};
ghost use Rattle.am_runner.specs.live.Standing.{ReadOn, stands_after};

use crate::context::Context;
use crate::live::live_run::LiveRun;
use crate::live::reading::InputLine;
use crate::live::standing::{note, read_on};
use crate::session::Session;
use crate::unanswered::{is_question, loses_nothing};
use am_answers::{Answer, make_room, note_known, write_count, write_given, write_kept};
use am_provider::{Gate, Recorded};
use am_script::{Command, Fault, Form, GivenMoment, JsonLine, LONGEST_LINE, LineFault, LineReader};
use std::alloc::{AllocError, Global};
use std::sync::Wait;

// How many bytes are there for an answer before its command is done. A short one takes no more.
const SHORT: usize = 256;

/// Does what a line asks for, and returns what is to be printed of it. A line in whose reading memory runs out
/// is answered so, and nothing is done; so is a command without memory for its answer, if it only asks or wasn't
/// done. If memory runs out for another one's answer, that may have been done.
pub fn answer_line<'p, 'c, N: Recorded, R: Wait, G: Gate>(
    context: &mut Context<'p, 'c, N, R, G>,
    run: &mut LiveRun<'p, 'c, N>,
    reader: &mut LineReader,
    form: Form,
    number: u64,
    bytes: &[u8],
) -> Result<String, AllocError>
    ensures answers { IfOk result (λ text. Answers context.old.config
        (setting_of N.places N.policy context.old.provider.now.resolve_timeout) form number bytes.now
        run.old (string_bytes text) run.new) }
    ensures same { context.new ≡ context.old }
{
    let alloc = context.alloc;
    if bytes.is_empty() {
        return Ok(String::new(alloc));
    }
    if bytes.len() > LONGEST_LINE {
        return refused(alloc, form, number, Fault::TooLarge);
    }
    match reader.read_command(bytes) {
        Ok(command) => obey(context, run, form, number, &command),
        Err(LineFault::BadLine) => refused(alloc, form, number, Fault::BadLine),
        Err(_) => no_memory(alloc, form, number),
    }
}

/// Does the same with a line as it was read.
pub(crate) fn answer_input<'p, 'c, N: Recorded, R: Wait, G: Gate>(
    context: &mut Context<'p, 'c, N, R, G>,
    run: &mut LiveRun<'p, 'c, N>,
    reader: &mut LineReader,
    form: Form,
    number: u64,
    line: &InputLine,
) -> Result<String, AllocError>
    ensures answers { IfOk result (λ text. (bytes : List ℕ) → IsInputOf bytes line.now → Answers context.old.config
        (setting_of N.places N.policy context.old.provider.now.resolve_timeout) form number bytes
        run.old (string_bytes text) run.new) }
    ensures same { context.new ≡ context.old }
{
    match line {
        InputLine::Read(bytes) => answer_line(context, run, reader, form, number, bytes),
        InputLine::TooLong => refused(context.alloc, form, number, Fault::TooLarge),
        InputLine::NoMemory => no_memory(context.alloc, form, number),
    }
}

// Does what a command asks for, unless its name is taken or its moment isn't one.
fn obey<'p, 'c, N: Recorded, R: Wait, G: Gate>(
    context: &mut Context<'p, 'c, N, R, G>,
    run: &mut LiveRun<'p, 'c, N>,
    form: Form,
    number: u64,
    command: &Command,
) -> Result<String, AllocError>
    ensures obeys { IfOk result (λ text. Obeys context.old.config
        (setting_of N.places N.policy context.old.provider.now.resolve_timeout) form number command.now
        run.old (string_bytes text) run.new) }
    ensures same { context.new ≡ context.old }
{
    if !has_free_name(&run.session, command) {
        return refused(context.alloc, form, number, Fault::BadName);
    }
    if !has_moment_if_needed(&run.session, command) {
        return refused(context.alloc, form, number, Fault::BadLine);
    }
    run_command(context, run, form, number, command)
}

// Does what a command asks for, and returns what is to be printed of it. No memory for the answer is answered too,
// unless something was done whose answer is lost.
fn run_command<'p, 'c, N: Recorded, R: Wait, G: Gate>(
    context: &mut Context<'p, 'c, N, R, G>,
    run: &mut LiveRun<'p, 'c, N>,
    form: Form,
    number: u64,
    command: &Command,
) -> Result<String, AllocError>
    requires name { has_free_name command.now run.old.session.opened ≡ true }
    requires moment { has_moment_if_needed command.now run.old.session.opened ≡ true }
    ensures obeys { IfOk result (λ text. Obeys context.old.config
        (setting_of N.places N.policy context.old.provider.now.resolve_timeout) form number command.now
        run.old (string_bytes text) run.new) }
    ensures same { context.new ≡ context.old }
{
    let alloc = context.alloc;
    let Ok(mut text) = String::with_capacity(alloc, SHORT) else {
        return no_memory(alloc, form, number);
    };
    if make_room(&mut run.known, run.follows, command).is_err() {
        return no_memory(alloc, form, number);
    }
    match run.session.run(context, command) {
        Ok(given) => {
            run.pace.note(&given);
            match write_given(&mut text, form, number, run.follows, &run.known, &given) {
                Ok(()) => with_what_came(context, run, form, number, command, &given, text),
                Err(_) if is_question(command) => no_memory(alloc, form, number),
                Err(error) => Err(error),
            }
        }
        Err(_) if loses_nothing(command) => no_memory(alloc, form, number),
        Err(error) => Err(error),
    }
}

// What is printed of a command's answers, followed by where its alerts went, and by what then came for the reads that
// go on.
fn with_what_came<'p, 'c, N: Recorded, R: Wait, G: Gate>(
    context: &mut Context<'p, 'c, N, R, G>,
    run: &mut LiveRun<'p, 'c, N>,
    form: Form,
    number: u64,
    command: &Command,
    given: &[Answer],
    mut text: String,
) -> Result<String, AllocError>
    ensures read { IfOk result (λ whole. (came : List ℕ) × (string_bytes whole ≡ string_bytes text
        ++ kept_printed form number (places_after run.old.follows command.now given.now run.old.known) ++ came)
        × (run.new.known ≡ known_after run.old.follows command.now given.now run.old.known)
        × ReadOn context.old.config (setting_of N.places N.policy context.old.provider.now.resolve_timeout)
        form number run.new.known run.old.session
        (stands_after run.old.follows command.now given.now run.old.reads) came run.new.reads run.new.session) }
    ensures same { (context.new ≡ context.old) × (run.new.follows ≡ run.old.follows) }
{
    note(&mut run.reads, run.follows, command, given)?;
    let places = note_known(context.alloc, &mut run.known, run.follows, command, given)?;
    write_kept(&mut text, form, number, &places)?;
    read_on(
        context,
        &mut run.session,
        &mut run.reads,
        form,
        number,
        &run.known,
        &mut text,
    )?;
    Ok(text)
}

// Whether the command subscribes no name that an open subscription has.
fn has_free_name<N: Recorded>(session: &Session<'_, '_, N>, command: &Command) -> bool
    ensures { result ≡ has_free_name command.now session.now.opened }
{
    match command {
        Command::Subscribe { name, kind: _ } => !session.has_name(name),
        _ => true,
    }
}

// Whether the `at` of `groups` is a moment where it is a member: if the subscription has an inhibitor too.
fn has_moment_if_needed<N: Recorded>(session: &Session<'_, '_, N>, command: &Command) -> bool
    ensures { result ≡ has_moment_if_needed command.now session.now.opened }
{
    match command {
        Command::Groups {
            name,
            at: GivenMoment::Unread,
        } => !session.has_notifier(name),
        _ => true,
    }
}

// What is printed of a line that is refused for its fault.
fn refused(alloc: Global, form: Form, number: u64, fault: Fault) -> Result<String, AllocError>
    ensures { IfOk result (λ text. string_bytes text ≡ refused_text form number fault) }
{
    let why = fault.to_string(alloc)?;
    refused_for(alloc, form, number, &why)
}

// What is printed of a line if memory ran out in reading it.
fn no_memory(alloc: Global, form: Form, number: u64) -> Result<String, AllocError>
    ensures { IfOk result (λ text. string_bytes text ≡ no_memory_text form number) }
{
    refused_for(alloc, form, number, "E0 NoMemory")
}

// What is printed of a line that is refused, for what has this text.
fn refused_for(alloc: Global, form: Form, number: u64, why: &str) -> Result<String, AllocError>
    ensures { IfOk result (λ text. string_bytes text ≡ refused_for form number why.now) }
{
    match form {
        Form::Text => format!(in alloc; "{number} {why}\n"),
        Form::Json => refused_object(alloc, number, why),
    }
}

fn refused_object(alloc: Global, number: u64, why: &str) -> Result<String, AllocError>
    ensures { IfOk result (λ text. string_bytes text ≡ refused_for Form.Json number why.now) }
{
    let mut text = String::new(alloc);
    write_refusal(&mut text, number, why)?;
    write_count(&mut text, number, 1)?;
    Ok(text)
}

fn write_refusal(text: &mut String, number: u64, why: &str) -> Result<(), AllocError>
    ensures { OnOk result (string_bytes text.new
        ≡ string_bytes text.old ++ object_line (about_line number (refusal_members why.now))) }
{
    let mut line = JsonLine::about(*text.allocator(), number)?;
    line.text("answer", "refused")?;
    line.text("fault", why)?;
    line.end(text)
}
