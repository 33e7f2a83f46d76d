//! The whole script, checked before anything runs: its lines, each by itself, and then their subscriptions in order.

ghost use Rattle.std.specs.Prelude.{◌≡◌, ◌<◌, [], ◌∷◌, length, Some, Ok, Err, IfOk, IfErr};
ghost use Rattle.am_script.specs.ScriptTexts.{fault_text, refusal_text};
ghost use Rattle.am_script.specs.Script.{Checks, IsRefused, config_line, lines_of};
ghost use Rattle.am_script.specs.inside.Parts.{AreFirstLines, bytes_of_lines};

use crate::command::Line;
use crate::limits::{MOST_LINES, MOST_READERS, SHORTEST_IN_THREADS};
use crate::line_feed::line_feed;
use crate::part::ScriptPart;
use std::alloc::{AllocError, AllocFailed, Global};
use std::fmt;
use std::thread::{Threads, available_parallelism};

/// What is wrong with a line.
#[derive(Clone, Copy, Debug, PartialEq, Eq)]
#[non_exhaustive]
pub enum Fault {
    BadLine,
    BadName,
    TooLarge,
}

impl fmt::Display for Fault {
    ghost output = { λ fault. Some (fault_text fault) };

    fn fmt<W: fmt::Write>(&self, f: &mut fmt::Formatter<W>) -> fmt::Result {
        match self {
            Fault::BadLine => f.write_str("P1 BadLine"),
            Fault::BadName => f.write_str("P2 BadName"),
            Fault::TooLarge => f.write_str("P3 TooLarge"),
        }
    }
}

/// The first faulty line of a script, by its number.
#[derive(Clone, Copy, Debug, PartialEq, Eq)]
pub struct Refusal {
    pub number: u32,
    pub fault: Fault,
}

impl fmt::Display for Refusal {
    ghost output = { λ refusal. Some (refusal_text refusal) };

    fn fmt<W: fmt::Write>(&self, f: &mut fmt::Formatter<W>) -> fmt::Result {
        let number = self.number;
        let fault = self.fault;
        write!(f, "script line {number} {fault}")
    }
}

/// Why a script isn't run.
#[derive(Clone, Copy, Debug, PartialEq, Eq)]
#[non_exhaustive]
pub enum ScriptFault {
    Refused(Refusal),
    NoMemory,
}

impl From<AllocError> for ScriptFault {
    ghost use Rattle.am_script.specs.declared.script.ScriptFault.TheVariants.{NoMemory};

    ghost from_gives = { λ _ fault. fault ≡ NoMemory };

    fn from(_error: AllocError) -> ScriptFault {
        ScriptFault::NoMemory
    }
}

impl<T: Drop> From<AllocFailed<T>> for ScriptFault {
    ghost use Rattle.am_script.specs.declared.script.ScriptFault.TheVariants.{NoMemory};

    ghost from_gives = { λ _ fault. fault ≡ NoMemory };

    fn from(_error: AllocFailed<T>) -> ScriptFault {
        ScriptFault::NoMemory
    }
}

/// The commands of a script, or its first fault in order of lines.
pub fn read_script(alloc: Global, text: &[u8]) -> Result<Vec<Line>, ScriptFault>
    ensures read { IfOk result (λ lines. Checks 1 [] (lines_of text.now) (Ok lines.items)) }
    ensures refused { IfErr result (IsRefused text.now) }
{
    let lines = first_lines(alloc, text)?;
    ScriptPart::read(alloc, 1, &lines).into_lines(alloc)
}

/// The same. The lines of a long text are read by as many threads as there are processors, up to eight.
pub fn read_script_in_threads<R: Threads + Sync>(
    rt: &R,
    alloc: Global,
    text: &[u8],
) -> Result<Vec<Line>, ScriptFault>
    ensures read { IfOk result (λ lines. Checks 1 [] (lines_of text.now) (Ok lines.items)) }
    ensures refused { IfErr result (IsRefused text.now) }
{
    if text.len() < SHORTEST_IN_THREADS {
        return read_script(alloc, text);
    }
    let lines = first_lines(alloc, text)?;
    ScriptPart::read_in_threads(rt, alloc, threads_to_read(rt), 1, &lines).into_lines(alloc)
}

// As many as there are processors, or one if that isn't known.
fn threads_to_read<R: Threads>(rt: &R) -> usize {
    match available_parallelism(rt) {
        Ok(processors) => processors.get().min(MOST_READERS),
        Err(_) => 1,
    }
}

// The first lines of a text: all, or one more than a script may have.
fn first_lines(alloc: Global, text: &[u8]) -> Result<Vec<&[u8]>, AllocError>
    ensures { IfOk result (λ lines. AreFirstLines text.now (bytes_of_lines lines.items)) }
{
    let mut lines = Vec::new(alloc);
    let mut rest = text;
    while !rest.is_empty() && lines.len() <= MOST_LINES as usize {
        let (line, after) = split_line(rest);
        lines.push(line)?;
        rest = after;
    }
    Ok(lines)
}

/// The first line of a script's text, without its line feed: its configuration.
pub fn config_line(text: &[u8]) -> &[u8]
    ensures { result.now ≡ config_line text.now }
{
    if text.is_empty() {
        return text;
    }
    split_line(text).0
}

// The first line without its line feed, and what follows it.
fn split_line(text: &[u8]) -> (&[u8], &[u8])
    requires { 0 < length text.now }
    ensures lines { lines_of text.now ≡ result.0.now ∷ lines_of result.1.now }
    ensures shorter { length result.1.now < length text.now }
{
    match line_feed(text) {
        Some(end) => (text.split_at(end).0, text.split_at(end + 1).1),
        None => text.split_at(text.len()),
    }
}

// The line of this number is refused.
pub(crate) fn refused<T>(number: u32, fault: Fault) -> Result<T, ScriptFault>
    ensures { result ≡ Err (ScriptFault.Refused (record { number = number; fault = fault })) }
{
    Err(ScriptFault::Refused(Refusal { number, fault }))
}
