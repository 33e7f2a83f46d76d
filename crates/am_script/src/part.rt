//! A part of a script's lines, each read by itself. Whether a line's subscription is the right one depends on the lines
//! before it, and is looked at afterwards, over the commands of all parts.

ghost use Rattle.std.specs.Prelude.{◌≡◌, ◌<◌, ◌+◌, ◌^◌, ◌++◌, [], ℕ, List, Ok, IfOk, IfErr, length};
ghost use Rattle.std.specs.Thread.{IsSync};
ghost use Rattle.am_script.specs.Script.{Checks, IsRefused, lines_of};
ghost use Rattle.am_script.specs.inside.Parts.{AddsLine, AreFirstLines, IsPart, ReadsLine, bytes_of_lines};

use crate::command::{Line, LineFault};
use crate::limits::{LONGEST_LINE, MOST_LINES};
use crate::line_reader::LineReader;
use crate::names::follow_each;
use crate::script::{Fault, ScriptFault, refused};
use std::alloc::Global;
use std::thread::{Threads, join};

/// The commands of some lines up to their first fault, and whether there is one.
#[derive(Drop)]
pub(crate) struct ScriptPart {
    lines: Vec<Line>,
    end: Result<(), ScriptFault>,
}

impl ScriptPart {
    /// Reads lines, the first of which has this number.
    pub(crate) fn read(alloc: Global, first: u32, lines: &[&[u8]]) -> ScriptPart
        requires { (0 < first) × (first + length lines.now < 2 ^ 32) }
        ensures { IsPart first (bytes_of_lines lines.now) result }
    {
        let mut part = ScriptPart {
            lines: Vec::new(alloc),
            end: Ok(()),
        };
        let mut reader = LineReader::new(alloc);
        let mut number = first;
        for bytes in lines {
            if let Err(fault) = part.add(&mut reader, number, bytes) {
                part.end = Err(fault);
                return part;
            }
            number += 1;
        }
        part
    }

    /// The same, by this many threads, each of which reads a part.
    pub(crate) fn read_in_threads<R: Threads + Sync>(
        rt: &R,
        alloc: Global,
        threads: usize,
        first: u32,
        lines: &[&[u8]],
    ) -> ScriptPart
        requires { (0 < first) × (first + length lines.now < 2 ^ 32) }
        ensures { IsPart first (bytes_of_lines lines.now) result }
    {
        if threads < 2 {
            return ScriptPart::read(alloc, first, lines);
        }
        let (front, back) = lines.split_at(lines.len() / 2);
        let next = first + front.len() as u32;
        let others = threads / 2;
        let own = threads - others;
        let (part, rest) = join(
            rt,
            || -> ScriptPart
                requires { IsSync R.row × (0 < first) × (first + length front.now < 2 ^ 32) }
                ensures { IsPart first (bytes_of_lines front.entry.now) result }
            { ScriptPart::read_in_threads(rt, alloc, others, first, front) },
            || -> ScriptPart
                requires { IsSync R.row × (0 < next) × (next + length back.now < 2 ^ 32) }
                ensures { IsPart next (bytes_of_lines back.entry.now) result }
            { ScriptPart::read_in_threads(rt, alloc, own, next, back) },
        );
        part.followed_by(rest)
    }

    // Adds the command of the line of this number, if it has one.
    fn add(&mut self, reader: &mut LineReader, number: u32, bytes: &[u8]) -> Result<(), ScriptFault>
        requires { 0 < number }
        ensures lines { AddsLine number bytes.now self.old.lines.items self.new.lines.items result }
        ensures end { self.new.end ≡ self.old.end }
    {
        self.lines.reserve(1)?;
        if let Some(line) = read_line(reader, number, bytes)? {
            self.lines.push_reserved(line);
        }
        Ok(())
    }

    // Both, one after the other.
    fn followed_by(mut self, mut rest: ScriptPart) -> ScriptPart
        ensures { (first : ℕ) (front back : List (List ℕ)) → IsPart first front self
            → IsPart (first + length front) back rest → IsPart first (front ++ back) result }
    {
        if self.end.is_err() {
            return self;
        }
        match self.lines.append(&mut rest.lines) {
            Ok(()) => ScriptPart {
                lines: self.lines,
                end: rest.end,
            },
            Err(_) => ScriptPart {
                lines: self.lines,
                end: Err(ScriptFault::NoMemory),
            },
        }
    }

    /// All commands, if no line has a fault and the subscription of each is the right one; or the first fault.
    pub(crate) fn into_lines(self, alloc: Global) -> Result<Vec<Line>, ScriptFault>
        ensures read { IfOk result (λ lines. (text : List ℕ) → IsPart 1 (lines_of text) self
            → Checks 1 [] (lines_of text) (Ok lines.items)) }
        ensures refused { IfErr result (λ fault. (text : List ℕ) → IsPart 1 (lines_of text) self
            → IsRefused text fault) }
    {
        follow_each(alloc, &self.lines).and(self.end)?;
        Ok(self.lines)
    }
}

// The command of the line of this number, if it has one.
fn read_line(
    reader: &mut LineReader,
    number: u32,
    bytes: &[u8],
) -> Result<Option<Line>, ScriptFault>
    requires { 0 < number }
    ensures { ReadsLine number bytes.now result }
{
    if number > MOST_LINES || bytes.len() > LONGEST_LINE {
        return refused(number, Fault::TooLarge);
    }
    if number <= 1 || bytes.is_empty() {
        return Ok(None);
    }
    match reader.read_line(number, bytes) {
        Ok(line) => Ok(Some(line)),
        Err(LineFault::BadLine) => refused(number, Fault::BadLine),
        Err(LineFault::NoMemory) => Err(ScriptFault::NoMemory),
    }
}
