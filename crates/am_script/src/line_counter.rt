//! Adding bytes to a script's text, up to the first excess over a limit.

ghost use Rattle.std.specs.Prelude.{◌≡◌, ◌<◌, ◌∷◌, [], ◌++◌, length, IfOk};
ghost use Rattle.am_script.specs.Script.{lines_of};
ghost use Rattle.am_script.specs.inside.Intakes.{TakesIn};

use crate::limits::{LONGEST_LINE, MOST_LINES};
use crate::line_feed::line_feed;
use std::alloc::{AllocError, Global};
use std::marker::Model;

/// A text within a script's limits. Contracts see its bytes.
#[derive(Drop)]
pub struct LineCounter {
    text: Vec<u8>,
    // How many lines have ended, and how many bytes follow the last of these.
    ended: u32,
    last: usize,
}

/// A text after more bytes of the input.
#[derive(Drop)]
pub enum Intake {
    /// It has all of them, and more can come.
    More(LineCounter),
    /// It has them up to one that exceeds a limit, and takes no more.
    Full(Vec<u8>),
}

impl Model for LineCounter {
    ghost use Rattle.std.specs.Prelude.{List, ℕ};
    ghost use Rattle.am_script.specs.inside.Counting.{CountsLines};

    ghost Value = { List ℕ };

    ghost view = { λ c. c.text.items };

    ghost invariant = { λ c. CountsLines c.text.items c.ended c.last };
}

impl LineCounter {
    pub fn new(alloc: Global) -> LineCounter
        ensures { result ≡ [] }
    {
        LineCounter {
            text: Vec::new(alloc),
            ended: 0,
            last: 0,
        }
    }

    /// The bytes so far.
    pub fn into_text(self) -> Vec<u8>
        ensures { result.items ≡ self }
    {
        let LineCounter {
            text,
            ended: _,
            last: _,
        } = self;
        text
    }

    /// Adds the bytes, up to one that exceeds a limit.
    pub fn take_in(self, bytes: &[u8]) -> Result<Intake, AllocError>
        ensures { IfOk result (TakesIn self bytes.now) }
    {
        let mut counter = self;
        let mut rest = bytes;
        while !rest.is_empty() {
            let (line, others) = first_line(rest);
            match counter.take_line(line)? {
                Intake::More(more) => counter = more,
                Intake::Full(text) => return Ok(Intake::Full(text)),
            }
            rest = others;
        }
        Ok(Intake::More(counter))
    }

    // Adds a line, or a prefix of one.
    fn take_line(self, line: &[u8]) -> Result<Intake, AllocError>
        requires { length (lines_of line.now) ≡ 1 }
        ensures { IfOk result (TakesIn self line.now) }
    {
        let LineCounter {
            mut text,
            ended,
            last,
        } = self;
        text.extend_from_slice(line)?;
        let part = without_line_feed(line);
        let size = last + part.len();
        if ended >= MOST_LINES || size > LONGEST_LINE {
            return Ok(Intake::Full(text));
        }
        let (ended, last) = if part.len() < line.len() {
            (ended + 1, 0)
        } else {
            (ended, size)
        };
        Ok(Intake::More(LineCounter { text, ended, last }))
    }
}

// The bytes of the first line, with its line feed, and those after it.
fn first_line(bytes: &[u8]) -> (&[u8], &[u8])
    requires { 0 < length bytes.now }
    ensures parts { result.0.now ++ result.1.now ≡ bytes.now }
    ensures line { length (lines_of result.0.now) ≡ 1 }
{
    match line_feed(bytes) {
        Some(end) => bytes.split_at(end + 1),
        None => bytes.split_at(bytes.len()),
    }
}

fn without_line_feed(line: &[u8]) -> &[u8]
    requires { length (lines_of line.now) ≡ 1 }
    ensures { lines_of line.now ≡ result.now ∷ [] }
{
    line.strip_suffix(b"\n").unwrap_or(line)
}
