//! Reading one line, and no more.
//!
//! A line feed is found by memchr, a buffer at a time; std's `read_until` has the same contract and looks
//! at each byte.

ghost use Rattle.std.specs.Prelude.{◌≡◌, ◌≢◌, ℕ, List, IfOk, length, true, false};
ghost use Rattle.am_runner.specs.live.Reading.{IsNextAs, IsInputOf};
ghost use Rattle.am_runner.specs.live.inside.Buffered.{Gives, GoesOn};

use am_script::{LONGEST_LINE, WorkFault};
use memchr::memchr;
use std::alloc::Global;
use std::io::{BufRead, ErrorKind};

/// A line of the input without its line feed, as it was read.
#[derive(Debug, Drop)]
pub enum InputLine {
    /// Its bytes. They are at most `LONGEST_LINE`.
    Read(Vec<u8>),
    /// It has more bytes than `LONGEST_LINE`, and none of them is kept.
    TooLong,
    /// There was no memory for its bytes, and none of them is kept.
    NoMemory,
}

impl InputLine {
    // The line, if these bytes come next.
    fn with(self, more: &[u8]) -> InputLine
        ensures { GoesOn self more.now result }
    {
        match self {
            InputLine::Read(bytes) => longer(bytes, more),
            InputLine::TooLong => InputLine::TooLong,
            InputLine::NoMemory => InputLine::NoMemory,
        }
    }

    // Whether it has no byte.
    fn is_empty(&self) -> bool
        ensures none { result ≡ true → (bytes : List ℕ) → IsInputOf bytes self.now → length bytes ≡ 0 }
        ensures some { result ≡ false → (bytes : List ℕ) → IsInputOf bytes self.now → length bytes ≢ 0 }
    {
        match self {
            InputLine::Read(bytes) => bytes.is_empty(),
            InputLine::TooLong => false,
            InputLine::NoMemory => false,
        }
    }
}

// What the input's buffer gave after the line's bytes.
#[derive(Clone, Copy)]
enum Met {
    LineFeed,
    End,
    Neither,
}

/// The next line of the input, if there is one. It waits for the line feed, or for the input's end. The
/// bytes of a line that isn't kept are dropped as they are read. No contract says when a read fails.
pub fn next_line<I: BufRead>(alloc: Global, input: &mut I) -> Result<Option<InputLine>, WorkFault>
    ensures { IfOk result (λ line. IsNextAs (I.remaining input.old) line (I.remaining input.new)) }
{
    let mut line = InputLine::Read(Vec::new(alloc));
    for _turn in 0..u64::MAX {
        let (more, met) = take_buffered(input, line)?;
        line = more;
        match met {
            Met::LineFeed => return Ok(Some(line)),
            Met::End if line.is_empty() => return Ok(None),
            Met::End => return Ok(Some(line)),
            Met::Neither => {}
        }
    }
    Err(WorkFault::Read)
}

// Adds the input's buffered bytes up to their first line feed to the line, and consumes them with it. It
// gives `Neither` where the line goes on: its buffer had no line feed, or the read was interrupted.
fn take_buffered<I: BufRead>(input: &mut I, line: InputLine) -> Result<(InputLine, Met), WorkFault>
    ensures { IfOk result (Gives line (I.remaining input.old) (I.remaining input.new)) }
{
    let buffered = match input.fill_buf() {
        Ok(buffered) => buffered,
        Err(error) => return after(error.kind(), line),
    };
    match memchr(b'\n', buffered) {
        Some(end) => {
            let more = line.with(&buffered[..end]);
            input.consume(end + 1);
            Ok((more, Met::LineFeed))
        }
        None => {
            let count = buffered.len();
            let more = line.with(buffered);
            input.consume(count);
            Ok((more, if count == 0 { Met::End } else { Met::Neither }))
        }
    }
}

// What a read's error leads to: an interrupted read is tried again.
fn after(kind: ErrorKind, line: InputLine) -> Result<(InputLine, Met), WorkFault>
    ensures { IfOk result (λ taken. (taken.0 ≡ line) × (taken.1 ≡ Met.Neither)) }
{
    match kind {
        ErrorKind::Interrupted => Ok((line, Met::Neither)),
        ErrorKind::OutOfMemory => Err(WorkFault::OutOfMemory),
        _ => Err(WorkFault::Read),
    }
}

// A line of these bytes and more. They are let go if they are too many, or if there is no memory for more.
fn longer(mut bytes: Vec<u8>, more: &[u8]) -> InputLine
    ensures { GoesOn (InputLine.Read bytes) more.now result }
{
    if bytes.len() + more.len() > LONGEST_LINE {
        return InputLine::TooLong;
    }
    match bytes.extend_from_slice(more) {
        Ok(()) => InputLine::Read(bytes),
        Err(_) => InputLine::NoMemory,
    }
}
