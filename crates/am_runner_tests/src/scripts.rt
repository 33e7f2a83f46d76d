//! What no contract says: that reading and writing succeed, and that an input above a limit isn't read
//! on. The inputs are of real size, and come in odd pieces.

use am_script::{CHUNK, LONGEST_LINE, MOST_LINES, WorkFault, read_input, write_text};
use std::alloc::{AllocError, Global};
use std::io::{Error, ErrorKind, Read, Result, Write};
use std::test::Fail;

// How many bytes the calls of a reader give, one after another.
const PIECES: [usize; 5] = [1, 4_095, 3, 5_000, 1_021];

// Gives its bytes in odd pieces. Each second call is interrupted.
#[derive(Drop)]
struct OddReader<'a> {
    rest: &'a [u8],
    calls: usize,
}

impl Read for OddReader<'_> {
    fn read(&mut self, buf: &mut [u8]) -> Result<usize> {
        self.calls = self.calls.wrapping_add(1);
        if self.calls % 2 == 0 {
            return Err(Error::from(ErrorKind::Interrupted));
        }
        let piece = PIECES.get(self.calls % PIECES.len()).copied().unwrap_or(1);
        let count = piece.min(buf.len()).min(self.rest.len());
        let (given, rest) = self.rest.split_at(count);
        buf[..count].copy_from_slice(given);
        self.rest = rest;
        Ok(count)
    }
}

// Takes one byte a call. Each second call is interrupted.
#[derive(Drop)]
struct SlowWriter {
    written: Vec<u8>,
    calls: usize,
}

impl Write for SlowWriter {
    fn write(&mut self, buf: &[u8]) -> Result<usize> {
        self.calls = self.calls.wrapping_add(1);
        if self.calls % 2 == 0 {
            return Err(Error::from(ErrorKind::Interrupted));
        }
        let Some(byte) = buf.first() else {
            return Ok(0);
        };
        self.written.push(*byte)?;
        Ok(1)
    }

    fn flush(&mut self) -> Result<()> {
        Ok(())
    }
}

// `count` lines, of which every third one is empty.
fn lines(alloc: Global, count: u32) -> std::result::Result<Vec<u8>, AllocError> {
    let mut text = Vec::new(alloc);
    for number in 0..count {
        if number % 3 > 0 {
            text.extend_from_slice(b"ab")?;
        }
        text.push(b'\n')?;
    }
    Ok(text)
}

// A line of `size` bytes, and a short one.
fn long_line(alloc: Global, size: usize) -> std::result::Result<Vec<u8>, AllocError> {
    let mut text = vec![in alloc; b'a'; size]?;
    text.extend_from_slice(b"\nab\n")?;
    Ok(text)
}

fn odd_reader(input: &[u8]) -> OddReader<'_> {
    OddReader {
        rest: input,
        calls: 0,
    }
}

fn is_read_whole(alloc: Global, input: &[u8]) -> std::result::Result<bool, WorkFault> {
    let text = read_input(alloc, &mut odd_reader(input))?;
    Ok(text.as_slice() == input)
}

// Whether an input is read past its bytes that are within the limits, and that in the last chunk.
fn is_read_past(
    alloc: Global,
    input: &[u8],
    within: usize,
) -> std::result::Result<bool, WorkFault> {
    let mut reader = odd_reader(input);
    let text = read_input(alloc, &mut reader)?;
    let given = input.len().saturating_sub(reader.rest.len());
    Ok(
        input.starts_with(text.as_slice())
            && text.len() > within
            && given.saturating_sub(within) <= CHUNK,
    )
}

#[test]
fn as_many_lines_as_a_script_may_have_are_read(rt: HostRuntime) -> std::result::Result<(), Fail> {
    let mut input = lines(rt.alloc(), MOST_LINES)?;
    assert!(rt; is_read_whole(rt.alloc(), input.as_slice())?);
    // The last line needs no line feed.
    input.pop();
    assert!(rt; is_read_whole(rt.alloc(), input.as_slice())?);
    Ok(())
}

#[test]
fn reading_ends_with_the_first_line_too_many(rt: HostRuntime) -> std::result::Result<(), Fail> {
    let within = lines(rt.alloc(), MOST_LINES)?.len();
    for count in [MOST_LINES + 1, MOST_LINES + 10_000] {
        let input = lines(rt.alloc(), count)?;
        assert!(rt; is_read_past(rt.alloc(), input.as_slice(), within)?);
    }
    Ok(())
}

#[test]
fn a_line_as_long_as_a_script_may_have_is_read(rt: HostRuntime) -> std::result::Result<(), Fail> {
    let input = long_line(rt.alloc(), LONGEST_LINE)?;
    assert!(rt; is_read_whole(rt.alloc(), input.as_slice())?);
    Ok(())
}

#[test]
fn reading_ends_in_the_first_line_too_long(rt: HostRuntime) -> std::result::Result<(), Fail> {
    for size in [LONGEST_LINE + 1, LONGEST_LINE + 10_000] {
        let input = long_line(rt.alloc(), size)?;
        assert!(rt; is_read_past(rt.alloc(), input.as_slice(), LONGEST_LINE)?);
    }
    Ok(())
}

#[test]
fn each_byte_is_written_once(rt: HostRuntime) -> std::result::Result<(), Fail> {
    let text = lines(rt.alloc(), 20_000)?;
    let mut out = SlowWriter {
        written: Vec::new(rt.alloc()),
        calls: 0,
    };
    write_text(&mut out, text.as_slice())?;
    assert!(rt; out.written.as_slice() == text.as_slice());
    Ok(())
}
