//! Reading the input from any reader, to its end or to the first excess over a script's limits.

ghost use Rattle.std.specs.Prelude.{◌≡◌, ◌≢◌, ◌<◌, ◌≤◌, IfOk, IfErr, length, take};
ghost use Rattle.std.specs.Io.KnownBytes.{Consumes, IsAtEnd};
ghost use Rattle.am_script.specs.Inputs.{IsReadOf};

use crate::limits::TRIES;
use crate::line_counter::{Intake, LineCounter};
use crate::work_fault::WorkFault;
use std::alloc::Global;
use std::io::{ErrorKind, Read};

/// How many bytes one read gives at most: what a pipe of Linux holds.
pub const CHUNK: usize = 65_536;

/// The input's bytes, to its end or to the first excess over a script's limits. No contract says
/// when a read fails, nor how far an input with an excess is read. Tests check that it doesn't fail
/// without cause, and reads no further chunk.
pub fn read_input<R: Read>(alloc: Global, input: &mut R) -> Result<Vec<u8>, WorkFault>
    ensures text { IfOk result (λ text. IsReadOf (R.remaining input.old) text.items) }
    ensures err { IfErr result (λ failure. failure ≢ WorkFault.Write) }
{
    let mut counter = LineCounter::new(alloc);
    let mut chunk = [0u8; CHUNK];
    for _turn in 0..u64::MAX {
        let count = read_some(input, &mut chunk)?;
        if count == 0 {
            return Ok(counter.into_text());
        }
        match counter.take_in(chunk.split_at(count).0)? {
            Intake::More(more) => counter = more,
            Intake::Full(text) => return Ok(text),
        }
    }
    Err(WorkFault::Read)
}

// One read. An interrupted one is tried again.
fn read_some<R: Read>(input: &mut R, chunk: &mut [u8]) -> Result<usize, WorkFault>
    requires { 0 < length chunk.old }
    ensures bound { IfOk result (λ count. count ≤ length chunk.new) }
    ensures read { IfOk result (λ count.
        Consumes (R.remaining input.old) (R.remaining input.new) (take count chunk.new)) }
    ensures end { IfOk result (λ count. count ≡ 0 → IsAtEnd (R.remaining input.new)) }
    ensures err { IfErr result (λ failure. failure ≡ WorkFault.Read) }
{
    for _try in 0..TRIES {
        match input.read(chunk) {
            Ok(count) => return Ok(count),
            Err(error) => {
                if error.kind() != ErrorKind::Interrupted {
                    return Err(WorkFault::Read);
                }
            }
        }
    }
    Err(WorkFault::Read)
}
