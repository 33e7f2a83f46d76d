//! Writing the output to any writer.

ghost use Rattle.std.specs.Prelude.{◌≡◌, ◌≤◌, ◌<◌, IfOk, IfErr, OnErr, length, take};
ghost use Rattle.std.specs.Io.KnownBytes.{Appends, Keeps};
ghost use Rattle.am_script.specs.Outputs.{WritesText};

use crate::limits::TRIES;
use crate::work_fault::WorkFault;
use std::io::{ErrorKind, Write};

/// Writes the whole text. If a write fails, a prefix of it has been written. No contract says when a
/// write fails; tests check that it doesn't fail without cause.
pub fn write_text<W: Write>(out: &mut W, text: &[u8]) -> Result<(), WorkFault>
    ensures written { WritesText (W.contents out.old) (W.contents out.new) result text.now }
    ensures err { IfErr result (λ failure. failure ≡ WorkFault.Write) }
{
    let mut rest = text;
    while !rest.is_empty() {
        match write_some(out, rest) {
            Ok(count) => rest = rest.split_at(count).1,
            Err(failure) => return Err(failure),
        }
    }
    Ok(())
}

// One write of at least one byte. An interrupted one is tried again.
fn write_some<W: Write>(out: &mut W, bytes: &[u8]) -> Result<usize, WorkFault>
    ensures some { IfOk result (λ count. (0 < count) × (count ≤ length bytes.now)) }
    ensures written { IfOk result
        (λ count. Appends (W.contents out.old) (W.contents out.new) (take count bytes.now)) }
    ensures kept { OnErr result (Keeps (W.contents out.old) (W.contents out.new)) }
    ensures err { IfErr result (λ failure. failure ≡ WorkFault.Write) }
{
    for _ in 0..TRIES {
        match out.write(bytes) {
            Ok(0) => return Err(WorkFault::Write),
            Ok(count) => return Ok(count),
            Err(error) => {
                if error.kind() != ErrorKind::Interrupted {
                    return Err(WorkFault::Write);
                }
            }
        }
    }
    Err(WorkFault::Write)
}
