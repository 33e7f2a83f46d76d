//! Reading a time text.
//!
//! `TimeFault::NoMemory` never comes: jiff's reader takes no memory, and the contract says so.

ghost use Rattle.am_alert.specs.TimeTexts.{ReadsTime};

use crate::moment::Moment;
use thiserror::Error;

/// Why a time text gives no instant.
#[derive(Clone, Copy, Debug, PartialEq, Eq, Error)]
#[non_exhaustive]
pub enum TimeFault {
    /// It isn't readable, or names an instant before 0001-01-01T00:00:00Z.
    #[error("not a time")]
    BadTime,
    /// It never happens, since jiff's reader takes no memory.
    #[error("no memory")]
    NoMemory,
}

/// The instant of a time text with an offset or `Z`. The empty text and 0001-01-01T00:00:00Z count
/// as absent.
pub fn read_time(text: &str) -> Result<Option<Moment>, TimeFault>
    ensures { ReadsTime text.now result }
{
    if text.is_empty() {
        return Ok(None);
    }
    let moment: Moment = text.parse()?;
    Ok(if moment.nanoseconds() == 0 {
        None
    } else {
        Some(moment)
    })
}
