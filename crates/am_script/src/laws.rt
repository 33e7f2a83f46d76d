//! Laws of scripts that callers may cite.

ghost use Rattle.std.specs.Prelude.{◌≡◌};

use crate::limits::{LONGEST_LINE, MOST_LINES};
use crate::thread::THREADS;

/// The numbers of a script's limits.
pub fn limit_laws()
    ensures line { LONGEST_LINE ≡ 8388608 }
    ensures lines { MOST_LINES ≡ 65536 }
    ensures threads { THREADS ≡ 8 }
{}
