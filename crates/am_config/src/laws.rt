//! Laws of the configuration that callers may cite.

ghost use Rattle.std.specs.Prelude.{◌≡◌};

use crate::config::DEFAULT_MILLISECONDS;
use crate::duration::MAX_MILLISECONDS;
use crate::route_reader::MAX_DEPTH;

/// The numbers of a configuration's limits. The greatest duration is that of Go, 2^63 - 1
/// nanoseconds, in whole milliseconds.
pub fn limit_laws()
    ensures depth { MAX_DEPTH ≡ 32 }
    ensures timeout { DEFAULT_MILLISECONDS ≡ 300000 }
    ensures duration { MAX_MILLISECONDS ≡ 9223372036854 }
{}
