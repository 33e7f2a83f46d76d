//! How long something took.

use std::io;
use std::time::{Clock, Instant};

/// How many nanoseconds have passed.
pub(crate) fn since<R: Clock>(rt: &R, begin: io::Result<Instant>) -> u128 {
    match begin {
        Ok(begin) => match begin.elapsed(rt) {
            Ok(gone) => gone.as_nanos(),
            Err(_) => 0,
        },
        Err(_) => 0,
    }
}
