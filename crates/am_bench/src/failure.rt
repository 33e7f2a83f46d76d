//! Why nothing was timed.

use am_config::ConfigFault;
use std::alloc::{AllocError, AllocFailed};

/// Why nothing was timed.
#[derive(Clone, Copy, Debug, PartialEq, Eq)]
pub(crate) enum Failure {
    BadArguments,
    OutOfMemory,
}

impl Failure {
    pub(crate) fn exit_status(self) -> u8 {
        match self {
            Failure::BadArguments => 1,
            Failure::OutOfMemory => 3,
        }
    }
}

impl From<AllocError> for Failure {
    fn from(_error: AllocError) -> Failure {
        Failure::OutOfMemory
    }
}

impl<T: Drop> From<AllocFailed<T>> for Failure {
    fn from(_error: AllocFailed<T>) -> Failure {
        Failure::OutOfMemory
    }
}

// The configurations here are right, so that only memory can be missing.
impl From<ConfigFault> for Failure {
    fn from(_fault: ConfigFault) -> Failure {
        Failure::OutOfMemory
    }
}
