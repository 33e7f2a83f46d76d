//! Why a test has no outcome.

use am_alert::PostFault;
use am_provider::{BodyFault, CloseFault, PutFault, SubFault};
use std::alloc::AllocError;

/// Why a test has no outcome.
#[derive(Clone, Copy, Debug, PartialEq, Eq, Drop)]
pub enum Stopped {
    NoMemory,
    /// A call was refused that should not have been.
    Refused,
}

impl From<AllocError> for Stopped {
    fn from(_error: AllocError) -> Stopped {
        Stopped::NoMemory
    }
}

impl From<BodyFault> for Stopped {
    fn from(fault: BodyFault) -> Stopped {
        match fault {
            BodyFault::Unread(PostFault::NoMemory) | BodyFault::Put(PutFault::NoMemory) => {
                Stopped::NoMemory
            }
            _ => Stopped::Refused,
        }
    }
}

impl From<SubFault> for Stopped {
    fn from(fault: SubFault) -> Stopped {
        match fault {
            SubFault::NoMemory => Stopped::NoMemory,
            _ => Stopped::Refused,
        }
    }
}

impl From<CloseFault> for Stopped {
    fn from(_error: CloseFault) -> Stopped {
        Stopped::Refused
    }
}
