//! Failures of the program's own work.

ghost use Rattle.std.specs.Prelude.{◌≡◌};

use std::alloc::{AllocError, AllocFailed};

/// What failed of the program's own work.
#[derive(Clone, Copy, Debug, PartialEq, Eq)]
#[non_exhaustive]
pub enum WorkFault {
    Read,
    Write,
    OutOfMemory,
}

impl From<AllocError> for WorkFault {
    ghost use Rattle.am_script.specs.declared.work_fault.WorkFault.TheVariants.{OutOfMemory};

    ghost from_gives = { λ _ failure. failure ≡ OutOfMemory };

    fn from(_error: AllocError) -> WorkFault {
        WorkFault::OutOfMemory
    }
}

impl<T: Drop> From<AllocFailed<T>> for WorkFault {
    ghost use Rattle.am_script.specs.declared.work_fault.WorkFault.TheVariants.{OutOfMemory};

    ghost from_gives = { λ _ failure. failure ≡ OutOfMemory };

    fn from(_error: AllocFailed<T>) -> WorkFault {
        WorkFault::OutOfMemory
    }
}
