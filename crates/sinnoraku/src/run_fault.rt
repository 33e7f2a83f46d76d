//! Why a crew didn't work.

ghost use Rattle.std.specs.Prelude.{◌≡◌};

use std::alloc::{AllocError, AllocFailed};
use thiserror::Error;

/// Why no thread of a crew worked, or not all of their outcomes could be kept.
#[derive(Clone, Copy, Debug, PartialEq, Eq, Error)]
#[non_exhaustive]
pub enum RunFault {
    #[error("there is no memory for the run")]
    NoMemory,
    #[error("the system started no more threads")]
    NoThread,
}

impl From<AllocError> for RunFault {
    ghost use Rattle.sinnoraku.specs.declared.run_fault.RunFault.TheVariants.{NoMemory};

    ghost from_gives = { λ _ why. why ≡ NoMemory };

    fn from(_error: AllocError) -> RunFault {
        RunFault::NoMemory
    }
}

impl<T: Drop> From<AllocFailed<T>> for RunFault {
    ghost use Rattle.sinnoraku.specs.declared.run_fault.RunFault.TheVariants.{NoMemory};

    ghost from_gives = { λ _ why. why ≡ NoMemory };

    fn from(_error: AllocFailed<T>) -> RunFault {
        RunFault::NoMemory
    }
}
