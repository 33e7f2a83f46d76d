//! Why a call of a provider was refused.

use am_alert::PostFault;
use std::alloc::AllocError;
use thiserror::Error;

/// Why a post was refused. What is stored, the journal and the log are as they were.
#[derive(Clone, Copy, Debug, PartialEq, Eq, Error)]
#[non_exhaustive]
pub enum PutFault {
    #[error("there is no memory for the post")]
    NoMemory,
    #[error("the log was closed")]
    Closed,
    #[error("the log has every place that it can have")]
    LogEnd,
    /// This lane's subscriber, who has passed `passed` batches, lags by as many as the log has places. No
    /// lower lane does. The contracts of am_cast say so; those of the provider say that the lane is open and
    /// isn't cut.
    #[error("the log is full: the subscriber of lane {lane} has passed {passed} batches")]
    Full { lane: u32, passed: u64 },
}

impl From<AllocError> for PutFault {
    ghost use Rattle.std.specs.Prelude.{◌≡◌};
    ghost use Rattle.am_store.specs.declared.faults.PutFault.TheVariants.{NoMemory};

    ghost from_gives = { λ _ fault. fault ≡ NoMemory };

    fn from(_error: AllocError) -> PutFault {
        PutFault::NoMemory
    }
}

/// Why a post by its body was refused. What is stored, the journal and the log are as they were.
#[derive(Clone, Copy, Debug, PartialEq, Eq, Error)]
#[non_exhaustive]
pub enum BodyFault {
    /// The body can't be read.
    #[error(transparent)]
    Unread(PostFault),
    /// The Book doesn't take it.
    #[error(transparent)]
    Put(PutFault),
}

/// Why a subscription was refused. What is stored, the journal and the log are as they were.
#[derive(Clone, Copy, Debug, PartialEq, Eq, Error)]
#[non_exhaustive]
pub enum SubFault {
    #[error("there is no memory for a subscription")]
    NoMemory,
    #[error("the log was closed")]
    Closed,
    #[error("all eight lanes are open")]
    NoLane,
}

impl From<AllocError> for SubFault {
    ghost use Rattle.std.specs.Prelude.{◌≡◌};
    ghost use Rattle.am_store.specs.declared.faults.SubFault.TheVariants.{NoMemory};

    ghost from_gives = { λ _ fault. fault ≡ NoMemory };

    fn from(_error: AllocError) -> SubFault {
        SubFault::NoMemory
    }
}
