//! Why a call of the writer was refused.

ghost use Rattle.std.specs.Prelude.{◌≡◌};

use am_segment::SegmentBuilder;
use thiserror::Error;

/// Why a batch was not published.
#[derive(Clone, Copy, Debug, PartialEq, Eq, Error)]
#[non_exhaustive]
pub enum PublishFault {
    #[error("there is no memory for the place's row of keys")]
    NoMemory,
    #[error("the log was closed")]
    Closed,
    #[error("the log has every place that it can have")]
    LogEnd,
    /// Of the lanes that lag by as many batches as the log has places this is the lowest.
    #[error("the log is full: the reader of lane {lane} has passed {passed} batches")]
    Full { lane: usize, passed: u64 },
}

/// A batch that was not published. It comes back as it was.
pub struct Refused<T> {
    pub fault: PublishFault,
    pub batch: SegmentBuilder<T>,
}

impl<T> Refused<T> {
    pub(crate) fn new(fault: PublishFault, batch: SegmentBuilder<T>) -> Refused<T>
        ensures { (result.fault ≡ fault) × (result.batch ≡ batch) }
    {
        Refused { fault, batch }
    }
}

/// An item that was not published. It comes back as it was.
#[derive(Drop)]
pub struct RefusedItem<T> {
    pub fault: PublishFault,
    pub item: T,
}

/// Why no lane was given out.
#[derive(Clone, Copy, Debug, PartialEq, Eq, Error)]
#[non_exhaustive]
pub enum AdmitFault {
    #[error("the log was closed")]
    Closed,
    #[error("all eight lanes are in use")]
    NoLane,
}

/// Why a close was refused: the log was closed before.
#[derive(Clone, Copy, Debug, PartialEq, Eq, Error)]
#[error("the log was closed before")]
pub struct CloseFault;
