//! The entries of the journal.

use am_alert::{Alerts, Moment};

/// An accepted call of the provider.
#[derive(Debug, Drop)]
pub enum Call {
    /// The valid alerts of a post, as they were posted.
    Posted { now: Moment, alerts: Alerts },
    /// Resolved alerts were removed.
    Collected(Moment),
    /// A subscription took the lane.
    Subscribed(u32),
    /// The subscription on the lane was given back.
    Left(u32),
    /// The log was ended.
    Closed,
}
