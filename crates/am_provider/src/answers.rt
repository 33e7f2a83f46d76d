//! What the calls of a provider answer. Why one is refused is in `faults.rt`.

ghost use Rattle.std.specs.Prelude.{◌≡◌, None};

use crate::item::Item;
use am_alert::{Alert, Faults};
use am_store::{LaneSet, SharedAlert, StoredAlerts};

/// What a post does if the log is full: a subscriber lags by as many batches as the log has places.
#[derive(Clone, Copy, Debug, PartialEq, Eq, Drop)]
pub enum Policy {
    /// The post is refused, and names the lane.
    Refuse,
    /// Each such subscriber is cut, and the post goes on.
    Cut,
}

/// The answer of an accepted post.
#[derive(Debug, Drop)]
pub struct Posted {
    /// How many of its alerts were valid.
    pub valid: u32,
    /// The batch's number in the log, if an alert was valid.
    pub place: Option<u64>,
    /// The lanes that this post cut.
    pub cut: LaneSet,
    /// The invalid alerts.
    pub faults: Faults,
}

impl Posted {
    // The answer of a post without a valid alert.
    pub(crate) fn nothing(faults: Faults) -> Posted
        ensures { result ≡ record {
          valid = 0;
          place = None;
          cut = 0;
          faults = faults;
        } }
    {
        Posted {
            valid: 0,
            place: None,
            cut: LaneSet::EMPTY,
            faults,
        }
    }
}

/// The answer of an accepted post whose alerts a filter judged.
#[derive(Debug, Drop)]
pub struct PostedIf {
    /// The answer of a post of those valid alerts that the filter accepted.
    pub posted: Posted,
    /// The valid alerts that it refused, each by its index among the valid ones, in order.
    pub refused: Vec<u32>,
}

/// What a subscription shows next.
#[derive(Clone, Copy, Debug)]
pub enum Step<'a> {
    /// The next alert, lent until the next call.
    Item(&'a Alert),
    /// All that there is was shown, and more may come.
    Pending,
    /// All that there is was shown, and no more will come.
    Closed,
    /// The subscriber was too slow and was cut off: nothing else is shown.
    Cut,
}

/// What a subscription shows next, as many alerts as lie together.
#[derive(Clone, Copy, Debug)]
pub enum Slice<'a> {
    /// Alerts that were stored at the subscription, as many as lie together, lent until the next call.
    Stored(&'a [SharedAlert]),
    /// What is left of a post's batch, or all of the next one, lent until the next call.
    Posted(&'a [Item]),
    /// All that there is was shown, and more may come.
    Pending,
    /// All that there is was shown, and no more will come.
    Closed,
    /// The subscriber was too slow and was cut off: nothing else is shown.
    Cut,
}

/// What is known of a subscription that was given back.
#[derive(Clone, Copy, Debug, PartialEq, Eq, Drop)]
pub struct Ended {
    /// How many calls there were before the subscription, those that were discarded since too.
    pub at: u64,
    /// How many alerts it has shown.
    pub taken: u64,
    /// Whether `next` answered `Closed`.
    pub closed: bool,
    /// Whether a post cut it, whether or not `next` answered `Cut`.
    pub cut: bool,
}

/// How much a Book has.
#[derive(Clone, Copy, Debug, PartialEq, Eq)]
pub struct Counts {
    /// How many places the log has.
    pub places: u64,
    /// How many posts were accepted, with a valid alert or without.
    pub posts: u64,
    /// How many alerts are stored.
    pub stored: u64,
}

/// A page of what is stored.
#[derive(Debug, Drop)]
pub struct Page {
    /// The alerts of the page, in the order of the store.
    pub alerts: StoredAlerts,
    /// How many alerts were stored.
    pub stored: u64,
    /// How many calls had been accepted by then.
    pub calls: u64,
}
