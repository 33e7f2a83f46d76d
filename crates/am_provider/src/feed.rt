//! Which provider a value belongs to.

use crate::item::Item;
use am_history::Timeline;
use am_store::Call;
use am_store::lanes::OpenLane;
use std::marker::Brand;
use std::sync::ledger::Ledger;

/// A provider's log and the ledger of its posts, for contracts alone. What carries one `Origin` is of
/// one provider, so that a pass or a subscription of another one doesn't compile.
pub trait Origin: am_cast::Feed + Ledger {}

impl Origin for Brand {}

/// A provider for threads, for contracts alone: an `Origin`, the history of its calls, and its limits.
pub trait Recorded: Origin + Timeline {
    ghost use Rattle.std.specs.Prelude.{ℕ};
    ghost use Rattle.am_provider.specs.declared.answers.Policy.{Policy};

    // How many places the log has.
    ghost places: { ℕ };

    // What a post does if the log is full.
    ghost policy: { Policy };
}

impl Recorded for Brand {
    ghost use Rattle.am_provider.specs.declared.answers.Policy.TheVariants.{Refuse};

    ghost places = { 1 };

    ghost policy = { Refuse };
}

/// The log of one provider, from which its subscriptions read.
pub type Cast<N> = am_cast::Cast<Item, N, Call, OpenLane>;

pub(crate) type Writer<N> = am_cast::Writer<Item, N, Call, OpenLane>;

pub(crate) type Cursor<'a, N> = am_cast::LentCursor<'a, Item, N, Call, OpenLane>;

/// The end of a log. No subscription is open, since each borrows it; no contract follows that, so a log that had one
/// would be let go.
pub(crate) fn end_log<N: Origin>(cast: Cast<N>, log: Writer<N>) {
    if let Err(open) = am_cast::end(cast, log) {
        open.leak();
    }
}
