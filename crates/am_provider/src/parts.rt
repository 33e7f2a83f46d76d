//! The parts of a new provider, before a type names it.

ghost use Rattle.std.specs.Prelude.{◌≡◌, ◌≤◌, IfOk};
ghost use Rattle.am_cast.specs.declared.limits.TheConstants.{MAX_PLACES};
ghost use Rattle.am_provider.specs.declared.parts.TheConstants.{MAX_POSTERS};

use crate::book::Book;
use crate::entry::Entry;
use crate::feed::{Cast, Origin};
use crate::item::Item;
use crate::pass::Pass;
use am_history::NewHistory;
use am_store::Call;
use am_store::lanes::OpenLane;
use std::alloc::{AllocError, Global};
use std::sync::ledger::Blank;

/// How many posters a provider has, at most.
pub const MAX_POSTERS: u32 = 64;

/// The parts of a provider: a log of its own, a ledger of its posts, and a history of its calls. They are
/// spent by `Provider::begin`, or by `Book::begin`, which has no use for the history.
pub struct Parts {
    pub log: am_cast::Parts<Item, Call, OpenLane>,
    pub ledger: Blank,
    pub history: NewHistory<Entry>,
    pub posters: u32,
    ghost counted: { (ledger.parts ≡ posters) × (history.holders ≡ posters) },
    ghost some: { (1 ≤ posters) × (posters ≤ MAX_POSTERS) },
}

impl Parts {
    /// The parts of a provider whose log has `places` places, for `posters` posters.
    pub fn make(alloc: Global, places: u32, posters: u32) -> Result<Parts, AllocError>
        requires places { (1 ≤ places) × (places ≤ MAX_PLACES) }
        requires posters { (1 ≤ posters) × (posters ≤ MAX_POSTERS) }
        ensures { IfOk result (λ parts. (parts.log.places ≡ places) × (parts.posters ≡ posters)) }
    {
        let history = NewHistory::make(alloc, posters as u64)?;
        Ok(Parts {
            log: am_cast::Parts::make(alloc, places as u64)?,
            ledger: Blank::new(posters as u64),
            history,
            posters,
        })
    }
}

/// A new provider.
pub struct Begun<N: Origin> {
    /// The log that its subscriptions read.
    pub cast: Cast<N>,
    pub book: Book<N>,
    /// A pass for each poster.
    pub passes: Vec<Pass<N>>,
}

/// The number of the provider's own limit.
pub fn the_limits()
    ensures { MAX_POSTERS ≡ 64 }
{}
