//! What is left of a provider that was settled.

ghost use Rattle.std.specs.Prelude.{◌≡◌, length};
ghost use Rattle.am_store.specs.Journal.{posts_of};
ghost use Rattle.am_store.specs.Journal.{journal_of};
ghost use Rattle.am_provider.specs.BookView.{places_of};

use crate::answers::{Counts, Ended};
use am_store::Journal;
use am_store::store::AlertMap;
use std::fmt;

/// What is left of a provider once it is settled.
#[derive(Drop)]
pub struct Settled {
    /// Its accepted calls, in order, as far as trims and compactions left them in memory.
    pub journal: Journal,
    /// What is stored.
    pub store: AlertMap,
    /// The ending of each subscription that was given back and whose Subscribed is among these calls, in order.
    pub ended: Vec<Ended>,
    /// How many other subscriptions were given back.
    pub early: u64,
    /// Whether all passes were given. Then their own posts are all places of the log.
    pub complete: bool,
    pub(crate) places: u64,
    pub(crate) posts: u64,
    ghost places_of_journal: { places ≡ places_of (journal_of journal) },
    ghost posts_of_journal: { posts ≡ posts_of (journal_of journal) },
}

impl Settled {
    /// How many places, posts and stored alerts there are, by the journal and the store.
    pub fn counts(&self) -> Counts
        ensures places { result.places ≡ places_of (journal_of self.now.journal) }
        ensures posts { result.posts ≡ posts_of (journal_of self.now.journal) }
        ensures stored { result.stored ≡ length self.now.store.entries }
    {
        Counts {
            places: self.places,
            posts: self.posts,
            stored: self.store.len() as u64,
        }
    }
}

impl fmt::Debug for Settled {
    fn fmt<W: fmt::Write>(&self, f: &mut fmt::Formatter<W>) -> fmt::Result {
        f.debug_struct("Settled")
            .field("ended", &self.ended)
            .field("early", &self.early)
            .field("complete", &self.complete)
            .finish_non_exhaustive()
    }
}
