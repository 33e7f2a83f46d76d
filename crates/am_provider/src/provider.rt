//! The provider: a Book under a lock, with subscriptions that read without it. Nothing is printed, parsed or waited for
//! under the lock. The blocks of a post's alerts are made before, unless a filter judges them. What a post replaces,
//! the opening of a subscription that leaves, and a list of what is stored that another one takes the place of, are
//! dropped once it is given back.
//!
//! Each call is made on the Book. If it was accepted, an entry is added to the history, and the caller's front sees all of
//! it; if it was refused, the front sees what there is.

ghost use Rattle.std.specs.Prelude.{◌≡◌, ◌↔◌, IsTrue, IfOk, [], length, map};
ghost use Rattle.std.specs.List.{All};
ghost use Rattle.am_provider.specs.Callers.{IsNewCaller, SeesWhole};
ghost use Rattle.am_provider.specs.PartsOf.{AreOf};
ghost use Rattle.am_provider.specs.Rising.{IsRising};
ghost use Rattle.am_provider.specs.Ending.{IsSettledFrom};

mod journal;
mod post;
mod stored;
mod subscriptions;

use crate::answers::Policy;
use crate::book::Book;
use crate::caller::{Caller, deal, gather};
use crate::entry::Entry;
use crate::feed::{Cast, Recorded};
use crate::parts::{Begun, Parts};
use crate::recorded_book::RecordedBook;
use crate::settled::Settled;
use am_history::{Front, HistoryTable, Opened, open};
use std::alloc::{AllocError, Global};
use std::fmt;
use std::sync::{Mutex, MutexGuard, Wait};
use std::time::Duration;

// How often a call tries to take the lock before its thread sleeps, as measured with four posters: fewer
// tries posted less, and more no more.
const YIELDS: u32 = 500;

/// The alert provider for threads. It is ended by `settle`.
pub struct Provider<N: Recorded> {
    cast: Cast<N>,
    table: HistoryTable<Entry, N>,
    book: Mutex<RecordedBook<N>>,
    alloc: Global,
    /// How long a report without an end lasts.
    resolve_timeout: Duration,
}

impl<N: Recorded> Provider<N> {
    /// A new provider over these parts, and its callers.
    pub fn begin(
        alloc: Global,
        parts: Parts,
        policy: Policy,
        resolve_timeout: Duration,
    ) -> Result<(Provider<N>, Vec<Caller<N>>), AllocError>
        requires parts { AreOf N.table N.name N.parts N.timeline N.entries N.holders parts }
        requires limits { (parts.log.places ≡ N.places) × (policy ≡ N.policy) }
        ensures timeout { IfOk result (λ made. made.0.resolve_timeout ≡ resolve_timeout) }
        ensures callers { IfOk result (λ made. (length made.1.items ≡ parts.posters)
            × All (λ caller. IsNewCaller caller.pass caller.front) made.1.items) }
    {
        let Parts {
            log,
            ledger,
            history,
            posters,
        } = parts;
        let Begun { cast, book, passes } = Book::begin_over(
            alloc, log, ledger, posters, policy, true,
        )?;
        let Ok(room) = Vec::with_capacity(alloc, posters as usize) else {
            book.discard(cast);
            return Err(AllocError);
        };
        let Opened {
            table,
            history,
            front,
        } = open::<Entry, N>(history);
        let callers = deal(&table, front, passes, room);
        let provider = Provider {
            cast,
            table,
            book: Mutex::new(RecordedBook { book, history }),
            alloc,
            resolve_timeout,
        };
        Ok((provider, callers))
    }

    pub fn resolve_timeout(&self) -> Duration
        ensures { result ≡ self.now.resolve_timeout }
    {
        self.resolve_timeout
    }

    /// A front for an onlooker of the calls, who makes none. It has seen as much of the history as the
    /// caller.
    pub fn onlooker(&self, caller: &mut Caller<N>) -> Front<Entry, N>
        ensures pass { caller.new.pass ≡ caller.old.pass }
        ensures front { caller.new.front ≡ caller.old.front }
        ensures onlooker { result ≡ record {
          seen = caller.old.front.seen;
          made = [];
          parts = 0;
          seat = result.seat;
          looks = 0;
        } }
    {
        caller.front.onlooker(&self.table)
    }

    /// Shows the whole history, as it is now, to a caller and to an onlooker. It adds nothing to it.
    pub fn look<R: Wait>(&self, rt: &R, caller: &mut Caller<N>, onlooker: &mut Front<Entry, N>)
        ensures sees { SeesWhole caller.old.front caller.new.front onlooker.old onlooker.new }
        ensures pass { caller.new.pass ≡ caller.old.pass }
    {
        let recorded = &mut *self.lock(rt);
        recorded.history.show(&self.table, &mut caller.front);
        recorded.history.show(&self.table, onlooker);
    }

    /// Ends the provider. Each pass's posts have rising places, in the order in which it posted them. While a
    /// subscription is open it doesn't compile, since the subscription borrows the provider.
    pub fn settle(self, callers: Vec<Caller<N>>) -> Settled
        ensures settled { IsSettledFrom (map (λ caller. caller.pass) callers.items)
            (map (λ caller. caller.front) callers.items) result }
        ensures rising { All (λ caller. IsRising caller.pass.own) callers.items }
        ensures complete { IsTrue result.complete ↔ (length callers.items ≡ N.parts) }
    {
        let (cast, table, recorded) = self.into_parts();
        let RecordedBook { book, mut history } = recorded;
        book.kept();
        let count = callers.len();
        let passes = match gather(&cast, &table, &mut history, callers) {
            Some((passes, mut front)) => {
                history.audit(&table, &mut front);
                Some(passes)
            }
            None => None,
        };
        book.settle_joined(cast, passes, count)
    }

    // The Book, once no other call has it.
    fn lock<R: Wait>(&self, rt: &R) -> MutexGuard<'_, RecordedBook<N>> {
        for _try in 0..YIELDS {
            if let Some(book) = self.book.try_lock() {
                return book;
            }
        }
        self.book.lock(rt)
    }

    fn into_parts(self) -> (Cast<N>, HistoryTable<Entry, N>, RecordedBook<N>) {
        let Provider {
            cast,
            table,
            book,
            alloc: _,
            resolve_timeout: _,
        } = self;
        (cast, table, book.into_inner())
    }
}

impl<N: Recorded> fmt::Debug for Provider<N> {
    fn fmt<W: fmt::Write>(&self, f: &mut fmt::Formatter<W>) -> fmt::Result {
        f.debug_struct("Provider").finish_non_exhaustive()
    }
}
