//! Trims and compactions, which take calls out of memory.

ghost use Rattle.std.specs.Prelude.{◌≡◌, ◌≤◌, ◌<◌, ◌+◌, IfOk, OnOk, OnErr, ℕ, ◌-◌, length, filter, max, nat_le};
ghost use Rattle.am_store.specs.Journal.{call_count, first_calls};
ghost use Rattle.am_store.specs.Trims.{AreBeforeOpen, Drops, IsTrimmed};
ghost use Rattle.am_store.specs.Stored.{updates, stored};
ghost use Rattle.am_provider.specs.Posts.{HasSameLimits};

use crate::book::Book;
use crate::feed::Origin;
use am_store::lanes::{earliest, let_openings_go};
use am_store::{Discarded, MAX_BEFORE, StoredAlerts};
use std::alloc::AllocError;
use std::mem;

impl<N: Origin> Book<N> {
    /// Discards the calls before the earliest open subscription from the journal, or all if none is
    /// open, and answers how many. The endings of the subscriptions among them go too, and are
    /// counted. Nothing else changes. It is no call of the journal, and is allowed after the log's
    /// end.
    pub fn trim(&mut self) -> Result<u64, AllocError>
        ensures dropped { IfOk result (Drops self.old.journal) }
        ensures journal { IfOk result (λ dropped.
            IsTrimmed self.old.journal dropped self.new.journal) }
        ensures endings { self.new.endings
            ≡ filter (λ ended. nat_le self.new.journal.before ended.at) self.old.endings }
        ensures early { self.new.early + length self.new.endings
            ≡ self.old.early + length self.old.endings }
        ensures gone { OnOk result (self.new.gone ≡ max self.old.gone self.new.journal.before) }
        ensures stored { self.new.stored ≡ self.old.stored }
        ensures log { self.new.log ≡ self.old.log }
        ensures limits { HasSameLimits self.old self.new }

        ensures err { OnErr result (self.new ≡ self.old) }
    {
        let before = self.journal.discarded();
        let count = self.owed_from() - before;
        if count == 0 || count > MAX_BEFORE - before {
            return Ok(0);
        }
        let store = self.stored_then()?;
        self.journal.trim(count, store, &mut self.discarded);
        self.endings.trim(before + count, self.journal.gone());
        Ok(count)
    }

    // How many calls there had been before the earliest open subscription, or in all if none is
    // open.
    fn owed_from(&self) -> u64
        ensures within { self.now.journal.before ≤ result }
        ensures before { AreBeforeOpen self.now.journal (result - self.now.journal.before) }
    {
        match earliest(&self.lanes) {
            Some(open) => open.at,
            None => self.journal.call_count(),
        }
    }

    // What was stored then.
    fn stored_then(&mut self) -> Result<StoredAlerts, AllocError>
        ensures stored { IfOk result (λ store. (count : ℕ) → AreBeforeOpen self.old.journal count
            → self.old.gone < self.old.journal.before + count
            → store ≡ stored (updates (first_calls count self.old.journal))) }
        ensures same { self.new ≡ self.old }
    {
        match earliest(&self.lanes) {
            Some(open) => open.opening.share(),
            None => self.stored.share_all(),
        }
    }

    /// Takes the calls of the journal out of memory, also while subscriptions are open, and answers how many
    /// those were. The endings of the subscriptions among them go too. The journal stays, and so does what is
    /// owed to each subscription: nobody can tell. It is no call of the journal, and is allowed after the log's
    /// end.
    pub fn compact(&mut self) -> Result<u64, AllocError>
        ensures same { self.new ≡ record self.old { gone = self.new.gone } }
        ensures gone { OnOk result (self.new.gone ≡ call_count self.old.journal) }
        ensures count { IfOk result (λ count. self.old.gone + count ≡ self.new.gone) }
        ensures err { OnErr result (self.new ≡ self.old) }
    {
        let store = self.stored.share_all()?;
        let others = store.share()?;
        let count = self.journal.compact(store, &mut self.discarded);
        self.endings.let_go(self.journal.gone());
        let_openings_go(&mut self.lanes, &others, &mut self.discarded);
        Ok(count)
    }

    // What trims and compactions have discarded, if it is kept. It is given once.
    pub(crate) fn take_discarded(&mut self) -> Discarded
        ensures { self.new ≡ self.old }
    {
        let alloc = *self.stored.allocator();
        mem::replace(&mut self.discarded, Discarded::new(alloc, true))
    }
}
