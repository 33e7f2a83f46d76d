//! The end of the log, and the calls of the journal that memory doesn't need any more.

ghost use Rattle.std.specs.Prelude.{◌≡◌};
ghost use Rattle.am_provider.specs.Callers.{SeesCall};
ghost use Rattle.am_provider.specs.Headline.{AnswersClose, AnswersCompact, AnswersTrim};

use crate::caller::Caller;
use crate::entry::Entry;
use crate::feed::Recorded;
use crate::provider::Provider;
use crate::recorded_book::record;
use am_cast::CloseFault;
use am_store::{Call, LaneSet};
use std::alloc::AllocError;
use std::snapshot::Snapshot;
use std::sync::Wait;

impl<N: Recorded> Provider<N> {
    /// Ends the log: no post and no subscription is accepted from now on.
    pub fn close<R: Wait>(&self, rt: &R, caller: &mut Caller<N>) -> Result<(), CloseFault>
        ensures sees { SeesCall caller.old.front caller.new.front (AnswersClose result) }
        ensures pass { caller.new.pass ≡ caller.old.pass }
    {
        {
            let recorded = &mut *self.lock(rt);
            recorded.book.kept();
            let Ok(()) = recorded.book.close(&self.cast) else {
                recorded.history.show(&self.table, &mut caller.front);
                return Err(CloseFault);
            };
            recorded.book.kept();
            record(
                &mut recorded.history,
                &self.table,
                &Call::Closed,
                LaneSet::EMPTY,
                None,
                caller,
            );
        }
        self.cast.wake();
        Ok(())
    }

    /// Discards the calls of the journal that no open subscription needs, and answers how many.
    pub fn trim<R: Wait>(&self, rt: &R, caller: &mut Caller<N>) -> Result<u64, AllocError>
        ensures sees { SeesCall caller.old.front caller.new.front (AnswersTrim result) }
        ensures pass { caller.new.pass ≡ caller.old.pass }
    {
        let (count, _discarded) = {
            let recorded = &mut *self.lock(rt);
            recorded.book.kept();
            let count = match recorded.book.trim() {
                Ok(count) => count,
                Err(error) => {
                    recorded.history.show(&self.table, &mut caller.front);
                    return Err(error);
                }
            };
            recorded.book.kept();
            let entry = Entry::trimmed(count);
            recorded
                .history
                .push(&self.table, &Snapshot::of(&entry), &mut caller.front);
            (count, recorded.book.take_discarded())
        };
        Ok(count)
    }

    /// Takes the calls of the journal out of memory, also while subscriptions are open, and answers how many
    /// those were. Then memory depends on what is stored, and on nothing else that was called before. Every
    /// subscription is owed what it was owed: nobody can tell.
    pub fn compact<R: Wait>(&self, rt: &R, caller: &mut Caller<N>) -> Result<u64, AllocError>
        ensures sees { SeesCall caller.old.front caller.new.front (AnswersCompact result) }
        ensures pass { caller.new.pass ≡ caller.old.pass }
    {
        let (count, _discarded, _outdated) = {
            let recorded = &mut *self.lock(rt);
            let count = match recorded.book.compact() {
                Ok(count) => count,
                Err(error) => {
                    recorded.history.show(&self.table, &mut caller.front);
                    return Err(error);
                }
            };
            let entry = Entry::compacted(count);
            recorded
                .history
                .push(&self.table, &Snapshot::of(&entry), &mut caller.front);
            (
                count,
                recorded.book.take_discarded(),
                recorded.take_outdated(),
            )
        };
        Ok(count)
    }
}
