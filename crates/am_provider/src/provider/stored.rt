//! What is stored: all of it, a page, one alert; and the resolved alerts, which are removed.

ghost use Rattle.std.specs.Prelude.{◌≡◌};
ghost use Rattle.am_provider.specs.Callers.{SeesCall};
ghost use Rattle.am_provider.specs.Headline.{AnswersCollect, AnswersGet, AnswersPage, AnswersStored, AnswersTake};

use crate::answers::Page;
use crate::caller::Caller;
use crate::feed::Recorded;
use crate::provider::Provider;
use am_alert::Moment;
use am_labels::LabelSet;
use am_store::{SharedAlert, StoredAlerts};
use std::alloc::AllocError;
use std::sync::Wait;

impl<N: Recorded> Provider<N> {
    /// What is stored, in order (`provider.Alerts`' GetPending). It adds nothing to the history and
    /// takes no lane.
    pub fn stored<R: Wait>(
        &self,
        rt: &R,
        caller: &mut Caller<N>,
    ) -> Result<StoredAlerts, AllocError>
        ensures sees { SeesCall caller.old.front caller.new.front (AnswersStored result) }
        ensures pass { caller.new.pass ≡ caller.old.pass }
    {
        let (stored, _outdated) = {
            let recorded = &mut *self.lock(rt);
            recorded.book.kept();
            recorded.history.show(&self.table, &mut caller.front);
            let stored = recorded.book.stored();
            (stored, recorded.take_outdated())
        };
        stored
    }

    /// At most `most` of the stored alerts, in order, from the index `from` on. The lock is held for those
    /// alone, so other calls can come between two pages: posts change alerts and add some at the end, and a
    /// collection moves those that stay to lower indices.
    pub fn stored_page<R: Wait>(
        &self,
        rt: &R,
        caller: &mut Caller<N>,
        from: u64,
        most: u64,
    ) -> Result<Page, AllocError>
        ensures sees { SeesCall caller.old.front caller.new.front (AnswersPage from most result) }
        ensures pass { caller.new.pass ≡ caller.old.pass }
    {
        let recorded = &mut *self.lock(rt);
        recorded.book.kept();
        recorded.history.show(&self.table, &mut caller.front);
        recorded.book.stored_page(from, most)
    }

    /// The stored alert of a label set (`provider.Alerts`' Get). It adds nothing to the history, takes
    /// no memory, and fails only if the alert has 2^63 owners already.
    pub fn get<R: Wait>(
        &self,
        rt: &R,
        caller: &mut Caller<N>,
        labels: &LabelSet,
    ) -> Result<Option<SharedAlert>, AllocError>
        ensures sees { SeesCall caller.old.front caller.new.front (AnswersGet labels.now result) }
        ensures pass { caller.new.pass ≡ caller.old.pass }
    {
        let recorded = &mut *self.lock(rt);
        recorded.book.kept();
        recorded.history.show(&self.table, &mut caller.front);
        recorded.book.get(labels)
    }

    /// Removes the stored alerts that are resolved, and answers how many.
    pub fn collect_resolved<R: Wait>(
        &self,
        rt: &R,
        caller: &mut Caller<N>,
        now: Moment,
    ) -> Result<u64, AllocError>
        ensures sees { SeesCall caller.old.front caller.new.front (AnswersCollect now result) }
        ensures pass { caller.new.pass ≡ caller.old.pass }
    {
        let (removed, _outdated) = {
            let recorded = &mut *self.lock(rt);
            let removed = recorded.collect_resolved(&self.table, caller, now);
            (removed, recorded.take_outdated())
        };
        removed
    }

    /// Removes the stored alerts that are resolved, and answers them, in the order in which they were
    /// stored.
    pub fn take_resolved<R: Wait>(
        &self,
        rt: &R,
        caller: &mut Caller<N>,
        now: Moment,
    ) -> Result<StoredAlerts, AllocError>
        ensures sees { SeesCall caller.old.front caller.new.front (AnswersTake now result) }
        ensures pass { caller.new.pass ≡ caller.old.pass }
    {
        let (resolved, _outdated) = {
            let recorded = &mut *self.lock(rt);
            recorded.book.kept();
            let resolved = match recorded.book.resolved(now) {
                Ok(resolved) => resolved,
                Err(error) => {
                    recorded.history.show(&self.table, &mut caller.front);
                    return Err(error);
                }
            };
            match recorded.collect_resolved(&self.table, caller, now) {
                Ok(_) => (resolved, recorded.take_outdated()),
                Err(error) => return Err(error),
            }
        };
        Ok(resolved)
    }
}
