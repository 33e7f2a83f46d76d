//! Collections, which remove what is resolved.

ghost use Rattle.std.specs.Prelude.{◌≡◌, IfOk, OnOk, OnErr, not, filter, count_by};
ghost use Rattle.am_alert.specs.Merging.{is_resolved_at};
ghost use Rattle.am_store.specs.Journal.{with_call};
ghost use Rattle.am_store.specs.Stored.{stored};
ghost use Rattle.am_provider.specs.Posts.{KeepsRest};

use crate::book::{Book, ENTRIES};
use crate::feed::Origin;
use am_alert::Moment;
use am_store::{Call, StoredAlerts};
use std::alloc::AllocError;

impl<N: Origin> Book<N> {
    /// Removes the stored alerts that are resolved, and answers how many. Subscribers aren't notified.
    /// It is accepted after the log's end too.
    pub fn collect_resolved(&mut self, now: Moment) -> Result<u64, AllocError>
        ensures journal { OnOk result
            (self.new.journal ≡ with_call self.old.journal (Call.Collected now)) }
        ensures removed { IfOk result
            (λ removed. removed ≡ count_by (is_resolved_at now) self.old.stored) }
        ensures stored { OnOk result
            (self.new.stored ≡ filter (λ alert. not (is_resolved_at now alert)) self.old.stored) }
        ensures log { self.new.log ≡ self.old.log }
        ensures rest { KeepsRest self.old self.new }
        ensures err { OnErr result (self.new ≡ self.old) }
    {
        self.journal.reserve(ENTRIES)?;
        let removed = self.stored.remove_resolved(now);
        self.journal.push(Call::Collected(now));
        Ok(removed)
    }

    /// The same collection, which answers the alerts that it removed, in the order in which they were
    /// stored. They are shared before anything is removed.
    pub fn take_resolved(&mut self, now: Moment) -> Result<StoredAlerts, AllocError>
        ensures journal { OnOk result
            (self.new.journal ≡ with_call self.old.journal (Call.Collected now)) }
        ensures removed { IfOk result
            (λ removed. removed ≡ filter (is_resolved_at now) self.old.stored) }
        ensures stored { OnOk result
            (self.new.stored ≡ filter (λ alert. not (is_resolved_at now alert)) self.old.stored) }
        ensures log { self.new.log ≡ self.old.log }
        ensures rest { KeepsRest self.old self.new }
        ensures err { OnErr result (self.new ≡ self.old) }
    {
        let resolved = self.resolved(now)?;
        self.collect_resolved(now)?;
        Ok(resolved)
    }

    // The stored alerts that are resolved.
    pub(crate) fn resolved(&self, now: Moment) -> Result<StoredAlerts, AllocError>
        ensures { IfOk result (λ resolved. resolved ≡ filter (is_resolved_at now) self.now.stored) }
    {
        self.stored.share_resolved(now)
    }
}
