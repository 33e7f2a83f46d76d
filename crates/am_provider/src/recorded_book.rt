//! What lies under a provider's lock: the Book, and the history of its accepted calls, trims and compactions.

ghost use Rattle.std.specs.Prelude.{◌≡◌, ◌+◌, ◌++◌, ◌∷◌, IfOk, OnErr, OnOk, None, [], length};
ghost use mathlib.Core.List.{IsPrefix};
ghost use Rattle.am_history.specs.Fronts.{made_at};
ghost use Rattle.am_provider.specs.Callers.{SeesCall};
ghost use Rattle.am_provider.specs.Headline.{AnswersCollect, AnswersPost};
ghost use Rattle.am_provider.specs.Histories.{Accepted};
ghost use Rattle.am_provider.specs.Posts.{AddsOwn};

use crate::answers::{Ended, Posted};
use crate::book::Book;
use crate::caller::Caller;
use crate::entry::Entry;
use crate::feed::{Cast, Recorded};
use crate::prepared_post::PreparedPost;
use am_alert::Moment;
use am_history::{History, HistoryTable};
use am_store::{Call, LaneSet, PutFault, StoredAlerts};
use std::alloc::AllocError;
use std::marker::Model;
use std::snapshot::Snapshot;

/// A Book, and the history that its journal is what trims left of.
pub(crate) struct RecordedBook<N: Recorded> {
    pub(crate) book: Book<N>,
    pub(crate) history: History<Entry, N>,
}

impl<N: Recorded> Model for RecordedBook<N> {
    ghost use Rattle.std.specs.Coded.{codes};
    ghost use Rattle.am_alert.specs.Alerts.{coded_alert};
    ghost use Rattle.am_store.specs.contracts.call.Call as call;
    ghost use Rattle.am_store.specs.contracts.lanes.OpenLane as lane;
    ghost use Rattle.std.specs.Prelude.{◌≡◌, ◌≤◌};
    ghost use Rattle.am_provider.specs.contracts.entry.Entry as entry;
    ghost use Rattle.am_provider.specs.inside.Records.{RecordedView, IsRecorded};

    ghost Value = { RecordedView };

    ghost coded = { Prim.hlevel (codes, coded_alert, call.the_row.coded, lane.the_row.coded, entry.the_row.coded) };

    ghost view = { λ r. record { book = r.book; entries = r.history } };

    ghost invariant = { λ r. IsRecorded N.policy N.places r.book r.history × ((N.holders ≡ N.parts) × (1 ≤ N.parts)) };
}

impl<N: Recorded> RecordedBook<N> {
    /// Posts alerts that were prepared before the lock was taken.
    pub(crate) fn post(
        &mut self,
        cast: &Cast<N>,
        table: &HistoryTable<Entry, N>,
        caller: &mut Caller<N>,
        post: PreparedPost,
        now: Moment,
    ) -> Result<Posted, PutFault>
        ensures sees { SeesCall caller.old.front caller.new.front
            (AnswersPost N.policy N.places now post result) }
        ensures seen { IfOk result (λ posted. caller.new.front.seen
            ≡ self.old.entries ++ Accepted (Call.Posted now post.valid) posted.cut None ∷ []) }
        ensures unseen { OnErr result (caller.new.front.seen ≡ self.old.entries) }
        ensures own { IfOk result (λ posted.
            AddsOwn caller.old.pass now post.valid posted.place caller.new.pass) }
        ensures err { OnErr result (caller.new.pass ≡ caller.old.pass) }
    {
        self.book.kept();
        let posted = match self.book.post_prepared(cast, &mut caller.pass, post, now) {
            Ok(posted) => posted,
            Err(fault) => {
                self.history.show(table, &mut caller.front);
                return Err(fault);
            }
        };
        self.book.kept();
        record(
            &mut self.history,
            table,
            self.book.last_call(),
            posted.cut,
            None,
            caller,
        );
        Ok(posted)
    }

    /// Removes what is resolved.
    pub(crate) fn collect_resolved(
        &mut self,
        table: &HistoryTable<Entry, N>,
        caller: &mut Caller<N>,
        now: Moment,
    ) -> Result<u64, AllocError>
        ensures sees { SeesCall caller.old.front caller.new.front (AnswersCollect now result) }
        ensures seen { OnOk result
            (caller.new.front.seen ≡ self.old.entries ++ Accepted (Call.Collected now) 0 None ∷ []) }
        ensures pass { caller.new.pass ≡ caller.old.pass }
    {
        self.book.kept();
        let removed = match self.book.collect_resolved(now) {
            Ok(removed) => removed,
            Err(error) => {
                self.history.show(table, &mut caller.front);
                return Err(error);
            }
        };
        self.book.kept();
        record(
            &mut self.history,
            table,
            &Call::Collected(now),
            LaneSet::EMPTY,
            None,
            caller,
        );
        Ok(removed)
    }

    /// A list of what is stored that has changed since it was shared, if one was let go: for who drops it once the
    /// lock is given back. It is given once.
    pub(crate) fn take_outdated(&mut self) -> Option<StoredAlerts>
        ensures { self.new ≡ self.old }
    {
        self.book.take_outdated()
    }
}

// One entry more, for a call that was accepted.
pub(crate) fn record<N: Recorded>(
    history: &mut History<Entry, N>,
    table: &HistoryTable<Entry, N>,
    call: &Call,
    cut: LaneSet,
    ended: Option<Ended>,
    caller: &mut Caller<N>,
)
    ensures longer { history.new ≡ history.old ++ Accepted call.now cut ended ∷ [] }
    ensures known { IsPrefix caller.old.front.seen history.old }
    ensures seen { caller.new.front.seen ≡ history.new }
    ensures made { caller.new.front.made ≡ caller.old.front.made
        ++ made_at (length history.old) (Accepted call.now cut ended) ∷ [] }
    ensures looked { (caller.new.front.seat ≡ caller.old.front.seat)
        × (caller.new.front.looks ≡ caller.old.front.looks + 1) }
    ensures pass { caller.new.pass ≡ caller.old.pass }
{
    let entry = Entry::accepted(call, cut, ended);
    history.push(table, &Snapshot::of(&entry), &mut caller.front);
}
