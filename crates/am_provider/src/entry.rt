//! What the history of a provider is made of.
//!
//! Cut lanes, trims, compactions and endings are in entries, so that `leave`, `trim`, `compact` and
//! `settle` answer by the history. The list that a subscription took isn't: it begins what was due
//! (`BeginningIsKnown`).

ghost use Rattle.std.specs.Prelude.{◌≡◌};
ghost use Rattle.am_provider.specs.Histories.{Accepted, Compacted, Trimmed};

use crate::answers::Ended;
use am_store::{Call, LaneSet};
use std::marker::Model;
use std::snapshot::Snapshot;

/// One entry of a provider's history: an accepted call, a trim of the journal or a compaction. It exists in
/// proofs alone.
#[derive(Drop)]
pub struct Entry {
    kind: EntryKind,
}

#[derive(Drop)]
enum EntryKind {
    /// A call, the lanes that it cut, and what it answered of a subscription that it took back.
    Accepted(Snapshot<Call>, LaneSet, Option<Ended>),
    /// How many calls a trim discarded.
    Trimmed(u64),
    /// How many calls a compaction took out of memory.
    Compacted(u64),
}

impl Model for Entry {
    ghost use Rattle.std.specs.Coded.{codes};
    ghost use Rattle.am_alert.specs.Alerts.{coded_alert};
    ghost use Rattle.am_store.specs.contracts.call.Call as called;
    ghost use Rattle.am_provider.specs.contracts.answers.Ended as answered;
    ghost use Rattle.am_provider.specs.Histories.{EntryView};
    ghost use Rattle.am_provider.specs.inside.Entries.{entry_of};

    ghost Value = { EntryView };

    ghost coded = { Prim.hlevel (codes, coded_alert, called.the_row.coded, answered.the_row.coded) };

    ghost view = { λ e. entry_of e.kind };
}

impl Entry {
    /// An accepted call, the lanes that it cut, and what it answered of a subscription that it took back.
    pub(crate) fn accepted(call: &Call, cut: LaneSet, ended: Option<Ended>) -> Entry
        ensures { result ≡ Accepted call.now cut ended }
    {
        let call = Snapshot::of(call);
        Entry {
            kind: EntryKind::Accepted(call, cut, ended),
        }
    }

    /// A trim that discarded `count` calls of the journal.
    pub(crate) fn trimmed(count: u64) -> Entry
        ensures { result ≡ Trimmed count }
    {
        Entry {
            kind: EntryKind::Trimmed(count),
        }
    }

    /// A compaction that took `count` calls of the journal out of memory.
    pub(crate) fn compacted(count: u64) -> Entry
        ensures { result ≡ Compacted count }
    {
        Entry {
            kind: EntryKind::Compacted(count),
        }
    }
}
