//! The journal as it is kept in memory: its calls since the last trim or compaction, and what those before
//! left.
//!
//! All of its calls are in it as past values, which take no memory: contracts read them, and no code.
//!
//! A ghost field can't hold them: two structs with the same ordinary fields have to be one value.

ghost use Rattle.std.specs.Prelude.{◌≡◌, ◌<◌, ◌≤◌, ◌+◌, ◌-◌, IfOk, OnOk, length, max, slice_index_or};
ghost use Rattle.am_store.specs.Journal.{journal_of, new_journal, with_call, call_count, first_calls, posts_of};
ghost use Rattle.am_store.specs.Journal.{MayFollow};
ghost use Rattle.am_store.specs.Stored.{updates, stored};
ghost use Rattle.am_store.specs.Trims.{IsTrimmed};

use crate::call::Call;
use crate::discarded::Discarded;
use crate::journal::{Journal, MAX_BEFORE};
use crate::past::Past;
use crate::shared_alerts::StoredAlerts;
use std::alloc::{AllocError, Global};
use std::fmt;
use std::marker::Model;

/// A journal, of which memory has as many calls as its last trim or compaction left. Contracts see it as trims
/// left it.
#[derive(Drop)]
pub struct KeptJournal {
    // What memory has of it.
    held: Journal,
    // All calls from the first on, for contracts alone: a past value takes no memory.
    calls: Vec<Past<Call>>,
    // How many calls trims discarded.
    before: u64,
}

impl Model for KeptJournal {
    ghost use Rattle.std.specs.Coded.{codes};
    ghost use Rattle.std.specs.VecDeque.{deque_len, deque_capacity};
    ghost use Rattle.std.specs.Prelude.{◌-◌, min, vec_len, vec_capacity};
    ghost use Rattle.am_alert.specs.Alerts.{coded_alert};
    ghost use Rattle.am_store.specs.contracts.call.Call as call;
    ghost use Rattle.am_store.specs.KeptJournals.{KeptView, IsKeptJournal, calls_in, trimmed_to};

    ghost Value = { KeptView };

    ghost coded = { Prim.hlevel (codes, coded_alert, call.the_row.coded) };

    ghost view = { λ k. record {
      journal = trimmed_to k.before (calls_in k.calls.items);
      gone = k.held.before;
      room = min (deque_capacity k.held.calls - deque_len k.held.calls)
          (vec_capacity k.calls - vec_len k.calls);
    } };

    ghost invariant = { λ k. IsKeptJournal k.before (calls_in k.calls.items) k.held };
}

impl KeptJournal {
    /// A journal without a call.
    pub fn new(alloc: Global) -> Result<KeptJournal, AllocError>
        ensures { IfOk result (λ kept. (kept.journal ≡ new_journal) × (kept.gone ≡ 0)) }
    {
        let held = Journal::new(alloc)?;
        Ok(KeptJournal {
            held,
            calls: Vec::new(alloc),
            before: 0,
        })
    }

    /// Makes room for `count` calls more. There are never more posts than can be counted.
    pub fn reserve(&mut self, count: usize) -> Result<(), AllocError>
        ensures same { (self.new.journal ≡ self.old.journal) × (self.new.gone ≡ self.old.gone) }
        ensures room { OnOk result (count ≤ self.new.room) }
        ensures kept { self.old.room ≤ self.new.room }
        ensures few { posts_of self.new.journal ≤ MAX_BEFORE }
    {
        self.held.calls.reserve(count)?;
        self.calls.reserve(count)
    }

    /// One call more.
    pub fn push(&mut self, call: Call)
        requires room { 0 < self.old.room }
        requires may { MayFollow self.old.journal call }
        ensures journal { self.new.journal ≡ with_call self.old.journal call }
        ensures gone { (self.new.gone ≡ self.old.gone) × (self.new.gone < call_count self.new.journal) }
        ensures room { self.old.room ≤ self.new.room + 1 }
    {
        self.calls.push_reserved(Past::of(&call));
        self.held.calls.push_back_reserved(call);
    }

    /// How many calls there were, the discarded ones too.
    pub fn call_count(&self) -> u64
        ensures { result ≡ call_count self.now.journal }
    {
        self.held.call_count()
    }

    /// The call that came last, if memory has it.
    pub fn last_call(&self) -> &Call
        requires { self.now.gone < call_count self.now.journal }
        ensures { result.now ≡ slice_index_or self.now.journal.calls
            (length self.now.journal.calls - 1) result.now }
    {
        match self.held.calls.back() {
            Some(call) => call,
            None => unreachable!(),
        }
    }

    /// How many calls trims discarded.
    pub fn discarded(&self) -> u64
        ensures count { result ≡ self.now.journal.before }
        ensures few { (result ≤ self.now.gone) × (result ≤ MAX_BEFORE) }
    {
        self.before
    }

    /// How many calls memory has no more.
    pub fn gone(&self) -> u64
        ensures { result ≡ self.now.gone }
    {
        self.held.before
    }

    /// Lets go of all calls in memory, and answers how many. What is stored is given. The journal stays.
    pub fn compact(&mut self, store: StoredAlerts, discarded: &mut Discarded) -> u64
        requires { store ≡ stored (updates self.old.journal) }
        ensures same { self.new.journal ≡ self.old.journal }
        ensures gone { self.new.gone ≡ call_count self.old.journal }
        ensures count { self.old.gone + result ≡ self.new.gone }
        ensures room { self.old.room ≤ self.new.room }
    {
        let count = self.held.calls.len();
        self.held.drop_first(count, store, discarded);
        count as u64
    }

    /// Discards that many of the calls since the last trim. What was stored after them is given, which is
    /// needed only if memory still has one of them.
    pub fn trim(&mut self, count: u64, store: StoredAlerts, discarded: &mut Discarded)
        requires within { count ≤ length self.old.journal.calls }
        requires store { self.old.gone < self.old.journal.before + count
            → store ≡ stored (updates (first_calls count self.old.journal)) }
        ensures trimmed { IsTrimmed self.old.journal count self.new.journal }
        ensures gone { self.new.gone ≡ max self.old.gone (self.old.journal.before + count) }
        ensures room { self.old.room ≤ self.new.room }
    {
        self.before += count;
        if self.held.before < self.before {
            let more = self.before - self.held.before;
            self.held.drop_first(more as usize, store, discarded);
        }
    }

    /// What memory has of the journal.
    pub fn into_held(self) -> Journal
        ensures held { IsTrimmed self.journal (self.gone - self.journal.before) (journal_of result) }
        ensures gone { (self.journal.before ≤ self.gone) × (self.gone ≤ call_count self.journal) }
    {
        let KeptJournal {
            held,
            calls: _,
            before: _,
        } = self;
        held
    }
}

impl fmt::Debug for KeptJournal {
    fn fmt<W: fmt::Write>(&self, f: &mut fmt::Formatter<W>) -> fmt::Result {
        f.debug_struct("KeptJournal")
            .field("before", &self.before)
            .finish_non_exhaustive()
    }
}
