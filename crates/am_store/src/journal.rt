//! The journal of the accepted calls. Its first calls can be discarded, once no open
//! subscription needs them: what they left takes their place.

ghost use Rattle.std.specs.Prelude.{◌≡◌, ◌<◌, ◌≤◌, ◌+◌, ◌^◌, IfOk, length};
ghost use Rattle.std.specs.VecDeque.{deque_capacity};
ghost use Rattle.am_store.specs.Journal.{call_count, first_calls, new_journal, IsLegal};
ghost use Rattle.am_store.specs.Stored.{updates, stored};
ghost use Rattle.am_store.specs.Trims.{IsTrimmed};
ghost use Rattle.am_store.specs.Journal.{journal_of, AreCounted};
ghost use Rattle.am_store.specs.inside.Journals.{IsCounted, IsOnALane};

use crate::call::Call;
use crate::discarded::Discarded;
use crate::lane_set::LaneSet;
use crate::shared_alerts::StoredAlerts;
use std::alloc::{AllocError, Global};
use std::collections::VecDeque;
use std::mem;

/// How many calls can be discarded from a journal in all.
pub const MAX_BEFORE: u64 = 9_223_372_036_854_775_807;

/// The accepted calls, of which the first may have been discarded.
#[derive(Debug, Drop)]
pub struct Journal {
    /// How many calls were discarded.
    pub before: u64,
    /// How many batches the discarded calls sent out.
    pub places: u64,
    /// How many posts were among them.
    pub posts: u64,
    /// How many subscriptions they gave back.
    pub lefts: u64,
    /// What was stored after them.
    pub store: StoredAlerts,
    /// The lanes that were open after them.
    pub lanes: LaneSet,
    /// Whether the log was ended by then.
    pub closed: bool,
    /// The calls since.
    pub calls: VecDeque<Call>,
}

impl Journal {
    /// A journal without a call.
    pub fn new(alloc: Global) -> Result<Journal, AllocError>
        ensures { IfOk result (λ journal. journal_of journal ≡ new_journal) }
    {
        Ok(Journal {
            before: 0,
            places: 0,
            posts: 0,
            lefts: 0,
            store: StoredAlerts::new(alloc, Vec::new(alloc))?,
            lanes: LaneSet::EMPTY,
            closed: false,
            calls: VecDeque::new(alloc),
        })
    }

    /// How many calls there were, those that were dropped too.
    pub fn call_count(&self) -> u64
        requires { self.now.before ≤ MAX_BEFORE }
        ensures { result ≡ call_count (journal_of self.now) }
    {
        self.before + self.calls.len() as u64
    }

    /// Discards that many of the calls that are left. What was stored after them is given.
    pub fn drop_first(&mut self, count: usize, store: StoredAlerts, discarded: &mut Discarded)
        requires within { count ≤ length self.old.calls.items }
        requires countable { self.old.before + count ≤ MAX_BEFORE }
        requires counted { AreCounted self.old }
        requires store { store ≡ stored (updates (first_calls count (journal_of self.old))) }
        requires legal { IsLegal (journal_of self.old) }
        ensures trimmed { IsTrimmed (journal_of self.old) count (journal_of self.new) }
        ensures counted { AreCounted self.new }
        ensures capacity { deque_capacity self.new.calls ≡ deque_capacity self.old.calls }
    {
        discarded.reserve(count);
        for _ in 0..count {
            if let Some(call) = self.calls.pop_front() {
                self.count_dropped(&call);
                discarded.add_call(call);
            }
        }
        self.before += count as u64;
        discarded.add_list(mem::replace(&mut self.store, store));
    }

    // Counts a call among those that were discarded.
    fn count_dropped(&mut self, call: &Call)
        requires countable { (self.old.posts < MAX_BEFORE) × (self.old.lefts < MAX_BEFORE) }
        requires counted { self.old.places ≤ self.old.posts }
        requires lanes { self.old.lanes < 2 ^ 8 }
        requires lane { IsOnALane call.now }
        ensures { IsCounted self.old call.now self.new }
    {
        match call {
            Call::Posted { now: _, alerts } => {
                self.posts += 1;
                if !alerts.as_slice().is_empty() {
                    self.places += 1;
                }
            }
            Call::Collected(_) => {}
            Call::Subscribed(lane) => self.lanes = self.lanes.with(*lane),
            Call::Left(lane) => {
                self.lefts += 1;
                self.lanes = self.lanes.without(*lane);
            }
            Call::Closed => self.closed = true,
        }
    }
}
