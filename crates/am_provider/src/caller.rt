//! The right to call a provider.
//!
//! A handle that holds the provider too would have to be made anew for each subscription that outlives it. A
//! front can't be made from nothing: its part of the ledger is what makes the callers' entries together all
//! entries.

ghost use Rattle.std.specs.Prelude.{◌≡◌, ◌≤◌, [], length, map, vec_capacity};
ghost use Rattle.std.specs.List.{All};
ghost use mathlib.Core.List.{IsPrefix};
ghost use Rattle.am_provider.specs.Callers.{IsNewCaller};
ghost use Rattle.am_provider.specs.Rising.{IsRising};
ghost use Rattle.am_provider.specs.Settling.{made_of, own_in, own_of, parts_in};
ghost use Rattle.am_provider.specs.inside.Gatherings.{IsGathered};

use crate::entry::Entry;
use crate::feed::{Cast, Recorded};
use crate::pass::{Joined, Pass};
use am_history::{Front, History, HistoryTable};
use std::fmt;

/// One caller's right to call a provider: its right to post, and how much of the provider's history it
/// has seen. A thread needs one of its own, and another thread may have it after that one.
#[derive(Drop)]
pub struct Caller<N: Recorded> {
    /// What it posted, and how far it knows the log. `Subscription::next_past` and others that don't take the lock borrow
    /// it alone.
    pub pass: Pass<N>,
    /// The beginning of the history that it has seen, and which entries of it are its own. Its length is the
    /// number of the last call that it made or saw.
    pub(crate) front: Front<Entry, N>,
    pub ghost one: { front.parts ≡ 1 },
}

impl<N: Recorded> Caller<N> {
    pub fn front(&self) -> &Front<Entry, N>
        ensures { result.now ≡ self.now.front }
    {
        &self.front
    }
}

// A caller for each pass, with a part of the history's ledger each.
pub(crate) fn deal<N: Recorded>(
    table: &HistoryTable<Entry, N>,
    front: Front<Entry, N>,
    passes: Vec<Pass<N>>,
    room: Vec<Caller<N>>,
) -> Vec<Caller<N>>
    requires front { front ≡ record {
      seen = [];
      made = [];
      parts = length passes.items;
      seat = front.seat;
      looks = 0;
    } }
    requires room { (room.items ≡ []) × (length passes.items ≤ vec_capacity room) }
    requires fresh { All (λ pass. pass ≡ record { noted = []; own = [] }) passes.items }
    ensures count { length result.items ≡ length passes.items }
    ensures fresh { All (λ caller. IsNewCaller caller.pass caller.front) result.items }
{
    let mut front = front;
    let mut dealt = room;
    for pass in passes {
        let front = front.split_off(table);
        dealt.push_reserved(Caller { pass, front });
    }
    dealt
}

// All callers' passes as one, and their fronts as one that has seen all of the history, if there is any.
pub(crate) fn gather<N: Recorded>(
    cast: &Cast<N>,
    table: &HistoryTable<Entry, N>,
    history: &mut History<Entry, N>,
    callers: Vec<Caller<N>>,
) -> Option<(Joined<N>, Front<Entry, N>)>
    ensures same { history.new ≡ history.old }
    ensures gathered { IsGathered history.old (map (λ caller. caller.pass) callers.items)
        (map (λ caller. caller.front) callers.items) result }
    ensures rising { All (λ caller. IsRising caller.pass.own) callers.items }
{
    let mut left = callers;
    let first = match left.pop() {
        Some(first) => first,
        None => return None,
    };
    let Caller { pass, mut front } = first;
    history.show(table, &mut front);
    let mut passes = Joined::of(pass);
    while let Some(next) = left.pop() {
        let Caller {
            pass,
            front: mut other,
        } = next;
        history.show(table, &mut other);
        passes.take_in(cast, pass);
        front.merge(table, other);
    }
    Some((passes, front))
}

impl<N: Recorded> fmt::Debug for Caller<N> {
    fn fmt<W: fmt::Write>(&self, f: &mut fmt::Formatter<W>) -> fmt::Result {
        f.debug_struct("Caller").finish_non_exhaustive()
    }
}
