//! The turns that callers took, in one list.
//!
//! It is a second history: entry k is the front that turn k's caller had at its end. So no caller is passed from
//! thread to thread, at two short holds of the provider's lock a turn.

ghost use Rattle.std.specs.Prelude.{◌≡◌, ◌<◌, [], List, length, take};
ghost use Rattle.std.specs.List.{All};
ghost use mathlib.Core.List.{IsPrefix};
ghost use Rattle.am_history.specs.Fronts.{FrontView};
ghost use Rattle.am_provider.specs.Histories.{EntryView};
ghost use Rattle.am_provider.specs.Turns.{IsBegun, IsEnded};

use crate::caller::Caller;
use crate::entry::Entry;
use crate::feed::Recorded;
use crate::provider::Provider;
use am_history::{Front, History, HistoryTable, Opened, Timeline};
use std::snapshot::Snapshot;
use std::sync::{Condvar, Mutex, Wait};

/// What a thread has seen of the turns that were taken: of each the front that its caller had at its end.
pub type TurnsSeen<N, M> = Front<Front<Entry, N>, M>;

/// The turns that were taken, in one list. The threads that take them share it.
#[derive(Drop)]
pub struct Register<N: Recorded, M: Timeline> {
    table: HistoryTable<Front<Entry, N>, M>,
    taken: Mutex<Taken<N, M>>,
}

// What lies under a register's lock.
#[derive(Drop)]
struct Taken<N: Recorded, M: Timeline> {
    // The number of the next turn: how many were taken.
    next: usize,
    // It has seen what the callers of these had at their ends.
    onlooker: Front<Entry, N>,
    turns: History<Front<Entry, N>, M>,
    // It makes the entries of the turns.
    maker: TurnsSeen<N, M>,
    ghost counted: { length turns ≡ next },
    ghost seen: { All (λ turn. take (length turn.seen) onlooker.seen ≡ turn.seen) turns },
    ghost makes: { 0 < maker.parts },
}

impl<N: Recorded, M: Timeline> Register<N, M> {
    /// A register of no turns, by a history of their own and a front that looks on at the provider's.
    pub fn new(opened: Opened<Front<Entry, N>, M>, onlooker: Front<Entry, N>) -> Register<N, M>
        requires empty { opened.history ≡ [] }
        requires makes { 0 < opened.front.parts }
    {
        let Opened {
            table,
            history,
            front,
        } = opened;
        Register {
            table,
            taken: Mutex::new(no_turns(history, front, onlooker)),
        }
    }

    /// What a thread has seen of the turns before its first. It made none.
    pub fn onlooker<R: Wait>(&self, rt: &R) -> TurnsSeen<N, M>
        ensures { (result.made ≡ []) × (result.parts ≡ 0) × (result.looks ≡ 0) }
    {
        self.taken.lock(rt).maker.onlooker(&self.table)
    }

    /// Waits until the turn of this number is the next one, woken by `came`, and shows what was done before it
    /// to its thread and its caller.
    pub fn begin<R: Wait>(
        &self,
        rt: &R,
        provider: &Provider<N>,
        came: &Condvar,
        at: usize,
        seen: &mut TurnsSeen<N, M>,
        caller: &mut Caller<N>,
    )
        ensures begun { IsBegun at seen.old.seen seen.new.seen caller.old.front caller.new.front }
        ensures pass { caller.new.pass ≡ caller.old.pass }
    {
        let taken = self.taken.lock(rt);
        let mut taken = came.wait_while(rt, taken, |taken| taken.next != at);
        taken.show(rt, provider, &self.table, seen, caller);
    }

    /// Notes that the turn of this number, which is the next one, was taken.
    pub fn end<R: Wait>(
        &self,
        rt: &R,
        provider: &Provider<N>,
        came: &Condvar,
        at: usize,
        seen: &mut TurnsSeen<N, M>,
        caller: &mut Caller<N>,
    )
        ensures ended { IsEnded at seen.old.seen seen.new.seen caller.old.front caller.new.front }
        ensures pass { caller.new.pass ≡ caller.old.pass }
    {
        let taken = self.taken.lock(rt);
        // Whoever has a turn is the next one, and there are fewer turns than that.
        let mut taken = came.wait_while(rt, taken, |taken| {
            taken.next != at || taken.next == usize::MAX
        });
        taken.add(rt, provider, &self.table, seen, caller);
    }

    /// All turns. Each of these threads had seen a beginning of them.
    pub fn conclude(self, seen: Vec<TurnsSeen<N, M>>)
        ensures { (turns : List (FrontView EntryView))
            × All (λ one. IsPrefix one.seen turns) seen.items }
    {
        let Register { table, taken } = self;
        let mut turns = taken.into_inner().turns;
        for one in seen {
            let mut one = one;
            turns.show(&table, &mut one);
        }
    }
}

fn no_turns<N: Recorded, M: Timeline>(
    turns: History<Front<Entry, N>, M>,
    maker: TurnsSeen<N, M>,
    onlooker: Front<Entry, N>,
) -> Taken<N, M>
    requires empty { turns ≡ [] }
    requires makes { 0 < maker.parts }
{
    Taken {
        next: 0,
        onlooker,
        turns,
        maker,
    }
}

impl<N: Recorded, M: Timeline> Taken<N, M> {
    // Shows the turns and the provider's history.
    fn show<R: Wait>(
        &mut self,
        rt: &R,
        provider: &Provider<N>,
        table: &HistoryTable<Front<Entry, N>, M>,
        seen: &mut TurnsSeen<N, M>,
        caller: &mut Caller<N>,
    )
        ensures begun { IsBegun self.old.next seen.old.seen seen.new.seen caller.old.front caller.new.front }
        ensures pass { caller.new.pass ≡ caller.old.pass }
    {
        provider.look(rt, caller, &mut self.onlooker);
        self.turns.show(table, seen);
    }

    // Adds the turn that its caller has finished.
    fn add<R: Wait>(
        &mut self,
        rt: &R,
        provider: &Provider<N>,
        table: &HistoryTable<Front<Entry, N>, M>,
        seen: &mut TurnsSeen<N, M>,
        caller: &mut Caller<N>,
    )
        requires { self.old.next < 18446744073709551615 }
        ensures ended { IsEnded self.old.next seen.old.seen seen.new.seen caller.old.front caller.new.front }
        ensures pass { caller.new.pass ≡ caller.old.pass }
    {
        provider.look(rt, caller, &mut self.onlooker);
        self.turns.show(table, seen);
        self.turns
            .push(table, &Snapshot::of(caller.front()), &mut self.maker);
        self.next += 1;
        self.turns.show(table, seen);
    }
}
