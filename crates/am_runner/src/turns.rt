//! Who may run a line when.

use am_history::Timeline;
use am_provider::{Caller, Gate, Provider, Recorded, Register, TurnsSeen};
use am_script::Thread;
use std::sync::Wait;

/// One thing that a thread does: a line of the script, or the leaving of its subscriptions at its end.
#[derive(Clone, Copy, Debug, PartialEq, Eq)]
pub struct Turn {
    pub thread: Thread,
    /// The line's index in the script. The threads' ends come after all lines, by thread.
    pub at: usize,
}

/// When the threads run their lines. Each thread calls `begin` before each of its turns and `end` after it,
/// whether memory ran out in it or not; all turns of a script are some thread's.
pub trait Turns: Gate {
    ghost use Rattle.std.specs.Prelude.{Bool, ◌≡◌};
    ghost use Rattle.am_runner.specs.Turning.{Begins, Ends};

    // Whether the turns are taken in the order of their numbers.
    ghost ordered: { Bool };

    /// Returns when the turn may be taken. In an order, its thread then knows the turns before it, and its
    /// caller has seen what the callers of these had.
    fn begin<N: Recorded, M: Timeline, R: Wait>(
        &self,
        rt: &R,
        provider: &Provider<N>,
        register: &Register<N, M>,
        turn: &Turn,
        seen: &mut TurnsSeen<N, M>,
        caller: &mut Caller<N>,
    )
        ensures begun { Begins ordered turn.now.at seen.old.seen seen.new.seen caller.old.front caller.new.front }
        ensures pass { caller.new.pass ≡ caller.old.pass };

    /// The turn was taken. In an order, it is added to the register.
    fn end<N: Recorded, M: Timeline, R: Wait>(
        &self,
        rt: &R,
        provider: &Provider<N>,
        register: &Register<N, M>,
        turn: &Turn,
        seen: &mut TurnsSeen<N, M>,
        caller: &mut Caller<N>,
    )
        ensures ended { Ends ordered turn.now.at seen.old.seen seen.new.seen caller.old.front caller.new.front }
        ensures pass { caller.new.pass ≡ caller.old.pass };
}
