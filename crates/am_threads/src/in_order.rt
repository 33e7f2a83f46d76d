//! The order of the script.
//!
//! Each thread waits at a place of its own: of eight that wait at one, seven would be woken for nothing at
//! each line.

ghost use Rattle.std.specs.Prelude.{◌<◌};

use am_history::Timeline;
use am_provider::{Caller, Gate, Provider, Recorded, Register, TurnsSeen};
use am_runner::{Turn, Turns};
use am_script::{Line, Thread};
use std::alloc::{AllocError, Global};
use std::fmt;
use std::sync::{Condvar, Wait};

/// One turn after another, in the order of the script.
#[derive(Drop)]
pub struct InOrder {
    // The thread of each line.
    threads: Vec<Thread>,
    // What each thread waits on for its turn.
    came: [Condvar; 8],
}

impl InOrder {
    pub fn new(alloc: Global, lines: &[Line]) -> Result<InOrder, AllocError> {
        let mut threads = Vec::new(alloc);
        for line in lines {
            threads.push(line.thread)?;
        }
        Ok(InOrder {
            threads,
            came: [
                Condvar::new(),
                Condvar::new(),
                Condvar::new(),
                Condvar::new(),
                Condvar::new(),
                Condvar::new(),
                Condvar::new(),
                Condvar::new(),
            ],
        })
    }

    // The number of the thread whose turn it is.
    fn thread_of(&self, at: usize) -> usize
        ensures { result < 8 }
    {
        let thread = match self.threads.get(at) {
            Some(thread) => thread.index(),
            None => at.wrapping_sub(self.threads.len()),
        };
        thread % 8
    }
}

impl Gate for InOrder {
    fn held<R>(&self, _rt: &R) {}
}

impl Turns for InOrder {
    ghost use Rattle.std.specs.Prelude.{true};

    ghost ordered = { true };

    fn begin<N: Recorded, M: Timeline, R: Wait>(
        &self,
        rt: &R,
        provider: &Provider<N>,
        register: &Register<N, M>,
        turn: &Turn,
        seen: &mut TurnsSeen<N, M>,
        caller: &mut Caller<N>,
    ) {
        let came = &self.came[self.thread_of(turn.at)];
        register.begin(rt, provider, came, turn.at, seen, caller);
    }

    fn end<N: Recorded, M: Timeline, R: Wait>(
        &self,
        rt: &R,
        provider: &Provider<N>,
        register: &Register<N, M>,
        turn: &Turn,
        seen: &mut TurnsSeen<N, M>,
        caller: &mut Caller<N>,
    ) {
        let came = &self.came[self.thread_of(turn.at)];
        register.end(rt, provider, came, turn.at, seen, caller);
        let next = self.thread_of(turn.at.wrapping_add(1));
        // A thread that goes on by itself waits nowhere.
        if next != turn.thread.index() {
            self.came[next].notify_one();
        }
    }
}

impl fmt::Debug for InOrder {
    fn fmt<W: fmt::Write>(&self, f: &mut fmt::Formatter<W>) -> fmt::Result {
        f.debug_struct("InOrder").finish_non_exhaustive()
    }
}
