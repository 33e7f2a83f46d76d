//! The start of the threads: none begins before all are there.

use std::sync::{Condvar, Mutex, Wait};

/// The meeting point of the threads before they begin.
#[derive(Drop)]
pub(crate) struct Start {
    state: Mutex<Arrivals>,
    changed: Condvar,
}

#[derive(Clone, Copy, Drop)]
struct Arrivals {
    // How many threads are still to come.
    missing: u32,
    // One of them won't come.
    given_up: bool,
}

impl Start {
    pub(crate) fn new(threads: u32) -> Start {
        Start {
            state: Mutex::new(Arrivals {
                missing: threads,
                given_up: false,
            }),
            changed: Condvar::new(),
        }
    }

    /// Says that a thread is there, and waits for the others. Answers whether all came.
    pub(crate) fn arrive<R: Wait>(&self, rt: &R) -> bool {
        let mut state = self.state.lock(rt);
        state.missing = state.missing.saturating_sub(1);
        if state.missing == 0 {
            self.changed.notify_all();
        }
        let state = self
            .changed
            .wait_while(rt, state, |state| state.missing > 0 && !state.given_up);
        !state.given_up
    }

    /// Says that a thread won't come, so that nobody waits for it.
    pub(crate) fn give_up<R: Wait>(&self, rt: &R) {
        self.state.lock(rt).given_up = true;
        self.changed.notify_all();
    }
}
