//! Crews of one thread, of a few and of as many as there may be callers. Each thread posts in the turn of its index, so that
//! the store has their alerts in that order, whichever began first.

use crate::bodies::{Report, moment, reports_body};
use am_provider::NoGate;
use sinnoraku::{
    Caller, Crew, Limits, Provider, Recorded, Register, RunFault, Timeline, Worked, run_crew,
};
use std::sync::{Condvar, Wait};
use std::test::Fail;
use std::thread::Threads;

/// Each thread posts one alert, which starts at its index.
#[derive(Drop)]
struct InTurns {
    came: Condvar,
}

impl<R: Wait + AllocGlobal> Crew<R> for InTurns {
    /// Whether its post was accepted.
    type Outcome = bool;

    fn work<'p, N: Recorded, M: Timeline>(
        &self,
        rt: &'p R,
        _limits: Limits,
        provider: &'p Provider<N>,
        register: &Register<N, M>,
        index: usize,
        caller: Caller<N>,
    ) -> Worked<bool, N, M> {
        let mut caller = caller;
        let mut seen = register.onlooker(rt);
        register.begin(rt, provider, &self.came, index, &mut seen, &mut caller);
        let outcome = posts(rt, provider, &mut caller, index as u32);
        register.end(rt, provider, &self.came, index, &mut seen, &mut caller);
        self.came.notify_all();
        Worked {
            outcome,
            caller,
            seen,
        }
    }
}

// Posts an alert that starts at this number, and says whether that was accepted.
fn posts<N: Recorded, R: Wait + AllocGlobal>(
    rt: &R,
    provider: &Provider<N>,
    caller: &mut Caller<N>,
    number: u32,
) -> bool {
    let report = Report::new(number, number, 3_000_000);
    let Ok(body) = reports_body(rt.alloc(), &[report]) else {
        return false;
    };
    provider
        .post(rt, caller, &NoGate, body.as_bytes(), moment(10))
        .is_ok()
}

// Whether each thread of a crew posted, and the store has their alerts in the order of their indexes.
fn posts_in_turns<R: Threads + Wait + AllocGlobal + Sync>(
    rt: &R,
    limits: Limits,
) -> Result<bool, RunFault> {
    let crew = InTurns {
        came: Condvar::new(),
    };
    let (outcomes, settled) = run_crew(rt, rt.alloc(), limits, &crew)?;
    let mut number = 0u32;
    let mut in_order = true;
    for (_labels, alert) in settled.store.iter() {
        in_order &= alert.start == moment(number);
        number = number.wrapping_add(1);
    }
    Ok(
        in_order
            && number == limits.callers
            && outcomes.len() == limits.callers as usize
            && outcomes.iter().all(|accepted| *accepted)
            && settled.complete,
    )
}

#[test]
fn crews_of_each_size_post_in_turns(rt: HostRuntime) -> Result<(), Fail> {
    assert!(rt; posts_in_turns(&rt, Limits::with_callers(1))?);
    assert!(rt; posts_in_turns(&rt, Limits::with_callers(3))?);
    assert!(rt; posts_in_turns(&rt, Limits::with_callers(64))?);
    Ok(())
}
