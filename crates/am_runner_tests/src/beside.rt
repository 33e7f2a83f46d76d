//! The eight threads run their lines at the same time.

use crate::runs::{Run, Stopped, run_lines};
use am_history::Timeline;
use am_provider::{Caller, Gate, Policy, Provider, Recorded, Register, TurnsSeen};
use am_runner::{Turn, Turns};
use am_script::{THREADS, read_script};
use am_threads::LogLimits;
use std::alloc::Global;
use std::rt::Clock;
use std::sync::Wait;
use std::sync::atomic::{AtomicU8, AtomicU32, Ordering};
use std::test::Fail;
use std::thread;
use std::thread::Threads;
use std::time::Duration;

// A line for each thread, in their order.
const SCRIPT: &str = r#"{"route":{"receiver":"ops"}}
{"do":"close","thread":0}
{"do":"post","thread":1,"at":"2024-01-01T10:00:00Z","body":[{"labels":{"n":"1"}}]}
{"do":"post","thread":2,"at":"2024-01-01T10:00:00Z","body":[{"labels":{"n":"2"}}]}
{"do":"post","thread":3,"at":"2024-01-01T10:00:00Z","body":[{"labels":{"n":"3"}}]}
{"do":"trim","thread":4}
{"do":"post","thread":5,"at":"2024-01-01T10:00:00Z","body":[{"labels":{"n":"5"}}]}
{"do":"post","thread":6,"at":"2024-01-01T10:00:00Z","body":[{"labels":{"n":"6"}}]}
{"do":"post","thread":7,"at":"2024-01-01T10:00:00Z","body":[{"labels":{"n":"7"}}]}
"#;

// Of the lines, the last one is run first.
const ANSWERS: &str = r#"2 close
3 post valid 1 place 5
4 post valid 1 place 4
5 post valid 1 place 3
6 trim dropped 3
7 post valid 1 place 2
8 post valid 1 place 1
9 post valid 1 place 0
before 3
posted 2024-01-01T10:00:00Z 1
posted 2024-01-01T10:00:00Z 1
posted 2024-01-01T10:00:00Z 1
closed
early 0 places 6 posts 6 stored 6 complete true
"#;

// How often a line looks for the others, a millisecond apart.
const LOOKS: u32 = 10_000;

// Holds each line until all threads have reached theirs, and then until the next line was run; or until the
// looks run out for one of them.
#[derive(Drop)]
struct LastFirst<'a, C> {
    clock: &'a C,
    begun: &'a AtomicU32,
    ended: &'a AtomicU32,
    gave_up: &'a AtomicU8,
}

impl<'a, C: Clock> LastFirst<'a, C> {
    // Whether all threads reached their lines, and at least `lines` of these were run.
    fn has_ended(&self, lines: u32) -> bool {
        self.begun.load(Ordering::SeqCst) >= THREADS && self.ended.load(Ordering::SeqCst) >= lines
    }

    fn wait_for(&self, lines: u32) {
        for _look in 0..LOOKS {
            if self.has_ended(lines) || self.gave_up.load(Ordering::SeqCst) == 1 {
                return;
            }
            thread::sleep(self.clock, Duration::from_millis(1));
        }
        self.gave_up.store(1, Ordering::SeqCst);
    }
}

impl<'a, C: Clock> Gate for LastFirst<'a, C> {
    fn held<R>(&self, _rt: &R) {}
}

impl<'a, C: Clock> Turns for LastFirst<'a, C> {
    ghost use Rattle.std.specs.Prelude.{false};

    ghost ordered = { false };

    fn begin<N: Recorded, M: Timeline, R: Wait>(
        &self,
        _rt: &R,
        _provider: &Provider<N>,
        _register: &Register<N, M>,
        turn: &Turn,
        _seen: &mut TurnsSeen<N, M>,
        _caller: &mut Caller<N>,
    ) {
        if turn.at < 8 {
            self.begun.fetch_add(1, Ordering::SeqCst);
            self.wait_for(7 - turn.at as u32);
        }
    }

    fn end<N: Recorded, M: Timeline, R: Wait>(
        &self,
        _rt: &R,
        _provider: &Provider<N>,
        _register: &Register<N, M>,
        turn: &Turn,
        _seen: &mut TurnsSeen<N, M>,
        _caller: &mut Caller<N>,
    ) {
        if turn.at < 8 {
            self.ended.fetch_add(1, Ordering::SeqCst);
        }
    }
}

// The run, and whether all lines met.
fn run_last_first<R: Threads + Wait + Clock + Sync>(
    rt: &R,
    alloc: Global,
) -> Result<(Run, bool), Stopped> {
    let lines = read_script(alloc, SCRIPT.as_bytes())?;
    let (begun, ended, gave_up) = (AtomicU32::new(0), AtomicU32::new(0), AtomicU8::new(0));
    let turns = LastFirst {
        clock: rt,
        begun: &begun,
        ended: &ended,
        gave_up: &gave_up,
    };
    let run = run_lines(
        rt,
        alloc,
        LogLimits::of(16, Policy::Refuse),
        SCRIPT,
        lines,
        &turns,
    )?;
    Ok((run, gave_up.load(Ordering::SeqCst) == 0))
}

#[test]
fn lines_of_eight_threads_meet(rt: HostRuntime) -> Result<(), Fail> {
    let (run, met) = run_last_first(&rt, rt.alloc())?;
    assert!(rt; met);
    assert_eq!(rt; run.printed(rt.alloc())?.as_str(), ANSWERS);
    Ok(())
}
