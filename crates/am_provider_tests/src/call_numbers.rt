//! Four threads that post, four that subscribe and leave, and two that collect, all at the same time. The
//! number that each caller reads off its front after a call is that call's number in the journal, counted
//! from one.

use crate::bodies::{body_of, moment};
use crate::stopped::Stopped;
use crate::tries::post_one;
use am_alert::Moment;
use am_store::Call;
use sinnoraku::{Caller, Client, Limits, Recorded, Settled, Subscription, Worker, run_workers};
use std::alloc::{AllocError, Global};
use std::sync::Wait;
use std::test::Fail;

// How many calls each thread makes.
const EACH: u32 = 400;

const THREADS: u32 = 10;

/// A call, by what tells it from most others.
#[derive(Clone, Copy, Debug, PartialEq, Eq, Drop)]
enum Made {
    Posted(Moment),
    Collected(Moment),
    Subscribed(u32),
    Left(u32),
    Closed,
}

impl Made {
    fn of(call: &Call) -> Made {
        match call {
            Call::Posted { now, alerts: _ } => Made::Posted(*now),
            Call::Collected(now) => Made::Collected(*now),
            Call::Subscribed(lane) => Made::Subscribed(*lane),
            Call::Left(lane) => Made::Left(*lane),
            Call::Closed => Made::Closed,
        }
    }
}

/// The calls that one thread made, each with the number that its caller read after it.
#[derive(Drop)]
struct Notes {
    list: Vec<(u64, Made)>,
}

impl Notes {
    fn new(alloc: Global) -> Notes {
        Notes {
            list: Vec::new(alloc),
        }
    }

    fn add<N: Recorded>(&mut self, caller: &Caller<N>, made: Made) -> Result<(), AllocError> {
        self.list.push((caller.front().len(), made))?;
        Ok(())
    }
}

/// Four threads that post, two that collect and four that subscribe.
#[derive(Drop)]
struct TenThreads;

impl<R: Wait + AllocGlobal> Worker<R> for TenThreads {
    /// What each noted.
    type Outcome = Result<Notes, Stopped>;

    fn work<N: Recorded>(&self, rt: &R, index: usize, client: &mut Client<'_, N>) -> Self::Outcome {
        match index {
            0 | 1 | 2 | 3 => post_each(rt, client, index as u32),
            4 | 5 => collect_each(rt, client, index as u32),
            _ => subscribe_each(rt, client),
        }
    }
}

// Posts, each time at a moment of its own.
fn post_each<N: Recorded, R: Wait + AllocGlobal>(
    rt: &R,
    client: &mut Client<'_, N>,
    thread: u32,
) -> Result<Notes, Stopped> {
    let mut notes = Notes::new(rt.alloc());
    for at in 0..EACH {
        let number = thread % THREADS * EACH + at;
        let body = body_of(rt.alloc(), number)?;
        if !post_one(rt, client, body.as_bytes(), moment(number)) {
            return Err(Stopped::Refused);
        }
        notes.add(&client.caller, Made::Posted(moment(number)))?;
    }
    Ok(notes)
}

// Collects, each time at a moment of its own, when all that was posted is resolved.
fn collect_each<N: Recorded, R: Wait + AllocGlobal>(
    rt: &R,
    client: &mut Client<'_, N>,
    thread: u32,
) -> Result<Notes, Stopped> {
    let mut notes = Notes::new(rt.alloc());
    for at in 0..EACH {
        let now = moment(5_000_000 + thread % THREADS * EACH + at);
        client.collect_resolved(rt, now)?;
        notes.add(&client.caller, Made::Collected(now))?;
    }
    Ok(notes)
}

// Asks for `turns` alerts.
fn read_some<N: Recorded>(subscription: &mut Subscription<'_, N>, turns: u32) {
    for _turn in 0..turns {
        let _step = subscription.next();
    }
}

// Subscribes, reads a while and leaves, again and again.
fn subscribe_each<N: Recorded, R: Wait + AllocGlobal>(
    rt: &R,
    client: &mut Client<'_, N>,
) -> Result<Notes, Stopped> {
    let mut notes = Notes::new(rt.alloc());
    for turn in 0..EACH / 2 {
        let mut reader = client.subscribe(rt)?;
        let lane = reader.subscription.lane();
        let came = notes.add(&client.caller, Made::Subscribed(lane));
        read_some(&mut reader.subscription, turn % 20);
        client.leave(rt, reader);
        came?;
        notes.add(&client.caller, Made::Left(lane))?;
    }
    Ok(notes)
}

// How many of the noted calls are the journal's calls of their numbers. No call of the journal counts twice.
fn count_right(
    alloc: Global,
    settled: &Settled,
    all: &[Result<Notes, Stopped>],
) -> Result<u32, AllocError> {
    let mut left = Vec::new(alloc);
    for call in &settled.journal.calls {
        left.push(Some(Made::of(call)))?;
    }
    let mut right: u32 = 0;
    for notes in all {
        if let Ok(notes) = notes {
            for (number, made) in &notes.list {
                if take(&mut left, *number) == Some(*made) {
                    right = right.wrapping_add(1);
                }
            }
        }
    }
    Ok(right)
}

// The journal's call of this number, unless it was taken before.
fn take(left: &mut [Option<Made>], number: u64) -> Option<Made> {
    let index = number.checked_sub(1)?;
    left.get_mut(index as usize)?.take()
}

#[test]
fn numbers_of_calls_are_those_of_the_journal(rt: HostRuntime) -> Result<(), Fail> {
    let limits = Limits::with_callers(THREADS).places(16);
    let (all, settled) = run_workers(&rt, rt.alloc(), limits, &TenThreads)?;
    assert_eq!(rt; count_right(rt.alloc(), &settled, &all)?, 4_000);
    assert_eq!(rt; settled.journal.calls.len(), 4_000);
    assert_eq!(rt; settled.journal.before, 0);
    assert!(rt; settled.complete);
    Ok(())
}
