//! A provider in one thread: what its calls answer, and the journal at its end.

use crate::bodies::{body_of, moment};
use crate::posts::{Placed, post};
use crate::stopped::Stopped;
use am_provider::{BodyFault, Caller, Counts, Provider, PutFault, Step, Subscription};
use am_store::{Call, LaneSet};
use sinnoraku::{Client, Ended, Limits, Policy, Program, Recorded, Settled, run};
use std::alloc::{AllocError, Global};
use std::sync::Wait;
use std::test::Fail;

/// What the calls of a small day answered.
#[derive(Clone, Copy, Debug, PartialEq, Eq, Drop)]
struct Answers {
    first: Placed,
    placed: Option<u64>,
    collected: u64,
    ended: Ended,
    refused: bool,
    late: u64,
}

#[derive(Drop)]
struct SmallDay;

impl<R: Wait> Program<R> for SmallDay {
    type Outcome = Result<Answers, Stopped>;

    fn run<N: Recorded>(self, rt: &R, clients: &mut [Client<'_, N>]) -> Self::Outcome {
        let client = &mut clients[0];
        let first = post(rt, client, b"[]", 0)?;
        let reader = client.subscribe(rt)?;
        let within = post_and_collect(rt, client);
        let ended = client.leave(rt, reader);
        let (placed, collected) = within?;
        client.close(rt)?;
        Ok(Answers {
            first,
            placed,
            collected,
            ended,
            refused: is_closed(rt, client)?,
            late: client.collect_resolved(rt, moment(420))?,
        })
    }
}

fn post_and_collect<N: Recorded, R: Wait>(
    rt: &R,
    client: &mut Client<'_, N>,
) -> Result<(Option<u64>, u64), Stopped> {
    let (_, place) = post(rt, client, b"[{\"labels\":{\"a\":\"1\"}}]", 60)?;
    Ok((place, client.collect_resolved(rt, moment(360))?))
}

// Whether a post is refused since the log was ended.
fn is_closed<N: Recorded, R: Wait>(rt: &R, client: &mut Client<'_, N>) -> Result<bool, Stopped> {
    match post(rt, client, b"[]", 370) {
        Ok(_) => Ok(false),
        Err(BodyFault::Put(PutFault::Closed)) => Ok(true),
        Err(fault) => Err(Stopped::from(fault)),
    }
}

// The kinds of the calls, a letter each.
fn kinds_of(alloc: Global, settled: &Settled) -> Result<String, AllocError> {
    let mut kinds = String::new(alloc);
    for call in &settled.journal.calls {
        kinds.push_str(match call {
            Call::Posted { now: _, alerts } => {
                if alerts.as_slice().is_empty() {
                    "p"
                } else {
                    "P"
                }
            }
            Call::Collected(_) => "c",
            Call::Subscribed(_) => "s",
            Call::Left(_) => "l",
            Call::Closed => "x",
        })?;
    }
    Ok(kinds)
}

#[test]
fn settled_journal(rt: HostRuntime) -> Result<(), Fail> {
    let (answers, settled) = run(
        &rt,
        rt.alloc(),
        Limits::with_callers(1).places(256),
        SmallDay,
    )?;
    assert_eq!(rt;
        answers?,
        Answers {
            first: (0, None),
            placed: Some(0),
            collected: 1,
            ended: Ended {
                at: 1,
                taken: 0,
                closed: false,
                cut: false
            },
            refused: true,
            late: 0,
        }
    );
    assert_eq!(rt; kinds_of(rt.alloc(), &settled)?.as_str(), "psPclxc");
    assert_eq!(rt;
        settled.counts(),
        Counts {
            places: 1,
            posts: 2,
            stored: 0
        }
    );
    assert_eq!(rt; settled.store.len(), 0);
    assert_eq!(rt; settled.ended.len(), 1);
    assert_eq!(rt; settled.early, 0);
    assert!(rt; settled.complete);
    Ok(())
}

/// What a slow and a quick subscriber of a log with one place were shown.
#[derive(Clone, Copy, Debug, PartialEq, Eq, Drop)]
struct Lag {
    full: bool,
    cut: LaneSet,
    quick: u32,
    slow: u32,
    told_cut: bool,
    none_left: bool,
}

#[derive(Drop)]
struct Lagging;

impl<R: Wait + AllocGlobal> Program<R> for Lagging {
    type Outcome = Result<(Lag, Ended), Stopped>;

    fn run<N: Recorded>(self, rt: &R, clients: &mut [Client<'_, N>]) -> Self::Outcome {
        let client = &mut clients[0];
        let mut slow = client.subscribe(rt)?;
        let lag = with_quick(rt, client, &mut slow.subscription);
        let ended = client.leave(rt, slow);
        Ok((lag?, ended))
    }
}

fn with_quick<N: Recorded, R: Wait + AllocGlobal>(
    rt: &R,
    client: &mut Client<'_, N>,
    slow: &mut Subscription<'_, N>,
) -> Result<Lag, Stopped> {
    let mut quick = client.subscribe(rt)?;
    let lag = lag_of(rt, client, slow, &mut quick.subscription);
    client.leave(rt, quick);
    lag
}

// How many items a subscription shows until it shows none, and whether it answered `Cut`.
fn read<N: Recorded>(subscription: &mut Subscription<'_, N>, most: u32) -> (u32, bool) {
    let mut items: u32 = 0;
    for _turn in 0..most {
        match subscription.next() {
            Step::Item(_) => items = items.wrapping_add(1),
            Step::Pending | Step::Closed => return (items, false),
            Step::Cut => return (items, true),
        }
    }
    (items, false)
}

fn lag_of<N: Recorded, R: Wait + AllocGlobal>(
    rt: &R,
    client: &mut Client<'_, N>,
    slow: &mut Subscription<'_, N>,
    quick: &mut Subscription<'_, N>,
) -> Result<Lag, Stopped> {
    let first = body_of(rt.alloc(), 1)?;
    let second = body_of(rt.alloc(), 2)?;
    post(rt, client, first.as_bytes(), 10)?;
    let (items, _) = read(quick, 9);
    let (full, cut) = match client.post(rt, second.as_bytes(), moment(20)) {
        Ok(posted) => (false, posted.cut),
        Err(BodyFault::Put(PutFault::Full { lane, passed })) => (
            lane == 0 && passed == 0,
            LaneSet::EMPTY,
        ),
        Err(fault) => return Err(Stopped::from(fault)),
    };
    let (more, _) = read(quick, 9);
    let (late, told_cut) = read(slow, 9);
    let (again, _) = read(slow, 9);
    Ok(Lag {
        full,
        cut,
        quick: items.wrapping_add(more),
        slow: late,
        told_cut,
        none_left: again == 0,
    })
}

#[test]
fn a_full_log_refuses(rt: HostRuntime) -> Result<(), Fail> {
    let (lagged, settled) = run(&rt, rt.alloc(), Limits::with_callers(1).places(1), Lagging)?;
    let (lag, ended) = lagged?;
    assert_eq!(rt;
        lag,
        Lag {
            full: true,
            cut: LaneSet::EMPTY,
            quick: 1,
            slow: 1,
            told_cut: false,
            none_left: true,
        }
    );
    assert_eq!(rt;
        ended,
        Ended {
            at: 0,
            taken: 1,
            closed: false,
            cut: false
        }
    );
    assert!(rt; settled.complete);
    Ok(())
}

#[test]
fn a_full_log_cuts_the_slow_lane(rt: HostRuntime) -> Result<(), Fail> {
    let limits = Limits::with_callers(1).places(1).policy(Policy::Cut);
    let (lagged, settled) = run(&rt, rt.alloc(), limits, Lagging)?;
    let (lag, ended) = lagged?;
    assert_eq!(rt;
        lag,
        Lag {
            full: false,
            cut: LaneSet::EMPTY.with(0),
            quick: 2,
            slow: 0,
            told_cut: true,
            none_left: true,
        }
    );
    assert_eq!(rt;
        ended,
        Ended {
            at: 0,
            taken: 0,
            closed: false,
            cut: true
        }
    );
    assert!(rt; settled.complete);
    Ok(())
}

/// What who has the pass of a poster was shown, and how much trims dropped while it had a subscription
/// and after.
#[derive(Clone, Copy, Debug, PartialEq, Eq, Drop)]
struct Carried {
    item: bool,
    then_pending: bool,
    kept: u64,
    trimmed: u64,
}

#[derive(Drop)]
struct Carrying;

impl<R: Wait> Program<R> for Carrying {
    type Outcome = Result<Carried, Stopped>;

    fn run<N: Recorded>(self, rt: &R, clients: &mut [Client<'_, N>]) -> Self::Outcome {
        let client = &mut clients[0];
        let mut reader = client.subscribe(rt)?;
        let within = read_past(rt, client, &mut reader.subscription);
        client.leave(rt, reader);
        let (item, then_pending, kept) = within?;
        Ok(Carried {
            item,
            then_pending,
            kept,
            trimmed: client.trim(rt)?,
        })
    }
}

// Whether the reader is shown what the poster posted, and then that no more is there; what a trim drops.
fn read_past<N: Recorded, R: Wait>(
    rt: &R,
    client: &mut Client<'_, N>,
    subscription: &mut Subscription<'_, N>,
) -> Result<(bool, bool, u64), Stopped> {
    post(rt, client, b"[{\"labels\":{\"a\":\"1\"}}]", 60)?;
    let (item, then_pending) = meet_and_read(client.provider, &mut client.caller, subscription);
    Ok((item, then_pending, client.trim(rt)?))
}

// Whether an item is shown, and then that no more is there.
fn meet_and_read<N: Recorded>(
    provider: &Provider<N>,
    caller: &mut Caller<N>,
    subscription: &mut Subscription<'_, N>,
) -> (bool, bool) {
    provider.meet(subscription, &mut caller.pass);
    let item = match subscription.next_past(&mut caller.pass) {
        Step::Item(_) => true,
        _ => false,
    };
    let then_pending = match subscription.next_past(&mut caller.pass) {
        Step::Pending => true,
        _ => false,
    };
    (item, then_pending)
}

#[test]
fn pass_carries_order(rt: HostRuntime) -> Result<(), Fail> {
    let (carried, settled) = run(&rt, rt.alloc(), Limits::with_callers(1).places(4), Carrying)?;
    assert_eq!(rt;
        carried?,
        Carried {
            item: true,
            then_pending: true,
            kept: 0,
            trimmed: 3,
        }
    );
    assert_eq!(rt; settled.journal.before, 3);
    assert_eq!(rt; settled.journal.calls.len(), 0);
    assert_eq!(rt;
        settled.counts(),
        Counts {
            places: 1,
            posts: 1,
            stored: 1
        }
    );
    assert_eq!(rt; settled.ended.len(), 0);
    assert_eq!(rt; settled.early, 1);
    assert_eq!(rt; settled.journal.lefts, 1);
    Ok(())
}
