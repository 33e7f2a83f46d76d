//! Reports that are merged, collected, and shown to who comes later, against values worked out by hand.

use crate::bodies::{Report, moment};
use crate::posts::{Placed, post_reports};
use crate::stopped::Stopped;
use am_provider::{Counts, Step, Subscription};
use sinnoraku::{Client, Ended, Limits, Program, Recorded, SubFault, run};
use std::sync::Wait;
use std::test::Fail;

// Whether alerts of these starts and ends are shown next, and then no more.
fn shows<N: Recorded>(subscription: &mut Subscription<'_, N>, times: &[(u32, u32)]) -> bool {
    for (start, end) in times {
        match subscription.next() {
            Step::Item(alert) if alert.start == moment(*start) && alert.end == moment(*end) => {}
            _ => return false,
        }
    }
    matches!(subscription.next(), Step::Pending)
}

fn two_reports() -> [Report; 2] {
    [Report::new(1, 10, 20), Report::new(2, 10, 30)]
}

// Two reports, a longer one of the first label set, and none.
fn post_three<N: Recorded, R: Wait + AllocGlobal>(
    rt: &R,
    client: &mut Client<'_, N>,
) -> Result<[Placed; 3], Stopped> {
    let longer = [Report::new(1, 15, 25)];
    let first = post_reports(rt, client, &two_reports(), 10)?;
    let second = post_reports(rt, client, &longer, 15)?;
    let third = post_reports(rt, client, &[], 16)?;
    Ok([first, second, third])
}

/// What three posts answered, whether the subscription that was there was shown what they sent out, and its
/// ending.
#[derive(Clone, Copy, Debug, PartialEq, Eq, Drop)]
struct Reached {
    posted: [Placed; 3],
    shown: bool,
    ended: Ended,
}

#[derive(Drop)]
struct Reaching;

impl<R: Wait + AllocGlobal> Program<R> for Reaching {
    type Outcome = Result<Reached, Stopped>;

    fn run<N: Recorded>(self, rt: &R, clients: &mut [Client<'_, N>]) -> Self::Outcome {
        let client = &mut clients[0];
        let mut reader = client.subscribe(rt)?;
        let posted = post_three(rt, client);
        let shown = shows(&mut reader.subscription, &[(10, 20), (10, 30), (10, 25)]);
        let ended = client.leave(rt, reader);
        Ok(Reached {
            posted: posted?,
            shown,
            ended,
        })
    }
}

#[test]
fn reports_reach_a_subscriber(rt: HostRuntime) -> Result<(), Fail> {
    let (reached, settled) = run(&rt, rt.alloc(), Limits::with_callers(1).places(4), Reaching)?;
    assert_eq!(rt;
        reached?,
        Reached {
            posted: [(2, Some(0)), (1, Some(1)), (0, None)],
            shown: true,
            ended: Ended {
                at: 0,
                taken: 3,
                closed: false,
                cut: false
            },
        }
    );
    assert!(rt; settled.complete);
    Ok(())
}

/// What a subscription that comes late finds and is shown, and its ending.
#[derive(Clone, Copy, Debug, PartialEq, Eq, Drop)]
struct Late {
    lane: u32,
    opening: u64,
    shown: bool,
    ended: Ended,
}

// Subscribes, where the alert of two that isn't collected is left.
fn come_late<N: Recorded, R: Wait>(rt: &R, client: &mut Client<'_, N>) -> Result<Late, Stopped> {
    let mut reader = client.subscribe(rt)?;
    let (lane, opening) = (reader.subscription.lane(), reader.subscription.opening());
    let shown = shows(&mut reader.subscription, &[(10, 30)]);
    let ended = client.leave(rt, reader);
    Ok(Late {
        lane,
        opening,
        shown,
        ended,
    })
}

// Why a subscription is refused.
fn refusal<N: Recorded, R: Wait>(rt: &R, client: &mut Client<'_, N>) -> Option<SubFault> {
    match client.subscribe(rt) {
        Ok(reader) => {
            client.leave(rt, reader);
            None
        }
        Err(fault) => Some(fault),
    }
}

/// What a post, a collection, a late subscription and the end answered.
#[derive(Clone, Copy, Debug, PartialEq, Eq, Drop)]
struct Collected {
    posted: Placed,
    removed: u64,
    late: Late,
    closed_again: bool,
    refusal: Option<SubFault>,
}

#[derive(Drop)]
struct Collecting;

impl<R: Wait + AllocGlobal> Program<R> for Collecting {
    type Outcome = Result<Collected, Stopped>;

    fn run<N: Recorded>(self, rt: &R, clients: &mut [Client<'_, N>]) -> Self::Outcome {
        let client = &mut clients[0];
        let posted = post_reports(rt, client, &two_reports(), 10)?;
        let removed = client.collect_resolved(rt, moment(20))?;
        let late = come_late(rt, client)?;
        client.close(rt)?;
        Ok(Collected {
            posted,
            removed,
            late,
            closed_again: client.close(rt).is_ok(),
            refusal: refusal(rt, client),
        })
    }
}

#[test]
fn collections_and_the_end(rt: HostRuntime) -> Result<(), Fail> {
    let (collected, settled) = run(
        &rt,
        rt.alloc(),
        Limits::with_callers(1).places(4),
        Collecting,
    )?;
    assert_eq!(rt;
        collected?,
        Collected {
            posted: (2, Some(0)),
            removed: 1,
            late: Late {
                lane: 0,
                opening: 1,
                shown: true,
                ended: Ended {
                    at: 2,
                    taken: 1,
                    closed: false,
                    cut: false
                },
            },
            closed_again: false,
            refusal: Some(SubFault::Closed),
        }
    );
    assert_eq!(rt;
        settled.counts(),
        Counts {
            places: 1,
            posts: 1,
            stored: 1
        }
    );
    Ok(())
}
