//! Posts and collections at the greatest instant there is.

use crate::bodies::end_body;
use crate::stopped::Stopped;
use am_alert::{Moment, PostFault};
use am_provider::{BodyFault, Step, Subscription};
use am_store::Call;
use sinnoraku::{Client, Limits, Program, Recorded, Settled, run};
use std::sync::Wait;
use std::test::Fail;
use std::time::Duration;

/// What a post answered: how many alerts were valid and their place, or why it was refused.
type Answer = Result<(u32, Option<u64>), BodyFault>;

/// What the calls at the greatest instant answered.
#[derive(Clone, Copy, Debug, PartialEq, Eq, Drop)]
struct Greatest {
    // A post of an alert that gives an end, and one of an alert that doesn't.
    ended: Answer,
    open: Answer,
    // How many alerts were shown that start, end and were reported at that instant, and how many others.
    shown: (u32, u32),
    // What a collection one nanosecond earlier removed, and then one at that instant.
    before: u64,
    collected: u64,
}

// A post of an alert that gives an end, and one of an alert that doesn't.
fn post_both<N: Recorded, R: Wait>(
    rt: &R,
    client: &mut Client<'_, N>,
    body: &[u8],
) -> Result<(Answer, Answer), Stopped> {
    let ended = post(rt, client, body)?;
    Ok((ended, post(rt, client, b"[{\"labels\":{\"open\":\"1\"}}]")?))
}

fn post<N: Recorded, R: Wait>(
    rt: &R,
    client: &mut Client<'_, N>,
    body: &[u8],
) -> Result<Answer, Stopped> {
    match client.post(rt, body, Moment::MAX) {
        Ok(posted) => Ok(Ok((posted.valid, posted.place))),
        Err(fault) => {
            if Stopped::from(fault) == Stopped::NoMemory {
                return Err(Stopped::NoMemory);
            }
            Ok(Err(fault))
        }
    }
}

fn count_shown<N: Recorded>(subscription: &mut Subscription<'_, N>) -> (u32, u32) {
    let mut at_end: u32 = 0;
    let mut others: u32 = 0;
    for _turn in 0..9u32 {
        match subscription.next() {
            Step::Item(alert) => {
                if alert.start == Moment::MAX
                    && alert.end == Moment::MAX
                    && alert.updated == Moment::MAX
                {
                    at_end = at_end.wrapping_add(1);
                } else {
                    others = others.wrapping_add(1);
                }
            }
            _ => return (at_end, others),
        }
    }
    (at_end, others)
}

#[derive(Drop)]
struct AtTheEnd;

impl<R: Wait + AllocGlobal> Program<R> for AtTheEnd {
    type Outcome = Result<Greatest, Stopped>;

    fn run<N: Recorded>(self, rt: &R, clients: &mut [Client<'_, N>]) -> Self::Outcome {
        let client = &mut clients[0];
        let body = end_body(rt.alloc())?;
        let mut reader = client.subscribe(rt)?;
        let posted = post_both(rt, client, body.as_bytes());
        let shown = count_shown(&mut reader.subscription);
        client.leave(rt, reader);
        let (ended, open) = posted?;
        let earlier = Moment::try_new(Moment::MAX.nanoseconds() - 1).ok_or(Stopped::Refused)?;
        Ok(Greatest {
            ended,
            open,
            shown,
            before: client.collect_resolved(rt, earlier)?,
            collected: client.collect_resolved(rt, Moment::MAX)?,
        })
    }
}

// The limits of a provider with that resolve timeout.
fn limits_of(resolve_timeout: Duration) -> Limits {
    Limits::with_callers(1)
        .places(4)
        .resolve_timeout(resolve_timeout)
}

// How many of the calls are posts and collections at that instant.
fn calls_at_end(settled: &Settled) -> (u32, u32) {
    let mut posts: u32 = 0;
    let mut collections: u32 = 0;
    for call in &settled.journal.calls {
        match call {
            Call::Posted { now, alerts: _ } if *now == Moment::MAX => posts = posts.wrapping_add(1),
            Call::Collected(now) if *now == Moment::MAX => {
                collections = collections.wrapping_add(1)
            }
            _ => {}
        }
    }
    (posts, collections)
}

// An end that is given may be the greatest instant. One that isn't given would be later, so such a post is refused.
#[test]
fn greatest_instant(rt: HostRuntime) -> Result<(), Fail> {
    let limits = limits_of(Duration::from_nanos(1));
    let (greatest, settled) = run(&rt, rt.alloc(), limits, AtTheEnd)?;
    assert_eq!(rt;
        greatest?,
        Greatest {
            ended: Ok((1, Some(0))),
            open: Err(BodyFault::Unread(PostFault::OutOfRange(0))),
            shown: (1, 0),
            before: 0,
            collected: 1,
        }
    );
    assert_eq!(rt; calls_at_end(&settled), (1, 1));
    assert_eq!(rt; settled.store.len(), 0);
    assert!(rt; settled.complete);
    Ok(())
}

// Without a resolve timeout an end that isn't given is the post's instant.
#[test]
fn greatest_instant_without_timeout(rt: HostRuntime) -> Result<(), Fail> {
    let limits = limits_of(Duration::from_nanos(0));
    let (greatest, settled) = run(&rt, rt.alloc(), limits, AtTheEnd)?;
    assert_eq!(rt;
        greatest?,
        Greatest {
            ended: Ok((1, Some(0))),
            open: Ok((1, Some(1))),
            shown: (2, 0),
            before: 0,
            collected: 2,
        }
    );
    assert_eq!(rt; calls_at_end(&settled), (2, 1));
    assert_eq!(rt; settled.store.len(), 0);
    assert!(rt; settled.complete);
    Ok(())
}
