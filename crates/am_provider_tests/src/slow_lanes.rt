//! A log with two places and three subscribers: which lane a full log names, and when it takes a post
//! again.

use crate::bodies::moment;
use crate::stopped::Stopped;
use am_provider::{BodyFault, PutFault, Step, Subscription};
use sinnoraku::{Client, Limits, Program, Recorded, run};
use std::sync::Wait;
use std::test::Fail;

const BODY: &[u8] = b"[{\"labels\":{\"a\":\"1\"}}]";

/// What a post answered.
#[derive(Clone, Copy, Debug, PartialEq, Eq, Drop)]
enum Answer {
    Placed(Option<u64>),
    Full { lane: u32, passed: u64 },
}

/// What the posts answered, in their order, and whether the subscribers were shown what was posted.
#[derive(Clone, Copy, Debug, PartialEq, Eq, Drop)]
struct Filled {
    one: Answer,
    two: Answer,
    three: Answer,
    full: Answer,
    in_hand: Answer,
    asked: Answer,
    last: Answer,
    shown: bool,
}

fn post_one<N: Recorded, R: Wait>(rt: &R, client: &mut Client<'_, N>) -> Result<Answer, Stopped> {
    match client.post(rt, BODY, moment(60)) {
        Ok(posted) => Ok(Answer::Placed(posted.place)),
        Err(BodyFault::Put(PutFault::Full { lane, passed })) => Ok(Answer::Full { lane, passed }),
        Err(fault) => Err(Stopped::from(fault)),
    }
}

// Whether `count` alerts are shown.
fn shows<N: Recorded>(subscription: &mut Subscription<'_, N>, count: u32) -> bool {
    for _turn in 0..count {
        match subscription.next() {
            Step::Item(_) => {}
            _ => return false,
        }
    }
    true
}

// Whether `count` alerts are shown, and then that no more are there. The last one's place is passed then.
fn shows_all<N: Recorded>(subscription: &mut Subscription<'_, N>, count: u32) -> bool {
    if !shows(subscription, count) {
        return false;
    }
    match subscription.next() {
        Step::Pending => true,
        _ => false,
    }
}

// The quick subscriber reads all that comes; the slow and the slowest one lag by two batches.
fn fill<N: Recorded, R: Wait>(
    rt: &R,
    client: &mut Client<'_, N>,
    quick: &mut Subscription<'_, N>,
    slow: &mut Subscription<'_, N>,
    slowest: &mut Subscription<'_, N>,
) -> Result<Filled, Stopped> {
    let one = post_one(rt, client)?;
    let first = shows_all(quick, 1) && shows_all(slow, 1) && shows_all(slowest, 1);
    let two = post_one(rt, client)?;
    let three = post_one(rt, client)?;
    let all = shows_all(quick, 2);
    let full = post_one(rt, client)?;
    let held = shows(slow, 1);
    let in_hand = post_one(rt, client)?;
    let passed = shows(slow, 1);
    let asked = post_one(rt, client)?;
    let both = shows(slowest, 2);
    let last = post_one(rt, client)?;
    Ok(Filled {
        one,
        two,
        three,
        full,
        in_hand,
        asked,
        last,
        shown: first && all && held && passed && both,
    })
}

fn with_slowest<N: Recorded, R: Wait>(
    rt: &R,
    client: &mut Client<'_, N>,
    quick: &mut Subscription<'_, N>,
    slow: &mut Subscription<'_, N>,
) -> Result<Filled, Stopped> {
    let mut slowest = client.subscribe(rt)?;
    let filled = fill(rt, client, quick, slow, &mut slowest.subscription);
    client.leave(rt, slowest);
    filled
}

fn with_slow<N: Recorded, R: Wait>(
    rt: &R,
    client: &mut Client<'_, N>,
    quick: &mut Subscription<'_, N>,
) -> Result<Filled, Stopped> {
    let mut slow = client.subscribe(rt)?;
    let filled = with_slowest(rt, client, quick, &mut slow.subscription);
    client.leave(rt, slow);
    filled
}

#[derive(Drop)]
struct Filling;

impl<R: Wait> Program<R> for Filling {
    type Outcome = Result<Filled, Stopped>;

    fn run<N: Recorded>(self, rt: &R, clients: &mut [Client<'_, N>]) -> Self::Outcome {
        let client = &mut clients[0];
        let mut quick = client.subscribe(rt)?;
        let filled = with_slow(rt, client, &mut quick.subscription);
        client.leave(rt, quick);
        filled
    }
}

// The lowest lane that lags by two batches is named. It is so until it asks for an alert after the one that
// it was shown, and then the next such lane is named. Once none is left the post is taken.
#[test]
fn slowest_lane_fills_the_log(rt: HostRuntime) -> Result<(), Fail> {
    let (filled, settled) = run(&rt, rt.alloc(), Limits::with_callers(1).places(2), Filling)?;
    assert_eq!(rt;
        filled?,
        Filled {
            one: Answer::Placed(Some(0)),
            two: Answer::Placed(Some(1)),
            three: Answer::Placed(Some(2)),
            full: Answer::Full { lane: 1, passed: 1 },
            in_hand: Answer::Full { lane: 1, passed: 1 },
            asked: Answer::Full { lane: 2, passed: 1 },
            last: Answer::Placed(Some(3)),
            shown: true,
        }
    );
    assert!(rt; settled.complete);
    Ok(())
}
