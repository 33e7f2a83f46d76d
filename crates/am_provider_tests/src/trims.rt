//! What trims answer, and that the journal stays short however many posts come.

use crate::bodies::{Report, moment};
use crate::posts::post_reports;
use crate::stopped::Stopped;
use am_provider::Counts;
use sinnoraku::{Client, Ended, Limits, Program, Recorded, run};
use std::sync::Wait;
use std::test::Fail;

/// Posts one report at its start. The number names its label set.
pub fn post_one<N: Recorded, R: Wait + AllocGlobal>(
    rt: &R,
    client: &mut Client<'_, N>,
    number: u32,
) -> Result<(), Stopped> {
    let report = Report {
        label: number,
        start: number,
        end: None,
    };
    post_reports(rt, client, &[report], number)?;
    Ok(())
}

// What a trim drops while a subscription is open that came just now, and that one's ending.
fn trim_while_open<N: Recorded, R: Wait>(
    rt: &R,
    client: &mut Client<'_, N>,
) -> Result<(u64, Ended), Stopped> {
    let reader = client.subscribe(rt)?;
    let dropped = client.trim(rt);
    let ended = client.leave(rt, reader);
    Ok((dropped?, ended))
}

/// How many calls each trim dropped: two posts; none while a subscription is open; its begin and end; a
/// collection and the end of the log.
#[derive(Clone, Copy, Debug, PartialEq, Eq, Drop)]
struct Trimmed {
    posts: u64,
    while_open: u64,
    ended: Ended,
    subscription: u64,
    removed: u64,
    at_the_end: u64,
    closed_again: bool,
}

#[derive(Drop)]
struct Trimming;

impl<R: Wait + AllocGlobal> Program<R> for Trimming {
    type Outcome = Result<Trimmed, Stopped>;

    fn run<N: Recorded>(self, rt: &R, clients: &mut [Client<'_, N>]) -> Self::Outcome {
        let client = &mut clients[0];
        post_one(rt, client, 1)?;
        post_one(rt, client, 2)?;
        let posts = client.trim(rt)?;
        let (while_open, ended) = trim_while_open(rt, client)?;
        let subscription = client.trim(rt)?;
        let removed = client.collect_resolved(rt, moment(9_000))?;
        client.close(rt)?;
        Ok(Trimmed {
            posts,
            while_open,
            ended,
            subscription,
            removed,
            at_the_end: client.trim(rt)?,
            closed_again: client.close(rt).is_ok(),
        })
    }
}

#[test]
fn a_trim_drops_what_no_open_subscription_needs(rt: HostRuntime) -> Result<(), Fail> {
    let (trimmed, settled) = run(&rt, rt.alloc(), Limits::with_callers(1).places(4), Trimming)?;
    assert_eq!(rt;
        trimmed?,
        Trimmed {
            posts: 2,
            while_open: 0,
            ended: Ended {
                at: 2,
                taken: 0,
                closed: false,
                cut: false
            },
            subscription: 2,
            removed: 2,
            at_the_end: 2,
            closed_again: false,
        }
    );
    assert_eq!(rt; settled.journal.before, 6);
    assert_eq!(rt; settled.journal.lefts, 1);
    assert_eq!(rt; (settled.early, settled.ended.len()), (1, 0));
    assert_eq!(rt;
        settled.counts(),
        Counts {
            places: 2,
            posts: 2,
            stored: 0
        }
    );
    Ok(())
}

#[derive(Drop)]
struct LongRun;

// How often a trim dropped a thousand posts, which are all that there were since the last one.
impl<R: Wait + AllocGlobal> Program<R> for LongRun {
    type Outcome = Result<u32, Stopped>;

    fn run<N: Recorded>(self, rt: &R, clients: &mut [Client<'_, N>]) -> Self::Outcome {
        let client = &mut clients[0];
        for turn in 0..20u32 {
            for number in 0..1_000u32 {
                post_one(rt, client, number)?;
            }
            if client.trim(rt)? != 1_000 {
                return Ok(turn);
            }
        }
        Ok(20)
    }
}

// 20,000 posts of a thousand label sets. A journal that isn't trimmed holds every one of them; here
// each trim answers that it drops all that the journal holds.
#[test]
fn the_journal_stays_short(rt: HostRuntime) -> Result<(), Fail> {
    let (turns, settled) = run(&rt, rt.alloc(), Limits::with_callers(1).places(4), LongRun)?;
    assert_eq!(rt; turns?, 20);
    assert_eq!(rt; settled.journal.calls.len(), 0);
    assert_eq!(rt;
        settled.counts(),
        Counts {
            places: 20_000,
            posts: 20_000,
            stored: 1_000
        }
    );
    Ok(())
}
