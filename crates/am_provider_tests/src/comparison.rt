//! A provider compared with a plain list, over posts and collections from a fixed sequence.

ghost use Rattle.std.specs.Prelude.{◌<◌};

use crate::bodies::{Report, moment, reports_body};
use crate::plain_store::{absorb_each, remove_resolved};
use crate::posts::post;
use crate::stopped::Stopped;
use am_alert::Alert;
use am_posts::read_post;
use am_provider::{Step, Subscription};
use sinnoraku::{Client, Limits, Program, Recorded, run};
use std::alloc::{AllocError, Global};
use std::sync::Wait;
use std::test::Fail;
use std::time::Duration;

const TURNS: u32 = 400;

// A number below a bound, from a fixed sequence.
fn below(seed: &mut u64, bound: u32) -> u32
    requires { 0 < bound }
{
    *seed = seed
        .wrapping_mul(6_364_136_223_846_793_005)
        .wrapping_add(1_442_695_040_888_963_407);
    ((*seed >> 33) % u64::from(bound)) as u32
}

// A report of one of eight label sets around a moment, perhaps with no end.
fn report(seed: &mut u64, now: u32) -> Report {
    let label = below(seed, 8);
    let start = now.saturating_add(below(seed, 40));
    let end = start.saturating_add(below(seed, 60));
    let end = if below(seed, 2) == 0 { None } else { Some(end) };
    Report { label, start, end }
}

// A body of one to four reports.
fn next_body(alloc: Global, seed: &mut u64, now: u32) -> Result<String, AllocError> {
    let mut reports = Vec::new(alloc);
    for _ in 0..=below(seed, 4) {
        reports.push(report(seed, now))?;
    }
    reports_body(alloc, &reports)
}

// Whether the subscription shows these alerts next, and then no more.
fn shows<N: Recorded>(subscription: &mut Subscription<'_, N>, alerts: &[Alert]) -> bool {
    for alert in alerts {
        match subscription.next() {
            Step::Item(shown) if *shown == *alert => {}
            _ => return false,
        }
    }
    matches!(subscription.next(), Step::Pending)
}

// Takes `count` alerts, whatever they are.
fn skip<N: Recorded>(subscription: &mut Subscription<'_, N>, count: u64) {
    for _ in 0..count {
        let _step = subscription.next();
    }
}

// Whether the provider stores exactly these alerts.
fn stores<N: Recorded, R: Wait>(
    rt: &R,
    client: &mut Client<'_, N>,
    alerts: &[Alert],
) -> Result<bool, Stopped> {
    let mut reader = client.subscribe(rt)?;
    let shown = shows(&mut reader.subscription, alerts);
    client.leave(rt, reader);
    Ok(shown)
}

// Whether the provider sends out exactly these alerts for a post.
fn sends<N: Recorded, R: Wait>(
    rt: &R,
    client: &mut Client<'_, N>,
    body: &[u8],
    now: u32,
    batch: &[Alert],
) -> Result<bool, Stopped> {
    let mut reader = client.subscribe(rt)?;
    let opening = reader.subscription.opening();
    skip(&mut reader.subscription, opening);
    let posted = post(rt, client, body, now);
    let shown = shows(&mut reader.subscription, batch);
    client.leave(rt, reader);
    posted?;
    Ok(shown)
}

// What the list makes of a body.
fn batch_of(
    alloc: Global,
    limits: Limits,
    list: &mut Vec<Alert>,
    body: &[u8],
    now: u32,
) -> Result<Vec<Alert>, Stopped> {
    let now = moment(now);
    let Ok(post) = read_post(alloc, body, now, limits.resolve_timeout) else {
        return Err(Stopped::Refused);
    };
    Ok(absorb_each(alloc, list, post.valid.as_slice(), now)?)
}

// Whether both take a post alike, and store the same after it. Some posts come late.
fn agree_on_a_post<N: Recorded, R: Wait + AllocGlobal>(
    rt: &R,
    client: &mut Client<'_, N>,
    list: &mut Vec<Alert>,
    seed: &mut u64,
    now: u32,
) -> Result<bool, Stopped> {
    let late = now.saturating_sub(below(seed, 20));
    let body = next_body(rt.alloc(), seed, now)?;
    let batch = batch_of(rt.alloc(), client.limits(), list, body.as_bytes(), late)?;
    let sent = sends(rt, client, body.as_bytes(), late, &batch)?;
    Ok(sent && stores(rt, client, list)?)
}

// Whether a collection removes what the list loses, and the provider stores what is left.
fn agree_on_a_collection<N: Recorded, R: Wait>(
    rt: &R,
    client: &mut Client<'_, N>,
    list: &mut Vec<Alert>,
    now: u32,
) -> Result<bool, Stopped> {
    let want = remove_resolved(list, moment(now));
    let removed = client.collect_resolved(rt, moment(now))?;
    Ok(removed == want && stores(rt, client, list)?)
}

#[derive(Drop)]
struct BesideAList;

// How many turns went alike.
impl<R: Wait + AllocGlobal> Program<R> for BesideAList {
    type Outcome = Result<u32, Stopped>;

    fn run<N: Recorded>(self, rt: &R, clients: &mut [Client<'_, N>]) -> Self::Outcome {
        let client = &mut clients[0];
        let mut list = Vec::new(rt.alloc());
        let mut seed = 1;
        for turn in 0..TURNS {
            let now = turn * 10;
            if !agree_on_a_post(rt, client, &mut list, &mut seed, now)? {
                return Ok(turn);
            }
            if turn % 7 == 0 && !agree_on_a_collection(rt, client, &mut list, now)? {
                return Ok(turn);
            }
        }
        Ok(TURNS)
    }
}

#[test]
fn agrees_with_a_plain_list(rt: HostRuntime) -> Result<(), Fail> {
    let limits = Limits::with_callers(2)
        .places(4)
        .resolve_timeout(Duration::from_secs(30));
    let (turns, settled) = run(&rt, rt.alloc(), limits, BesideAList)?;
    assert_eq!(rt; turns?, TURNS);
    assert!(rt; settled.complete);
    Ok(())
}
