//! Slices: alerts that lie together are shown at once, as many as a post may have, whatever was shown of
//! them one by one before.

use crate::bodies::moment;
use crate::posts::post_many;
use crate::stopped::Stopped;
use am_alert::{MAX_ALERTS, Moment};
use am_provider::{Slice, Step, Subscription};
use am_store::SharedAlert;
use sinnoraku::{Client, Ended, Limits, Policy, Program, Recorded, run};
use std::alloc::{AllocError, Global};
use std::sync::Wait;
use std::test::Fail;

const MOST: u32 = MAX_ALERTS as u32;

// When reports end.
const END: u32 = 4_000_000;

/// What a slice showed: how many alerts, and the starts of the first and the last one.
#[derive(Clone, Copy, Debug, PartialEq, Eq, Drop)]
enum Shown {
    Stored(usize, Moment, Moment),
    Posted(usize, Moment, Moment),
    Pending,
    Closed,
    Cut,
}

fn start_of(alert: Option<&SharedAlert>) -> Moment {
    match alert {
        Some(alert) => alert.start,
        None => Moment::MAX,
    }
}

// Notes the next slice of a subscription.
fn note_slice<N: Recorded>(
    shown: &mut Vec<Shown>,
    subscription: &mut Subscription<'_, N>,
) -> Result<(), AllocError> {
    shown.push(slice(subscription))?;
    Ok(())
}

// The next slice of a subscription.
fn slice<N: Recorded>(subscription: &mut Subscription<'_, N>) -> Shown {
    match subscription.next_slice() {
        Slice::Stored(alerts) => Shown::Stored(
            alerts.len(),
            start_of(alerts.first()),
            start_of(alerts.last()),
        ),
        Slice::Posted(items) => {
            let mut first = Moment::MAX;
            let mut last = Moment::MAX;
            for (at, item) in items.iter().enumerate() {
                if at == 0 {
                    first = item.alert().start;
                }
                last = item.alert().start;
            }
            Shown::Posted(items.len(), first, last)
        }
        Slice::Pending => Shown::Pending,
        Slice::Closed => Shown::Closed,
        Slice::Cut => Shown::Cut,
    }
}

// Shows alerts one by one, up to `most`, and answers how many there were.
fn one_by_one<N: Recorded>(subscription: &mut Subscription<'_, N>, most: u32) -> u32 {
    for count in 0..most {
        match subscription.next() {
            Step::Item(_) => {}
            _ => return count,
        }
    }
    most
}

/// What the slices of a subscription showed, and its ending.
type Read = (Vec<Shown>, Ended);

// Reads to the end of the log, some of it one by one.
fn read<N: Recorded, R: Wait + AllocGlobal>(
    rt: &R,
    client: &mut Client<'_, N>,
    subscription: &mut Subscription<'_, N>,
) -> Result<Vec<Shown>, Stopped> {
    let mut shown = Vec::new(rt.alloc());
    one_by_one(subscription, 2);
    note_slice(&mut shown, subscription)?;
    note_slice(&mut shown, subscription)?;
    post_many(rt, client, MOST, MOST, END)?;
    post_many(rt, client, 2 * MOST, 1, END)?;
    note_slice(&mut shown, subscription)?;
    note_slice(&mut shown, subscription)?;
    post_many(rt, client, 0, MOST, END)?;
    one_by_one(subscription, MOST - 1);
    note_slice(&mut shown, subscription)?;
    note_slice(&mut shown, subscription)?;
    client.close(rt)?;
    note_slice(&mut shown, subscription)?;
    Ok(shown)
}

#[derive(Drop)]
struct Whole;

impl<R: Wait + AllocGlobal> Program<R> for Whole {
    type Outcome = Result<Read, Stopped>;

    fn run<N: Recorded>(self, rt: &R, clients: &mut [Client<'_, N>]) -> Self::Outcome {
        let client = &mut clients[0];
        post_many(rt, client, 0, MOST, END)?;
        let mut reader = client.subscribe(rt)?;
        let shown = read(rt, client, &mut reader.subscription);
        let ended = client.leave(rt, reader);
        Ok((shown?, ended))
    }
}

#[test]
fn slices_of_the_most_alerts(rt: HostRuntime) -> Result<(), Fail> {
    let (read, _settled) = run(&rt, rt.alloc(), Limits::with_callers(1).places(4), Whole)?;
    let (shown, ended) = read?;
    let most = MAX_ALERTS;
    let wanted = [
        Shown::Stored(most - 2, moment(2), moment(MOST - 1)),
        Shown::Pending,
        Shown::Posted(most, moment(MOST), moment(2 * MOST - 1)),
        Shown::Posted(1, moment(2 * MOST), moment(2 * MOST)),
        Shown::Posted(1, moment(MOST - 1), moment(MOST - 1)),
        Shown::Pending,
        Shown::Closed,
    ];
    assert_eq!(rt; shown.as_slice(), wanted.as_slice());
    assert_eq!(rt; ended.taken, u64::from(3 * MOST + 1));
    assert!(rt; ended.closed && !ended.cut);
    Ok(())
}

#[derive(Drop)]
struct Cutting;

impl<R: Wait + AllocGlobal> Program<R> for Cutting {
    type Outcome = Result<Read, Stopped>;

    fn run<N: Recorded>(self, rt: &R, clients: &mut [Client<'_, N>]) -> Self::Outcome {
        let client = &mut clients[0];
        let mut reader = client.subscribe(rt)?;
        let shown = read_cut(rt, client, &mut reader.subscription);
        let ended = client.leave(rt, reader);
        Ok((shown?, ended))
    }
}

// The log has one place: a batch in hand is shown to its end after the next post has cut the reader.
fn read_cut<N: Recorded, R: Wait + AllocGlobal>(
    rt: &R,
    client: &mut Client<'_, N>,
    subscription: &mut Subscription<'_, N>,
) -> Result<Vec<Shown>, Stopped> {
    let mut shown = Vec::new(rt.alloc());
    post_many(rt, client, 0, 3, END)?;
    one_by_one(subscription, 1);
    post_many(rt, client, 3, 3, END)?;
    note_slice(&mut shown, subscription)?;
    note_slice(&mut shown, subscription)?;
    Ok(shown)
}

#[test]
fn a_slice_of_a_reader_that_is_cut(rt: HostRuntime) -> Result<(), Fail> {
    let limits = Limits::with_callers(1).places(1).policy(Policy::Cut);
    let (read, _settled) = run(&rt, rt.alloc(), limits, Cutting)?;
    let (shown, ended) = read?;
    let wanted = [Shown::Posted(2, moment(1), moment(2)), Shown::Cut];
    assert_eq!(rt; shown.as_slice(), wanted.as_slice());
    assert_eq!(rt; ended.taken, 3);
    assert!(rt; ended.cut);
    Ok(())
}
