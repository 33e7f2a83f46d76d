//! What each call of the provider takes where many alerts are stored. `bench/calls` runs it.
//!
//! One thread makes all calls, so that none waits. Each is made many times, and its least time counts: nearly all of
//! that is spent under the provider's lock. Bodies are read before, outside of it.

use crate::failure::Failure;
use crate::printed::Printed;
use crate::provider::{PLACES, moment, write_four};
use crate::stopwatch::since;
use crate::words::number;
use am_alert::{Moment, Post};
use am_posts::PostReader;
use sinnoraku::{Client, Limits, Program, Recorded, run};
use std::alloc::{AllocError, Global};
use std::sync::Wait;
use std::time::{Clock, Duration, Instant};

// How often each call is made.
const ROUNDS: u64 = 11;

// How many alerts a large post and a page have, and how many posts a compaction and a trim discard.
const MANY: u64 = 1_000;

/// How many alerts are stored.
#[derive(Clone, Copy, Debug, Drop)]
pub(crate) struct Load {
    stored: u64,
}

impl Load {
    pub(crate) fn read(words: &[String]) -> Option<Load> {
        let stored = number(words, 0)?;
        Some(Load { stored })
    }

    /// Few alerts.
    pub(crate) fn small() -> Load {
        Load { stored: 100 }
    }
}

/// The least nanoseconds that each call took.
#[derive(Clone, Copy, Debug, Drop)]
struct Times {
    /// A post of one alert that is stored.
    put_one: u128,
    /// A post of many.
    put_many: u128,
    get: u128,
    /// A page of many.
    page: u128,
    /// All that is stored.
    stored: u128,
    subscribe: u128,
    leave: u128,
    /// A collection that finds nothing resolved.
    collect: u128,
    /// A compaction of many calls.
    compact: u128,
    /// A trim of many calls.
    trim: u128,
}

impl Times {
    const NONE: Times = Times {
        put_one: u128::MAX,
        put_many: u128::MAX,
        get: u128::MAX,
        page: u128::MAX,
        stored: u128::MAX,
        subscribe: u128::MAX,
        leave: u128::MAX,
        collect: u128::MAX,
        compact: u128::MAX,
        trim: u128::MAX,
    };
}

// Notes how many nanoseconds a call took.
fn note(least: &mut u128, took: u128) {
    *least = (*least).min(took);
}

// The body of a post of this number of alerts, from a label set on.
fn body_of(alloc: Global, first: u64, alerts: u64) -> Result<String, AllocError> {
    let mut body = String::new(alloc);
    for at in 0..alerts {
        let begin = if at == 0 { '[' } else { ',' };
        write_four(&mut body, begin, first.wrapping_add(at))?;
    }
    body.push(']')?;
    Ok(body)
}

// What is posted, read from its body.
fn post_of(
    alloc: Global,
    reader: &mut PostReader,
    first: u64,
    alerts: u64,
    now: Moment,
) -> Result<Post, Failure> {
    let body = body_of(alloc, first, alerts)?;
    match reader.read(body.as_bytes(), now, Duration::from_secs(300)) {
        Ok(post) => Ok(post),
        Err(_) => Err(Failure::OutOfMemory),
    }
}

// Posts alerts from a label set on, and answers how many nanoseconds that took.
fn put<N: Recorded, R: Wait + Clock>(
    rt: &R,
    alloc: Global,
    client: &mut Client<'_, N>,
    reader: &mut PostReader,
    first: u64,
    alerts: u64,
) -> Result<u128, Failure> {
    let now = moment(first);
    let post = post_of(alloc, reader, first, alerts, now)?;
    let begin = Instant::now(rt);
    let put = client.put(rt, post, now);
    let took = since(rt, begin);
    match put {
        Ok(_) => Ok(took),
        Err(_) => Err(Failure::OutOfMemory),
    }
}

// Posts many times an alert that is stored.
fn put_often<N: Recorded, R: Wait + Clock>(
    rt: &R,
    alloc: Global,
    client: &mut Client<'_, N>,
    reader: &mut PostReader,
    times: &mut Times,
) -> Result<(), Failure> {
    for at in 0..MANY {
        let took = put(rt, alloc, client, reader, at, 1)?;
        note(&mut times.put_one, took);
    }
    Ok(())
}

// Reads what is stored: one alert, a page of many, and all.
fn read<N: Recorded, R: Wait + Clock>(
    rt: &R,
    client: &mut Client<'_, N>,
    load: Load,
    times: &mut Times,
) -> Result<(), Failure> {
    let begin = Instant::now(rt);
    let page = client.stored_page(rt, load.stored / 2, MANY)?;
    note(&mut times.page, since(rt, begin));
    if let Some(alert) = page.alerts.get(0) {
        let begin = Instant::now(rt);
        let _found = client.get(rt, &alert.labels)?;
        note(&mut times.get, since(rt, begin));
    }
    let begin = Instant::now(rt);
    let _stored = client.stored(rt)?;
    note(&mut times.stored, since(rt, begin));
    Ok(())
}

// Subscribes, and leaves.
fn subscribe<N: Recorded, R: Wait + Clock>(
    rt: &R,
    client: &mut Client<'_, N>,
    times: &mut Times,
) -> Result<(), Failure> {
    let begin = Instant::now(rt);
    let subscribed = client.subscribe(rt);
    note(&mut times.subscribe, since(rt, begin));
    let Ok(subscription) = subscribed else {
        return Err(Failure::OutOfMemory);
    };
    let begin = Instant::now(rt);
    let _ended = client.leave(rt, subscription);
    note(&mut times.leave, since(rt, begin));
    Ok(())
}

// Collects, trims and compacts.
fn clear<N: Recorded, R: Wait + Clock>(
    rt: &R,
    alloc: Global,
    client: &mut Client<'_, N>,
    reader: &mut PostReader,
    times: &mut Times,
) -> Result<(), Failure> {
    let begin = Instant::now(rt);
    let _removed = client.collect_resolved(rt, moment(0))?;
    note(&mut times.collect, since(rt, begin));
    let begin = Instant::now(rt);
    let _dropped = client.compact(rt)?;
    note(&mut times.compact, since(rt, begin));
    put_often(rt, alloc, client, reader, times)?;
    let begin = Instant::now(rt);
    let _dropped = client.trim(rt)?;
    note(&mut times.trim, since(rt, begin));
    Ok(())
}

// Stores the alerts, many at once.
fn store<N: Recorded, R: Wait + Clock>(
    rt: &R,
    alloc: Global,
    client: &mut Client<'_, N>,
    reader: &mut PostReader,
    load: Load,
) -> Result<(), Failure> {
    for at in 0..load.stored / MANY + 1 {
        let _took = put(rt, alloc, client, reader, at.wrapping_mul(MANY), MANY)?;
    }
    let _dropped = client.compact(rt)?;
    Ok(())
}

/// A program that stores the alerts, and makes all calls.
#[derive(Drop)]
struct Calling {
    alloc: Global,
    load: Load,
}

impl<R: Wait + Clock> Program<R> for Calling {
    type Outcome = Result<Times, Failure>;

    fn run<N: Recorded>(self, rt: &R, clients: &mut [Client<'_, N>]) -> Result<Times, Failure> {
        let Calling { alloc, load } = self;
        let client = &mut clients[0];
        let mut reader = PostReader::new(alloc);
        let mut times = Times::NONE;
        store(rt, alloc, client, &mut reader, load)?;
        for _round in 0..ROUNDS {
            put_often(rt, alloc, client, &mut reader, &mut times)?;
            let took = put(rt, alloc, client, &mut reader, 0, MANY)?;
            note(&mut times.put_many, took);
            read(rt, client, load, &mut times)?;
            // A list that was shared since the last post is shared once more, which would say less.
            let took = put(rt, alloc, client, &mut reader, 0, 1)?;
            note(&mut times.put_one, took);
            subscribe(rt, client, &mut times)?;
            clear(rt, alloc, client, &mut reader, &mut times)?;
        }
        Ok(times)
    }
}

/// Runs a load. It prints how many alerts were stored at the end; and to standard error the nanoseconds of each call.
pub(crate) fn time<R: Wait + Clock>(
    rt: &R,
    alloc: Global,
    load: Load,
    printed: &mut Printed,
) -> Result<(), Failure> {
    let limits = Limits::with_callers(1).places(PLACES);
    let (times, settled) = run(rt, alloc, limits, Calling { alloc, load })?;
    let times = times?;
    write!(printed.counts, "{}\n", settled.store.len())?;
    let out = &mut printed.nanoseconds;
    write!(
        out,
        "put_one {}\nput_many {}\n",
        times.put_one, times.put_many
    )?;
    write!(
        out,
        "get {}\npage {}\nstored {}\n",
        times.get, times.page, times.stored
    )?;
    write!(
        out,
        "subscribe {}\nleave {}\n",
        times.subscribe, times.leave
    )?;
    write!(
        out,
        "collect {}\ncompact {}\ntrim {}\n",
        times.collect, times.compact, times.trim
    )?;
    Ok(())
}
