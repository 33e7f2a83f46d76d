//! The provider for threads, with posters and readers. `bench/provider` runs it with many loads.
//!
//! Each poster posts POSTS bodies of ALERTS alerts, with LABELS label sets in turn, and has the journal
//! compacted after each COMPACT posts, or never if that is 0. The readers read meanwhile. With `ready` there
//! is one poster, and its posts were read before. With `full` the alerts of the bodies are such as
//! Prometheus posts: ten labels, an annotation, a start and a generator, where the others have four labels.

mod bodies;
mod load;
mod posting;
mod ready;

use crate::failure::Failure;
use crate::printed::Printed;
use crate::provider::bodies::bodies_of;
use crate::provider::load::Kind;
use crate::provider::posting::run_bytes;
use crate::provider::ready::{read_posts, run_ready};
use am_alert::Moment;
use am_provider::{Origin, Parts, Step, Subscription};
pub(crate) use bodies::write_four;
pub(crate) use load::Load;
use std::alloc::{AllocError, Global};
use std::hint::spin_loop;
use std::marker::Brand;
use std::sync::Wait;
use std::sync::atomic::{AtomicU64, Ordering};
use std::thread;
use std::thread::Threads;
use std::time::{Clock, Duration};

// By how many batches a reader may lag.
pub(crate) const PLACES: u32 = 256;

// 2024-01-01T00:00:00Z, in nanoseconds since 0001-01-01T00:00:00Z.
const NEW_YEAR: u128 = 63_839_664_000_000_000_000;

/// How many posts were accepted, and the nanoseconds of the posts, and of one more subscription.
#[derive(Clone, Copy, Debug, Drop)]
pub(crate) struct Posted {
    pub(crate) accepted: u64,
    pub(crate) posting: u128,
    pub(crate) subscribing: u128,
}

impl Posted {
    pub(crate) const NOTHING: Posted = Posted {
        accepted: 0,
        posting: 0,
        subscribing: 0,
    };
}

/// What was measured of a run.
#[derive(Clone, Copy, Debug, Drop)]
pub(crate) struct Measured {
    pub(crate) posted: Posted,
    pub(crate) shown: u64,
    pub(crate) stored: u64,
}

impl Measured {
    // Adds what one poster posted, and what one reader received.
    fn add(&mut self, posted: Posted, shown: u64) {
        let sum = &mut self.posted;
        sum.accepted = sum.accepted.wrapping_add(posted.accepted);
        sum.posting = sum.posting.wrapping_add(posted.posting);
        sum.subscribing = sum.subscribing.wrapping_add(posted.subscribing);
        self.shown = self.shown.wrapping_add(shown);
    }
}

/// A moment that many nanoseconds after the beginning of 2024.
pub(crate) fn moment(nanoseconds: u64) -> Moment {
    Moment::try_new(NEW_YEAR + u128::from(nanoseconds)).unwrap_or(Moment::MAX)
}

// Spins a little, and then lets another thread run.
pub(crate) fn wait(turns: &mut u64) {
    *turns = turns.wrapping_add(1);
    if *turns % 64 == 0 {
        thread::yield_now();
    } else {
        spin_loop();
    }
}

// Waits until all readers have subscribed.
pub(crate) fn wait_for(arrived: &AtomicU64, readers: u32) {
    let mut turns = 0;
    for _turn in 0..u64::MAX {
        if arrived.load(Ordering::SeqCst) >= u64::from(readers) {
            return;
        }
        wait(&mut turns);
    }
}

// How many microseconds an idle reader sleeps. A sleep of one takes some sixty, since Linux lets a timer be late by 50 (its
// timer slack).
const NAP: u64 = 1;

// How many alerts a subscription delivers until its log ends.
pub(crate) fn count_shown<N: Origin, R: Clock>(
    rt: &R,
    subscription: &mut Subscription<'_, N>,
) -> u64 {
    let mut shown: u64 = 0;
    for _turn in 0..u64::MAX {
        match subscription.next() {
            Step::Item(_) => shown = shown.wrapping_add(1),
            Step::Pending => thread::sleep(rt, Duration::from_micros(NAP)),
            Step::Closed | Step::Cut => return shown,
        }
    }
    shown
}

// A run with a new provider.
fn run<R: Threads + Wait + Clock + Sync>(
    rt: &R,
    alloc: Global,
    load: Load,
) -> Result<Measured, AllocError> {
    let bodies = bodies_of(alloc, load)?;
    if load.kind == Kind::Ready {
        let posts = read_posts(alloc, &bodies, load)?;
        let parts = Parts::make(alloc, PLACES, 1)?;
        return run_ready::<Brand, R>(rt, alloc, parts, posts, load);
    }
    run_bytes(rt, alloc, &bodies, load)
}

/// Runs a load. It prints how many posts were accepted, how many alerts the readers received, and how
/// many are stored; and to standard error the nanoseconds of the posts, and of one more subscription.
pub(crate) fn time<R: Threads + Wait + Clock + Sync>(
    rt: &R,
    alloc: Global,
    load: Load,
    printed: &mut Printed,
) -> Result<(), Failure> {
    let measured = run(rt, alloc, load)?;
    let Posted {
        accepted,
        posting,
        subscribing,
    } = measured.posted;
    write!(
        printed.counts,
        "{accepted} {} {}\n",
        measured.shown, measured.stored
    )?;
    write!(printed.nanoseconds, "{posting} {subscribing}\n")?;
    Ok(())
}
