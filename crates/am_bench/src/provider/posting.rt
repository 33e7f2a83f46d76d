//! Posters and readers of a provider, each in a thread of its own.

use crate::provider::load::Load;
use crate::provider::{Measured, PLACES, Posted, count_shown, moment, wait, wait_for};
use crate::stopwatch::since;
use am_posts::PostReader;
use sinnoraku::{Client, Limits, Recorded, Worker, run_workers};
use std::alloc::{AllocError, Global};
use std::sync::atomic::{AtomicU64, Ordering};
use std::sync::{Barrier, Wait};
use std::thread::Threads;
use std::time::{Clock, Instant};

/// The posters and then the readers.
#[derive(Drop)]
struct Posting<'a> {
    alloc: Global,
    bodies: &'a [String],
    load: Load,
    // How many readers have subscribed.
    arrived: AtomicU64,
    // All posters meet before the first post, and after the last one.
    meeting: Barrier,
}

impl<'a, R: Wait + Clock> Worker<R> for Posting<'a> {
    /// What it posted, and how many alerts it received. Only the first poster tells times.
    type Outcome = (Posted, u64);

    fn work<N: Recorded>(&self, rt: &R, index: usize, client: &mut Client<'_, N>) -> (Posted, u64) {
        if index == 0 {
            return (self.post_first(rt, client), 0);
        }
        if index >= self.load.posters as usize {
            return (Posted::NOTHING, self.read(rt, client));
        }
        let mut posted = Posted::NOTHING;
        posted.accepted = self.post_among(rt, client);
        (posted, 0)
    }
}

impl<'a> Posting<'a> {
    // Subscribes, and reads until the log ends.
    fn read<N: Recorded, R: Wait + Clock>(&self, rt: &R, client: &mut Client<'_, N>) -> u64 {
        let Ok(mut reader) = client.subscribe(rt) else {
            return 0;
        };
        self.arrived.fetch_add(1, Ordering::SeqCst);
        let shown = count_shown(rt, &mut reader.subscription);
        client.leave(rt, reader);
        shown
    }

    // Posts with the others once the readers have subscribed. Then it subscribes once more, and closes the log. The
    // others sleep until it has read the clock, so that the time has their wake in it.
    fn post_first<N: Recorded, R: Wait + Clock>(
        &self,
        rt: &R,
        client: &mut Client<'_, N>,
    ) -> Posted {
        wait_for(&self.arrived, self.load.readers);
        let begin = Instant::now(rt);
        let accepted = self.post_among(rt, client);
        let posting = since(rt, begin);
        Posted {
            accepted,
            posting,
            subscribing: subscribe_last(rt, client),
        }
    }

    // Posts between the meetings. Returns how many bodies were accepted.
    fn post_among<N: Recorded, R: Wait>(&self, rt: &R, client: &mut Client<'_, N>) -> u64 {
        self.meeting.wait(rt);
        let accepted = self.post(rt, client);
        self.meeting.wait(rt);
        accepted
    }

    // Posts the bodies in turn, trying each again while the log is full. Returns how many were accepted.
    fn post<N: Recorded, R: Wait>(&self, rt: &R, client: &mut Client<'_, N>) -> u64 {
        let load = self.load;
        let timeout = client.limits().resolve_timeout;
        let mut reader = PostReader::new(self.alloc);
        let mut turns = 0;
        let mut accepted: u64 = 0;
        for at in 0..load.posts {
            let Some(body) = self.bodies.get((at % load.labels) as usize) else {
                return accepted;
            };
            for _turn in 0..u64::MAX {
                if let Ok(post) = reader.read(body.as_bytes(), moment(at), timeout)
                    && client.put(rt, post, moment(at)).is_ok()
                {
                    accepted = accepted.wrapping_add(1);
                    break;
                }
                wait(&mut turns);
            }
            if load.compact > 0 && at % load.compact == 0 {
                let _dropped = client.compact(rt);
            }
        }
        accepted
    }
}

// Subscribes once more, and closes the log. Returns the nanoseconds of that subscription.
fn subscribe_last<N: Recorded, R: Wait + Clock>(rt: &R, client: &mut Client<'_, N>) -> u128 {
    let begin = Instant::now(rt);
    let last = client.subscribe(rt);
    let subscribing = since(rt, begin);
    if let Ok(last) = last {
        client.leave(rt, last);
    }
    let _closed = client.close(rt);
    subscribing
}

// Posts bodies to a provider while the readers read.
pub(crate) fn run_bytes<R: Threads + Wait + Clock + Sync>(
    rt: &R,
    alloc: Global,
    bodies: &[String],
    load: Load,
) -> Result<Measured, AllocError> {
    let posting = Posting {
        alloc,
        bodies,
        load,
        arrived: AtomicU64::new(0),
        meeting: Barrier::new(load.posters as usize),
    };
    let limits = Limits::with_callers(load.posters + load.readers).places(PLACES);
    let (parts, settled) = run_workers(rt, alloc, limits, &posting)?;
    let mut measured = Measured {
        posted: Posted::NOTHING,
        shown: 0,
        stored: settled.store.len() as u64,
    };
    for (posted, shown) in parts {
        measured.add(posted, shown);
    }
    Ok(measured)
}
