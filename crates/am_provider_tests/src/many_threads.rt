//! A provider with four posters, four readers and a close in threads of their own. What each reader was shown
//! begins what the journal owes it, and is all of it if it was answered `Closed`.

use crate::bodies::{body_of, moment};
use crate::shown::{Shown, is_front};
use crate::stopped::Stopped;
use crate::tries::{comes_to, post_one};
use am_provider::Step;
use am_store::Call;
use sinnoraku::{Client, Limits, Recorded, Settled, Subscription, Worker, run_workers};
use std::alloc::{AllocError, Global};
use std::sync::Wait;
use std::sync::atomic::{AtomicU32, Ordering};
use std::test::Fail;
use std::thread;

/// Four posters, of which the first one has fewer alerts and closes then, and four readers.
#[derive(Drop)]
struct FourAndFour {
    // How many readers have subscribed.
    arrived: AtomicU32,
}

/// How many alerts of a poster were accepted, or what a reader was shown.
#[derive(Drop)]
enum Part {
    Posted(u32),
    Read(Result<Shown, Stopped>),
}

impl<R: Wait + AllocGlobal> Worker<R> for FourAndFour {
    type Outcome = Part;

    fn work<N: Recorded>(&self, rt: &R, index: usize, client: &mut Client<'_, N>) -> Part {
        if index >= 4 {
            return Part::Read(self.read_all(rt, client));
        }
        let count = if index == 0 { 100 } else { 200 };
        let accepted = post_some(rt, client, index as u32 * 1000, count);
        if index == 0 {
            comes_to(&self.arrived, 4);
            let _closed = client.close(rt);
        }
        Part::Posted(accepted)
    }
}

// Posts `count` alerts, numbered from `first` on, until one is refused. Answers how many were accepted.
fn post_some<N: Recorded, R: Wait + AllocGlobal>(
    rt: &R,
    client: &mut Client<'_, N>,
    first: u32,
    count: u32,
) -> u32 {
    for at in 0..count {
        let Ok(body) = body_of(rt.alloc(), first.wrapping_add(at)) else {
            return at;
        };
        if !post_one(rt, client, body.as_bytes(), moment(3_000_000)) {
            return at;
        }
    }
    count
}

impl FourAndFour {
    // Subscribes, and reads until `Closed` is answered, or the turns run out.
    fn read_all<N: Recorded, R: Wait + AllocGlobal>(
        &self,
        rt: &R,
        client: &mut Client<'_, N>,
    ) -> Result<Shown, Stopped> {
        let mut reader = client.subscribe(rt)?;
        self.arrived.fetch_add(1, Ordering::SeqCst);
        let shown = read_on(rt.alloc(), &mut reader.subscription);
        client.leave(rt, reader);
        Ok(shown?)
    }
}

fn read_on<N: Recorded>(
    alloc: Global,
    subscription: &mut Subscription<'_, N>,
) -> Result<Shown, AllocError> {
    let mut starts = Vec::new(alloc);
    for _turn in 0..10_000_000u32 {
        match subscription.next() {
            Step::Item(alert) => starts.push(alert.start)?,
            Step::Pending => thread::yield_now(),
            Step::Closed => {
                return Ok(Shown {
                    starts,
                    closed: true,
                });
            }
            Step::Cut => break,
        }
    }
    Ok(Shown {
        starts,
        closed: false,
    })
}

// How many alerts the journal's posts have.
fn count_due(settled: &Settled) -> usize {
    let mut count: usize = 0;
    for call in &settled.journal.calls {
        if let Call::Posted { now: _, alerts } = call {
            count = count.wrapping_add(alerts.as_slice().len());
        }
    }
    count
}

// Whether a reader was shown the first alerts that were due, and was answered `Closed` after all of them.
fn is_whole(settled: &Settled, shown: &Shown) -> bool {
    is_front(settled, &shown.starts) && shown.closed && shown.starts.len() == count_due(settled)
}

// How many alerts were accepted, and how many readers were shown all of it.
fn counts_of(settled: &Settled, parts: &[Part]) -> (u32, u32) {
    let mut accepted: u32 = 0;
    let mut whole: u32 = 0;
    for part in parts {
        match part {
            Part::Posted(count) => accepted = accepted.wrapping_add(*count),
            Part::Read(Ok(shown)) if is_whole(settled, shown) => whole = whole.wrapping_add(1),
            Part::Read(_) => {}
        }
    }
    (accepted, whole)
}

#[test]
fn four_posters_and_four_readers(rt: HostRuntime) -> Result<(), Fail> {
    let threads = FourAndFour {
        arrived: AtomicU32::new(0),
    };
    let limits = Limits::with_callers(8).places(16);
    let (parts, settled) = run_workers(&rt, rt.alloc(), limits, &threads)?;
    let (accepted, whole) = counts_of(&settled, &parts);
    assert_eq!(rt; whole, 4);
    assert_eq!(rt; count_due(&settled), accepted as usize);
    assert!(rt; settled.complete);
    assert_eq!(rt; settled.ended.len(), 4);
    Ok(())
}
