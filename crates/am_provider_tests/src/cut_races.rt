//! A poster against one reader, at one place in a log that cuts who is slow: however the two meet, the
//! reader is shown the first of what was posted, and then at most one cut.

use crate::bodies::{body_of, moment};
use crate::shown::is_front;
use crate::stopped::Stopped;
use am_alert::Moment;
use am_provider::Step;
use am_store::LaneSet;
use sinnoraku::{Client, Limits, Policy, Recorded, Settled, Subscription, Worker, run_workers};
use std::alloc::{AllocError, Global};
use std::sync::atomic::{AtomicU8, Ordering};
use std::sync::{Barrier, Wait};
use std::test::Fail;
use std::thread;
use std::thread::Threads;

const ROUNDS: u32 = 10_000;

/// What a reader was answered last.
#[derive(Clone, Copy, Debug, PartialEq, Eq, Drop)]
enum End {
    Cut,
    Closed,
    Nothing,
}

/// What a reader was shown, by the starts of its alerts, and what it was answered then.
#[derive(Drop)]
struct Told {
    starts: Vec<Moment>,
    end: End,
}

/// What one of both did.
#[derive(Drop)]
enum Part {
    Posted(Posted),
    Read(Result<Reading, Stopped>),
}

/// How many bodies were accepted, and how many of them cut the reader.
#[derive(Clone, Copy, Drop)]
struct Posted {
    placed: usize,
    cuts: usize,
}

/// What the reader was shown.
#[derive(Drop)]
struct Reading {
    told: Told,
    // Whether the end stayed as it was answered.
    stays: bool,
    // Whether the reader was cut, whether or not `next` answered so.
    ended_cut: bool,
}

/// One round of a poster and then a reader: these bodies, and how many turns the poster waits before each.
#[derive(Drop)]
struct Race<'a> {
    bodies: &'a [String],
    turns: u32,
    // Both meet once the reader has subscribed, and once all is posted.
    meeting: Barrier,
    began: AtomicU8,
}

impl<'a, R: Wait + AllocGlobal> Worker<R> for Race<'a> {
    type Outcome = Part;

    fn work<N: Recorded>(&self, rt: &R, index: usize, client: &mut Client<'_, N>) -> Part {
        if index == 0 {
            Part::Posted(self.post_all(rt, client))
        } else {
            Part::Read(self.read(rt, client))
        }
    }
}

impl<'a> Race<'a> {
    // Posts the bodies once the reader has subscribed, and closes.
    fn post_all<N: Recorded, R: Wait>(&self, rt: &R, client: &mut Client<'_, N>) -> Posted {
        let mut placed: usize = 0;
        let mut cuts: usize = 0;
        self.meeting.wait(rt);
        for body in self.bodies {
            self.wait();
            if let Ok(posted) = client.post(rt, body.as_bytes(), moment(9)) {
                placed = placed.wrapping_add(1);
                if posted.cut == LaneSet::EMPTY.with(0) {
                    cuts = cuts.wrapping_add(1);
                }
            }
        }
        let _closed = client.close(rt);
        self.meeting.wait(rt);
        Posted { placed, cuts }
    }

    // Waits for the reader to begin, but not for long, and then for some turns more.
    fn wait(&self) {
        for _turn in 0..100_000u32 {
            if self.began.load(Ordering::SeqCst) == 1 {
                break;
            }
        }
        for _turn in 0..self.turns {
            let _began = self.began.load(Ordering::SeqCst);
        }
    }

    // Subscribes and reads. Once all is posted, asks again and leaves.
    fn read<N: Recorded, R: Wait + AllocGlobal>(
        &self,
        rt: &R,
        client: &mut Client<'_, N>,
    ) -> Result<Reading, Stopped> {
        let subscribed = client.subscribe(rt);
        self.meeting.wait(rt);
        let mut reader = match subscribed {
            Ok(reader) => reader,
            Err(fault) => {
                self.meeting.wait(rt);
                return Err(Stopped::from(fault));
            }
        };
        self.began.store(1, Ordering::SeqCst);
        let told = read_all(rt.alloc(), &mut reader.subscription);
        self.meeting.wait(rt);
        let end = match &told {
            Ok(told) => told.end,
            Err(_) => End::Nothing,
        };
        let stays = stays(&mut reader.subscription, end);
        let ended = client.leave(rt, reader);
        Ok(Reading {
            told: told?,
            stays,
            ended_cut: ended.cut,
        })
    }
}

// Lets other threads run at some turns.
fn rest(turn: u32) {
    if turn % 256 == 255 {
        thread::yield_now();
    }
}

// Reads until a cut or the log's end is answered, or the turns run out.
fn read_all<N: Recorded>(
    alloc: Global,
    subscription: &mut Subscription<'_, N>,
) -> Result<Told, AllocError> {
    let mut starts = Vec::new(alloc);
    for turn in 0..1_000_000_000u32 {
        match subscription.next() {
            Step::Item(alert) => starts.push(alert.start)?,
            Step::Pending => rest(turn),
            Step::Closed => {
                return Ok(Told {
                    starts,
                    end: End::Closed,
                });
            }
            Step::Cut => {
                return Ok(Told {
                    starts,
                    end: End::Cut,
                });
            }
        }
    }
    Ok(Told {
        starts,
        end: End::Nothing,
    })
}

// Whether a reader is answered that end each time that it asks again.
fn stays<N: Recorded>(subscription: &mut Subscription<'_, N>, end: End) -> bool {
    for _turn in 0..3u32 {
        let again = match subscription.next() {
            Step::Cut => End::Cut,
            Step::Closed => End::Closed,
            _ => End::Nothing,
        };
        if again != end {
            return false;
        }
    }
    true
}

// Whether a round is as it has to be, with that many bodies to post.
fn is_right(posted: Posted, reading: &Reading, settled: &Settled, bodies: usize) -> bool {
    let Posted { placed, cuts } = posted;
    if placed != bodies || !settled.complete || !reading.stays {
        return false;
    }
    let Told { starts, end } = &reading.told;
    if !is_front(settled, starts) {
        return false;
    }
    match *end {
        End::Cut => reading.ended_cut && cuts == 1,
        End::Closed => !reading.ended_cut && cuts == 0 && starts.len() == placed,
        End::Nothing => false,
    }
}

// Whether a round was as it has to be.
fn is_right_round<R: Threads + Wait + AllocGlobal + Sync>(
    rt: &R,
    bodies: &[String],
    turns: u32,
) -> Result<bool, Stopped> {
    let race = Race {
        bodies,
        turns,
        meeting: Barrier::new(2),
        began: AtomicU8::new(0),
    };
    let limits = Limits::with_callers(2).places(1).policy(Policy::Cut);
    let (parts, settled) = run_workers(rt, rt.alloc(), limits, &race)?;
    match parts.as_slice() {
        [Part::Posted(posted), Part::Read(Ok(reading))] => {
            Ok(is_right(*posted, reading, &settled, bodies.len()))
        }
        _ => Ok(false),
    }
}

// Four bodies to post.
fn four_bodies(alloc: Global) -> Result<Vec<String>, AllocError> {
    let mut bodies = Vec::new(alloc);
    for number in 0..4u32 {
        bodies.push(body_of(alloc, number)?)?;
    }
    Ok(bodies)
}

// How many rounds were as they have to be.
fn right_rounds<R: Threads + Wait + AllocGlobal + Sync>(rt: &R) -> Result<u32, Stopped> {
    let bodies = four_bodies(rt.alloc())?;
    let mut right: u32 = 0;
    for round in 0..ROUNDS {
        if is_right_round(rt, &bodies, round % 1_000)? {
            right = right.wrapping_add(1);
        }
    }
    Ok(right)
}

#[test]
fn cut_races(rt: HostRuntime) -> Result<(), Fail> {
    assert_eq!(rt; right_rounds(&rt)?, ROUNDS);
    Ok(())
}
