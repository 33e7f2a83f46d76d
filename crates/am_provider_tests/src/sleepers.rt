//! Eight readers that sleep while nothing is there for them: each post wakes all of them, and so does the close.

use crate::bodies::{body_of, moment};
use crate::posts::post;
use crate::stopped::Stopped;
use crate::tries::{comes_to, post_one};
use am_provider::{Step, Subscription};
use sinnoraku::{Client, Limits, Program, Reader, Recorded, Worker, run, run_workers};
use std::sync::Wait;
use std::sync::atomic::{AtomicU32, Ordering};
use std::test::Fail;

const READERS: u32 = 8;

const ROUNDS: u32 = 10_000;

/// How many readers have come, and how many alerts all of them were shown.
#[derive(Drop)]
struct Heard {
    readers: AtomicU32,
    alerts: AtomicU32,
}

impl Heard {
    fn nothing() -> Heard {
        Heard {
            readers: AtomicU32::new(0),
            alerts: AtomicU32::new(0),
        }
    }

    // Subscribes, reads to the end and leaves.
    fn read<N: Recorded, R: Wait>(&self, rt: &R, client: &mut Client<'_, N>) {
        if let Ok(mut reader) = client.subscribe(rt) {
            self.readers.fetch_add(1, Ordering::SeqCst);
            self.read_or_sleep(rt, &mut reader);
            client.leave(rt, reader);
        }
    }

    // Reads until `Closed` is answered, and sleeps while nothing is there.
    fn read_or_sleep<N: Recorded, R: Wait>(&self, rt: &R, reader: &mut Reader<'_, N>) {
        for _turn in rt.forever() {
            match reader.subscription.next() {
                Step::Item(_alert) => {
                    self.alerts.fetch_add(1, Ordering::SeqCst);
                }
                Step::Pending => reader.subscription.wait(rt),
                Step::Closed | Step::Cut => break,
            }
        }
    }
}

/// A poster and then the readers.
#[derive(Drop)]
struct OneAndEight {
    heard: Heard,
}

impl<R: Wait + AllocGlobal> Worker<R> for OneAndEight {
    /// How many rounds the poster finished.
    type Outcome = Option<u32>;

    fn work<N: Recorded>(&self, rt: &R, index: usize, client: &mut Client<'_, N>) -> Option<u32> {
        if index == 0 {
            let rounds = self.post_each(rt, client);
            let _closed = client.close(rt);
            Some(rounds)
        } else {
            self.heard.read(rt, client);
            None
        }
    }
}

impl OneAndEight {
    // Posts an alert each time that all readers were shown the last one. Answers how many rounds were finished.
    fn post_each<N: Recorded, R: Wait + AllocGlobal>(
        &self,
        rt: &R,
        client: &mut Client<'_, N>,
    ) -> u32 {
        if !comes_to(&self.heard.readers, READERS) {
            return 0;
        }
        for round in 0..ROUNDS {
            let Ok(body) = body_of(rt.alloc(), round % 10) else {
                return round;
            };
            if !post_one(rt, client, body.as_bytes(), moment(3_000_000))
                || !comes_to(&self.heard.alerts, READERS * (round + 1))
            {
                return round;
            }
        }
        ROUNDS
    }
}

#[test]
fn sleepers_are_woken(rt: HostRuntime) -> Result<(), Fail> {
    let threads = OneAndEight {
        heard: Heard::nothing(),
    };
    let limits = Limits::with_callers(READERS + 1).places(16);
    let (rounds, settled) = run_workers(&rt, rt.alloc(), limits, &threads)?;
    assert_eq!(rt; rounds.first(), Some(&Some(ROUNDS)));
    assert_eq!(rt;
        threads.heard.alerts.load(Ordering::SeqCst),
        READERS * ROUNDS
    );
    assert!(rt; settled.complete);
    assert_eq!(rt; settled.ended.len(), READERS as usize);
    Ok(())
}

/// A close and then a reader. If the close wakes nobody, they don't end.
#[derive(Drop)]
struct CloseBeside {
    heard: Heard,
    turns: u32,
}

impl<R: Wait> Worker<R> for CloseBeside {
    type Outcome = ();

    fn work<N: Recorded>(&self, rt: &R, index: usize, client: &mut Client<'_, N>) {
        if index == 0 {
            self.wait();
            let _closed = client.close(rt);
        } else {
            self.heard.read(rt, client);
        }
    }
}

impl CloseBeside {
    // Until these turns after the reader has come, which may be between its last look and its sleep.
    fn wait(&self) {
        if comes_to(&self.heard.readers, 1) {
            for _turn in 0..self.turns {
                let _come = self.heard.readers.load(Ordering::SeqCst);
            }
        }
    }
}

#[test]
fn close_meets_a_reader_that_falls_asleep(rt: HostRuntime) -> Result<(), Fail> {
    for round in 0..2_000u32 {
        let threads = CloseBeside {
            heard: Heard::nothing(),
            turns: round % 200,
        };
        let limits = Limits::with_callers(2).places(2);
        let (_closed, settled) = run_workers(&rt, rt.alloc(), limits, &threads)?;
        assert_eq!(rt; settled.ended.len(), 1);
        assert!(rt; settled.ended.as_slice()[0].closed);
    }
    Ok(())
}

/// Whether a subscription has news before an alert that was stored is shown, and none after it; the same of one that
/// was posted; and whether it has news after a close.
#[derive(Drop)]
struct News;

// The next alert is shown.
fn show<N: Recorded>(subscription: &mut Subscription<'_, N>) -> bool {
    matches!(subscription.next(), Step::Item(_))
}

fn news_of<N: Recorded, R: Wait + AllocGlobal>(
    rt: &R,
    client: &mut Client<'_, N>,
    subscription: &mut Subscription<'_, N>,
) -> Result<[bool; 5], Stopped> {
    let stored = subscription.has_news();
    // A sleep would last for ever.
    subscription.wait(rt);
    let stored_shown = show(subscription) && !subscription.has_news();
    post(rt, client, body_of(rt.alloc(), 2)?.as_bytes(), 11)?;
    let posted = subscription.has_news();
    let posted_shown = show(subscription) && !subscription.has_news();
    client.close(rt)?;
    let closed = subscription.has_news();
    Ok([stored, stored_shown, posted, posted_shown, closed])
}

impl<R: Wait + AllocGlobal> Program<R> for News {
    type Outcome = Result<[bool; 5], Stopped>;

    fn run<N: Recorded>(self, rt: &R, clients: &mut [Client<'_, N>]) -> Self::Outcome {
        let client = &mut clients[0];
        post(rt, client, body_of(rt.alloc(), 1)?.as_bytes(), 10)?;
        let mut reader = client.subscribe(rt)?;
        let news = news_of(rt, client, &mut reader.subscription);
        client.leave(rt, reader);
        news
    }
}

#[test]
fn news_until_all_is_shown(rt: HostRuntime) -> Result<(), Fail> {
    let (news, _settled) = run(&rt, rt.alloc(), Limits::with_callers(1).places(16), News)?;
    assert_eq!(rt; news?.as_slice(), [true; 5].as_slice());
    Ok(())
}
