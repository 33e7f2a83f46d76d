//! Four thousand subscriptions that come and go while four threads report the same label sets again and
//! again: what each was shown begins what was stored when it came and what became of each report since,
//! by the journal alone.

use crate::bodies::{Report, moment, reports_body};
use crate::stopped::Stopped;
use crate::tries::post_one;
use am_alert::{Alert, Moment};
use am_provider::{Counts, Step};
use am_store::Call;
use sinnoraku::{Client, Ended, Limits, Recorded, Settled, Subscription, Worker, run_workers};
use std::alloc::{AllocError, Global};
use std::sync::Wait;
use std::test::Fail;
use std::thread;

// How many alerts each poster reports, and how often each reader subscribes.
const EACH: u32 = 1_000;

const LABELS: u32 = 8;

/// What is looked at of an alert.
#[derive(Clone, Copy, Debug, PartialEq, Eq, Drop)]
struct Seen {
    label: u32,
    start: Moment,
    end: Moment,
    updated: Moment,
}

impl Seen {
    fn of(alert: &Alert) -> Seen {
        Seen {
            label: alert.labels.get("n").parse::<u32>().unwrap_or(LABELS),
            start: alert.start,
            end: alert.end,
            updated: alert.updated,
        }
    }

    // What is stored after this report, where another one was. All ends are given, and are to come.
    fn over(&self, stored: &Seen) -> Seen {
        let ends_within = self.end > stored.start && self.end < stored.end;
        let starts_within = self.start > stored.start && self.start < stored.end;
        if !ends_within && !starts_within {
            return *self;
        }
        Seen {
            label: self.label,
            start: earlier(self.start, stored.start),
            end: later(self.end, stored.end),
            updated: later(self.updated, stored.updated),
        }
    }
}

fn earlier(one: Moment, other: Moment) -> Moment {
    if one < other { one } else { other }
}

fn later(one: Moment, other: Moment) -> Moment {
    if one < other { other } else { one }
}

/// What a subscription was shown, and its ending.
#[derive(Drop)]
struct Reading {
    seen: Vec<Seen>,
    ended: Ended,
}

/// Four posters and then four readers.
#[derive(Drop)]
struct ComeAndGo;

/// How many reports of a poster were accepted, or a reader's readings.
#[derive(Drop)]
enum Part {
    Reported(u32),
    Read(Result<Vec<Reading>, Stopped>),
}

impl<R: Wait + AllocGlobal> Worker<R> for ComeAndGo {
    type Outcome = Part;

    fn work<N: Recorded>(&self, rt: &R, index: usize, client: &mut Client<'_, N>) -> Part {
        if index < 4 {
            Part::Reported(report_all(rt, client, index as u32))
        } else {
            Part::Read(read_again(rt, client))
        }
    }
}

// Answers how many reports were accepted.
fn report_all<N: Recorded, R: Wait + AllocGlobal>(
    rt: &R,
    client: &mut Client<'_, N>,
    poster: u32,
) -> u32 {
    let mut accepted: u32 = 0;
    for at in 0..EACH {
        let number = at * 4 + poster % 4;
        if report(rt, client, number) == Ok(true) {
            accepted = accepted.wrapping_add(1);
        }
    }
    accepted
}

// Reports one of the label sets. Most reports begin or end within the stored one, so that they are
// merged; some come earlier than another that was accepted before.
fn report<N: Recorded, R: Wait + AllocGlobal>(
    rt: &R,
    client: &mut Client<'_, N>,
    number: u32,
) -> Result<bool, AllocError> {
    let label = number % LABELS;
    let apart = if number % 17 == 0 { 5_000 } else { 0 };
    let start = 10_000 + label * 10_000 + apart + number % 50;
    let end = start + 100 + number % 30;
    let body = reports_body(rt.alloc(), &[Report::new(label, start, end)])?;
    Ok(post_one(rt, client, body.as_bytes(), moment(number)))
}

// Subscribes again and again.
fn read_again<N: Recorded, R: Wait + AllocGlobal>(
    rt: &R,
    client: &mut Client<'_, N>,
) -> Result<Vec<Reading>, Stopped> {
    let mut readings = Vec::with_capacity(rt.alloc(), EACH as usize)?;
    for turn in 0..EACH {
        let reading = read_once(rt, client, turn % 40)?;
        readings.push(reading).map_err(AllocError::from)?;
    }
    Ok(readings)
}

// Subscribes, reads a while and leaves.
fn read_once<N: Recorded, R: Wait + AllocGlobal>(
    rt: &R,
    client: &mut Client<'_, N>,
    turns: u32,
) -> Result<Reading, Stopped> {
    let mut reader = client.subscribe(rt)?;
    let seen = read(rt.alloc(), &mut reader.subscription, turns);
    let ended = client.leave(rt, reader);
    Ok(Reading { seen: seen?, ended })
}

// What is shown in `turns` turns.
fn read<N: Recorded>(
    alloc: Global,
    subscription: &mut Subscription<'_, N>,
    turns: u32,
) -> Result<Vec<Seen>, AllocError> {
    let mut seen = Vec::new(alloc);
    for _turn in 0..turns {
        match subscription.next() {
            Step::Item(alert) => seen.push(Seen::of(alert))?,
            _ => thread::yield_now(),
        }
    }
    Ok(seen)
}

/// What was stored when a subscription came, and how many alerts had been sent out.
#[derive(Drop)]
struct Opening {
    at: u64,
    stored: Vec<Seen>,
    sent: usize,
}

/// What a journal gives: what is stored after it, what was sent out, and what each subscription found.
#[derive(Drop)]
struct Replay {
    stored: Vec<Seen>,
    sent: Vec<Seen>,
    openings: Vec<Opening>,
}

impl Replay {
    fn of(alloc: Global, settled: &Settled) -> Result<Replay, AllocError> {
        let mut replay = Replay {
            stored: Vec::new(alloc),
            sent: Vec::new(alloc),
            openings: Vec::new(alloc),
        };
        let mut at: u64 = 0;
        for call in &settled.journal.calls {
            replay.take(at, call)?;
            at = at.wrapping_add(1);
        }
        Ok(replay)
    }

    fn take(&mut self, at: u64, call: &Call) -> Result<(), AllocError> {
        match call {
            Call::Posted { now: _, alerts } => {
                for alert in alerts.as_slice() {
                    self.store(&Seen::of(alert))?;
                }
                Ok(())
            }
            Call::Subscribed(_) => {
                let stored = self.stored.clone()?;
                let sent = self.sent.len();
                self.openings.push(Opening { at, stored, sent })?;
                Ok(())
            }
            _ => Ok(()),
        }
    }

    fn store(&mut self, report: &Seen) -> Result<(), AllocError> {
        let Some(at) = replace(&mut self.stored, report) else {
            self.stored.push(*report)?;
            self.sent.push(*report)?;
            return Ok(());
        };
        if let Some(became) = self.stored.get(at) {
            self.sent.push(*became)?;
        }
        Ok(())
    }

    // How many readings are as they have to be.
    fn count_right(&self, readings: &[Reading]) -> u32 {
        let mut right: u32 = 0;
        for reading in readings {
            if self.owes(reading) && reading.ended.taken == reading.seen.len() as u64 {
                right = right.wrapping_add(1);
            }
        }
        right
    }

    // Whether that is what was due to the subscription first.
    fn owes(&self, reading: &Reading) -> bool {
        for opening in &self.openings {
            if opening.at == reading.ended.at {
                return self.continues(opening, &reading.seen);
            }
        }
        false
    }

    fn continues(&self, opening: &Opening, seen: &[Seen]) -> bool {
        let mut at = opening.sent.wrapping_sub(opening.stored.len());
        for (index, item) in seen.iter().enumerate() {
            let due = match opening.stored.get(index) {
                Some(stored) => Some(stored),
                None => self.sent.get(at),
            };
            if due != Some(item) {
                return false;
            }
            at = at.wrapping_add(1);
        }
        true
    }
}

// Has a report in place of what was stored of its label set, where there was any, and answers where.
fn replace(stored: &mut [Seen], report: &Seen) -> Option<usize> {
    let at = stored.iter().position(|other| other.label == report.label)?;
    stored[at] = report.over(&stored[at]);
    Some(at)
}

// How many reports were accepted, and how many readings are as they have to be.
fn counts_of(alloc: Global, settled: &Settled, parts: &[Part]) -> Result<(u32, u32), AllocError> {
    let replay = Replay::of(alloc, settled)?;
    let mut accepted: u32 = 0;
    let mut right: u32 = 0;
    for part in parts {
        match part {
            Part::Reported(count) => accepted = accepted.wrapping_add(*count),
            Part::Read(Ok(readings)) => right = right.wrapping_add(replay.count_right(readings)),
            Part::Read(Err(_)) => {}
        }
    }
    Ok((accepted, right))
}

#[test]
fn four_thousand_subscriptions(rt: HostRuntime) -> Result<(), Fail> {
    let limits = Limits::with_callers(8).places(256);
    let (parts, settled) = run_workers(&rt, rt.alloc(), limits, &ComeAndGo)?;
    let (accepted, right) = counts_of(rt.alloc(), &settled, &parts)?;
    assert_eq!(rt; accepted, 4_000);
    assert_eq!(rt; right, 4_000);
    assert_eq!(rt; settled.ended.len(), 4_000);
    assert_eq!(rt;
        settled.counts(),
        Counts {
            places: 4_000,
            posts: 4_000,
            stored: 8
        }
    );
    assert!(rt; settled.complete);
    Ok(())
}
