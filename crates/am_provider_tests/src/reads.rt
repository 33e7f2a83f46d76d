//! Reads of the stored alerts without a subscription, and a collection that hands back what it removed: of
//! as many alerts as a post may have.

use crate::bodies::{Report, moment};
use crate::posts::{Placed, post_reports};
use crate::stopped::Stopped;
use am_alert::{MAX_ALERTS, Moment};
use am_labels::LabelSet;
use am_provider::Counts;
use am_store::StoredAlerts;
use sinnoraku::{Client, Limits, Program, Recorded, run};
use std::alloc::{AllocError, Global};
use std::sync::Wait;
use std::test::Fail;

// As many reports as a post may have, each of its own label set. Those of even numbers end at 20, the
// others at 30.
fn most_reports(alloc: Global) -> Result<Vec<Report>, AllocError> {
    let mut reports = Vec::with_capacity(alloc, MAX_ALERTS)?;
    for number in 0..MAX_ALERTS as u32 {
        let end = if number % 2 == 0 { 20 } else { 30 };
        reports.push(Report::new(number, 10, end))?;
    }
    Ok(reports)
}

// The label set of a report's number.
fn labels_of(alloc: Global, number: u32) -> Result<LabelSet, AllocError> {
    let mut pairs = Vec::new(alloc);
    pairs.push((
        String::from_str(alloc, "n")?,
        format!(in alloc; "{number}")?,
    ))?;
    LabelSet::from_pairs(alloc, pairs)
}

// Whether these are the alerts of the numbers from one on in steps, in order.
fn are_numbered(
    alloc: Global,
    alerts: &StoredAlerts,
    first: u32,
    step: u32,
) -> Result<bool, AllocError> {
    let mut number = first;
    for alert in alerts {
        if alert.labels != labels_of(alloc, number)? {
            return Ok(false);
        }
        number = number.wrapping_add(step);
    }
    Ok(true)
}

/// Some alerts: how many, and whether they are those that were expected, in order.
type Listed = (usize, bool);

// What is stored, which should be the alerts of the numbers from one on in steps.
fn stored<N: Recorded, R: Wait + AllocGlobal>(
    rt: &R,
    client: &mut Client<'_, N>,
    first: u32,
    step: u32,
) -> Result<Listed, AllocError> {
    let alerts = client.stored(rt)?;
    Ok((
        alerts.len(),
        are_numbered(rt.alloc(), &alerts, first, step)?,
    ))
}

// The end of the stored alert of a number, if there is one.
fn end_of<N: Recorded, R: Wait + AllocGlobal>(
    rt: &R,
    client: &mut Client<'_, N>,
    number: u32,
) -> Result<Option<Moment>, AllocError> {
    let labels = labels_of(rt.alloc(), number)?;
    match client.get(rt, &labels)? {
        Some(alert) => Ok(Some(alert.end)),
        None => Ok(None),
    }
}

// What a collection at 20 removes, which should be the alerts of even numbers.
fn taken<N: Recorded, R: Wait + AllocGlobal>(
    rt: &R,
    client: &mut Client<'_, N>,
) -> Result<Listed, AllocError> {
    let alerts = client.take_resolved(rt, moment(20))?;
    Ok((alerts.len(), are_numbered(rt.alloc(), &alerts, 0, 2)?))
}

/// What reads answered before a collection and after it.
#[derive(Clone, Copy, Debug, PartialEq, Eq, Drop)]
struct Answers {
    posted: Placed,
    all: Listed,
    first: Option<Moment>,
    last: Option<Moment>,
    unknown: Option<Moment>,
    removed: Listed,
    left: Listed,
    first_again: Option<Moment>,
    last_again: Option<Moment>,
}

#[derive(Drop)]
struct Reading;

impl<R: Wait + AllocGlobal> Program<R> for Reading {
    type Outcome = Result<Answers, Stopped>;

    fn run<N: Recorded>(self, rt: &R, clients: &mut [Client<'_, N>]) -> Self::Outcome {
        let client = &mut clients[0];
        let reports = most_reports(rt.alloc())?;
        let posted = post_reports(rt, client, reports.as_slice(), 10)?;
        let all = stored(rt, client, 0, 1)?;
        let first = end_of(rt, client, 0)?;
        let last = end_of(rt, client, 1_023)?;
        let unknown = end_of(rt, client, 1_024)?;
        client.close(rt)?;
        Ok(Answers {
            posted,
            all,
            first,
            last,
            unknown,
            removed: taken(rt, client)?,
            left: stored(rt, client, 1, 2)?,
            first_again: end_of(rt, client, 0)?,
            last_again: end_of(rt, client, 1_023)?,
        })
    }
}

#[test]
fn reads_and_a_collection_of_the_most_alerts(rt: HostRuntime) -> Result<(), Fail> {
    let (answers, settled) = run(&rt, rt.alloc(), Limits::with_callers(1).places(1), Reading)?;
    assert_eq!(rt;
        answers?,
        Answers {
            posted: (1_024, Some(0)),
            all: (1_024, true),
            first: Some(moment(20)),
            last: Some(moment(30)),
            unknown: None,
            removed: (512, true),
            left: (512, true),
            first_again: None,
            last_again: Some(moment(30)),
        }
    );
    // The post, the end of the log and the collection: no read is among them.
    assert_eq!(rt; settled.journal.calls.len(), 3);
    assert_eq!(rt;
        settled.counts(),
        Counts {
            places: 1,
            posts: 1,
            stored: 512
        }
    );
    Ok(())
}
