//! Posts whose alerts a filter judges before they are stored: of as many alerts as a post may have.

use crate::bodies::{Report, moment, reports_body};
use crate::stopped::Stopped;
use am_alert::{Alert, MAX_ALERTS, Moment, Post};
use am_posts::read_post;
use am_provider::Counts;
use sinnoraku::{Client, Limits, PostedIf, Program, PutFault, Recorded, run};
use std::alloc::{AllocError, Global};
use std::sync::Wait;
use std::test::Fail;
use std::time::Duration;

// How many label sets the first filter lets in.
const LIMIT: u32 = 1_000;

fn read(alloc: Global, reports: &[Report], at: u32) -> Result<Post, Stopped> {
    let body = reports_body(alloc, reports)?;
    match read_post(alloc, body.as_bytes(), moment(at), Duration::from_secs(300)) {
        Ok(post) => Ok(post),
        Err(_) => Err(Stopped::Refused),
    }
}

// As many reports as a post may have, each of its own label set.
fn most_reports(alloc: Global) -> Result<Vec<Report>, AllocError> {
    let mut reports = Vec::with_capacity(alloc, MAX_ALERTS)?;
    for number in 0..MAX_ALERTS as u32 {
        reports.push(Report::new(number, 10, 20))?;
    }
    Ok(reports)
}

/// How many alerts were posted, their place, and how many were refused from which index on.
type Judged = (u32, Option<u64>, usize, Option<u32>);

fn judged(answer: Result<PostedIf, PutFault>) -> Result<Judged, Stopped> {
    match answer {
        Ok(PostedIf { posted, refused }) => Ok((
            posted.valid,
            posted.place,
            refused.len(),
            refused.first().copied(),
        )),
        Err(_) => Err(Stopped::Refused),
    }
}

// Posts the most reports through a filter that lets in `LIMIT` new label sets.
fn post_most<N: Recorded, R: Wait + AllocGlobal>(
    rt: &R,
    client: &mut Client<'_, N>,
) -> Result<Judged, Stopped> {
    let reports = most_reports(rt.alloc())?;
    let post = read(rt.alloc(), reports.as_slice(), 10)?;
    let mut left = LIMIT;
    judged(client.put_if(
        rt,
        post,
        moment(10),
        &mut |_alert: &Alert, first: bool| -> bool {
            let accepts = !first || left > 0;
            left = left.saturating_sub(1);
            accepts
        },
    ))
}

// Whether a filter is shown an alert of these times, which isn't new.
fn sees_merged(alert: &Alert, first: bool, start: Moment, end: Moment) -> bool {
    !first && alert.start == start && alert.end == end
}

// Posts a report of a label set that is stored from 10 to 20, through a filter that lets it in only if it is
// shown what becomes of both.
fn post_longer<N: Recorded, R: Wait + AllocGlobal>(
    rt: &R,
    client: &mut Client<'_, N>,
) -> Result<Judged, Stopped> {
    let post = read(rt.alloc(), &[Report::new(0, 15, 40)], 15)?;
    let (start, end) = (moment(10), moment(40));
    judged(client.put_if(
        rt,
        post,
        moment(15),
        &mut |alert: &Alert, first: bool| -> bool { sees_merged(alert, first, start, end) },
    ))
}

// Posts a report of a new label set twice, through a filter that lets nothing in.
fn post_none<N: Recorded, R: Wait + AllocGlobal>(
    rt: &R,
    client: &mut Client<'_, N>,
) -> Result<Judged, Stopped> {
    let post = read(
        rt.alloc(),
        &[Report::new(5_000, 15, 40), Report::new(5_000, 16, 41)],
        16,
    )?;
    judged(client.put_if(
        rt,
        post,
        moment(16),
        &mut |_alert: &Alert, _first: bool| -> bool { false },
    ))
}

// Posts a report of a new label set through no filter.
fn put_one<N: Recorded, R: Wait + AllocGlobal>(
    rt: &R,
    client: &mut Client<'_, N>,
) -> Result<(u32, Option<u64>), Stopped> {
    let post = read(rt.alloc(), &[Report::new(6_000, 15, 40)], 17)?;
    match client.put(rt, post, moment(17)) {
        Ok(posted) => Ok((posted.valid, posted.place)),
        Err(_) => Err(Stopped::Refused),
    }
}

/// What each post answered.
#[derive(Clone, Copy, Debug, PartialEq, Eq, Drop)]
struct Answers {
    most: Judged,
    longer: Judged,
    none: Judged,
    one: (u32, Option<u64>),
}

#[derive(Drop)]
struct Filtering;

impl<R: Wait + AllocGlobal> Program<R> for Filtering {
    type Outcome = Result<Answers, Stopped>;

    fn run<N: Recorded>(self, rt: &R, clients: &mut [Client<'_, N>]) -> Self::Outcome {
        let client = &mut clients[0];
        Ok(Answers {
            most: post_most(rt, client)?,
            longer: post_longer(rt, client)?,
            none: post_none(rt, client)?,
            one: put_one(rt, client)?,
        })
    }
}

#[test]
fn a_filter_judges_what_would_be_stored(rt: HostRuntime) -> Result<(), Fail> {
    let (answers, settled) = run(
        &rt,
        rt.alloc(),
        Limits::with_callers(1).places(4),
        Filtering,
    )?;
    assert_eq!(rt;
        answers?,
        Answers {
            most: (1_000, Some(0), 24, Some(1_000)),
            longer: (1, Some(1), 0, None),
            none: (0, None, 2, Some(0)),
            one: (1, Some(2)),
        }
    );
    assert_eq!(rt;
        settled.counts(),
        Counts {
            places: 3,
            posts: 4,
            stored: 1_001
        }
    );
    Ok(())
}
