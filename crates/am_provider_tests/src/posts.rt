//! Posts of a test, and what they answer.

use crate::bodies::{Report, moment, reports_body};
use crate::stopped::Stopped;
use am_provider::BodyFault;
use sinnoraku::{Client, Recorded};
use std::alloc::{AllocError, Global};
use std::sync::Wait;

/// How many alerts of a post were valid, and their place.
pub type Placed = (u32, Option<u64>);

/// Posts a body.
pub fn post<N: Recorded, R: Wait>(
    rt: &R,
    client: &mut Client<'_, N>,
    body: &[u8],
    at: u32,
) -> Result<Placed, BodyFault> {
    let posted = client.post(rt, body, moment(at))?;
    Ok((posted.valid, posted.place))
}

/// Posts these reports.
pub fn post_reports<N: Recorded, R: Wait + AllocGlobal>(
    rt: &R,
    client: &mut Client<'_, N>,
    reports: &[Report],
    at: u32,
) -> Result<Placed, Stopped> {
    let body = reports_body(rt.alloc(), reports)?;
    Ok(post(rt, client, body.as_bytes(), at)?)
}

/// Posts as many reports, each of its own label set, from a number on. Each starts at its number, and all end then.
pub fn post_many<N: Recorded, R: Wait + AllocGlobal>(
    rt: &R,
    client: &mut Client<'_, N>,
    first: u32,
    count: u32,
    end: u32,
) -> Result<(), Stopped> {
    let reports = reports_from(rt.alloc(), first, count, end)?;
    post_reports(rt, client, reports.as_slice(), 10)?;
    Ok(())
}

fn reports_from(
    alloc: Global,
    first: u32,
    count: u32,
    end: u32,
) -> Result<Vec<Report>, AllocError> {
    let mut reports = Vec::new(alloc);
    for number in first..first.saturating_add(count) {
        reports.push(Report::new(number, number, end))?;
    }
    Ok(reports)
}
