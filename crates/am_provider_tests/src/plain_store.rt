//! The stored alerts as a plain list that is walked for each report: what a provider is compared with.

use am_alert::{Alert, Moment, absorb};
use std::alloc::{AllocError, Global};

// Puts an alert at this index, or at the end where there is none.
fn put_at(stored: &mut Vec<Alert>, at: usize, became: Alert) -> Result<(), AllocError> {
    if at < stored.len() {
        stored[at] = became;
        return Ok(());
    }
    Ok(stored.push(became)?)
}

// The index of the alert of a report's label set, or the end.
fn position_of(stored: &[Alert], new: &Alert) -> usize {
    match stored.iter().position(|alert| alert.labels == new.labels) {
        Some(at) => at,
        None => stored.len(),
    }
}

// Absorbs a report, and answers what it became.
fn absorb_one(stored: &mut Vec<Alert>, new: &Alert, now: Moment) -> Result<Alert, AllocError> {
    let at = position_of(stored, new);
    let became = absorb(stored.get(at), new, now)?;
    put_at(stored, at, became.copy()?)?;
    Ok(became)
}

/// Absorbs reports one after another, and answers what each became.
pub fn absorb_each(
    alloc: Global,
    stored: &mut Vec<Alert>,
    news: &[Alert],
    now: Moment,
) -> Result<Vec<Alert>, AllocError> {
    let mut batch = Vec::new(alloc);
    for new in news {
        batch.push(absorb_one(stored, new, now)?)?;
    }
    Ok(batch)
}

/// Removes what is resolved, and answers how many.
pub fn remove_resolved(stored: &mut Vec<Alert>, now: Moment) -> u64 {
    let before = stored.len();
    stored.retain(|alert| !alert.resolved_at(now));
    before.saturating_sub(stored.len()) as u64
}
