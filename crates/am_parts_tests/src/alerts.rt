//! What becomes of a stored report and a new one of the same label set.

use crate::expectation::expect;
use crate::posts::moment;
use am_alert::{Alert, Moment, absorb, merge, overlaps};
use am_labels::{LabelSet, SharedText, Text};
use std::alloc::{AllocError, Global};
use std::test::Fail;

fn generator(alloc: Global) -> Result<SharedText, AllocError> {
    SharedText::from_text(alloc, Text::from_str(alloc, "g")?)
}

fn report(alloc: Global, start: &str, end: &str) -> Result<Alert, Fail> {
    let start = moment(start)?;
    let end = moment(end)?;
    Ok(Alert {
        labels: LabelSet::new(),
        annotations: LabelSet::new(),
        start,
        end,
        updated: start,
        timeout: false,
        generator: generator(alloc)?,
    })
}

fn lasts(report: &Alert, start: Moment, end: Moment) -> bool {
    report.start == start && report.end == end
}

fn merged_lasts_for_both(stored: &Alert, new: &Alert) -> Result<bool, AllocError> {
    let both = merge(stored, new, new.start)?;
    Ok(lasts(&both, stored.start, new.end))
}

fn absorbed_lasts_for_both(stored: &Alert, new: &Alert) -> Result<bool, AllocError> {
    let held = absorb(Some(stored), new, new.start)?;
    Ok(lasts(&held, stored.start, new.end))
}

fn is_the_new_one(held: &Alert, new: &Alert) -> bool {
    held.start == new.start && held.generator == new.generator && held.generator.as_str() == "g"
}

fn is_resolved_at_its_end(report: &Alert, new: &Alert) -> bool {
    report.resolved_at(new.end) && !report.resolved_at(new.start)
}

fn first_is_held_as_it_is(new: &Alert) -> Result<bool, AllocError> {
    let first = absorb(None, new, new.start)?;
    Ok(is_the_new_one(&first, new) && is_resolved_at_its_end(&first, new))
}

fn extends(stored: &Alert, new: &Alert) -> Result<(), Fail> {
    expect(overlaps(stored, new), "they don't overlap")?;
    expect(!overlaps(stored, stored), "one overlaps itself")?;
    expect(merged_lasts_for_both(stored, new)?, "merged")?;
    expect(absorbed_lasts_for_both(stored, new)?, "absorbed")?;
    expect(first_is_held_as_it_is(new)?, "the first one")
}

fn reports(alloc: Global) -> Result<(Alert, Alert), Fail> {
    let stored = report(alloc, "2024-01-01T10:00:00Z", "2024-01-01T10:10:00Z")?;
    let new = report(alloc, "2024-01-01T10:05:00Z", "2024-01-01T10:20:00Z")?;
    Ok((stored, new))
}

#[test]
fn later_report_extends_the_stored_one(rt: HostRuntime) -> Result<(), Fail> {
    let (stored, new) = reports(rt.alloc())?;
    extends(&stored, &new)
}
