//! Calls at real size: no contract says that a call succeeds, whatever the size of what it is given.

use crate::expectation::expect;
use crate::posts::moment;
use am_alert::{Alert, AlertFault, MAX_ALERTS, Post};
use am_labels::{LabelSet, SharedText, Text};
use am_posts::read_post;
use std::alloc::{AllocError, Global};
use std::test::Fail;
use std::time::Duration;

// Labels `name0000`, `name0001`, .. with values that name them and the number of their set.
fn many_labels(alloc: Global, set: usize, count: usize) -> Result<LabelSet, AllocError> {
    let mut pairs = Vec::new(alloc);
    for i in 0..count {
        pairs.push((
            format!(in alloc; "name{i:04}")?,
            format!(in alloc; "a text of forty bytes for label {i:04} of {set}")?,
        ))?;
    }
    LabelSet::from_pairs(alloc, pairs)
}

// Such a label set as it is printed.
fn printed(alloc: Global, set: usize, count: usize) -> Result<String, AllocError> {
    let mut printed = String::from_str(alloc, "{")?;
    let mut comma = "";
    for i in 0..count {
        write!(
            printed,
            "{comma}name{i:04}=\"a text of forty bytes for label {i:04} of {set}\""
        )?;
        comma = ",";
    }
    printed.push_str("}")?;
    Ok(printed)
}

fn is_copied(labels: &LabelSet) -> Result<bool, AllocError> {
    let copy = labels.copy()?;
    Ok(copy == *labels)
}

fn is_of_set(alloc: Global, labels: &LabelSet, set: usize) -> Result<bool, AllocError> {
    let others = many_labels(alloc, set, 1_000)?;
    Ok(*labels == others)
}

fn is_printed(alloc: Global, labels: &LabelSet) -> Result<bool, AllocError> {
    let wanted = printed(alloc, 7, 1_000)?;
    let found = labels.to_string(alloc)?;
    Ok(found == wanted)
}

fn is_last_value(value: &str) -> bool {
    value == "a text of forty bytes for label 0999 of 7"
}

fn are_a_thousand(alloc: Global, labels: &LabelSet) -> Result<(), Fail> {
    expect(labels.len() == 1_000, "another number of labels")?;
    expect(is_last_value(labels.get("name0999")), "another last value")?;
    expect(is_copied(labels)?, "the copy differs")?;
    expect(!is_of_set(alloc, labels, 8)?, "other values are the same")?;
    expect(is_printed(alloc, labels)?, "another text is printed")
}

#[test]
fn label_set_of_a_thousand_names(rt: HostRuntime) -> Result<(), Fail> {
    let labels = many_labels(rt.alloc(), 7, 1_000)?;
    are_a_thousand(rt.alloc(), &labels)
}

// The body of a post of `alerts` alerts, each of `labels` labels.
fn body_of(alloc: Global, alerts: usize, labels: usize) -> Result<String, AllocError> {
    let mut body = String::from_str(alloc, "[")?;
    let mut comma = "";
    for set in 0..alerts {
        body.push_str(comma)?;
        push_alert(&mut body, set, labels)?;
        comma = ",";
    }
    body.push_str("]")?;
    Ok(body)
}

fn push_alert(body: &mut String, set: usize, labels: usize) -> Result<(), AllocError> {
    body.push_str("{\"labels\":{")?;
    let mut comma = "";
    for i in 0..labels {
        write!(
            body,
            "{comma}\"name{i:04}\":\"a text of forty bytes for label {i:04} of {set}\""
        )?;
        comma = ",";
    }
    write!(
        body,
        "}},\"annotations\":{{\"set\":\"{set}\"}},\"generatorURL\":\"g{set}\","
    )?;
    body.push_str("\"startsAt\":\"2024-01-01T09:00:00Z\"}")?;
    Ok(())
}

fn annotations_of(alloc: Global, set: usize) -> Result<LabelSet, AllocError> {
    let mut pairs = Vec::new(alloc);
    pairs.push((String::from_str(alloc, "set")?, format!(in alloc; "{set}")?))?;
    LabelSet::from_pairs(alloc, pairs)
}

fn generator_of(alloc: Global, set: usize) -> Result<SharedText, AllocError> {
    let text = format!(in alloc; "g{set}")?;
    SharedText::from_text(alloc, Text::new(text))
}

// The alert of that number in such a post.
fn alert_of(alloc: Global, set: usize, labels: usize) -> Result<Alert, Fail> {
    let start = moment("2024-01-01T09:00:00Z")?;
    let end = moment("2024-01-01T10:05:00Z")?;
    let updated = moment("2024-01-01T10:00:00Z")?;
    let labels = many_labels(alloc, set, labels)?;
    let annotations = annotations_of(alloc, set)?;
    Ok(Alert {
        labels,
        annotations,
        start,
        end,
        updated,
        timeout: true,
        generator: generator_of(alloc, set)?,
    })
}

fn read(alloc: Global, body: &str) -> Result<Post, Fail> {
    let now = moment("2024-01-01T10:00:00Z")?;
    match read_post(alloc, body.as_bytes(), now, Duration::from_secs(300)) {
        Ok(post) => Ok(post),
        Err(_) => Err(Fail::from("not read")),
    }
}

fn is_alert_of(alloc: Global, alert: &Alert, set: usize) -> Result<bool, Fail> {
    let wanted = alert_of(alloc, set, 64)?;
    Ok(*alert == wanted)
}

fn are_alerts_in_order(alloc: Global, alerts: &[Alert]) -> Result<(), Fail> {
    expect(alerts.len() == MAX_ALERTS, "another number of alerts")?;
    for (set, alert) in alerts.iter().enumerate() {
        expect(is_alert_of(alloc, alert, set)?, "another alert")?;
    }
    Ok(())
}

fn is_full(alloc: Global, body: &str) -> Result<(), Fail> {
    let post = read(alloc, body)?;
    expect(post.faults.as_slice().is_empty(), "there are faults")?;
    are_alerts_in_order(alloc, post.valid.as_slice())
}

#[test]
fn full_post_of_large_label_sets(rt: HostRuntime) -> Result<(), Fail> {
    let body = body_of(rt.alloc(), MAX_ALERTS, 64)?;
    let bytes = body.len();
    expect(
        bytes > 3_500_000 && bytes <= 4_194_304,
        "the post isn't full",
    )?;
    is_full(rt.alloc(), body.as_str())
}

fn have_the_same(one: &Post, other: &Post) -> (bool, bool) {
    (
        one.valid.as_slice() == other.valid.as_slice(),
        one.faults.as_slice() == other.faults.as_slice(),
    )
}

// Whether two bodies are read as the same alerts, and as the same faults.
fn are_read_the_same(alloc: Global, one: &str, other: &str) -> Result<(bool, bool), Fail> {
    let one = read(alloc, one)?;
    let other = read(alloc, other)?;
    Ok(have_the_same(&one, &other))
}

fn has_one_fault(alloc: Global, body: &str, fault: (u32, AlertFault)) -> Result<bool, Fail> {
    let post = read(alloc, body)?;
    Ok(post.faults.as_slice() == [fault].as_slice())
}

#[test]
fn posts_are_compared_whole(rt: HostRuntime) -> Result<(), Fail> {
    let alloc = rt.alloc();
    let body = "[{\"labels\":{\"a\":\"1\"}},{\"labels\":{}},{\"labels\":{\"a\":\"2\"}}]";
    let again =
        "[ {\"labels\":{\"a\":\"1\"}},{\"labels\":{\"b\":\"\"}},{\"labels\":{\"a\":\"2\"}}]";
    let other = "[{\"labels\":{\"a\":\"1\"}},{\"labels\":{\"a\":\"2\"}},{\"labels\":{}}]";
    assert!(rt; are_read_the_same(alloc, body, again)? == (true, true));
    assert!(rt; are_read_the_same(alloc, body, other)? == (true, false));
    assert!(rt; has_one_fault(alloc, body, (1, AlertFault::NoLabels))?);
    Ok(())
}
