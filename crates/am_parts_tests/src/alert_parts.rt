//! Posts of alerts from their parts: how many there may be, their faults, and that such an alert is what a
//! body with the same members gives.

use crate::expectation::expect;
use crate::posts::moment;
use am_alert::{Alert, AlertFault, MAX_ALERTS, Moment, Post, PostFault};
use am_labels::Text;
use am_posts::{
    AlertParts, PartsFault, UnjudgedAlert, post_from_alerts, post_from_parts, read_post,
};
use std::alloc::{AllocError, Global};
use std::test::Fail;
use std::time::Duration;

// The moments of the tests' alerts, in order.
#[derive(Clone, Copy, Drop)]
struct Moments {
    start: Moment,
    report: Moment,
    end: Moment,
}

fn test_moments() -> Result<Moments, Fail> {
    Ok(Moments {
        start: moment("2024-01-01T10:00:00Z")?,
        report: moment("2024-01-01T10:05:00Z")?,
        end: moment("2024-01-01T10:10:00Z")?,
    })
}

fn pair(alloc: Global, name: &str, value: &str) -> Result<(Text, Text), AllocError> {
    Ok((Text::from_str(alloc, name)?, Text::from_str(alloc, value)?))
}

// The parts of an alert with this label and one that has no value.
fn parts(
    alloc: Global,
    name: &str,
    value: &str,
    moments: &Moments,
) -> Result<AlertParts, AllocError> {
    let mut labels = Vec::with_capacity(alloc, 2)?;
    labels.push(pair(alloc, name, value)?)?;
    labels.push(pair(alloc, "b", "")?)?;
    let mut annotations = Vec::with_capacity(alloc, 1)?;
    annotations.push(pair(alloc, "note", "")?)?;
    Ok(AlertParts {
        labels,
        annotations,
        start: moments.start,
        end: moments.end,
        updated: moments.report,
        timeout: false,
        generator: Text::from_str(alloc, "g")?,
    })
}

// The parts of one alert with a label, and of `without` alerts without one.
fn parts_and(alloc: Global, without: usize) -> Result<Vec<AlertParts>, Fail> {
    let moments = test_moments()?;
    let mut all = Vec::new(alloc);
    all.push(parts(alloc, "a", "1", &moments)?)?;
    for _ in 0..without {
        all.push(parts(alloc, "a", "", &moments)?)?;
    }
    Ok(all)
}

fn are_all_made(alloc: Global) -> Result<bool, Fail> {
    match post_from_parts(alloc, parts_and(alloc, MAX_ALERTS - 1)?) {
        Ok(post) => Ok(
            post.valid.as_slice().len() == 1 && post.faults.as_slice().len() == MAX_ALERTS - 1,
        ),
        Err(_) => Ok(false),
    }
}

fn is_one_too_many(alloc: Global) -> Result<bool, Fail> {
    Ok(matches!(
        post_from_parts(alloc, parts_and(alloc, MAX_ALERTS)?),
        Err(PostFault::TooMany)
    ))
}

#[test]
fn number_of_parts(rt: HostRuntime) -> Result<(), Fail> {
    expect(are_all_made(rt.alloc())?, "other alerts or faults")?;
    expect(is_one_too_many(rt.alloc())?, "one more is made")
}

// Parts whose alert is valid, of which the next lacks a value, then ends before it starts, and then has a
// label without a name.
fn faulty_parts(alloc: Global) -> Result<Vec<AlertParts>, Fail> {
    let at = test_moments()?;
    let turned = Moments {
        start: at.end,
        report: at.report,
        end: at.start,
    };
    let mut all = Vec::new(alloc);
    all.push(parts(alloc, "a", "1", &at)?)?;
    all.push(parts(alloc, "a", "", &at)?)?;
    all.push(parts(alloc, "a", "1", &turned)?)?;
    all.push(parts(alloc, "", "1", &at)?)?;
    Ok(all)
}

#[test]
fn faults_of_parts(rt: HostRuntime) -> Result<(), Fail> {
    let Ok(post) = post_from_parts(rt.alloc(), faulty_parts(rt.alloc())?) else {
        return Err(Fail::from("the post is refused"));
    };
    assert_eq!(rt; post.valid.as_slice().len(), 1);
    assert!(rt;
        post.faults.as_slice()
            == [
                (1, AlertFault::NoLabels),
                (2, AlertFault::EndBeforeStart),
                (3, AlertFault::EmptyName),
            ]
            .as_slice()
    );
    Ok(())
}

// The alert of a body with the members of the parts.
fn posted(alloc: Global) -> Result<Post, Fail> {
    let body = "[{\"labels\":{\"a\":\"1\",\"b\":\"\"},\"annotations\":{\"note\":\"\"},\
        \"startsAt\":\"2024-01-01T10:00:00Z\",\"endsAt\":\"2024-01-01T10:10:00Z\",\
        \"generatorURL\":\"g\"}]";
    match read_post(
        alloc,
        body.as_bytes(),
        test_moments()?.report,
        Duration::from_secs(300),
    ) {
        Ok(post) => Ok(post),
        Err(_) => Err(Fail::from("the body isn't read")),
    }
}

fn made(alloc: Global) -> Result<Alert, Fail> {
    match parts(alloc, "a", "1", &test_moments()?)?.into_alert(alloc) {
        Ok(alert) => Ok(alert),
        Err(PartsFault::NoMemory) => Err(Fail::from("no memory")),
        Err(_) => Err(Fail::from("it is invalid")),
    }
}

#[test]
fn an_alert_from_parts_is_the_posted_one(rt: HostRuntime) -> Result<(), Fail> {
    let made = made(rt.alloc())?;
    let posted = posted(rt.alloc())?;
    match posted.valid.as_slice().first() {
        Some(alert) => expect(*alert == made, "they differ"),
        None => Err(Fail::from("the body has no valid alert")),
    }
}

fn unjudged(alloc: Global) -> Result<Vec<UnjudgedAlert>, Fail> {
    let mut alerts = Vec::new(alloc);
    for parts in faulty_parts(alloc)? {
        alerts.push(UnjudgedAlert::from_parts(alloc, parts)?)?;
    }
    Ok(alerts)
}

#[test]
fn alerts_are_posted_again(rt: HostRuntime) -> Result<(), Fail> {
    let alerts = unjudged(rt.alloc())?;
    let (Ok(post), Ok(again)) = (
        post_from_alerts(rt.alloc(), &alerts),
        post_from_alerts(rt.alloc(), &alerts),
    ) else {
        return Err(Fail::from("a post is refused"));
    };
    assert_eq!(rt; post.valid.as_slice().len(), 1);
    assert_eq!(rt; post.faults.as_slice().len(), 3);
    assert!(rt; post.valid.as_slice() == again.valid.as_slice());
    assert!(rt; post.faults.as_slice() == again.faults.as_slice());
    Ok(())
}
