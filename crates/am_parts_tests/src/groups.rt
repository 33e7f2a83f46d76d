//! Groups at real size, of two dispatchers of one tree, and after an alert that is undone.

use crate::configurations::{configuration, labels};
use crate::expectation::expect;
use am_alert::{Alert, Moment};
use am_config::RouteTree;
use am_labels::{LabelSet, SharedText};
use am_routes::{Dispatcher, Noted, Swept};
use std::alloc::{AllocError, Global};
use std::test::Fail;

const TEAMS: &str = r#"{"route":{"receiver":"root","group_by":["job"],"routes":[
    {"receiver":"db","matchers":["team=db"],"continue":true},
    {"receiver":"pager","matchers":["severity=~\"page|crit\""],"group_by":["..."]}]}}"#;

// The moment `seconds` seconds after the first one.
fn second(seconds: u32) -> Moment {
    match Moment::try_new(u128::from(seconds) * 1_000_000_000) {
        Some(moment) => moment,
        None => Moment::MAX,
    }
}

// A report of these labels that ends `end` seconds after the first moment, made once more if memory was
// refused.
fn alert(alloc: Global, text: &str, end: u32) -> Result<Alert, AllocError> {
    match new_alert(alloc, text, end) {
        Err(AllocError) => new_alert(alloc, text, end),
        Ok(alert) => Ok(alert),
    }
}

fn new_alert(alloc: Global, text: &str, end: u32) -> Result<Alert, AllocError> {
    Ok(Alert {
        labels: labels(alloc, text)?,
        annotations: LabelSet::new(),
        start: second(0),
        end: second(end),
        updated: second(0),
        timeout: false,
        generator: SharedText::new(),
    })
}

fn dispatcher(alloc: Global, tree: &RouteTree) -> Result<Dispatcher<'_>, AllocError> {
    match Dispatcher::new(alloc, tree) {
        Err(AllocError) => Dispatcher::new(alloc, tree),
        Ok(dispatcher) => Ok(dispatcher),
    }
}

// Takes an alert, once more where memory was refused.
fn take(dispatcher: &mut Dispatcher<'_>, alert: &Alert) -> Result<(), AllocError> {
    match dispatcher.take(alert) {
        Err(AllocError) => dispatcher.take(alert),
        Ok(()) => Ok(()),
    }
}

fn is_swept(swept: Swept, alerts: u64, groups: u64) -> bool {
    swept.alerts == alerts && swept.groups == groups
}

fn has_groups(dispatcher: &Dispatcher<'_>, count: usize) -> bool {
    dispatcher.groups().len() == count
}

// Its alert is in two groups, and counts twice when it is swept.
fn goes(dispatcher: &mut Dispatcher<'_>) -> bool {
    is_swept(dispatcher.sweep(second(4)), 0, 0) && is_swept(dispatcher.sweep(second(5)), 2, 2)
}

// The alert is in groups of each dispatcher, and goes from one.
fn goes_from_one(one: &mut Dispatcher<'_>, other: &Dispatcher<'_>) -> bool {
    has_groups(one, 2)
        && has_groups(other, 2)
        && goes(one)
        && has_groups(one, 0)
        && has_groups(other, 2)
}

fn take_one(alloc: Global, dispatcher: &mut Dispatcher<'_>) -> Result<(), AllocError> {
    take(dispatcher, &alert(alloc, "job=a severity=crit team=db", 5)?)
}

// A dispatcher that has taken an alert.
fn with_one(alloc: Global, tree: &RouteTree) -> Result<Dispatcher<'_>, AllocError> {
    let mut one = dispatcher(alloc, tree)?;
    take_one(alloc, &mut one)?;
    Ok(one)
}

fn change_apart_from(
    alloc: Global,
    tree: &RouteTree,
    one: &mut Dispatcher<'_>,
) -> Result<bool, AllocError> {
    let other = with_one(alloc, tree)?;
    Ok(goes_from_one(one, &other))
}

fn change_apart(alloc: Global, tree: &RouteTree) -> Result<bool, AllocError> {
    let mut one = with_one(alloc, tree)?;
    change_apart_from(alloc, tree, &mut one)
}

// Two dispatchers share one tree and nothing else.
#[test]
fn two_dispatchers_of_one_tree(rt: HostRuntime) -> Result<(), Fail> {
    let config = configuration(rt.alloc(), TEAMS)?;
    let apart = change_apart(rt.alloc(), &config.tree)?;
    expect(apart, "the groups of one changed with the other's")
}

// The same of an alert that may be undone.
fn take_noted(dispatcher: &mut Dispatcher<'_>, alert: &Alert) -> Result<Noted, AllocError> {
    match dispatcher.take_noted(alert) {
        Err(AllocError) => dispatcher.take_noted(alert),
        Ok(noted) => Ok(noted),
    }
}

// Whether the alert has two groups of its own until it is undone.
fn comes_and_goes(one: &mut Dispatcher<'_>, alert: &Alert) -> Result<bool, AllocError> {
    let noted = take_noted(one, alert)?;
    let came = has_groups(one, 4);
    one.undo(noted);
    Ok(came && has_groups(one, 2))
}

fn another_comes_and_goes(alloc: Global, one: &mut Dispatcher<'_>) -> Result<bool, AllocError> {
    let another = alert(alloc, "job=b severity=crit team=db", 6)?;
    comes_and_goes(one, &another)
}

fn comes_beside_one(alloc: Global, tree: &RouteTree) -> Result<bool, AllocError> {
    let mut one = with_one(alloc, tree)?;
    another_comes_and_goes(alloc, &mut one)
}

#[test]
fn undone_alert_leaves_no_group(rt: HostRuntime) -> Result<(), Fail> {
    let config = configuration(rt.alloc(), TEAMS)?;
    let gone = comes_beside_one(rt.alloc(), &config.tree)?;
    expect(gone, "an alert that was undone has groups")
}

// One alert of each of `jobs` jobs.
fn take_jobs(
    alloc: Global,
    dispatcher: &mut Dispatcher<'_>,
    jobs: u32,
    instance: u32,
    end: u32,
) -> Result<(), AllocError> {
    for job in 0..jobs {
        let text = format!(in alloc; "job={job} instance={instance}")?;
        take(dispatcher, &alert(alloc, text.as_str(), end)?)?;
    }
    Ok(())
}

// There are `count` groups of two alerts, of which one is resolved first.
fn go_in_turn(dispatcher: &mut Dispatcher<'_>, count: usize) -> bool {
    dispatcher.groups().len() == count
        && dispatcher
            .groups()
            .iter()
            .all(|group| group.alerts().len() == 2)
        && is_swept(dispatcher.sweep(second(5)), count as u64, 0)
        && is_swept(dispatcher.sweep(second(6)), count as u64, count as u64)
}

fn come_and_go(alloc: Global, dispatcher: &mut Dispatcher<'_>) -> Result<bool, AllocError> {
    take_jobs(alloc, dispatcher, 10_000, 1, 5)?;
    take_jobs(alloc, dispatcher, 10_000, 2, 6)?;
    Ok(go_in_turn(dispatcher, 10_000))
}

fn take_many(alloc: Global, tree: &RouteTree) -> Result<bool, AllocError> {
    let mut dispatcher = dispatcher(alloc, tree)?;
    come_and_go(alloc, &mut dispatcher)
}

// Ten thousand groups, each of which is found again.
#[test]
fn many_groups(rt: HostRuntime) -> Result<(), Fail> {
    let config = configuration(rt.alloc(), TEAMS)?;
    let right = take_many(rt.alloc(), &config.tree)?;
    expect(right, "other groups stand")
}
