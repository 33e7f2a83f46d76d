//! Routes and groups: a tree of 101 routes (ten teams with nine routes below each, a third of them
//! with a pattern), or a root with any number of routes at one level, each for one service. They are
//! asked about alerts of five labels. `bench/routes` runs it.

use crate::failure::Failure;
use crate::printed::Printed;
use crate::words::small_number;
use am_alert::{Alert, Moment};
use am_config::{Config, RouteTree};
use am_labels::{LabelSet, SharedText};
use am_routes::{Dispatcher, PreparedTree};
use std::alloc::{AllocError, Global};

/// What a round does.
#[derive(Clone, Copy, Debug)]
enum RouteWork {
    /// It asks the tree about the labels of each alert.
    Matches,
    /// The same, into one list.
    MatchesInto,
    /// It has a dispatcher take each alert, into a group of one alert.
    Takes,
}

/// How many alerts there are, and how many rounds of them. The tree is the one of teams, if it has no
/// width, or else it has that number of routes at one level.
#[derive(Clone, Copy, Debug)]
pub(crate) struct Load {
    work: RouteWork,
    alerts: u32,
    rounds: u32,
    width: u32,
}

impl Load {
    pub(crate) fn read(words: &[String]) -> Option<Load> {
        let work = match words.first()?.as_str() {
            "matches" => RouteWork::Matches,
            "matches-into" => RouteWork::MatchesInto,
            "takes" => RouteWork::Takes,
            _ => return None,
        };
        Some(Load {
            work,
            alerts: small_number(words, 1)?,
            rounds: small_number(words, 2)?,
            width: small_number(words, 3).unwrap_or(0),
        })
    }

    /// Two rounds of ten alerts.
    pub(crate) fn small() -> Load {
        Load {
            work: RouteWork::Takes,
            alerts: 10,
            rounds: 2,
            width: 0,
        }
    }
}

fn config_text(alloc: Global, width: u32) -> Result<String, AllocError> {
    let mut text = String::from_str(
        alloc,
        r#"{"route":{"receiver":"root","group_by":["instance"],"routes":["#,
    )?;
    if width == 0 {
        add_teams(&mut text)?;
    } else {
        add_services(&mut text, width)?;
    }
    text.push_str("]}}")?;
    Ok(text)
}

fn add_teams(text: &mut String) -> Result<(), AllocError> {
    for team in 0..10u32 {
        if team > 0 {
            text.push_str(",")?;
        }
        add_team(text, team)?;
    }
    Ok(())
}

fn add_services(text: &mut String, width: u32) -> Result<(), AllocError> {
    for service in 0..width {
        if service > 0 {
            text.push_str(",")?;
        }
        write!(text, "{{\"matchers\":[\"service=s{service}-web\"]}}")?;
    }
    Ok(())
}

fn add_team(text: &mut String, team: u32) -> Result<(), AllocError> {
    write!(
        text,
        "{{\"receiver\":\"team{team}\",\"matchers\":[\"team=t{team}\"],\"routes\":["
    )?;
    for service in 0..9u32 {
        if service > 0 {
            text.push_str(",")?;
        }
        add_service(text, service)?;
    }
    text.push_str("]}")
}

fn add_service(text: &mut String, service: u32) -> Result<(), AllocError> {
    if service % 3 == 2 {
        write!(
            text,
            "{{\"matchers\":[\"service=~\\\"s{service}-(web|api)\\\"\"]}}"
        )
    } else {
        write!(text, "{{\"matchers\":[\"service=s{service}-web\"]}}")
    }
}

fn pair(alloc: Global, name: &str, value: String) -> Result<(String, String), AllocError> {
    Ok((String::from_str(alloc, name)?, value))
}

// The service of the alert of that number. At one level those of all routes come, in no order.
fn service_of(number: u32, width: u32) -> u32 {
    if width == 0 {
        number / 10 % 9
    } else {
        number.wrapping_mul(7_919) % width
    }
}

// The labels of the alert of that number.
fn labels_of(alloc: Global, number: u32, width: u32) -> Result<LabelSet, AllocError> {
    let team = number % 10;
    let service = service_of(number, width);
    let rack = number / 250;
    let host = number % 250;
    let mut pairs = Vec::new(alloc);
    pairs.push(pair(alloc, "alertname", String::from_str(alloc, "HighLatency")?)?)?;
    pairs.push(pair(
        alloc,
        "instance",
        format!(in alloc; "10.0.{rack}.{host}:9090")?,
    )?)?;
    pairs.push(pair(alloc, "service", format!(in alloc; "s{service}-web")?)?)?;
    pairs.push(pair(alloc, "severity", String::from_str(alloc, "page")?)?)?;
    pairs.push(pair(alloc, "team", format!(in alloc; "t{team}")?)?)?;
    LabelSet::from_pairs(alloc, pairs)
}

fn alert_of(alloc: Global, number: u32, width: u32) -> Result<Alert, AllocError> {
    Ok(Alert {
        labels: labels_of(alloc, number, width)?,
        annotations: LabelSet::new(),
        start: Moment::MAX,
        end: Moment::MAX,
        updated: Moment::MAX,
        timeout: false,
        generator: SharedText::new(),
    })
}

fn alerts(alloc: Global, count: u32, width: u32) -> Result<Vec<Alert>, AllocError> {
    let mut alerts = Vec::new(alloc);
    for number in 0..count {
        alerts.push(alert_of(alloc, number, width)?)?;
    }
    Ok(alerts)
}

// How many routes the rounds find. Each answer is a list of its own, or all come in one list.
fn matches(
    alloc: Global,
    tree: &RouteTree,
    alerts: &[Alert],
    rounds: u32,
    is_one_list: bool,
) -> Result<u64, AllocError> {
    let mut tree = PreparedTree::new(alloc, tree)?;
    let mut ids = Vec::new(alloc);
    let mut found = 0u64;
    for _round in 0..rounds {
        for alert in alerts {
            if is_one_list {
                tree.matches_into(&alert.labels, &mut ids)?;
            } else {
                ids = tree.matches(&alert.labels)?;
            }
            found = found.wrapping_add(ids.len() as u64);
        }
    }
    Ok(found)
}

// How many groups there are after the rounds.
fn takes(
    alloc: Global,
    tree: &RouteTree,
    alerts: &[Alert],
    rounds: u32,
) -> Result<u64, AllocError> {
    let mut dispatcher = Dispatcher::new(alloc, tree)?;
    for _round in 0..rounds {
        for alert in alerts {
            dispatcher.take(alert)?;
        }
    }
    Ok(dispatcher.groups().len() as u64)
}

// How many routes the rounds found, or how many groups there are after them.
fn run(alloc: Global, load: Load) -> Result<u64, Failure> {
    let text = config_text(alloc, load.width)?;
    let config = Config::read(alloc, text.as_bytes())?;
    let alerts = alerts(alloc, load.alerts, load.width)?;
    Ok(match load.work {
        RouteWork::Matches => matches(alloc, &config.tree, &alerts, load.rounds, false)?,
        RouteWork::MatchesInto => matches(alloc, &config.tree, &alerts, load.rounds, true)?,
        RouteWork::Takes => takes(alloc, &config.tree, &alerts, load.rounds)?,
    })
}

/// Runs a load, and prints how many routes were found, or how many groups there are.
pub(crate) fn time(alloc: Global, load: Load, printed: &mut Printed) -> Result<(), Failure> {
    let found = run(alloc, load)?;
    write!(printed.counts, "{found}\n")?;
    Ok(())
}
