//! The inhibitor: many sources, and many questions. `bench/inhibitor` runs it.

use crate::failure::Failure;
use crate::printed::Printed;
use crate::words::small_number;
use am_alert::{Alert, Moment};
use am_config::Config;
use am_inhibit::Inhibitor;
use am_labels::{LabelSet, SharedText};
use std::alloc::{AllocError, Global};

const RULE: &str =
    "{\"route\":{\"receiver\":\"ops\"},\"inhibit_rules\":[{\"source_matchers\":[\"severity=critical\"],\"target_matchers\":[\"severity=warning\"],\"equal\":[\"instance\"]}]}";

/// How many targets a round asks about.
const TARGETS: u32 = 1_000;

/// What is asked.
#[derive(Clone, Copy, Debug)]
pub(crate) struct Load {
    /// How many values of `equal` there are, counted from 0.
    values: u32,
    /// How often each target is asked about.
    rounds: u32,
    /// The first value of the targets, which have as many values as the sources.
    first: u32,
    /// How many alerts of each value are resolved. They are taken first.
    resolved: u32,
    /// How many alerts of each value fire.
    firing: u32,
    /// How many sweeps come before the questions.
    sweeps: u32,
}

impl Load {
    pub(crate) fn read(words: &[String]) -> Option<Load> {
        Some(Load {
            values: small_number(words, 0)?,
            rounds: small_number(words, 1)?,
            first: small_number(words, 2)?,
            resolved: small_number(words, 3)?,
            firing: small_number(words, 4)?,
            sweeps: small_number(words, 5)?,
        })
    }

    /// Two rounds over ten values, each with a source that mutes and two that a sweep drops.
    pub(crate) fn small() -> Load {
        Load {
            values: 10,
            rounds: 2,
            first: 0,
            resolved: 2,
            firing: 1,
            sweeps: 1,
        }
    }
}

/// The sums of all answers.
#[derive(Clone, Copy, Debug)]
struct Answers {
    /// How many alerts the sweeps dropped.
    dropped: u64,
    /// How often a target was muted.
    muted: u64,
    /// How many sources were examined.
    looked: u64,
}

// A moment that many nanoseconds after the first one.
fn moment(nanoseconds: u128) -> Moment {
    Moment::try_new(nanoseconds).unwrap_or(Moment::MAX)
}

fn pair_of(alloc: Global, label: &str, value: &str) -> Result<(String, String), AllocError> {
    Ok((
        String::from_str(alloc, label)?,
        String::from_str(alloc, value)?,
    ))
}

// The labels of an alert at an instance.
fn labels_at(
    alloc: Global,
    name: &str,
    severity: &str,
    instance: u32,
) -> Result<LabelSet, AllocError> {
    let host = format!(in alloc; "host-{instance:06}:9100")?;
    let mut pairs = Vec::new(alloc);
    pairs.push(pair_of(alloc, "alertname", name)?)?;
    pairs.push(pair_of(alloc, "severity", severity)?)?;
    pairs.push(pair_of(alloc, "job", "node")?)?;
    pairs.push(pair_of(alloc, "cluster", "eu-west-1")?)?;
    pairs.push(pair_of(alloc, "instance", host.as_str())?)?;
    LabelSet::from_pairs(alloc, pairs)
}

// Takes alerts of several names at an instance, which fire until a moment.
fn take_each(
    alloc: Global,
    inhibitor: &mut Inhibitor<'_>,
    name: &str,
    instance: u32,
    count: u32,
    end: Moment,
) -> Result<(), AllocError> {
    for number in 0..count {
        let name = format!(in alloc; "{name}{number}")?;
        inhibitor.take(&Alert {
            labels: labels_at(alloc, name.as_str(), "critical", instance)?,
            annotations: LabelSet::new(),
            start: moment(1),
            end,
            updated: moment(1),
            timeout: false,
            generator: SharedText::new(),
        })?;
    }
    Ok(())
}

// Takes the alerts of each instance, those first that are resolved.
fn take_all(alloc: Global, inhibitor: &mut Inhibitor<'_>, load: Load) -> Result<(), AllocError> {
    for instance in 0..load.values {
        take_each(
            alloc,
            inhibitor,
            "Deployed",
            instance,
            load.resolved,
            moment(2),
        )?;
        take_each(
            alloc,
            inhibitor,
            "InstanceDown",
            instance,
            load.firing,
            moment(3),
        )?;
    }
    Ok(())
}

// The labels of the targets, with as many values as the sources have.
fn targets_of(alloc: Global, load: Load) -> Result<Vec<LabelSet>, AllocError> {
    let mut targets = Vec::new(alloc);
    for number in 0..TARGETS {
        let value = number.checked_rem(load.values).unwrap_or(0);
        let instance = load.first.wrapping_add(value);
        targets.push(labels_at(alloc, "DiskFull", "warning", instance)?)?;
    }
    Ok(targets)
}

// Asks about each target once.
fn ask_each(
    inhibitor: &mut Inhibitor<'_>,
    targets: &[LabelSet],
    answers: &mut Answers,
) -> Result<(), AllocError> {
    for target in targets {
        if inhibitor.mutes(target, moment(2))?.is_some() {
            answers.muted = answers.muted.wrapping_add(1);
        }
        answers.looked = answers.looked.wrapping_add(inhibitor.looked());
    }
    Ok(())
}

// Takes the sources, and asks about the targets in each round.
fn run(alloc: Global, load: Load) -> Result<Answers, Failure> {
    let config = Config::read(alloc, RULE.as_bytes())?;
    Ok(ask(alloc, &config, load)?)
}

fn ask(alloc: Global, config: &Config, load: Load) -> Result<Answers, AllocError> {
    let mut inhibitor = Inhibitor::new(alloc, &config.rules)?;
    take_all(alloc, &mut inhibitor, load)?;
    let mut dropped = 0u64;
    for _ in 0..load.sweeps {
        dropped = dropped.wrapping_add(inhibitor.sweep(moment(2)));
    }
    let targets = targets_of(alloc, load)?;
    let mut answers = Answers {
        dropped,
        muted: 0,
        looked: 0,
    };
    for _ in 0..load.rounds {
        ask_each(&mut inhibitor, &targets, &mut answers)?;
    }
    Ok(answers)
}

/// Runs a load, and prints how often a target was muted, how many sources were examined, and how many
/// alerts were dropped.
pub(crate) fn time(alloc: Global, load: Load, printed: &mut Printed) -> Result<(), Failure> {
    let answers = run(alloc, load)?;
    write!(
        printed.counts,
        "{} {} {}\n",
        answers.muted, answers.looked, answers.dropped
    )?;
    Ok(())
}
