//! What an inhibitor answers, turn by turn. Each call is made again where memory was refused, so the
//! tests also pass with any one allocation refused.

mod rules;
mod sweeps;

use am_alert::{Alert, Moment};
use am_config::{Config, ConfigFault};
use am_inhibit::Inhibitor;
use am_labels::{LabelSet, SharedText};
use std::alloc::{AllocError, Global};
use std::test::Fail;

// 2024-01-01T00:00:00Z, in minutes since 0001-01-01T00:00:00Z.
const YEAR_2024: u64 = 1_063_994_400;

const NANOSECONDS_A_MINUTE: u128 = 60_000_000_000;

// Minutes of the day.
const AT_10_00: u32 = 600;

const AT_10_01: u32 = 601;

const AT_10_02: u32 = 602;

const AT_10_03: u32 = 603;

const AT_10_05: u32 = 605;

const AT_10_20: u32 = 620;

const AT_10_30: u32 = 630;

// Names with values.
type Pairs = &'static [(&'static str, &'static str)];

const T: Pairs = &[("alertname", "T"), ("dc", "1"), ("sev", "crit")];

const S: Pairs = &[("alertname", "S"), ("dc", "1"), ("sev", "down")];

const Z: Pairs = &[("alertname", "Z"), ("dc", "1"), ("sev", "down")];

const W: Pairs = &[("alertname", "W"), ("dc", "1"), ("sev", "warn")];

// What is done with an inhibitor.
#[derive(Clone, Copy)]
enum Turn {
    // It takes an alert of these labels, which fires from one minute of the day to another.
    Take(Pairs, u32, u32),
    // It takes a source of each of a thousand other values.
    TakeOthers,
    // It takes this many alerts of other names with the values of S, which fire from one minute of the
    // day to another.
    TakeMany(u32, u32, u32),
    // A sweep at a minute drops this many.
    Sweep(u32, u64),
    // One a nanosecond before.
    SweepBefore(u32, u64),
    // At a minute a target is muted by the rule of this number and the alert of these labels, or not at all,
    // and this number of sources was examined.
    Ask(Pairs, u32, Option<(u64, Pairs)>, u64),
    // The same for this many of the label sets that TakeMany takes, from the first on.
    AskMany(u32, u32, Option<(u64, Pairs)>, u64),
}

// The moment `minutes` minutes after the beginning of 2024.
fn moment(minutes: u32) -> Moment {
    moment_before(minutes, 0)
}

// The moment that is `nanoseconds` nanoseconds before that one.
fn moment_before(minutes: u32, nanoseconds: u8) -> Moment {
    let since_year_1 = YEAR_2024 + u64::from(minutes);
    let at = u128::from(since_year_1) * NANOSECONDS_A_MINUTE;
    Moment::try_new(at.saturating_sub(u128::from(nanoseconds))).unwrap_or(Moment::MAX)
}

fn labels_once(alloc: Global, pairs: &[(&str, &str)]) -> Result<LabelSet, AllocError> {
    let mut texts = Vec::new(alloc);
    for (name, value) in pairs {
        texts.push((
            String::from_str(alloc, name)?,
            String::from_str(alloc, value)?,
        ))?;
    }
    LabelSet::from_pairs(alloc, texts)
}

fn labels_of(alloc: Global, pairs: &[(&str, &str)]) -> Result<LabelSet, AllocError> {
    match labels_once(alloc, pairs) {
        Err(AllocError) => labels_once(alloc, pairs),
        other => other,
    }
}

fn take(
    alloc: Global,
    inhibitor: &mut Inhibitor<'_>,
    pairs: &[(&str, &str)],
    start: u32,
    end: u32,
) -> Result<(), AllocError> {
    let alert = Alert {
        labels: labels_of(alloc, pairs)?,
        annotations: LabelSet::new(),
        start: moment(start),
        end: moment(end),
        updated: moment(start),
        timeout: false,
        generator: SharedText::new(),
    };
    match inhibitor.take(&alert) {
        Err(AllocError) => inhibitor.take(&alert),
        other => other,
    }
}

fn number_once(alloc: Global, number: u32) -> Result<String, AllocError> {
    format!(in alloc; "{number}")
}

fn number_of(alloc: Global, number: u32) -> Result<String, AllocError> {
    match number_once(alloc, number) {
        Err(AllocError) => number_once(alloc, number),
        other => other,
    }
}

// The values are counted from 2.
fn take_others(alloc: Global, inhibitor: &mut Inhibitor<'_>) -> Result<(), AllocError> {
    for number in 2..1_002u32 {
        let dc = number_of(alloc, number)?;
        let pairs = [("alertname", "S"), ("dc", dc.as_str()), ("sev", "down")];
        take(alloc, inhibitor, &pairs, AT_10_00, AT_10_20)?;
    }
    Ok(())
}

fn take_many(
    alloc: Global,
    inhibitor: &mut Inhibitor<'_>,
    count: u32,
    start: u32,
    end: u32,
) -> Result<(), AllocError> {
    for number in 0..count {
        let name = number_of(alloc, number)?;
        let pairs = [("alertname", name.as_str()), ("dc", "1"), ("sev", "down")];
        take(alloc, inhibitor, &pairs, start, end)?;
    }
    Ok(())
}

fn answers(
    inhibitor: &mut Inhibitor<'_>,
    target: &LabelSet,
    now: Moment,
    want: Option<(u64, &LabelSet)>,
) -> Result<bool, AllocError> {
    Ok(match (inhibitor.mutes(target, now)?, want) {
        (None, None) => true,
        (Some((rule, by)), Some((number, source))) => rule == number && by == source,
        _ => false,
    })
}

fn answers_again(
    inhibitor: &mut Inhibitor<'_>,
    target: &LabelSet,
    now: Moment,
    want: Option<(u64, &LabelSet)>,
) -> Result<bool, AllocError> {
    match answers(inhibitor, target, now, want) {
        Err(AllocError) => answers(inhibitor, target, now, want),
        other => other,
    }
}

// Whether the answer for a target is this one.
fn is_answer(
    alloc: Global,
    inhibitor: &mut Inhibitor<'_>,
    target: &[(&str, &str)],
    now: Moment,
    want: Option<(u64, Pairs)>,
) -> Result<bool, AllocError> {
    let target = labels_of(alloc, target)?;
    match want {
        Some((rule, by)) => {
            let by = labels_of(alloc, by)?;
            answers_again(inhibitor, &target, now, Some((rule, &by)))
        }
        None => answers_again(inhibitor, &target, now, None),
    }
}

// Whether this is the answer for each of the first label sets that `take_many` takes, and how many
// sources it examined.
fn are_answers(
    alloc: Global,
    inhibitor: &mut Inhibitor<'_>,
    count: u32,
    now: Moment,
    want: Option<(u64, Pairs)>,
    looked: u64,
) -> Result<bool, AllocError> {
    for number in 0..count {
        let name = number_of(alloc, number)?;
        let target = [("alertname", name.as_str()), ("dc", "1"), ("sev", "down")];
        if !is_answer(alloc, inhibitor, &target, now, want)? || inhibitor.looked() != looked {
            return Ok(false);
        }
    }
    Ok(true)
}

// Whether a turn goes as it is to.
fn goes(alloc: Global, inhibitor: &mut Inhibitor<'_>, turn: Turn) -> Result<bool, AllocError> {
    match turn {
        Turn::Take(labels, start, end) => {
            take(alloc, inhibitor, labels, start, end)?;
            Ok(true)
        }
        Turn::TakeOthers => {
            take_others(alloc, inhibitor)?;
            Ok(true)
        }
        Turn::TakeMany(count, start, end) => {
            take_many(alloc, inhibitor, count, start, end)?;
            Ok(true)
        }
        Turn::Sweep(minute, dropped) => Ok(inhibitor.sweep(moment(minute)) == dropped),
        Turn::SweepBefore(minute, dropped) => {
            Ok(inhibitor.sweep(moment_before(minute, 1)) == dropped)
        }
        Turn::Ask(target, minute, want, looked) => {
            let is_so = is_answer(alloc, inhibitor, target, moment(minute), want)?;
            Ok(is_so && inhibitor.looked() == looked)
        }
        Turn::AskMany(count, minute, want, looked) => {
            are_answers(alloc, inhibitor, count, moment(minute), want, looked)
        }
    }
}

fn inhibitor_of(alloc: Global, config: &Config) -> Result<Inhibitor<'_>, AllocError> {
    match Inhibitor::new(alloc, &config.rules) {
        Err(AllocError) => Inhibitor::new(alloc, &config.rules),
        other => other,
    }
}

// The first turn that doesn't go as it is to.
fn first_wrong(
    alloc: Global,
    config: &Config,
    turns: &[Turn],
) -> Result<Option<usize>, AllocError> {
    let mut inhibitor = inhibitor_of(alloc, config)?;
    for (at, turn) in turns.iter().enumerate() {
        if !goes(alloc, &mut inhibitor, *turn)? {
            return Ok(Some(at));
        }
    }
    Ok(None)
}

fn read(alloc: Global, text: &str) -> Result<Config, ConfigFault> {
    match Config::read(alloc, text.as_bytes()) {
        Err(ConfigFault::NoMemory) => Config::read(alloc, text.as_bytes()),
        other => other,
    }
}

fn config_once(alloc: Global, rules: &str) -> Result<String, AllocError> {
    format!(in alloc; "{{\"route\":{{\"receiver\":\"ops\"}},\"inhibit_rules\":[{rules}]}}")
}

// As `first_wrong`, under these rules.
fn wrong(alloc: Global, rules: &str, turns: &[Turn]) -> Result<Option<usize>, Fail> {
    let text = match config_once(alloc, rules) {
        Err(AllocError) => config_once(alloc, rules)?,
        Ok(text) => text,
    };
    let config = read(alloc, text.as_str())?;
    Ok(first_wrong(alloc, &config, turns)?)
}

// The rule of the worked example.
const ONE_RULE: &str =
    "{\"source_matchers\":[\"sev=~\\\"crit|down\\\"\"],\"target_matchers\":[\"sev=~\\\"crit|warn\\\"\"],\"equal\":[\"dc\"]}";

#[test]
fn worked_example(rt: HostRuntime) -> Result<(), Fail> {
    let turns = [
        Turn::Take(T, AT_10_00, AT_10_05),
        Turn::Ask(T, AT_10_01, None, 1),
        Turn::Take(S, AT_10_02, AT_10_20),
        Turn::Ask(T, AT_10_03, Some((0, S)), 2),
        Turn::Ask(T, AT_10_20, None, 2),
        Turn::Ask(W, AT_10_03, Some((0, T)), 1),
        Turn::Ask(&[("alertname", "W"), ("sev", "warn")], AT_10_03, None, 0),
    ];
    assert_eq!(rt; wrong(rt.alloc(), ONE_RULE, &turns)?, None);
    Ok(())
}

// Sources of a thousand other values are never looked at.
#[test]
fn a_thousand_other_sources(rt: HostRuntime) -> Result<(), Fail> {
    let turns = [
        Turn::Take(T, AT_10_00, AT_10_05),
        Turn::TakeOthers,
        Turn::Take(S, AT_10_02, AT_10_20),
        Turn::Ask(T, AT_10_03, Some((0, S)), 2),
        Turn::Ask(
            &[("alertname", "W"), ("dc", "1001"), ("sev", "warn")],
            AT_10_03,
            Some((0, &[("alertname", "S"), ("dc", "1001"), ("sev", "down")])),
            1,
        ),
    ];
    assert_eq!(rt; wrong(rt.alloc(), ONE_RULE, &turns)?, None);
    Ok(())
}

// A source that is resolved mutes nothing. Once it fires again it has its old place.
#[test]
fn source_fires_again(rt: HostRuntime) -> Result<(), Fail> {
    let turns = [
        Turn::Take(S, AT_10_00, AT_10_20),
        Turn::Take(Z, AT_10_01, AT_10_30),
        Turn::Ask(W, AT_10_02, Some((0, S)), 1),
        Turn::Take(S, AT_10_00, AT_10_03),
        Turn::Ask(W, AT_10_03, Some((0, Z)), 2),
        Turn::Take(S, AT_10_05, AT_10_30),
        Turn::Ask(W, AT_10_20, Some((0, S)), 1),
    ];
    assert_eq!(rt; wrong(rt.alloc(), ONE_RULE, &turns)?, None);
    Ok(())
}

// A label that is missing has the same value as one that is empty, and values aren't joined.
#[test]
fn values_one_by_one(rt: HostRuntime) -> Result<(), Fail> {
    let rule =
        "{\"source_matchers\":[\"sev=down\"],\"target_matchers\":[\"sev=warn\"],\"equal\":[\"a\",\"b\"]}";
    let source: Pairs = &[("a", "xy"), ("sev", "down")];
    let missing: Pairs = &[("a", "xy"), ("sev", "warn")];
    let empty: Pairs = &[("a", "xy"), ("b", ""), ("sev", "warn")];
    let split: Pairs = &[("a", "x"), ("b", "y"), ("sev", "warn")];
    let turned: Pairs = &[("b", "xy"), ("sev", "warn")];
    let turns = [
        Turn::Take(source, AT_10_00, AT_10_20),
        Turn::Ask(missing, AT_10_01, Some((0, source)), 1),
        Turn::Ask(empty, AT_10_01, Some((0, source)), 1),
        Turn::Ask(split, AT_10_01, None, 0),
        Turn::Ask(turned, AT_10_01, None, 0),
    ];
    assert_eq!(rt; wrong(rt.alloc(), rule, &turns)?, None);
    Ok(())
}
