//! Rules of other kinds than the one, none, and as many as there may be.

use crate::inhibitor::{
    AT_10_00, AT_10_01, AT_10_02, AT_10_03, AT_10_05, AT_10_20, Pairs, S, T, Turn, W, wrong,
};
use std::alloc::{AllocError, Global};
use std::test::Fail;

// Without `equal` each source mutes each target, and those before it are looked at.
#[test]
fn rule_without_equal(rt: HostRuntime) -> Result<(), Fail> {
    let rule = "{\"source_matchers\":[\"sev=down\"],\"target_matchers\":[\"sev=warn\"]}";
    let away: Pairs = &[("alertname", "W"), ("dc", "2"), ("sev", "warn")];
    let turns = [
        Turn::Ask(away, AT_10_03, None, 0),
        Turn::Take(&[("alertname", "R"), ("sev", "down")], AT_10_00, AT_10_02),
        Turn::Take(S, AT_10_00, AT_10_20),
        Turn::Ask(away, AT_10_03, Some((0, S)), 2),
        Turn::Ask(S, AT_10_03, None, 0),
    ];
    assert_eq!(rt; wrong(rt.alloc(), rule, &turns)?, None);
    Ok(())
}

// The lowest rule answers, and what was looked at for the rules before it counts too.
#[test]
fn two_rules(rt: HostRuntime) -> Result<(), Fail> {
    let rules =
        "{\"source_matchers\":[\"sev=crit\"],\"target_matchers\":[\"sev=warn\"],\"equal\":[\"dc\"]},{\"source_matchers\":[\"sev=down\"],\"target_matchers\":[\"sev=warn\"],\"equal\":[\"dc\"]}";
    let turns = [
        Turn::Take(S, AT_10_00, AT_10_20),
        Turn::Ask(W, AT_10_01, Some((1, S)), 1),
        Turn::Take(T, AT_10_02, AT_10_05),
        Turn::Ask(W, AT_10_03, Some((0, T)), 1),
        Turn::Ask(W, AT_10_05, Some((1, S)), 2),
    ];
    assert_eq!(rt; wrong(rt.alloc(), rules, &turns)?, None);
    Ok(())
}

// A configuration without rules mutes nothing.
#[test]
fn no_rules(rt: HostRuntime) -> Result<(), Fail> {
    let turns = [
        Turn::Take(S, AT_10_00, AT_10_20),
        Turn::Ask(W, AT_10_01, None, 0),
    ];
    assert_eq!(rt; wrong(rt.alloc(), "", &turns)?, None);
    Ok(())
}

// Rules of which each has a source of its own.
fn rules_once(alloc: Global, count: u32) -> Result<String, AllocError> {
    let mut rules = String::new(alloc);
    let mut comma = "";
    for number in 0..count {
        write!(
            rules,
            "{comma}{{\"source_matchers\":[\"rule={number}\"],\"target_matchers\":[\"sev=warn\"]}}"
        )?;
        comma = ",";
    }
    Ok(rules)
}

// Of many rules the last one answers, and the others are asked first.
#[test]
fn five_hundred_rules(rt: HostRuntime) -> Result<(), Fail> {
    let alloc = rt.alloc();
    let rules = match rules_once(alloc, 500) {
        Err(AllocError) => rules_once(alloc, 500)?,
        Ok(rules) => rules,
    };
    let source: Pairs = &[("rule", "499"), ("sev", "down")];
    let turns = [
        Turn::Take(source, AT_10_00, AT_10_20),
        Turn::Ask(W, AT_10_01, Some((499, source)), 1),
    ];
    assert_eq!(rt; wrong(alloc, rules.as_str(), &turns)?, None);
    Ok(())
}
