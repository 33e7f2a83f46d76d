//! What sweeps drop, and what an inhibitor answers afterwards.

use crate::inhibitor::{
    AT_10_00, AT_10_01, AT_10_02, AT_10_03, AT_10_05, AT_10_20, AT_10_30, ONE_RULE, S, T, Turn, W,
    Z, wrong,
};
use std::test::Fail;

// A sweep drops a source from the moment of its end on. Taken again, it comes after the others.
#[test]
fn sweep_between(rt: HostRuntime) -> Result<(), Fail> {
    let turns = [
        Turn::Sweep(AT_10_00, 0),
        Turn::Take(S, AT_10_00, AT_10_20),
        Turn::Take(Z, AT_10_01, AT_10_30),
        Turn::SweepBefore(AT_10_20, 0),
        Turn::Ask(W, AT_10_20, Some((0, Z)), 2),
        Turn::Sweep(AT_10_20, 1),
        Turn::Ask(W, AT_10_20, Some((0, Z)), 1),
        Turn::Take(S, AT_10_20, AT_10_30),
        Turn::Ask(W, AT_10_20, Some((0, Z)), 1),
        Turn::Take(Z, AT_10_01, AT_10_20),
        Turn::Ask(W, AT_10_20, Some((0, S)), 2),
        Turn::Sweep(AT_10_20, 1),
        Turn::Ask(W, AT_10_20, Some((0, S)), 1),
    ];
    assert_eq!(rt; wrong(rt.alloc(), ONE_RULE, &turns)?, None);
    Ok(())
}

// All are dropped, also one that is no source of the rule, and then taken once more.
#[test]
fn all_dropped_and_taken_again(rt: HostRuntime) -> Result<(), Fail> {
    let turns = [
        Turn::Take(T, AT_10_00, AT_10_05),
        Turn::Take(W, AT_10_00, AT_10_05),
        Turn::TakeOthers,
        Turn::Take(S, AT_10_02, AT_10_20),
        Turn::Sweep(AT_10_20, 1_003),
        Turn::Ask(W, AT_10_03, None, 0),
        Turn::Sweep(AT_10_20, 0),
        Turn::Take(S, AT_10_02, AT_10_30),
        Turn::Take(T, AT_10_02, AT_10_30),
        Turn::TakeOthers,
        Turn::Ask(W, AT_10_03, Some((0, S)), 1),
        Turn::Ask(
            &[("alertname", "W"), ("dc", "1001"), ("sev", "warn")],
            AT_10_03,
            Some((0, &[("alertname", "S"), ("dc", "1001"), ("sev", "down")])),
            1,
        ),
    ];
    assert_eq!(rt; wrong(rt.alloc(), ONE_RULE, &turns)?, None);
    Ok(())
}

// The sources of two rules are dropped from both, and the index of a kept one leads to its new place.
#[test]
fn sweep_of_two_rules(rt: HostRuntime) -> Result<(), Fail> {
    let rules =
        "{\"source_matchers\":[\"sev=crit\"],\"target_matchers\":[\"sev=warn\"],\"equal\":[\"dc\"]},{\"source_matchers\":[\"sev=~\\\"crit|down\\\"\"],\"target_matchers\":[\"sev=warn\"]}";
    let turns = [
        Turn::Take(Z, AT_10_00, AT_10_01),
        Turn::Take(T, AT_10_00, AT_10_05),
        Turn::Take(S, AT_10_00, AT_10_20),
        Turn::Sweep(AT_10_01, 1),
        Turn::Ask(W, AT_10_02, Some((0, T)), 1),
        Turn::Ask(W, AT_10_05, Some((1, S)), 3),
        Turn::Sweep(AT_10_05, 1),
        Turn::Ask(W, AT_10_05, Some((1, S)), 1),
    ];
    assert_eq!(rt; wrong(rt.alloc(), rules, &turns)?, None);
    Ok(())
}

// Of fifty thousand resolved sources before the one that fires, none is examined after a sweep.
#[test]
fn fifty_thousand_resolved(rt: HostRuntime) -> Result<(), Fail> {
    let turns = [
        Turn::TakeMany(50_000, AT_10_00, AT_10_05),
        Turn::Take(S, AT_10_02, AT_10_30),
        Turn::Ask(W, AT_10_05, Some((0, S)), 50_001),
        Turn::Sweep(AT_10_05, 50_000),
        Turn::Ask(W, AT_10_05, Some((0, S)), 1),
        Turn::TakeMany(50_000, AT_10_05, AT_10_20),
        Turn::Ask(W, AT_10_05, Some((0, S)), 1),
        Turn::Sweep(AT_10_20, 50_000),
        Turn::Sweep(AT_10_30, 1),
        Turn::Ask(W, AT_10_20, None, 0),
    ];
    assert_eq!(rt; wrong(rt.alloc(), ONE_RULE, &turns)?, None);
    Ok(())
}

// Label sets that match both sides of a rule don't mute each other, and each answer counts them all. A
// sweep makes the run of them at the beginning of the sources shorter, and a later one makes it longer.
#[test]
fn sixteen_thousand_on_both_sides(rt: HostRuntime) -> Result<(), Fail> {
    let rule = "{\"source_matchers\":[\"dc=1\"],\"target_matchers\":[\"sev=down\"]}";
    let turns = [
        Turn::TakeMany(16_000, AT_10_00, AT_10_20),
        Turn::AskMany(16_000, AT_10_01, None, 16_000),
        Turn::Take(T, AT_10_02, AT_10_05),
        Turn::AskMany(3, AT_10_03, Some((0, T)), 16_001),
        Turn::AskMany(3, AT_10_05, None, 16_001),
        Turn::TakeMany(1_000, AT_10_00, AT_10_03),
        Turn::Sweep(AT_10_03, 1_000),
        Turn::AskMany(3, AT_10_03, Some((0, T)), 15_001),
        Turn::Sweep(AT_10_05, 1),
        Turn::AskMany(3, AT_10_05, None, 15_000),
        Turn::Sweep(AT_10_20, 15_000),
        Turn::Take(T, AT_10_02, AT_10_05),
        Turn::TakeMany(16_000, AT_10_00, AT_10_20),
        Turn::AskMany(3, AT_10_03, Some((0, T)), 1),
        Turn::Sweep(AT_10_05, 1),
        Turn::AskMany(16_000, AT_10_05, None, 16_000),
    ];
    assert_eq!(rt; wrong(rt.alloc(), rule, &turns)?, None);
    Ok(())
}
