//! The inhibition rules that a configuration is read as.

use crate::configurations::configuration;
use crate::expectation::expect;
use am_config::InhibitRule;
use am_matchers::{Matchers, Operator};
use std::test::Fail;

const RULES: &str = r#"{"route":{"receiver":"ops"},"inhibit_rules":[
    {"source_matchers":["severity=crit"],"target_matchers":["severity=~warn|info"],"equal":["alertname","dc","dc"]},
    {"source_matchers":["alertname=Down","dc!=lab"],"equal":null},
    {}]}"#;

fn is_one(matchers: &Matchers, at: usize, operator: Operator, value: &str) -> bool {
    match matchers.as_slice().get(at) {
        None => false,
        Some(found) => found.operator() == operator && found.value() == value,
    }
}

fn counts(rule: &InhibitRule) -> (usize, usize, usize) {
    (
        rule.source.as_slice().len(),
        rule.target.as_slice().len(),
        rule.equal.as_slice().len(),
    )
}

fn are_as_written(rules: &[InhibitRule]) -> bool {
    let [first, second, third] = rules else {
        return false;
    };
    counts(first) == (1, 1, 3)
        && counts(second) == (2, 0, 0)
        && counts(third) == (0, 0, 0)
        && is_one(&first.source, 0, Operator::Equal, "crit")
        && is_one(&first.target, 0, Operator::MatchRegexp, "warn|info")
        && is_one(&second.source, 1, Operator::NotEqual, "lab")
}

#[test]
fn rules_as_an_operator_writes_them(rt: HostRuntime) -> Result<(), Fail> {
    let config = configuration(rt.alloc(), RULES)?;
    expect(are_as_written(config.rules.as_slice()), "other rules")
}
