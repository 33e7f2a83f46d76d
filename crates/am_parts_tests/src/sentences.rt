//! What errors say of themselves: sentences, whose words no contract has.

use crate::expectation::expect;
use am_alert::{AlertFault, PostFault, TimeFault};
use am_config::{Config, ConfigFault};
use am_matchers::MatchFault;
use am_posts::PartsFault;
use std::alloc::{AllocError, Global};
use std::fmt::Display;
use std::test::Fail;

// The text is made again where memory was refused.
fn says<E: Display>(alloc: Global, error: &E, sentence: &str) -> Result<bool, AllocError> {
    let text = match error.to_string(alloc) {
        Err(AllocError) => error.to_string(alloc)?,
        Ok(text) => text,
    };
    Ok(text.as_str() == sentence)
}

fn refusal_says(alloc: Global, config: &[u8], sentence: &str) -> Result<bool, AllocError> {
    let read = match Config::read(alloc, config) {
        Err(ConfigFault::NoMemory) => Config::read(alloc, config),
        other => other,
    };
    match read {
        Ok(_) => Ok(false),
        Err(fault) => says(alloc, &fault, sentence),
    }
}

#[test]
fn sentences_of_label_sets_and_posts(rt: HostRuntime) -> Result<(), Fail> {
    let alloc = rt.alloc();
    let sentence = "no operator follows the label's name";
    expect(says(alloc, &MatchFault::NoOperator, sentence)?, sentence)?;
    let sentence = "the alert ends before it starts";
    expect(
        says(alloc, &AlertFault::EndBeforeStart, sentence)?,
        sentence,
    )?;
    let invalid = PartsFault::Invalid(AlertFault::EndBeforeStart);
    expect(says(alloc, &invalid, sentence)?, "of parts")?;
    let sentence = "element 3 is no object, has no labels, or has a member that can't be read";
    expect(says(alloc, &PostFault::BadMember(3), sentence)?, sentence)?;
    expect(
        says(alloc, &TimeFault::BadTime, "not a time")?,
        "not a time",
    )
}

#[test]
fn sentences_of_configurations(rt: HostRuntime) -> Result<(), Fail> {
    let alloc = rt.alloc();
    let sentence = "the configuration is no JSON";
    expect(refusal_says(alloc, b"{", sentence)?, sentence)?;
    let sentence = "route.receiver is missing";
    expect(refusal_says(alloc, b"{\"route\":{}}", sentence)?, sentence)?;
    let config = br#"{"route":{"receiver":"a","routes":[{"matchers":["foo"]}]}}"#;
    let sentence = "route.routes[0].matchers[0]: no operator follows the label's name";
    expect(refusal_says(alloc, config, sentence)?, sentence)
}
