//! Asking a tree: each call once, its index, and trees of real size.

use crate::configurations::{configuration, labels};
use crate::expectation::expect;
use am_config::RouteTree;
use am_labels::LabelSet;
use am_routes::laws::dispatch_laws;
use am_routes::{PreparedTree, RouteId, matching_routes};
use std::alloc::{AllocError, Global};
use std::test::Fail;

const NESTED: &str = r#"{"route":{"receiver":"root","continue":true,"routes":[
    {"matchers":["a=1"],"continue":true,"routes":[{"matchers":["b=1"],"continue":true},{"matchers":["c=1"]},{"matchers":["b=1"]}]},
    {"matchers":["a=1","b=1"],"routes":[{"matchers":["c=2"]}]},
    {}]}}"#;

// Routes of which some have an equality matcher and some don't: a pattern before an equal value, an
// empty value, and one after which the next ones are asked.
const MIXED: &str = r#"{"route":{"receiver":"root","routes":[
    {"matchers":["a=~\"1|2\""]},
    {"matchers":["a=1"]},
    {"matchers":["c=\"\"","d=1"]},
    {"matchers":["b=1"],"continue":true},
    {"matchers":["c=1"]},
    {"matchers":["b=1"]}]}}"#;

fn are_numbered(found: &[RouteId], numbers: &[u64]) -> bool {
    found.len() == numbers.len()
        && found
            .iter()
            .zip(numbers)
            .all(|(id, number)| id.0 == *number)
}

// Labels match these routes.
fn come_to(alloc: Global, tree: &RouteTree, of: &str, numbers: &[u64]) -> Result<(), Fail> {
    let labels = labels(alloc, of)?;
    let found = matching_routes(alloc, tree, &labels)?;
    expect(are_numbered(&found, numbers), "other routes are found")
}

fn come_where_they_should(alloc: Global, tree: &RouteTree) -> Result<(), Fail> {
    come_to(alloc, tree, "a=1", &[1, 7])?;
    come_to(alloc, tree, "a=1 b=1 c=1", &[2, 3, 5])?;
    come_to(alloc, tree, "b=1", &[7])
}

#[test]
fn routes_of_labels(rt: HostRuntime) -> Result<(), Fail> {
    dispatch_laws();
    let config = configuration(rt.alloc(), NESTED)?;
    come_where_they_should(rt.alloc(), &config.tree)
}

fn answers_twice(tree: &mut PreparedTree<'_>, labels: &LabelSet) -> Result<bool, AllocError> {
    let first = tree.matches(labels)?;
    let again = tree.matches(labels)?;
    Ok(are_numbered(&first, &[2, 4, 6]) && are_numbered(&again, &[2, 4, 6]))
}

// Answers in one list: a long one, a shorter one, and the first once more.
fn answers_into(
    tree: &mut PreparedTree<'_>,
    alloc: Global,
    long: &LabelSet,
    short: &LabelSet,
) -> Result<bool, AllocError> {
    let mut ids = Vec::new(alloc);
    tree.matches_into(long, &mut ids)?;
    let first = are_numbered(&ids, &[2, 4, 6]);
    tree.matches_into(short, &mut ids)?;
    let second = are_numbered(&ids, &[7]);
    tree.matches_into(long, &mut ids)?;
    Ok(first && second && are_numbered(&ids, &[2, 4, 6]))
}

fn answers_each(alloc: Global, tree: &mut PreparedTree<'_>) -> Result<bool, AllocError> {
    let long = labels(alloc, "a=1 b=1 c=2")?;
    let short = labels(alloc, "b=1")?;
    Ok(answers_twice(tree, &long)? && answers_into(tree, alloc, &long, &short)?)
}

fn prepared_answers_twice(alloc: Global, tree: &RouteTree) -> Result<bool, AllocError> {
    let mut tree = PreparedTree::new(alloc, tree)?;
    answers_each(alloc, &mut tree)
}

// A prepared tree answers the same when it is asked again.
#[test]
fn asked_again(rt: HostRuntime) -> Result<(), Fail> {
    let config = configuration(rt.alloc(), NESTED)?;
    let same = prepared_answers_twice(rt.alloc(), &config.tree)?;
    expect(same, "other routes are found")
}

fn come_past_the_index(alloc: Global, tree: &RouteTree) -> Result<(), Fail> {
    come_to(alloc, tree, "a=1", &[1])?;
    come_to(alloc, tree, "d=1", &[3])?;
    come_to(alloc, tree, "c= d=1", &[3])?;
    come_to(alloc, tree, "c=2 d=1", &[0])?;
    come_to(alloc, tree, "b=1 c=1", &[4, 5])?;
    come_to(alloc, tree, "b=1 c=2", &[4, 6])
}

// Routes that are found by an index come in their place among the others.
#[test]
fn indexed_among_others(rt: HostRuntime) -> Result<(), Fail> {
    let config = configuration(rt.alloc(), MIXED)?;
    come_past_the_index(rt.alloc(), &config.tree)
}

// A root with 1,000 routes below it, all but the first with a pattern each.
fn wide(alloc: Global) -> Result<String, AllocError> {
    let mut text = String::from_str(
        alloc,
        r#"{"route":{"receiver":"root","routes":[{"matchers":["a=1"]}"#,
    )?;
    for number in 1..1_000u32 {
        add_route(&mut text, number)?;
    }
    text.push_str("]}}")?;
    Ok(text)
}

fn add_route(text: &mut String, number: u32) -> Result<(), AllocError> {
    write!(
        text,
        ",{{\"continue\":true,\"matchers\":[\"team=~\\\"t{number}|all\\\"\"]}}"
    )
}

fn finds_all_or_one(alloc: Global, tree: &RouteTree) -> Result<(), Fail> {
    come_to(alloc, tree, "team=t999", &[1_000])?;
    let labels = labels(alloc, "team=all")?;
    let all = matching_routes(alloc, tree, &labels)?;
    expect(all.len() == 999, "each route but the first")
}

#[test]
fn thousand_routes(rt: HostRuntime) -> Result<(), Fail> {
    let text = wide(rt.alloc())?;
    let config = configuration(rt.alloc(), text.as_str())?;
    finds_all_or_one(rt.alloc(), &config.tree)
}

// A root with 10,000 routes below it, each for one team.
fn teams(alloc: Global) -> Result<String, AllocError> {
    let mut text = String::from_str(
        alloc,
        r#"{"route":{"receiver":"root","routes":[{"matchers":["team=t0"]}"#,
    )?;
    for number in 1..10_000u32 {
        write!(text, ",{{\"matchers\":[\"team=t{number}\"]}}")?;
    }
    text.push_str("]}}")?;
    Ok(text)
}

fn looks_at(alloc: Global, tree: &RouteTree, of: &str, looked: u64) -> Result<(), Fail> {
    let labels = labels(alloc, of)?;
    let mut tree = PreparedTree::new(alloc, tree)?;
    expect(tree.looked(&labels)? == looked, "others are looked at")
}

fn finds_one_of_many(alloc: Global, tree: &RouteTree) -> Result<(), Fail> {
    come_to(alloc, tree, "team=t9999", &[10_000])?;
    come_to(alloc, tree, "team=t10000", &[0])?;
    looks_at(alloc, tree, "team=t9999", 1)?;
    looks_at(alloc, tree, "team=t10000", 0)
}

// Of 10,000 routes at one level the one of the label set's team alone is looked at.
#[test]
fn ten_thousand_routes(rt: HostRuntime) -> Result<(), Fail> {
    let text = teams(rt.alloc())?;
    let config = configuration(rt.alloc(), text.as_str())?;
    finds_one_of_many(rt.alloc(), &config.tree)
}
