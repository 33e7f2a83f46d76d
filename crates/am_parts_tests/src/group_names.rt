//! Grouping by many names.

use crate::configurations::{configuration, labels};
use crate::expectation::expect;
use am_config::GroupBy;
use std::alloc::{AllocError, Global};
use std::test::Fail;

// A configuration whose root groups by `name00000`, `name00001`, .. and by each of them again.
fn grouped_by_names(alloc: Global, count: usize) -> Result<String, AllocError> {
    let mut text = String::from_str(
        alloc,
        "{\"route\":{\"receiver\":\"root\",\"group_by\":[\"alertname\"",
    )?;
    for _ in 0..2 {
        push_names(&mut text, count)?;
    }
    text.push_str("]}}")?;
    Ok(text)
}

fn push_names(text: &mut String, count: usize) -> Result<(), AllocError> {
    for i in 0..count {
        write!(text, ",\"name{i:05}\"")?;
    }
    Ok(())
}

// Whether of four labels those that are grouped by are the group's.
fn has_three(alloc: Global, group_by: &GroupBy) -> Result<bool, AllocError> {
    let given = labels(alloc, "alertname=Down job=node name00007=a name15999=b")?;
    let wanted = labels(alloc, "alertname=Down name00007=a name15999=b")?;
    Ok(group_by.labels_of(alloc, &given)? == wanted)
}

#[test]
fn sixteen_thousand_names(rt: HostRuntime) -> Result<(), Fail> {
    let text = grouped_by_names(rt.alloc(), 16_000)?;
    let config = configuration(rt.alloc(), &text)?;
    let three = has_three(rt.alloc(), &config.tree.root.group_by)?;
    expect(three, "another group")
}
