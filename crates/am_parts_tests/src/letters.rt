//! Names, and values in which a backslash escapes: at each limit, and a value of a megabyte.

use crate::expectation::expect;
use am_labels::{read_letters, split_name};
use std::alloc::{AllocError, Global};
use std::test::Fail;

// How many quotes the long value has.
const MANY: usize = 500_000;

// Whether a text means a value up to its first bare quote, and this follows it.
fn means(alloc: Global, text: &str, value: &str, rest: Option<&str>) -> Result<bool, AllocError> {
    let (read, left) = read_letters(alloc, text)?;
    Ok(read.as_str() == value && left == rest)
}

#[test]
fn values_with_escapes(rt: HostRuntime) -> Result<(), Fail> {
    let cases = [
        ("", "", None),
        ("plain", "plain", None),
        ("a\\nb", "a\nb", None),
        ("\\\"\\\\\"rest", "\"\\", Some("rest")),
        ("\\d+", "\\d+", None),
        ("ends\\", "ends\\", None),
        ("\"", "", Some("")),
        ("é\\é\"é", "é\\é", Some("é")),
    ];
    for (text, value, rest) in cases {
        expect(means(rt.alloc(), text, value, rest)?, text)?;
    }
    Ok(())
}

#[test]
fn names_at_the_start(rt: HostRuntime) -> Result<(), Fail> {
    let cases = [
        ("", None),
        ("1a", None),
        (" a", None),
        ("_", Some(("_", ""))),
        ("a1:b_c=~", Some(("a1:b_c", "=~"))),
        (":é", Some((":", "é"))),
    ];
    for (text, parts) in cases {
        expect(split_name(text) == parts, text)?;
    }
    Ok(())
}

#[test]
fn a_value_of_a_megabyte(rt: HostRuntime) -> Result<(), Fail> {
    let mut text = String::new(rt.alloc());
    for _ in 0..MANY {
        text.push_str("\\\"")?;
    }
    text.push_str("\"")?;
    let (value, rest) = read_letters(rt.alloc(), text.as_str())?;
    assert_eq!(rt; value.as_str().len(), MANY);
    assert!(rt; rest == Some(""));
    Ok(())
}
