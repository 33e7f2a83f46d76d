//! Patterns: that common ones are read and mean what they should, that a too large or too deep one is
//! refused, and matchers of real size.

use crate::expectation::expect;
use am_labels::LabelSet;
use am_matchers::{MatchFault, Matcher};
use std::alloc::{AllocError, Global};
use std::test::Fail;

fn labels_of(alloc: Global, value: &str) -> Result<LabelSet, AllocError> {
    let mut pairs = Vec::new(alloc);
    pairs.push((
        String::from_str(alloc, "a")?,
        String::from_str(alloc, value)?,
    ))?;
    LabelSet::from_pairs(alloc, pairs)
}

fn source_of(alloc: Global, pattern: &str) -> Result<String, AllocError> {
    let mut source = String::from_str(alloc, "a=~\"")?;
    source.push_str(pattern)?;
    source.push_str("\"")?;
    Ok(source)
}

fn matcher_of(alloc: Global, pattern: &str) -> Result<Matcher, Fail> {
    let source = source_of(alloc, pattern)?;
    Ok(Matcher::read(alloc, source.as_str())?)
}

fn admits(alloc: Global, matcher: &mut Matcher, value: &str) -> Result<bool, AllocError> {
    let labels = labels_of(alloc, value)?;
    matcher.admits(&labels)
}

// Whether the pattern matches one text whole, and the other not.
fn tells(alloc: Global, pattern: &str, good: &str, bad: &str) -> Result<bool, Fail> {
    let mut matcher = matcher_of(alloc, pattern)?;
    let is_good = admits(alloc, &mut matcher, good)?;
    let is_bad = admits(alloc, &mut matcher, bad)?;
    Ok(is_good && !is_bad)
}

// Whether each pattern matches its first text whole, and its second not.
fn all_tell(
    alloc: Global,
    cases: &[(&'static str, &'static str, &'static str)],
) -> Result<(), Fail> {
    for (pattern, good, bad) in cases {
        expect(tells(alloc, pattern, good, bad)?, pattern)?;
    }
    Ok(())
}

#[test]
fn alternatives_and_groups(rt: HostRuntime) -> Result<(), Fail> {
    let cases = [
        ("critical|warning|page", "warning", "warnings"),
        ("(prod|stage)-eu(-[0-9]+)?", "stage-eu-3", "stage-eu-"),
        ("(?P<name>x)(y)", "xy", "x"),
    ];
    all_tell(rt.alloc(), &cases)
}

#[test]
fn classes_and_counts(rt: HostRuntime) -> Result<(), Fail> {
    let cases = [
        ("db[0-9]+", "db42", "db"),
        ("db-[^0-9]*", "db-x", "db-1"),
        ("[a-zA-Z_]{2,4}", "a_Z", "a"),
        ("10\\.0\\.[0-9]{1,3}\\.1", "10.0.25.1", "10x0.25.1"),
        ("[[:alpha:]]+", "abc", "ab1"),
    ];
    all_tell(rt.alloc(), &cases)
}

#[test]
fn dots_anchors_and_flags(rt: HostRuntime) -> Result<(), Fail> {
    let cases = [
        (".+", "x", "x\ny"),
        ("(?s:x.y)", "x\ny", "xy"),
        ("^db.*", "db1", "adb1"),
        (".*full$", "disk full", "disk full."),
        ("(?i)disk full", "Disk FULL", "disk  full"),
    ];
    all_tell(rt.alloc(), &cases)
}

#[test]
fn unicode(rt: HostRuntime) -> Result<(), Fail> {
    let cases = [
        ("\\d{3}", "123", "12a"),
        ("\\w+\\s\\w+", "über alles", "über"),
        ("\\pL+", "größe", "1"),
    ];
    all_tell(rt.alloc(), &cases)
}

fn repeated(alloc: Global, text: &str, times: usize) -> Result<String, AllocError> {
    let mut whole = String::new(alloc);
    for _ in 0..times {
        whole.push_str(text)?;
    }
    Ok(whole)
}

// A pattern in `depth` nested groups.
fn nested(alloc: Global, depth: usize) -> Result<String, AllocError> {
    let mut pattern = repeated(alloc, "(", depth)?;
    pattern.push_str("x")?;
    let ends = repeated(alloc, ")", depth)?;
    pattern.push_str(ends.as_str())?;
    Ok(pattern)
}

fn is_bad(alloc: Global, text: &str) -> bool {
    matches!(Matcher::read(alloc, text), Err(MatchFault::BadPattern))
}

fn is_nested_bad(alloc: Global, depth: usize) -> Result<bool, AllocError> {
    let pattern = nested(alloc, depth)?;
    let source = source_of(alloc, pattern.as_str())?;
    Ok(is_bad(alloc, source.as_str()))
}

fn is_nested_read(alloc: Global, depth: usize) -> Result<bool, Fail> {
    let pattern = nested(alloc, depth)?;
    let _read = matcher_of(alloc, pattern.as_str())?;
    Ok(true)
}

#[test]
fn too_big_or_too_deep(rt: HostRuntime) -> Result<(), Fail> {
    let alloc = rt.alloc();
    expect(
        is_bad(alloc, "a=~\"(?:x{1000}){1000}\""),
        "a too big one is read",
    )?;
    expect(is_nested_bad(alloc, 300)?, "a too deep one is read")?;
    expect(is_nested_read(alloc, 200)?, "200 groups")
}

// A matcher of a value.
fn text_of(alloc: Global, operator: &str, value: &str) -> Result<String, AllocError> {
    let mut text = String::from_str(alloc, "a")?;
    text.push_str(operator)?;
    text.push_str(value)?;
    Ok(text)
}

fn is_read_and_admitted(alloc: Global, text: &str, value: &str) -> Result<bool, Fail> {
    let mut matcher = Matcher::read(alloc, text)?;
    let is_admitted = admits(alloc, &mut matcher, value)?;
    Ok(is_admitted && matcher.value() == value)
}

// Whether a value of 64 KiB is read whole and admits itself.
fn reads_long(alloc: Global, operator: &str) -> Result<bool, Fail> {
    let value = repeated(alloc, "v", 65_536)?;
    let text = text_of(alloc, operator, value.as_str())?;
    is_read_and_admitted(alloc, text.as_str(), value.as_str())
}

#[test]
fn values_of_64_kibibytes(rt: HostRuntime) -> Result<(), Fail> {
    assert!(rt; reads_long(rt.alloc(), "=")?);
    assert!(rt; reads_long(rt.alloc(), "=~")?);
    Ok(())
}
