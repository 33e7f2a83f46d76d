//! Label sets.

use crate::expectation::expect;
use am_labels::{LabelSet, LabelsFault, PairBuffer};
use std::alloc::{AllocError, Global};
use std::test::Fail;

fn add(pairs: &mut Vec<(String, String)>, name: &str, value: &str) -> Result<(), AllocError> {
    let alloc = *pairs.allocator();
    pairs.push((
        String::from_str(alloc, name)?,
        String::from_str(alloc, value)?,
    ))?;
    Ok(())
}

fn pairs_of(alloc: Global, texts: &[(&str, &str)]) -> Result<Vec<(String, String)>, AllocError> {
    let mut pairs = Vec::new(alloc);
    for (name, value) in texts {
        add(&mut pairs, name, value)?;
    }
    Ok(pairs)
}

fn labels_of(alloc: Global, texts: &[(&str, &str)]) -> Result<LabelSet, AllocError> {
    let pairs = pairs_of(alloc, texts)?;
    LabelSet::from_pairs(alloc, pairs)
}

fn has_last_values(labels: &LabelSet) -> bool {
    labels.len() == 2 && labels.get("b") == "3" && labels.get("c") == ""
}

fn has_names(labels: &LabelSet) -> bool {
    labels.contains_name("a") && !labels.contains_name("")
}

fn is_copied(labels: &LabelSet) -> Result<bool, AllocError> {
    Ok(labels.copy()? == *labels && labels.clone()? == *labels)
}

fn is_printed_as(alloc: Global, labels: &LabelSet, text: &str) -> Result<bool, AllocError> {
    let printed = labels.to_string(alloc)?;
    Ok(printed.as_str() == text)
}

fn read(alloc: Global, text: &str) -> Result<Option<LabelSet>, AllocError> {
    match LabelSet::read(alloc, text) {
        Ok(labels) => Ok(Some(labels)),
        Err(LabelsFault::NoMemory) => Err(AllocError),
        Err(_) => Ok(None),
    }
}

fn is_read_back(alloc: Global, labels: &LabelSet) -> Result<bool, AllocError> {
    let printed = labels.to_string(alloc)?;
    Ok(read(alloc, printed.as_str())?.is_some_and(|read| read == *labels))
}

fn are_the_last(alloc: Global, labels: &LabelSet) -> Result<(), Fail> {
    expect(has_last_values(labels), "other values")?;
    expect(has_names(labels), "other names")?;
    expect(is_copied(labels)?, "the copy differs")?;
    expect(
        is_printed_as(alloc, labels, "{a=\"2\",b=\"3\"}")?,
        "another text",
    )
}

#[test]
fn last_of_two_pairs_holds(rt: HostRuntime) -> Result<(), Fail> {
    let labels = labels_of(rt.alloc(), &[("b", "1"), ("a", "2"), ("b", "3")])?;
    are_the_last(rt.alloc(), &labels)
}

const PRINTED: [&str; 5] = [
    "{}",
    "{a=\"1\"}",
    "{a=\"\",b=\"},{\"}",
    "{\"\"=\"1\",\"a b\"=\"\\\"\\\\\\n\"}",
    "{:=\"\u{e9}\",_1=\"=\",\"\u{e9}\"=\"x\"}",
];

// They hold labels or begin as if they did, but no label set prints so.
const NOT_PRINTED: [&str; 16] = [
    "",
    "{",
    "}",
    "{}}",
    "{ }",
    "{} ",
    "{,}",
    "{a}",
    "{a=1}",
    "{a=\"1}",
    "{a=\"1\",}",
    "{a=\"1\"b=\"2\"}",
    "{a=\"1\",a=\"1\"}",
    "{b=\"1\",a=\"2\"}",
    "{\"a\"=\"1\"}",
    "{a=\"\\x\"}",
];

#[test]
fn printed_label_sets_are_read(rt: HostRuntime) -> Result<(), Fail> {
    let alloc = rt.alloc();
    for text in PRINTED {
        let Some(labels) = read(alloc, text)? else {
            return Err(Fail::from("a printed text is refused"));
        };
        assert!(rt; is_printed_as(alloc, &labels, text)?, "{text}");
    }
    for text in NOT_PRINTED {
        assert!(rt; read(alloc, text)?.is_none(), "{text}");
    }
    Ok(())
}

fn are_in_order(one: &LabelSet, other: &LabelSet) -> bool {
    let none = LabelSet::new();
    *one != *other && *one < *other && none < *one
}

#[test]
fn comparisons(rt: HostRuntime) -> Result<(), Fail> {
    let one = labels_of(rt.alloc(), &[("a", "1")])?;
    let other = labels_of(rt.alloc(), &[("a", "2")])?;
    expect(are_in_order(&one, &other), "another order")
}

// The name of a number, which has a character of two bytes.
fn name_of(alloc: Global, number: u32) -> Result<String, AllocError> {
    format!(in alloc; "\u{e9}{number}")
}

// The value of a number under a mark. Each fifth one is empty.
fn value_of(alloc: Global, mark: &str, number: u32) -> Result<String, AllocError> {
    if number % 5 == 0 {
        Ok(String::new(alloc))
    } else {
        format!(in alloc; "{mark}{number}")
    }
}

// Pairs of `count` numbers, not in the order of their names.
fn fill(alloc: Global, buffer: &mut PairBuffer, count: u32, mark: &str) -> Result<(), AllocError> {
    for number in 0..count {
        let name = name_of(alloc, number)?;
        let value = value_of(alloc, mark, number)?;
        buffer.push(name.as_str(), value.as_str())?;
    }
    Ok(())
}

// Whether each number has its value, and no other name is there.
fn has_values(
    alloc: Global,
    labels: &LabelSet,
    count: u32,
    mark: &str,
) -> Result<bool, AllocError> {
    for number in 0..count {
        let name = name_of(alloc, number)?;
        let value = value_of(alloc, mark, number)?;
        if !labels.contains_name(name.as_str()) || labels.get(name.as_str()) != value.as_str() {
            return Ok(false);
        }
    }
    let other = name_of(alloc, count)?;
    Ok(
        labels.len() as u64 == u64::from(count)
            && !labels.contains_name(other.as_str())
            && !labels.contains_name("")
            && !labels.contains_name("zz"),
    )
}

// Whether the names come in byte order, each once, with their values.
fn come_in_order(labels: &LabelSet) -> bool {
    let mut last = "";
    for (name, value) in labels.names_and_values() {
        if name <= last || labels.get(name) != value {
            return false;
        }
        last = name;
    }
    true
}

// The label set of a buffer that is filled anew.
fn refilled(
    alloc: Global,
    buffer: &mut PairBuffer,
    count: u32,
    mark: &str,
) -> Result<LabelSet, AllocError> {
    buffer.clear();
    fill(alloc, buffer, count, mark)?;
    LabelSet::from_buffer(alloc, buffer)
}

// Whether a label set has what its buffer had, in order, and is copied and read back.
fn is_filled(alloc: Global, labels: &LabelSet, count: u32, mark: &str) -> Result<bool, AllocError> {
    Ok(
        has_values(alloc, labels, count, mark)?
            && come_in_order(labels)
            && is_copied(labels)?
            && is_read_back(alloc, labels)?,
    )
}

// Whether the label set of a buffer comes once more from it, and is another one's only if it has no value that differs.
fn differ(
    alloc: Global,
    buffer: &mut PairBuffer,
    count: u32,
    others: &LabelSet,
) -> Result<bool, AllocError> {
    let labels = refilled(alloc, buffer, count, "value")?;
    let again = LabelSet::from_buffer(alloc, buffer)?;
    let filled = is_filled(alloc, &labels, count, "value")?;
    Ok(filled && labels == again && (labels == *others) == (count < 2))
}

#[test]
fn many_labels_from_one_buffer(rt: HostRuntime) -> Result<(), Fail> {
    let alloc = rt.alloc();
    let mut buffer = PairBuffer::new(alloc);
    for count in [0, 1, 2, 7, 8, 9, 17, 40, 900] {
        let others = refilled(alloc, &mut buffer, count, "another")?;
        assert!(rt; is_filled(alloc, &others, count, "another")?, "{count}");
        assert!(rt; differ(alloc, &mut buffer, count, &others)?, "{count}");
    }
    Ok(())
}
