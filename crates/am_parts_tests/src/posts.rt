//! Reading a post: its limits, and that what is written otherwise is read alike.

use crate::expectation::expect;
use am_alert::{Alert, Moment, Post, PostFault, TimeFault, read_time};
use am_labels::{LabelSet, SharedText, Text};
use am_posts::{PostReader, read_post};
use std::alloc::{AllocError, Global};
use std::test::Fail;
use std::time::Duration;

pub(crate) fn moment(text: &str) -> Result<Moment, Fail> {
    match read_time(text) {
        Ok(Some(moment)) => Ok(moment),
        _ => Err(Fail::from("no time")),
    }
}

fn read(alloc: Global, body: &str) -> Result<Result<Post, PostFault>, Fail> {
    let now = moment("2024-01-01T10:00:00Z")?;
    Ok(read_post(alloc, body.as_bytes(), now, Duration::from_secs(300)))
}

fn repeated(alloc: Global, text: &str, times: usize) -> Result<String, Fail> {
    let mut whole = String::new(alloc);
    for _ in 0..times {
        whole.push_str(text)?;
    }
    Ok(whole)
}

fn nested(alloc: Global, depth: usize) -> Result<String, Fail> {
    let mut body = repeated(alloc, "[", depth)?;
    let ends = repeated(alloc, "]", depth)?;
    body.push_str(ends.as_str())?;
    Ok(body)
}

fn is_refused(alloc: Global, body: &str, fault: PostFault) -> Result<bool, Fail> {
    match read(alloc, body)? {
        Ok(_) => Ok(false),
        Err(found) => Ok(found == fault),
    }
}

fn is_nested_refused(alloc: Global, depth: usize, fault: PostFault) -> Result<bool, Fail> {
    let body = nested(alloc, depth)?;
    is_refused(alloc, body.as_str(), fault)
}

#[test]
fn depth(rt: HostRuntime) -> Result<(), Fail> {
    let alloc = rt.alloc();
    expect(
        is_nested_refused(alloc, 200, PostFault::NotJson)?,
        "200 are read",
    )?;
    expect(
        is_nested_refused(alloc, 100, PostFault::BadMember(0))?,
        "100 aren't read",
    )
}

// Whether a post is read, with `valid` valid alerts and `faults` faults.
fn is_read(alloc: Global, body: &str, valid: usize, faults: usize) -> Result<bool, Fail> {
    match read(alloc, body)? {
        Ok(post) => Ok(
            post.valid.as_slice().len() == valid && post.faults.as_slice().len() == faults,
        ),
        Err(_) => Ok(false),
    }
}

// 4,194,302 blanks and what follows them.
fn blanks_and(alloc: Global, end: &str) -> Result<String, Fail> {
    let mut body = repeated(alloc, " ", 4_194_302)?;
    body.push_str(end)?;
    Ok(body)
}

fn is_read_behind_blanks(alloc: Global) -> Result<bool, Fail> {
    let body = blanks_and(alloc, "[]")?;
    is_read(alloc, body.as_str(), 0, 0)
}

fn is_too_much_behind_blanks(alloc: Global) -> Result<bool, Fail> {
    let body = blanks_and(alloc, "[] ")?;
    is_refused(alloc, body.as_str(), PostFault::TooMany)
}

#[test]
fn number_of_bytes(rt: HostRuntime) -> Result<(), Fail> {
    expect(is_read_behind_blanks(rt.alloc())?, "the most are refused")?;
    expect(is_too_much_behind_blanks(rt.alloc())?, "one more is read")
}

// An alert with a label, 1,023 without, and what follows them.
fn alerts_and(alloc: Global, end: &str) -> Result<String, Fail> {
    let mut body = repeated(alloc, "[{\"labels\":{\"a\":\"1\"}}", 1)?;
    body.push_str(repeated(alloc, ",{\"labels\":{}}", 1_023)?.as_str())?;
    body.push_str(end)?;
    Ok(body)
}

fn are_all_read(alloc: Global) -> Result<bool, Fail> {
    let body = alerts_and(alloc, "]")?;
    is_read(alloc, body.as_str(), 1, 1_023)
}

fn is_one_too_many(alloc: Global) -> Result<bool, Fail> {
    let body = alerts_and(alloc, ",1]")?;
    is_refused(alloc, body.as_str(), PostFault::TooMany)
}

#[test]
fn number_of_alerts(rt: HostRuntime) -> Result<(), Fail> {
    expect(are_all_read(rt.alloc())?, "other alerts or faults")?;
    expect(is_one_too_many(rt.alloc())?, "one more is read")
}

fn is_on_day(moment: Moment, year: u16, month: u8, day: u8) -> bool {
    let parts = moment.parts();
    parts.year == year && parts.month == month && parts.day == day
}

fn is_at_time(moment: Moment, hour: u8, minute: u8, second: u8, nanosecond: u32) -> bool {
    let parts = moment.parts();
    parts.hour == hour
        && parts.minute == minute
        && parts.second == second
        && parts.nanosecond == nanosecond
}

fn is_absent(text: &str) -> bool {
    matches!(read_time(text), Ok(None))
}

#[test]
fn times(rt: HostRuntime) -> Result<(), Fail> {
    let leap_day = moment("2024-02-29T01:02:03.000000004Z")?;
    assert!(rt; is_on_day(leap_day, 2024, 2, 29));
    assert!(rt; is_at_time(leap_day, 1, 2, 3, 4));
    assert!(rt; is_absent(""));
    assert!(rt; is_absent("0001-01-01T00:00:00Z"));
    assert!(rt; matches!(read_time("0000-12-31T23:59:59Z"), Err(TimeFault::BadTime)));
    Ok(())
}

// The body with its bytes `#` replaced by 0xff, which no UTF-8 has.
fn read_broken(alloc: Global, body: &str) -> Result<Result<Post, PostFault>, Fail> {
    let mut bytes = Vec::new(alloc);
    for byte in body.as_bytes() {
        bytes.push(if *byte == b'#' { 0xff } else { *byte })?;
    }
    let now = moment("2024-01-01T10:00:00Z")?;
    Ok(read_post(alloc, &bytes, now, Duration::from_secs(300)))
}

#[test]
fn bytes_that_are_not_utf8(rt: HostRuntime) -> Result<(), Fail> {
    let alloc = rt.alloc();
    for body in [
        "#",
        "\"#\"",
        "[\"#\"]",
        "[{\"labels\":{\"a\":\"#\"}}]",
        "[{\"labels\":{\"a\":\"1\"},\"ignored\":\"#\"}]",
        "[{\"#\":1,\"labels\":{\"a\":\"1\"}}]",
        "[{\"labels\":{\"a\":\"1\"}}]#",
    ] {
        assert!(rt;
            matches!(read_broken(alloc, body)?, Err(PostFault::NotJson)),
            "{body}"
        );
    }
    assert!(rt; matches!(read(alloc, "")?, Err(PostFault::NotJson)));
    Ok(())
}

#[test]
fn last_moment(rt: HostRuntime) -> Result<(), Fail> {
    let last = Moment::MAX;
    assert_eq!(rt;
        last.to_string(rt.alloc())?.as_str(),
        "9999-12-30T22:00:00.999999999Z"
    );
    assert!(rt; Moment::try_new(last.nanoseconds()) == Some(last));
    assert!(rt; Moment::try_new(last.nanoseconds() + 1).is_none());
    Ok(())
}

// Bodies of one alert: as clients write it, with its members in another order and characters escaped, and then
// with names out of order, with a label twice, with null for a member, with a member that isn't a text, and
// with all of these.
const WRITINGS: [&str; 7] = [
    "[{\"labels\":{\"a\":\"1\",\"b\":\"2\"},\"annotations\":{\"n\":\"\"},\"startsAt\":\"2024-01-01T09:00:00Z\"}]",
    "[ {\"x\":\"y\",\"startsAt\":\"2024-01-01T09:00:00Z\",\"annotations\":{\"n\":\"\"},\
     \"labels\":{\"\\u0061\":\"\\u0031\",\"b\":\"2\",\"c\":\"\"}} ] ",
    "[{\"labels\":{\"b\":\"2\",\"a\":\"1\"},\"annotations\":{\"n\":\"\"},\"startsAt\":\"2024-01-01T09:00:00Z\"}]",
    "[{\"labels\":{\"a\":\"0\",\"a\":\"1\",\"b\":\"2\"},\"annotations\":{\"n\":\"\"},\"startsAt\":\"2024-01-01T09:00:00Z\"}]",
    "[{\"labels\":{\"a\":\"1\",\"b\":\"2\"},\"annotations\":{\"n\":\"\"},\"startsAt\":\"2024-01-01T09:00:00Z\",\"endsAt\":null}]",
    "[{\"labels\":{\"a\":\"1\",\"b\":\"2\"},\"annotations\":{\"n\":\"\"},\"startsAt\":\"2024-01-01T09:00:00Z\",\"x\":[1.5]}]",
    "[{\"x\":{},\"endsAt\":null,\"labels\":{\"z\":\"1\"},\"annotations\":{\"n\":\"\"},\"startsAt\":\"2024-01-01T09:00:00Z\",\
     \"labels\":{\"b\":\"2\",\"a\":\"0\",\"a\":\"1\"}}]",
];

// Whether a body has this alert alone.
fn is_alert(alloc: Global, body: &str, alert: &Alert) -> Result<bool, Fail> {
    match read(alloc, body)? {
        Ok(post) => match post.valid.as_slice() {
            [only] => Ok(*only == *alert && post.faults.as_slice().is_empty()),
            _ => Ok(false),
        },
        Err(_) => Ok(false),
    }
}

fn pair(alloc: Global, name: &str, value: &str) -> Result<(Text, Text), AllocError> {
    Ok((Text::from_str(alloc, name)?, Text::from_str(alloc, value)?))
}

fn two_labels(alloc: Global) -> Result<LabelSet, AllocError> {
    let mut pairs = Vec::new(alloc);
    pairs.push(pair(alloc, "a", "1")?)?;
    pairs.push(pair(alloc, "b", "2")?)?;
    LabelSet::from_texts(alloc, pairs)
}

fn empty_note(alloc: Global) -> Result<LabelSet, AllocError> {
    let mut pairs = Vec::new(alloc);
    pairs.push(pair(alloc, "n", "")?)?;
    LabelSet::from_texts(alloc, pairs)
}

// The alert that the bodies have.
fn written(alloc: Global) -> Result<Alert, Fail> {
    Ok(Alert {
        start: moment("2024-01-01T09:00:00Z")?,
        end: moment("2024-01-01T10:05:00Z")?,
        updated: moment("2024-01-01T10:00:00Z")?,
        timeout: true,
        generator: SharedText::new(),
        labels: two_labels(alloc)?,
        annotations: empty_note(alloc)?,
    })
}

#[test]
fn writings_of_one_alert(rt: HostRuntime) -> Result<(), Fail> {
    let alloc = rt.alloc();
    let alert = written(alloc)?;
    for body in WRITINGS {
        assert!(rt; is_alert(alloc, body, &alert)?, "{body}");
    }
    Ok(())
}

// An alert with a label, 1,023 without, and what follows them, as no client writes it: it is read as a value.
fn other_alerts_and(alloc: Global, end: &str) -> Result<String, Fail> {
    let mut body = repeated(alloc, "[{\"endsAt\":null,\"labels\":{\"a\":\"1\"}}", 1)?;
    body.push_str(repeated(alloc, ",{\"labels\":{}}", 1_023)?.as_str())?;
    body.push_str(end)?;
    Ok(body)
}

fn are_all_others_read(alloc: Global) -> Result<bool, Fail> {
    let body = other_alerts_and(alloc, "]")?;
    is_read(alloc, body.as_str(), 1, 1_023)
}

fn is_one_other_too_many(alloc: Global) -> Result<bool, Fail> {
    let body = other_alerts_and(alloc, ",{\"labels\":{}}]")?;
    is_refused(alloc, body.as_str(), PostFault::TooMany)
}

#[test]
fn number_of_alerts_read_as_a_value(rt: HostRuntime) -> Result<(), Fail> {
    expect(are_all_others_read(rt.alloc())?, "other alerts or faults")?;
    expect(is_one_other_too_many(rt.alloc())?, "one more is read")
}

// Whether a reader that read other posts before answers what a new one does.
fn is_read_alike(alloc: Global, reader: &mut PostReader, body: &str) -> Result<bool, Fail> {
    let now = moment("2024-01-01T10:00:00Z")?;
    let kept = reader.read(body.as_bytes(), now, Duration::from_secs(300));
    Ok(match (kept, read(alloc, body)?) {
        (Ok(kept), Ok(new)) => {
            kept.valid.as_slice() == new.valid.as_slice()
                && kept.faults.as_slice().len() == new.faults.as_slice().len()
        }
        (Err(kept), Err(new)) => kept == new,
        _ => false,
    })
}

// Bodies that are refused, and an empty one.
const REFUSED: [&str; 5] = [
    "",
    "[]",
    "[{\"labels\":{\"a\":\"1\"}",
    "[{\"labels\":{\"a\":\"1\"}},{\"labels\":{\"a\":1}}]",
    "[{\"labels\":{\"a\":\"1\",\"b\":\"\"},\"startsAt\":\"2024-01-01T11:00:00Z\"}]",
];

#[test]
fn one_reader_reads_post_after_post(rt: HostRuntime) -> Result<(), Fail> {
    let alloc = rt.alloc();
    let most = alerts_and(alloc, "]")?;
    let mut reader = PostReader::new(alloc);
    for body in WRITINGS {
        assert!(rt; is_read_alike(alloc, &mut reader, body)?, "{body}");
        for refused in REFUSED {
            assert!(rt; is_read_alike(alloc, &mut reader, refused)?, "{refused}");
        }
    }
    assert!(rt; is_read_alike(alloc, &mut reader, most.as_str())?);
    assert!(rt; is_alert(alloc, WRITINGS[0], &written(alloc)?)?);
    Ok(())
}
