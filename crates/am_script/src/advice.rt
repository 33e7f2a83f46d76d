//! What is printed of a script that is refused: which member of the line it is, and what is wanted there.
//!
//! The output has the line's number and its fault, and that is what contracts speak of. This is for the error stream.

use crate::command::{GivenMoment, LineFault, Verb};
use crate::limits::{LONGEST_LINE, MOST_LINES};
use crate::members::{
    from_at, given_moment_at, kind_at, labels_at, max_at, moment_at, name_at, thread_at, verb_at,
};
use crate::put_reader::alerts_at;
use crate::script::{Fault, Refusal};
use serde_json::Value;
use std::alloc::{AllocError, Global};

// A member of a command.
#[derive(Clone, Copy)]
enum Member {
    Thread,
    Verb,
    At,
    GivenAt,
    Body,
    Alerts,
    Name,
    Kind,
    From,
    Max,
    Labels,
}

impl Member {
    fn word(self) -> &'static str {
        match self {
            Member::Thread => "thread",
            Member::Verb => "do",
            Member::At | Member::GivenAt => "at",
            Member::Body => "body",
            Member::Alerts => "alerts",
            Member::Name => "sub",
            Member::Kind => "kind",
            Member::From => "from",
            Member::Max => "max",
            Member::Labels => "labels",
        }
    }

    // What it has to be.
    fn wanted(self) -> &'static str {
        match self {
            Member::Thread => "a whole number from 0 to 7",
            Member::Verb => "the word of a command, as ./replay --help lists them",
            Member::At | Member::GivenAt => "a moment, as \"2024-01-01T10:00:00Z\"",
            Member::Body => "a post's body: an array of alerts, or a text",
            Member::Alerts => "an array of alerts with their moments, as --json prints them",
            Member::Name => "the name of a subscription, a text that isn't empty",
            Member::Kind => "\"plain\", \"dispatch\", \"inhibit\" or \"notify\"",
            Member::From => "a whole number from 0 to 4294967295",
            Member::Max => "a whole number from 1 to 65536",
            Member::Labels => "an object of texts",
        }
    }

    // Whether it is read.
    fn is_read(self, alloc: Global, value: &Value) -> Result<(), LineFault> {
        match self {
            Member::Thread => thread_at(value).map(drop),
            Member::Verb => verb_at(value).map(drop),
            Member::At => moment_at(value, "at").map(drop),
            Member::GivenAt => match given_moment_at(value)? {
                GivenMoment::Absent | GivenMoment::At(_) => Ok(()),
                GivenMoment::Unread => Err(LineFault::BadLine),
            },
            Member::Body => match value.get("body") {
                Some(_) => Ok(()),
                None => Err(LineFault::BadLine),
            },
            Member::Alerts => alerts_at(alloc, value.clone()?).map(drop),
            Member::Name => name_at(alloc, value).map(drop),
            Member::Kind => kind_at(value).map(drop),
            Member::From => from_at(value).map(drop),
            Member::Max => max_at(value).map(drop),
            Member::Labels => labels_at(alloc, value).map(drop),
        }
    }
}

// The members of a command, in the order in which they are read.
fn members_of(verb: Verb) -> &'static [Member] {
    match verb {
        Verb::Post => &[Member::At, Member::Body],
        Verb::Put => &[Member::At, Member::Alerts],
        Verb::Subscribe => &[Member::Name, Member::Kind],
        Verb::Read => &[Member::Name, Member::Max],
        Verb::Leave => &[Member::Name],
        Verb::Groups => &[Member::Name, Member::GivenAt],
        Verb::Collect | Verb::Take => &[Member::At],
        Verb::Sweep | Verb::Forget => &[Member::Name, Member::At],
        Verb::Mutes => &[Member::Name, Member::At, Member::Labels],
        Verb::Get | Verb::Route => &[Member::Labels],
        // One without `max` isn't refused.
        Verb::Stored => &[Member::From, Member::Max],
        Verb::Close | Verb::Trim | Verb::Compact | Verb::Routes => &[],
    }
}

/// A line about the first faulty line of a script's text.
pub fn script_advice(alloc: Global, text: &[u8], refusal: Refusal) -> Result<String, AllocError> {
    let number = refusal.number;
    match refusal.fault {
        Fault::TooLarge if number > MOST_LINES => {
            format!(in alloc; "replay: line {number}: a script has at most {MOST_LINES} lines\n")
        }
        Fault::TooLarge => {
            format!(in alloc; "replay: line {number}: a line has at most {LONGEST_LINE} bytes\n")
        }
        Fault::BadName => name_advice(alloc, number, line_at(text, number)),
        Fault::BadLine => line_advice(alloc, number, line_at(text, number)),
    }
}

// The line of that number.
fn line_at(text: &[u8], number: u32) -> &[u8] {
    let mut lines = text.split(|byte| *byte == b'\n');
    for _ in 1..number {
        lines.next();
    }
    lines.next().unwrap_or(&[])
}

fn name_advice(alloc: Global, number: u32, line: &[u8]) -> Result<String, AllocError> {
    let told = name_words(alloc, line);
    format!(in alloc; "replay: line {number}: {told}\n")
}

fn name_words(alloc: Global, line: &[u8]) -> &'static str {
    let subscribes = match Value::from_slice(alloc, line) {
        Ok(value) => matches!(verb_at(&value), Ok(Verb::Subscribe)),
        Err(_) => false,
    };
    if subscribes {
        "its thread has a subscription of that name open already"
    } else {
        "its thread has no open subscription of that name and of the kind that it needs"
    }
}

fn line_advice(alloc: Global, number: u32, line: &[u8]) -> Result<String, AllocError> {
    match Value::from_slice(alloc, line) {
        Ok(value) if value.is_object() => member_advice(alloc, number, &value),
        _ => format!(in alloc; "replay: line {number}: a command is a JSON object on one line\n"),
    }
}

fn member_advice(alloc: Global, number: u32, value: &Value) -> Result<String, AllocError> {
    for member in [Member::Thread, Member::Verb] {
        if member.is_read(alloc, value).is_err() {
            return told_of(alloc, number, value, member);
        }
    }
    if let Ok(verb) = verb_at(value) {
        for member in members_of(verb) {
            if member.is_read(alloc, value).is_err() {
                return told_of(alloc, number, value, *member);
            }
        }
    }
    format!(in alloc; "replay: line {number}: it can't be read as a command\n")
}

// What is wrong with a member.
fn told_of(
    alloc: Global,
    number: u32,
    value: &Value,
    member: Member,
) -> Result<String, AllocError> {
    let word = member.word();
    let wanted = member.wanted();
    match value.get(word) {
        None => format!(in alloc;
            "replay: line {number}: \"{word}\" is missing: it has to be {wanted}\n"
        ),
        Some(given) => match given.as_str() {
            Some(text) if has_no_offset(text) => {
                format!(in alloc;
                    "replay: line {number}: \"{word}\": \"{text}\" has no offset: it has to be {wanted}\n"
                )
            }
            _ => format!(in alloc; "replay: line {number}: \"{word}\" has to be {wanted}\n"),
        },
    }
}

// Whether a text is like a moment that ends in its digits of a second.
fn has_no_offset(text: &str) -> bool {
    match text.split_once('T') {
        Some((_, time)) => {
            time.contains(':')
                && time
                    .chars()
                    .all(|it| it.is_ascii_digit() || it == ':' || it == '.')
        }
        None => false,
    }
}

/// A line about a first line that is no configuration, where it looks like something else.
pub fn config_advice(alloc: Global, line: &[u8]) -> Result<String, AllocError> {
    let told = config_words(alloc, line);
    format!(in alloc; "replay: line 1: {told}\n")
}

fn config_words(alloc: Global, line: &[u8]) -> &'static str {
    if line.starts_with(b"\xef\xbb\xbf") {
        return "the file begins with a byte order mark; save it without";
    }
    let Ok(value) = Value::from_slice(alloc, line) else {
        return if line.starts_with(b"{") {
            "the first line is the configuration, a JSON object on one line"
        } else {
            "the first line is the configuration, a JSON object; tools/from-alertmanager writes it from an alertmanager.yml"
        };
    };
    if value.is_array() {
        "this looks like a post's body; the first line is the configuration"
    } else if value.get("do").is_some() {
        "this looks like a command; the first line is the configuration"
    } else {
        "the first line is the configuration, a JSON object; docs/FORMATS.md has its members"
    }
}
