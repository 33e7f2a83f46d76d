//! The members of a line: what each has to be.
//!
//! `thread` and `max` are JSON integers: `1.0` and `1e0` are P1, and so is `null` for `kind` or
//! `max`.

ghost use Rattle.std.specs.Prelude.{◌≡◌, ◌≤◌, IfOk, option_map};
ghost use Rattle.serde_json.specs.Find.{get, get_member};
ghost use Rattle.serde_json.specs.View.{view, members_view};
ghost use Rattle.am_script.specs.Commands.{from_of, kind_of, labels_at, max_of, name_of, number_member};
ghost use Rattle.am_script.specs.Commands.{given_moment_of, label_set_of, thread_of, verb_at, verb_of};
ghost use Rattle.am_script.specs.Commands.{IsReadAs};
ghost use Rattle.am_script.specs.Members.{moment_at, text_member};
ghost use Rattle.am_script.specs.Kinds.{kind_named};

use crate::command::{GivenMoment, LineFault, Verb};
use crate::kind::Kind;
use crate::thread::Thread;
use am_alert::{Moment, TimeFault, read_time};
use am_labels::{LabelSet, Text};
use serde_json::{Map, Value};
use std::alloc::{AllocError, Global};

pub(crate) fn thread_at(value: &Value) -> Result<Thread, LineFault>
    ensures { IsReadAs result (thread_of (view value.now)) }
{
    Ok(Thread::new(number_member(value, "thread", 0, 7)?))
}

// The greatest number of calls of `next` that a read makes, or of alerts that a page has.
pub(crate) fn max_at(value: &Value) -> Result<u32, LineFault>
    ensures { IsReadAs result (max_of (view value.now)) }
{
    match value.get("max") {
        Some(_) => number_member(value, "max", 1, 65_536),
        None => Ok(1),
    }
}

// The index of the first alert of a page.
pub(crate) fn from_at(value: &Value) -> Result<u32, LineFault>
    ensures { IsReadAs result (from_of (view value.now)) }
{
    match value.get("from") {
        Some(_) => number_member(value, "from", 0, u32::MAX),
        None => Ok(0),
    }
}

pub(crate) fn verb_at(value: &Value) -> Result<Verb, LineFault>
    ensures { IsReadAs result (verb_at (view value.now)) }
{
    let Some(text) = text_member(value, "do") else {
        return Err(LineFault::BadLine);
    };
    match verb_of(text) {
        Some(verb) => Ok(verb),
        None => Err(LineFault::BadLine),
    }
}

pub(crate) fn verb_of(text: &str) -> Option<Verb>
    ensures { result ≡ verb_of text.now }
{
    match text {
        "post" => Some(Verb::Post),
        "put" => Some(Verb::Put),
        "subscribe" => Some(Verb::Subscribe),
        "read" => Some(Verb::Read),
        "leave" => Some(Verb::Leave),
        "collect" => Some(Verb::Collect),
        "take" => Some(Verb::Take),
        "close" => Some(Verb::Close),
        "trim" => Some(Verb::Trim),
        "compact" => Some(Verb::Compact),
        "groups" => Some(Verb::Groups),
        "sweep" => Some(Verb::Sweep),
        "forget" => Some(Verb::Forget),
        "mutes" => Some(Verb::Mutes),
        "stored" => Some(Verb::Stored),
        "get" => Some(Verb::Get),
        "routes" => Some(Verb::Routes),
        "route" => Some(Verb::Route),
        _ => None,
    }
}

// The kind of a subscription: plain, if it is absent.
pub(crate) fn kind_at(value: &Value) -> Result<Kind, LineFault>
    ensures { IsReadAs result (kind_of (view value.now)) }
{
    let Some(member) = value.get("kind") else {
        return Ok(Kind::Plain);
    };
    let Some(word) = member.as_str() else {
        return Err(LineFault::BadLine);
    };
    match kind_named(word) {
        Some(kind) => Ok(kind),
        None => Err(LineFault::BadLine),
    }
}

fn kind_named(word: &str) -> Option<Kind>
    ensures { result ≡ kind_named word.now }
{
    if word == "plain" {
        Some(Kind::Plain)
    } else if word == "dispatch" {
        Some(Kind::Dispatch)
    } else if word == "inhibit" {
        Some(Kind::Inhibit)
    } else if word == "notify" {
        Some(Kind::Notify)
    } else {
        None
    }
}

/// A member, taken out of its line.
pub(crate) fn take_member(value: Value, name: &str) -> Option<Value>
    ensures { option_map view result ≡ get name.now (view value) }
{
    match value {
        Value::Object(members) => member(members, name),
        _ => None,
    }
}

fn member(members: Map<String, Value>, name: &str) -> Option<Value>
    ensures { option_map view result ≡ get_member name.now (members_view members.entries) }
{
    let mut members = members;
    members.remove(name)
}

// A member that is a text.
fn text_member<'v>(value: &'v Value, name: &str) -> Option<&'v str>
    ensures { option_map (λ text. text.now) result ≡ text_member name.now (view value.now) }
{
    value.get(name)?.as_str()
}

// A member that is a whole number from low to high.
fn number_member(value: &Value, name: &str, low: u32, high: u32) -> Result<u32, LineFault>
    ensures read { IsReadAs result (number_member name.now low high (view value.now)) }
    ensures bound { IfOk result (λ number. number ≤ high) }
{
    let Some(member) = value.get(name) else {
        return Err(LineFault::BadLine);
    };
    match member.as_u64() {
        Some(number) if u64::from(low) <= number && number <= u64::from(high) => Ok(number as u32),
        _ => Err(LineFault::BadLine),
    }
}

// The moment of a member, which isn't absent.
pub(crate) fn moment_at(value: &Value, name: &str) -> Result<Moment, LineFault>
    ensures { IsReadAs result (moment_at name.now (view value.now)) }
{
    let Some(text) = text_member(value, name) else {
        return Err(LineFault::BadLine);
    };
    match read_time(text) {
        Ok(Some(moment)) => Ok(moment),
        Err(TimeFault::NoMemory) => Err(LineFault::NoMemory),
        Ok(None) | Err(_) => Err(LineFault::BadLine),
    }
}

// What `at` is, if there is that member.
pub(crate) fn given_moment_at(value: &Value) -> Result<GivenMoment, AllocError>
    ensures { IfOk result (λ at. at ≡ given_moment_of (view value.now)) }
{
    if value.get("at").is_none() {
        return Ok(GivenMoment::Absent);
    }
    match moment_at(value, "at") {
        Ok(moment) => Ok(GivenMoment::At(moment)),
        Err(LineFault::BadLine) => Ok(GivenMoment::Unread),
        Err(LineFault::NoMemory) => Err(AllocError),
    }
}

// The name in `sub`, which isn't empty.
pub(crate) fn name_at(alloc: Global, value: &Value) -> Result<Text, LineFault>
    ensures { IsReadAs result (name_of (view value.now)) }
{
    match text_member(value, "sub") {
        Some(name) if !name.is_empty() => Ok(Text::from_str(alloc, name)?),
        _ => Err(LineFault::BadLine),
    }
}

// The label set in `labels`, made as an alert's is.
pub(crate) fn labels_at(alloc: Global, value: &Value) -> Result<LabelSet, LineFault>
    ensures { IsReadAs result (labels_at (view value.now)) }
{
    let Some(member) = value.get("labels") else {
        return Err(LineFault::BadLine);
    };
    match member.as_object() {
        Some(members) => label_set_of(alloc, members),
        None => Err(LineFault::BadLine),
    }
}

fn label_set_of(alloc: Global, members: &Map<String, Value>) -> Result<LabelSet, LineFault>
    ensures { IsReadAs result (label_set_of (members_view members.now.entries)) }
{
    let mut pairs = Vec::new(alloc);
    for (name, member) in members.iter() {
        let Some(text) = member.as_str() else {
            return Err(LineFault::BadLine);
        };
        if !text.is_empty() {
            pairs.push((Text::from_str(alloc, name)?, Text::from_str(alloc, text)?))?;
        }
    }
    Ok(LabelSet::from_texts(alloc, pairs)?)
}
