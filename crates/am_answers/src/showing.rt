//! Printing answers, of which some are shown by the places of known alerts, which is much shorter.

ghost use Rattle.std.specs.Prelude.{◌≡◌, ◌≤◌, ◌<◌, ◌++◌, ◌+◌, ◌∷◌, [], ℕ, List, Option, IfOk, OnOk, drop, flat_map, length, string_bytes};
ghost use Rattle.std.specs.List.{AllZip};
ghost use Rattle.std.specs.Option.{option_copied};
ghost use Rattle.json.specs.Json.{Members};
ghost use Rattle.json.specs.Token.{end_object};
ghost use Rattle.json.specs.Tree.{json_tokens, members_tokens};
ghost use Rattle.am_script.specs.JsonLines.{about_line, object_line, worded};
ghost use Rattle.am_answers.specs.Known.{IsShownAt};
ghost use Rattle.am_answers.specs.Showing.{AnswersArePrinted, CameIsPrinted, about, as_put_members, came_words};
ghost use Rattle.am_answers.specs.Showing.{is_pending, is_place, kept_members, kept_printed, kept_text, run_from, run_members, shown_text};
ghost use Rattle.am_answers.specs.Showing.{whole_text};

use crate::answer::{Answer, write_answers};
use crate::answer_json::{write_count, write_members};
use crate::known::{KnownAlerts, places_of};
use am_labels::{Quoted, Text};
use am_script::{Form, JsonLine};
use std::alloc::{AllocError, Global};
use std::fmt;

/// Writes the answers to the line of this number, in a run that follows or not.
pub fn write_given(
    text: &mut String,
    form: Form,
    number: u64,
    follows: bool,
    known: &KnownAlerts,
    given: &[Answer],
) -> Result<(), AllocError>
    ensures { OnOk result ((printed : List ℕ) × (string_bytes text.new ≡ string_bytes text.old ++ printed)
        × AnswersArePrinted number known.now.entries given.now follows form printed) }
{
    if !follows {
        return write_answers(text, form, number, given);
    }
    match form {
        Form::Text => write_answers(text, form, number, given),
        Form::Json => {
            write_by_place(text, number, None, known, given)?;
            write_count(text, number, given.len() as u64)
        }
    }
}

/// Writes what came for the subscription of a name after the line of this number.
pub fn write_came(
    text: &mut String,
    form: Form,
    number: u64,
    name: &Text,
    known: &KnownAlerts,
    given: &[Answer],
) -> Result<(), AllocError>
    ensures { OnOk result ((came : List ℕ) × (string_bytes text.new ≡ string_bytes text.old ++ came)
        × CameIsPrinted number name.now known.now.entries given.now form came) }
{
    match form {
        Form::Text => write_all_words(text, number, name, given),
        Form::Json => write_by_place(text, number, Some(name), known, given),
    }
}

/// Writes where the alerts of the put in the line of this number went.
pub fn write_kept(
    text: &mut String,
    form: Form,
    number: u64,
    places: &[Option<usize>],
) -> Result<(), AllocError>
    ensures { OnOk result
        (string_bytes text.new ≡ string_bytes text.old ++ kept_printed form number places.now) }
{
    match form {
        Form::Text => Ok(()),
        Form::Json => write_runs(text, number, places),
    }
}

/// Whether an answer says that there is nothing more for now.
pub fn is_pending(answer: &Answer) -> bool
    ensures { result ≡ is_pending answer.now }
{
    matches!(answer, Answer::Pending)
}

fn write_all_words(
    text: &mut String,
    number: u64,
    name: &Text,
    given: &[Answer],
) -> Result<(), AllocError>
    ensures { OnOk result (string_bytes text.new
        ≡ string_bytes text.old ++ flat_map (came_words number name.now) given.now) }
{
    for answer in given {
        write_words(text, number, name, answer)?;
    }
    Ok(())
}

fn write_words(
    text: &mut String,
    number: u64,
    name: &Text,
    answer: &Answer,
) -> Result<(), AllocError>
    ensures { OnOk result
        (string_bytes text.new ≡ string_bytes text.old ++ came_words number name.now answer.now) }
{
    if is_pending(answer) {
        return Ok(());
    }
    let name = Quoted(name.as_str());
    write!(text, "{number} to {name} {answer}\n")?;
    Ok(())
}

fn write_runs(text: &mut String, number: u64, places: &[Option<usize>]) -> Result<(), AllocError>
    ensures { OnOk result
        (string_bytes text.new ≡ string_bytes text.old ++ kept_text number 0 0 places.now) }
{
    let mut before = 0;
    for index in 0..places.len() {
        if before > 0 {
            before -= 1;
        } else {
            before = write_run(text, number, places, index)?;
        }
    }
    Ok(())
}

// Writes the object that the alert at an index begins, if it has a place, and returns how many after it are in it.
fn write_run(
    text: &mut String,
    number: u64,
    places: &[Option<usize>],
    index: usize,
) -> Result<usize, AllocError>
    requires { index < length places.now }
    ensures { IfOk result (λ before. string_bytes text.new
        ++ kept_text number (index + 1) before (drop (index + 1) places.now)
        ≡ string_bytes text.old ++ kept_text number index 0 (drop index places.now)) }
{
    let Some(from) = places[index] else {
        return Ok(0);
    };
    let before = count_run(from, &places[index + 1..]);
    write_kept_run(text, number, index, from, before as u64 + 1)?;
    Ok(before)
}

fn write_kept_run(
    text: &mut String,
    number: u64,
    index: usize,
    from: usize,
    count: u64,
) -> Result<(), AllocError>
    ensures { OnOk result (string_bytes text.new
        ≡ string_bytes text.old ++ object_line (about_line number (kept_members index from count))) }
{
    let mut line = begin_answer(*text.allocator(), number, None, "kept")?;
    line.number("index", index as u64)?;
    add_run(&mut line, from, count)?;
    line.end(text)
}

fn add_run(line: &mut JsonLine, from: usize, count: u64) -> Result<(), AllocError>
    ensures { OnOk result
        (line.new ++ end_object ∷ [] ≡ line.old ++ members_tokens (run_members from count)) }
{
    line.number("from", from as u64)?;
    line.number("count", count)
}

// How many of the first places follow one another after one.
fn count_run(from: usize, places: &[Option<usize>]) -> usize
    ensures run { result ≡ run_from (from + 1) places.now }
    ensures within { result ≤ length places.now }
{
    for index in 0..places.len() {
        if !is_after(from, index, places[index]) {
            return index;
        }
    }
    places.len()
}

// Whether a place comes after `from` and `more` others.
fn is_after(from: usize, more: usize, place: Option<usize>) -> bool
    ensures { result ≡ is_place (from + 1 + more) place }
{
    match place {
        Some(at) => at > from && at - from - 1 == more,
        None => false,
    }
}

// Writes answers, and those whose alerts are known by their places.
fn write_by_place(
    text: &mut String,
    number: u64,
    name: Option<&Text>,
    known: &KnownAlerts,
    given: &[Answer],
) -> Result<(), AllocError>
    ensures { OnOk result ((places : List (Option ℕ)) × AllZip (IsShownAt known.now.entries) given.now places
        × (string_bytes text.new
        ≡ string_bytes text.old ++ shown_text number (option_copied name.entry) 0 given.now places)) }
{
    let places = places_of(*text.allocator(), known, given)?;
    write_shown(text, number, name, given, &places)
}

// Writes answers that are shown at these places, to a line, or of what came for the subscription of a name.
fn write_shown(
    text: &mut String,
    number: u64,
    name: Option<&Text>,
    given: &[Answer],
    places: &[Option<usize>],
) -> Result<(), AllocError>
    requires { length places.now ≡ length given.now }
    ensures { OnOk result (string_bytes text.new
        ≡ string_bytes text.old ++ shown_text number (option_copied name.entry) 0 given.now places.now) }
{
    let mut before = 0;
    for index in 0..given.len() {
        if before > 0 {
            before -= 1;
        } else {
            before = write_from(text, number, name, &given[index], &places[index..])?;
        }
    }
    Ok(())
}

// Writes the object that an answer begins, and returns how many after it are in it. The places are those from its on.
fn write_from(
    text: &mut String,
    number: u64,
    name: Option<&Text>,
    answer: &Answer,
    places: &[Option<usize>],
) -> Result<usize, AllocError>
    requires { 0 < length places.now }
    ensures { IfOk result (λ before. (rest : List Answer) → string_bytes text.new
        ++ shown_text number (option_copied name.entry) before rest (drop 1 places.now)
        ≡ string_bytes text.old ++ shown_text number (option_copied name.entry) 0 (answer.now ∷ rest) places.now) }
{
    match places[0] {
        Some(from) => {
            let before = count_run(from, &places[1..]);
            write_as_put(text, number, name, from, before as u64 + 1)?;
            Ok(before)
        }
        None => {
            write_whole(text, number, name, answer)?;
            Ok(0)
        }
    }
}

fn write_as_put(
    text: &mut String,
    number: u64,
    name: Option<&Text>,
    from: usize,
    count: u64,
) -> Result<(), AllocError>
    ensures { OnOk result (string_bytes text.new ≡ string_bytes text.old
        ++ object_line (about number (option_copied name.entry) (as_put_members from count))) }
{
    let mut line = begin_answer(*text.allocator(), number, name, "as_put")?;
    add_run(&mut line, from, count)?;
    line.end(text)
}

fn write_whole(
    text: &mut String,
    number: u64,
    name: Option<&Text>,
    answer: &Answer,
) -> Result<(), AllocError>
    ensures { OnOk result (string_bytes text.new
        ≡ string_bytes text.old ++ whole_text number (option_copied name.entry) answer.now) }
{
    if name.is_some() && is_pending(answer) {
        return Ok(());
    }
    let mut line = begin(*text.allocator(), number, name)?;
    write_members(&mut line, answer)?;
    line.end(text)
}

// An answer with this word.
fn begin_answer(
    alloc: Global,
    number: u64,
    name: Option<&Text>,
    word: &str,
) -> Result<JsonLine, AllocError>
    ensures { IfOk result (λ line. (members : Members) → line ++ members_tokens members
        ≡ json_tokens (about number (option_copied name.entry) (worded word.now members))) }
{
    let mut line = begin(alloc, number, name)?;
    line.text("answer", word)?;
    Ok(line)
}

// An object about a line, or about what came after it for the subscription of a name.
fn begin(alloc: Global, number: u64, name: Option<&Text>) -> Result<JsonLine, AllocError>
    ensures { IfOk result (λ line. (members : Members)
        → line ++ members_tokens members ≡ json_tokens (about number (option_copied name.entry) members)) }
{
    let mut line = JsonLine::about(alloc, number)?;
    if let Some(name) = name {
        line.text("sub", name.as_str())?;
    }
    Ok(line)
}
