//! The alerts that a run knows, if it follows, so that it shows them by their places.
//!
//! They are those that accepted puts gave since the last collection, so they are no more than what is stored.

ghost use Rattle.std.specs.Prelude.{◌≡◌, ◌↔◌, [], IfOk, IsTrue, OnOk, true};
ghost use Rattle.std.specs.Option.{option_copied};
ghost use Rattle.std.specs.List.{AllZip};
ghost use Rattle.am_answers.specs.Known.{IsShownAt, alert_shown, alerts_put, all_noted, is_collected, is_posted};
ghost use Rattle.am_answers.specs.Known.{known_after, known_on, noted, place_taken, places_after, places_taken};

use crate::answer::Answer;
use am_alert::Alert;
use am_labels::LabelSet;
use am_posts::{PartsFault, UnjudgedAlert};
use am_script::Command;
use indexmap::IndexMap;
use std::alloc::{AllocError, Global};

/// Of each label set the last alert that was put, in the order in which the label sets began.
pub type KnownAlerts = IndexMap<LabelSet, Alert>;

/// Makes room for the alerts of a command, before it is done, in a run that follows.
pub fn make_room(
    known: &mut KnownAlerts,
    follows: bool,
    command: &Command,
) -> Result<(), AllocError>
    ensures { known.new.entries ≡ known.old.entries }
{
    match command {
        Command::Put { at: _, alerts } if follows => known.reserve(alerts.as_slice().len()),
        _ => Ok(()),
    }
}

/// Notes a command that was answered so, in a run that follows or not, and returns where its alerts went.
pub fn note_known(
    alloc: Global,
    known: &mut KnownAlerts,
    follows: bool,
    command: &Command,
    given: &[Answer],
) -> Result<Vec<Option<usize>>, AllocError>
    ensures places { IfOk result (λ places.
        places.items ≡ places_after follows command.now given.now known.old.entries) }
    ensures known { OnOk result
        (known.new.entries ≡ known_after follows command.now given.now known.old.entries) }
{
    keep_on(known, given);
    note_all(alloc, known, alerts_put(follows, command, given))
}

// Forgets all after a collection.
fn keep_on(known: &mut KnownAlerts, given: &[Answer])
    ensures { known.new.entries ≡ known_on given.now known.old.entries }
{
    if is_collected(given) {
        known.clear();
    }
}

// Whether the answers of a collection say that it removed what is resolved.
fn is_collected(given: &[Answer]) -> bool
    ensures { result ≡ is_collected given.now }
{
    match given.first() {
        Some(Answer::Collected(_)) | Some(Answer::Taken(_)) => true,
        _ => false,
    }
}

// Whether the answers of a post or a put say that it was accepted.
fn is_posted(given: &[Answer]) -> bool
    ensures { result ≡ is_posted given.now }
{
    match given.first() {
        Some(Answer::Posted { valid: _, place: _ }) => true,
        _ => false,
    }
}

// The alerts of an accepted put, in a run that follows.
fn alerts_put<'a>(follows: bool, command: &'a Command, given: &[Answer]) -> &'a [UnjudgedAlert]
    ensures { result.now ≡ alerts_put follows command.now given.now }
{
    match command {
        Command::Put { at: _, alerts } if follows && is_posted(given) => alerts.as_slice(),
        _ => &[],
    }
}

// Notes alerts that were put, one after another, and returns the place of each that has no fault.
fn note_all(
    alloc: Global,
    known: &mut KnownAlerts,
    alerts: &[UnjudgedAlert],
) -> Result<Vec<Option<usize>>, AllocError>
    ensures places { IfOk result (λ places.
        places.items ≡ places_taken known.old.entries alerts.now) }
    ensures known { OnOk result (known.new.entries ≡ all_noted known.old.entries alerts.now) }
{
    let mut places = Vec::with_capacity(alloc, alerts.len())?;
    for at in 0..alerts.len() {
        places.push(note_one(known, &alerts[at])?)?;
    }
    Ok(places)
}

fn note_one(known: &mut KnownAlerts, alert: &UnjudgedAlert) -> Result<Option<usize>, AllocError>
    ensures place { IfOk result (λ place. place ≡ place_taken known.old.entries alert.now) }
    ensures known { OnOk result (known.new.entries ≡ noted known.old.entries alert.now) }
{
    match alert.judge() {
        Ok(alert) => {
            let (place, _before) = known.insert_full(alert.labels.copy()?, alert)?;
            Ok(Some(place))
        }
        Err(PartsFault::NoMemory) => Err(AllocError),
        Err(_) => Ok(None),
    }
}

/// The places that answers are shown by.
pub(crate) fn places_of(
    alloc: Global,
    known: &KnownAlerts,
    given: &[Answer],
) -> Result<Vec<Option<usize>>, AllocError>
    ensures { IfOk result (λ places. AllZip (IsShownAt known.now.entries) given.now places.items) }
{
    let mut places = Vec::with_capacity(alloc, given.len())?;
    for at in 0..given.len() {
        places.push(place_of(known, &given[at]))?;
    }
    Ok(places)
}

fn place_of(known: &KnownAlerts, answer: &Answer) -> Option<usize>
    ensures { IsShownAt known.now.entries answer.now result }
{
    let alert = alert_shown(answer)?;
    let (place, _labels, noted) = known.get_full(&alert.labels)?;
    if are_same(noted, alert) {
        Some(place)
    } else {
        None
    }
}

// The alert that an answer shows, if it is an item or a stored alert.
fn alert_shown(answer: &Answer) -> Option<&Alert>
    ensures { option_copied result ≡ alert_shown answer.now }
{
    match answer {
        Answer::Item(alert) | Answer::StoredAlert(alert) => Some(alert),
        _ => None,
    }
}

// Whether two alerts are the same in all their parts.
fn are_same(one: &Alert, other: &Alert) -> bool
    ensures { IsTrue result ↔ (one.now ≡ other.now) }
{
    *one == *other
}
