//! The names of subscriptions as a script's lines subscribe and leave them.
//!
//! A refused subscribe still counts as the name's subscribe: later commands on it print `none`, and its leave
//! frees it.

ghost use Rattle.std.specs.Prelude.{◌≡◌, ◌++◌, ◌∷◌, [], List, if◌then◌else◌, is_none, Some};
ghost use Rattle.std.specs.Prelude.{IfOk, OnErr, OnOk};
ghost use Rattle.std.specs.Bool.{OnFalse, OnTrue};
ghost use Rattle.std.specs.BTreeMap.{get, IsUnchanged, Updates};
ghost use Rattle.am_script.specs.Names.{name_cmp, HoldsNames};
ghost use Rattle.am_script.specs.Kinds.{is_some_dispatch, is_some_inhibit, is_some_notify};
ghost use Rattle.am_script.specs.Script.{has_its_moment, is_well_named};
ghost use Rattle.am_script.specs.inside.Following.{FollowsEach, FollowsLine};

use crate::command::{Command, GivenMoment, Line};
use crate::kind::Kind;
use crate::script::{Fault, ScriptFault, refused};
use crate::thread::Thread;
use am_labels::Text;
use std::alloc::{AllocError, Global};
use std::collections::BTreeMap;

type Names = BTreeMap<(Thread, Text), Kind>;

// Whether the subscription of each line is the right one after the lines before it, or the first fault.
pub(crate) fn follow_each(alloc: Global, lines: &[Line]) -> Result<(), ScriptFault>
    ensures { FollowsEach [] lines.now result }
{
    let mut names = BTreeMap::new(alloc);
    for line in lines {
        follow_line(&mut names, line)?;
    }
    Ok(())
}

// The same of one line. The names then follow it.
fn follow_line(names: &mut Names, line: &Line) -> Result<(), ScriptFault>
    ensures { (earlier : List Line) → HoldsNames names.old earlier
        → FollowsLine earlier line.now result × OnOk result (HoldsNames names.new (earlier ++ line.now ∷ [])) }
{
    if !has_its_moment(names, line)? {
        return refused(line.number, Fault::BadLine);
    }
    if !follow(names, line)? {
        return refused(line.number, Fault::BadName);
    }
    Ok(())
}

// Whether a line's name is the right one. The names then follow the line.
fn follow(names: &mut Names, line: &Line) -> Result<bool, AllocError>
    ensures ok { IfOk result (λ fits. (earlier : List Line) → HoldsNames names.old earlier
        → (fits ≡ is_well_named earlier line.now)
        × HoldsNames names.new (if fits then earlier ++ line.now ∷ [] else earlier)) }
    ensures err { OnErr result
        ((earlier : List Line) → HoldsNames names.old earlier → HoldsNames names.new earlier) }
{
    let thread = line.thread;
    match &line.command {
        Command::Subscribe { name, kind } => subscribe(names, (thread, name.copy()?), *kind),
        Command::Leave { name } => Ok(names.remove(&(thread, name.copy()?)).is_some()),
        Command::Read { name, max: _ } => Ok(names.contains_key(&(thread, name.copy()?))),
        Command::Groups { name, at: _ } | Command::Sweep { name, at: _ } => {
            Ok(has_dispatcher(names, &(thread, name.copy()?)))
        }
        Command::Forget { name, at: _ } | Command::Mutes { name, .. } => {
            Ok(has_inhibitor(names, &(thread, name.copy()?)))
        }
        Command::Post { .. }
        | Command::Put { .. }
        | Command::Collect { .. }
        | Command::Take { .. }
        | Command::Close
        | Command::Trim
        | Command::Compact
        | Command::Stored
        | Command::StoredPage { .. }
        | Command::Get { .. }
        | Command::Routes
        | Command::Route { .. } => Ok(true),
    }
}

// Adds a name that isn't there, and returns whether it wasn't.
fn subscribe(names: &mut Names, name: (Thread, Text), kind: Kind) -> Result<bool, AllocError>
    ensures fits { IfOk result (λ fits. fits ≡ is_none (get name_cmp names.old name)) }
    ensures added { IfOk result
        (λ fits. OnTrue fits (Updates name_cmp names.old names.new name (Some kind))) }
    ensures same { IfOk result (λ fits. OnFalse fits (IsUnchanged names.old names.new)) }
    ensures err { OnErr result (IsUnchanged names.old names.new) }
{
    if names.contains_key(&name) {
        return Ok(false);
    }
    names.insert(name, kind)?;
    Ok(true)
}

// Whether the `at` of `groups` is a moment where it is a member: if the name is subscribed with both consumers.
fn has_its_moment(names: &Names, line: &Line) -> Result<bool, AllocError>
    ensures { IfOk result (λ has. (earlier : List Line) → HoldsNames names.now earlier
        → has ≡ has_its_moment earlier line.now) }
{
    match &line.command {
        Command::Groups {
            name,
            at: GivenMoment::Unread,
        } => Ok(!has_notifier(names, &(line.thread, name.copy()?))),
        _ => Ok(true),
    }
}

// Whether the name is subscribed with a dispatcher.
fn has_dispatcher(names: &Names, name: &(Thread, Text)) -> bool
    ensures { result ≡ is_some_dispatch (get name_cmp names.now name.now) }
{
    match names.get(name) {
        Some(kind) => kind.is_dispatch(),
        None => false,
    }
}

// Whether the name is subscribed with a dispatcher and an inhibitor.
fn has_notifier(names: &Names, name: &(Thread, Text)) -> bool
    ensures { result ≡ is_some_notify (get name_cmp names.now name.now) }
{
    match names.get(name) {
        Some(kind) => kind.is_dispatch() && kind.is_inhibit(),
        None => false,
    }
}

// Whether the name is subscribed with an inhibitor.
fn has_inhibitor(names: &Names, name: &(Thread, Text)) -> bool
    ensures { result ≡ is_some_inhibit (get name_cmp names.now name.now) }
{
    match names.get(name) {
        Some(kind) => kind.is_inhibit(),
        None => false,
    }
}
