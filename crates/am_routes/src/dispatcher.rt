//! The dispatcher: groups alerts by the routes that they match.
//!
//! `take` puts an alert into one group after another; each change keeps the alert that it replaced,
//! so that taking it back needs no memory. Contracts speak of every list of takes and sweeps whose
//! groups it has, and it keeps no list.

ghost use Rattle.std.specs.Prelude.{◌≡◌, [], filter, map, min, not, IfOk, OnOk, OnErr};
ghost use Rattle.std.specs.List.{count_by};
ghost use Rattle.am_routes.specs.Groups.{Take, Sweep, is_empty, removed_alerts};
ghost use Rattle.am_routes.specs.inside.Searches.{node_of, nodes_in};
ghost use Rattle.am_routes.specs.inside.GroupLists.{joined, with_members, without_resolved};
ghost use Rattle.am_routes.specs.Undoing.{all_before, groups_before};
ghost use Rattle.am_routes.specs.inside.GroupMaps.{groups_in, AreKeyedByGroups};

use crate::group::Group;
use crate::matching::{FoundRoute, PreparedTree};
use crate::route_id::RouteId;
use am_alert::{Alert, Moment};
use am_config::RouteTree;
use am_keyed::KeyChange;
use am_labels::LabelSet;
use indexmap::IndexMap;
use std::alloc::{AllocError, Global};
use std::fmt;
use std::marker::Model;

/// What identifies a group.
#[derive(Debug, Drop, PartialEq, Eq, Hash)]
pub(crate) struct GroupKey {
    route: RouteId,
    labels: LabelSet,
}

// Groups by their keys, in the order in which they began.
type GroupMap<'t> = IndexMap<GroupKey, Group<'t>>;

/// What an alert changed in the groups, kept to undo it.
#[derive(Drop)]
pub(crate) enum GroupChange {
    /// It began a group, the last one.
    Begun,
    /// It changed the group at this index.
    Changed(usize, KeyChange<Alert>),
}

/// What an alert that was taken changed, kept to undo it.
#[derive(Drop)]
pub struct Noted {
    changes: Vec<GroupChange>,
}

/// How much a sweep removed.
#[derive(Clone, Copy, Debug, PartialEq, Eq)]
pub struct Swept {
    /// The resolved alerts; one that is in two groups counts twice. The count stops at the greatest
    /// u64.
    pub alerts: u64,
    /// The groups that were left empty.
    pub groups: u64,
}

/// Alerts, grouped by the routes of a tree that they match.
#[derive(Drop)]
pub struct Dispatcher<'t> {
    tree: PreparedTree<'t>,
    groups: GroupMap<'t>,
}

impl<'t> Model for Dispatcher<'t> {
    ghost use Rattle.am_config.specs.contracts.route.Routes as routes;
    ghost use Rattle.am_routes.specs.Groups.{DispatcherView};
    ghost use Rattle.am_routes.specs.inside.DispatcherCodes.{coded_dispatcher};

    ghost Value = { DispatcherView };

    ghost coded = { coded_dispatcher routes.the_row.coded };

    ghost use Rattle.am_routes.specs.inside.GroupMaps.{groups_in, AreKeyedByGroups};

    ghost view = { λ d. record { tree = d.tree; groups = groups_in d.groups.entries } };

    ghost invariant = { λ d. AreKeyedByGroups d.groups.entries };
}

impl<'t> Dispatcher<'t> {
    ghost use Rattle.am_config.specs.RouteLists.{root_of};
    ghost use Rattle.am_routes.specs.Groups.{Follows, removed_alerts, removed_groups};
    ghost use Rattle.am_routes.specs.Undoing.{undone};

    /// A dispatcher without groups. It borrows the tree, and has its own searches of the tree's
    /// patterns: none is compiled again.
    pub fn new(alloc: Global, tree: &'t RouteTree) -> Result<Dispatcher<'t>, AllocError>
        ensures tree { IfOk result (λ made. made.tree ≡ root_of tree.now) }
        ensures groups { IfOk result (λ made. made.groups ≡ []) }
    {
        Ok(Dispatcher {
            tree: PreparedTree::new(alloc, tree)?,
            groups: IndexMap::new(alloc),
        })
    }

    /// Puts an alert into one group of each route that its labels match, where it replaces the last
    /// alert of its label set. If memory runs out, nothing changes.
    pub fn take(&mut self, alert: &Alert) -> Result<(), AllocError>
        ensures taken { OnOk result (Follows (Take alert.now) self.old self.new) }
        ensures err { OnErr result (self.new ≡ self.old) }
    {
        let _noted = self.take_noted(alert)?;
        Ok(())
    }

    /// Takes an alert as `take` does, and returns what `undo` needs to undo it. If memory runs out,
    /// nothing changes.
    pub fn take_noted(&mut self, alert: &Alert) -> Result<Noted, AllocError>
        ensures taken { OnOk result (Follows (Take alert.now) self.old self.new) }
        ensures undo { IfOk result (λ noted. undone noted self.new ≡ self.old) }
        ensures err { OnErr result (self.new ≡ self.old) }
    {
        let found = self.tree.find(&alert.labels)?;
        let changes = join_all(&mut self.groups, &found, alert)?;
        Ok(Noted { changes })
    }

    /// Undoes the last alert that was taken, by what it changed. It takes no memory.
    pub fn undo(&mut self, noted: Noted)
        ensures { self.new ≡ undone noted self.old }
    {
        undo_all(&mut self.groups, noted.changes);
    }

    /// The groups, in the order in which they began.
    pub fn groups(&self) -> &[Group<'t>]
        ensures { result.now ≡ self.now.groups }
    {
        self.groups.values().as_slice()
    }

    /// Removes each alert that is resolved at a moment, and then each group that is left empty.
    pub fn sweep(&mut self, now: Moment) -> Swept
        ensures swept { Follows (Sweep now) self.old self.new }
        ensures alerts { result.alerts ≡ min (removed_alerts now self.old.groups) u64.MAX }
        ensures groups { result.groups ≡ removed_groups now self.old.groups }
    {
        let alerts = remove_resolved(&mut self.groups, now);
        let groups = remove_empty(&mut self.groups);
        Swept { alerts, groups }
    }
}

// Puts an alert into a group of each route, or into none.
fn join_all<'t>(
    groups: &mut GroupMap<'t>,
    found: &[FoundRoute<'t>],
    alert: &Alert,
) -> Result<Vec<GroupChange>, AllocError>
    requires { AreKeyedByGroups groups.old.entries }
    ensures joined { OnOk result (groups_in groups.new.entries
        ≡ with_members (nodes_in found.now) alert.now (groups_in groups.old.entries)) }
    ensures undo { IfOk result (λ changes. all_before changes.items (groups_in groups.new.entries)
        ≡ groups_in groups.old.entries) }
    ensures kept { AreKeyedByGroups groups.new.entries }
    ensures err { OnErr result
        (groups_in groups.new.entries ≡ groups_in groups.old.entries) }
{
    let mut changes = Vec::with_capacity(*groups.allocator(), found.len())?;
    for one in found {
        match join_one(groups, one, alert) {
            Ok(change) => changes.push_reserved(change),
            Err(error) => {
                undo_all(groups, changes);
                return Err(error);
            }
        }
    }
    Ok(changes)
}

// Puts an alert into a group of a route.
fn join_one<'t>(
    groups: &mut GroupMap<'t>,
    found: &FoundRoute<'t>,
    alert: &Alert,
) -> Result<GroupChange, AllocError>
    requires { AreKeyedByGroups groups.old.entries }
    ensures joined { IfOk result (λ _. groups_in groups.new.entries
        ≡ joined (node_of found.now) alert.now (groups_in groups.old.entries)) }
    ensures undo { IfOk result (λ change. groups_before change (groups_in groups.new.entries)
        ≡ groups_in groups.old.entries) }
    ensures kept { AreKeyedByGroups groups.new.entries }
    ensures err { OnErr result
        (groups_in groups.new.entries ≡ groups_in groups.old.entries) }
{
    let alloc = *groups.allocator();
    let labels = found.route.group_by.labels_of(alloc, &alert.labels)?;
    let key = GroupKey {
        route: found.id,
        labels,
    };
    match groups.get_index_of(&key) {
        Some(at) => {
            let change = groups[at].put(alert)?;
            Ok(GroupChange::Changed(at, change))
        }
        None => {
            let group = Group::new(alloc, found, key.labels.copy()?, alert)?;
            groups.insert(key, group)?;
            Ok(GroupChange::Begun)
        }
    }
}

// Undoes changes, the last one first.
fn undo_all(groups: &mut GroupMap<'_>, changes: Vec<GroupChange>)
    requires { AreKeyedByGroups groups.old.entries }
    ensures before { groups_in groups.new.entries
        ≡ all_before changes.items (groups_in groups.old.entries) }
    ensures kept { AreKeyedByGroups groups.new.entries }
{
    let mut left = changes;
    while let Some(change) = left.pop() {
        undo(groups, change);
    }
}

// Undoes the last change.
fn undo(groups: &mut GroupMap<'_>, change: GroupChange)
    requires { AreKeyedByGroups groups.old.entries }
    ensures before { groups_in groups.new.entries
        ≡ groups_before change (groups_in groups.old.entries) }
    ensures kept { AreKeyedByGroups groups.new.entries }
{
    match change {
        GroupChange::Begun => groups.truncate(groups.len().saturating_sub(1)),
        GroupChange::Changed(at, change) => {
            if let Some(group) = groups.get_index_mut(at) {
                group.undo(change);
            }
        }
    }
}

// Removes the resolved alerts from each group, and returns how many they were.
fn remove_resolved(groups: &mut GroupMap<'_>, now: Moment) -> u64
    requires { AreKeyedByGroups groups.old.entries }
    ensures left { groups_in groups.new.entries
        ≡ map (without_resolved now) (groups_in groups.old.entries) }
    ensures removed { result
        ≡ min (removed_alerts now (groups_in groups.old.entries)) u64.MAX }
    ensures kept { AreKeyedByGroups groups.new.entries }
{
    let mut removed = 0u64;
    for at in 0..groups.len() {
        removed = removed.saturating_add(groups[at].remove_resolved(now));
    }
    removed
}

// Removes the groups without an alert, and returns how many they were.
fn remove_empty(groups: &mut GroupMap<'_>) -> u64
    requires { AreKeyedByGroups groups.old.entries }
    ensures left { groups_in groups.new.entries
        ≡ filter (λ group. not (is_empty group.alerts)) (groups_in groups.old.entries) }
    ensures removed { result
        ≡ count_by (λ group. is_empty group.alerts) (groups_in groups.old.entries) }
    ensures kept { AreKeyedByGroups groups.new.entries }
{
    let before = groups.len();
    groups.retain(
        |_key: &GroupKey, group: &mut Group<'_>| -> bool
            ensures { (result ≡ not (is_empty group.old.alerts)) × (group.new ≡ group.old) }
        { !group.is_empty() },
    );
    (before - groups.len()) as u64
}

impl fmt::Debug for Dispatcher<'_> {
    fn fmt<W: fmt::Write>(&self, f: &mut fmt::Formatter<W>) -> fmt::Result {
        f.debug_struct("Dispatcher").finish_non_exhaustive()
    }
}

impl fmt::Debug for Noted {
    fn fmt<W: fmt::Write>(&self, f: &mut fmt::Formatter<W>) -> fmt::Result {
        f.debug_struct("Noted").finish_non_exhaustive()
    }
}
