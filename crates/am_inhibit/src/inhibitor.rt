//! The inhibitor: which targets the alerts that it was given mute.
//!
//! The last alerts of all label sets are kept, also of those that are no source of any rule: contracts
//! see what was taken, whatever the rules are.
//!
//! A sweep moves alerts to lower indexes and needs a number for each, and takes no memory: `take`
//! reserves 16 bytes a label set. `mutes` copies the target's values, since a map can't be asked by
//! borrowed ones here.

ghost use Rattle.std.specs.Prelude.{◌≡◌, ◌<◌, ◌≤◌, false, [], ◌∷◌, ◌++◌, Some, All, map, min, length};
ghost use Rattle.std.specs.Prelude.{IfOk, OnOk, OnErr, vec_capacity};
ghost use Rattle.am_inhibit.specs.Muting.{candidate_inhibits, count_to};
ghost use Rattle.am_alert.specs.Merging.{unresolved};
ghost use Rattle.am_inhibit.specs.LastAlerts.{label_sets};
ghost use Rattle.am_inhibit.specs.inside.Indexes.{IsSourceIndexOf, index_with, indexes_before};
ghost use Rattle.am_inhibit.specs.inside.Indexes.{empty_indexes, rules_indexed};
ghost use Rattle.am_inhibit.specs.inside.Places.{index_swept, new_places};
ghost use Rattle.am_inhibit.specs.inside.Searches.{candidates_from, first_muted, StandsFor};

use crate::source_index::{SourceChange, SourceIndex};
use am_alert::{Alert, Moment};
use am_config::InhibitRules;
use am_keyed::KeyedAlerts;
use am_labels::LabelSet;
use std::alloc::{AllocError, Global};
use std::fmt;
use std::marker::Model;

/// What mutes a target.
#[derive(Clone, Copy)]
pub(crate) struct Muting {
    // The number of the rule.
    rule: usize,
    // The index of the alert among the last alerts.
    at: usize,
}

/// What a search through the rules found.
#[derive(Clone, Copy)]
pub(crate) struct MutingSearch {
    muting: Option<Muting>,
    // How many candidates it examined. The count stops at the greatest u64.
    looked: u64,
}

/// The last alert of each label set, until a sweep drops it, and the rules by which they mute others.
#[derive(Drop)]
pub struct Inhibitor<'r> {
    rules: &'r InhibitRules,
    // One for each rule, in their order.
    indexes: Vec<SourceIndex<'r>>,
    alerts: KeyedAlerts,
    // The new index of each alert in a sweep. It has room for all, so that a sweep takes no memory.
    places: Vec<Option<usize>>,
    looked: u64,
}

impl<'r> Model for Inhibitor<'r> {
    ghost use Rattle.std.specs.Prelude.{◌≡◌};
    ghost use Rattle.am_config.specs.contracts.inhibit_rule.InhibitRule as inhibit_rule;
    ghost use Rattle.am_inhibit.specs.Inhibitors.{InhibitorView, coded_inhibitor};

    ghost Value = { InhibitorView };

    ghost coded = { coded_inhibitor inhibit_rule.the_row.coded };

    ghost use Rattle.std.specs.Prelude.{vec_capacity};
    ghost use Rattle.am_inhibit.specs.inside.Places.{IsIndexed};

    ghost view = { λ i. record { rules = i.rules.now; alerts = i.alerts; looked = i.looked } };

    ghost invariant = { λ i. IsIndexed i.rules.now i.alerts i.indexes.items (vec_capacity i.places) };
}

impl<'r> Inhibitor<'r> {
    ghost use Rattle.std.specs.Prelude.{⊤, slice_get};
    ghost use Rattle.std.specs.Borrow.{sem};
    ghost use Rattle.std.specs.List.{count_by, list_any};
    ghost use Rattle.std.specs.Option.{option_map};
    ghost use Rattle.am_alert.specs.Merging.{is_resolved_at};
    ghost use Rattle.am_inhibit.specs.contracts.inhibitor.Inhibitor.{the_row};
    ghost use mathlib.Core.Option.{none};
    ghost use mir.Syntax.{named};
    ghost use denote.Follow.{follows_so};
    ghost use Rattle.am_labels.specs.LabelSets.{same_labels};
    ghost use Rattle.am_inhibit.specs.Inhibitors.{having_looked};
    ghost use Rattle.am_inhibit.specs.Muting.{candidates_seen, muted};
    ghost use Rattle.am_inhibit.specs.LastAlerts.{label_sets, last_alerts};

    /// An inhibitor without alerts. It borrows the rules, and has its own searches of their patterns:
    /// none is compiled again.
    pub fn new(alloc: Global, rules: &'r InhibitRules) -> Result<Inhibitor<'r>, AllocError>
        ensures { IfOk result (λ made.
            made ≡ record { rules = rules.now; alerts = []; looked = 0 }) }
    {
        Ok(Inhibitor {
            rules,
            indexes: prepare_each(alloc, rules)?,
            alerts: KeyedAlerts::new(alloc),
            places: Vec::new(alloc),
            looked: 0,
        })
    }

    /// Takes an alert, which replaces the last one of its label set. If memory runs out, nothing
    /// changes.
    pub fn take(&mut self, alert: &Alert) -> Result<(), AllocError>
        ensures taken { OnOk result (self.new
            ≡ record self.old { alerts = last_alerts (self.old.alerts ++ alert.now ∷ []) }) }
        ensures err { OnErr result (self.new ≡ self.old) }
    {
        if !self.alerts.contains(&alert.labels) {
            return self.begin(alert);
        }
        let _older = self.alerts.keep(alert)?;
        Ok(())
    }

    /// Whether a target is muted: by which rule, and by the alert of which label set. The lowest rule
    /// answers, and of its sources the one whose label set was taken first since it was last absent. If
    /// memory runs out, nothing changes.
    pub fn mutes(
        &mut self,
        labels: &LabelSet,
        now: Moment,
    ) -> Result<Option<(u64, &LabelSet)>, AllocError>
        ensures* after { sem 𝓛 (follows_so (the_row (record { mir = named 1; lft = [] }))
            (the_row (record { mir = named 1; lft = [] })) self.entry.ghost_name none (λ _ _. ⊤)
            (λ new. OnErr result (new ≡ self.old) × OnOk result (new ≡ having_looked
            (min (candidates_seen self.old.alerts self.old.rules labels.now now) u64.MAX)
            self.old))) }
        ensures muted { IfOk result (λ answer. option_map (λ by. (by.0, by.1.now)) answer
            ≡ muted self.old.alerts self.old.rules labels.now now) }
    {
        let Some(muting) = self.search(labels, now)? else {
            return Ok(None);
        };
        Ok(Some((muting.rule as u64, self.label_set(muting.at))))
    }

    /// Drops each alert that is resolved at a moment, and returns how many they were. It takes no
    /// memory.
    pub fn sweep(&mut self, now: Moment) -> u64
        ensures swept { self.new
            ≡ record self.old { alerts = unresolved now self.old.alerts } }
        ensures dropped { result ≡ count_by (is_resolved_at now) self.old.alerts }
    {
        note_places(&mut self.places, self.alerts.as_slice(), now);
        sweep_all(&mut self.indexes, &self.places);
        self.places.clear();
        self.alerts.remove(&now) as u64
    }

    /// How many sources the last `mutes` examined: those that the rules name for the target and that
    /// agree with it, up to the one that mutes it. The count stops at the greatest u64.
    pub fn looked(&self) -> u64
        ensures { result ≡ self.now.looked }
    {
        self.looked
    }

    // The label set of an alert.
    fn label_set(&self, at: usize) -> &LabelSet
        requires { at < length self.now.alerts }
        ensures { slice_get (label_sets self.now.alerts) at ≡ Some result.now }
    {
        &self.alerts.as_slice()[at].labels
    }

    // Looks for the rule and the alert that mute a target, and notes how many candidates it examined.
    fn search(&mut self, labels: &LabelSet, now: Moment) -> Result<Option<Muting>, AllocError>
        ensures muted { IfOk result (λ muting. StandsFor self.old.alerts muting
            (muted self.old.alerts self.old.rules labels.now now)) }
        ensures looked { OnOk result (self.new ≡ having_looked
            (min (candidates_seen self.old.alerts self.old.rules labels.now now) u64.MAX)
            self.old) }
        ensures err { OnErr result (self.new ≡ self.old) }
    {
        let search = search_all(&mut self.indexes, self.alerts.as_slice(), labels, now)?;
        self.looked = search.looked;
        Ok(search.muting)
    }

    // Takes the first alert of a label set.
    fn begin(&mut self, alert: &Alert) -> Result<(), AllocError>
        requires { list_any (same_labels alert.now.labels) (label_sets self.old.alerts) ≡ false }
        ensures taken { OnOk result (self.new
            ≡ record self.old { alerts = last_alerts (self.old.alerts ++ alert.now ∷ []) }) }
        ensures err { OnErr result (self.new ≡ self.old) }
    {
        let alloc = self.alerts.allocator();
        let at = self.alerts.as_slice().len();
        self.places.reserve(at + 1)?;
        let changes = add_to_all(alloc, &mut self.indexes, &alert.labels, at)?;
        match self.alerts.keep(alert) {
            Ok(_added) => Ok(()),
            Err(error) => {
                undo_all(&mut self.indexes, changes);
                Err(error)
            }
        }
    }
}

// The indexes of rules, without any source.
fn prepare_each<'r>(
    alloc: Global,
    rules: &'r InhibitRules,
) -> Result<Vec<SourceIndex<'r>>, AllocError>
    ensures { IfOk result (λ indexes. indexes.items ≡ empty_indexes rules.now) }
{
    let mut indexes = Vec::with_capacity(alloc, rules.as_slice().len())?;
    for rule in rules.as_slice() {
        indexes.push(SourceIndex::new(alloc, rule)?)?;
    }
    Ok(indexes)
}

// Looks for the lowest rule that mutes a target, and the first of its alerts that does.
fn search_all(
    indexes: &mut [SourceIndex<'_>],
    alerts: &[Alert],
    labels: &LabelSet,
    now: Moment,
) -> Result<MutingSearch, AllocError>
    requires { All (IsSourceIndexOf (label_sets alerts.now)) indexes.old }
    ensures muting { IfOk result (λ search. StandsFor alerts.now search.muting
        (first_muted labels.now now (candidates_from 0 labels.now alerts.now (rules_indexed indexes.old)))) }
    ensures looked { IfOk result (λ search. search.looked ≡ min (count_to
        (candidate_inhibits labels.now now)
        (candidates_from 0 labels.now alerts.now (rules_indexed indexes.old))) u64.MAX) }
    ensures same { indexes.new ≡ indexes.old }
{
    let mut looked = 0u64;
    for rule in 0..indexes.len() {
        let found = indexes[rule].find(labels, alerts, now)?;
        looked = looked.saturating_add(found.looked as u64);
        if let Some(at) = found.at {
            let muting = Some(Muting { rule, at });
            return Ok(MutingSearch { muting, looked });
        }
    }
    Ok(MutingSearch {
        muting: None,
        looked,
    })
}

// Adds a label set to the index of each rule that it is a source of, or to none.
fn add_to_all(
    alloc: Global,
    indexes: &mut [SourceIndex<'_>],
    labels: &LabelSet,
    at: usize,
) -> Result<Vec<SourceChange>, AllocError>
    ensures added { OnOk result (indexes.new ≡ map (index_with at labels.now) indexes.old) }
    ensures undo { IfOk result
        (λ changes. indexes_before changes.items indexes.new ≡ indexes.old) }
    ensures long { IfOk result (λ changes. length changes.items ≡ length indexes.old) }
    ensures err { OnErr result (indexes.new ≡ indexes.old) }
{
    let mut changes = Vec::with_capacity(alloc, indexes.len())?;
    for index in 0..indexes.len() {
        match indexes[index].add(labels, at) {
            Ok(change) => changes.push_reserved(change),
            Err(error) => {
                undo_all(indexes, changes);
                return Err(error);
            }
        }
    }
    Ok(changes)
}

// The new index of each alert in a sweep: that of an unresolved one after those before it.
fn note_places(places: &mut Vec<Option<usize>>, alerts: &[Alert], now: Moment)
    requires { length alerts.now ≤ vec_capacity places.old }
    ensures places { places.new.items ≡ new_places 0 now alerts.now }
    ensures room { vec_capacity places.new ≡ vec_capacity places.old }
{
    places.clear();
    let mut place = 0usize;
    for alert in alerts {
        if alert.resolved_at(now) {
            places.push_reserved(None);
        } else {
            places.push_reserved(Some(place));
            place += 1;
        }
    }
}

// Moves the sources of each rule to the new indexes of their alerts.
fn sweep_all(indexes: &mut [SourceIndex<'_>], places: &[Option<usize>])
    ensures { indexes.new ≡ map (index_swept places.now) indexes.old }
{
    for index in 0..indexes.len() {
        indexes[index].sweep(places);
    }
}

// Undoes the changes of the first indexes.
fn undo_all(indexes: &mut [SourceIndex<'_>], changes: Vec<SourceChange>)
    requires { length changes.items ≤ length indexes.old }
    ensures { indexes.new ≡ indexes_before changes.items indexes.old }
{
    let mut left = changes;
    while let Some(change) = left.pop() {
        indexes[left.len()].undo(change);
    }
}

impl fmt::Debug for Inhibitor<'_> {
    fn fmt<W: fmt::Write>(&self, f: &mut fmt::Formatter<W>) -> fmt::Result {
        f.debug_struct("Inhibitor").finish_non_exhaustive()
    }
}
