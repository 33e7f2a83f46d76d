//! How the sources of a target are found.
//!
//! A label set is kept as the place of its last alert, with whether it matches the target side too. Neither
//! changes while the label set stays, so an alert taken again changes no index.

ghost use Rattle.std.specs.Prelude.{◌≡◌, ◌<◌, ◌&&◌, [], not, All, filter, length, IfSome, IfOk, OnOk, OnErr};
ghost use Rattle.am_alert.specs.Merging.{is_resolved_at};
ghost use Rattle.std.specs.List.{find, slice_get};
ghost use Rattle.std.specs.Option.{option_and_then, option_map};
ghost use Rattle.am_inhibit.specs.Muting.{count_to, inhibits, is_candidate};
ghost use Rattle.am_inhibit.specs.LastAlerts.{label_sets};
ghost use Rattle.am_inhibit.specs.inside.Indexes.{IsSourceIndexOf, empty_index, index_with, index_before};
ghost use Rattle.am_inhibit.specs.inside.Indexes.{entries_before, source_inhibits, with_source};
ghost use Rattle.am_inhibit.specs.inside.Places.{has_no_sources, index_swept, moved_sources};

use crate::equal_values::EqualValues;
use crate::source::{Source, Sources};
use am_alert::{Alert, Moment};
use am_config::{InhibitRule, LabelNames};
use am_labels::LabelSet;
use am_matchers::PreparedMatchers;
use indexmap::IndexMap;
use std::alloc::{AllocError, Global};
use std::marker::Model;

// Sources by the values that they have for the names of `equal`.
type SourceMap = IndexMap<EqualValues, Sources>;

/// A rule with its searches, and its sources by the values that a target must share.
#[derive(Drop)]
pub(crate) struct SourceIndex<'r> {
    source: PreparedMatchers<'r>,
    target: PreparedMatchers<'r>,
    equal: &'r LabelNames,
    sources: SourceMap,
}

/// What a label set changed in an index, kept to undo it.
#[derive(Clone, Copy)]
pub(crate) enum SourceChange {
    /// It is no source of the rule.
    Nothing,
    /// It began its values, the last ones.
    Begun,
    /// It joined the sources at this index.
    Joined(usize),
}

/// What a search for a rule's muting source found.
#[derive(Clone, Copy)]
pub(crate) struct MutedBy {
    /// The index of the alert of that source.
    pub(crate) at: Option<usize>,
    /// How many sources the search examined.
    pub(crate) looked: usize,
}

impl<'r> Model for SourceIndex<'r> {
    ghost use Rattle.am_inhibit.specs.inside.Indexes.{IndexView};

    ghost Value = { IndexView };

    ghost view = { λ i. record {
      rule = record { source = i.source; target = i.target; equal = i.equal.now };
      entries = i.sources.entries;
    } };
}

impl<'r> SourceIndex<'r> {
    pub(crate) fn new(alloc: Global, rule: &'r InhibitRule) -> Result<SourceIndex<'r>, AllocError>
        ensures { IfOk result (λ index. index ≡ empty_index rule.now) }
    {
        Ok(SourceIndex {
            source: rule.source.prepare(alloc)?,
            target: rule.target.prepare(alloc)?,
            equal: &rule.equal,
            sources: IndexMap::new(alloc),
        })
    }

    /// Adds a label set whose alert will have that index, if it is a source of the rule.
    pub(crate) fn add(&mut self, labels: &LabelSet, at: usize) -> Result<SourceChange, AllocError>
        ensures added { OnOk result (self.new ≡ index_with at labels.now self.old) }
        ensures undo { IfOk result (λ change. index_before change self.new ≡ self.old) }
        ensures err { OnErr result (self.new ≡ self.old) }
    {
        if !self.source.admits(labels) {
            return Ok(SourceChange::Nothing);
        }
        let is_target = self.target.admits(labels);
        let alloc = *self.sources.allocator();
        let values = EqualValues::of(alloc, self.equal.as_slice(), labels)?;
        add_source(&mut self.sources, values, Source { at, is_target })
    }

    /// Undoes the last change.
    pub(crate) fn undo(&mut self, change: SourceChange)
        ensures { self.new ≡ index_before change self.old }
    {
        leave_out(&mut self.sources, change);
    }

    /// Moves each source to the new index of its alert, and drops those whose alert is dropped, and
    /// then the values that have no source.
    pub(crate) fn sweep(&mut self, places: &[Option<usize>])
        ensures { self.new ≡ index_swept places.now self.old }
    {
        self.sources.retain(
            |_values: &EqualValues, sources: &mut Sources| -> bool
                ensures { (sources.new ≡ moved_sources places.entry.now sources.old)
                    × (result ≡ not (has_no_sources sources.new)) }
            {
                sources.sweep(places);
                !sources.as_slice().is_empty()
            },
        );
    }

    /// Looks for the first of the rule's sources that mutes a target.
    pub(crate) fn find(
        &mut self,
        labels: &LabelSet,
        alerts: &[Alert],
        now: Moment,
    ) -> Result<MutedBy, AllocError>
        requires { IsSourceIndexOf (label_sets alerts.now) self.old }
        ensures at { IfOk result (λ found. option_and_then (slice_get alerts.now) found.at
            ≡ find (inhibits self.old.rule labels.now now)
            (filter (is_candidate self.old.rule labels.now) alerts.now)) }
        ensures within { IfOk result
            (λ found. IfSome found.at (λ at. at < length alerts.now)) }
        ensures looked { IfOk result (λ found. found.looked
            ≡ count_to (inhibits self.old.rule labels.now now)
            (filter (is_candidate self.old.rule labels.now) alerts.now)) }
        ensures same { self.new ≡ self.old }
    {
        let none = MutedBy {
            at: None,
            looked: 0,
        };
        if !self.target.admits(labels) {
            return Ok(none);
        }
        let is_source = self.source.admits(labels);
        let alloc = *self.sources.allocator();
        let values = EqualValues::of(alloc, self.equal.as_slice(), labels)?;
        match self.sources.get(&values) {
            Some(sources) => Ok(first_muting(sources, is_source, alerts, now)),
            None => Ok(none),
        }
    }
}

// Adds a source to those of its values.
fn add_source(
    sources: &mut SourceMap,
    values: EqualValues,
    source: Source,
) -> Result<SourceChange, AllocError>
    ensures added { OnOk result
        (sources.new.entries ≡ with_source values source sources.old.entries) }
    ensures undo { IfOk result
        (λ change. entries_before change sources.new.entries ≡ sources.old.entries) }
    ensures err { OnErr result (sources.new.entries ≡ sources.old.entries) }
{
    match sources.get_index_of(&values) {
        Some(at) => {
            sources[at].push(source)?;
            Ok(SourceChange::Joined(at))
        }
        None => {
            let first = Sources::of(*sources.allocator(), source)?;
            sources.insert(values, first)?;
            Ok(SourceChange::Begun)
        }
    }
}

// Undoes the last change.
fn leave_out(sources: &mut SourceMap, change: SourceChange)
    ensures { sources.new.entries ≡ entries_before change sources.old.entries }
{
    match change {
        SourceChange::Nothing => {}
        SourceChange::Begun => sources.truncate(sources.len().saturating_sub(1)),
        SourceChange::Joined(at) => {
            if let Some(joined) = sources.get_index_mut(at) {
                joined.pop();
            }
        }
    }
}

// The first source that mutes a target, which may match the source side too. None of the leading sources that
// match both sides mutes such a target, so they are counted without a walk over them.
fn first_muting(sources: &Sources, is_source: bool, alerts: &[Alert], now: Moment) -> MutedBy
    requires { All (λ source. source.at < length alerts.now) sources.now }
    ensures at { result.at ≡ option_map (λ source. source.at)
        (find (source_inhibits is_source now alerts.now) sources.now) }
    ensures within { IfSome result.at (λ at. at < length alerts.now) }
    ensures looked { result.looked
        ≡ count_to (source_inhibits is_source now alerts.now) sources.now }
{
    if !is_source {
        return first_walked(sources.as_slice(), is_source, alerts, now);
    }
    let leading = sources.leading();
    let found = first_walked(&sources.as_slice()[leading..], is_source, alerts, now);
    MutedBy {
        at: found.at,
        looked: leading + found.looked,
    }
}

// The same, found by a walk over the sources.
fn first_walked(sources: &[Source], is_source: bool, alerts: &[Alert], now: Moment) -> MutedBy
    requires { All (λ source. source.at < length alerts.now) sources.now }
    ensures at { result.at ≡ option_map (λ source. source.at)
        (find (source_inhibits is_source now alerts.now) sources.now) }
    ensures within { IfSome result.at (λ at. at < length alerts.now) }
    ensures looked { result.looked
        ≡ count_to (source_inhibits is_source now alerts.now) sources.now }
{
    for (before, source) in sources.iter().enumerate() {
        if is_muting(*source, is_source, &alerts[source.at], now) {
            return MutedBy {
                at: Some(source.at),
                looked: before + 1,
            };
        }
    }
    MutedBy {
        at: None,
        looked: sources.len(),
    }
}

// Whether a source with its alert mutes a target, which may match the source side too.
fn is_muting(source: Source, is_source: bool, alert: &Alert, now: Moment) -> bool
    ensures { result
        ≡ (not (is_resolved_at now alert.now) && not (is_source && source.is_target)) }
{
    !alert.resolved_at(now) && !(is_source && source.is_target)
}
