//! Absorbing the reports of a post into the stored alerts: all of them or none, and how to take them
//! back.

ghost use Rattle.std.specs.Prelude.{◌≡◌, ◌<◌, ◌/◌, ℕ, IfOk, OnOk, OnErr, true, false, get_or};
ghost use Rattle.std.specs.Arc.{arc_value};
ghost use Rattle.std.specs.Option.{option_copied};
ghost use Rattle.indexmap.specs.IndexMap.{index_of_by};
ghost use Rattle.am_labels.specs.LabelSets.{same_labels};
ghost use Rattle.am_alert.specs.Merging.{absorbed};
ghost use Rattle.am_store.specs.AlertList.{lookup, with_alert, with_alerts, batch_by_list};
ghost use Rattle.am_store.specs.Shared.{alerts_in};
ghost use Rattle.am_store.specs.AlertMaps.{stored_in, AreKeptByLabels};
ghost use Rattle.am_store.specs.AlertMaps.{taken_back, all_taken_back};
ghost use Rattle.am_store.specs.declared.shared_alerts.TheConstants.{BLOCK};
ghost use Rattle.am_store.specs.inside.Changed.{IsUntouched};

use crate::shared_alerts::{BLOCK, SharedAlert};
use crate::store::{AlertMap, Store};
use am_alert::{Alert, Moment, absorb_in_place};
use am_labels::LabelSet;
use std::alloc::{AllocError, Global};
use std::marker::Model;
use std::mem;
use std::sync::Arc;

/// What one report changed, kept to take it back.
#[derive(Debug, Drop)]
pub enum Change {
    /// The report began its label set, which is the last one.
    Added,
    /// Its label set held this alert, at this index.
    Replaced(usize, SharedAlert),
}

/// The reports of a post, each in a block of its own, and the empty list for their changes. Contracts see
/// the reports. It is made before the lock is taken: absorbing it takes memory for new label sets alone.
#[derive(Debug, Drop)]
pub struct PreparedReports {
    blocks: Vec<SharedAlert>,
    changes: Vec<Change>,
}

impl Model for PreparedReports {
    ghost use Rattle.std.specs.Prelude.{◌≡◌, ◌≤◌, List, [], length, vec_capacity};
    ghost use Rattle.std.specs.Coded.{coded_list};
    ghost use Rattle.am_alert.specs.declared.alert.Alert.{Alert};
    ghost use Rattle.am_alert.specs.Alerts.{coded_alert};
    ghost use Rattle.am_store.specs.Shared.{alerts_in};

    ghost Value = { List Alert };

    ghost coded = { coded_list coded_alert };

    ghost view = { λ p. alerts_in p.blocks.items };

    ghost invariant = { λ p. (p.changes.items ≡ [])
        × (length p.blocks.items ≤ vec_capacity p.changes) };
}

impl PreparedReports {
    /// Copies of these reports, which share their texts.
    pub fn of(alloc: Global, news: &[Alert]) -> Result<PreparedReports, AllocError>
        ensures { IfOk result (λ prepared. prepared ≡ news.now) }
    {
        let changes = Vec::with_capacity(alloc, news.len())?;
        let mut blocks = Vec::with_capacity(alloc, news.len())?;
        for new in news {
            blocks.push_reserved(block_of(alloc, new)?);
        }
        Ok(PreparedReports { blocks, changes })
    }
}

// A copy of a report in a block of its own. It shares the texts.
pub(crate) fn block_of(alloc: Global, report: &Alert) -> Result<SharedAlert, AllocError>
    ensures { IfOk result (λ block. arc_value block ≡ report.now) }
{
    Ok(Arc::new(alloc, report.copy()?)?)
}

/// What the reports of a post became, and what they changed.
#[derive(Debug, Drop)]
pub struct Absorbed {
    /// What each became.
    pub batch: Vec<SharedAlert>,
    /// The changes in their order: taken back, the last first, they lead to the store before.
    pub undo: Vec<Change>,
}

impl Store {
    /// Absorbs reports one after another, and answers what each became.
    pub fn absorb(&mut self, news: PreparedReports, now: Moment) -> Result<Absorbed, AllocError>
        ensures batch { IfOk result (λ done.
            alerts_in done.batch.items ≡ batch_by_list now news (stored_in self.old)) }
        ensures back { IfOk result (λ done. all_taken_back done.undo.items self.new ≡ self.old) }
        ensures stored { OnOk result (stored_in self.new
            ≡ with_alerts (batch_by_list now news (stored_in self.old)) (stored_in self.old)) }
        ensures kept { AreKeptByLabels self.old }
        ensures err { OnErr result (self.new ≡ self.old) }
    {
        let PreparedReports {
            mut blocks,
            mut changes,
        } = news;
        let before = self.alerts.len();
        for block in blocks.iter_mut() {
            match absorb_one(&mut self.alerts, block, now) {
                Ok(change) => changes.push_reserved(change),
                Err(error) => {
                    take_back(&mut self.alerts, changes);
                    return Err(error);
                }
            }
        }
        note_changes(&mut self.current, before, self.alerts.len(), &changes);
        Ok(Absorbed {
            batch: blocks,
            undo: changes,
        })
    }

    /// Takes back what `absorb` changed.
    pub fn take_back(&mut self, changes: Vec<Change>)
        requires { AreKeptByLabels (all_taken_back changes.items self.old) }
        ensures { self.new ≡ all_taken_back changes.items self.old }
    {
        self.current.clear();
        take_back(&mut self.alerts, changes);
    }
}

// A block with a replaced alert is no longer current, nor is one from the first new alert on.
fn note_changes(current: &mut Vec<bool>, before: usize, after: usize, changes: &[Change])
    ensures { (at : ℕ) → get_or current.new.items (at / BLOCK) false ≡ true
        → (get_or current.old.items (at / BLOCK) false ≡ true) × (before < after → at < before)
        × IsUntouched at changes.now }
{
    if before < after {
        current.truncate(before / BLOCK);
    }
    note_replaced(current, changes);
}

// A block with a replaced alert is no longer current.
fn note_replaced(current: &mut Vec<bool>, changes: &[Change])
    ensures { (at : ℕ) → get_or current.new.items (at / BLOCK) false ≡ true
        → (get_or current.old.items (at / BLOCK) false ≡ true) × IsUntouched at changes.now }
{
    for change in changes {
        if let Change::Replaced(at, _) = change {
            if let Some(current) = current.get_mut(*at / BLOCK) {
                *current = false;
            }
        }
    }
}

// Absorbs one report: its block becomes what the report became. Answers what it changed.
pub(crate) fn absorb_one(
    alerts: &mut AlertMap,
    block: &mut SharedAlert,
    now: Moment,
) -> Result<Change, AllocError>
    requires { AreKeptByLabels alerts.old.entries }
    ensures became { OnOk result (arc_value block.new ≡ absorbed now
        (lookup (arc_value block.old).labels (stored_in alerts.old.entries)) (arc_value block.old)) }
    ensures stored { OnOk result (stored_in alerts.new.entries
        ≡ with_alert (arc_value block.new) (stored_in alerts.old.entries)) }
    ensures kept { AreKeptByLabels alerts.new.entries }
    ensures change { IfOk result
        (λ change. taken_back change alerts.new.entries ≡ alerts.old.entries) }
    ensures err { OnErr result (alerts.new.entries ≡ alerts.old.entries) }
{
    let at = alerts.get_index_of(&block.labels);
    // Nobody else has the block yet, so that this copies nothing.
    absorb_in_place(
        stored_at(alerts, &block.labels, at),
        Arc::make_mut(block)?,
        now,
    )?;
    let shared = Arc::try_clone(block)?;
    match at {
        Some(at) => {
            let before = mem::replace(&mut alerts[at], shared);
            Ok(Change::Replaced(at, before))
        }
        None => {
            alerts.insert(block.labels.copy()?, shared)?;
            Ok(Change::Added)
        }
    }
}

// The stored alert of a label set, which was looked for and is at this index.
fn stored_at<'a>(alerts: &'a AlertMap, labels: &LabelSet, at: Option<usize>) -> Option<&'a Alert>
    requires kept { AreKeptByLabels alerts.now.entries }
    requires found { at ≡ index_of_by (same_labels labels.now) alerts.now }
    ensures { option_copied result ≡ lookup labels.now (stored_in alerts.now.entries) }
{
    Some(&*alerts[at?])
}

// Takes changes back, the last one first.
pub(crate) fn take_back(alerts: &mut AlertMap, changes: Vec<Change>)
    ensures { alerts.new.entries ≡ all_taken_back changes.items alerts.old.entries }
{
    let mut left = changes;
    while let Some(change) = left.pop() {
        take_one_back(alerts, change);
    }
}

// Takes the last change back.
pub(crate) fn take_one_back(alerts: &mut AlertMap, change: Change)
    ensures { alerts.new.entries ≡ taken_back change alerts.old.entries }
{
    match change {
        Change::Added => alerts.truncate(alerts.len().saturating_sub(1)),
        Change::Replaced(at, before) => {
            if let Some(held) = alerts.get_index_mut(at) {
                *held = before;
            }
        }
    }
}
