//! The stored alerts, each under its label set, in the order in which the label sets began.
//!
//! A post changes the map report by report and keeps what it replaced, to put it back the last
//! change first. Computing outside the map needs a second map for reports of one label set in one
//! post.
//!
//! A Store keeps the list that it shared last, and knows in which blocks of it nothing has changed since: the next
//! list has those, and groups of such blocks, in common with it, and only the others are made anew. So what a
//! subscription takes under the lock depends on what has changed, and hardly on how many alerts are stored.

ghost use Rattle.std.specs.Prelude.{◌≡◌, ◌≢◌, ◌<◌, ◌≤◌, ◌*◌, ◌^◌, [], IfOk, IfSome, None, OnErr, true, false, drop, filter, length, not, count_by, take};
ghost use Rattle.std.specs.Arc.{arc_value};
ghost use Rattle.std.specs.Option.{option_map};
ghost use Rattle.am_alert.specs.Merging.{is_resolved_at};
ghost use Rattle.am_store.specs.declared.shared_alerts.TheConstants.{BLOCK, GROUP};
ghost use Rattle.am_store.specs.AlertList.{lookup};
ghost use Rattle.am_store.specs.AlertMaps.{stored_in};
ghost use Rattle.am_store.specs.Shared.{alerts_in};
ghost use Rattle.am_store.specs.inside.Blocks.{AreBlocksOf, AreGroupsOf, IsGroupCurrent};

pub mod absorb;
pub mod judge;

use crate::shared_alerts::{BLOCK, Block, BlockGroup, GROUP, SharedAlert, StoredAlerts};
use am_alert::Moment;
use am_labels::LabelSet;
use indexmap::IndexMap;
use std::alloc::{AllocError, Global};
use std::marker::Model;
use std::sync::Arc;
use std::{fmt, mem};

/// The stored alerts by their label sets, in the order in which those began. A report costs the same
/// however many there are.
pub type AlertMap = IndexMap<LabelSet, SharedAlert>;

/// The stored alerts, seen by contracts as the entries of their map, and the list of them that was shared last.
#[derive(Drop)]
pub struct Store {
    pub(crate) alerts: AlertMap,
    pub(crate) shared: Option<StoredAlerts>,
    // Of each block of that list: whether its alerts are as they are stored.
    pub(crate) current: Vec<bool>,
    // The list that was shared before it, for who drops it once a lock is given back.
    pub(crate) outdated: Option<StoredAlerts>,
}

impl Model for Store {
    ghost use Rattle.std.specs.Prelude.{List};
    ghost use Rattle.std.specs.declared.sync.Arc.{Arc};
    ghost use Rattle.std.specs.declared.alloc.Global.{Global};
    ghost use Rattle.std.specs.Coded.{codes};
    ghost use Rattle.am_labels.specs.LabelSets.{Labels, coded_labels};
    ghost use Rattle.am_alert.specs.declared.alert.Alert.{Alert};
    ghost use Rattle.am_alert.specs.Alerts.{coded_alert};
    ghost use Rattle.am_store.specs.AlertMaps.{stored_in, AreKeptByLabels};
    ghost use Rattle.am_store.specs.inside.Blocks.{IsCurrent};

    ghost Value = { List (Labels × Arc Alert Global) };

    ghost coded = { Prim.hlevel (codes, coded_labels, coded_alert) };

    ghost view = { λ s. s.alerts.entries };

    ghost invariant = { λ s. AreKeptByLabels s.alerts.entries × IsCurrent s.current.items s.shared (stored_in s.alerts.entries) };
}

impl fmt::Debug for Store {
    fn fmt<W: fmt::Write>(&self, f: &mut fmt::Formatter<W>) -> fmt::Result {
        f.debug_struct("Store").finish_non_exhaustive()
    }
}

impl Store {
    /// A store without an alert.
    pub fn new(alloc: Global) -> Store
        ensures { result ≡ [] }
    {
        Store {
            alerts: AlertMap::new(alloc),
            shared: None,
            current: Vec::new(alloc),
            outdated: None,
        }
    }

    /// What its memory comes from.
    pub fn allocator(&self) -> &Global {
        self.alerts.allocator()
    }

    /// How many alerts are stored.
    pub fn len(&self) -> usize
        ensures { result ≡ length (stored_in self.now) }
    {
        self.alerts.len()
    }

    /// All alerts, in order. None is copied, and blocks in which nothing has changed since the last time aren't made
    /// anew.
    pub fn share_all(&mut self) -> Result<StoredAlerts, AllocError>
        ensures shared { IfOk result (λ shared. shared ≡ stored_in self.old) }
        ensures same { self.new ≡ self.old }
    {
        if let Some(shared) = self.whole() {
            return shared.share();
        }
        let alloc = *self.alerts.allocator();
        let groups = self.groups()?;
        let current = vec![in alloc; true; self.alerts.len().div_ceil(BLOCK)]?;
        let shared = StoredAlerts::of_groups(alloc, groups, self.alerts.len())?;
        let kept = shared.share()?;
        self.outdated = mem::replace(&mut self.shared, Some(kept));
        self.current = current;
        Ok(shared)
    }

    // The list that was shared last, if it is what is stored.
    fn whole(&self) -> Option<&StoredAlerts>
        ensures { IfSome result (λ shared. shared.now ≡ stored_in self.now) }
    {
        let shared = self.shared.as_ref()?;
        if shared.len() != self.alerts.len() {
            return None;
        }
        if self.current.len() != shared.len().div_ceil(BLOCK) || self.current.contains(&false) {
            return None;
        }
        Some(shared)
    }

    // The stored alerts in groups.
    fn groups(&self) -> Result<Vec<BlockGroup>, AllocError>
        ensures { IfOk result (λ groups. AreGroupsOf (stored_in self.now) groups.items) }
    {
        let count = self.alerts.len().div_ceil(GROUP);
        let mut groups = Vec::with_capacity(*self.alerts.allocator(), count)?;
        for at in 0..count {
            groups.push_reserved(self.group(at)?);
        }
        Ok(groups)
    }

    // One of these groups: the shared one, if nothing in it has changed.
    fn group(&self, at: usize) -> Result<BlockGroup, AllocError>
        requires within { GROUP * at ≤ length (stored_in self.now) }
        requires few { length (stored_in self.now) < 2 ^ 63 }
        ensures { IfOk result (λ group. group ≡ take GROUP (drop (GROUP * at) (stored_in self.now))) }
    {
        if let Some(shared) = &self.shared {
            if is_group_current(&self.current, at) {
                if let Some(group) = shared.share_group(at)? {
                    return Ok(group);
                }
            }
        }
        BlockGroup::of_blocks(*self.alerts.allocator(), self.blocks(at)?)
    }

    // The blocks of a group.
    fn blocks(&self, group: usize) -> Result<Vec<Block>, AllocError>
        requires within { GROUP * group ≤ length (stored_in self.now) }
        requires few { length (stored_in self.now) < 2 ^ 63 }
        ensures { IfOk result (λ blocks.
            AreBlocksOf (take GROUP (drop (GROUP * group) (stored_in self.now))) blocks.items) }
    {
        let first = GROUP / BLOCK * group;
        let count = (self.alerts.len().div_ceil(BLOCK) - first).min(GROUP / BLOCK);
        let mut blocks = Vec::with_capacity(*self.alerts.allocator(), count)?;
        for at in 0..count {
            blocks.push_reserved(self.block(first + at)?);
        }
        Ok(blocks)
    }

    // One of these blocks: the shared one, if nothing in it has changed.
    fn block(&self, at: usize) -> Result<Block, AllocError>
        requires within { BLOCK * at ≤ length (stored_in self.now) }
        requires few { length (stored_in self.now) < 2 ^ 63 }
        ensures { IfOk result (λ block. alerts_in (arc_value block).items
            ≡ take BLOCK (drop (BLOCK * at) (stored_in self.now))) }
    {
        if let (Some(shared), Some(true)) = (&self.shared, self.current.get(at)) {
            if let Some(block) = shared.share_block(at)? {
                return Ok(block);
            }
        }
        let block = share_from(&self.alerts, at * BLOCK, BLOCK)?;
        Ok(Arc::new(*self.alerts.allocator(), block)?)
    }

    /// At most `most` alerts from the index `from` on, in order. None is copied.
    pub fn share_page(&self, from: usize, most: usize) -> Result<StoredAlerts, AllocError>
        ensures { IfOk result (λ page. page ≡ take most (drop from (stored_in self.now))) }
    {
        let page = share_from(&self.alerts, from, most)?;
        StoredAlerts::new(*self.alerts.allocator(), page)
    }

    /// The alert of a label set. It isn't copied: this takes no memory, and fails only if the alert has
    /// 2^63 owners already.
    pub fn share_of(&self, labels: &LabelSet) -> Result<Option<SharedAlert>, AllocError>
        ensures found { IfOk result (λ found.
            option_map arc_value found ≡ lookup labels.now (stored_in self.now)) }
        ensures stored { OnErr result (lookup labels.now (stored_in self.now) ≢ None) }
    {
        match self.alerts.get(labels) {
            Some(alert) => Ok(Some(Arc::try_clone(alert)?)),
            None => Ok(None),
        }
    }

    /// The alerts that are resolved, in order. None is copied.
    pub fn share_resolved(&self, now: Moment) -> Result<StoredAlerts, AllocError>
        ensures { IfOk result (λ resolved.
            resolved ≡ filter (is_resolved_at now) (stored_in self.now)) }
    {
        let alloc = *self.alerts.allocator();
        let mut resolved = Vec::new(alloc);
        for alert in self.alerts.values() {
            if alert.resolved_at(now) {
                resolved.push(Arc::try_clone(alert)?)?;
            }
        }
        StoredAlerts::new(alloc, resolved)
    }

    /// Removes what is resolved, and answers how many alerts that were.
    pub fn remove_resolved(&mut self, now: Moment) -> u64
        ensures store { stored_in self.new
            ≡ filter (λ alert. not (is_resolved_at now alert)) (stored_in self.old) }
        ensures removed { result ≡ count_by (is_resolved_at now) (stored_in self.old) }
    {
        let before = self.alerts.len();
        self.alerts.retain(
            |_labels: &LabelSet, alert: &mut SharedAlert| -> bool
                ensures { (result ≡ not (is_resolved_at now (arc_value alert.old)))
                    × (alert.new ≡ alert.old) }
            { !alert.resolved_at(now) },
        );
        let removed = before - self.alerts.len();
        self.outdated = let_go_if(removed > 0, &mut self.shared);
        removed as u64
    }

    /// A list that was shared and has changed since, if this let go of one: for who drops it once a lock is given
    /// back. It is given once.
    pub fn take_outdated(&mut self) -> Option<StoredAlerts>
        ensures { self.new ≡ self.old }
    {
        mem::replace(&mut self.outdated, None)
    }

    /// The alerts by their label sets.
    pub fn into_map(self) -> AlertMap
        ensures { result.entries ≡ self }
    {
        let Store {
            alerts,
            shared: _,
            current: _,
            outdated: _,
        } = self;
        alerts
    }
}

// Whether each block of a group is there and current.
fn is_group_current(current: &[bool], group: usize) -> bool
    requires { GROUP * group < 2 ^ 63 }
    ensures { result ≡ true → IsGroupCurrent current.now group }
{
    let first = GROUP / BLOCK * group;
    for at in first..first + GROUP / BLOCK {
        if current.get(at) != Some(&true) {
            return false;
        }
    }
    true
}

// Gives the list that was shared last, if it has changed.
fn let_go_if(changed: bool, shared: &mut Option<StoredAlerts>) -> Option<StoredAlerts>
    ensures gone { changed ≡ true → shared.new ≡ None }
    ensures stays { changed ≡ false → shared.new ≡ shared.old }
{
    if changed {
        mem::replace(shared, None)
    } else {
        None
    }
}

// At most `most` alerts from the index `from` on, in order.
fn share_from(alerts: &AlertMap, from: usize, most: usize) -> Result<Vec<SharedAlert>, AllocError>
    ensures { IfOk result (λ shared.
        alerts_in shared.items ≡ take most (drop from (stored_in alerts.now.entries))) }
{
    let all = alerts.as_slice();
    let (_, rest) = all.split_at(from.min(all.len()));
    let (some, _) = rest.split_at(most.min(rest.len()));
    let mut shared = Vec::with_capacity(*alerts.allocator(), some.len())?;
    for alert in some.values() {
        shared.push(Arc::try_clone(alert)?)?;
    }
    Ok(shared)
}
