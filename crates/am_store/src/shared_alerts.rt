//! Alerts that the store, the log and openings have in common, so that none of them copies one.
//!
//! A list of stored alerts is a tree of two levels: groups of blocks of alerts. Groups and blocks have several
//! owners too: of two lists that were shared one after the other, those in which nothing changed are the same.

ghost use Rattle.std.specs.Prelude.{◌≡◌, ◌↔◌, ◌<◌, ◌*◌, ◌-◌, ◌%◌, ◌^◌, [], IfOk, IfSome, IsTrue, drop, length, slice_get, take};
ghost use Rattle.std.specs.Arc.{arc_value};
ghost use Rattle.std.specs.Option.{option_map, option_copied};
ghost use Rattle.am_store.specs.declared.shared_alerts.TheConstants.{BLOCK, GROUP};
ghost use Rattle.am_store.specs.Shared.{alerts_in};
ghost use Rattle.am_store.specs.inside.Blocks.{all_of, AreGroupsOf};

mod block_group;

use am_alert::Alert;
pub(crate) use block_group::{Block, BlockGroup};
use std::alloc::{AllocError, Global};
use std::marker::Model;
use std::sync::Arc;

/// How many alerts a block has. The last one of a list may have fewer.
pub const BLOCK: usize = 1_024;

/// How many alerts a group has, in 32 blocks. The last one of a list may have fewer.
pub(crate) const GROUP: usize = 32_768;

/// An alert with several owners.
pub type SharedAlert = Arc<Alert, Global>;

/// What was stored at one moment, seen by contracts as the list of the alerts. It is shared as a
/// whole, so that a subscription, its lane and the journal have one list in common.
#[derive(Debug, Drop)]
pub struct StoredAlerts {
    groups: Arc<Vec<BlockGroup>, Global>,
    len: usize,
}

impl Model for StoredAlerts {
    ghost use Rattle.std.specs.Prelude.{◌≡◌, ◌<◌, ◌^◌, List, length};
    ghost use Rattle.std.specs.Arc.{arc_value};
    ghost use Rattle.std.specs.Coded.{coded_list};
    ghost use Rattle.am_alert.specs.declared.alert.Alert.{Alert};
    ghost use Rattle.am_alert.specs.Alerts.{coded_alert};
    ghost use Rattle.am_store.specs.inside.Blocks.{all_of, AreGroupsOf};

    ghost Value = { List Alert };

    ghost coded = { coded_list coded_alert };

    ghost view = { λ a. all_of (arc_value a.groups).items };

    ghost invariant = { λ a. let alerts = all_of (arc_value a.groups).items in AreGroupsOf alerts (arc_value a.groups).items × (a.len ≡ length alerts) × (a.len < 2 ^ 63) };
}

impl StoredAlerts {
    /// These alerts, as one list.
    pub fn new(alloc: Global, alerts: Vec<SharedAlert>) -> Result<StoredAlerts, AllocError>
        ensures { IfOk result (λ stored. stored ≡ alerts_in alerts.items) }
    {
        let count = alerts.len().div_ceil(GROUP);
        let mut groups = Vec::with_capacity(alloc, count)?;
        for at in 0..count {
            let (_, rest) = alerts.split_at(at * GROUP);
            let (some, _) = rest.split_at(GROUP.min(rest.len()));
            groups.push_reserved(BlockGroup::new(alloc, some)?);
        }
        StoredAlerts::of_groups(alloc, groups, alerts.len())
    }

    // The alerts of these groups, and how many there are.
    pub(crate) fn of_groups(
        alloc: Global,
        groups: Vec<BlockGroup>,
        len: usize,
    ) -> Result<StoredAlerts, AllocError>
        requires groups { AreGroupsOf (all_of groups.items) groups.items }
        requires len { (len ≡ length (all_of groups.items)) × (len < 2 ^ 63) }
        ensures { IfOk result (λ stored. stored ≡ all_of groups.items) }
    {
        let groups = Arc::new(alloc, groups)?;
        Ok(StoredAlerts { groups, len })
    }

    /// The same list once more.
    pub fn share(&self) -> Result<StoredAlerts, AllocError>
        ensures { IfOk result (λ shared. shared ≡ self.now) }
    {
        let groups = Arc::try_clone(&self.groups)?;
        Ok(StoredAlerts {
            groups,
            len: self.len,
        })
    }

    /// How many there are.
    pub fn len(&self) -> usize
        ensures len { result ≡ length self.now }
        ensures few { length self.now < 2 ^ 63 }
    {
        self.len
    }

    pub fn is_empty(&self) -> bool
        ensures { IsTrue result ↔ (self.now ≡ []) }
    {
        self.len == 0
    }

    /// The alert at an index.
    pub fn get(&self, at: usize) -> Option<&SharedAlert>
        ensures found { option_map arc_value (option_copied result) ≡ slice_get self.now at }
        ensures few { length self.now < 2 ^ 63 }
    {
        let _ = &self.len;
        self.run_from(at).first()
    }

    /// The alerts from an index on that lie together: up to the next index that `BLOCK` divides, or to the end.
    pub fn run_from(&self, from: usize) -> &[SharedAlert]
        ensures { alerts_in result.now ≡ take (BLOCK - from % BLOCK) (drop from self.now) }
    {
        match self.groups.get(from / GROUP) {
            Some(group) => group.run_from(from % GROUP),
            None => &[],
        }
    }

    // The group at an index among the groups, once more.
    pub(crate) fn share_group(&self, at: usize) -> Result<Option<BlockGroup>, AllocError>
        ensures { IfOk result (λ found. IfSome found (λ group. group ≡ take GROUP (drop (GROUP * at) self.now))) }
    {
        match self.groups.get(at) {
            Some(group) => Ok(Some(group.share()?)),
            None => Ok(None),
        }
    }

    // The block at an index among the blocks of all groups, once more.
    pub(crate) fn share_block(&self, at: usize) -> Result<Option<Block>, AllocError>
        ensures { IfOk result (λ found. IfSome found (λ block.
            alerts_in (arc_value block).items ≡ take BLOCK (drop (BLOCK * at) self.now))) }
    {
        let blocks = GROUP / BLOCK;
        match self.groups.get(at / blocks) {
            Some(group) => group.share_block(at % blocks),
            None => Ok(None),
        }
    }

    /// Goes over the alerts in order.
    pub fn iter(&self) -> StoredIter<'_>
        ensures { result ≡ self.now }
    {
        StoredIter { list: self, at: 0 }
    }
}

/// The alerts of a list that are left, in order.
#[derive(Debug, Drop)]
pub struct StoredIter<'a> {
    list: &'a StoredAlerts,
    at: usize,
}

impl<'a> Model for StoredIter<'a> {
    ghost use Rattle.std.specs.Prelude.{◌≤◌, List, drop, length};
    ghost use Rattle.std.specs.Coded.{coded_list};
    ghost use Rattle.am_alert.specs.declared.alert.Alert.{Alert};
    ghost use Rattle.am_alert.specs.Alerts.{coded_alert};

    ghost Value = { List Alert };

    ghost coded = { coded_list coded_alert };

    ghost view = { λ i. drop i.at i.list.now };

    ghost invariant = { λ i. i.at ≤ length i.list.now };
}

impl<'a> Iterator for StoredIter<'a> {
    type Item = &'a SharedAlert;

    ghost use Rattle.std.specs.Arc.{arc_value};
    ghost use Rattle.std.specs.Iterator.{YieldsFirstBy, item_count};

    ghost next_gives = { YieldsFirstBy (λ alert. arc_value alert.now) (λ alerts. alerts) };

    ghost remaining = { item_count (λ alerts. alerts) };

    fn next(&mut self) -> Option<&'a SharedAlert> {
        let list = self.list;
        let alert = list.get(self.at)?;
        self.at += 1;
        Some(alert)
    }
}

impl<'a> IntoIterator for &'a StoredAlerts {
    type Item = &'a SharedAlert;

    type IntoIter = StoredIter<'a>;

    ghost use Rattle.std.specs.Prelude.{◌≡◌};

    ghost into_iter_gives = { λ list iter. iter ≡ list.now };

    fn into_iter(self) -> StoredIter<'a> {
        self.iter()
    }
}
