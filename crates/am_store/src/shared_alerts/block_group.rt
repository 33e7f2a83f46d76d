//! A group of blocks, which lists of stored alerts have in common.

ghost use Rattle.std.specs.Prelude.{◌≡◌, ◌*◌, ◌-◌, ◌%◌, ◌≤◌, IfOk, IfSome, drop, length, take};
ghost use Rattle.std.specs.Arc.{arc_value};
ghost use Rattle.am_store.specs.declared.shared_alerts.TheConstants.{BLOCK, GROUP};
ghost use Rattle.am_store.specs.Shared.{alerts_in};
ghost use Rattle.am_store.specs.inside.Blocks.{alerts_of, AreBlocksOf};

use crate::shared_alerts::{BLOCK, SharedAlert};
use std::alloc::{AllocError, Global};
use std::marker::Model;
use std::sync::Arc;

/// Alerts that follow each other in a list.
pub(crate) type Block = Arc<Vec<SharedAlert>, Global>;

/// Blocks that follow each other in a list, seen by contracts as the list of their alerts.
#[derive(Debug, Drop)]
pub(crate) struct BlockGroup {
    blocks: Arc<Vec<Block>, Global>,
}

impl Model for BlockGroup {
    ghost use Rattle.std.specs.Prelude.{List};
    ghost use Rattle.std.specs.Arc.{arc_value};
    ghost use Rattle.std.specs.Coded.{coded_list};
    ghost use Rattle.am_alert.specs.declared.alert.Alert.{Alert};
    ghost use Rattle.am_alert.specs.Alerts.{coded_alert};
    ghost use Rattle.am_store.specs.inside.Blocks.{alerts_of, AreBlocksOf};

    ghost Value = { List Alert };

    ghost coded = { coded_list coded_alert };

    ghost view = { λ g. alerts_of (arc_value g.blocks).items };

    ghost invariant = { λ g. AreBlocksOf (alerts_of (arc_value g.blocks).items) (arc_value g.blocks).items };
}

impl BlockGroup {
    // These alerts in blocks. None is copied.
    pub(crate) fn new(alloc: Global, alerts: &[SharedAlert]) -> Result<BlockGroup, AllocError>
        ensures { IfOk result (λ group. group ≡ alerts_in alerts.now) }
    {
        let count = alerts.len().div_ceil(BLOCK);
        let mut blocks = Vec::with_capacity(alloc, count)?;
        for at in 0..count {
            let (_, rest) = alerts.split_at(at * BLOCK);
            let (some, _) = rest.split_at(BLOCK.min(rest.len()));
            blocks.push_reserved(block_of(alloc, some)?);
        }
        BlockGroup::of_blocks(alloc, blocks)
    }

    // The alerts of these blocks.
    pub(crate) fn of_blocks(alloc: Global, blocks: Vec<Block>) -> Result<BlockGroup, AllocError>
        requires { AreBlocksOf (alerts_of blocks.items) blocks.items }
        ensures { IfOk result (λ group. group ≡ alerts_of blocks.items) }
    {
        Ok(BlockGroup {
            blocks: Arc::new(alloc, blocks)?,
        })
    }

    // The same group once more.
    pub(crate) fn share(&self) -> Result<BlockGroup, AllocError>
        ensures { IfOk result (λ shared. shared ≡ self.now) }
    {
        Ok(BlockGroup {
            blocks: Arc::try_clone(&self.blocks)?,
        })
    }

    // The alerts from an index on that lie in one block.
    pub(crate) fn run_from(&self, from: usize) -> &[SharedAlert]
        ensures { alerts_in result.now ≡ take (BLOCK - from % BLOCK) (drop from self.now) }
    {
        match self.blocks.get(from / BLOCK) {
            Some(block) => {
                let (_, rest) = block.split_at((from % BLOCK).min(block.len()));
                rest
            }
            None => &[],
        }
    }

    // The block at an index among the blocks, once more.
    pub(crate) fn share_block(&self, at: usize) -> Result<Option<Block>, AllocError>
        ensures { IfOk result (λ found. IfSome found (λ block.
            alerts_in (arc_value block).items ≡ take BLOCK (drop (BLOCK * at) self.now))) }
    {
        match self.blocks.get(at) {
            Some(block) => Ok(Some(Arc::try_clone(block)?)),
            None => Ok(None),
        }
    }
}

// These alerts as a block. None is copied.
fn block_of(alloc: Global, alerts: &[SharedAlert]) -> Result<Block, AllocError>
    ensures { IfOk result (λ block. alerts_in (arc_value block).items ≡ alerts_in alerts.now) }
{
    let mut block = Vec::with_capacity(alloc, alerts.len())?;
    for alert in alerts {
        block.push_reserved(Arc::try_clone(alert)?);
    }
    Ok(Arc::new(alloc, block)?)
}
