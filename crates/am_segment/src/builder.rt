//! A segment while it is filled.

ghost use Rattle.std.specs.Prelude.{◌≡◌, ◌↔◌, ℕ, ◌≤◌, ◌<◌, [], ◌∷◌, ◌++◌, length};
ghost use Rattle.std.specs.Prelude.{IsOk, IfOk, IfErr, OnOk, IfSome, IfNone};
ghost use Rattle.am_segment.specs.Segments.{key_with, keys_of, AreAllKeys};

use crate::block::Block;
use crate::key::{MAX_KEYS, SegKey};
use crate::key_run::KeyRun;
use crate::seal_fault::SealFault;
use crate::share::{Share, without_items};
use std::alloc::{AllocError, Global};
use std::marker::Model;
use std_alloc::room::may_hold;

/// The most items of one segment. So a key takes two words.
pub const MAX_ITEMS: usize = u32::MAX as usize;

/// One block with places for items, of which the first ones are filled. Its keys must be handed out,
/// as a list by `seal` or one by one, or it must be discarded.
pub struct SegmentBuilder<T> {
    pub(crate) block: Block<T, Global>,
    pub(crate) places: usize,
    pub(crate) count: usize,
    pub(crate) alloc: Global,
}

impl<T> Model for SegmentBuilder<T> {
    ghost use Rattle.am_segment.specs.Segments.{BuilderView, coded_builder};

    ghost Value = { BuilderView T };

    ghost coded = { coded_builder T.code };

    ghost use Rattle.am_segment.specs.inside.Fields.{builder_view, IsBuilder};

    ghost view = { builder_view };

    ghost invariant = { IsBuilder };
}

impl<T> SegmentBuilder<T> {
    /// An empty builder with this number of places. `MAX_ITEMS` is the most: more are refused as if there
    /// were no memory.
    pub fn with_places(alloc: Global, places: usize) -> Result<SegmentBuilder<T>, AllocError>
        requires { 1 ≤ places }
        ensures { IfOk result (λ made. made ≡ record { items = []; places = places }) }
    {
        if places > MAX_ITEMS || !may_hold::<T>(places) {
            return Err(AllocError);
        }
        let block = Block::allocate(&alloc, places)?;
        Ok(SegmentBuilder {
            block,
            places,
            count: 0,
            alloc,
        })
    }

    /// How many items it has places for.
    pub fn places(&self) -> usize
        ensures { result ≡ self.now.places }
    {
        self.places
    }

    /// Adds an item after the others. It comes back if all places are filled.
    pub fn push(&mut self, item: T) -> Result<(), T>
        ensures pushed { OnOk result (self.new.items ≡ self.old.items ++ item ∷ []) }
        ensures places { self.new.places ≡ self.old.places }

        ensures full { IsOk result ↔ (length self.old.items < self.old.places) }
        ensures err { IfErr result (λ back. (back ≡ item) × (self.new ≡ self.old)) }
    {
        if self.count == self.places {
            return Err(item);
        }
        self.block.push(self.count, item);
        self.count += 1;
        Ok(())
    }

    /// Takes the last item out.
    pub fn pop(&mut self) -> Option<T>
        ensures some { IfSome result (λ item. self.old.items ≡ self.new.items ++ item ∷ []) }
        ensures none { IfNone result ((self.old.items ≡ []) × (self.new ≡ self.old)) }
        ensures places { self.new.places ≡ self.old.places }
    {
        if self.count == 0 {
            return None;
        }
        self.count -= 1;
        Some(self.block.pop(self.count))
    }

    /// Drops the items, and frees the block.
    pub fn discard(self)
    where
        T: Drop,
    {
        let SegmentBuilder {
            block,
            places,
            count,
            alloc,
        } = self;
        without_items(block, count).free(&alloc, places);
    }

    /// Frees the block, where there are no items to drop.
    pub fn free(self)
        requires { self.items ≡ [] }
    {
        let SegmentBuilder {
            block,
            places,
            count: _,
            alloc,
        } = self;
        block.free(&alloc, places);
    }

    /// `keys` keys to the items, in order of their numbers.
    pub fn seal(self, keys: usize) -> Result<Vec<SegKey<T>>, SealFault<T>>
        requires { 1 ≤ keys }
        ensures keys { IfOk result (λ made.
            (segment : ℕ) × (made.items ≡ keys_of segment keys self.items)) }
        ensures count { IfOk result (λ made. length made.items ≡ keys) }
        ensures all { IfOk result (λ made. AreAllKeys made.items) }

        ensures err { IfErr result (λ fault. fault.builder ≡ self) }
    {
        let made = match Vec::with_capacity(self.alloc, keys) {
            Ok(made) => made,
            Err(_) => return Err(SealFault { builder: self }),
        };
        Ok(self.hand_out(keys).push_all(made))
    }

    /// `keys` keys to the items, handed out one by one. It takes no memory.
    pub fn hand_out(self, keys: usize) -> KeyRun<T>
        requires { (1 ≤ keys) × (keys ≤ MAX_KEYS) }
        ensures { (segment : ℕ) × (result ≡ key_with segment keys self.items 0) }
    {
        let SegmentBuilder {
            block,
            places,
            count,
            alloc,
        } = self;
        let (claim, part) = block.share(keys);
        let rest = Share {
            part,
            len: count as u32,
            places: places as u32,
            claim,
            alloc,
        };
        KeyRun {
            rest,
            next: 0,
            last: keys - 1,
        }
    }
}
