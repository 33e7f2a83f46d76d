//! What the keys of a segment have of it, and how a segment ends: its items are dropped, and its block is
//! a builder's again.
//!
//! `AreAllKeys` doesn't say that the keys show the same items, so `reunite` joins what they hold, and not by
//! `JoinedKeys::add`, which asks for that.

ghost use Rattle.std.specs.Prelude.{◌≡◌, ◌≢◌, true, ◌+◌, ◌-◌, ◌^◌, ◌≤◌, ◌<◌, [], ◌∷◌, ◌++◌, length, drop};
ghost use Rattle.am_segment.specs.inside.Shares.{HoldShares, IsBlockOf, lasts, name_of};

use crate::block::{Block, Claim, Part};
use crate::builder::SegmentBuilder;
use std::alloc::Global;

/// What some keys have, of which there is at least one: a part of the right to read. The right to the
/// block is there too if the last key is among them. It takes two words, however many keys it is of.
pub(crate) struct Share<T> {
    pub(crate) part: Part<T>,
    pub(crate) len: u32,
    pub(crate) places: u32,
    pub(crate) claim: Claim<T, Global>,
    pub(crate) alloc: Global,
    pub(crate) ghost counted: { (len ≡ length part.items) × (len ≤ places) × (part.places ≡ places) },
    pub(crate) ghost block: { claim.there ≡ true → IsBlockOf claim part × (claim.alloc ≡ alloc) },
    pub(crate) ghost shares: { HoldShares claim.there part.count part.keys part.numbers },
}

impl<T> Share<T> {
    pub(crate) fn items(&self) -> &[T]
        ensures { result.now ≡ self.now.part.items }
    {
        self.part.items(self.len as usize)
    }

    /// What the key of a number has, the first of several that aren't handed out, and what the others have.
    pub(crate) fn split_one(self, number: usize) -> (Share<T>, Share<T>)
        requires first { self.part.numbers ≡ number ∷ drop 1 self.part.numbers }
        requires more { (number + 1 < self.part.keys) × (1 < length self.part.numbers) }
        ensures one { result.0.part ≡ record self.part { numbers = number ∷ []; count = 1 } }
        ensures others { result.1.part ≡ record self.part {
          count = self.part.count - 1;
          numbers = drop 1 self.part.numbers;
        } }
    {
        let Share {
            part,
            len,
            places,
            claim,
            alloc,
        } = self;
        let (one, others) = part.split_one(number);
        let (nothing, claim) = claim.split();
        let one = Share {
            part: one,
            len,
            places,
            claim: nothing,
            alloc,
        };
        let others = Share {
            part: others,
            len,
            places,
            claim,
            alloc,
        };
        (one, others)
    }

    /// What all keys of a segment have, and what some of another have: their names differ.
    pub(crate) fn tell_apart(self, other: Share<T>) -> (Share<T>, Share<T>)
        requires { self.part.count ≡ 2 ^ 63 }
        ensures same { (result.0.part ≡ self.part) × (result.1.part ≡ other.part) }
        ensures apart { name_of self.part ≢ name_of other.part }
    {
        let Share {
            part,
            len,
            places,
            claim,
            alloc,
        } = self;
        let Share {
            part: other,
            len: items,
            places: room,
            claim: right,
            alloc: by,
        } = other;
        let (part, other) = part.tell_apart(other);
        let all = Share {
            part,
            len,
            places,
            claim,
            alloc,
        };
        let other = Share {
            part: other,
            len: items,
            places: room,
            claim: right,
            alloc: by,
        };
        (all, other)
    }

    /// What further keys have goes to what the others have.
    pub(crate) fn join(self, more: Share<T>) -> Share<T>
        requires same { (name_of more.part ≡ name_of self.part) × (more.part.keys ≡ self.part.keys) }
        requires few { length self.part.numbers + length more.part.numbers ≤ self.part.keys }
        requires once { lasts self.part.keys (self.part.numbers ++ more.part.numbers) ≤ 1 }
        ensures { result.part ≡ record self.part {
          count = self.part.count + more.part.count;
          numbers = self.part.numbers ++ more.part.numbers;
        } }
    {
        let Share {
            part,
            len: _,
            places: _,
            claim,
            alloc,
        } = self;
        // The two are of one segment, so either's numbers will do. With those of `more` the compiler takes it
        // apart where it comes from, and copies nothing.
        let Share {
            part: other,
            len,
            places,
            claim: right,
            alloc: _,
        } = more;
        Share {
            part: part.join(other),
            len,
            places,
            claim: claim.join(right),
            alloc,
        }
    }

    /// Lets it go. The segment never ends.
    pub(crate) fn leak(self) {
        let Share {
            part,
            len: _,
            places: _,
            claim,
            alloc: _,
        } = self;
        part.leak();
        claim.leak();
    }
}

impl<T: Drop> Share<T> {
    /// Drops the items, for what all keys have. The block is then to be filled anew.
    pub(crate) fn into_builder(self) -> SegmentBuilder<T>
        requires { (length self.part.numbers ≡ self.part.keys)
            × (lasts self.part.keys self.part.numbers ≡ 1) }
        ensures { result.items ≡ [] }
    {
        let Share {
            part,
            len,
            places,
            claim,
            alloc,
        } = self;
        SegmentBuilder {
            block: without_items(claim.settle(part), len as usize),
            places: places as usize,
            count: 0,
            alloc,
        }
    }
}

/// Drops the `count` items of a block, the last one first.
pub(crate) fn without_items<T: Drop>(block: Block<T, Global>, count: usize) -> Block<T, Global>
    requires { (count ≡ length block.items) × (count ≤ block.places) }
    ensures items { result.items ≡ [] }
    ensures block { (result.places ≡ block.places) × (result.alloc ≡ block.alloc) }
{
    let mut block = block;
    let mut rest = count;
    while rest > 0 {
        rest -= 1;
        drop(block.pop(rest));
    }
    block
}
