//! A key to a segment's items.
//!
//! A key is 16 bytes and an optional one 24. With the numbers of items and places in the block's head it
//! would be 8 and 16 (Rattle's `Option` has a tag). But the head would lie before items of any type, and each
//! look would load from the block first.

ghost use Rattle.std.specs.Prelude.{◌≡◌, length, option_copied, slice_get};

use crate::share::Share;
use std::marker::Model;

/// The most keys of one segment. No vector has room for more.
pub const MAX_KEYS: usize = 1 << 62;

/// The right to read a segment's items. It must be spent, by `reunite` with all other keys of its
/// segment.
pub struct SegKey<T> {
    pub(crate) share: Share<T>,
}

impl<T> Model for SegKey<T> {
    ghost use Rattle.am_segment.specs.Segments.{KeyView, coded_key};

    ghost Value = { KeyView T };

    ghost coded = { coded_key T.code };

    ghost use Rattle.am_segment.specs.inside.Fields.{key_view, IsKey};

    ghost view = { key_view };

    ghost invariant = { IsKey };
}

impl<T> SegKey<T> {
    /// How many items the segment has.
    pub fn len(&self) -> usize
        ensures { result ≡ length self.now.items }
    {
        self.share.len as usize
    }

    /// The item at an index.
    pub fn get(&self, index: usize) -> Option<&T>
        ensures { option_copied result ≡ slice_get self.now.items index }
    {
        self.as_slice().get(index)
    }

    /// The items, in order.
    pub fn as_slice(&self) -> &[T]
        ensures { result.now ≡ self.now.items }
    {
        self.share.items()
    }

    /// Lets the key go without the others. Its segment never ends: the items aren't dropped, and their memory is
    /// never given back.
    pub fn leak(self) {
        let SegKey { share } = self;
        share.leak();
    }
}
