//! The keys of one place that are home.
ghost use Rattle.std.specs.Prelude.{◌≡◌, [], ◌∷◌, ◌++◌, ◌==◌, length};
ghost use Rattle.am_segment.specs.Segments.{AreAllKeys, MayJoin, MayJoinRest, rest_of};
ghost use Rattle.am_cast.specs.declared.limits.TheConstants.{LANES};

use crate::limits::LANES;
use am_segment::{JoinedKeys, KeyRun, SegKey, SegmentBuilder};
use std::marker::Model;

/// A row. It must be ended.
pub(crate) struct Row<T> {
    place: u64,
    keys: JoinedKeys<T>,
}

impl<T> Model for Row<T> {
    ghost use Rattle.am_cast.specs.inside.KeyRows.{RowView, coded_row};

    ghost Value = { RowView T };

    ghost coded = { coded_row T.code };

    ghost view = { λ r. record { place = r.place; keys = r.keys } };
}

impl<T> Row<T> {
    /// The row of a place that has no keys yet.
    pub(crate) fn new(place: u64) -> Row<T>
        ensures { result ≡ record { place = place; keys = [] } }
    {
        Row {
            place,
            keys: JoinedKeys::new(),
        }
    }

    pub(crate) fn place(&self) -> u64
        ensures { result ≡ self.now.place }
    {
        self.place
    }

    /// Whether it has the keys of all eight lanes.
    pub(crate) fn is_full(&self) -> bool
        ensures { result ≡ (length self.now.keys == LANES) }
    {
        self.keys.len() == LANES
    }

    pub(crate) fn keys(&self) -> &JoinedKeys<T>
        ensures { result.now ≡ self.now.keys }
    {
        &self.keys
    }

    pub(crate) fn add(&mut self, key: SegKey<T>)
        requires { MayJoin self.old.keys key }
        ensures { self.new ≡ record self.old { keys = self.old.keys ++ key ∷ [] } }
    {
        self.keys.add(key);
    }

    /// All keys of the segment that are still to come.
    pub(crate) fn add_rest(&mut self, rest: KeyRun<T>)
        requires { MayJoinRest self.old.keys rest }
        ensures { self.new ≡ record self.old { keys = self.old.keys ++ rest_of rest } }
    {
        self.keys.add_rest(rest);
    }

    /// Lets the keys go: the segment never ends.
    pub(crate) fn leak(self) {
        let Row { place: _, keys } = self;
        keys.leak();
    }

    /// The segment ends: its items are dropped, and an empty builder is left of it.
    pub(crate) fn end(self) -> SegmentBuilder<T>
    where
        T: Drop,
        requires { AreAllKeys self.keys }
        ensures { result.items ≡ [] }
    {
        let Row { place: _, keys } = self;
        keys.into_builder()
    }
}
