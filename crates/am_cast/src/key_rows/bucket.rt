//! The rows of the places with one remainder: mostly one, and older ones while a key that was cut off is out.
ghost use Rattle.std.specs.Prelude.{true, false, ◌≡◌, ◌≢◌, ℕ, ◌+◌, ◌<◌, ◌≤◌, suc, List, [], ◌∷◌, ◌++◌, length, slice_index_or, take, drop, Some, None, IfSome, IfNone, OnOk, OnErr, option_copied};
ghost use Rattle.am_segment.specs.Segments.{KeyView, AreAllKeys};
ghost use Rattle.am_cast.specs.inside.KeyRows.{RowView, find_row, HasNoRow, AreApart, MayTake, row_with, IsRowOf, HaveRemainder};

use crate::key_rows::row::Row;
use crate::key_rows::spares::Spares;
use am_segment::{JoinedKeys, SegKey};
use std::alloc::{AllocError, Global};
use std::marker::Model;

pub(crate) struct Bucket<T> {
    rows: Vec<Row<T>>,
}

impl<T> Model for Bucket<T> {
    ghost use Rattle.am_cast.specs.inside.KeyRows.{BucketView, coded_bucket};
    ghost use Rattle.std.specs.Prelude.{◌-◌, vec_capacity, vec_len};

    ghost Value = { BucketView T };

    ghost coded = { coded_bucket T.code };

    ghost view = { λ b. record { rows = b.rows.items; room = vec_capacity b.rows - vec_len b.rows } };
}

impl<T> Bucket<T> {
    pub(crate) fn new(alloc: Global) -> Bucket<T>
        ensures { result.rows ≡ [] }
    {
        Bucket {
            rows: Vec::new(alloc),
        }
    }

    /// Makes room for a row more.
    pub(crate) fn reserve(&mut self) -> Result<(), AllocError>
        ensures rows { self.new.rows ≡ self.old.rows }
        ensures room { self.old.room ≤ self.new.room }
        ensures ok { OnOk result (1 ≤ self.new.room) }
    {
        self.rows.reserve(1)
    }

    // The index of the place's row.
    fn find(&self, place: u64) -> Option<usize>
        ensures none { IfNone result (find_row place self.now.rows ≡ None) }
        ensures some { IfSome result (λ k. IsRowOf place self.now.rows k) }
    {
        for (index, row) in self.rows.iter().enumerate() {
            if row.place() == place {
                return Some(index);
            }
        }
        None
    }

    /// The keys of the place's row, if there is one.
    pub(crate) fn keys(&self, place: u64) -> Option<&JoinedKeys<T>>
        requires { AreApart self.now.rows }
        ensures { option_copied result ≡ find_row place self.now.rows }
    {
        match self.find(place) {
            Some(index) => Some(self.rows[index].keys()),
            None => None,
        }
    }

    /// The key goes to the others of its place. The eighth ends its segment, and what is left of it is kept.
    pub(crate) fn bring(&mut self, place: u64, key: SegKey<T>, spares: &mut Spares<T>)
    where
        T: Drop,
        requires row { (keys : List (KeyView T)) × (find_row place self.old.rows ≡ Some keys)
            × MayTake keys key }
        requires apart { AreApart self.old.rows }
        ensures here { (keys : List (KeyView T)) → find_row place self.old.rows ≡ Some keys
            → find_row place self.new.rows ≡ row_with keys key }
        ensures others { (p : ℕ) → p ≢ place → find_row p self.new.rows ≡ find_row p self.old.rows }
        ensures apart { AreApart self.new.rows }
        ensures remainder { (places n : ℕ) → HaveRemainder places n self.old.rows
            → HaveRemainder places n self.new.rows }
        ensures room { self.old.room ≤ self.new.room }
    {
        let Some(index) = self.find(place) else {
            unreachable!()
        };
        let row = &mut self.rows[index];
        row.add(key);
        if row.is_full() {
            self.end_row(index, spares);
        }
    }

    /// The segment of the row at the index ends, and what is left of it is kept. It is a function apart, so
    /// that the seven keys before take little code.
    #[inline(never)]
    fn end_row(&mut self, index: usize, spares: &mut Spares<T>)
    where
        T: Drop,
        requires { (index < length self.old.rows) × ((row : RowView T)
            → row ≡ slice_index_or self.old.rows index row → AreAllKeys row.keys) }
        ensures rows { self.new.rows ≡ take index self.old.rows ++ drop (suc index) self.old.rows }
        ensures room { self.old.room ≤ self.new.room }
    {
        spares.keep(self.rows.remove(index).end());
    }

    /// A row more, of a place that had none.
    pub(crate) fn insert(&mut self, row: Row<T>)
        requires room { 1 ≤ self.old.room }
        ensures { self.new.rows ≡ self.old.rows ++ row ∷ [] }
    {
        self.rows.push_reserved(row);
    }

    /// Lets the rows go, each as `Row::leak`.
    pub(crate) fn leak(self) {
        let Bucket { mut rows } = self;
        while let Some(row) = rows.pop() {
            row.leak();
        }
        rows.destroy_empty();
    }

    /// The end of a bucket without rows.
    pub(crate) fn end(self)
        requires { self.rows ≡ [] }
    {
        let Bucket { rows } = self;
        rows.destroy_empty();
    }
}
