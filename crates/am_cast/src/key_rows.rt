//! The writer's keys: those that came home wait in rows, one for each place, until the eighth is
//! there and ends the segment.
//!
//! A row is made before anything else of a post is, so that memory can be lacking only there:
//! `admit`, `harvest`, `retire`, `reclaim` and `close` take none.
ghost use Rattle.std.specs.Prelude.{true, false, ◌≡◌, ◌≢◌, ℕ, ◌%◌, ◌<◌, ◌≤◌, List, ◌∷◌, ◌++◌, [], length, slice_index_or, Some, None, IfSome, IfOk, OnOk, option_copied};
ghost use Rattle.am_segment.specs.Segments.{AreAllKeys, KeyView};
ghost use Rattle.am_cast.specs.inside.KeyRows.{bucket_of, no_bucket, row_at, MayTake, row_with};

mod bucket;
mod row;
mod spares;

use crate::limits::MOST_SPARES;
use am_segment::{JoinedKeys, SegKey, SegmentBuilder};
pub(crate) use bucket::Bucket;
pub(crate) use row::Row;
use spares::Spares;
use std::alloc::{AllocError, Global};
use std::marker::Model;

/// A bucket for each remainder of the number of places. A cut lane's old row stays with the
/// newer ones until its last key is home.
pub(crate) struct KeyRows<T> {
    buckets: Vec<Bucket<T>>,
    // What is left of segments that have ended.
    spares: Spares<T>,
}

impl<T> Model for KeyRows<T> {
    ghost use Rattle.std.specs.Prelude.{List};
    ghost use Rattle.std.specs.Coded.{coded_list};
    ghost use Rattle.am_cast.specs.inside.KeyRows.{BucketView, coded_bucket, AreSorted};

    ghost Value = { List (BucketView T) };

    ghost coded = { coded_list (coded_bucket T.code) };

    ghost view = { λ r. r.buckets.items };

    ghost invariant = { λ r. AreSorted r.buckets.items };
}

impl<T> KeyRows<T> {
    /// That many buckets without rows.
    pub(crate) fn new(alloc: Global, places: usize) -> Result<KeyRows<T>, AllocError>
        requires { 0 < places }
        ensures count { IfOk result (λ rows. length rows ≡ places) }
        ensures none { IfOk result (λ rows. (p : ℕ) → row_at rows p ≡ None) }
    {
        let spares = Spares::new(alloc, places.min(MOST_SPARES))?;
        let Ok(mut buckets) = Vec::with_capacity(alloc, places) else {
            spares.end();
            return Err(AllocError);
        };
        for _remainder in 0..places {
            buckets.push_reserved(Bucket::new(alloc));
        }
        Ok(KeyRows { buckets, spares })
    }

    /// The keys of the place that wait for others, if there are any.
    pub(crate) fn keys(&self, place: u64) -> Option<&JoinedKeys<T>>
        ensures { option_copied result ≡ row_at self.now place }
    {
        let at = (place % self.buckets.len() as u64) as usize;
        self.buckets[at].keys(place)
    }

    /// Makes room for a row more in the bucket at the index.
    pub(crate) fn reserve(&mut self, index: usize) -> Result<(), AllocError>
        requires { index < length self.old }
        ensures count { length self.new ≡ length self.old }
        ensures rows { (p : ℕ) → row_at self.new p ≡ row_at self.old p }
        ensures room { OnOk result (1 ≤ (slice_index_or self.new index no_bucket).room) }
    {
        self.buckets[index].reserve()
    }

    /// The key goes to the others of its place, in the bucket at the index. The eighth ends its
    /// segment.
    pub(crate) fn bring(&mut self, index: usize, place: u64, key: SegKey<T>)
    where
        T: Drop,
        requires index { index ≡ place % length self.old }
        requires row { (keys : List (KeyView T)) × (row_at self.old place ≡ Some keys)
            × MayTake keys key }
        ensures count { length self.new ≡ length self.old }
        ensures here { (keys : List (KeyView T)) → row_at self.old place ≡ Some keys
            → row_at self.new place ≡ row_with keys key }
        ensures others { (p : ℕ) → p ≢ place → row_at self.new p ≡ row_at self.old p }
        ensures room { (p : ℕ) → (bucket_of self.old p).room ≤ (bucket_of self.new p).room }
    {
        self.buckets[index].bring(place, key, &mut self.spares);
    }

    /// The segment of a row with all of its keys ends.
    pub(crate) fn end_row(&mut self, row: Row<T>)
    where
        T: Drop,
        requires { AreAllKeys row.keys }
        ensures { self.new ≡ self.old }
    {
        self.spares.keep(row.end());
    }

    /// What is left of a segment that has ended, if its block has this number of places.
    pub(crate) fn spare(&mut self, places: usize) -> Option<SegmentBuilder<T>>
        ensures spare { IfSome result (λ builder. builder ≡ record { items = []; places = places }) }
        ensures same { self.new ≡ self.old }
    {
        self.spares.take(places)
    }

    /// A row more in the bucket at the index, of a place that had none.
    pub(crate) fn insert(&mut self, index: usize, row: Row<T>)
        requires index { index ≡ row.place % length self.old }
        requires room { 1 ≤ (bucket_of self.old row.place).room }
        requires none { row_at self.old row.place ≡ None }
        ensures count { length self.new ≡ length self.old }
        ensures here { row_at self.new row.place ≡ Some row.keys }
        ensures others { (p : ℕ) → p ≢ row.place → row_at self.new p ≡ row_at self.old p }
    {
        self.buckets[index].insert(row);
    }

    /// Lets the rows go: the segments of the keys in them never end.
    pub(crate) fn leak(self) {
        let KeyRows {
            mut buckets,
            spares,
        } = self;
        spares.end();
        while let Some(bucket) = buckets.pop() {
            bucket.leak();
        }
        buckets.destroy_empty();
    }

    /// The end of rows that are all gone.
    pub(crate) fn end(self)
        requires { (p : ℕ) → row_at self p ≡ None }
    {
        let KeyRows {
            mut buckets,
            spares,
        } = self;
        spares.end();
        while let Some(bucket) = buckets.pop() {
            bucket.end();
        }
        buckets.destroy_empty();
    }
}
