//! What contracts see of a batch, and the table of a log of such batches.
ghost use Rattle.am_cast.specs.Keys.{key_of};

use crate::rule::{AnyBoard, AnySeat, AnyTop, Keyed};
use am_segment::SegKey;
use std::collections::LinkedList;
use std::marker::PhantomData;

/// A batch as contracts see it: no value of it is made. It has at least one item. `P` is what its
/// poster says of it.
pub struct BatchView<T, P> {
    pub post: P,
    /// The name of the segment with the items.
    pub segment: u64,
    pub first: T,
    pub others: LinkedList<T>,
}

/// Each lane's key of a batch is the key of its segment with the lane's number.
pub struct SegmentKeys<T, P> {
    of: PhantomData<(T, P)>,
}

impl<T, P> Keyed<BatchView<T, P>, SegKey<T>> for SegmentKeys<T, P> {
    ghost key = { key_of };
}

/// The table of a log.
pub type Board<T, P, A> = AnyBoard<BatchView<T, P>, SegKey<T>, A, SegmentKeys<T, P>>;

/// What the seats share of it.
pub type Top<T, P, A> = AnyTop<BatchView<T, P>, SegKey<T>, A, SegmentKeys<T, P>>;

/// A seat at it.
pub type LogSeat<T, P, A> = AnySeat<BatchView<T, P>, SegKey<T>, A>;
