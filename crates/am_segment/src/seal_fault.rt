//! The refusal of `seal`.

use crate::builder::SegmentBuilder;

/// There was no memory for the keys. The builder comes back as it was.
pub struct SealFault<T> {
    pub builder: SegmentBuilder<T>,
}
