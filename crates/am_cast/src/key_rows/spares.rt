//! Blocks of segments that have ended, for later segments of their size.
//!
//! As many blocks are kept as the log has places, since one harvest can end that many segments, but no more than
//! MOST_SPARES: in a longer log the others are freed.
ghost use Rattle.std.specs.Prelude.{◌≡◌, [], IfSome};
ghost use Rattle.std.specs.List.{All};

use am_segment::SegmentBuilder;
use std::alloc::{AllocError, Global};

/// A bounded number of builders without items.
pub(crate) struct Spares<T> {
    builders: Vec<SegmentBuilder<T>>,
    ghost empty: { All (λ builder. builder.items ≡ []) builders.items },
}

impl<T> Spares<T> {
    /// None yet, and room for that many.
    pub(crate) fn new(alloc: Global, most: usize) -> Result<Spares<T>, AllocError> {
        let builders = Vec::with_capacity(alloc, most)?;
        Ok(Spares { builders })
    }

    /// Keeps a builder. If there are as many as there may be, it is freed.
    pub(crate) fn keep(&mut self, builder: SegmentBuilder<T>)
        requires { builder.items ≡ [] }
    {
        if self.builders.len() < self.builders.capacity() {
            self.builders.push_reserved(builder);
        } else {
            builder.free();
        }
    }

    /// The builder that was kept last, if it has this number of places. If it has not, it is freed, so that
    /// builders of a size that is no longer asked for don't stay.
    pub(crate) fn take(&mut self, places: usize) -> Option<SegmentBuilder<T>>
        ensures { IfSome result (λ builder. builder ≡ record { items = []; places = places }) }
    {
        let builder = self.builders.pop()?;
        if builder.places() == places {
            return Some(builder);
        }
        builder.free();
        None
    }

    pub(crate) fn end(self) {
        let Spares { mut builders } = self;
        while let Some(builder) = builders.pop() {
            builder.free();
        }
        builders.destroy_empty();
    }
}
