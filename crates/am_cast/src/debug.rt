//! How `{:?}` shows the types whose parts lie in a table that threads share: by their names.

use crate::batch_view::{BatchView, SegmentKeys};
use crate::cursor::{Cast, Cursor};
use crate::faults::{Refused, RefusedItem};
use crate::feed::Feed;
use crate::handle::{AsCast, SharedCast};
use crate::parts::{Begun, InUse, Parts};
use crate::pass::Pass;
use crate::sender::Sender;
use crate::writer::Writer;
use std::fmt;

impl<T, P> fmt::Debug for BatchView<T, P> {
    fn fmt<W: fmt::Write>(&self, f: &mut fmt::Formatter<W>) -> fmt::Result {
        f.debug_struct("BatchView").finish_non_exhaustive()
    }
}

impl<T, P> fmt::Debug for SegmentKeys<T, P> {
    fn fmt<W: fmt::Write>(&self, f: &mut fmt::Formatter<W>) -> fmt::Result {
        f.debug_struct("SegmentKeys").finish_non_exhaustive()
    }
}

impl<T, N: Feed, P, A> fmt::Debug for Cast<T, N, P, A> {
    fn fmt<W: fmt::Write>(&self, f: &mut fmt::Formatter<W>) -> fmt::Result {
        f.debug_struct("Cast").finish_non_exhaustive()
    }
}

impl<C: AsCast<T, N, P, A>, T, N: Feed, P, A> fmt::Debug for Cursor<C, T, N, P, A> {
    fn fmt<W: fmt::Write>(&self, f: &mut fmt::Formatter<W>) -> fmt::Result {
        f.debug_struct("Cursor")
            .field("lane", &self.number)
            .finish_non_exhaustive()
    }
}

impl<T> fmt::Debug for Refused<T> {
    fn fmt<W: fmt::Write>(&self, f: &mut fmt::Formatter<W>) -> fmt::Result {
        f.debug_struct("Refused")
            .field("fault", &self.fault)
            .finish_non_exhaustive()
    }
}

impl<T> fmt::Debug for RefusedItem<T> {
    fn fmt<W: fmt::Write>(&self, f: &mut fmt::Formatter<W>) -> fmt::Result {
        f.debug_struct("RefusedItem")
            .field("fault", &self.fault)
            .finish_non_exhaustive()
    }
}

impl<T, P, A> fmt::Debug for Parts<T, P, A> {
    fn fmt<W: fmt::Write>(&self, f: &mut fmt::Formatter<W>) -> fmt::Result {
        f.debug_struct("Parts")
            .field("places", &self.places)
            .finish_non_exhaustive()
    }
}

impl<T, N: Feed, P, A> fmt::Debug for Begun<T, N, P, A> {
    fn fmt<W: fmt::Write>(&self, f: &mut fmt::Formatter<W>) -> fmt::Result {
        f.debug_struct("Begun").finish_non_exhaustive()
    }
}

impl<T, N: Feed, P, A> fmt::Debug for InUse<T, N, P, A> {
    fn fmt<W: fmt::Write>(&self, f: &mut fmt::Formatter<W>) -> fmt::Result {
        f.debug_struct("InUse").finish_non_exhaustive()
    }
}

impl<T, N: Feed, P, A> fmt::Debug for SharedCast<T, N, P, A> {
    fn fmt<W: fmt::Write>(&self, f: &mut fmt::Formatter<W>) -> fmt::Result {
        f.debug_struct("SharedCast").finish_non_exhaustive()
    }
}

impl<T, N: Feed, P, A> fmt::Debug for Pass<T, N, P, A> {
    fn fmt<W: fmt::Write>(&self, f: &mut fmt::Formatter<W>) -> fmt::Result {
        f.debug_struct("Pass").finish_non_exhaustive()
    }
}

impl<T, N: Feed, P, A> fmt::Debug for Writer<T, N, P, A> {
    fn fmt<W: fmt::Write>(&self, f: &mut fmt::Formatter<W>) -> fmt::Result {
        f.debug_struct("Writer").finish_non_exhaustive()
    }
}

impl<C: AsCast<T, N, P, A>, T, N: Feed, P, A> fmt::Debug for Sender<C, T, N, P, A> {
    fn fmt<W: fmt::Write>(&self, f: &mut fmt::Formatter<W>) -> fmt::Result {
        f.debug_struct("Sender").finish_non_exhaustive()
    }
}
