//! How `{:?}` shows the types that proofs alone look into: by their names.

use crate::book::Book;
use crate::entry::Entry;
use crate::feed::{Origin, Recorded};
use crate::parts::{Begun, Parts};
use crate::pass::Pass;
use crate::register::Register;
use crate::subscription::Subscription;
use am_history::Timeline;
use std::fmt;

impl<N: Origin> fmt::Debug for Book<N> {
    fn fmt<W: fmt::Write>(&self, f: &mut fmt::Formatter<W>) -> fmt::Result {
        f.debug_struct("Book").finish_non_exhaustive()
    }
}

impl fmt::Debug for Entry {
    fn fmt<W: fmt::Write>(&self, f: &mut fmt::Formatter<W>) -> fmt::Result {
        f.debug_struct("Entry").finish_non_exhaustive()
    }
}

impl fmt::Debug for Parts {
    fn fmt<W: fmt::Write>(&self, f: &mut fmt::Formatter<W>) -> fmt::Result {
        f.debug_struct("Parts")
            .field("posters", &self.posters)
            .finish_non_exhaustive()
    }
}

impl<N: Origin> fmt::Debug for Begun<N> {
    fn fmt<W: fmt::Write>(&self, f: &mut fmt::Formatter<W>) -> fmt::Result {
        f.debug_struct("Begun").finish_non_exhaustive()
    }
}

impl<N: Origin> fmt::Debug for Pass<N> {
    fn fmt<W: fmt::Write>(&self, f: &mut fmt::Formatter<W>) -> fmt::Result {
        f.debug_struct("Pass").finish_non_exhaustive()
    }
}

impl<'a, N: Origin> fmt::Debug for Subscription<'a, N> {
    fn fmt<W: fmt::Write>(&self, f: &mut fmt::Formatter<W>) -> fmt::Result {
        f.debug_struct("Subscription").finish_non_exhaustive()
    }
}

impl<N: Recorded, M: Timeline> fmt::Debug for Register<N, M> {
    fn fmt<W: fmt::Write>(&self, f: &mut fmt::Formatter<W>) -> fmt::Result {
        f.debug_struct("Register").finish_non_exhaustive()
    }
}
