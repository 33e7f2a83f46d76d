//! How `{:?}` shows the types whose items lie in a shared block: by their names.

use crate::builder::SegmentBuilder;
use crate::joined_keys::JoinedKeys;
use crate::key::SegKey;
use crate::key_run::KeyRun;
use crate::seal_fault::SealFault;
use std::fmt;

impl<T> fmt::Debug for SegmentBuilder<T> {
    fn fmt<W: fmt::Write>(&self, f: &mut fmt::Formatter<W>) -> fmt::Result {
        f.debug_struct("SegmentBuilder")
            .field("items", &self.count)
            .finish_non_exhaustive()
    }
}

impl<T> fmt::Debug for JoinedKeys<T> {
    fn fmt<W: fmt::Write>(&self, f: &mut fmt::Formatter<W>) -> fmt::Result {
        f.debug_struct("JoinedKeys").finish_non_exhaustive()
    }
}

impl<T> fmt::Debug for SegKey<T> {
    fn fmt<W: fmt::Write>(&self, f: &mut fmt::Formatter<W>) -> fmt::Result {
        f.debug_struct("SegKey").finish_non_exhaustive()
    }
}

impl<T> fmt::Debug for KeyRun<T> {
    fn fmt<W: fmt::Write>(&self, f: &mut fmt::Formatter<W>) -> fmt::Result {
        f.debug_struct("KeyRun").finish_non_exhaustive()
    }
}

impl<T> fmt::Debug for SealFault<T> {
    fn fmt<W: fmt::Write>(&self, f: &mut fmt::Formatter<W>) -> fmt::Result {
        f.debug_struct("SealFault").finish_non_exhaustive()
    }
}
