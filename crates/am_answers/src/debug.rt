//! How `{:?}` shows the types that hold a configuration: by their names.

use crate::consumer::Consumer;
use crate::prepared_config::PreparedConfig;
use std::fmt;

impl<'c> fmt::Debug for Consumer<'c> {
    fn fmt<W: fmt::Write>(&self, f: &mut fmt::Formatter<W>) -> fmt::Result {
        f.debug_struct("Consumer").finish_non_exhaustive()
    }
}

impl<'c> fmt::Debug for PreparedConfig<'c> {
    fn fmt<W: fmt::Write>(&self, f: &mut fmt::Formatter<W>) -> fmt::Result {
        f.debug_struct("PreparedConfig").finish_non_exhaustive()
    }
}
