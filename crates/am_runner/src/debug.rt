//! How `{:?}` shows the types that hold a provider: by their names.

use crate::context::Context;
use crate::open_subscription::OpenSubscription;
use crate::session::Session;
use am_provider::Recorded;
use std::fmt;

impl<'p, 'c, N: Recorded, R, T> fmt::Debug for Context<'p, 'c, N, R, T> {
    fn fmt<W: fmt::Write>(&self, f: &mut fmt::Formatter<W>) -> fmt::Result {
        f.debug_struct("Context").finish_non_exhaustive()
    }
}

impl<'p, 'c, N: Recorded> fmt::Debug for OpenSubscription<'p, 'c, N> {
    fn fmt<W: fmt::Write>(&self, f: &mut fmt::Formatter<W>) -> fmt::Result {
        f.debug_struct("OpenSubscription").finish_non_exhaustive()
    }
}

impl<'p, 'c, N: Recorded> fmt::Debug for Session<'p, 'c, N> {
    fn fmt<W: fmt::Write>(&self, f: &mut fmt::Formatter<W>) -> fmt::Result {
        f.debug_struct("Session").finish_non_exhaustive()
    }
}
