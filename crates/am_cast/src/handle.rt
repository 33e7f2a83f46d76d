//! What a cursor reaches the log's table by: a borrow of it, or a share in owning it.

ghost use Rattle.std.specs.Prelude.{◌≡◌, IfOk, IfErr};
ghost use Rattle.std.specs.Arc.{arc_value};

use crate::cursor::Cast;
use crate::feed::Feed;
use std::alloc::{AllocError, AllocFailed, Global};
use std::sync::Arc;

/// What has the table of the log `N`. A cursor has one, so it lives as long as the cursor does.
pub trait AsCast<T, N: Feed, P, A> {
    fn as_cast(&self) -> &Cast<T, N, P, A>;
}

impl<'a, T, N: Feed, P, A> AsCast<T, N, P, A> for &'a Cast<T, N, P, A> {
    fn as_cast(&self) -> &Cast<T, N, P, A> {
        self
    }
}

/// A table with several owners, in any threads, for cursors that outlive any borrow of it. To end its log, drop or retire
/// its cursors, and then take the table out by `try_unwrap`.
pub struct SharedCast<T, N: Feed, P = (), A = ()> {
    cast: Arc<Cast<T, N, P, A>>,
}

impl<T, N: Feed, P, A> SharedCast<T, N, P, A> {
    /// Its first owner. If there is no memory the table comes back.
    pub fn new(
        alloc: Global,
        cast: Cast<T, N, P, A>,
    ) -> Result<SharedCast<T, N, P, A>, Cast<T, N, P, A>>
        ensures ok { IfOk result (λ shared. arc_value shared.cast ≡ cast) }
        ensures err { IfErr result (λ back. back ≡ cast) }
    {
        match Arc::new(alloc, cast) {
            Ok(cast) => Ok(SharedCast { cast }),
            Err(AllocFailed { value }) => Err(value),
        }
    }

    /// One owner more. It takes no memory: the error is that there are 2^63 owners.
    pub fn try_clone(&self) -> Result<SharedCast<T, N, P, A>, AllocError>
        ensures { IfOk result (λ other. arc_value other.cast ≡ arc_value self.now.cast) }
    {
        let cast = Arc::try_clone(&self.cast)?;
        Ok(SharedCast { cast })
    }

    /// The table, if this is its only owner. If not, this owner comes back.
    pub fn try_unwrap(self) -> Result<Cast<T, N, P, A>, SharedCast<T, N, P, A>>
        ensures ok { IfOk result (λ cast. cast ≡ arc_value self.cast) }
        ensures err { IfErr result (λ back. back ≡ self) }
    {
        let SharedCast { cast } = self;
        match Arc::try_unwrap(cast) {
            Ok(cast) => Ok(cast),
            Err(cast) => Err(SharedCast { cast }),
        }
    }
}

impl<T, N: Feed, P, A> AsCast<T, N, P, A> for SharedCast<T, N, P, A> {
    fn as_cast(&self) -> &Cast<T, N, P, A> {
        &self.cast
    }
}

/// The last owner lets the table go, as `Cast::leak`.
impl<T, N: Feed, P, A> Drop for SharedCast<T, N, P, A> {
    fn drop(self) {
        let SharedCast { cast } = self;
        if let Some(cast) = Arc::into_inner(cast) {
            cast.leak();
        }
    }
}
