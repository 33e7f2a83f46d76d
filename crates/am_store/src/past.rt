//! Values that were, for contracts alone.
//!
//! `Past` and not the library's `Snapshot`: with a `Vec<Snapshot<Call>>` in the journal the checker gives up
//! wherever threads share the provider (`spawn_with-requires-send-F` of am_runner's `threads::run_from`). Why
//! isn't known.

ghost use Rattle.std.specs.Prelude.{◌≡◌};
ghost use Rattle.std.specs.Borrow.{ftrue};

use std::fmt;
use std::marker::{Model, PhantomData, Send};

/// A value that was: contracts read it, and no code. It takes no memory. It may be part of what goes to another
/// thread, and a caller has nothing to prove for that.
#[derive(Drop)]
pub struct Past<T> {
    of: PhantomData<T>,
    pub ghost value: { T },
}

impl<T> Model for Past<T> {
    ghost also_owns = { λ _. ftrue };
}

// It owns nothing.
unsafe impl<T> Send for Past<T> {}

impl<T> Past<T> {
    /// What a reference shows.
    pub fn of(value: &T) -> Past<T>
        ensures { result.value ≡ value.now }
    {
        let _ = value;
        Past { of: PhantomData }
    }
}

impl<T> fmt::Debug for Past<T> {
    fn fmt<W: fmt::Write>(&self, f: &mut fmt::Formatter<W>) -> fmt::Result {
        f.debug_struct("Past").finish_non_exhaustive()
    }
}
