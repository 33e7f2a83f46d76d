//! A subscription, with the provider that it reads from.

ghost use Rattle.std.specs.Prelude.{◌≡◌};
ghost use Rattle.sinnoraku.specs.Waits.{AnswersNext};

use crate::iter::Iter;
use crate::next::Next;
use am_provider::{Provider, Recorded, Step, Subscription};
use std::alloc::AllocError;
use std::fmt;
use std::sync::Wait;

/// A subscription, with the provider that it reads from. Its subscription has to be given back by
/// `Provider::leave`: a reader that is let go doesn't compile. It reads without the lock.
pub struct Reader<'p, N: Recorded> {
    pub provider: &'p Provider<N>,
    /// `next` of it lends an alert and doesn't wait; `next_slice` lends as many as lie together.
    pub subscription: Subscription<'p, N>,
}

impl<'p, N: Recorded> Reader<'p, N> {
    /// The next alert, or why none will come. It sleeps while there is neither. If memory runs out for the copy, the
    /// alert counts as shown.
    pub fn next_or_wait<R: Wait>(&mut self, rt: &R) -> Result<Next, AllocError>
        ensures next { AnswersNext self.old.subscription result self.new.subscription }
        ensures same { self.new.provider ≡ self.old.provider }
    {
        for _turn in rt.forever() {
            match self.subscription.next() {
                Step::Item(alert) => match alert.copy() {
                    Ok(copy) => return Ok(Next::Alert(copy)),
                    Err(error) => return Err(error),
                },
                Step::Pending => self.subscription.wait(rt),
                Step::Closed => return Ok(Next::Closed),
                Step::Cut => return Ok(Next::Cut),
            }
        }
        unreachable!()
    }

    /// Goes over the alerts, one after another, and sleeps while there is none. It ends when no more will come; `leave`
    /// says why.
    pub fn iter<'r, R: Wait>(&'r mut self, rt: &'r R) -> Iter<'r, 'p, N, R>
        ensures same_reader { result.reader.ghost_name ≡ self.entry.ghost_name }
        ensures reader { result.reader.now ≡ self.old }
        ensures left { result.left ≡ u64.MAX }
    {
        Iter::new(rt, self)
    }
}

impl<'p, N: Recorded> fmt::Debug for Reader<'p, N> {
    fn fmt<W: fmt::Write>(&self, f: &mut fmt::Formatter<W>) -> fmt::Result {
        f.debug_struct("Reader").finish_non_exhaustive()
    }
}
