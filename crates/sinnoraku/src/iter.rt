//! The alerts of a reader, one after another.

ghost use Rattle.std.specs.Prelude.{◌≡◌};
ghost use Rattle.std.specs.Iterator.{at_most};

use crate::next::Next;
use crate::reader::Reader;
use am_alert::Alert;
use am_provider::Recorded;
use std::alloc::AllocError;
use std::fmt;
use std::sync::Wait;

/// The alerts of a reader, one after another. Each is a copy, which shares its texts.
pub struct Iter<'r, 'p, N: Recorded, R: Wait> {
    rt: &'r R,
    pub(crate) reader: &'r mut Reader<'p, N>,
    /// How often it may still be asked: an iterator has to end.
    pub(crate) left: u64,
}

impl<'r, 'p, N: Recorded, R: Wait> Iter<'r, 'p, N, R> {
    pub(crate) fn new(rt: &'r R, reader: &'r mut Reader<'p, N>) -> Iter<'r, 'p, N, R>
        ensures same_reader { result.reader.ghost_name ≡ reader.entry.ghost_name }
        ensures reader { result.reader.now ≡ reader.old }
        ensures left { result.left ≡ u64.MAX }
    {
        Iter {
            rt,
            reader,
            left: u64::MAX,
        }
    }
}

impl<'r, 'p, N: Recorded, R: Wait> Drop for Iter<'r, 'p, N, R> {
    fn drop(self)
        ensures { self.exit.1.0.now ≡ self.entry.reader.now }
    {
        let Iter {
            rt: _,
            reader: _,
            left: _,
        } = self;
    }
}

impl<'r, 'p, N: Recorded, R: Wait> Iterator for Iter<'r, 'p, N, R> {
    ghost use Rattle.sinnoraku.specs.Waits.{GivesNext};

    type Item = Result<Alert, AllocError>;

    ghost next_gives = { λ s given t.
        GivesNext s.left s.reader.now.subscription given t.left t.reader.now.subscription
        × (t.reader.ghost_name ≡ s.reader.ghost_name) × (t.reader.now.provider ≡ s.reader.now.provider) };

    ghost remaining = { λ s. at_most s.left };

    fn next(&mut self) -> Option<Result<Alert, AllocError>> {
        if self.left == 0 {
            return None;
        }
        self.left -= 1;
        match self.reader.next_or_wait(self.rt) {
            Ok(Next::Alert(alert)) => Some(Ok(alert)),
            Ok(Next::Closed | Next::Cut) => None,
            Err(error) => Some(Err(error)),
        }
    }
}

impl<'r, 'p, N: Recorded, R: Wait> fmt::Debug for Iter<'r, 'p, N, R> {
    fn fmt<W: fmt::Write>(&self, f: &mut fmt::Formatter<W>) -> fmt::Result {
        f.debug_struct("Iter").finish_non_exhaustive()
    }
}
