//! The keys of a new segment, handed out one by one without a list of them.

ghost use Rattle.std.specs.Prelude.{◌≡◌, ◌≢◌, ◌+◌, ◌<◌, ◌≤◌, ◌++◌, length, vec_capacity, MatchOption};
ghost use Rattle.am_segment.specs.Segments.{rest_of};

use crate::key::SegKey;
use crate::share::Share;
use std::marker::Model;

/// The keys of a segment that are still to come, seen as the next of them. It must be spent, by
/// `next` until no more are left.
pub struct KeyRun<T> {
    pub(crate) rest: Share<T>,
    pub(crate) next: usize,
    pub(crate) last: usize,
}

impl<T> Model for KeyRun<T> {
    ghost use Rattle.am_segment.specs.Segments.{KeyView, coded_key};

    ghost Value = { KeyView T };

    ghost coded = { coded_key T.code };

    ghost use Rattle.am_segment.specs.inside.Fields.{run_view, IsRun};

    ghost view = { run_view };

    ghost invariant = { IsRun };
}

impl<T> KeyRun<T> {
    /// A run whose keys are all still to come, and a key of another segment: the two have different names.
    pub fn apart_from(self, key: SegKey<T>) -> (KeyRun<T>, SegKey<T>)
        requires { self.number ≡ 0 }
        ensures same { (result.0 ≡ self) × (result.1 ≡ key) }
        ensures apart { self.segment ≢ key.segment }
    {
        let KeyRun { rest, next, last } = self;
        let SegKey { share } = key;
        let (rest, share) = rest.tell_apart(share);
        (KeyRun { rest, next, last }, SegKey { share })
    }

    /// The next key, and the keys after it, of which there is at least one.
    pub fn split_first(self) -> (SegKey<T>, KeyRun<T>)
        requires { self.number + 1 < self.keys }
        ensures { (result.0 ≡ self) × (result.1 ≡ record self { number = self.number + 1 }) }
    {
        let KeyRun { rest, next, last } = self;
        let (share, rest) = rest.split_one(next);
        let run = KeyRun {
            rest,
            next: next + 1,
            last,
        };
        (SegKey { share }, run)
    }

    /// The last key.
    pub fn into_last(self) -> SegKey<T>
        requires { self.number + 1 ≡ self.keys }
        ensures { result ≡ self }
    {
        let KeyRun {
            rest: share,
            next: _,
            last: _,
        } = self;
        SegKey { share }
    }

    /// The next key, and the keys after it.
    pub fn next(self) -> (SegKey<T>, Option<KeyRun<T>>)
        ensures key { result.0 ≡ self }
        ensures rest { MatchOption result.1 (self.number + 1 ≡ self.keys)
            (λ rest. (self.number + 1 < self.keys)
            × (rest ≡ record self { number = self.number + 1 })) }
    {
        if self.next == self.last {
            return (self.into_last(), None);
        }
        let (key, rest) = self.split_first();
        (key, Some(rest))
    }

    /// All of them, after the other keys in a list that has room.
    pub(crate) fn push_all(self, keys: Vec<SegKey<T>>) -> Vec<SegKey<T>>
        requires { length keys.items + length (rest_of self) ≤ vec_capacity keys }
        ensures { result.items ≡ keys.items ++ rest_of self }
    {
        let mut keys = keys;
        let mut rest = Some(self);
        while let Some(run) = rest {
            let (key, others) = run.next();
            keys.push_reserved(key);
            rest = others;
        }
        keys
    }
}
