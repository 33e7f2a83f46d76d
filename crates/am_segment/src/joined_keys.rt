//! Keys of one segment that came together, and the end of a segment: once all of its keys are
//! joined, its items are dropped, and its block is freed or filled anew.

ghost use Rattle.std.specs.Prelude.{◌≡◌, ◌+◌, ◌-◌, ◌≤◌, ◌<◌, [], ◌∷◌, ◌++◌, length, map, count_by, nat_eq, None, Some};
ghost use Rattle.std.specs.List.{All};
ghost use Rattle.am_segment.specs.Segments.{AreAllKeys, MayJoin, MayJoinRest, rest_of};
ghost use Rattle.am_segment.specs.inside.Fields.{key_of_part};
ghost use Rattle.am_segment.specs.inside.Shares.{lasts};

use crate::builder::SegmentBuilder;
use crate::key::SegKey;
use crate::key_run::KeyRun;
use crate::share::Share;
use std::marker::Model;

/// Some keys of one segment. Any number of them takes the room of one. They must be spent, by
/// their `reunite` once they are all.
pub struct JoinedKeys<T> {
    count: usize,
    held: Option<Share<T>>,
}

impl<T> Model for JoinedKeys<T> {
    ghost use Rattle.std.specs.Prelude.{List};
    ghost use Rattle.std.specs.Coded.{coded_list};
    ghost use Rattle.am_segment.specs.Segments.{KeyView, coded_key};

    ghost Value = { List (KeyView T) };

    ghost coded = { coded_list (coded_key T.code) };

    ghost use Rattle.am_segment.specs.inside.Fields.{joined_view, IsJoined};

    ghost view = { joined_view };

    ghost invariant = { IsJoined };
}

impl<T> JoinedKeys<T> {
    /// No keys, of any segment.
    pub fn new() -> JoinedKeys<T>
        ensures { result ≡ [] }
    {
        JoinedKeys {
            count: 0,
            held: None,
        }
    }

    /// How many there are.
    pub fn len(&self) -> usize
        ensures { result ≡ length self.now }
    {
        self.count
    }

    /// The items that each of them shows, if there is one.
    pub fn as_slice(&self) -> &[T]
        ensures { All (λ key. result.now ≡ key.items) self.now }
    {
        match &self.held {
            None => &[],
            Some(held) => held.items(),
        }
    }

    /// A key more.
    pub fn add(&mut self, key: SegKey<T>)
        requires { MayJoin self.old key }
        ensures { self.new ≡ self.old ++ key ∷ [] }
    {
        let SegKey { share } = key;
        self.hold(share, 1);
    }

    /// All keys that are still to come.
    pub fn add_rest(&mut self, rest: KeyRun<T>)
        requires { MayJoinRest self.old rest }
        ensures { self.new ≡ self.old ++ rest_of rest }
    {
        let KeyRun {
            rest: share,
            next,
            last,
        } = rest;
        self.hold(share, last - next + 1);
    }

    // What further keys have goes to what the others have. The two cases stay apart, since keys that came are
    // where they were.
    fn hold(&mut self, more: Share<T>, count: usize)
        requires count { count ≡ length more.part.numbers }
        requires same { All (λ key. key ≡ key_of_part more.part key.number) self.old }
        requires few { length self.old + count ≤ more.part.keys }
        requires once { 0 < lasts more.part.keys more.part.numbers
            → count_by (λ key. nat_eq key.number (more.part.keys - 1)) self.old ≡ 0 }
        ensures { self.new ≡ self.old ++ map (key_of_part more.part) more.part.numbers }
    {
        match self.held.take() {
            None => match self.held.replace(more) {
                None => {}
                Some(_) => unreachable!(),
            },
            Some(held) => {
                let all = held.join(more);
                match self.held.replace(all) {
                    None => {}
                    Some(_) => unreachable!(),
                }
            }
        }
        self.count += count;
    }

    /// Drops the segment's items, for all of its keys. Its block is then to be filled anew, or to be freed.
    pub fn into_builder(self) -> SegmentBuilder<T>
    where
        T: Drop,
        requires { AreAllKeys self }
        ensures { result.items ≡ [] }
    {
        let JoinedKeys { count: _, held } = self;
        let Some(held) = held else { unreachable!() };
        held.into_builder()
    }

    /// Lets the keys go, with the same effect as `SegKey::leak` for each of them.
    pub fn leak(self) {
        let JoinedKeys { count: _, held } = self;
        if let Some(share) = held {
            share.leak();
        }
    }

    /// Drops the segment's items and frees it, for all of its keys.
    pub fn reunite(self)
    where
        T: Drop,
        requires { AreAllKeys self }
    {
        self.into_builder().free();
    }
}

/// Drops a segment's items and frees it, for all of its keys in any order.
pub fn reunite<T: Drop>(keys: Vec<SegKey<T>>)
    requires { AreAllKeys keys.items }
{
    let mut keys = keys;
    let Some(first) = keys.pop() else {
        unreachable!()
    };
    let SegKey { share: mut all } = first;
    while let Some(key) = keys.pop() {
        let SegKey { share } = key;
        all = all.join(share);
    }
    keys.destroy_empty();
    all.into_builder().free();
}
