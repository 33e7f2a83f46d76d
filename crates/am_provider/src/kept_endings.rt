//! The endings of subscriptions as they are kept in memory: those since the last trim or compaction. All of them
//! are in it as past values, which take no memory: contracts read them, and no code.

ghost use Rattle.std.specs.Prelude.{◌≡◌, ◌<◌, ◌≤◌, ◌+◌, ◌++◌, ◌∷◌, [], OnOk, filter, length, vec_capacity};
ghost use Rattle.am_provider.specs.inside.Endings.{is_since};

use crate::answers::Ended;
use am_store::Past;
use std::alloc::{AllocError, Global};
use std::marker::Model;

/// The endings of subscriptions that were given back, in order. Contracts see them as trims left them.
#[derive(Drop)]
pub(crate) struct KeptEndings {
    // What memory has of them.
    held: Vec<Ended>,
    // All of them, for contracts alone: a past value takes no memory.
    all: Vec<Past<Ended>>,
    // How many calls trims discarded.
    before: u64,
    // How many calls memory has no more.
    gone: u64,
    // How many endings memory has no more.
    others: u64,
}

impl Model for KeptEndings {
    ghost use Rattle.std.specs.Coded.{codes};
    ghost use Rattle.std.specs.Prelude.{◌-◌, filter, length, min, vec_len, vec_capacity};
    ghost use Rattle.am_provider.specs.contracts.answers.Ended as answered;
    ghost use Rattle.am_provider.specs.inside.Endings.{EndingsView, AreHeld, endings_in, is_since};

    ghost Value = { EndingsView };

    ghost coded = { Prim.hlevel (codes, answered.the_row.coded) };

    ghost view = { λ k. record {
      endings = filter (is_since k.before) (endings_in k.all.items);
      early = length (endings_in k.all.items) - length (filter (is_since k.before) (endings_in k.all.items));
      before = k.before;
      gone = k.gone;
      room = min (vec_capacity k.held - vec_len k.held) (vec_capacity k.all - vec_len k.all);
    } };

    ghost invariant = { λ k. AreHeld (endings_in k.all.items) k.before k.gone k.held.items k.others };
}

impl KeptEndings {
    /// No ending.
    pub(crate) fn new(alloc: Global) -> KeptEndings
        ensures endings { (result.endings ≡ []) × (result.early ≡ 0) }
        ensures from { (result.before ≡ 0) × (result.gone ≡ 0) }
    {
        KeptEndings {
            held: Vec::new(alloc),
            all: Vec::new(alloc),
            before: 0,
            gone: 0,
            others: 0,
        }
    }

    /// Makes room for `count` endings more.
    pub(crate) fn reserve(&mut self, count: usize) -> Result<(), AllocError>
        ensures same { (self.new.endings ≡ self.old.endings) × (self.new.early ≡ self.old.early) }
        ensures from { (self.new.before ≡ self.old.before) × (self.new.gone ≡ self.old.gone) }
        ensures room { OnOk result (count ≤ self.new.room) }
        ensures kept { self.old.room ≤ self.new.room }
    {
        self.held.reserve(count)?;
        self.all.reserve(count)
    }

    /// One ending more, of a subscription that no trim discarded.
    pub(crate) fn push(&mut self, ended: Ended)
        requires room { 0 < self.old.room }
        requires late { self.old.before ≤ ended.at }
        ensures endings { self.new.endings ≡ self.old.endings ++ ended ∷ [] }
        ensures early { self.new.early ≡ self.old.early }
        ensures from { (self.new.before ≡ self.old.before) × (self.new.gone ≡ self.old.gone) }
        ensures room { self.old.room ≤ self.new.room + 1 }
    {
        self.all.push_reserved(Past::of(&ended));
        if self.gone <= ended.at {
            self.held.push_reserved(ended);
        } else {
            self.others += 1;
        }
    }

    /// Discards the endings of subscriptions before which fewer calls had been made than trims have discarded
    /// now. How many calls memory has no more is given.
    pub(crate) fn trim(&mut self, before: u64, gone: u64)
        requires before { (self.old.before ≤ before) × (before ≤ gone) }
        requires gone { self.old.gone ≤ gone }
        ensures endings { self.new.endings ≡ filter (is_since before) self.old.endings }
        ensures early { self.new.early + length self.new.endings ≡ self.old.early + length self.old.endings }
        ensures from { (self.new.before ≡ before) × (self.new.gone ≡ gone) }
        ensures room { self.old.room ≤ self.new.room }
    {
        self.let_go(gone);
        self.before = before;
    }

    /// Lets go of the endings of subscriptions whose Subscribed memory has no more.
    pub(crate) fn let_go(&mut self, gone: u64)
        requires { self.old.gone ≤ gone }
        ensures same { (self.new.endings ≡ self.old.endings) × (self.new.early ≡ self.old.early) }
        ensures from { (self.new.before ≡ self.old.before) × (self.new.gone ≡ gone) }
        ensures room { self.old.room ≤ self.new.room }
    {
        let had = self.held.len();
        drop_before(&mut self.held, gone);
        self.others += (had - self.held.len()) as u64;
        self.gone = gone;
    }

    /// Those that memory has, and the number of the others.
    pub(crate) fn into_held(self) -> (Vec<Ended>, u64)
        ensures held { result.0.items ≡ filter (is_since self.gone) self.endings }
        ensures others { result.1 + length result.0.items ≡ self.early + length self.endings }
    {
        let KeptEndings {
            held,
            all: _,
            before: _,
            gone: _,
            others,
        } = self;
        (held, others)
    }
}

// Drops the endings of subscriptions before a call.
fn drop_before(endings: &mut Vec<Ended>, gone: u64)
    ensures kept { endings.new.items ≡ filter (is_since gone) endings.old.items }
    ensures fewer { length endings.new.items ≤ length endings.old.items }
    ensures capacity { vec_capacity endings.new ≡ vec_capacity endings.old }
{
    endings.retain(|ended| gone <= ended.at);
}
