//! Values with keys.

ghost use Rattle.std.specs.Prelude.{◌≡◌, Bool, true, [], IfOk, OnOk, OnErr, Some, is_some, map, filter, not};
ghost use Rattle.std.specs.List.{count_by, find, list_any, position, IsDistinct};
ghost use Rattle.am_keyed.specs.Keyed.{with_value, before_change};

use indexmap::IndexMap;
use std::alloc::{AllocError, Global};
use std::hash::Hash;
use std::marker::Model;
use std::{fmt, mem};

/// A value with a key.
pub trait HasKey<K: PartialEq> {
    ghost key: { Self → K };

    /// The key.
    fn key(&self) -> &K
        ensures { result.now ≡ key self.now };

    // Keys that are equal are the same.
    ghost same: { (a b : K) → K.eq a b ≡ true → a ≡ b };
}

/// What says which values are removed.
pub trait Removes<V> {
    ghost is_removed: { Self → V → Bool };

    /// Whether a value is removed.
    fn is_removed(&self, value: &V) -> bool
        ensures { result ≡ is_removed self.now value.now };
}

/// What a value changed, kept to undo it.
#[derive(Debug, Drop)]
pub enum KeyChange<V> {
    /// It began its key, the last one.
    Added,
    /// Its key had this value.
    Replaced(V),
}

/// Of each key its last value, in the order in which the keys came, seen by contracts as the list of the
/// values.
#[derive(Drop)]
pub struct KeyedList<K: Eq + Hash, V: HasKey<K>> {
    values: IndexMap<K, V>,
}

impl<K: Eq + Hash, V: HasKey<K>> Model for KeyedList<K, V> {
    ghost use Rattle.std.specs.Prelude.{List};
    ghost use Rattle.std.specs.Coded.{coded_list};
    ghost use Rattle.std.specs.Map.{values_of};
    ghost use Rattle.am_keyed.specs.inside.Entries.{AreOwnKeys};

    ghost Value = { List V };

    ghost coded = { coded_list V.code };

    ghost view = { λ a. values_of a.values.entries };

    ghost invariant = { λ a. AreOwnKeys V.key a.values.entries };
}

impl<K: Eq + Hash + Drop, V: HasKey<K> + Drop> KeyedList<K, V> {
    pub fn new(alloc: Global) -> KeyedList<K, V>
        ensures { result ≡ [] }
    {
        KeyedList {
            values: IndexMap::new(alloc),
        }
    }

    /// What it allocates from.
    pub fn allocator(&self) -> Global {
        *self.values.allocator()
    }

    /// The values.
    pub fn as_slice(&self) -> &[V]
        ensures values { result.now ≡ self.now }
        ensures distinct { IsDistinct K.eq (map V.key self.now) }
    {
        self.values.as_slice().values().as_slice()
    }

    /// Whether a key has a value.
    #[tactic(auto, using(crate::proofs::Entries::look_up_laws))]
    pub fn contains(&self, key: &K) -> bool
        ensures has { result ≡ list_any (K.eq key.now) (map V.key self.now) }
        ensures distinct { IsDistinct K.eq (map V.key self.now) }
    {
        self.values.get_index_of(key).is_some()
    }

    /// Replaces the value of its key, or adds it at the end.
    pub fn put(&mut self, key: K, value: V) -> Result<KeyChange<V>, AllocError>
        requires { key ≡ V.key value }
        ensures put { OnOk result (self.new ≡ with_value K.eq V.key value self.old) }
        ensures undo { IfOk result (λ change. before_change K.eq V.key change self.new ≡ self.old) }
        ensures err { OnErr result (self.new ≡ self.old) }
    {
        match self.index_of(&key) {
            Some(at) => Ok(KeyChange::Replaced(self.replace(at, value))),
            None => {
                self.values.insert(key, value)?;
                Ok(KeyChange::Added)
            }
        }
    }

    /// Undoes the last change.
    #[tactic(auto, using(crate::proofs::Entries::undo_laws))]
    pub fn undo(&mut self, change: KeyChange<V>)
        ensures { self.new ≡ before_change K.eq V.key change self.old }
    {
        match change {
            KeyChange::Added => self.values.truncate(self.values.len().saturating_sub(1)),
            KeyChange::Replaced(before) => {
                if let Some(at) = self.index_of(before.key()) {
                    let _newer = self.replace(at, before);
                }
            }
        }
    }

    /// Removes some values, and returns how many they were.
    pub fn remove<R: Removes<V>>(&mut self, which: &R) -> usize
        ensures left { self.new ≡ filter (λ value. not (R.is_removed which.now value)) self.old }
        ensures removed { result ≡ count_by (R.is_removed which.now) self.old }
    {
        let before = self.values.len();
        self.values.retain(
            |_key: &K, value: &mut V| -> bool
                ensures { (result ≡ not (R.is_removed which.entry.now value.old)) × (value.new ≡ value.old) }
            { !which.is_removed(value) },
        );
        before - self.values.len()
    }

    // The index of the value of a key.
    #[tactic(auto, using(crate::proofs::Entries::look_up_laws))]
    fn index_of(&self, key: &K) -> Option<usize>
        ensures index { result ≡ position (K.eq key.now) (map V.key self.now) }
        ensures found { is_some result ≡ list_any (K.eq key.now) (map V.key self.now) }
    {
        self.values.get_index_of(key)
    }

    // Replaces the value of its key, which is at that index, and returns it.
    fn replace(&mut self, at: usize, value: V) -> V
        requires { position (K.eq (V.key value)) (map V.key self.old) ≡ Some at }
        ensures replaced { self.new ≡ with_value K.eq V.key value self.old }
        ensures before { find (λ old. K.eq (V.key value) (V.key old)) self.old ≡ Some result }
    {
        mem::replace(&mut self.values[at], value)
    }
}

impl<K: Eq + Hash, V: HasKey<K>> fmt::Debug for KeyedList<K, V> {
    fn fmt<W: fmt::Write>(&self, f: &mut fmt::Formatter<W>) -> fmt::Result {
        f.debug_struct("KeyedList").finish_non_exhaustive()
    }
}
