//! Names with values that the copies of a label set have in common. Only `label_set.rt` uses it.

ghost use Rattle.std.specs.Prelude.{◌≡◌, [], IfOk};
ghost use Rattle.am_labels.specs.LabelLaws.{concatenated, lengths_of, pairs_hash};
ghost use Rattle.am_labels.specs.inside.Pairs.{pairs_shared};

use crate::pairs::{PairBuffer, Pairs};
use std::alloc::{AllocError, Global};
use std::hash::{FoldHasher, Hash, Hasher};
use std::marker::Model;
use std::sync::Arc;

/// Names with values, seen by contracts as their list. They never change.
#[derive(Debug, Drop)]
pub(crate) struct SharedPairs {
    // None has no pairs, and takes no memory.
    pairs: Option<Arc<PairBuffer, Global>>,
    // Made once, so that a look-up doesn't hash the texts anew.
    hash: u64,
}

impl Model for SharedPairs {
    ghost use Rattle.std.specs.Prelude.{◌≡◌, List, ℕ};
    ghost use Rattle.am_labels.specs.LabelLaws.{pairs_hash};
    ghost use Rattle.am_labels.specs.inside.Pairs.{pairs_shared};

    ghost Value = { List (List ℕ × List ℕ) };

    ghost view = { λ a. pairs_shared a.pairs };

    ghost invariant = { λ a. a.hash ≡ pairs_hash (pairs_shared a.pairs) };
}

impl SharedPairs {
    pub(crate) fn new() -> SharedPairs
        ensures { result ≡ [] }
    {
        SharedPairs {
            pairs: None,
            hash: hash_of("", Pairs::none()),
        }
    }

    pub(crate) fn from_buffer(alloc: Global, pairs: PairBuffer) -> Result<SharedPairs, AllocError>
        ensures { IfOk result (λ shared. shared ≡ pairs) }
    {
        let hash = hash_of(pairs.concatenated(), pairs.as_pairs());
        Ok(SharedPairs {
            pairs: Some(Arc::new(alloc, pairs)?),
            hash,
        })
    }

    pub(crate) fn as_pairs(&self) -> Pairs<'_>
        ensures { result ≡ self.now }
    {
        match &self.pairs {
            Some(shared) => shared.as_pairs(),
            None => Pairs::none(),
        }
    }

    /// The same pairs once more. It takes no memory.
    pub(crate) fn share(&self) -> Result<SharedPairs, AllocError>
        ensures { IfOk result (λ shared. shared ≡ self.now) }
    {
        let pairs = match &self.pairs {
            Some(shared) => Some(Arc::try_clone(shared)?),
            None => None,
        };
        Ok(SharedPairs {
            pairs,
            hash: self.hash,
        })
    }

    pub(crate) fn hash(&self) -> u64
        ensures { result ≡ pairs_hash self.now }
    {
        self.hash
    }
}

// The texts are hashed as one, and then the lengths of each pair.
fn hash_of(text: &str, pairs: Pairs<'_>) -> u64
    requires { text.now ≡ concatenated pairs }
    ensures { result ≡ pairs_hash pairs.entry }
{
    let mut state = FoldHasher::default();
    text.hash(&mut state);
    pairs.len().hash(&mut state);
    for (name, value) in pairs {
        lengths_of(name, value).hash(&mut state);
    }
    state.finish()
}

fn lengths_of(name: &str, value: &str) -> u64
    ensures { result ≡ lengths_of (name.now, value.now) }
{
    ((name.len() as u64) << 32).wrapping_add(value.len() as u64)
}
