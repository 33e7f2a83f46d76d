//! The names by which a route groups its alerts.

ghost use Rattle.std.specs.Prelude.{◌≡◌, IfOk};
ghost use Rattle.std.specs.List.{list_any};
ghost use Rattle.am_labels.specs.Texts.{same_text};
ghost use Rattle.am_config.specs.RouteHeads.{distinct};

use crate::texts::Texts;
use am_labels::Text;
use indexmap::{Equivalent, IndexSet};
use std::alloc::{AllocError, Global};
use std::marker::Model;
use std::sync::Arc;

/// Names of labels, each once, seen by contracts as their list. They never change, and copies share
/// them. A name is looked up in O(1).
#[derive(Debug, Drop)]
pub struct GroupNames {
    names: Arc<IndexSet<Text>, Global>,
}

impl Model for GroupNames {
    ghost use Rattle.std.specs.Prelude.{List, ℕ};
    ghost use Rattle.std.specs.Arc.{arc_value};

    ghost Value = { List (List ℕ) };

    ghost view = { λ a. (arc_value a.names).keys };
}

// A name that is looked up among texts.
#[derive(Clone, Copy, PartialEq, Eq, Hash)]
struct Sought<'a> {
    name: &'a str,
}

impl Equivalent<Text> for Sought<'_> {
    ghost use Rattle.std.proofs.Common.{ap};
    ghost use Rattle.std.proofs.lemmas.Cmp.{nat_list_eq_equiv};
    ghost use Rattle.std.specs.Cmp.{unsigned_Decides};
    ghost use Rattle.std.specs.Cmp.Lexicographic.{pointwise_decides};
    ghost use Rattle.std.specs.Hash as fed;
    ghost use Rattle.am_labels.specs.Texts.{same_text};

    ghost equivalent = { λ sought text. same_text sought.name.now text };

    ghost respects_hash = { λ sought text same.
        ap fed.str ((pointwise_decides unsigned_Decides sought.name.now text).0 same) };

    ghost respects_eq = { λ sought. nat_list_eq_equiv.congr sought.name.now };

    fn equivalent(&self, text: &Text) -> bool {
        self.name == text.as_str()
    }
}

impl GroupNames {
    /// The names, each at its first index.
    pub(crate) fn of(alloc: Global, names: Texts) -> Result<GroupNames, AllocError>
        ensures { IfOk result (λ kept. kept ≡ distinct names) }
    {
        let mut kept = IndexSet::with_capacity(alloc, names.texts.len())?;
        for name in names.texts {
            kept.insert(name)?;
        }
        Ok(GroupNames {
            names: Arc::new(alloc, kept)?,
        })
    }

    pub fn as_slice(&self) -> &[Text]
        ensures { result.now ≡ self.now }
    {
        self.names.as_slice()
    }

    /// Whether a name is one of them.
    pub fn contains(&self, name: &str) -> bool
        ensures { result ≡ list_any (same_text name.now) self.now }
    {
        self.names.contains(Sought { name })
    }

    /// The same names once more. It takes no memory, and fails only if there are 2^63 copies already.
    pub fn copy(&self) -> Result<GroupNames, AllocError>
        ensures { IfOk result (λ copy. copy ≡ self.now) }
    {
        Ok(GroupNames {
            names: Arc::try_clone(&self.names)?,
        })
    }
}
