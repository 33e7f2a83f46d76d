//! How a route groups its alerts.

ghost use Rattle.std.specs.Prelude.{◌≡◌, IfOk};
ghost use Rattle.std.specs.List.{list_any};
ghost use Rattle.std.specs.FinMap.{retain_keys};
ghost use Rattle.am_labels.specs.Texts.{same_text};

use crate::group_names::GroupNames;
use am_labels::laws::label_set_laws;
use am_labels::{LabelSet, PairBuffer};
use std::alloc::{AllocError, Global};

/// By which labels a route groups its alerts.
#[derive(Debug, Drop)]
pub enum GroupBy {
    /// By all labels that an alert has: `group_by` holds `...`.
    All,
    /// By these, each named once.
    Names(GroupNames),
}

impl GroupBy {
    ghost use Rattle.am_config.specs.GroupLabels.{group_labels};

    /// Those of an alert's labels by which it is grouped. A label that is missing stays missing.
    pub fn labels_of(&self, alloc: Global, labels: &LabelSet) -> Result<LabelSet, AllocError>
        ensures { IfOk result (λ group. group ≡ group_labels self.now labels.now) }
    {
        match self {
            GroupBy::All => labels.copy(),
            GroupBy::Names(names) => labels_named(alloc, labels, names),
        }
    }

    /// The same once more. It takes no memory, and fails only if there are 2^63 copies already.
    pub fn copy(&self) -> Result<GroupBy, AllocError>
        ensures { IfOk result (λ copy. copy ≡ self.now) }
    {
        Ok(match self {
            GroupBy::All => GroupBy::All,
            GroupBy::Names(names) => GroupBy::Names(names.copy()?),
        })
    }
}

// The labels of some names.
fn labels_named(
    alloc: Global,
    labels: &LabelSet,
    names: &GroupNames,
) -> Result<LabelSet, AllocError>
    ensures { IfOk result (λ named.
        named ≡ retain_keys labels.now (λ name. list_any (same_text name) names.now)) }
{
    label_set_laws();
    let mut named = PairBuffer::new(alloc);
    for (name, value) in labels.names_and_values() {
        if names.contains(name) {
            named.push(name, value)?;
        }
    }
    LabelSet::from_buffer(alloc, &named)
}
