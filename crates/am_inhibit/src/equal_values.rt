//! What a source and its targets have in common.

ghost use Rattle.std.specs.Prelude.{◌≡◌, IfOk, map};
ghost use Rattle.am_labels.specs.LabelSets.{value_of};

use am_labels::{LabelSet, Text};
use std::alloc::{AllocError, Global};
use std::hash::{Hash, Hasher};
use std::marker::Model;

/// The values that a label set has for the names of `equal`, a missing one counting as empty.
#[derive(Debug, Drop)]
pub(crate) struct EqualValues {
    values: Vec<Text>,
}

impl Model for EqualValues {
    ghost use Rattle.std.specs.Prelude.{List, ℕ};

    ghost Value = { List (List ℕ) };

    ghost view = { λ a. a.values.items };
}

impl EqualValues {
    pub(crate) fn of(
        alloc: Global,
        names: &[Text],
        labels: &LabelSet,
    ) -> Result<EqualValues, AllocError>
        ensures { IfOk result (λ values. values ≡ map (value_of labels.now) names.now) }
    {
        let mut values = Vec::with_capacity(alloc, names.len())?;
        for name in names {
            values.push(Text::from_str(alloc, labels.get(name.as_str()))?)?;
        }
        Ok(EqualValues { values })
    }
}

impl PartialEq for EqualValues {
    ghost use Rattle.am_inhibit.specs.inside.Sources.{same_values, values_partial};

    ghost eq = { same_values };

    ghost laws = { values_partial };

    fn eq(&self, other: &EqualValues) -> bool {
        self.values == other.values
    }
}

impl Eq for EqualValues {
    ghost use Rattle.am_inhibit.specs.inside.Sources.{values_equiv};

    ghost laws = { values_equiv };
}

impl Hash for EqualValues {
    ghost use Rattle.am_inhibit.specs.inside.Sources.{values_fed, values_alike};

    ghost hash_input = { values_fed };

    ghost respects_eq = { values_alike };

    fn hash<H: Hasher>(&self, state: &mut H) {
        self.values.hash(state);
    }
}
