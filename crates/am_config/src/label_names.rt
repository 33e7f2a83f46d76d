//! Names of labels in a configuration.

use am_labels::Text;
use std::marker::Model;

/// Names in order, seen by contracts as their list.
#[derive(Debug, Drop)]
pub struct LabelNames {
    pub(crate) names: Vec<Text>,
}

impl Model for LabelNames {
    ghost use Rattle.std.specs.Prelude.{List, ℕ};

    ghost Value = { List (List ℕ) };

    ghost view = { λ a. a.names.items };
}

impl LabelNames {
    ghost use Rattle.std.specs.Prelude.{◌≡◌};

    pub fn as_slice(&self) -> &[Text]
        ensures { result.now ≡ self.now }
    {
        &self.names
    }
}
