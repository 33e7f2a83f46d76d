//! The texts of an array.

use am_labels::Text;
use std::marker::Model;

/// Texts in order, seen by contracts as their list.
#[derive(Debug, Drop)]
pub(crate) struct Texts {
    pub(crate) texts: Vec<Text>,
}

impl Model for Texts {
    ghost use Rattle.std.specs.Prelude.{List, ℕ};

    ghost Value = { List (List ℕ) };

    ghost view = { λ a. a.texts.items };
}

impl Texts {
    ghost use Rattle.std.specs.Prelude.{◌≡◌, ◌↔◌, [], IsTrue};
    ghost use Rattle.std.specs.List.{list_any};
    ghost use Rattle.am_labels.specs.Texts.{same_text};

    pub(crate) fn as_slice(&self) -> &[Text]
        ensures { result.now ≡ self.now }
    {
        &self.texts
    }

    pub(crate) fn is_empty(&self) -> bool
        ensures { IsTrue result ↔ (self.now ≡ []) }
    {
        self.texts.is_empty()
    }

    /// Whether a text is one of them.
    pub(crate) fn has(&self, text: &str) -> bool
        ensures { result ≡ list_any (λ other. same_text other text.now) self.now }
    {
        self.texts.iter().any(|other| other.as_str() == text)
    }
}
