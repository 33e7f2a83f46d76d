//! A text that its copies have in common.

ghost use Rattle.std.specs.Prelude.{◌≡◌, [], IfOk};
ghost use Rattle.am_labels.specs.Texts.{same_text};

use crate::text::Text;
use std::alloc::{AllocError, Global};
use std::marker::Model;
use std::sync::Arc;

/// A text that never changes, seen by contracts as its bytes. Its copies share it.
#[derive(Debug, Drop)]
pub struct SharedText {
    // None is the empty text: it takes no memory.
    text: Option<Arc<Text, Global>>,
}

impl Model for SharedText {
    ghost use Rattle.std.specs.Prelude.{List, ℕ};
    ghost use Rattle.am_labels.specs.inside.SharedTexts.{text_in};

    ghost Value = { List ℕ };

    ghost view = { λ a. text_in a.text };
}

impl SharedText {
    /// The empty text.
    pub fn new() -> SharedText
        ensures { result ≡ [] }
    {
        SharedText { text: None }
    }

    pub fn from_text(alloc: Global, text: Text) -> Result<SharedText, AllocError>
        ensures { IfOk result (λ shared. shared ≡ text) }
    {
        Ok(SharedText {
            text: Some(Arc::new(alloc, text)?),
        })
    }

    pub fn as_str(&self) -> &str
        ensures { result.now ≡ self.now }
    {
        match &self.text {
            Some(shared) => shared.as_str(),
            None => "",
        }
    }

    /// Its clone.
    pub fn copy(&self) -> Result<SharedText, AllocError>
        ensures { IfOk result (λ copy. copy ≡ self.now) }
    {
        self.clone()
    }
}

impl Clone for SharedText {
    ghost is_clone = { λ text clone. clone ≡ text };

    /// The same text once more. It takes no memory, and fails only if there are 2^63 clones
    /// already.
    fn clone(&self) -> Result<SharedText, AllocError> {
        let text = match &self.text {
            Some(shared) => Some(Arc::try_clone(shared)?),
            None => None,
        };
        Ok(SharedText { text })
    }
}

impl PartialEq for SharedText {
    ghost use Rattle.std.specs.Cmp as Cmp;
    ghost use Rattle.std.proofs.lemmas.Cmp.{nat_list_eq_equiv};

    ghost eq = { same_text };

    ghost laws = { Cmp.partial_equiv_from_equiv nat_list_eq_equiv };

    fn eq(&self, other: &SharedText) -> bool {
        self.as_str() == other.as_str()
    }
}

impl Eq for SharedText {
    ghost use Rattle.std.proofs.lemmas.Cmp.{nat_list_eq_equiv};

    ghost laws = { nat_list_eq_equiv };
}
