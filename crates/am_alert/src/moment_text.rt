//! The text of an instant.

ghost use Rattle.std.specs.Prelude.{◌≡◌};

use arrayvec::ArrayString;
use std::marker::Model;

/// The text that an instant is printed as, seen by contracts as its bytes. It takes no memory.
#[derive(Debug, Drop)]
pub struct MomentText {
    pub(crate) text: ArrayString<33>,
}

impl Model for MomentText {
    ghost use Rattle.std.specs.Prelude.{List, ℕ};

    ghost Value = { List ℕ };

    ghost view = { λ a. a.text.bytes };
}

impl MomentText {
    pub fn as_str(&self) -> &str
        ensures { result.now ≡ self.now }
    {
        self.text.as_str()
    }
}
