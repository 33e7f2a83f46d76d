//! How much room the compact text of a value leaves of some bytes, counted while the value is looked at.
//!
//! The compact text of a body isn't written to be measured: six bytes are counted for each byte of a
//! text, and only what may be above the limit is written.

ghost use Rattle.std.specs.Prelude.{◌+◌, ◌≤◌, ◌≡◌, IfSome, IsTrue, length};
ghost use Rattle.json.specs.Print.{quoted};

/// What is left of some bytes.
#[derive(Debug, Drop)]
pub(crate) struct Room {
    left: usize,
}

impl Room {
    pub(crate) fn new(left: usize) -> Room
        ensures { result.left ≡ left }
    {
        Room { left }
    }

    /// Whether there is room for some bytes, which is taken then.
    pub(crate) fn take(&mut self, bytes: usize) -> bool
        ensures { IsTrue result → self.new.left + bytes ≤ self.old.left }
    {
        match self.left.checked_sub(bytes) {
            Some(left) => {
                self.left = left;
                true
            }
            None => false,
        }
    }

    /// The same of a text.
    pub(crate) fn take_text(&mut self, text: &str) -> bool
        ensures { IsTrue result → length (quoted text.now) + self.new.left ≤ self.old.left }
    {
        match text_left(self.left, text) {
            Some(left) => {
                self.left = left;
                true
            }
            None => false,
        }
    }

    /// The same of a member's name, with a comma and a colon.
    pub(crate) fn take_name(&mut self, name: &str) -> bool
        ensures { IsTrue result → length (quoted name.now) + self.new.left + 2 ≤ self.old.left }
    {
        self.take(2) && self.take_text(name)
    }
}

/// How much of some room a text leaves. A byte is written as six at most.
pub(crate) fn text_left(room: usize, text: &str) -> Option<usize>
    ensures { IfSome result (λ left. length (quoted text.now) + left ≤ room) }
{
    room.checked_sub(text.len().checked_mul(6)?.checked_add(2)?)
}
