//! The threads of a script.

ghost use Rattle.std.specs.Prelude.{◌≡◌, ◌<◌};

use std::marker::Model;

/// How many threads a script has.
pub const THREADS: u32 = 8;

/// One of the threads, which contracts see as its number.
#[derive(Clone, Copy, Debug, PartialEq, Eq, PartialOrd, Ord, Hash)]
pub struct Thread {
    number: u32,
}

impl Model for Thread {
    ghost use Rattle.std.specs.Prelude.{ℕ, ◌<◌};

    ghost Value = { ℕ };

    ghost view = { λ thread. thread.number };

    ghost invariant = { λ thread. thread.number < 8 };

    ghost inverse = { λ n. record { number = n } };
}

impl Thread {
    pub fn new(number: u32) -> Thread
        requires { number < 8 }
        ensures { result ≡ number }
    {
        Thread { number }
    }

    pub fn index(self) -> usize
        ensures value { result ≡ self }
        ensures bound { self < 8 }
    {
        self.number as usize
    }
}
