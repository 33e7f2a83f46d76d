//! What the running writer keeps of one lane. The rest of its account is seen by contracts alone.
ghost use Rattle.std.specs.Prelude.{◌↔◌, ◌≡◌, ◌/◌, ◌%◌, IsTrue};
ghost use Rattle.am_cast.specs.Rule.{cut, live};
ghost use Rattle.am_cast.specs.inside.LaneAccounts.{stand_number};

/// A lane's standing, as the writer has it.
#[derive(Clone, Copy, Drop)]
pub(crate) enum Stand {
    /// Nobody's.
    Idle,
    /// Given out: it gets its key of each new place.
    Live,
    /// Cut: it gets no more keys.
    Cut,
    /// Found left: it gets no more keys.
    Vacated,
}

/// What the writer keeps of a lane, from which the numbers of its account follow.
#[derive(Clone, Copy, Drop)]
pub(crate) struct LaneAccount {
    pub(crate) stand: Stand,
    /// Its word as found last, or as written when it was given out.
    pub(crate) word: u64,
}

impl LaneAccount {
    pub(crate) fn is_live(&self) -> bool
        ensures { IsTrue result ↔ (stand_number self.now.stand ≡ live) }
    {
        matches!(self.stand, Stand::Live)
    }

    /// How many places the cursor had passed.
    pub(crate) fn known(&self) -> u64
        ensures { result ≡ self.now.word / 4 }
    {
        self.word / 4
    }

    /// Whether a key was in the cursor's hand.
    pub(crate) fn is_held(&self) -> bool
        ensures { IsTrue result ↔ (self.now.word / 2 % 2 ≡ 1) }
    {
        self.word / 2 % 2 == 1
    }

    /// Whether the lane was cut with a key in its cursor's hand, which isn't back yet.
    pub(crate) fn is_away(&self) -> bool
        ensures { IsTrue result ↔ (stand_number self.now.stand ≡ cut) × (self.now.word / 2 % 2 ≡ 1) }
    {
        matches!(self.stand, Stand::Cut) && self.is_held()
    }
}
