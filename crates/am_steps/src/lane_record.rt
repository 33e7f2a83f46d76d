//! What the writer records of one lane. The lane's own state is in `lane.rt`.
ghost use Rattle.std.specs.Prelude.{◌≡◌, ◌-◌, ◌||◌, nat_lt};
ghost use Rattle.am_steps.specs.inside.LaneRows.{keeps_key, may_cut};

/// What the writer records of a lane that isn't idle. `known` and `key_out` are what the lane's
/// word showed when the writer last found it.
#[derive(Clone, Copy, Debug, Drop)]
pub struct LaneRecord {
    /// The log's length when the lane was admitted.
    pub start: u64,
    /// How many places the cursor had passed.
    pub known: u64,
    /// Whether a key was in the cursor's hand.
    pub key_out: bool,
    /// Whether the writer cut the lane.
    pub cut: bool,
}

impl LaneRecord {
    // Whether the lane may be cut if its word shows this.
    pub(crate) fn may_cut(&self, places: u64, length: u64, passed: u64, held: bool) -> bool
        ensures { result ≡ may_cut places length self.now passed held }
    {
        if self.cut || passed != self.known || held != self.key_out {
            return false;
        }
        self.known <= length && length - self.known == places
    }

    // Whether the writer keeps the lane's key of the place.
    pub(crate) fn keeps_key(&self, place: u64) -> bool
        ensures { result ≡ keeps_key place self.now }
    {
        if self.cut {
            return self.key_out && place == self.known;
        }
        self.start <= place && self.known <= place
    }

    // Whether the lane was cut, or lags by fewer than `places` batches.
    pub(crate) fn leaves_room(&self, places: u64, length: u64) -> bool
        ensures { result ≡ (self.now.cut || nat_lt (length - self.now.known) places) }
    {
        self.cut || length.saturating_sub(self.known) < places
    }
}
