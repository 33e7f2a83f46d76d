//! Which places of a state are freed.
ghost use Rattle.std.specs.Prelude.{◌↔◌, IsTrue};
ghost use Rattle.std.specs.List.{AllPass};
ghost use Rattle.am_steps.specs.inside.LaneRows.{keeps_none};
ghost use Rattle.am_steps.specs.Needed.{IsFreed};
ghost use Rattle.am_steps.specs.States.{core_of};

use crate::lane::Lane;
use crate::state::State;

impl State {
    /// Whether the place is in the log and the writer keeps no lane's key of it.
    pub fn freed(&self, place: u64) -> bool
        ensures { IsTrue result ↔ IsFreed (core_of self.now) place }
    {
        place < self.log.len() as u64 && no_key_is_kept(self.lanes.as_slice(), place)
    }
}

// Whether the writer keeps no lane's key of the place.
fn no_key_is_kept(lanes: &[Lane<u64>], place: u64) -> bool
    ensures { IsTrue result ↔ AllPass (keeps_none place) lanes.now }
{
    lanes.iter().all(|lane| lane.keeps_none(place))
}
