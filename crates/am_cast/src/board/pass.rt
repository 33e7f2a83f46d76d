//! A lane gives the slot in its hand back, and has passed its place.
ghost use Rattle.std.specs.Prelude.{[], false, true, ◌+◌, ◌<◌, ◌≡◌};
ghost use Rattle.am_cast.specs.declared.limits.TheConstants.{LANES};
ghost use Rattle.am_cast.specs.Rule.{cut};
ghost use Rattle.am_cast.specs.Changes.{with_lane};
ghost use Rattle.am_cast.specs.Steps.{Passes};
ghost use Rattle.am_cast.specs.Seats.{HoldsKey, IsLane, IsSized, lane_of};

use crate::rule::{AnySeat, AnyTop, Keyed};
use crate::views::View;
use atomic_table::Play;

pub(crate) struct PassPlace;

impl<B, K, A> Play<Option<K>, View<B, K, A>> for PassPlace {
    ghost then = { Passes };
}

/// The slot goes home with its key, and its place is passed. Answers whether the lane was cut.
pub(crate) fn pass_place<B, K, A, R: Keyed<B, K>>(
    top: &AnyTop<B, K, A, R>,
    seat: &mut AnySeat<B, K, A>,
    lane: usize,
) -> bool
    requires table { (seat.old.table_id ≡ top.now.table_id) × IsSized top.now.table_id
        × (lane < LANES) }
    requires lane { let v = lane_of seat.old.me.0 in IsLane seat.old.me v × (lane ≡ v.number) }
    requires held { let v = lane_of seat.old.me.0 in
        (v.begun ≡ true) × (v.held ≡ true) × HoldsKey R.key seat.old.me v }
    ensures same { (seat.new.table_id ≡ seat.old.table_id) × (seat.new.me.1 ≡ []) }
    ensures lane { let v = lane_of seat.old.me.0 in
        seat.new.me.0 ≡ with_lane (record v { passed = v.passed + 1; held = false; cut = result })
        seat.old.me.0 }
{
    top.fetch_add::<PassPlace>(seat, 16 * lane + 16, 2) % 2 == 1
}
