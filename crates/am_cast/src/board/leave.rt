//! A lane is left, as its cursor is dropped.
ghost use Rattle.std.specs.Prelude.{[], true, ◌<◌, ◌≡◌};
ghost use Rattle.am_cast.specs.declared.limits.TheConstants.{LANES};
ghost use Rattle.am_cast.specs.Changes.{without_lane};
ghost use Rattle.am_cast.specs.Steps.{Leaves};
ghost use Rattle.am_cast.specs.Seats.{HoldsIf, IsLane, IsSized, lane_of};

use crate::rule::{AnySeat, AnyTop, Keyed};
use crate::views::View;
use atomic_table::Play;

pub(crate) struct Leave;

impl<B, K, A> Play<Option<K>, View<B, K, A>> for Leave {
    ghost then = { Leaves };
}

/// The slot in hand goes home with its key, if there is one, and the lane is left.
#[inline(never)]
pub(crate) fn leave_lane<B, K, A, R: Keyed<B, K>>(
    top: &AnyTop<B, K, A, R>,
    seat: &mut AnySeat<B, K, A>,
    lane: usize,
)
    requires table { (seat.old.table_id ≡ top.now.table_id) × IsSized top.now.table_id
        × (lane < LANES) }
    requires lane { let v = lane_of seat.old.me.0 in
        IsLane seat.old.me v × (lane ≡ v.number) × (v.begun ≡ true) }
    requires hand { let v = lane_of seat.old.me.0 in HoldsIf R.key v.held seat.old.me v }
    ensures same { (seat.new.table_id ≡ seat.old.table_id) × (seat.new.me.1 ≡ []) }
    ensures lane { seat.new.me.0 ≡ without_lane seat.old.me.0 }
{
    top.store::<Leave>(seat, 16 * lane + 16, u64::MAX);
}
