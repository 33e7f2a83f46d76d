//! A lane begins.
ghost use Rattle.std.specs.Prelude.{true, false, ◌<◌, ◌≡◌};
ghost use Rattle.am_cast.specs.declared.limits.TheConstants.{LANES};
ghost use Rattle.am_cast.specs.Changes.{opened, with_lane};
ghost use Rattle.am_cast.specs.Steps.{Opens};
ghost use Rattle.am_cast.specs.Seats.{IsLane, IsSized, lane_of};

use crate::rule::{AnySeat, AnyTop, Keyed};
use crate::views::View;
use atomic_table::Play;

pub(crate) struct Open;

impl<B, K, A> Play<Option<K>, View<B, K, A>> for Open {
    ghost then = { Opens };
}

/// The lane begins.
pub(crate) fn open_lane<B, K, A, R: Keyed<B, K>>(
    top: &AnyTop<B, K, A, R>,
    seat: &mut AnySeat<B, K, A>,
    lane: usize,
)
    requires table { (seat.old.table_id ≡ top.now.table_id) × IsSized top.now.table_id
        × (lane < LANES) }
    requires lane { let v = lane_of seat.old.me.0 in
        IsLane seat.old.me v × (lane ≡ v.number) × (v.here ≡ true) × (v.begun ≡ false) }
    ensures same { (seat.new.table_id ≡ seat.old.table_id) × (seat.new.me.1 ≡ seat.old.me.1) }
    ensures lane { seat.new.me.0 ≡ with_lane (opened (lane_of seat.old.me.0)) seat.old.me.0 }
{
    top.load::<Open>(seat, 16 * lane + 16);
}
