//! A lane takes the key of its next place.
//!
//! A reader that lags passes a place and takes the next in two atomic steps. One would be a step
//! with two events; the writer is what readers wait for, so it brings up to 5 percent with eight
//! readers and less than nothing with one.
ghost use Rattle.std.specs.Prelude.{[], false, length, true, ◌<◌, ◌≡◌, ◌≤◌};
ghost use Rattle.am_cast.specs.declared.limits.TheConstants.{LANES, LONGEST_LOG};
ghost use Rattle.am_cast.specs.Steps.{Takes};
ghost use Rattle.am_cast.specs.Seats.{IsLane, IsSized, Took, lane_of};

use crate::rule::{AnySeat, AnyTop, Keyed};
use crate::views::View;
use atomic_table::Play;
use std::marker::PhantomData;

pub(crate) struct Take<R> {
    of: PhantomData<R>,
}

impl<B, K, A, R: Keyed<B, K>> Play<Option<K>, View<B, K, A>> for Take<R> {
    ghost then = { Takes R.key };
}

/// The slot of the next place comes into the hand, with its key. `false` says that the lane was cut.
pub(crate) fn take_key<B, K, A, R: Keyed<B, K>>(
    top: &AnyTop<B, K, A, R>,
    seat: &mut AnySeat<B, K, A>,
    lane: usize,
    passed: u64,
) -> bool
    requires table { (seat.old.table_id ≡ top.now.table_id) × IsSized top.now.table_id
        × (lane < LANES) × (passed ≤ LONGEST_LOG) }
    requires lane { let v = lane_of seat.old.me.0 in
        IsLane seat.old.me v × (lane ≡ v.number) × (passed ≡ v.passed) }
    requires ready { let v = lane_of seat.old.me.0 in
        (v.begun ≡ true) × (v.held ≡ false) × (v.passed < length v.front) × (seat.old.me.1 ≡ []) }
    ensures same { seat.new.table_id ≡ seat.old.table_id }
    ensures took { Took R.key seat.old.me (lane_of seat.old.me.0) seat.new.me result }
{
    let old = 4 * passed;
    top.compare_exchange::<Take<R>>(seat, 16 * lane + 16, old, old + 2) == old
}
