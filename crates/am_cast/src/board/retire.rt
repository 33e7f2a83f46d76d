//! A lane is retired: its seat takes in the writer's, and is the writer's from then on.
//!
//! So one step leaves the lane and makes it idle, and a slot in the lane's hand goes home with it. Nobody
//! else has the lane then, so that the writer needs no look at its word.
ghost use Rattle.std.specs.Prelude.{None, Some, [], length, true, ◌<◌};
ghost use Rattle.std.specs.Prelude.{◌≡◌, ◌≢◌};
ghost use Rattle.am_cast.specs.declared.limits.TheConstants.{LANES};
ghost use Rattle.am_cast.specs.Rule.{Sound, cut, idle};
ghost use Rattle.am_cast.specs.Changes.{retired, with_account};
ghost use Rattle.am_cast.specs.Steps.{Retires};
ghost use Rattle.am_cast.specs.Seats.{HoldsIf, IsLane, IsSized, IsWriter, account_of, lane_of, writer_of};

use crate::board::take_in::take_in;
use crate::rule::{AnySeat, AnyTop, Keyed};
use crate::views::View;
use atomic_table::Play;
use std::mem;

pub(crate) struct Retire;

impl<B, K, A> Play<Option<K>, View<B, K, A>> for Retire {
    ghost then = { Retires };
}

/// The lane is left, whatever is in its hand, and it is idle.
#[inline(never)]
pub(crate) fn retire_lane<B, K, A, R: Keyed<B, K>>(
    top: &AnyTop<B, K, A, R>,
    seat: &mut AnySeat<B, K, A>,
    other: AnySeat<B, K, A>,
    lane: usize,
)
    requires table { (seat.old.table_id ≡ top.now.table_id) × IsSized top.now.table_id
        × (lane < LANES) }
    requires other { (other.table_id ≡ top.now.table_id) × (other.me.0.writer ≡ None)
        × (other.me.0.own ≡ []) }
    requires writer { let q = writer_of seat.old.me.0 in
        IsWriter seat.old.me q × (length q.accounts ≡ LANES) × (seat.old.me.0.own ≡ []) }
    requires lane { let v = lane_of other.me.0 in
        IsLane other.me v × (v.number ≡ lane) × (v.begun ≡ true) × HoldsIf R.key v.held other.me v }
    requires account { let b = account_of (writer_of seat.old.me.0) lane in
        (b.out ≡ 0) × (b.laid ≡ None) × (b.stand ≡ cut → b.cleared ≡ b.stop) }
    ensures same { (seat.new.table_id ≡ seat.old.table_id) × (seat.new.me.1 ≡ []) }
    ensures writer { let q = writer_of seat.old.me.0 in
        (seat.new.me.0.writer ≡ Some (with_account lane (retired (account_of q lane)) q))
        × (seat.new.me.0.lane ≡ None) × (seat.new.me.0.own ≡ []) }
    ensures sound { let q = writer_of seat.old.me.0 in
        Sound q.tail (account_of q lane) (lane_of other.me.0) lane
        × ((account_of q lane).stand ≢ idle) }
{
    let writer = mem::replace(seat, other);
    take_in(top, seat, writer);
    top.store::<Retire>(seat, 16 * lane + 16, u64::MAX);
}
