//! The writer lays a key in the slot of the next place.
//!
//! Slots are filled by single silent steps: one step for all lanes would change eight lanes in the
//! table's hardest rule. Their loads are 8 of the writer's 106 instructions a lane.
ghost use Rattle.std.specs.Prelude.{None, [], length, ◌+◌, ◌<◌, ◌≡◌};
ghost use Rattle.am_cast.specs.declared.limits.TheConstants.{LANES};
ghost use Rattle.am_cast.specs.Rule.{live, slot};
ghost use Rattle.am_cast.specs.Changes.{laying, with_account, with_writer};
ghost use Rattle.am_cast.specs.Steps.{Lays, Reaches};
ghost use Rattle.am_cast.specs.Seats.{IsSized, IsWriter, account_of, writer_of};

use crate::board::slot::lay_in;
use crate::rule::{AnySeat, AnyTop, Keyed};
use crate::views::View;
use atomic_table::Play;

pub(crate) struct Reach;

impl<B, K, A> Play<Option<K>, View<B, K, A>> for Reach {
    ghost then = { Reaches };
}

pub(crate) struct Lay;

impl<B, K, A> Play<Option<K>, View<B, K, A>> for Lay {
    ghost then = { Lays };
}

/// The key goes into the lane's slot of the next place.
pub(crate) fn fill_slot<B, K, A, R: Keyed<B, K>>(
    top: &AnyTop<B, K, A, R>,
    seat: &mut AnySeat<B, K, A>,
    at: usize,
    lane: usize,
    key: K,
)
    requires table { (seat.old.table_id ≡ top.now.table_id) × IsSized top.now.table_id
        × (lane < LANES) }
    requires writer { let q = writer_of seat.old.me.0 in IsWriter seat.old.me q
        × (length q.accounts ≡ LANES) }
    requires account { let q = writer_of seat.old.me.0 in
        let b = account_of q lane in
        (b.stand ≡ live) × (b.out ≡ 0) × (b.laid ≡ None) × (b.stop < b.cleared + q.tail.places)
        × (at ≡ slot q.tail.places lane b.stop) }
    ensures same { (seat.new.table_id ≡ seat.old.table_id) × (seat.new.me.1 ≡ []) }
    ensures writer { let q = writer_of seat.old.me.0 in
        seat.new.me.0 ≡ with_writer (with_account lane (laying key (account_of q lane)) q) seat.old.me.0 }
{
    top.load::<Reach>(seat, lane + 144);
    lay_in(top, seat, at, key);
    top.load::<Lay>(seat, lane + 144);
}
