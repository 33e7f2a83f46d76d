//! The writer looks whether a lane has left, to give it out again.
ghost use Rattle.std.specs.Prelude.{None, [], false, length, true, ◌<◌, ◌≡◌, ◌≢◌};
ghost use Rattle.am_cast.specs.declared.limits.TheConstants.{LANES};
ghost use Rattle.am_cast.specs.Rule.{cut, idle};
ghost use Rattle.am_cast.specs.Changes.{loaded, retired, with_account, with_writer};
ghost use Rattle.am_cast.specs.Steps.{Reclaims};
ghost use Rattle.am_cast.specs.Seats.{IsSized, IsWriter, account_of, writer_of};

use crate::rule::{AnySeat, AnyTop, Keyed};
use crate::views::View;
use atomic_table::Play;

pub(crate) struct Reclaim;

impl<B, K, A> Play<Option<K>, View<B, K, A>> for Reclaim {
    ghost then = { Reclaims };
}

/// Whether the lane has left. Then it is idle.
pub(crate) fn reclaim_lane<B, K, A, R: Keyed<B, K>>(
    top: &AnyTop<B, K, A, R>,
    seat: &mut AnySeat<B, K, A>,
    lane: usize,
) -> bool
    requires table { (seat.old.table_id ≡ top.now.table_id) × IsSized top.now.table_id
        × (lane < LANES) }
    requires writer { let q = writer_of seat.old.me.0 in IsWriter seat.old.me q
        × (length q.accounts ≡ LANES) }
    requires account { let b = account_of (writer_of seat.old.me.0) lane in
        (b.stand ≢ idle) × (b.out ≡ 0) × (b.laid ≡ None) × (b.stand ≡ cut → b.cleared ≡ b.stop) }
    ensures same { (seat.new.table_id ≡ seat.old.table_id) × (seat.new.me.1 ≡ []) }
    ensures gone { let q = writer_of seat.old.me.0 in result ≡ true
        → seat.new.me.0 ≡ with_writer (with_account lane (retired (account_of q lane)) q) seat.old.me.0 }
    ensures here { let q = writer_of seat.old.me.0 in result ≡ false
        → seat.new.me.0 ≡ with_writer (with_account lane (loaded (account_of q lane)) q) seat.old.me.0 }
{
    top.load::<Reclaim>(seat, 16 * lane + 16) == u64::MAX
}
