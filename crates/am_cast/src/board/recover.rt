//! The writer looks whether the key of a cut lane is back.
ghost use Rattle.std.specs.Prelude.{true, [], length, ◌≢◌, ◌≤◌, ◌%◌, ◌/◌, ◌<◌, ◌≡◌};
ghost use Rattle.am_cast.specs.declared.limits.TheConstants.{LANES};
ghost use Rattle.am_cast.specs.Rule.{cut};
ghost use Rattle.am_cast.specs.Changes.{back, loaded, with_account, with_writer};
ghost use Rattle.am_cast.specs.Steps.{Recovers};
ghost use Rattle.am_cast.specs.Seats.{IsSized, IsWriter, account_of, writer_of};

use crate::rule::{AnySeat, AnyTop, Keyed};
use crate::views::View;
use atomic_table::Play;

pub(crate) struct Recover;

impl<B, K, A> Play<Option<K>, View<B, K, A>> for Recover {
    ghost then = { Recovers };
}

/// A look at a cut lane whose key is away. Answers the lane's word, which shows whether it is back.
pub(crate) fn recover_key<B, K, A, R: Keyed<B, K>>(
    top: &AnyTop<B, K, A, R>,
    seat: &mut AnySeat<B, K, A>,
    lane: usize,
) -> u64
    requires table { (seat.old.table_id ≡ top.now.table_id) × IsSized top.now.table_id
        × (lane < LANES) }
    requires writer { let q = writer_of seat.old.me.0 in IsWriter seat.old.me q
        × (length q.accounts ≡ LANES) }
    requires account { let b = account_of (writer_of seat.old.me.0) lane in
        (b.stand ≡ cut) × (b.away ≡ true) × (b.cleared ≡ b.stop) × (b.out ≡ 0) }
    ensures same { (seat.new.table_id ≡ seat.old.table_id) × (seat.new.me.1 ≡ []) }
    ensures back { let q = writer_of seat.old.me.0 in let b = account_of q lane in
        result / 2 % 2 ≡ 0
        → (seat.new.me.0 ≡ with_writer (with_account lane (back (result / 4) (loaded b)) q) seat.old.me.0)
        × (b.known ≤ result / 4) × (result / 4 ≤ length q.tail.log) }
    ensures away { let q = writer_of seat.old.me.0 in result / 2 % 2 ≢ 0
        → seat.new.me.0 ≡ with_writer (with_account lane (loaded (account_of q lane)) q) seat.old.me.0 }
{
    top.load::<Recover>(seat, 16 * lane + 16)
}
