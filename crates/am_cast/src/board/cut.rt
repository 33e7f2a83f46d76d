//! The writer cuts a lane.
//!
//! A cut compares with the whole word that the writer found last, as the core's does.
ghost use Rattle.std.specs.Prelude.{None, [], length, ◌%◌, ◌+◌, ◌/◌, ◌<◌, ◌≡◌, ◌≢◌};
ghost use Rattle.am_cast.specs.declared.limits.TheConstants.{LANES};
ghost use Rattle.am_cast.specs.Rule.{cut, gone, live};
ghost use Rattle.am_cast.specs.Changes.{severed, with_account, with_writer};
ghost use Rattle.am_cast.specs.Steps.{Cuts, Finds};
ghost use Rattle.am_cast.specs.Seats.{IsSized, IsWriter, account_of, writer_of};

use crate::rule::{AnySeat, AnyTop, Keyed};
use crate::views::View;
use atomic_table::Play;

pub(crate) struct Cut;

impl<B, K, A> Play<Option<K>, View<B, K, A>> for Cut {
    ghost then = { Cuts };
}

/// The lane is cut, if its word is still `old`. Answers the word that was found.
pub(crate) fn cut_lane<B, K, A, R: Keyed<B, K>>(
    top: &AnyTop<B, K, A, R>,
    seat: &mut AnySeat<B, K, A>,
    lane: usize,
    old: u64,
) -> u64
    requires table { (seat.old.table_id ≡ top.now.table_id) × IsSized top.now.table_id
        × (lane < LANES) × (old < gone) }
    requires writer { let q = writer_of seat.old.me.0 in IsWriter seat.old.me q
        × (length q.accounts ≡ LANES) }
    requires account { let q = writer_of seat.old.me.0 in
        let b = account_of q lane in
        (b.stand ≡ live) × (b.cleared ≡ b.known) × (b.stop ≡ b.known + q.tail.places) × (b.out ≡ 0)
        × (b.laid ≡ None) × (old / 4 ≡ b.known) × (old / 2 ≡ b.half) }
    ensures same { (seat.new.table_id ≡ seat.old.table_id) × (seat.new.me.1 ≡ []) }
    ensures cut { let q = writer_of seat.old.me.0 in result ≡ old
        → seat.new.me.0 ≡ with_writer (with_account lane (severed (result / 2 % 2) (account_of q lane)) q)
        seat.old.me.0 }
    ensures moved { let q = writer_of seat.old.me.0 in
        result ≢ old → Finds lane q (account_of q lane) result seat.old.me.0 seat.new.me.0 }
{
    top.compare_exchange::<Cut>(seat, 16 * lane + 16, old, old + 1)
}
