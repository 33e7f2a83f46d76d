//! The writer finds how far a lane is.
//!
//! A lane found left is vacated, which is the core's Retire; that it becomes idle (`reclaim`) is then no
//! event. Without that a post that may cut could meet a full lane that it can't cut.
ghost use Rattle.std.specs.Prelude.{None, [], length, ◌<◌, ◌≡◌};
ghost use Rattle.am_cast.specs.declared.limits.TheConstants.{LANES};
ghost use Rattle.am_cast.specs.Rule.{live};
ghost use Rattle.am_cast.specs.Steps.{Finds, Harvests};
ghost use Rattle.am_cast.specs.Seats.{IsSized, IsWriter, account_of, writer_of};

use crate::rule::{AnySeat, AnyTop, Keyed};
use crate::views::View;
use atomic_table::Play;

pub(crate) struct Harvest;

impl<B, K, A> Play<Option<K>, View<B, K, A>> for Harvest {
    ghost then = { Harvests };
}

/// The word of a lane that isn't cut.
pub(crate) fn find_word<B, K, A, R: Keyed<B, K>>(
    top: &AnyTop<B, K, A, R>,
    seat: &mut AnySeat<B, K, A>,
    lane: usize,
) -> u64
    requires table { (seat.old.table_id ≡ top.now.table_id) × IsSized top.now.table_id
        × (lane < LANES) }
    requires writer { let q = writer_of seat.old.me.0 in
        IsWriter seat.old.me q × (length q.accounts ≡ LANES) × ((account_of q lane).stand ≡ live)
        × ((account_of q lane).laid ≡ None) }
    ensures same { (seat.new.table_id ≡ seat.old.table_id) × (seat.new.me.1 ≡ []) }
    ensures found { let q = writer_of seat.old.me.0 in
        Finds lane q (account_of q lane) result seat.old.me.0 seat.new.me.0 }
{
    top.load::<Harvest>(seat, 16 * lane + 16)
}
