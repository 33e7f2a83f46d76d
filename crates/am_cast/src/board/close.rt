//! The writer closes the log.
ghost use Rattle.std.specs.Prelude.{false, [], length, ◌≡◌, ◌≤◌};
ghost use Rattle.am_cast.specs.declared.limits.TheConstants.{LONGEST_LOG};
ghost use Rattle.am_cast.specs.Changes.{shut, with_writer};
ghost use Rattle.am_cast.specs.Steps.{Closes};
ghost use Rattle.am_cast.specs.Seats.{IsSized, IsWriter, writer_of};

use crate::rule::{AnySeat, AnyTop, Keyed};
use crate::views::View;
use atomic_table::Play;

pub(crate) struct Close;

impl<B, K, A> Play<Option<K>, View<B, K, A>> for Close {
    ghost then = { Closes };
}

#[inline(never)]
pub(crate) fn close_log<B, K, A, R: Keyed<B, K>>(
    top: &AnyTop<B, K, A, R>,
    seat: &mut AnySeat<B, K, A>,
    count: u64,
)
    requires table { (seat.old.table_id ≡ top.now.table_id) × IsSized top.now.table_id
        × (count ≤ LONGEST_LOG) }
    requires writer { let q = writer_of seat.old.me.0 in
        IsWriter seat.old.me q × (q.tail.closed ≡ false) × (count ≡ length q.tail.log) }
    ensures same { (seat.new.table_id ≡ seat.old.table_id) × (seat.new.me.1 ≡ []) }
    ensures writer { let q = writer_of seat.old.me.0 in
        seat.new.me.0 ≡ with_writer (shut q) seat.old.me.0 }
{
    top.store::<Close>(seat, 0, 2 * count + 1);
}
