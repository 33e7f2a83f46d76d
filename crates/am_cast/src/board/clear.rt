//! The writer takes a key out of the slot of a place that was passed.
ghost use Rattle.std.specs.Prelude.{[], length, ◌<◌, ◌≡◌};
ghost use Rattle.am_cast.specs.declared.limits.TheConstants.{LANES};
ghost use Rattle.am_cast.specs.Rule.{slot};
ghost use Rattle.am_cast.specs.Changes.{clearing, with_account, with_writer};
ghost use Rattle.am_cast.specs.Steps.{Clears, Gathers};
ghost use Rattle.am_cast.specs.Seats.{IsKeyAt, IsPast, IsSized, IsWriter, account_of, writer_of};

use crate::board::slot::take_out;
use crate::rule::{AnySeat, AnyTop, Keyed};
use crate::views::View;
use atomic_table::Play;
use std::marker::PhantomData;

pub(crate) struct Gather<R> {
    of: PhantomData<R>,
}

impl<B, K, A, R: Keyed<B, K>> Play<Option<K>, View<B, K, A>> for Gather<R> {
    ghost then = { Gathers R.key };
}

pub(crate) struct Clear;

impl<B, K, A> Play<Option<K>, View<B, K, A>> for Clear {
    ghost then = { Clears };
}

/// The lane's key of a place that it has passed.
pub(crate) fn clear_slot<B, K, A, R: Keyed<B, K>>(
    top: &AnyTop<B, K, A, R>,
    seat: &mut AnySeat<B, K, A>,
    at: usize,
    lane: usize,
) -> K
    requires table { (seat.old.table_id ≡ top.now.table_id) × IsSized top.now.table_id
        × (lane < LANES) }
    requires writer { let q = writer_of seat.old.me.0 in IsWriter seat.old.me q
        × (length q.accounts ≡ LANES) }
    requires account { let q = writer_of seat.old.me.0 in let b = account_of q lane in (b.out ≡ 0)
        × IsPast b × (b.cleared < length q.tail.log) × (at ≡ slot q.tail.places lane b.cleared) }
    ensures same { (seat.new.table_id ≡ seat.old.table_id) × (seat.new.me.1 ≡ []) }
    ensures writer { let q = writer_of seat.old.me.0 in
        seat.new.me.0 ≡ with_writer (with_account lane (clearing (account_of q lane)) q) seat.old.me.0 }
    ensures key { let q = writer_of seat.old.me.0 in
        IsKeyAt R.key q.tail.log (account_of q lane).cleared lane result }
{
    top.load::<Gather<R>>(seat, lane + 144);
    let key = take_out(top, seat, at);
    top.load::<Clear>(seat, lane + 144);
    key
}
