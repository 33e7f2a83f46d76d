//! The writer makes a place.
ghost use Rattle.std.specs.Prelude.{Some, [], false, length, ℕ, ◌++◌, ◌+◌, ◌<◌, ◌∷◌, ◌≡◌};
ghost use Rattle.am_cast.specs.declared.limits.TheConstants.{LONGEST_LOG};
ghost use Rattle.am_cast.specs.Rule.{live};
ghost use Rattle.am_cast.specs.Changes.{longer, own_at};
ghost use Rattle.am_cast.specs.Steps.{Publishes};
ghost use Rattle.am_cast.specs.Seats.{IsSized, IsWriter, account_of, writer_of};

use crate::rule::{AnySeat, AnyTop, Keyed, NewBatch};
use crate::views::View;
use atomic_table::Play;
use std::marker::PhantomData;

pub(crate) struct Publish<N> {
    of: PhantomData<N>,
}

impl<B, K, A, N: NewBatch<B>> Play<Option<K>, View<B, K, A>> for Publish<N> {
    ghost then = { Publishes N.batch };
}

/// The place is there. What the batch is made of is a tag, of any type.
#[inline(never)]
pub(crate) fn publish_batch<B, K, A, R: Keyed<B, K>, X: NewBatch<B>, E>(
    top: &AnyTop<B, K, A, R>,
    seat: &mut AnySeat<B, K, A>,
    count: u64,
    tag: &E,
)
    requires table { (seat.old.table_id ≡ top.now.table_id) × IsSized top.now.table_id
        × (count < LONGEST_LOG) }
    requires writer { let q = writer_of seat.old.me.0 in
        IsWriter seat.old.me q × (q.tail.closed ≡ false) × (count ≡ length q.tail.log) }
    requires laid { let q = writer_of seat.old.me.0 in (x : B) × (X.batch ≡ Some x) × ((l : ℕ)
        → l < length q.accounts → ((account_of q l).out ≡ 0) × ((account_of q l).stand ≡ live
        → (account_of q l).laid ≡ Some (R.key x l))) }
    ensures same { (seat.new.table_id ≡ seat.old.table_id) × (seat.new.me.1 ≡ []) }
    ensures writer { let q = writer_of seat.old.me.0 in (x : B) → X.batch ≡ Some x
        → seat.new.me.0 ≡ record seat.old.me.0 {
          writer = Some (longer x q);
          own = seat.old.me.0.own ++ own_at (length q.tail.log) x ∷ [];
        } }
{
    let _ = tag;
    top.store::<Publish<X>>(seat, 0, 2 * (count + 1));
}
