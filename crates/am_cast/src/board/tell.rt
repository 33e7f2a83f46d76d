//! A seat learns what another has seen.
ghost use Rattle.std.specs.Prelude.{[], ◌≡◌};
ghost use Rattle.am_cast.specs.Changes.{both_of, copied, left};
ghost use Rattle.am_cast.specs.Seats.{IsSized};

use crate::board::take_in::Hear;
use crate::rule::{AnySeat, AnyTop, Keyed};
use crate::views::View;
use atomic_table::Split;

pub(crate) struct Tell;

impl<B, K, A> Split<View<B, K, A>> for Tell {
    ghost left = { λ v. v };

    ghost right = { copied };
}

/// The second seat learns what the first has seen of the log.
pub(crate) fn tell_seat<B, K, A, R: Keyed<B, K>>(
    top: &AnyTop<B, K, A, R>,
    from: &mut AnySeat<B, K, A>,
    to: &mut AnySeat<B, K, A>,
)
    requires table { (from.old.table_id ≡ top.now.table_id) × (to.old.table_id ≡ top.now.table_id)
        × IsSized top.now.table_id }
    ensures from { (from.new.table_id ≡ from.old.table_id) × (from.new.me ≡ from.old.me) }
    ensures to { (to.new.table_id ≡ to.old.table_id) × (to.new.me.1 ≡ to.old.me.1)
        × (to.new.me.0 ≡ both_of to.old.me.0 (copied from.old.me.0)) }
{
    let copy = top.split_seat::<Tell>(from);
    top.join_seat::<Hear>(to, copy);
}

/// A new seat, which knows what this one has seen of the log.
pub(crate) fn new_seat<B, K, A, R: Keyed<B, K>>(
    top: &AnyTop<B, K, A, R>,
    seat: &mut AnySeat<B, K, A>,
) -> AnySeat<B, K, A>
    requires table { (seat.old.table_id ≡ top.now.table_id) × IsSized top.now.table_id }
    ensures same { (seat.new.table_id ≡ seat.old.table_id) × (seat.new.me ≡ seat.old.me) }
    ensures new { (result.table_id ≡ seat.old.table_id) × (result.me ≡ (copied seat.old.me.0, [])) }
{
    top.split_seat::<Tell>(seat)
}
