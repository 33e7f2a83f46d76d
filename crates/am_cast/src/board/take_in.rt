//! A seat takes in all that another has.
ghost use Rattle.std.specs.Prelude.{[], ◌≡◌};
ghost use Rattle.am_cast.specs.Rule.{blank};
ghost use Rattle.am_cast.specs.Changes.{both_of};
ghost use Rattle.am_cast.specs.Seats.{IsSized};

use crate::rule::{AnySeat, AnyTop, Keyed};
use crate::views::View;
use atomic_table::Join;

pub(crate) struct Hear;

impl<B, K, A> Join<View<B, K, A>> for Hear {
    ghost both = { both_of };

    ghost spent = { blank };
}

/// The second seat's places, and what it knows, become the first's.
pub(crate) fn take_in<B, K, A, R: Keyed<B, K>>(
    top: &AnyTop<B, K, A, R>,
    seat: &mut AnySeat<B, K, A>,
    other: AnySeat<B, K, A>,
)
    requires table { (seat.old.table_id ≡ top.now.table_id) × (other.table_id ≡ top.now.table_id)
        × IsSized top.now.table_id × (other.me.1 ≡ []) }
    ensures seat { (seat.new.table_id ≡ seat.old.table_id) × (seat.new.me.1 ≡ seat.old.me.1)
        × (seat.new.me.0 ≡ both_of seat.old.me.0 other.me.0) }
{
    top.join_seat::<Hear>(seat, other);
}
