//! A seat's own places go to another.
ghost use Rattle.std.specs.Prelude.{◌≡◌};
ghost use Rattle.am_cast.specs.Changes.{both_of, left, only_own, without_own};
ghost use Rattle.am_cast.specs.Seats.{IsSized};

use crate::board::take_in::Hear;
use crate::rule::{AnySeat, AnyTop, Keyed};
use crate::views::View;
use atomic_table::Split;

pub(crate) struct Hand;

impl<B, K, A> Split<View<B, K, A>> for Hand {
    ghost left = { without_own };

    ghost right = { only_own };
}

/// The own places of the first seat go to the second.
pub(crate) fn hand_own<B, K, A, R: Keyed<B, K>>(
    top: &AnyTop<B, K, A, R>,
    from: &mut AnySeat<B, K, A>,
    to: &mut AnySeat<B, K, A>,
)
    requires table { (from.old.table_id ≡ top.now.table_id) × (to.old.table_id ≡ top.now.table_id)
        × IsSized top.now.table_id }
    ensures from { (from.new.table_id ≡ from.old.table_id) × (from.new.me.1 ≡ from.old.me.1)
        × (from.new.me.0 ≡ without_own from.old.me.0) }
    ensures to { (to.new.table_id ≡ to.old.table_id) × (to.new.me.1 ≡ to.old.me.1)
        × (to.new.me.0 ≡ both_of to.old.me.0 (only_own from.old.me.0)) }
{
    let own = top.split_seat::<Hand>(from);
    top.join_seat::<Hear>(to, own);
}
