//! How a slot in hand is filled and emptied, and how its key is read.
ghost use Rattle.std.specs.Prelude.{None, Some, ◌∷◌, ◌≡◌};
ghost use Rattle.std.specs.Borrow.{sem};
ghost use Rattle.atomic_table.specs.Table.{rest};
ghost use Rattle.am_cast.specs.Loans.{IsLentToRead};

use crate::rule::{AnySeat, AnyTop, Keyed};

/// The value goes into the empty slot in hand.
pub(crate) fn lay_in<B, K, A, R: Keyed<B, K>>(
    top: &AnyTop<B, K, A, R>,
    seat: &mut AnySeat<B, K, A>,
    at: usize,
    key: K,
)
    requires table { seat.old.table_id ≡ top.now.table_id }
    requires bare { seat.old.me.1 ≡ (at, None) ∷ rest seat.old.me.1 }
    ensures same { (seat.new.table_id ≡ seat.old.table_id) × (seat.new.id ≡ seat.old.id)
        × (seat.new.me.0 ≡ seat.old.me.0) }
    ensures hand { seat.new.me.1 ≡ (at, Some key) ∷ rest seat.old.me.1 }
{
    match top.exchange(seat, at, Some(key)) {
        None => {}
        Some(_) => unreachable!(),
    }
}

/// The key comes out of the slot in hand, which is empty then.
pub(crate) fn take_out<B, K, A, R: Keyed<B, K>>(
    top: &AnyTop<B, K, A, R>,
    seat: &mut AnySeat<B, K, A>,
    at: usize,
) -> K
    requires table { seat.old.table_id ≡ top.now.table_id }
    requires full { (key : K) × (seat.old.me.1 ≡ (at, Some key) ∷ rest seat.old.me.1) }
    ensures same { (seat.new.table_id ≡ seat.old.table_id) × (seat.new.id ≡ seat.old.id)
        × (seat.new.me.0 ≡ seat.old.me.0) }
    ensures hand { seat.new.me.1 ≡ (at, None) ∷ rest seat.old.me.1 }
    ensures key { seat.old.me.1 ≡ (at, Some result) ∷ rest seat.old.me.1 }
{
    match seat.slot_mut(top, at).take() {
        Some(key) => key,
        None => unreachable!(),
    }
}

/// The key in the slot in hand, read where it lies. Nothing is written, so the slot's cache line stays the
/// writer's too.
pub(crate) fn key_in<'s, B, K, A, R: Keyed<B, K>>(
    seat: &'s mut AnySeat<B, K, A>,
    top: &'s AnyTop<B, K, A, R>,
    at: usize,
) -> &'s K
    requires table { seat.old.table_id ≡ top.now.table_id }
    requires full { (key : K) × (seat.old.me.1 ≡ (at, Some key) ∷ rest seat.old.me.1) }
    ensures* lender { sem 𝓛 (IsLentToRead B.row K.row A.row seat.entry) }
    ensures key { seat.old.me.1 ≡ (at, Some result.now) ∷ rest seat.old.me.1 }
{
    let slot: &Option<K> = seat.slot_mut(top, at);
    match slot {
        Some(key) => key,
        None => unreachable!(),
    }
}
