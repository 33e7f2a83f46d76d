//! A lane is given out.
ghost use Rattle.std.specs.Prelude.{None, Some, [], false, length, ◌<◌, ◌≡◌, ◌≤◌};
ghost use Rattle.am_cast.specs.declared.limits.TheConstants.{LANES, LONGEST_LOG};
ghost use Rattle.am_cast.specs.Rule.{idle};
ghost use Rattle.am_cast.specs.Changes.{given_out, left, new_lane, only_lane, with_account, with_writer};
ghost use Rattle.am_cast.specs.Changes.{without_lane};
ghost use Rattle.am_cast.specs.Steps.{Admits};
ghost use Rattle.am_cast.specs.Seats.{IsSized, IsWriter, account_of, writer_of};

use crate::rule::{AnySeat, AnyTop, HasNote, Keyed};
use crate::views::View;
use atomic_table::{Play, Split};
use std::marker::PhantomData;
use std::snapshot::Snapshot;

pub(crate) struct Admit<N> {
    of: PhantomData<N>,
}

impl<B, K, A, N: HasNote<A>> Play<Option<K>, View<B, K, A>> for Admit<N> {
    ghost then = { Admits N.note };
}

pub(crate) struct Deal;

impl<B, K, A> Split<View<B, K, A>> for Deal {
    ghost left = { without_lane };

    ghost right = { only_lane };
}

/// The lane begins at the next place. Its seat is cut off from the writer's.
#[inline(never)]
pub(crate) fn admit_lane<B, K, A, R: Keyed<B, K>, X: HasNote<A>>(
    top: &AnyTop<B, K, A, R>,
    seat: &mut AnySeat<B, K, A>,
    lane: usize,
    count: u64,
    tag: &Snapshot<A>,
) -> AnySeat<B, K, A>
    requires tag { X.note ≡ Some tag.now.value }
    requires table { (seat.old.table_id ≡ top.now.table_id) × IsSized top.now.table_id
        × (lane < LANES) × (count ≤ LONGEST_LOG) }
    requires writer { let q = writer_of seat.old.me.0 in
        IsWriter seat.old.me q × (length q.accounts ≡ LANES) × (q.tail.closed ≡ false)
        × (count ≡ length q.tail.log) × (seat.old.me.0.lane ≡ None) }
    requires account { let b = account_of (writer_of seat.old.me.0) lane in
        (b.stand ≡ idle) × (b.cleared ≡ b.stop) × (b.out ≡ 0) × (b.laid ≡ None) }
    ensures same { (seat.new.table_id ≡ seat.old.table_id) × (seat.new.me.1 ≡ []) }
    ensures writer { let q = writer_of seat.old.me.0 in
        seat.new.me.0 ≡ with_writer (with_account lane (given_out X.note (length q.tail.log)
        (account_of q lane)) q) seat.old.me.0 }
    ensures lane { let q = writer_of seat.old.me.0 in (result.table_id ≡ seat.old.table_id)
        × (result.me.1 ≡ [])
        × (result.me.0 ≡ record {
          writer = None;
          lane = Some (new_lane X.note lane q.tail (account_of q lane));
          noted = [];
          heard = [];
          whole = false;
          own = [];
          counted = 0;
        }) }
{
    let _ = tag;
    top.store::<Admit<X>>(seat, 16 * lane + 16, 4 * count);
    top.split_seat::<Deal>(seat)
}
