//! A lane looks how long the log is.
ghost use Rattle.std.specs.Prelude.{true, length, ◌≡◌, ◌≤◌};
ghost use mathlib.Core.List.{IsPrefix};
ghost use Rattle.am_cast.specs.declared.limits.TheConstants.{LONGEST_LOG};
ghost use Rattle.am_cast.specs.Changes.{seeing, with_lane};
ghost use Rattle.am_cast.specs.Steps.{Looks};
ghost use Rattle.am_cast.specs.Seats.{IsLane, IsSized, lane_of};

use crate::rule::{AnySeat, AnyTop, Keyed};
use crate::views::View;
use atomic_table::Play;

pub(crate) struct Look;

impl<B, K, A> Play<Option<K>, View<B, K, A>> for Look {
    ghost then = { Looks };
}

/// The number of places, and whether the log is closed.
pub(crate) fn look_at_log<B, K, A, R: Keyed<B, K>>(
    top: &AnyTop<B, K, A, R>,
    seat: &mut AnySeat<B, K, A>,
) -> (u64, bool)
    requires table { (seat.old.table_id ≡ top.now.table_id) × IsSized top.now.table_id }
    requires lane { let v = lane_of seat.old.me.0 in IsLane seat.old.me v × (v.begun ≡ true) }
    ensures same { (seat.new.table_id ≡ seat.old.table_id) × (seat.new.me.1 ≡ seat.old.me.1) }
    ensures lane { let v = lane_of seat.old.me.0 in
        let w = lane_of seat.new.me.0 in
        (seat.new.me.0 ≡ with_lane w seat.old.me.0) × (w ≡ seeing w.front result.1 v) }
    ensures seen { let v = lane_of seat.old.me.0 in let w = lane_of seat.new.me.0 in
        IsPrefix v.front w.front × IsPrefix seat.old.me.0.heard w.front
        × (result.0 ≡ length w.front) × (result.0 ≤ LONGEST_LOG) }
{
    let n = top.load::<Look>(seat, 0);
    (n / 2, n % 2 == 1)
}
