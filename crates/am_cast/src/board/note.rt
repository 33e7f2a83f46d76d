//! A seat notes how long the log is.
ghost use Rattle.std.specs.Prelude.{length, ◌≡◌, ◌≤◌};
ghost use mathlib.Core.List.{IsPrefix};
ghost use Rattle.am_cast.specs.declared.limits.TheConstants.{LONGEST_LOG};
ghost use Rattle.am_cast.specs.Changes.{AreInLog};
ghost use Rattle.am_cast.specs.Steps.{Notes};
ghost use Rattle.am_cast.specs.Seats.{IsSized};

use crate::rule::{AnySeat, AnyTop, Keyed};
use crate::views::View;
use atomic_table::Play;

pub(crate) struct Note;

impl<B, K, A> Play<Option<K>, View<B, K, A>> for Note {
    ghost then = { Notes };
}

/// The seat notes how long the log is.
pub(crate) fn note_log<B, K, A, R: Keyed<B, K>>(
    top: &AnyTop<B, K, A, R>,
    seat: &mut AnySeat<B, K, A>,
) -> u64
    requires table { (seat.old.table_id ≡ top.now.table_id) × IsSized top.now.table_id }
    ensures same { (seat.new.table_id ≡ seat.old.table_id) × (seat.new.me.1 ≡ seat.old.me.1)
        × (seat.new.me.0 ≡ record seat.old.me.0 {
          noted = seat.new.me.0.noted;
          counted = length seat.old.me.0.own;
        }) }
    ensures noted { let front = seat.new.me.0.noted in
        IsPrefix seat.old.me.0.noted front × IsPrefix seat.old.me.0.heard front
        × AreInLog seat.old.me.0.own front × (result ≡ length front) × (result ≤ LONGEST_LOG) }
{
    top.load::<Note>(seat, 0) / 2
}
