//! Vouching, from the call down to the steps: the writer says what a reader has taken, while it reads.
ghost use mathlib.Core.List.{IsPrefix};
ghost use Rattle.std.specs.Prelude.{◌≡◌, ◌≢◌, ◌<◌, true, None, Some, drop};
ghost use Rattle.am_cast.specs.declared.limits.TheConstants.{LANES};
ghost use Rattle.am_cast.specs.Changes.{AreInLog};
ghost use Rattle.am_cast.specs.Rule.{Sound, cut, idle};
ghost use Rattle.am_cast.specs.Seats.{account_of, lane_of};
ghost use Rattle.am_cast.specs.Cursors.{shown_items, HasEnded};
ghost use Rattle.am_cast.specs.Keys.{all_items};

use crate::batch_view::LogSeat;
use crate::board;
use crate::cursor::{Cast, Cursor};
use crate::feed::Feed;
use crate::handle::AsCast;
use crate::pass::Pass;
use crate::writer::Writer;
use crate::writer::state::WriterState;

impl<T: Drop, N: Feed, P, A> Writer<T, N, P, A> {
    /// What the cursor has shown begins what the log has for it, and is all of that if the cursor has ended: what
    /// `retire` says, of a cursor that stays. Nothing changes.
    pub fn vouch<C: AsCast<T, N, P, A>>(
        &mut self,
        cast: &Cast<T, N, P, A>,
        cursor: &mut Cursor<C, T, N, P, A>,
    )
        ensures same { (self.new ≡ self.old) × (cursor.new ≡ cursor.old) }
        ensures lane { cursor.old.lane.number < LANES }
        ensures given { (account_of self.old cursor.old.lane.number).stand ≢ idle }
        ensures cut { cursor.old.lane.cut ≡ true → (account_of self.old cursor.old.lane.number).stand ≡ cut }
        ensures sound { Sound self.old.tail (account_of self.old cursor.old.lane.number)
            cursor.old.lane cursor.old.lane.number }
        ensures taken { IsPrefix (shown_items cursor.old) (all_items
            (drop cursor.old.lane.start self.old.tail.log)) }
        ensures ended { HasEnded cursor.old
            → shown_items cursor.old ≡ all_items (drop cursor.old.lane.start self.old.tail.log) }
    {
        self.state.weigh(cast, &mut cursor.seat);
    }

    /// The pass knows the whole log. Who reads past it then is shown all that was published so far.
    pub fn tell(&mut self, cast: &Cast<T, N, P, A>, pass: &mut Pass<T, N, P, A>)
        ensures same { self.new ≡ self.old }
        ensures own { (pass.new.own ≡ pass.old.own) × AreInLog pass.new.own pass.new.noted }
        ensures noted { pass.new.noted ≡ self.old.tail.log }
        ensures more { IsPrefix pass.old.noted pass.new.noted }
    {
        self.state.tell(cast, &mut pass.seat);
        self.state.hear(cast, &mut pass.seat);
    }
}

impl<T: Drop, N: Feed, P, A> WriterState<T, N, P, A> {
    // The other seat notes the whole log.
    fn tell(&mut self, cast: &Cast<T, N, P, A>, other: &mut LogSeat<T, P, A>)
        requires { (other.old.table_id ≡ N.table) × (other.old.me.0.writer ≡ None)
            × (other.old.me.0.lane ≡ None) }
        ensures same { self.new ≡ self.old }
        ensures other { (other.new.table_id ≡ other.old.table_id) × (other.new.me.1 ≡ other.old.me.1)
            × (other.new.me.0.writer ≡ None) × (other.new.me.0.lane ≡ None)
            × (other.new.me.0.own ≡ other.old.me.0.own) }
        ensures noted { IsPrefix other.old.me.0.noted other.new.me.0.noted
            × IsPrefix self.old.known.tail.log other.new.me.0.noted
            × AreInLog other.new.me.0.own other.new.me.0.noted }
    {
        let top = &cast.board.shared;
        board::tell_seat(top, &mut self.seat, other);
        board::note_log(top, other);
    }

    // What the writer knows of a lane and what the lane's seat does agree.
    fn weigh(&mut self, cast: &Cast<T, N, P, A>, other: &mut LogSeat<T, P, A>)
        requires { let v = lane_of other.old.me.0 in (other.old.table_id ≡ N.table)
            × (other.old.me.0.lane ≡ Some v) × (v.number < LANES) × (other.old.me.0.writer ≡ None) }
        ensures same { self.new ≡ self.old }
        ensures other { (other.new.table_id ≡ other.old.table_id) × (other.new.me.1 ≡ other.old.me.1)
            × (other.new.me.0.lane ≡ other.old.me.0.lane) × (other.new.me.0.writer ≡ None)
            × (other.new.me.0.own ≡ other.old.me.0.own) }
        ensures sound { let v = lane_of other.old.me.0 in
            Sound self.old.known.tail (account_of self.old.known v.number) v v.number
            × ((account_of self.old.known v.number).stand ≢ idle) }
    {
        board::weigh_lane(&cast.board.shared, &mut self.seat, other);
    }
}
