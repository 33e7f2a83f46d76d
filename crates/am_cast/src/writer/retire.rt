//! Retiring, from the call down to the steps: a cursor comes back, and its lane's keys come home.
ghost use mathlib.Core.List.{IsPrefix};
ghost use Rattle.std.specs.Prelude.{◌≡◌, ◌≢◌, ◌<◌, true, None, [], ℕ, drop};
ghost use Rattle.am_cast.specs.declared.limits.TheConstants.{LANES};
ghost use Rattle.am_cast.specs.Rule.{idle, cut, Sound};
ghost use Rattle.am_cast.specs.Changes.{retired, emptied, left};
ghost use Rattle.am_cast.specs.Seats.{account_of, lane_of, IsLane, HoldsIf};
ghost use Rattle.am_cast.specs.Cursors.{shown_items, HasEnded};
ghost use Rattle.am_cast.specs.Keys.{all_items, key_of};
ghost use Rattle.am_cast.specs.Writers.{Calm};
ghost use Rattle.am_cast.specs.inside.WriterStates.{OneAccount, OnlyAccount};

use crate::batch_view::LogSeat;
use crate::board;
use crate::cursor::{Cast, Cursor};
use crate::feed::Feed;
use crate::handle::AsCast;
use crate::writer::Writer;
use crate::writer::lane_account::Stand;
use crate::writer::state::WriterState;

impl<T: Drop, N: Feed, P, A> Writer<T, N, P, A> {
    /// The cursor leaves, whatever it hasn't passed, and its lane is idle.
    pub fn retire<C: AsCast<T, N, P, A> + Drop>(
        &mut self,
        cast: &Cast<T, N, P, A>,
        cursor: Cursor<C, T, N, P, A>,
    )
        ensures tail { self.new.tail ≡ self.old.tail }
        ensures lane { (cursor.lane.number < LANES)
            × ((account_of self.new cursor.lane.number).stand ≡ idle) }
        ensures others { (m : ℕ) → m ≢ cursor.lane.number
            → account_of self.new m ≡ account_of self.old m }
        ensures given { (account_of self.old cursor.lane.number).stand ≢ idle }
        ensures cut { cursor.lane.cut ≡ true
            → (account_of self.old cursor.lane.number).stand ≡ cut }
        ensures sound { Sound self.old.tail (account_of self.old cursor.lane.number)
            (left cursor.lane) cursor.lane.number }
        ensures taken { IsPrefix (shown_items cursor) (all_items
            (drop cursor.lane.start self.old.tail.log)) }
        ensures ended { HasEnded cursor
            → shown_items cursor ≡ all_items (drop cursor.lane.start self.old.tail.log) }
    {
        let (lane, seat, _handle) = cursor.into_seat();
        self.state.bring_home(cast, lane, seat);
    }
}

impl<T: Drop, N: Feed, P, A> WriterState<T, N, P, A> {
    // A lane that is here is left and idle, and its keys come home.
    fn bring_home(&mut self, cast: &Cast<T, N, P, A>, lane: usize, other: LogSeat<T, P, A>)
        requires calm { (lane < LANES) × Calm self.old.known }
        requires other { (other.table_id ≡ N.table) × (other.me.0.writer ≡ None) × (other.me.0.own ≡ []) }
        requires lane { let v = lane_of other.me.0 in IsLane other.me v × (v.number ≡ lane)
            × (v.begun ≡ true) × HoldsIf key_of v.held other.me v }
        ensures writer { OnlyAccount self.old self.new lane (emptied (account_of self.old.known lane)) }
        ensures sound { Sound self.old.known.tail (account_of self.old.known lane)
            (left (lane_of other.me.0)) lane × ((account_of self.old.known lane).stand ≢ idle) }
    {
        let was = self.lanes[lane];
        self.take_home(cast, lane, other);
        self.empty(cast, lane, was);
    }

    // The lane is left and idle.
    fn take_home(&mut self, cast: &Cast<T, N, P, A>, lane: usize, other: LogSeat<T, P, A>)
        requires calm { (lane < LANES) × Calm self.old.known }
        requires other { (other.table_id ≡ N.table) × (other.me.0.writer ≡ None) × (other.me.0.own ≡ []) }
        requires lane { let v = lane_of other.me.0 in IsLane other.me v × (v.number ≡ lane)
            × (v.begun ≡ true) × HoldsIf key_of v.held other.me v }
        ensures writer { OneAccount self.old self.new lane (retired (account_of self.old.known lane)) }
        ensures sound { Sound self.old.known.tail (account_of self.old.known lane)
            (left (lane_of other.me.0)) lane × ((account_of self.old.known lane).stand ≢ idle) }
    {
        board::retire_lane(&cast.board.shared, &mut self.seat, other, lane);
        self.lanes[lane].stand = Stand::Idle;
    }
}
