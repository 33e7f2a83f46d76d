//! What a writer keeps: its seat at the table, the keys that came home, and one account for each lane.
//! Here is what several calls need; each of the other files has one call.
ghost use mathlib.Core.List.{IsPrefix};
ghost use Rattle.std.specs.Prelude.{◌≡◌, ◌≢◌, ℕ, ◌+◌, ◌<◌, ◌≤◌, true, false, length, None};
ghost use Rattle.am_cast.specs.declared.limits.TheConstants.{LONGEST_LOG};
ghost use Rattle.am_cast.specs.Rule.{idle, live};
ghost use Rattle.am_cast.specs.Changes.{clearing, shut};
ghost use Rattle.am_cast.specs.Seats.{account_of, IsPast};
ghost use Rattle.am_cast.specs.Writers.{Calm, IsBehind};
ghost use Rattle.am_cast.specs.inside.LaneAccounts.{stand_number, WasIdled};
ghost use Rattle.am_cast.specs.inside.WriterStates.{OnlyAccount, KeepsRoom};
ghost use Rattle.am_cast.specs.inside.Waiting.{is_live};

use crate::batch_view::LogSeat;
use crate::board;
use crate::cursor::Cast;
use crate::feed::Feed;
use crate::key_rows::KeyRows;
use crate::limits::LANES;
use crate::ring_place::RingPlace;
use crate::writer::lane_account::{LaneAccount, Stand};
use std::marker::{Model, PhantomData};

/// Contracts see it as what its seat knows, and the rows of keys that came home.
pub(crate) struct WriterState<T, N: Feed, P, A> {
    pub(crate) seat: LogSeat<T, P, A>,
    pub(crate) rows: KeyRows<T>,
    /// The next place. Its number is the log's length, and a live lane may lag by a whole ring.
    pub(crate) next: RingPlace,
    pub(crate) closed: bool,
    pub(crate) lanes: [LaneAccount; LANES],
    pub(crate) of: PhantomData<N>,
}

impl<T, N: Feed, P, A> Model for WriterState<T, N, P, A> {
    ghost use Rattle.std.specs.Prelude.{◌≡◌, length};
    ghost use Rattle.am_cast.specs.inside.WriterStates.{WriterStateView};
    ghost use Rattle.am_cast.specs.Seats.{writer_of};
    ghost use Rattle.am_cast.specs.inside.WriterStates.{WriterStateOk};
    ghost use Rattle.am_cast.specs.inside.Waiting.{RowsFit};

    ghost Value = { WriterStateView T P A };

    ghost view = { λ w. record { known = writer_of w.seat.me.0; rows = w.rows } };

    ghost invariant = { λ w. WriterStateOk N.table w.seat.table_id w.seat.me w.next.places w.next.number w.closed w.lanes
        × RowsFit (writer_of w.seat.me.0) w.rows × (length w.rows ≡ w.next.places) };
}

impl<T: Drop, N: Feed, P, A> WriterState<T, N, P, A> {
    /// The lane's standing, as the writer has it.
    pub(crate) fn stand(&self, lane: usize) -> Stand
        requires { lane < LANES }
        ensures { stand_number result ≡ (account_of self.now.known lane).stand }
    {
        self.lanes[lane].stand
    }

    pub(crate) fn is_live(&self, lane: usize) -> bool
        requires { lane < LANES }
        ensures yes { result ≡ true → (account_of self.now.known lane).stand ≡ live }
        ensures no { result ≡ false → (account_of self.now.known lane).stand ≢ live }
    {
        self.lanes[lane].is_live()
    }

    /// One more than the number of the last lane that isn't idle, or 1 where all are. Mostly few lanes are
    /// given out, and the calls of each post look at no others.
    pub(crate) fn used_end(&self) -> usize
        ensures bounds { (1 ≤ result) × (result ≤ LANES) }
        ensures rest { (l : ℕ) → result ≤ l → l < LANES → (account_of self.now.known l).stand ≡ idle }
    {
        let mut end = LANES;
        while end > 1 && matches!(self.stand(end - 1), Stand::Idle) {
            end -= 1;
        }
        end
    }

    pub(crate) fn is_away(&self, lane: usize) -> bool
        requires { lane < LANES }
        ensures yes { result ≡ true → (account_of self.now.known lane).away ≡ true }
        ensures no { result ≡ false → (account_of self.now.known lane).away ≡ false }
    {
        self.lanes[lane].is_away()
    }

    pub(crate) fn is_behind(&self, lane: usize) -> bool
        requires { (lane < LANES) × Calm self.now.known
            × ((account_of self.now.known lane).stand ≡ live) }
        ensures yes { result ≡ true → IsBehind self.now.known lane }
        ensures no { result ≡ false
            → length self.now.known.tail.log < (account_of self.now.known lane).known
            + self.now.known.tail.places }
    {
        self.next.number() - self.known_of(lane) >= self.next.places()
    }

    pub(crate) fn known_of(&self, lane: usize) -> u64
        requires { lane < LANES }
        ensures { (result ≡ (account_of self.now.known lane).known) × (result ≤ LONGEST_LOG)
            × (0 < self.now.known.tail.places) }
    {
        self.lanes[lane].known()
    }

    /// The lane's key of the place, which it has passed, joins the others of its place.
    fn bring_one(&mut self, cast: &Cast<T, N, P, A>, lane: usize, place: u64)
        requires { let b = account_of self.old.known lane in (lane < LANES) × (place ≡ b.cleared)
            × (place < length self.old.known.tail.log) × IsPast b × (b.out ≡ 0) × (place < b.stop)
            × (b.away ≡ true → b.known < b.cleared) × (length self.old.known.accounts ≡ LANES) }
        ensures only { OnlyAccount self.old self.new lane (clearing (account_of self.old.known lane)) }
        ensures room { KeepsRoom self.old.rows self.new.rows }
    {
        let index = self.next.index_of(place);
        let at = LANES * index + lane;
        let key = board::clear_slot(&cast.board.shared, &mut self.seat, at, lane);
        self.rows.bring(index, place, key);
    }

    /// The lane's keys of the places from `from` to `to` are taken out. It is part of its callers, since it is
    /// mostly one key.
    #[inline(always)]
    pub(crate) fn clear_to(&mut self, cast: &Cast<T, N, P, A>, lane: usize, from: u64, to: u64)
        requires bounds { (lane < LANES) × (from ≤ to) × (to ≤ length self.old.known.tail.log)
            × (length self.old.known.accounts ≡ LANES) }
        requires account { let b = account_of self.old.known lane in (from ≡ b.cleared)
            × (b.out ≡ 0) × (to ≤ b.stop) × (b.stand ≡ live → to ≤ b.known) × (b.away ≡ true
            → b.known < b.cleared) }
        ensures room { KeepsRoom self.old.rows self.new.rows }
        ensures only { OnlyAccount self.old self.new lane (record (account_of self.old.known lane)
            { cleared = to }) }
    {
        for place in from..to {
            self.bring_one(cast, lane, place);
        }
    }

    /// The keys of a lane that became idle come home: those in its slots if it was live, and the one that was
    /// away if it was cut.
    pub(crate) fn empty(&mut self, cast: &Cast<T, N, P, A>, lane: usize, was: LaneAccount)
        requires { (lane < LANES) × (length self.old.known.accounts ≡ LANES)
            × WasIdled (length self.old.known.tail.log) self.old.known.tail.places
            (account_of self.old.known lane) was }
        ensures { let b = account_of self.old.known lane in
            OnlyAccount self.old self.new lane (record b { cleared = b.stop }) }
    {
        if was.is_live() {
            let to = self.next.number();
            self.clear_to(cast, lane, was.known(), to);
            return;
        }
        if was.is_away() {
            self.clear_to(cast, lane, was.known(), was.known() + 1);
        }
    }

    pub(crate) fn close(&mut self, cast: &Cast<T, N, P, A>)
        requires { self.old.known.tail.closed ≡ false }
        ensures { self.new ≡ record self.old { known = shut self.old.known } }
    {
        board::close_log(&cast.board.shared, &mut self.seat, self.next.number());
        self.closed = true;
    }

    /// What another seat has noted of the log begins it.
    pub(crate) fn hear(&mut self, cast: &Cast<T, N, P, A>, other: &mut LogSeat<T, P, A>)
        requires { (other.old.table_id ≡ N.table) × (other.old.me.0.writer ≡ None)
            × (other.old.me.0.lane ≡ None) }
        ensures same { self.new ≡ self.old }
        ensures other { (other.new.table_id ≡ other.old.table_id) × (other.new.me ≡ other.old.me) }
        ensures begins { IsPrefix other.old.me.0.noted self.old.known.tail.log }
    {
        let top = &cast.board.shared;
        board::tell_seat(top, other, &mut self.seat);
        board::weigh_view(top, &mut self.seat);
    }
}
