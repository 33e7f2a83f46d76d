//! A lane's reader. It takes no lock and no memory.
//!
//! The key is read where it lies, through a slot that the seat lends by `&mut`. So nothing is written to it,
//! and its cache line stays the writer's too.
ghost use Rattle.std.specs.Prelude.{◌≡◌, ◌+◌, ◌-◌, ◌<◌, ◌≤◌, true, false, length, None, []};
ghost use mathlib.Core.List.{IsPrefix};
ghost use Rattle.am_cast.specs.declared.limits.TheConstants.{LANES, WORDS};
ghost use Rattle.am_cast.specs.Rule.{bit};
ghost use Rattle.am_cast.specs.Changes.{holding, cut_off, seeing};
ghost use Rattle.am_cast.specs.Keys.{key_of};
ghost use Rattle.am_cast.specs.Seats.{HoldsIf, IsLane};
ghost use Rattle.am_cast.specs.Cursors.{GoesOn, shown_items, items_at};

use crate::batch_view::{Board, LogSeat};
use crate::board;
use crate::feed::Feed;
use crate::handle::AsCast;
use crate::pass::Pass;
use crate::ring_place::RingPlace;
use crate::waiters::Waiters;
use std::marker::{Model, PhantomData};

/// The table of one log of `T`s. `P` is what a post notes and `A` what a lane does, for contracts; who needs neither leaves
/// them out.
pub struct Cast<T, N: Feed, P = (), A = ()> {
    pub(crate) board: Board<T, P, A>,
    pub(crate) waiters: Waiters,
    pub(crate) of: PhantomData<N>,
    ghost is: { board.shared.table_id ≡ N.table },
    ghost sized: { board.shared.table_id.words ≡ WORDS },
}

impl<T, N: Feed, P, A> Cast<T, N, P, A> {
    /// Lets the table go without `end`. Its memory is freed. A batch that a lane hasn't passed never ends: its items
    /// aren't dropped, and their memory is never given back.
    pub fn leak(self) {
        let Cast {
            board,
            waiters: _,
            of: _,
        } = self;
        let mut closed = board.close();
        for index in 0..closed.slot_count() {
            if let Some(key) = closed.take(index) {
                key.leak();
            }
        }
        closed.free();
    }
}

/// How far a subscription has read the log. It may be dropped, on any thread and without the writer: it leaves
/// its lane, and `Writer::reclaim` finds that. `Writer::retire` spends it too, and says what it has shown.
/// Contracts see it as what its lane knows, and how many items of the place in its hand it has shown. Each call
/// writes to it, so keep it in its own thread's memory: two threads' cursors on one cache line slow each other
/// down.
pub struct Cursor<C: AsCast<T, N, P, A>, T, N: Feed, P = (), A = ()> {
    pub(crate) cast: C,
    pub(crate) seat: LogSeat<T, P, A>,
    pub(crate) number: usize,
    pub(crate) next: RingPlace,
    pub(crate) seen: u64,
    pub(crate) shown: usize,
    pub(crate) closed: bool,
    pub(crate) cut: bool,
    // How many items the place in hand has, if there is one.
    pub(crate) hand: Option<usize>,
    pub(crate) of: PhantomData<N>,
}

/// A cursor that borrows its log.
pub type LentCursor<'a, T, N, P = (), A = ()> = Cursor<&'a Cast<T, N, P, A>, T, N, P, A>;

impl<C: AsCast<T, N, P, A>, T, N: Feed, P, A> Model for Cursor<C, T, N, P, A> {
    ghost use Rattle.am_cast.specs.Seats.{lane_of};
    ghost use Rattle.am_cast.specs.Cursors.{CursorView};
    ghost use Rattle.am_cast.specs.inside.Cursors.{CursorOk};

    ghost Value = { CursorView T P A };

    ghost view = { λ c. record { lane = lane_of c.seat.me.0; shown = c.shown } };

    ghost invariant = { λ c. CursorOk N.table c.seat.table_id c.seat.me c.number c.next.places c.next.number c.seen c.shown c.closed c.cut c.hand };
}

impl<C: AsCast<T, N, P, A>, T, N: Feed, P, A> Cursor<C, T, N, P, A> {
    /// The lane that it reads on.
    pub fn lane(&self) -> usize
        ensures { (result ≡ self.now.lane.number) × (result < LANES) }
    {
        self.number
    }

    // Whether the place in hand has an item that wasn't shown.
    pub(crate) fn has_item(&self) -> bool
        ensures yes { result ≡ true → (self.now.lane.held ≡ true)
            × (self.now.shown < length (items_at self.now.lane.front self.now.lane.passed)) }
        ensures no { result ≡ false → self.now.lane.held ≡ true
            → self.now.shown ≡ length (items_at self.now.lane.front self.now.lane.passed) }
    {
        match self.hand {
            Some(count) => self.shown < count,
            None => false,
        }
    }

    // One item more is shown, if the place in hand has one. Answers whether it has.
    pub(crate) fn show(&mut self) -> bool
        ensures yes { result ≡ true → (self.old.lane.held ≡ true)
            × (self.old.shown < length (items_at self.old.lane.front self.old.lane.passed))
            × (self.new ≡ record self.old { shown = self.old.shown + 1 }) }
        ensures no { result ≡ false → (self.new ≡ self.old) × (self.old.lane.held ≡ true
            → self.old.shown ≡ length (items_at self.old.lane.front self.old.lane.passed)) }
    {
        let more = self.has_item();
        if more {
            self.shown += 1;
        }
        more
    }

    // All items of the place in hand are shown. Answers the index of the one that was shown last.
    pub(crate) fn show_rest(&mut self) -> usize
        requires { self.old.lane.held ≡ true }
        ensures last { (result + 1 ≡ self.old.shown)
            × (result < length (items_at self.old.lane.front self.old.lane.passed)) }
        ensures all { self.new ≡ record self.old {
          shown = length (items_at self.old.lane.front self.old.lane.passed);
        } }
    {
        let Some(count) = self.hand else {
            unreachable!()
        };
        let last = self.shown - 1;
        self.shown = count;
        last
    }

    pub(crate) fn has_more(&self) -> bool
        requires { self.now.lane.held ≡ false }
        ensures more { result ≡ true → self.now.lane.passed < length self.now.lane.front }
        ensures all { result ≡ false → self.now.lane.passed ≡ length self.now.lane.front }
    {
        self.next.number() < self.seen
    }

    pub(crate) fn is_told(&self) -> bool
        ensures { result ≡ self.now.lane.told }
    {
        self.closed
    }

    pub(crate) fn is_cut(&self) -> bool
        ensures { result ≡ self.now.lane.cut }
    {
        self.cut
    }

    // The lane's number, its seat with the slot in hand, and what has the table.
    pub(crate) fn into_seat(self) -> (usize, LogSeat<T, P, A>, C)
        ensures same { (result.1.table_id ≡ N.table) × (self.lane.number ≡ result.0) × (result.0 < LANES) }
        ensures seat { (result.1.me.0.writer ≡ None) × (result.1.me.0.own ≡ [])
            × IsLane result.1.me self.lane × (self.lane.begun ≡ true) }
        ensures hand { HoldsIf key_of self.lane.held result.1.me self.lane }
    {
        let Cursor {
            cast,
            seat,
            number,
            next: _,
            seen: _,
            shown: _,
            closed: _,
            cut: _,
            hand: _,
            of: _,
        } = self;
        (number, seat, cast)
    }
}

impl<C: AsCast<T, N, P, A>, T, N: Feed, P, A> Cursor<C, T, N, P, A> {
    // The slot in hand goes home, and its place is passed.
    pub(crate) fn put_back(&mut self)
        requires { self.old.lane.held ≡ true
            → self.old.shown ≡ length (items_at self.old.lane.front self.old.lane.passed) }
        ensures lane { let v = self.old.lane in let w = self.new.lane in
            w ≡ record v { passed = v.passed + bit v.held; held = false; cut = w.cut } }
        ensures shown { self.new.shown ≡ 0 }
        ensures cut { self.old.lane.cut ≡ true → self.new.lane.cut ≡ true }
        ensures same { self.old.lane.held ≡ false → self.new.lane.cut ≡ self.old.lane.cut }
        ensures bounds { (self.new.lane.start ≤ self.new.lane.passed)
            × (self.new.lane.passed ≤ length self.new.lane.front) }
        ensures taken { shown_items self.new ≡ shown_items self.old }
    {
        if self.hand.is_some() {
            let top = &self.cast.as_cast().board.shared;
            self.cut = board::pass_place(top, &mut self.seat, self.number);
            self.next.go_on();
            self.hand = None;
            self.shown = 0;
        }
    }

    pub(crate) fn look(&mut self)
        ensures lane { let w = self.new.lane in w ≡ seeing w.front w.told self.old.lane }
        ensures shown { self.new.shown ≡ self.old.shown }
        ensures front { IsPrefix self.old.lane.front self.new.lane.front }
        ensures taken { shown_items self.new ≡ shown_items self.old }
    {
        let cast = self.cast.as_cast();
        (self.seen, self.closed) = board::look_at_log(&cast.board.shared, &mut self.seat);
    }

    /// By how many batches it lags, after one look at the log, as tokio's `broadcast::Receiver::len`. A batch in its hand is
    /// one of them.
    pub fn len(&mut self) -> u64
        ensures looked { let w = self.new.lane in w ≡ seeing w.front w.told self.old.lane }
        ensures on { GoesOn self.old self.new }
        ensures taken { (self.new.shown ≡ self.old.shown) × (shown_items self.new ≡ shown_items self.old) }
        ensures late { result ≡ length self.new.lane.front - self.new.lane.passed }
    {
        self.look();
        self.seen - self.next.number()
    }

    // The slot of the next place comes into the hand, and its first item is shown, or the lane was cut.
    pub(crate) fn take(&mut self) -> bool
        requires { (self.old.lane.held ≡ false) × (self.old.lane.cut ≡ false)
            × (self.old.lane.passed < length self.old.lane.front) }
        ensures taken { result ≡ true
            → self.new ≡ record { lane = holding self.old.lane; shown = 1 } }
        ensures cut { result ≡ false
            → self.new ≡ record { lane = cut_off self.old.lane; shown = 0 } }
    {
        let top = &self.cast.as_cast().board.shared;
        if board::take_key(top, &mut self.seat, self.number, self.next.number()) {
            let at = self.next.slot(self.number);
            self.hand = Some(board::key_in(&mut self.seat, top, at).len());
            self.shown = 1;
            true
        } else {
            self.cut = true;
            false
        }
    }

    // A look, after which all that the pass knows is seen.
    pub(crate) fn look_past(&mut self, pass: &mut Pass<T, N, P, A>)
        requires { self.old.lane.held ≡ false }
        ensures lane { let w = self.new.lane in w ≡ seeing w.front w.told self.old.lane }
        ensures shown { self.new.shown ≡ self.old.shown }
        ensures front { IsPrefix self.old.lane.front self.new.lane.front
            × IsPrefix pass.old.noted self.new.lane.front }
        ensures pass { pass.new ≡ pass.old }
    {
        let top = &self.cast.as_cast().board.shared;
        board::tell_seat(top, &mut pass.seat, &mut self.seat);
        (self.seen, self.closed) = board::look_at_log(top, &mut self.seat);
    }
}

/// The lane is left, and the slot in hand goes home. The lane is given out again after `Writer::reclaim`. Then what has
/// the table is dropped.
impl<C: AsCast<T, N, P, A> + Drop, T, N: Feed, P, A> Drop for Cursor<C, T, N, P, A> {
    fn drop(self) {
        let (lane, mut seat, cast) = self.into_seat();
        board::leave_lane(&cast.as_cast().board.shared, &mut seat, lane);
    }
}
