//! The writer of a log: its type, and what it answers at once. Each call that takes several steps has a file
//! in `writer/`, from the public function down to the steps of `board`. Its caller holds it under a lock.
ghost use mathlib.Core.List.{IsPrefix};
ghost use Rattle.std.specs.Prelude.{◌↔◌, IsTrue, ◌≡◌, ◌≢◌, ◌<◌, ◌≤◌, true, false, length, ℕ, [], OnOk, OnErr, IfSome, IsOk, option_copied};
ghost use Rattle.am_cast.specs.declared.limits.TheConstants.{LONGEST_LOG};
ghost use Rattle.am_cast.specs.declared.batch_view.BatchView.{BatchView};
ghost use Rattle.am_cast.specs.Rule.{idle, cut, Once};
ghost use Rattle.am_cast.specs.Changes.{AreInLog, shut_tail};
ghost use Rattle.am_cast.specs.Seats.{account_of};
ghost use Rattle.am_cast.specs.Writers.{Calm, IsIdle};
ghost use Rattle.am_cast.specs.Freed.{Keeps, IsFreedFor};

mod admit;
mod cut;
mod harvest;
pub(crate) mod lane_account;
mod publish;
mod publish_one;
mod reclaim;
mod retire;
pub(crate) mod state;
mod vouch;

use crate::cursor::Cast;
use crate::faults::CloseFault;
use crate::feed::Feed;
use crate::limits::LANES;
use crate::pass::Pass;
use crate::writer::lane_account::Stand;
use crate::writer::state::WriterState;
use am_segment::{JoinedKeys, SegmentBuilder};
use std::marker::Model;

/// Contracts see it as what it knows of its log.
pub struct Writer<T, N: Feed, P = (), A = ()> {
    pub(crate) state: WriterState<T, N, P, A>,
}

impl<T, N: Feed, P, A> Model for Writer<T, N, P, A> {
    ghost use Rattle.am_segment.specs.Segments.{KeyView};
    ghost use Rattle.am_cast.specs.declared.views.WriterView.{WriterView};
    ghost use Rattle.am_cast.specs.declared.batch_view.BatchView.{BatchView};
    ghost use Rattle.am_cast.specs.Writers.{Calm};

    ghost Value = { WriterView (BatchView T P) (KeyView T) A };

    ghost view = { λ w. w.state.known };

    ghost invariant = { λ w. Calm w.state.known };
}

/// A place that was published, and which lanes were cut for it.
#[derive(Clone, Copy, Debug, PartialEq, Eq, Drop)]
pub struct Published {
    pub place: u64,
    pub cut: [bool; LANES],
}

impl<T, N: Feed, P, A> Writer<T, N, P, A> {
    /// Lets the writer go without `end`, as where a cursor that doesn't come back has a share in the table. A batch that
    /// a lane hasn't passed never ends, as with `Cast::leak`.
    pub fn leak(self) {
        let Writer { state } = self;
        let WriterState {
            seat: _,
            rows,
            next: _,
            closed: _,
            lanes: _,
            of: _,
        } = state;
        rows.leak();
    }
}

impl<T: Drop, N: Feed, P, A> Writer<T, N, P, A> {
    pub fn len(&self) -> u64
        ensures { (result ≡ length self.now.tail.log) × (result ≤ LONGEST_LOG) }
    {
        self.state.next.number()
    }

    /// The keys of the place that the writer keeps until the others are home. It keeps none of a place that
    /// is freed.
    pub fn kept(&self, place: u64) -> Option<&JoinedKeys<T>>
        ensures { Keeps self.now place (option_copied result) }
    {
        self.state.rows.keys(place)
    }

    /// Whether the place is there and the writer keeps no key of it: all its keys came home, and its
    /// segment has ended.
    pub fn freed(&self, place: u64) -> bool
        ensures { IsTrue result ↔ IsFreedFor self.now place }
    {
        place < self.len() && self.kept(place).is_none()
    }

    /// An empty builder over the block of a segment that has ended, if the block that was kept last has this
    /// number of places. It takes no memory.
    pub fn spare(&mut self, places: usize) -> Option<SegmentBuilder<T>>
        ensures spare { IfSome result (λ batch. batch ≡ record { items = []; places = places }) }
        ensures same { self.new ≡ self.old }
    {
        self.state.rows.spare(places)
    }

    pub fn is_closed(&self) -> bool
        ensures { result ≡ self.now.tail.closed }
    {
        self.state.closed
    }

    /// Whether no lane is given out. Then the log may be ended.
    pub fn is_idle(&self) -> bool
        ensures yes { result ≡ true → IsIdle self.now }
        ensures no { result ≡ false → (l : ℕ) × (l < LANES) × ((account_of self.now l).stand ≢ idle) }
    {
        for lane in 0..LANES {
            if !matches!(self.state.stand(lane), Stand::Idle) {
                return false;
            }
        }
        true
    }

    /// Whether the lane was cut since it was given out.
    pub fn is_cut(&self, lane: usize) -> bool
        requires { lane < LANES }
        ensures yes { result ≡ true → (account_of self.now lane).stand ≡ cut }
        ensures no { result ≡ false → (account_of self.now lane).stand ≢ cut }
    {
        matches!(self.state.stand(lane), Stand::Cut)
    }

    /// Each place that a pass owns is in the log with its batch, and none twice.
    pub fn confirm(&mut self, cast: &Cast<T, N, P, A>, pass: &mut Pass<T, N, P, A>)
        ensures same { self.new ≡ self.old }
        ensures own { pass.new.own ≡ pass.old.own }
        ensures noted { IsPrefix pass.old.noted pass.new.noted × AreInLog pass.new.own pass.new.noted }
        ensures known { IsPrefix pass.new.noted self.new.tail.log }
        ensures stand { AreInLog pass.new.own self.new.tail.log }
        ensures once { Once pass.new.own }
    {
        pass.note(cast);
        pass.weigh(cast);
        self.state.hear(cast, &mut pass.seat);
    }

    /// No place comes after it, and no lane.
    pub fn close(&mut self, cast: &Cast<T, N, P, A>) -> Result<(), CloseFault>
        ensures ok { OnOk result (self.new ≡ record self.old { tail = shut_tail self.old.tail }) }

        ensures open { IsOk result ↔ (self.old.tail.closed ≡ false) }
        ensures err { OnErr result (self.new ≡ self.old) }
    {
        if self.is_closed() {
            return Err(CloseFault);
        }
        self.state.close(cast);
        Ok(())
    }
}
