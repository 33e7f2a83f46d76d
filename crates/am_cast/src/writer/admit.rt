//! Admitting, from the call down to the steps: the lowest idle lane is given out.
ghost use Rattle.std.specs.Prelude.{◌≡◌, ◌≢◌, ◌*◌, ◌<◌, false, length, None, Some, ℕ, IfSome, IfNone, IfOk, IfErr, OnErr};
ghost use Rattle.am_cast.specs.declared.batch_view.BatchView.{BatchView};
ghost use Rattle.am_cast.specs.Rule.{idle, cut};
ghost use Rattle.am_cast.specs.Changes.{given_out, new_lane, opened};
ghost use Rattle.am_cast.specs.Seats.{account_of};
ghost use Rattle.am_cast.specs.Cursors.{as_cursor};
ghost use Rattle.am_cast.specs.Writers.{Calm};
ghost use Rattle.am_cast.specs.inside.WriterStates.{OneAccount};
ghost use Rattle.am_cast.specs.Admissions.{IsAdmitted, IsGivenOut};
ghost use Rattle.am_cast.specs.Refusals.{IsAdmitRefusal};

use crate::batch_view::{BatchView, SegmentKeys};
use crate::board;
use crate::cursor::Cursor;
use crate::faults::AdmitFault;
use crate::feed::Feed;
use crate::handle::AsCast;
use crate::limits::LANES;
use crate::ring_place::RingPlace;
use crate::writer::Writer;
use crate::writer::lane_account::{LaneAccount, Stand};
use crate::writer::state::WriterState;
use am_segment::SegKey;
use std::marker::{Brand, PhantomData};
use std::snapshot::Snapshot;

impl<T: Drop, N: Feed, P, A> Writer<T, N, P, A> {
    /// The lowest idle lane, starting at the log's length. It takes no memory.
    pub fn admit<C: AsCast<T, N, P, A> + Drop>(
        &mut self,
        cast: C,
        note: Snapshot<A>,
    ) -> Result<Cursor<C, T, N, P, A>, AdmitFault>
        ensures tail { self.new.tail ≡ self.old.tail }
        ensures ok { IfOk result (IsAdmitted note.value self.old) }
        ensures lane { IfOk result (IsGivenOut note.value self.old self.new) }
        ensures others { IfOk result (λ c. (m : ℕ) → m ≢ c.lane.number
            → account_of self.new m ≡ account_of self.old m) }

        ensures open { IfOk result (λ c. self.old.tail.closed ≡ false) }
        ensures err { OnErr result (self.new ≡ self.old) }
        ensures refused { IfErr result (λ e. IsAdmitRefusal self.old e) }
    {
        if self.is_closed() {
            return Err(AdmitFault::Closed);
        }
        match self.state.idle_lane() {
            Some(lane) => Ok(self.state.admit(cast, lane, &note)),
            None => Err(AdmitFault::NoLane),
        }
    }
}

impl<T: Drop, N: Feed, P, A> WriterState<T, N, P, A> {
    /// The lowest lane that is idle.
    fn idle_lane(&self) -> Option<usize>
        ensures some { IfSome result (λ l. (l < LANES) × ((account_of self.now.known l).stand ≡ idle)
            × ((m : ℕ) → m < l → (account_of self.now.known m).stand ≢ idle)) }
        ensures none { IfNone result ((m : ℕ) → m < LANES → (account_of self.now.known m).stand ≢ idle) }
    {
        for lane in 0..LANES {
            if matches!(self.lanes[lane].stand, Stand::Idle) {
                return Some(lane);
            }
        }
        None
    }

    /// The lane begins at the next place.
    fn admit<C: AsCast<T, N, P, A>>(
        &mut self,
        cast: C,
        lane: usize,
        note: &Snapshot<A>,
    ) -> Cursor<C, T, N, P, A>
        requires { (lane < LANES) × Calm self.old.known
            × ((account_of self.old.known lane).stand ≡ idle) × (self.old.known.tail.closed ≡ false) }
        ensures writer { OneAccount self.old self.new lane (given_out (Some note.now.value)
            (length self.old.known.tail.log) (account_of self.old.known lane)) }
        ensures cursor { result ≡ as_cursor (opened
            (new_lane (Some note.now.value) lane self.old.known.tail (account_of self.old.known lane))) }
    {
        let top = &cast.as_cast().board.shared;
        let count = self.next.number();
        let mut seat = board::admit_lane::<BatchView<T, P>, SegKey<T>, A, SegmentKeys<T, P>, Brand>(
            top,
            &mut self.seat,
            lane,
            count,
            note,
        );
        self.lanes[lane] = LaneAccount {
            stand: Stand::Live,
            word: 4 * count,
        };
        board::open_lane(top, &mut seat, lane);
        Cursor {
            cast,
            seat,
            number: lane,
            next: RingPlace::new(count, self.next.places()),
            seen: count,
            closed: false,
            cut: false,
            shown: 0,
            hand: None,
            of: PhantomData,
        }
    }
}
