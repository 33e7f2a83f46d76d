//! Reclaiming, from the call down to the steps: the lanes whose cursors were dropped become idle.
ghost use Rattle.std.specs.Prelude.{◌≡◌, ◌≢◌, ◌<◌, true, false, ℕ, slice_index_or};
ghost use Rattle.am_cast.specs.Rule.{idle};
ghost use Rattle.am_cast.specs.Changes.{retired, loaded};
ghost use Rattle.am_cast.specs.Seats.{account_of};
ghost use Rattle.am_cast.specs.Writers.{Calm, IsReclaimedAs};
ghost use Rattle.am_cast.specs.inside.WriterStates.{OneAccount, OnlyAccount};

use crate::board;
use crate::cursor::Cast;
use crate::feed::Feed;
use crate::limits::LANES;
use crate::writer::Writer;
use crate::writer::lane_account::Stand;
use crate::writer::state::WriterState;

impl<T: Drop, N: Feed, P, A> Writer<T, N, P, A> {
    /// Loads the word of each lane that is given out. A lane whose cursor was dropped is idle then, and its keys
    /// come home, as if it were retired. Answers which lanes were found so. It takes no memory.
    pub fn reclaim(&mut self, cast: &Cast<T, N, P, A>) -> [bool; LANES]
        ensures tail { self.new.tail ≡ self.old.tail }
        ensures lanes { (l : ℕ) → l < LANES → IsReclaimedAs (account_of self.old l) (account_of self.new l)
            (slice_index_or result l false) }
    {
        self.state.reclaim(cast)
    }
}

impl<T: Drop, N: Feed, P, A> WriterState<T, N, P, A> {
    // Each lane that has left is idle. Answers which were found so.
    fn reclaim(&mut self, cast: &Cast<T, N, P, A>) -> [bool; LANES]
        requires { Calm self.old.known }
        ensures calm { Calm self.new.known }
        ensures tail { self.new.known.tail ≡ self.old.known.tail }
        ensures lanes { (l : ℕ) → l < LANES
            → IsReclaimedAs (account_of self.old.known l) (account_of self.new.known l)
            (slice_index_or result l false) }
    {
        let mut lanes = [false; LANES];
        for lane in 0..LANES {
            lanes[lane] = self.reclaim_lane(cast, lane);
        }
        lanes
    }

    // The lane is idle if it has left. Answers whether it was found so.
    fn reclaim_lane(&mut self, cast: &Cast<T, N, P, A>, lane: usize) -> bool
        requires { (lane < LANES) × Calm self.old.known }
        ensures only { OnlyAccount self.old self.new lane (account_of self.new.known lane) }
        ensures lane { IsReclaimedAs (account_of self.old.known lane) (account_of self.new.known lane) result }
    {
        let was = self.lanes[lane];
        if matches!(was.stand, Stand::Idle) || !self.find_left(cast, lane) {
            return false;
        }
        self.empty(cast, lane, was);
        true
    }

    // Loads the lane's word. Answers whether it has left, and then it is idle.
    fn find_left(&mut self, cast: &Cast<T, N, P, A>, lane: usize) -> bool
        requires { let b = account_of self.old.known lane in (lane < LANES) × Calm self.old.known
            × (b.stand ≢ idle) }
        ensures left { result ≡ true
            → OneAccount self.old self.new lane (retired (account_of self.old.known lane)) }
        ensures here { result ≡ false
            → OneAccount self.old self.new lane (loaded (account_of self.old.known lane)) }
    {
        let left = board::reclaim_lane(&cast.board.shared, &mut self.seat, lane);
        if left {
            self.lanes[lane].stand = Stand::Idle;
        }
        left
    }
}
