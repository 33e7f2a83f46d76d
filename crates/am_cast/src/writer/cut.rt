//! Publishing that cuts, from the call down to the steps: a lane that lags by as many batches as the log has
//! places gets no more keys.
ghost use Rattle.std.specs.Prelude.{◌≡◌, ◌≢◌, ◌+◌, ◌/◌, ◌%◌, ◌<◌, ◌≤◌, true, false, length, ℕ, IfOk, slice_index_or, IfErr, OnOk, OnErr};
ghost use Rattle.am_cast.specs.Rule.{live, cut, vacated, gone};
ghost use Rattle.am_cast.specs.Changes.{marked, severed, known_to};
ghost use Rattle.am_cast.specs.Seats.{account_of};
ghost use Rattle.am_cast.specs.Writers.{AreLoaded, IsCalm, Calm, HasRoom, IsBehind, IsCutAs, SameAdmission, StaysAs};
ghost use Rattle.am_cast.specs.Posters.{IsPosted, KnowsOwn};
ghost use Rattle.am_cast.specs.inside.WriterStates.{OneAccount, OnlyAccount, KeepsRoom};
ghost use Rattle.am_cast.specs.Refusals.{IsCutRefusal};

use crate::board;
use crate::cursor::Cast;
use crate::faults::{PublishFault, Refused};
use crate::feed::Feed;
use crate::limits::{LANES, LONGEST_LOG};
use crate::pass::Pass;
use crate::writer::lane_account::Stand;
use crate::writer::state::WriterState;
use crate::writer::{Published, Writer};
use am_segment::SegmentBuilder;
use std::snapshot::Snapshot;

impl<T: Drop, N: Feed, P, A> Writer<T, N, P, A> {
    /// As `publish`, but a lane that lags by as many batches as the log has places is cut. Answers which
    /// lanes were.
    pub fn publish_cutting(
        &mut self,
        cast: &Cast<T, N, P, A>,
        batch: SegmentBuilder<T>,
        post: Snapshot<P>,
        pass: &mut Pass<T, N, P, A>,
    ) -> Result<Published, Refused<T>>
        requires { 0 < length batch.items }
        ensures ok { IfOk result (λ r. IsPosted batch.items post.value self.old self.new pass.old
            pass.new r.place) }
        ensures cut { IfOk result (λ r. (l : ℕ) → l < LANES
            → IsCutAs (length self.old.tail.log) self.old.tail.places (account_of self.old l)
            (account_of self.new l) (slice_index_or r.cut l false)) }
        ensures known { OnOk result (KnowsOwn pass.old pass.new) }
        ensures lanes { (l : ℕ) → l < LANES
            → SameAdmission (account_of self.old l) (account_of self.new l) }
        ensures loads { AreLoaded self.old self.new }

        ensures err { OnErr result ((self.new.tail ≡ self.old.tail) × (pass.new ≡ pass.old)
            × ((l : ℕ) → l < LANES → StaysAs (account_of self.old l) (account_of self.new l))) }
        ensures refused { IfErr result (λ e. (e.batch ≡ batch) × IsCutRefusal self.old e.fault) }
    {
        self.state.harvest(cast);
        if self.is_closed() {
            return Err(Refused::new(PublishFault::Closed, batch));
        }
        if self.len() >= LONGEST_LOG {
            return Err(Refused::new(PublishFault::LogEnd, batch));
        }
        if self.state.reserve().is_err() {
            return Err(Refused::new(PublishFault::NoMemory, batch));
        }
        let cut = self.state.make_all_room(cast);
        let place = self.len();
        self.state.post(cast, batch, post, &mut pass.seat);
        pass.note(cast);
        Ok(Published { place, cut })
    }
}

impl<T: Drop, N: Feed, P, A> WriterState<T, N, P, A> {
    /// Each lane has room for one place more, or gets no key. Answers which lanes were cut.
    fn make_all_room(&mut self, cast: &Cast<T, N, P, A>) -> [bool; LANES]
        requires { Calm self.old.known }
        ensures calm { Calm self.new.known }
        ensures tail { self.new.known.tail ≡ self.old.known.tail }
        ensures room { HasRoom self.new.known LANES }
        ensures rows { KeepsRoom self.old.rows self.new.rows }
        ensures same { (l : ℕ) → l < LANES
            → SameAdmission (account_of self.old.known l) (account_of self.new.known l) }
        ensures cut { (l : ℕ) → l < LANES
            → IsCutAs (length self.old.known.tail.log) self.old.known.tail.places
            (account_of self.old.known l) (account_of self.new.known l) (slice_index_or result l false) }
    {
        let mut lanes = [false; LANES];
        for lane in 0..LANES {
            lanes[lane] = self.make_room(cast, lane);
        }
        lanes
    }

    /// After it the lane has room for one place more, or gets no key. Answers whether it was cut.
    fn make_room(&mut self, cast: &Cast<T, N, P, A>, lane: usize) -> bool
        requires { (lane < LANES) × Calm self.old.known }
        ensures only { OnlyAccount self.old self.new lane (account_of self.new.known lane) }
        ensures rows { KeepsRoom self.old.rows self.new.rows }
        ensures calm { IsCalm (length self.old.known.tail.log) self.old.known.tail.places
            (account_of self.new.known lane) }
        ensures room { (account_of self.new.known lane).stand ≡ live
            → length self.old.known.tail.log < (account_of self.new.known lane).known
            + self.old.known.tail.places }
        ensures same { SameAdmission (account_of self.old.known lane) (account_of self.new.known lane) }
        ensures cut { IsCutAs (length self.old.known.tail.log) self.old.known.tail.places
            (account_of self.old.known lane) (account_of self.new.known lane) result }
    {
        if !self.is_live(lane) || !self.is_behind(lane) {
            return false;
        }
        let word = self.lanes[lane].word;
        self.cut_or_move(cast, lane, word)
    }

    // A lane whose word was `word` has room for one place more, or is cut by one of two exchanges.
    fn cut_or_move(&mut self, cast: &Cast<T, N, P, A>, lane: usize, word: u64) -> bool
        requires calm { (lane < LANES) × Calm self.old.known }
        requires word { (word < gone) × IsBehind self.old.known lane
            × (word / 4 ≡ (account_of self.old.known lane).known)
            × (word / 2 ≡ (account_of self.old.known lane).half) × (word % 2 ≡ 0) }
        ensures only { OnlyAccount self.old self.new lane (account_of self.new.known lane) }
        ensures calm { IsCalm (length self.old.known.tail.log) self.old.known.tail.places
            (account_of self.new.known lane) }
        ensures same { SameAdmission (account_of self.old.known lane) (account_of self.new.known lane) }
        ensures room { (account_of self.new.known lane).stand ≡ live
            → length self.old.known.tail.log < (account_of self.new.known lane).known
            + self.old.known.tail.places }
        ensures rows { KeepsRoom self.old.rows self.new.rows }
        ensures cut { IsCutAs (length self.old.known.tail.log) self.old.known.tail.places
            (account_of self.old.known lane) (account_of self.new.known lane) result }
    {
        let next = self.cut_once(cast, lane, word);
        if next == word {
            return true;
        }
        if next == u64::MAX {
            return false;
        }
        if !self.is_behind(lane) {
            return false;
        }
        let last = self.cut_once(cast, lane, next);
        last == next
    }

    // One exchange on the word of a lane that lags by as many batches as the log has places. The keys that
    // are free then come home.
    fn cut_once(&mut self, cast: &Cast<T, N, P, A>, lane: usize, word: u64) -> u64
        requires calm { (lane < LANES) × Calm self.old.known }
        requires word { (word < gone) × IsBehind self.old.known lane
            × (word / 4 ≡ (account_of self.old.known lane).known)
            × (word / 2 ≡ (account_of self.old.known lane).half) }
        ensures only { OnlyAccount self.old self.new lane (account_of self.new.known lane) }
        ensures calm { IsCalm (length self.old.known.tail.log) self.old.known.tail.places
            (account_of self.new.known lane) }
        ensures rows { KeepsRoom self.old.rows self.new.rows }
        ensures same { SameAdmission (account_of self.old.known lane) (account_of self.new.known lane) }
        ensures cut { result ≡ word → ((account_of self.new.known lane).stand ≡ cut)
            × ((account_of self.new.known lane).known ≡ (account_of self.old.known lane).known)
            × ((account_of self.new.known lane).half ≡ (account_of self.old.known lane).half) }
        ensures gone { result ≡ gone → (account_of self.new.known lane).stand ≡ vacated }
        ensures found { result ≢ word → result ≢ gone
            → ((account_of self.new.known lane).stand ≡ live)
            × ((account_of self.new.known lane).known ≡ result / 4)
            × ((account_of self.new.known lane).half ≡ result / 2)
            × ((account_of self.old.known lane).half ≤ result / 2) × (result % 2 ≡ 0) }
    {
        let known = self.known_of(lane);
        let found = self.sever(cast, lane, word);
        if found == word {
            let to = self.next.number();
            self.clear_to(cast, lane, known + word / 2 % 2, to);
            return found;
        }
        if found == u64::MAX {
            let to = self.next.number();
            self.clear_to(cast, lane, known, to);
            return found;
        }
        let to = self.known_of(lane);
        self.clear_to(cast, lane, known, to);
        found
    }

    // The lane is cut, if its word is still `word`. Answers the word that was found.
    fn sever(&mut self, cast: &Cast<T, N, P, A>, lane: usize, word: u64) -> u64
        requires account { let b = account_of self.old.known lane in (lane < LANES) × (word < gone)
            × IsBehind self.old.known lane
            × IsCalm (length self.old.known.tail.log) self.old.known.tail.places b
            × (word / 4 ≡ b.known) × (word / 2 ≡ b.half) }
        ensures cut { result ≡ word
            → OneAccount self.old self.new lane (severed (result / 2 % 2) (account_of self.old.known lane)) }
        ensures gone { result ≢ word → result ≡ gone
            → OneAccount self.old self.new lane (marked (account_of self.old.known lane)) }
        ensures found { result ≢ word → result ≢ gone
            → OneAccount self.old self.new lane (known_to result (account_of self.old.known lane))
            × ((account_of self.old.known lane).known ≤ result / 4)
            × (result / 4 ≤ length self.old.known.tail.log)
            × ((account_of self.old.known lane).half ≤ result / 2) × (result % 2 ≡ 0) }
    {
        let found = board::cut_lane(&cast.board.shared, &mut self.seat, lane, word);
        if found == word {
            self.lanes[lane].stand = Stand::Cut;
            return found;
        }
        if found == u64::MAX {
            self.lanes[lane].stand = Stand::Vacated;
            return found;
        }
        self.lanes[lane].word = found;
        found
    }
}
