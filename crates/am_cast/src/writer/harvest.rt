//! Harvesting, from the call down to the steps: each lane's word is loaded, and the keys that it has
//! passed come home.
ghost use Rattle.std.specs.Prelude.{◌≡◌, ◌≢◌, ◌↔◌, ◌+◌, ◌/◌, ◌%◌, ◌<◌, ◌≤◌, true, false, length, None, Some, IfSome, IfNone, IsTrue};
ghost use Rattle.am_cast.specs.Rule.{live, cut, vacated, gone};
ghost use Rattle.am_cast.specs.Changes.{loaded, marked, back, known_to};
ghost use Rattle.am_cast.specs.Seats.{account_of};
ghost use Rattle.am_cast.specs.Writers.{IsCalm, Calm, HasRoom, IsBehind, Harvested, SameAdmission, StaysAs};
ghost use Rattle.am_cast.specs.inside.WriterStates.{OneAccount, OnlyAccount};

use crate::board;
use crate::cursor::Cast;
use crate::feed::Feed;
use crate::limits::LANES;
use crate::writer::Writer;
use crate::writer::lane_account::Stand;
use crate::writer::state::WriterState;

impl<T: Drop, N: Feed, P, A> Writer<T, N, P, A> {
    /// Loads the word of each live lane and of each cut lane whose key is away, and ends the segments that
    /// all lanes have passed. Answers the lane that a publish would name as full.
    pub fn harvest(&mut self, cast: &Cast<T, N, P, A>) -> Option<(usize, u64)>
        ensures harvested { Harvested self.old self.new LANES }

        ensures full { IfSome result (λ r. (r.0 < LANES) × (r.1 ≡ (account_of self.new r.0).known)
            × IsBehind self.new r.0 × HasRoom self.new r.0) }
        ensures room { IfNone result (HasRoom self.new LANES) }
    {
        match self.state.harvest(cast) {
            Some(lane) => Some((lane, self.state.known_of(lane))),
            None => None,
        }
    }
}

impl<T: Drop, N: Feed, P, A> WriterState<T, N, P, A> {
    /// Loads the lanes' words, in order of lanes, and takes out all keys that they have passed. Answers the
    /// lowest lane that lags by as many batches as the log has places.
    pub(crate) fn harvest(&mut self, cast: &Cast<T, N, P, A>) -> Option<usize>
        requires { Calm self.old.known }
        ensures calm { Calm self.new.known }
        ensures same { Harvested self.old.known self.new.known LANES }
        ensures none { IfNone result (HasRoom self.new.known LANES) }
        ensures some { IfSome result (λ l. (l < LANES) × IsBehind self.new.known l
            × HasRoom self.new.known l) }
    {
        let mut full = None;
        for lane in 0..self.used_end() {
            let word = self.harvest_lane(cast, lane);
            if full.is_none() && word != u64::MAX && self.is_full_ring(word / 4) {
                full = Some(lane);
            }
        }
        full
    }

    /// Whether all slots of a lane that has passed `passed` places are filled.
    fn is_full_ring(&self, passed: u64) -> bool
        requires { passed ≤ length self.now.known.tail.log }
        ensures { IsTrue result ↔ (passed + self.now.known.tail.places ≤ length self.now.known.tail.log) }
    {
        self.next.number() - passed >= self.next.places()
    }

    /// Loads the lane's word if the lane is given out, and takes out the keys that it has passed. Answers the
    /// word of a lane that is live then, or the greatest u64.
    fn harvest_lane(&mut self, cast: &Cast<T, N, P, A>, lane: usize) -> u64
        requires { (lane < LANES) × Calm self.old.known }
        ensures only { OnlyAccount self.old self.new lane (account_of self.new.known lane) }
        ensures calm { IsCalm (length self.old.known.tail.log) self.old.known.tail.places
            (account_of self.new.known lane) }
        ensures account { let b = account_of self.old.known lane in
            let c = account_of self.new.known lane in StaysAs b c × (b.stand ≡ live
            → b.loads < c.loads) × (b.away ≡ true → b.loads < c.loads) }
        ensures word { let c = account_of self.new.known lane in (result ≡ gone → c.stand ≢ live)
            × (result ≢ gone → (c.stand ≡ live) × (c.known ≡ result / 4)) }
    {
        if self.is_live(lane) {
            return self.harvest_live(cast, lane);
        }
        if self.is_away(lane) {
            self.harvest_cut(cast, lane);
        }
        u64::MAX
    }

    /// Loads the word of a live lane, and takes out the keys that it has passed. Answers the word.
    fn harvest_live(&mut self, cast: &Cast<T, N, P, A>, lane: usize) -> u64
        requires { (lane < LANES) × Calm self.old.known
            × ((account_of self.old.known lane).stand ≡ live) }
        ensures only { OnlyAccount self.old self.new lane (account_of self.new.known lane) }
        ensures calm { IsCalm (length self.old.known.tail.log) self.old.known.tail.places
            (account_of self.new.known lane) }
        ensures account { let b = account_of self.old.known lane in
            let c = account_of self.new.known lane in SameAdmission b c × (c.loads ≡ b.loads + 1)
            × (b.known ≤ c.known) × (result ≡ gone → c.stand ≡ vacated) × (result ≢ gone
            → (c.stand ≡ live) × (c.known ≡ result / 4) × (c.half ≡ result / 2) × (b.half ≤ c.half)
            × (result % 2 ≡ 0)) }
    {
        let from = self.known_of(lane);
        let found = self.load(cast, lane);
        if found == u64::MAX {
            let to = self.next.number();
            self.clear_to(cast, lane, from, to);
            return found;
        }
        let to = self.known_of(lane);
        self.clear_to(cast, lane, from, to);
        found
    }

    /// Loads the lane's word, and answers it.
    fn load(&mut self, cast: &Cast<T, N, P, A>, lane: usize) -> u64
        requires { (lane < LANES) × ((account_of self.old.known lane).stand ≡ live)
            × ((account_of self.old.known lane).laid ≡ None)
            × ((account_of self.old.known lane).away ≡ false) }
        ensures gone { result ≡ gone
            → OneAccount self.old self.new lane (marked (account_of self.old.known lane)) }
        ensures found { result ≢ gone
            → OneAccount self.old self.new lane (known_to result (account_of self.old.known lane))
            × ((account_of self.old.known lane).known ≤ result / 4)
            × (result / 4 ≤ length self.old.known.tail.log)
            × ((account_of self.old.known lane).half ≤ result / 2) × (result % 2 ≡ 0) }
    {
        let found = board::find_word(&cast.board.shared, &mut self.seat, lane);
        if found == u64::MAX {
            self.lanes[lane].stand = Stand::Vacated;
            return found;
        }
        self.lanes[lane].word = found;
        found
    }

    /// Looks whether the key of a cut lane is back, and then takes it out.
    fn harvest_cut(&mut self, cast: &Cast<T, N, P, A>, lane: usize)
        requires { (lane < LANES) × Calm self.old.known × ((account_of self.old.known lane).away ≡ true) }
        ensures only { OnlyAccount self.old self.new lane (account_of self.new.known lane) }
        ensures calm { IsCalm (length self.old.known.tail.log) self.old.known.tail.places
            (account_of self.new.known lane) }
        ensures account { let b = account_of self.old.known lane in
            let c = account_of self.new.known lane in SameAdmission b c × (c.stand ≡ b.stand)
            × (c.half ≡ b.half) × (b.loads < c.loads) }
    {
        let place = self.known_of(lane);
        if self.recover(cast, lane) {
            self.clear_to(cast, lane, place, place + 1);
        }
    }

    /// A look at a cut lane whose key is away. Answers whether it is back.
    fn recover(&mut self, cast: &Cast<T, N, P, A>, lane: usize) -> bool
        requires { let b = account_of self.old.known lane in (lane < LANES) × (b.stand ≡ cut)
            × (b.away ≡ true) × (b.cleared ≡ b.stop) × (b.out ≡ 0) }
        ensures back { let b = account_of self.old.known lane in
            let c = account_of self.new.known lane in result ≡ true
            → OneAccount self.old self.new lane (back c.known (loaded b)) × (b.known ≤ c.known)
            × (c.known ≤ length self.old.known.tail.log) }
        ensures away { result ≡ false
            → OneAccount self.old self.new lane (loaded (account_of self.old.known lane)) }
    {
        let found = board::recover_key(&cast.board.shared, &mut self.seat, lane);
        if found / 2 % 2 == 0 {
            self.lanes[lane].word = found;
            return true;
        }
        false
    }
}
