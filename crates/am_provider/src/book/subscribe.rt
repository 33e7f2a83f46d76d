//! Subscriptions: opened, vouched for and left.

ghost use Rattle.std.specs.Prelude.{◌≡◌, ◌≢◌, ◌↔◌, ◌++◌, ◌∷◌, IsTrue, IfOk, OnErr, IsErrOf, ℕ, false, [], length};
ghost use Rattle.am_cast.specs.Rule.{cut, idle, live};
ghost use Rattle.am_cast.specs.Seats.{account_of};
ghost use Rattle.am_store.specs.Journal.{with_call, call_count, is_closed, AreAllOpen};
ghost use Rattle.am_store.specs.Stored.{stored};
ghost use Rattle.am_provider.specs.BookView.{batches};
ghost use Rattle.am_provider.specs.Subscriptions.{taken};
ghost use Rattle.am_provider.specs.Posts.{HasSameLimits, KeepsRest};
ghost use Rattle.am_provider.specs.Vouching.{HasTakenDue, KnowsWholeLog};

use crate::answers::Ended;
use crate::book::{Book, ENTRIES};
use crate::feed::{Cast, Origin};
use crate::pass::Pass;
use crate::subscription::Subscription;
use am_store::lanes::{LANES, OpenLane, idle_lane};
use am_store::{Call, SubFault};
use std::mem;
use std::snapshot::Snapshot;

impl<N: Origin> Book<N> {
    /// A subscription on the lowest lane that isn't open, to what is stored and to what comes from
    /// now on.
    pub fn subscribe<'a>(&mut self, cast: &'a Cast<N>) -> Result<Subscription<'a, N>, SubFault>
        ensures journal { IfOk result (λ made. self.new.journal
            ≡ with_call self.old.journal (Call.Subscribed made.cursor.lane.number)) }
        ensures at { IfOk result (λ made. made.at ≡ call_count self.old.journal) }
        ensures opening { IfOk result (λ made. made.opening ≡ self.old.stored) }
        ensures fresh { IfOk result (λ made. (taken made ≡ []) × (made.closed_told ≡ false)) }
        ensures start { IfOk result (λ made. made.cursor.lane.start ≡ length (batches self.old)) }
        ensures log { self.new.log.tail ≡ self.old.log.tail }
        ensures lane { IfOk result (λ made.
            (account_of self.new.log made.cursor.lane.number).stand ≡ live) }
        ensures others { IfOk result (λ made. (lane : ℕ) → lane ≢ made.cursor.lane.number
            → account_of self.new.log lane ≡ account_of self.old.log lane) }
        ensures stored { self.new.stored ≡ self.old.stored }
        ensures rest { KeepsRest self.old self.new }

        ensures closed { IsErrOf result SubFault.Closed ↔ IsTrue (is_closed self.old.journal) }
        ensures no_lane { IsErrOf result SubFault.NoLane
            ↔ ((is_closed self.old.journal ≡ false) × AreAllOpen self.old.journal) }
        ensures err { OnErr result (self.new ≡ self.old) }
    {
        if self.log.is_closed() {
            return Err(SubFault::Closed);
        }
        if idle_lane(&self.lanes).is_none() {
            return Err(SubFault::NoLane);
        }
        let opening = self.stored.share_all()?;
        let kept = opening.share()?;
        self.journal.reserve(ENTRIES)?;
        self.endings.reserve(LANES)?;
        let at = self.journal.call_count();
        let open = OpenLane { at, opening: kept };
        let Ok(cursor) = self.log.admit(cast, Snapshot::of(&open)) else {
            unreachable!()
        };
        let lane = cursor.lane();
        self.lanes[lane] = Some(open);
        self.journal.push(Call::Subscribed(lane as u32));
        Ok(Subscription::begin(at, opening, cursor))
    }

    /// Takes a subscription back, and answers its ending.
    pub fn leave(&mut self, cast: &Cast<N>, subscription: Subscription<'_, N>) -> Ended
        ensures journal { self.new.journal
            ≡ with_call self.old.journal (Call.Left subscription.entry.cursor.lane.number) }
        ensures at { result.at ≡ subscription.entry.at }
        ensures taken { result.taken ≡ length (taken subscription.entry) }
        ensures closed { result.closed ≡ subscription.entry.closed_told }
        ensures cut { IsTrue result.cut
            ↔ ((account_of self.old.log subscription.entry.cursor.lane.number).stand ≡ cut) }
        ensures due { HasTakenDue self.old subscription.entry }

        ensures endings { (self.new.endings ≡ self.old.endings ++ result ∷ [])
            × (self.new.early ≡ self.old.early) }
        ensures gone { self.new.gone ≡ self.old.gone }
        ensures log { self.new.log.tail ≡ self.old.log.tail }
        ensures lane { (account_of self.new.log subscription.entry.cursor.lane.number).stand ≡ idle }
        ensures others { (lane : ℕ) → lane ≢ subscription.entry.cursor.lane.number
            → account_of self.new.log lane ≡ account_of self.old.log lane }
        ensures stored { self.new.stored ≡ self.old.stored }
        ensures limits { HasSameLimits self.old self.new }
    {
        let (at, taken, closed, cursor, held) = subscription.into_parts();
        let lane = cursor.lane();
        let ended = Ended {
            at,
            taken,
            closed,
            cut: self.log.is_cut(lane),
        };
        self.log.retire(cast, cursor);
        self.left = (mem::replace(&mut self.lanes[lane], None), held);
        self.journal.push(Call::Left(lane as u32));
        self.endings.push(ended);
        ended
    }

    /// Says of a subscription that goes on what `leave` says of one that is given back: so far it has taken its due.
    /// And the pass knows the whole log: who reads past it is shown all that was sent so far. Nothing else changes. It
    /// is no call of the journal.
    pub fn vouch(
        &mut self,
        cast: &Cast<N>,
        pass: &mut Pass<N>,
        subscription: &mut Subscription<'_, N>,
    )
        ensures same { (self.new ≡ self.old) × (subscription.new ≡ subscription.old) }
        ensures due { HasTakenDue self.old subscription.old }
        ensures told { KnowsWholeLog self.old pass.old pass.new }
    {
        self.log.tell(cast, &mut pass.pass);
        subscription.vouch(cast, &mut self.log);
    }
}
