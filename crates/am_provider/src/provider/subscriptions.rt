//! Subscriptions: how one begins, what is said of one that goes on, and how one ends.

ghost use Rattle.std.specs.Prelude.{◌≡◌};
ghost use Rattle.am_provider.specs.Callers.{KnowsAllSent, SeesCall};
ghost use Rattle.am_provider.specs.Headline.{AnswersLeave, AnswersSubscribe, AnswersVouch};
ghost use Rattle.am_provider.specs.Posts.{HasMet};

use crate::answers::Ended;
use crate::caller::Caller;
use crate::feed::Recorded;
use crate::pass::Pass;
use crate::provider::Provider;
use crate::recorded_book::record;
use crate::subscription::Subscription;
use am_store::{Call, LaneSet, SubFault};
use std::sync::Wait;

impl<N: Recorded> Provider<N> {
    /// A subscription to what is stored and to what comes from now on. It reads without the lock.
    pub fn subscribe<R: Wait>(
        &self,
        rt: &R,
        caller: &mut Caller<N>,
    ) -> Result<Subscription<'_, N>, SubFault>
        ensures sees { SeesCall caller.old.front caller.new.front (AnswersSubscribe result) }
        ensures pass { caller.new.pass ≡ caller.old.pass }
    {
        let (made, _outdated) = {
            let recorded = &mut *self.lock(rt);
            recorded.book.kept();
            let made = match recorded.book.subscribe(&self.cast) {
                Ok(made) => made,
                Err(fault) => {
                    recorded.history.show(&self.table, &mut caller.front);
                    return Err(fault);
                }
            };
            recorded.book.kept();
            let call = Call::Subscribed(made.lane());
            record(
                &mut recorded.history,
                &self.table,
                &call,
                LaneSet::EMPTY,
                None,
                caller,
            );
            (made, recorded.take_outdated())
        };
        Ok(made)
    }

    /// Each own post of the pass that the subscription has seen is at its place there, and the
    /// pass knows at least as much of the log as the subscription. It takes no lock.
    pub fn meet(&self, subscription: &mut Subscription<'_, N>, pass: &mut Pass<N>)
        ensures same { subscription.new ≡ subscription.old }
        ensures met { HasMet subscription.old.cursor.lane.front pass.old pass.new }
    {
        subscription.meet(&self.cast, pass);
    }

    /// Takes a subscription back, and answers its ending.
    pub fn leave<R: Wait>(
        &self,
        rt: &R,
        caller: &mut Caller<N>,
        subscription: Subscription<'_, N>,
    ) -> Ended
        ensures sees { SeesCall caller.old.front caller.new.front
            (AnswersLeave subscription.entry result) }
        ensures places { subscription.entry.cursor.lane.places ≡ N.places }
        ensures pass { caller.new.pass ≡ caller.old.pass }
    {
        let (ended, _left) = {
            let recorded = &mut *self.lock(rt);
            recorded.book.kept();
            let call = Call::Left(subscription.lane());
            let ended = recorded.book.leave(&self.cast, subscription);
            recorded.book.kept();
            record(
                &mut recorded.history,
                &self.table,
                &call,
                LaneSet::EMPTY,
                Some(ended),
                caller,
            );
            (ended, recorded.book.take_left())
        };
        ended
    }

    /// Says of a subscription that goes on what `leave` says of one that is given back: what it has taken so far begins
    /// what the whole history owes it. So a reader that never leaves has the promise while it reads. And the caller's
    /// pass knows all that was sent so far: `next_past` with it shows all of that before it answers `Pending`. Nothing
    /// is added to the history.
    pub fn vouch<R: Wait>(
        &self,
        rt: &R,
        caller: &mut Caller<N>,
        subscription: &mut Subscription<'_, N>,
    )
        ensures sees { SeesCall caller.old.front caller.new.front (AnswersVouch subscription.old) }
        ensures places { subscription.old.cursor.lane.places ≡ N.places }
        ensures pass { KnowsAllSent caller.old.pass caller.new.pass caller.new.front }
        ensures same { subscription.new ≡ subscription.old }
    {
        let recorded = &mut *self.lock(rt);
        recorded.book.kept();
        recorded.history.show(&self.table, &mut caller.front);
        recorded
            .book
            .vouch(&self.cast, &mut caller.pass, subscription);
    }
}
