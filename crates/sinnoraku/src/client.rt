//! A caller, with the provider that it calls.
//!
//! Each call of a client is the provider's own, and is answered by the provider's own words: this file adds none.

ghost use Rattle.std.specs.Prelude.{◌≡◌, IfOk, OnErr};
ghost use Rattle.std.specs.Duration.{as_nanos};
ghost use Rattle.am_provider.specs.Callers.{AnswersBody, AnswersPostIf, KnowsAllSent, SeesCall};
ghost use Rattle.am_provider.specs.Headline.{AnswersClose, AnswersCollect, AnswersCompact, AnswersGet};
ghost use Rattle.am_provider.specs.Headline.{AnswersLeave, AnswersPage, AnswersPost, AnswersStored};
ghost use Rattle.am_provider.specs.Headline.{AnswersTake, AnswersTrim, AnswersVouch};
ghost use Rattle.am_provider.specs.Posts.{AddsOwn};
ghost use Rattle.am_provider.specs.Subscriptions.{taken};
ghost use Rattle.sinnoraku.specs.Clients.{AnswersReader};
ghost use Rattle.sinnoraku.specs.Owed.{ShowedItsDue};

use crate::limits::Limits;
use crate::reader::Reader;
use am_alert::{Alert, Moment, Post};
use am_labels::LabelSet;
use am_provider::{
    BodyFault, Caller, CloseFault, Ended, NoGate, Page, Posted, PostedIf, Provider, PutFault,
    Recorded, SubFault,
};
use am_store::{SharedAlert, StoredAlerts};
use std::alloc::AllocError;
use std::fmt;
use std::sync::Wait;

/// A caller, with the provider that it calls and that provider's limits. A thread needs one of its own.
#[derive(Drop)]
pub struct Client<'p, N: Recorded> {
    pub provider: &'p Provider<N>,
    /// What it posted, and how much of the provider's one history it has seen.
    pub caller: Caller<N>,
    limits: Limits,
    pub ghost sized: { N.places ≡ limits.places },
    pub ghost strict: { N.policy ≡ limits.policy },
    pub ghost timed: { provider.now.resolve_timeout ≡ limits.resolve_timeout },
}

impl<'p, N: Recorded> Client<'p, N> {
    /// A client of a provider that was begun with these limits.
    pub fn new(provider: &'p Provider<N>, caller: Caller<N>, limits: Limits) -> Client<'p, N>
        requires limits { (N.places ≡ limits.places) × (N.policy ≡ limits.policy) }
        requires timeout { provider.now.resolve_timeout ≡ limits.resolve_timeout }
        ensures provider { result.provider ≡ provider.entry }
        ensures caller { result.caller ≡ caller }
        ensures limits { result.limits ≡ limits }
    {
        Client {
            provider,
            caller,
            limits,
        }
    }

    pub fn limits(&self) -> Limits
        ensures { result ≡ self.now.limits }
    {
        self.limits
    }

    /// Its caller, which `Provider::settle` takes back.
    pub fn into_caller(self) -> Caller<N>
        ensures { result ≡ self.entry.caller }
    {
        let Client {
            provider: _,
            caller,
            limits: _,
        } = self;
        caller
    }

    /// Reads a post's body, and then posts its valid alerts.
    pub fn post<R: Wait>(&mut self, rt: &R, body: &[u8], now: Moment) -> Result<Posted, BodyFault>
        ensures answers { AnswersBody N.policy N.places now (as_nanos self.old.provider.now.resolve_timeout)
            body.now self.old.caller.pass self.new.caller.pass self.old.caller.front self.new.caller.front
            result }
        ensures same { (self.new.provider ≡ self.old.provider) × (self.new.limits ≡ self.old.limits) }
    {
        self.provider.post(rt, &mut self.caller, &NoGate, body, now)
    }

    /// Posts the valid alerts of a post that was read or made before.
    pub fn put<R: Wait>(&mut self, rt: &R, post: Post, now: Moment) -> Result<Posted, PutFault>
        ensures sees { SeesCall self.old.caller.front self.new.caller.front
            (AnswersPost N.policy N.places now post result) }
        ensures own { IfOk result (λ posted.
            AddsOwn self.old.caller.pass now post.valid posted.place self.new.caller.pass) }
        ensures err { OnErr result (self.new.caller.pass ≡ self.old.caller.pass) }
        ensures same { (self.new.provider ≡ self.old.provider) × (self.new.limits ≡ self.old.limits) }
    {
        self.provider.put(rt, &mut self.caller, &NoGate, post, now)
    }

    /// Posts those valid alerts that a filter accepts. It is asked once of each, in order, with the alert as it would be
    /// stored and whether no alert of its label set is stored.
    pub fn put_if<R: Wait, F: FnMut(&Alert, bool) -> bool>(
        &mut self,
        rt: &R,
        post: Post,
        now: Moment,
        accepts: &mut F,
    ) -> Result<PostedIf, PutFault>
        requires { F.IsAlwaysCallable accepts.old }
        ensures answers { AnswersPostIf F.FnMut accepts.old accepts.new N.policy N.places now post
            self.old.caller.pass self.new.caller.pass self.old.caller.front self.new.caller.front result }
        ensures callable { F.IsAlwaysCallable accepts.new }
        ensures same { (self.new.provider ≡ self.old.provider) × (self.new.limits ≡ self.old.limits) }
    {
        self.provider
            .put_if(rt, &mut self.caller, &NoGate, post, now, accepts)
    }

    /// A reader of what is stored and of what comes from now on.
    pub fn subscribe<R: Wait>(&mut self, rt: &R) -> Result<Reader<'p, N>, SubFault>
        ensures sees { SeesCall self.old.caller.front self.new.caller.front
            (AnswersReader (λ reader. reader.subscription) result) }
        ensures pass { self.new.caller.pass ≡ self.old.caller.pass }
        ensures reader { IfOk result (λ reader. reader.provider ≡ self.old.provider) }
        ensures same { (self.new.provider ≡ self.old.provider) × (self.new.limits ≡ self.old.limits) }
    {
        let subscription = self.provider.subscribe(rt, &mut self.caller)?;
        Ok(Reader {
            provider: self.provider,
            subscription,
        })
    }

    /// Takes a reader back, and answers its ending.
    pub fn leave<R: Wait>(&mut self, rt: &R, reader: Reader<'_, N>) -> Ended
        ensures sees { SeesCall self.old.caller.front self.new.caller.front
            (AnswersLeave reader.entry.subscription result) }
        ensures places { reader.entry.subscription.cursor.lane.places ≡ N.places }
        ensures due { ShowedItsDue self.new.caller.front result (taken reader.entry.subscription) }
        ensures pass { self.new.caller.pass ≡ self.old.caller.pass }
        ensures same { (self.new.provider ≡ self.old.provider) × (self.new.limits ≡ self.old.limits) }
    {
        let Reader {
            provider: _,
            subscription,
        } = reader;
        self.provider.leave(rt, &mut self.caller, subscription)
    }

    /// Says of a reader that goes on what `leave` says of one that is given back. And the client's pass knows all that
    /// was sent so far: `next_past` with it shows all of that before it answers `Pending`.
    pub fn vouch<R: Wait>(&mut self, rt: &R, reader: &mut Reader<'_, N>)
        ensures sees { SeesCall self.old.caller.front self.new.caller.front
            (AnswersVouch reader.old.subscription) }
        ensures places { reader.old.subscription.cursor.lane.places ≡ N.places }
        ensures pass { KnowsAllSent self.old.caller.pass self.new.caller.pass self.new.caller.front }
        ensures reader { (reader.new.subscription ≡ reader.old.subscription)
            × (reader.new.provider ≡ reader.old.provider) }
        ensures same { (self.new.provider ≡ self.old.provider) × (self.new.limits ≡ self.old.limits) }
    {
        self.provider
            .vouch(rt, &mut self.caller, &mut reader.subscription);
    }

    /// Removes the stored alerts that are resolved, and answers how many.
    pub fn collect_resolved<R: Wait>(&mut self, rt: &R, now: Moment) -> Result<u64, AllocError>
        ensures sees { SeesCall self.old.caller.front self.new.caller.front (AnswersCollect now result) }
        ensures pass { self.new.caller.pass ≡ self.old.caller.pass }
        ensures same { (self.new.provider ≡ self.old.provider) × (self.new.limits ≡ self.old.limits) }
    {
        self.provider.collect_resolved(rt, &mut self.caller, now)
    }

    /// Removes the stored alerts that are resolved, and answers them, in the order in which they were stored.
    pub fn take_resolved<R: Wait>(
        &mut self,
        rt: &R,
        now: Moment,
    ) -> Result<StoredAlerts, AllocError>
        ensures sees { SeesCall self.old.caller.front self.new.caller.front (AnswersTake now result) }
        ensures pass { self.new.caller.pass ≡ self.old.caller.pass }
        ensures same { (self.new.provider ≡ self.old.provider) × (self.new.limits ≡ self.old.limits) }
    {
        self.provider.take_resolved(rt, &mut self.caller, now)
    }

    /// Ends the log: no post and no reader is accepted from now on.
    pub fn close<R: Wait>(&mut self, rt: &R) -> Result<(), CloseFault>
        ensures sees { SeesCall self.old.caller.front self.new.caller.front (AnswersClose result) }
        ensures pass { self.new.caller.pass ≡ self.old.caller.pass }
        ensures same { (self.new.provider ≡ self.old.provider) × (self.new.limits ≡ self.old.limits) }
    {
        self.provider.close(rt, &mut self.caller)
    }

    /// Discards the calls of the journal that no open reader needs, and answers how many.
    pub fn trim<R: Wait>(&mut self, rt: &R) -> Result<u64, AllocError>
        ensures sees { SeesCall self.old.caller.front self.new.caller.front (AnswersTrim result) }
        ensures pass { self.new.caller.pass ≡ self.old.caller.pass }
        ensures same { (self.new.provider ≡ self.old.provider) × (self.new.limits ≡ self.old.limits) }
    {
        self.provider.trim(rt, &mut self.caller)
    }

    /// Takes the calls of the journal out of memory, also while readers are open, and answers how many those were.
    pub fn compact<R: Wait>(&mut self, rt: &R) -> Result<u64, AllocError>
        ensures sees { SeesCall self.old.caller.front self.new.caller.front (AnswersCompact result) }
        ensures pass { self.new.caller.pass ≡ self.old.caller.pass }
        ensures same { (self.new.provider ≡ self.old.provider) × (self.new.limits ≡ self.old.limits) }
    {
        self.provider.compact(rt, &mut self.caller)
    }

    /// What is stored, in order.
    pub fn stored<R: Wait>(&mut self, rt: &R) -> Result<StoredAlerts, AllocError>
        ensures sees { SeesCall self.old.caller.front self.new.caller.front (AnswersStored result) }
        ensures pass { self.new.caller.pass ≡ self.old.caller.pass }
        ensures same { (self.new.provider ≡ self.old.provider) × (self.new.limits ≡ self.old.limits) }
    {
        self.provider.stored(rt, &mut self.caller)
    }

    /// At most `most` of the stored alerts, in order, from the index `from` on.
    pub fn stored_page<R: Wait>(&mut self, rt: &R, from: u64, most: u64) -> Result<Page, AllocError>
        ensures sees { SeesCall self.old.caller.front self.new.caller.front (AnswersPage from most result) }
        ensures pass { self.new.caller.pass ≡ self.old.caller.pass }
        ensures same { (self.new.provider ≡ self.old.provider) × (self.new.limits ≡ self.old.limits) }
    {
        self.provider.stored_page(rt, &mut self.caller, from, most)
    }

    /// The stored alert of a label set.
    pub fn get<R: Wait>(
        &mut self,
        rt: &R,
        labels: &LabelSet,
    ) -> Result<Option<SharedAlert>, AllocError>
        ensures sees { SeesCall self.old.caller.front self.new.caller.front (AnswersGet labels.now result) }
        ensures pass { self.new.caller.pass ≡ self.old.caller.pass }
        ensures same { (self.new.provider ≡ self.old.provider) × (self.new.limits ≡ self.old.limits) }
    {
        self.provider.get(rt, &mut self.caller, labels)
    }
}

impl<'p, N: Recorded> fmt::Debug for Client<'p, N> {
    fn fmt<W: fmt::Write>(&self, f: &mut fmt::Formatter<W>) -> fmt::Result {
        f.debug_struct("Client")
            .field("limits", &self.limits)
            .finish_non_exhaustive()
    }
}
