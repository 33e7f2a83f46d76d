//! An open subscription of a script, with its consumer, and what reading it answers.
//!
//! A `read` asks `vouch` first, and so takes the lock once a line: else `pending` would say only that a look found
//! nothing.

ghost use Rattle.std.specs.Prelude.{◌≡◌, ◌∷◌, ℕ, List, false, true, [], IfOk, OnErr, OnOk};
ghost use Rattle.std.specs.Str.{bytes_eq};
ghost use mathlib.Core.List.{IsPrefix};
ghost use Rattle.am_provider.specs.Callers.{KnowsAllSent, SeesCall};
ghost use Rattle.am_provider.specs.Headline.{AnswersVouch};
ghost use Rattle.am_provider.specs.Subscriptions.{taken};
ghost use Rattle.am_answers.specs.Consuming.{HasTaken, IsAsked, answers_of_groups, has_both};
ghost use Rattle.am_answers.specs.Answers.{is_item};
ghost use Rattle.am_runner.specs.Reading.{EndsPending, IsTaken, NextIs, ReadAnswers, ReadsOne, SaysPendingPast, TookAll};
ghost use Rattle.am_runner.specs.Sessions.{SweepsOne};

use am_alert::Moment;
use am_answers::{Answer, Consumer, Half};
use am_inhibit::laws::kept_laws;
use am_labels::{LabelSet, Text};
use am_provider::{Caller, Origin, Pass, Provider, Recorded, Step, Subscription};
use am_script::Verb;
use std::alloc::{AllocError, Global};
use std::marker::Model;
use std::sync::Wait;

/// An open subscription with its name and its consumer. Contracts see all of it: unless an
/// alert was missed, the consumer took what the subscription has taken, and nothing else.
pub struct OpenSubscription<'p, 'c, N: Origin> {
    name: Text,
    subscription: Subscription<'p, N>,
    consumer: Consumer<'c>,
    // Whether there was no memory for an alert that was shown.
    missed: bool,
}

impl<'p, 'c, N: Origin> Model for OpenSubscription<'p, 'c, N> {
    ghost use Rattle.std.specs.Coded.{codes};
    ghost use Rattle.am_alert.specs.Alerts.{coded_alert};
    ghost use Rattle.am_store.specs.contracts.call.Call as call;
    ghost use Rattle.am_store.specs.contracts.lanes.OpenLane as lane;
    ghost use Rattle.am_answers.specs.contracts.consumer.Consumer as beside;
    ghost use Rattle.std.specs.Prelude.{[]};
    ghost use mir.Syntax.{named};
    ghost use Rattle.am_runner.specs.Reading.{OpenView, TookAll};

    ghost Value = { OpenView };

    ghost coded = { Prim.hlevel (codes, coded_alert, call.the_row.coded, lane.the_row.coded, (beside.the_row (record { mir = named 0; lft = [] })).coded) };

    ghost view = { λ o. record {
      name = o.name;
      subscription = o.subscription;
      consumer = o.consumer;
      missed = o.missed;
    } };

    ghost invariant = { λ o. TookAll o.subscription o.consumer o.missed };
}

impl<'p, 'c, N: Origin> OpenSubscription<'p, 'c, N> {
    /// A subscription that was not read yet, and a consumer that took nothing yet.
    pub fn begin(
        name: Text,
        subscription: Subscription<'p, N>,
        consumer: Consumer<'c>,
    ) -> OpenSubscription<'p, 'c, N>
        requires unread { taken subscription ≡ [] }
        requires fresh { HasTaken [] consumer }
        ensures { result ≡ record {
          name = name;
          subscription = subscription.entry;
          consumer = consumer.entry;
          missed = false;
        } }
    {
        OpenSubscription {
            name,
            subscription,
            consumer,
            missed: false,
        }
    }

    pub fn has_name(&self, name: &Text) -> bool
        ensures { result ≡ bytes_eq self.now.name name.now }
    {
        self.name == *name
    }

    /// Whether its consumer is a dispatcher and an inhibitor.
    pub fn has_notifier(&self) -> bool
        ensures { result ≡ has_both self.now.consumer }
    {
        self.consumer.has_both()
    }

    /// What at most this many reads answer. Any answer that isn't an alert ends them. They don't end with Pending before
    /// all that the pass knows of the log was shown.
    pub fn read(
        &mut self,
        alloc: Global,
        max: u32,
        pass: &mut Pass<N>,
    ) -> Result<Vec<Answer>, AllocError>
        ensures reads { IfOk result (λ answers. ReadAnswers self.old max answers.items self.new) }
        ensures past { IfOk result (λ answers. EndsPending answers.items
            → SaysPendingPast pass.old.noted self.old.subscription self.new.subscription) }
        ensures pass { pass.new ≡ pass.old }
    {
        let mut answers = Vec::new(alloc);
        for _shown in 0..max {
            if !self.read_one(&mut answers, pass)? {
                return Ok(answers);
            }
        }
        Ok(answers)
    }

    // Reads once, and answers whether there may be more.
    fn read_one(
        &mut self,
        answers: &mut Vec<Answer>,
        pass: &mut Pass<N>,
    ) -> Result<bool, AllocError>
        ensures reads { IfOk result
            (λ goes_on. ReadsOne self.old answers.old.items goes_on answers.new.items self.new) }
        ensures past { OnOk result (EndsPending answers.new.items
            → IsPrefix pass.old.noted self.new.subscription.cursor.lane.front) }
        ensures pass { pass.new ≡ pass.old }
    {
        read_beside(
            &mut self.subscription,
            &mut self.consumer,
            &mut self.missed,
            answers,
            pass,
        )
    }

    /// The groups of its dispatcher, and at a moment, if one is given, what its inhibitor mutes their
    /// alerts by.
    pub fn groups(&mut self, alloc: Global, at: Option<Moment>) -> Result<Vec<Answer>, AllocError>
        ensures answers { IfOk result (λ answers. answers.items ≡ answers_of_groups at self.old.consumer) }
        ensures same { self.new ≡ self.old }
    {
        self.consumer.groups(alloc, at)
    }

    /// One half of its consumer drops what is resolved at a moment.
    pub fn sweep(&mut self, half: Half, now: Moment) -> Answer
        ensures { SweepsOne half now self.old result self.new }
    {
        kept_laws();
        self.consumer.sweep(half, now)
    }

    /// By what the subscription's inhibitor mutes a target.
    pub fn mutes(&mut self, labels: &LabelSet, now: Moment) -> Result<Answer, AllocError>
        ensures asked { IfOk result (IsAsked labels.now now self.old.consumer) }
        ensures same { self.new ≡ self.old }
    {
        self.consumer.mutes(labels, now)
    }

    /// The provider says that the subscription has taken its due so far, and what has been sent so far.
    pub fn vouch<R: Wait>(&mut self, rt: &R, provider: &Provider<N>, caller: &mut Caller<N>)
    where
        N: Recorded,
        ensures sees { SeesCall caller.old.front caller.new.front (AnswersVouch self.old.subscription) }
        ensures pass { KnowsAllSent caller.old.pass caller.new.pass caller.new.front }
        ensures same { self.new ≡ self.old }
    {
        provider.vouch(rt, caller, &mut self.subscription);
    }

    /// The subscription, to be given back. Its consumer goes.
    pub fn into_subscription(self) -> Subscription<'p, N>
        ensures { result ≡ self.entry.subscription }
    {
        let OpenSubscription {
            name: _,
            subscription,
            consumer: _,
            missed: _,
        } = self;
        subscription
    }
}

// Reads once; the subscription's consumer takes the alert that was shown.
fn read_beside<N: Origin>(
    subscription: &mut Subscription<'_, N>,
    consumer: &mut Consumer<'_>,
    missed: &mut bool,
    answers: &mut Vec<Answer>,
    pass: &mut Pass<N>,
) -> Result<bool, AllocError>
    ensures took { TookAll subscription.old consumer.old missed.old
        → TookAll subscription.new consumer.new missed.new }
    ensures reads { IfOk result (λ goes_on. (name : List ℕ) → ReadsOne
        (record { name = name; subscription = subscription.old; consumer = consumer.old; missed = missed.old })
        answers.old.items goes_on answers.new.items
        (record { name = name; subscription = subscription.new; consumer = consumer.new; missed = missed.new })) }
    ensures past { OnOk result (EndsPending answers.new.items
        → IsPrefix pass.old.noted subscription.new.cursor.lane.front) }
    ensures pass { pass.new ≡ pass.old }
{
    kept_laws();
    let answer = match next_answer(subscription, pass) {
        Ok(answer) => answer,
        Err(error) => {
            *missed = true;
            return Err(error);
        }
    };
    match take_shown(consumer, &answer) {
        Ok(goes_on) => {
            answers.push(answer)?;
            Ok(goes_on)
        }
        Err(_) => {
            *missed = true;
            answers.push(answer)?;
            answers.push(Answer::OutOfMemory(Verb::Take))?;
            Ok(true)
        }
    }
}

// Whether the answer is an alert, which the subscription's consumer then takes.
fn take_shown(consumer: &mut Consumer<'_>, answer: &Answer) -> Result<bool, AllocError>
    ensures taken { IfOk result (λ goes_on. IsTaken answer.now consumer.old goes_on consumer.new) }
    ensures err { OnErr result ((is_item answer.now ≡ true) × (consumer.new ≡ consumer.old)) }
{
    match answer {
        Answer::Item(alert) => {
            consumer.take(alert)?;
            Ok(true)
        }
        _ => Ok(false),
    }
}

fn next_answer<N: Origin>(
    subscription: &mut Subscription<'_, N>,
    pass: &mut Pass<N>,
) -> Result<Answer, AllocError>
    ensures next { IfOk result (λ answer. NextIs subscription.old answer subscription.new) }
    ensures past { IfOk result (λ answer. answer ≡ Answer.Pending
        → IsPrefix pass.old.noted subscription.new.cursor.lane.front) }
    ensures pass { pass.new ≡ pass.old }
{
    let answer = match subscription.next_past(pass) {
        Step::Item(alert) => Answer::Item(alert.copy()?),
        Step::Pending => Answer::Pending,
        Step::Closed => Answer::SawClosed,
        Step::Cut => Answer::SawCut,
    };
    Ok(answer)
}
