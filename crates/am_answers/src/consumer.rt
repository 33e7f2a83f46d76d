//! The consumer of a subscription: a dispatcher, an inhibitor, both or neither. It takes what the subscription shows, and
//! knows of no provider. With both, Alertmanager's two halves meet here, as at the flush of a group, whose pipeline asks
//! the inhibitor of each alert of the group (`notify.MuteStage`).

ghost use Rattle.std.specs.Prelude.{◌≡◌, Some, IfOk, OnOk, OnErr, ⊤};
ghost use Rattle.std.specs.Option.{option_map};
ghost use Rattle.am_routes.specs.Groups.{Follows, Take};
ghost use Rattle.am_answers.specs.Consuming.{answers_of_groups, fresh_consumer, has_both, sweep_word};
ghost use Rattle.am_answers.specs.Consuming.{DispatcherSwept, InhibitorSwept, InhibitorTakes, IsAsked, IsAskedOf};
ghost use Rattle.am_answers.specs.Consuming.{IsSwept, OnHalf, TakesAlert};
ghost use Rattle.am_answers.specs.Consumers.{unasked};

use crate::answer::{Answer, one};
use crate::group_answers::groups_of;
use am_alert::{Alert, Moment};
use am_config::Config;
use am_inhibit::Inhibitor;
use am_labels::LabelSet;
use am_routes::Dispatcher;
use am_script::{Kind, Verb};
use std::alloc::{AllocError, Global};
use std::marker::Model;

/// What takes the alerts that a subscription shows. Contracts see its inhibitor's rules and alerts, not how many sources
/// were examined.
#[derive(Drop)]
pub struct Consumer<'c> {
    dispatcher: Option<Dispatcher<'c>>,
    inhibitor: Option<Inhibitor<'c>>,
}

impl<'c> Model for Consumer<'c> {
    ghost use Rattle.std.specs.Coded.{codes};
    ghost use Rattle.std.specs.Option.{option_map};
    ghost use Rattle.am_routes.specs.contracts.dispatcher.Dispatcher as dispatching;
    ghost use Rattle.am_inhibit.specs.contracts.inhibitor.Inhibitor as inhibiting;
    ghost use Rattle.std.specs.Prelude.{[]};
    ghost use mir.Syntax.{named};
    ghost use Rattle.am_answers.specs.Consumers.{ConsumerView, unasked};

    ghost Value = { ConsumerView };

    ghost coded = { Prim.hlevel (codes, (dispatching.the_row (record { mir = named 0; lft = [] })).coded, (inhibiting.the_row (record { mir = named 0; lft = [] })).coded) };

    ghost view = { λ c. record { dispatcher = c.dispatcher; inhibitor = option_map unasked c.inhibitor } };
}

/// One of the two that a consumer can have.
#[derive(Clone, Copy, Debug, PartialEq, Eq)]
pub enum Half {
    Dispatcher,
    Inhibitor,
}

impl Half {
    /// The word of the command that sweeps it.
    pub fn sweep_word(self) -> Verb
        ensures { result ≡ sweep_word self }
    {
        match self {
            Half::Dispatcher => Verb::Sweep,
            Half::Inhibitor => Verb::Forget,
        }
    }
}

impl<'c> Consumer<'c> {
    /// The consumer of a kind, which took nothing yet. That of a plain subscription has neither half.
    pub fn begin(alloc: Global, config: &'c Config, kind: Kind) -> Result<Consumer<'c>, AllocError>
        ensures { IfOk result (λ made. made ≡ fresh_consumer config.now kind) }
    {
        match kind {
            Kind::Plain => Ok(Consumer {
                dispatcher: None,
                inhibitor: None,
            }),
            Kind::Dispatch => Ok(Consumer {
                dispatcher: Some(Dispatcher::new(alloc, &config.tree)?),
                inhibitor: None,
            }),
            Kind::Inhibit => Ok(Consumer {
                dispatcher: None,
                inhibitor: Some(Inhibitor::new(alloc, &config.rules)?),
            }),
            Kind::Notify => Ok(Consumer {
                dispatcher: Some(Dispatcher::new(alloc, &config.tree)?),
                inhibitor: Some(Inhibitor::new(alloc, &config.rules)?),
            }),
        }
    }

    /// Whether it has a dispatcher and an inhibitor.
    pub fn has_both(&self) -> bool
        ensures { result ≡ has_both self.now }
    {
        match &self.inhibitor {
            Some(_) => self.dispatcher.is_some(),
            None => false,
        }
    }

    /// Both halves take an alert. If memory runs out for one of them, neither has taken it.
    pub fn take(&mut self, alert: &Alert) -> Result<(), AllocError>
        ensures taken { OnOk result (TakesAlert alert.now self.old self.new) }
        ensures err { OnErr result (self.new ≡ self.old) }
    {
        match &mut self.dispatcher {
            Some(dispatcher) => take_both(dispatcher, &mut self.inhibitor, alert),
            None => take_last(&mut self.inhibitor, alert),
        }
    }

    /// The groups of its dispatcher, each followed by its alerts. With an inhibitor and a moment each alert
    /// is followed by what mutes it then.
    pub fn groups(&mut self, alloc: Global, at: Option<Moment>) -> Result<Vec<Answer>, AllocError>
        ensures answers { IfOk result (λ answers. answers.items ≡ answers_of_groups at self.old) }
        ensures same { self.new ≡ self.old }
    {
        match &self.dispatcher {
            Some(dispatcher) => groups_of(alloc, dispatcher.groups(), &mut self.inhibitor, at),
            None => one(alloc, Answer::NotOpen(Verb::Groups)),
        }
    }

    /// One half drops what is resolved at a moment. The other stays as it was.
    pub fn sweep(&mut self, half: Half, now: Moment) -> Answer
        ensures { IsSwept now half self.old self.new result }
    {
        match half {
            Half::Dispatcher => sweep_dispatcher(&mut self.dispatcher, now),
            Half::Inhibitor => sweep_inhibitor(&mut self.inhibitor, now),
        }
    }

    /// By what its inhibitor mutes a target.
    pub fn mutes(&mut self, labels: &LabelSet, now: Moment) -> Result<Answer, AllocError>
        ensures asked { IfOk result (IsAsked labels.now now self.old) }
        ensures same { self.new ≡ self.old }
    {
        ask(&mut self.inhibitor, labels, now)
    }
}

// A dispatcher takes an alert, and then the inhibitor, if there is one. The dispatcher keeps what it changed, so that
// undoing it needs no memory.
fn take_both(
    dispatcher: &mut Dispatcher<'_>,
    inhibitor: &mut Option<Inhibitor<'_>>,
    alert: &Alert,
) -> Result<(), AllocError>
    ensures dispatcher { OnOk result (Follows (Take alert.now) dispatcher.old dispatcher.new) }
    ensures inhibitor { OnOk result (OnHalf (InhibitorTakes alert.now) ⊤
        (option_map unasked inhibitor.old) (option_map unasked inhibitor.new)) }
    ensures undone { OnErr result (dispatcher.new ≡ dispatcher.old) }
    ensures err { OnErr result (inhibitor.new ≡ inhibitor.old) }
{
    let noted = dispatcher.take_noted(alert)?;
    match take_last(inhibitor, alert) {
        Ok(()) => Ok(()),
        Err(error) => {
            dispatcher.undo(noted);
            Err(error)
        }
    }
}

fn take_last(inhibitor: &mut Option<Inhibitor<'_>>, alert: &Alert) -> Result<(), AllocError>
    ensures taken { OnOk result (OnHalf (InhibitorTakes alert.now) ⊤
        (option_map unasked inhibitor.old) (option_map unasked inhibitor.new)) }
    ensures err { OnErr result (inhibitor.new ≡ inhibitor.old) }
{
    match inhibitor {
        Some(inhibitor) => inhibitor.take(alert),
        None => Ok(()),
    }
}

fn sweep_dispatcher(dispatcher: &mut Option<Dispatcher<'_>>, now: Moment) -> Answer
    ensures { OnHalf (λ old new. DispatcherSwept now old new result)
        (result ≡ Answer.NotOpen Verb.Sweep) dispatcher.old dispatcher.new }
{
    match dispatcher {
        Some(dispatcher) => Answer::Swept(dispatcher.sweep(now)),
        None => Answer::NotOpen(Verb::Sweep),
    }
}

fn sweep_inhibitor(inhibitor: &mut Option<Inhibitor<'_>>, now: Moment) -> Answer
    ensures { OnHalf (λ old new. InhibitorSwept now old new result)
        (result ≡ Answer.NotOpen Verb.Forget) (option_map unasked inhibitor.old) (option_map unasked inhibitor.new) }
{
    match inhibitor {
        Some(inhibitor) => Answer::Forgotten(inhibitor.sweep(now)),
        None => Answer::NotOpen(Verb::Forget),
    }
}

fn ask(
    inhibitor: &mut Option<Inhibitor<'_>>,
    labels: &LabelSet,
    now: Moment,
) -> Result<Answer, AllocError>
    ensures asked { IfOk result (IsAskedOf labels.now now (option_map unasked inhibitor.old)) }
    ensures same { option_map unasked inhibitor.new ≡ option_map unasked inhibitor.old }
{
    match inhibitor {
        Some(inhibitor) => ask_one(inhibitor, labels, now),
        None => Ok(Answer::NotOpen(Verb::Mutes)),
    }
}

fn ask_one(
    inhibitor: &mut Inhibitor<'_>,
    labels: &LabelSet,
    now: Moment,
) -> Result<Answer, AllocError>
    ensures asked { IfOk result (IsAskedOf labels.now now (Some (unasked inhibitor.old))) }
    ensures same { unasked inhibitor.new ≡ unasked inhibitor.old }
{
    match inhibitor.mutes(labels, now) {
        Ok(Some(muting)) => Ok(Answer::Muted {
            rule: muting.0,
            by: muting.1.copy()?,
        }),
        Ok(None) => Ok(Answer::NotMuted),
        Err(_) => Ok(Answer::OutOfMemory(Verb::Mutes)),
    }
}
