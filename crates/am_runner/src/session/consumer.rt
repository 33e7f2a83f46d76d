//! What the dispatcher and the inhibitor of a subscription are asked.

ghost use Rattle.std.specs.Prelude.{◌≡◌, IfOk, OnErr};
ghost use Rattle.am_config.specs.declared.config.Config.{Config};
ghost use Rattle.am_runner.specs.Sessions.{Does, IsAskedAt, IsOne, Setting, SweepsNamed, groups_told};
ghost use Rattle.am_runner.specs.Sessions.{named_in, sweep_command};

use crate::open_subscription::OpenSubscription;
use crate::session::{Session, index_named};
use am_alert::Moment;
use am_answers::{Answer, Half, RoomForAnswer, one};
use am_labels::{LabelSet, Text};
use am_provider::Recorded;
use am_script::{Command, GivenMoment, Verb};
use std::alloc::{AllocError, Global};

impl<'p, 'c, N: Recorded> Session<'p, 'c, N> {
    pub(super) fn groups(
        &mut self,
        alloc: Global,
        name: &Text,
        at: GivenMoment,
    ) -> Result<Vec<Answer>, AllocError>
        ensures does { IfOk result (λ answers. (config : Config) (setting : Setting) → Does config setting
            self.old (Command.Groups name.now at) answers.items self.new) }
        ensures err { OnErr result (self.new ≡ self.old) }
    {
        groups_named(&mut self.opened, alloc, name, at.moment())
    }

    // One half of the subscription's consumer drops what is resolved.
    pub(super) fn sweep(
        &mut self,
        alloc: Global,
        half: Half,
        name: &Text,
        at: Moment,
    ) -> Result<Vec<Answer>, AllocError>
        ensures does { IfOk result (λ answers. (config : Config) (setting : Setting) → Does config setting
            self.old (sweep_command half name.now at) answers.items self.new) }
        ensures err { OnErr result (self.new ≡ self.old) }
    {
        sweep_named(&mut self.opened, alloc, half, name, at)
    }

    pub(super) fn mutes(
        &mut self,
        alloc: Global,
        name: &Text,
        labels: &LabelSet,
        at: Moment,
    ) -> Result<Vec<Answer>, AllocError>
        ensures does { IfOk result (λ answers. (config : Config) (setting : Setting) → Does config setting
            self.old (Command.Mutes name.now at labels.now) answers.items self.new) }
        ensures err { OnErr result (self.new ≡ self.old) }
    {
        ask_named(&mut self.opened, alloc, name, labels, at)
    }
}

fn groups_named<N: Recorded>(
    opened: &mut [OpenSubscription<'_, '_, N>],
    alloc: Global,
    name: &Text,
    at: Option<Moment>,
) -> Result<Vec<Answer>, AllocError>
    ensures answers { IfOk result (λ answers.
        answers.items ≡ groups_told at (named_in name.now opened.old)) }
    ensures same { opened.new ≡ opened.old }
{
    match index_named(opened, name) {
        Some(index) => opened[index].groups(alloc, at),
        None => one(alloc, Answer::NotOpen(Verb::Groups)),
    }
}

fn sweep_named<N: Recorded>(
    opened: &mut [OpenSubscription<'_, '_, N>],
    alloc: Global,
    half: Half,
    name: &Text,
    at: Moment,
) -> Result<Vec<Answer>, AllocError>
    ensures sweeps { IfOk result (λ answers.
        SweepsNamed half name.now at opened.old answers.items opened.new) }
    ensures err { OnErr result (opened.new ≡ opened.old) }
{
    match index_named(opened, name) {
        Some(index) => Ok(RoomForAnswer::make(alloc)?.filled(opened[index].sweep(half, at))),
        None => one(alloc, Answer::NotOpen(half.sweep_word())),
    }
}

fn ask_named<N: Recorded>(
    opened: &mut [OpenSubscription<'_, '_, N>],
    alloc: Global,
    name: &Text,
    labels: &LabelSet,
    at: Moment,
) -> Result<Vec<Answer>, AllocError>
    ensures asked { IfOk result (λ answers.
        IsOne (IsAskedAt labels.now at (named_in name.now opened.old)) answers.items) }
    ensures same { opened.new ≡ opened.old }
{
    match index_named(opened, name) {
        Some(index) => one(alloc, opened[index].mutes(labels, at)?),
        None => one(alloc, Answer::NotOpen(Verb::Mutes)),
    }
}
