//! Subscriptions from their opening to their end.
//!
//! A subscription is left by a function over the session's parts (`leave_one`): a struct that holds a reference can't
//! be moved into a call together with `&mut self.field` of another such struct.

ghost use Rattle.std.specs.Prelude.{◌≡◌, ◌<◌, ◌∷◌, [], IfOk, OnErr, length};
ghost use Rattle.am_config.specs.declared.config.Config.{Config};
ghost use Rattle.am_runner.specs.Sessions.{Does, LeavesAll, LeavesAt, ReadsAt, Setting};

use crate::context::Context;
use crate::open_subscription::OpenSubscription;
use crate::session::{Session, index_named};
use am_answers::{Answer, Consumer, RoomForAnswer, one};
use am_labels::Text;
use am_provider::laws::history_laws;
use am_provider::{Caller, Ended, Recorded};
use am_script::{Command, Kind, Verb};
use std::alloc::AllocError;
use std::sync::Wait;

impl<'p, 'c, N: Recorded> Session<'p, 'c, N> {
    pub(super) fn subscribe<R: Wait, G>(
        &mut self,
        context: &Context<'p, 'c, N, R, G>,
        name: &Text,
        kind: Kind,
    ) -> Result<Answer, AllocError>
        ensures does { IfOk result (λ answer. (setting : Setting) → Does context.now.config setting
            self.old (Command.Subscribe name.now kind) (answer ∷ []) self.new) }
        ensures err { OnErr result (self.new ≡ self.old) }
    {
        let name = name.copy()?;
        let consumer = Consumer::begin(context.alloc, context.config.config(), kind)?;
        self.opened.reserve(1)?;
        match context.provider.subscribe(context.rt, &mut self.caller) {
            Ok(subscription) => {
                let answer = Answer::Subscribed {
                    lane: subscription.lane(),
                    opening: subscription.opening(),
                };
                self.opened
                    .push_reserved(OpenSubscription::begin(name, subscription, consumer));
                Ok(answer)
            }
            Err(why) => Ok(Answer::SubscribeRefused(why)),
        }
    }

    pub(super) fn read<R: Wait, G>(
        &mut self,
        context: &Context<'p, 'c, N, R, G>,
        name: &Text,
        max: u32,
    ) -> Result<Vec<Answer>, AllocError>
        ensures { IfOk result (λ answers. (config : Config) (setting : Setting) → Does config setting
            self.old (Command.Read name.now max) answers.items self.new) }
    {
        match index_named(&self.opened, name) {
            Some(index) => self.read_at(context, index, max),
            None => one(context.alloc, Answer::NotOpen(Verb::Read)),
        }
    }

    fn read_at<R: Wait, G>(
        &mut self,
        context: &Context<'p, 'c, N, R, G>,
        index: usize,
        max: u32,
    ) -> Result<Vec<Answer>, AllocError>
        requires { index < length self.old.opened }
        ensures { IfOk result (λ answers. ReadsAt index max self.old answers.items self.new) }
    {
        read_one(context, &mut self.caller, &mut self.opened, index, max)
    }

    pub(super) fn leave<R: Wait, G>(
        &mut self,
        context: &Context<'p, 'c, N, R, G>,
        name: &Text,
    ) -> Result<Vec<Answer>, AllocError>
        ensures does { IfOk result (λ answers. (config : Config) (setting : Setting) → Does config setting
            self.old (Command.Leave name.now) answers.items self.new) }
        ensures err { OnErr result (self.new ≡ self.old) }
    {
        let room = RoomForAnswer::make(context.alloc)?;
        match index_named(&self.opened, name) {
            Some(index) => {
                let Ended {
                    at: _,
                    taken,
                    closed,
                    cut,
                } = self.leave_at(context, index);
                Ok(room.filled(Answer::Left { taken, closed, cut }))
            }
            None => Ok(room.filled(Answer::NotOpen(Verb::Leave))),
        }
    }

    fn leave_at<R: Wait, G>(&mut self, context: &Context<'p, 'c, N, R, G>, index: usize) -> Ended
        requires { index < length self.old.opened }
        ensures { LeavesAt index self.old result self.new }
    {
        leave_one(context, &mut self.caller, &mut self.opened, index)
    }

    /// Leaves the open subscriptions in the order in which they were opened, and gives the caller back.
    pub fn end<R: Wait, G>(mut self, context: &Context<'p, 'c, N, R, G>) -> Caller<N>
        ensures { LeavesAll self.entry
            (record { pass = result.pass; front = result.front; opened = [] }) }
    {
        while !self.opened.is_empty() {
            let _ended = self.leave_at(context, 0);
        }
        let Session { caller, opened } = self;
        opened.destroy_empty();
        caller
    }
}

// Leaves the subscription at an index.
fn leave_one<'p, 'c, N: Recorded, R: Wait, G>(
    context: &Context<'p, 'c, N, R, G>,
    caller: &mut Caller<N>,
    opened: &mut Vec<OpenSubscription<'p, 'c, N>>,
    index: usize,
) -> Ended
    requires { index < length opened.old.items }
    ensures { LeavesAt index
        (record { pass = caller.old.pass; front = caller.old.front; opened = opened.old.items }) result
        (record { pass = caller.new.pass; front = caller.new.front; opened = opened.new.items }) }
{
    let mut subscription = opened.remove(index).into_subscription();
    context.provider.meet(&mut subscription, &mut caller.pass);
    context.provider.leave(context.rt, caller, subscription)
}

// Reads the subscription at an index, once the provider was asked what it is owed.
fn read_one<'p, 'c, N: Recorded, R: Wait, G>(
    context: &Context<'p, 'c, N, R, G>,
    caller: &mut Caller<N>,
    opened: &mut Vec<OpenSubscription<'p, 'c, N>>,
    index: usize,
    max: u32,
) -> Result<Vec<Answer>, AllocError>
    requires { index < length opened.old.items }
    ensures { IfOk result (λ answers. ReadsAt index max
        (record { pass = caller.old.pass; front = caller.old.front; opened = opened.old.items }) answers.items
        (record { pass = caller.new.pass; front = caller.new.front; opened = opened.new.items })) }
{
    history_laws();
    opened[index].vouch(context.rt, context.provider, caller);
    opened[index].read(context.alloc, max, &mut caller.pass)
}
