//! What a thread of a script has: its right to call the provider, and the subscriptions that its lines
//! opened. Its commands have a file for each subject in `session/`.

ghost use Rattle.std.specs.Prelude.{◌≡◌, [], IfOk, OnErr, true, is_some};
ghost use Rattle.am_runner.specs.Sessions.{Does, setting_of, has_notifier, index_named};
ghost use Rattle.am_runner.specs.Turning.{Begins, Ends};
ghost use Rattle.am_runner.specs.Unanswered.{IsUnanswered, loses_nothing};

mod consumer;
mod journal;
mod post;
mod stored;
mod subscription;

use crate::context::Context;
use crate::open_subscription::OpenSubscription;
use crate::turns::{Turn, Turns};
use am_answers::{Answer, Half, RoomForAnswer, ask_tree, show_tree};
use am_history::Timeline;
use am_labels::Text;
use am_provider::{Caller, Gate, Recorded, Register, TurnsSeen};
use am_script::Command;
use std::alloc::{AllocError, Global};
use std::marker::Model;
use std::sync::Wait;

/// A thread's right to call the provider, and its open subscriptions in the order in which they were
/// opened.
pub struct Session<'p, 'c, N: Recorded> {
    caller: Caller<N>,
    opened: Vec<OpenSubscription<'p, 'c, N>>,
}

impl<'p, 'c, N: Recorded> Model for Session<'p, 'c, N> {
    ghost use Rattle.std.specs.Coded.{codes};
    ghost use Rattle.am_alert.specs.Alerts.{coded_alert};
    ghost use Rattle.am_store.specs.contracts.call.Call as call;
    ghost use Rattle.am_store.specs.contracts.lanes.OpenLane as lane;
    ghost use Rattle.am_answers.specs.contracts.consumer.Consumer as beside;
    ghost use Rattle.std.specs.Prelude.{[]};
    ghost use mir.Syntax.{named};
    ghost use Rattle.am_runner.specs.Sessions.{SessionView};

    ghost Value = { SessionView };

    ghost coded = { Prim.hlevel (codes, coded_alert, call.the_row.coded, lane.the_row.coded, (beside.the_row (record { mir = named 0; lft = [] })).coded) };

    ghost view = { λ s. record {
      pass = s.caller.pass;
      front = s.caller.front;
      opened = s.opened.items;
    } };
}

impl<'p, 'c, N: Recorded> Session<'p, 'c, N> {
    /// A session with no subscription yet.
    pub fn begin(alloc: Global, caller: Caller<N>) -> Session<'p, 'c, N>
        ensures { result ≡ record { pass = caller.pass; front = caller.front; opened = [] } }
    {
        Session {
            caller,
            opened: Vec::new(alloc),
        }
    }

    /// Whether a subscription of that name is open.
    pub fn has_name(&self, name: &Text) -> bool
        ensures { result ≡ is_some (index_named name.now self.now.opened) }
    {
        index_named(&self.opened, name).is_some()
    }

    /// Whether the subscription of that name has a dispatcher and an inhibitor.
    pub fn has_notifier(&self, name: &Text) -> bool
        ensures { result ≡ has_notifier name.now self.now.opened }
    {
        match index_named(&self.opened, name) {
            Some(index) => self.opened[index].has_notifier(),
            None => false,
        }
    }

    /// Begins a turn of its caller.
    pub fn begin_turn<M: Timeline, R: Wait, T: Turns>(
        &mut self,
        context: &Context<'p, 'c, N, R, T>,
        register: &Register<N, M>,
        turn: &Turn,
        seen: &mut TurnsSeen<N, M>,
    )
        ensures begun { Begins T.ordered turn.now.at seen.old.seen seen.new.seen self.old.front self.new.front }
        ensures same { self.new ≡ record self.old { front = self.new.front } }
    {
        context.turns.begin(
            context.rt,
            context.provider,
            register,
            turn,
            seen,
            &mut self.caller,
        );
    }

    /// Ends it.
    pub fn end_turn<M: Timeline, R: Wait, T: Turns>(
        &mut self,
        context: &Context<'p, 'c, N, R, T>,
        register: &Register<N, M>,
        turn: &Turn,
        seen: &mut TurnsSeen<N, M>,
    )
        ensures ended { Ends T.ordered turn.now.at seen.old.seen seen.new.seen self.old.front self.new.front }
        ensures same { self.new ≡ record self.old { front = self.new.front } }
    {
        context.turns.end(
            context.rt,
            context.provider,
            register,
            turn,
            seen,
            &mut self.caller,
        );
    }

    /// Does what a command asks for, and answers it. If the memory for the answers runs out, the command may have
    /// been done, unless it loses nothing with its answer ([`crate::loses_nothing`]).
    pub fn run<R: Wait, G: Gate>(
        &mut self,
        context: &mut Context<'p, 'c, N, R, G>,
        command: &Command,
    ) -> Result<Vec<Answer>, AllocError>
        ensures does { IfOk result (λ answers. Does context.old.config
            (setting_of N.places N.policy context.old.provider.now.resolve_timeout)
            self.old command.now answers.items self.new) }
        ensures unanswered { OnErr result (loses_nothing command.now ≡ true → IsUnanswered context.old.config
            (setting_of N.places N.policy context.old.provider.now.resolve_timeout)
            self.old command.now self.new) }
        ensures same { context.new ≡ context.old }
    {
        let alloc = context.alloc;
        match command {
            Command::Post { at, body } => self.post(context, *at, body),
            Command::Put { at, alerts } => self.put(context, *at, alerts),
            Command::Subscribe { name, kind } => {
                Ok(RoomForAnswer::make(alloc)?.filled(self.subscribe(context, name, *kind)?))
            }
            Command::Read { name, max } => self.read(context, name, *max),
            Command::Leave { name } => self.leave(context, name),
            Command::Collect { at } => self.collect(context, *at),
            Command::Take { at } => self.take(context, *at),
            Command::Close => Ok(RoomForAnswer::make(alloc)?.filled(self.close(context))),
            Command::Trim => Ok(RoomForAnswer::make(alloc)?.filled(self.trim(context))),
            Command::Compact => Ok(RoomForAnswer::make(alloc)?.filled(self.compact(context))),
            Command::Groups { name, at } => self.groups(alloc, name, *at),
            Command::Sweep { name, at } => self.sweep(alloc, Half::Dispatcher, name, *at),
            Command::Forget { name, at } => self.sweep(alloc, Half::Inhibitor, name, *at),
            Command::Mutes { name, at, labels } => self.mutes(alloc, name, labels, *at),
            Command::Stored => self.stored(context),
            Command::StoredPage { from, max } => self.stored_page(context, *from, *max),
            Command::Get { labels } => Ok(RoomForAnswer::make(alloc)?.filled(self.get(
                context, labels,
            )?)),
            Command::Routes => show_tree(alloc, &context.config.config().tree),
            Command::Route { labels } => ask_tree(alloc, &mut context.config, labels),
        }
    }
}

// The index of the subscription of that name.
fn index_named<N: Recorded>(opened: &[OpenSubscription<'_, '_, N>], name: &Text) -> Option<usize>
    ensures { result ≡ index_named name.now opened.now }
{
    for index in 0..opened.len() {
        if opened[index].has_name(name) {
            return Some(index);
        }
    }
    None
}
