//! The journal: closed, trimmed and compacted.

ghost use Rattle.std.specs.Prelude.{◌≡◌, ◌∷◌, []};
ghost use Rattle.am_config.specs.declared.config.Config.{Config};
ghost use Rattle.am_runner.specs.Sessions.{Does, Setting};
ghost use Rattle.am_runner.specs.Compacting.{Compacts, CountsStored, Vouches};

use crate::context::Context;
use crate::open_subscription::OpenSubscription;
use crate::session::Session;
use am_answers::Answer;
use am_provider::{Caller, Recorded};
use am_script::{Command, Verb};
use std::sync::Wait;

impl<'p, 'c, N: Recorded> Session<'p, 'c, N> {
    pub(super) fn close<R: Wait, G>(&mut self, context: &Context<'p, 'c, N, R, G>) -> Answer
        ensures { (config : Config) (setting : Setting) → Does config setting
            self.old Command.Close (result ∷ []) self.new }
    {
        let Ok(()) = context.provider.close(context.rt, &mut self.caller) else {
            return Answer::CloseRefused;
        };
        Answer::CloseAccepted
    }

    pub(super) fn trim<R: Wait, G>(&mut self, context: &Context<'p, 'c, N, R, G>) -> Answer
        ensures { (config : Config) (setting : Setting) → Does config setting
            self.old Command.Trim (result ∷ []) self.new }
    {
        let dropped = match context.provider.trim(context.rt, &mut self.caller) {
            Ok(dropped) => dropped,
            Err(_) => return Answer::OutOfMemory(Verb::Trim),
        };
        Answer::Trimmed(dropped)
    }

    pub(super) fn compact<R: Wait, G>(&mut self, context: &Context<'p, 'c, N, R, G>) -> Answer
        ensures { (config : Config) (setting : Setting) → Does config setting
            self.old Command.Compact (result ∷ []) self.new }
    {
        let dropped = match context.provider.compact(context.rt, &mut self.caller) {
            Ok(dropped) => dropped,
            Err(_) => return Answer::OutOfMemory(Verb::Compact),
        };
        Answer::Compacted(dropped)
    }

    /// What may be done between the lines of a live run: the journal's calls are taken out of memory, and each open
    /// subscription, which may never leave, is shown to have taken its due so far. It returns how many alerts are stored,
    /// if that could be asked.
    pub fn compact_and_vouch<R: Wait, G>(
        &mut self,
        context: &Context<'p, 'c, N, R, G>,
    ) -> Option<u64>
        ensures { (config : Config) (setting : Setting) → Compacts config setting self.old self.new }
    {
        let _dropped = self.compact(context);
        let stored = self.count_stored(context);
        self.vouch(context);
        stored
    }

    fn vouch<R: Wait, G>(&mut self, context: &Context<'p, 'c, N, R, G>)
        ensures { Vouches self.old self.old.opened self.new }
    {
        vouch_for_all(context, &mut self.caller, &mut self.opened);
    }

    // How many alerts are stored, which a page of none of them says.
    fn count_stored<R: Wait, G>(&mut self, context: &Context<'p, 'c, N, R, G>) -> Option<u64>
        ensures { (config : Config) (setting : Setting) → CountsStored config setting self.old self.new }
    {
        match self.page(context, 0, 0) {
            Ok(page) => Some(page.stored),
            Err(_) => None,
        }
    }
}

// The provider says of each subscription that it has taken its due.
fn vouch_for_all<'p, 'c, N: Recorded, R: Wait, G>(
    context: &Context<'p, 'c, N, R, G>,
    caller: &mut Caller<N>,
    opened: &mut Vec<OpenSubscription<'p, 'c, N>>,
)
    ensures vouches { Vouches
        (record { pass = caller.old.pass; front = caller.old.front; opened = opened.old.items }) opened.old.items
        (record { pass = caller.new.pass; front = caller.new.front; opened = opened.old.items }) }
    ensures same { opened.new.items ≡ opened.old.items }
{
    for index in 0..opened.len() {
        opened[index].vouch(context.rt, context.provider, caller);
    }
}
