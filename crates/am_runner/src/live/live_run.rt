//! What a run of lines has: its session, the reads that go on, the alerts that it knows, and its pace.

ghost use Rattle.std.specs.Prelude.{◌≡◌, []};
ghost use Rattle.am_runner.specs.live.Serving.{CompactsIfDue};
ghost use Rattle.am_config.specs.declared.config.Config.{Config};
ghost use Rattle.am_runner.specs.Sessions.{Setting};

use crate::context::Context;
use crate::live::pace::Pace;
use crate::live::standing::StandingRead;
use crate::session::Session;
use am_answers::KnownAlerts;
use am_provider::Recorded;
use indexmap::IndexMap;
use std::alloc::Global;
use std::fmt;
use std::marker::Model;
use std::sync::Wait;

/// A session whose lines are answered one after another. In a run that follows, a read that finds nothing more goes
/// on: what comes for its subscription is printed after the lines that follow, up to the read's `max`. As JSON an
/// alert that is as a put gave it is shown by its place among those.
pub struct LiveRun<'p, 'c, N: Recorded> {
    pub(crate) session: Session<'p, 'c, N>,
    pub(crate) follows: bool,
    pub(crate) reads: Vec<StandingRead>,
    pub(crate) known: KnownAlerts,
    pub(crate) pace: Pace,
}

impl<'p, 'c, N: Recorded> Model for LiveRun<'p, 'c, N> {
    ghost use Rattle.std.specs.Coded.{codes};
    ghost use Rattle.am_alert.specs.Alerts.{coded_alert};
    ghost use Rattle.am_labels.specs.LabelSets.{coded_labels};
    ghost use Rattle.am_store.specs.contracts.call.Call as call;
    ghost use Rattle.am_store.specs.contracts.lanes.OpenLane as lane;
    ghost use Rattle.am_answers.specs.contracts.consumer.Consumer as beside;
    ghost use Rattle.std.specs.Prelude.{[]};
    ghost use mir.Syntax.{named};
    ghost use Rattle.am_runner.specs.live.Standing.{RunView};

    ghost Value = { RunView };

    ghost coded = { Prim.hlevel (codes, coded_labels, coded_alert, call.the_row.coded, lane.the_row.coded, (beside.the_row (record { mir = named 0; lft = [] })).coded) };

    ghost view = { λ r. record {
      session = r.session;
      follows = r.follows;
      reads = r.reads.items;
      known = r.known.entries;
    } };
}

impl<'p, 'c, N: Recorded> LiveRun<'p, 'c, N> {
    /// A run that begins in a session. No read goes on yet, and no alert is known.
    pub fn begin(alloc: Global, session: Session<'p, 'c, N>, follows: bool) -> LiveRun<'p, 'c, N>
        ensures { result ≡ record { session = session.entry; follows = follows; reads = []; known = [] } }
    {
        LiveRun {
            session,
            follows,
            reads: Vec::new(alloc),
            known: IndexMap::new(alloc),
            pace: Pace::begin(),
        }
    }

    /// What is done between two lines: [`Session::compact_and_vouch`], if the journal has become long next to the store.
    /// The same call decides that for every line, so that each pays for its own alerts alone.
    pub fn compact_if_due<R: Wait, G>(&mut self, context: &Context<'p, 'c, N, R, G>)
        ensures { (config : Config) (setting : Setting)
            → CompactsIfDue config setting self.old.session self.new.session
            × (self.new ≡ record self.old { session = self.new.session }) }
    {
        if !self.pace.is_due() {
            return;
        }
        let stored = self.session.compact_and_vouch(context);
        self.pace.restart(stored);
    }

    /// The session, to be ended.
    pub fn into_session(self) -> Session<'p, 'c, N>
        ensures { result ≡ self.entry.session }
    {
        let LiveRun {
            session,
            follows: _,
            reads: _,
            known: _,
            pace: _,
        } = self;
        session
    }
}

impl<'p, 'c, N: Recorded> fmt::Debug for LiveRun<'p, 'c, N> {
    fn fmt<W: fmt::Write>(&self, f: &mut fmt::Formatter<W>) -> fmt::Result {
        f.debug_struct("LiveRun").finish_non_exhaustive()
    }
}
