//! The right to post.

ghost use Rattle.std.specs.Prelude.{◌≡◌, ◌+◌, ◌++◌, IfOk, [], length};
ghost use Rattle.std.specs.List.{All};
ghost use Rattle.am_cast.specs.Changes.{AreInLog};
ghost use Rattle.am_cast.specs.Rule.{Once};
ghost use Rattle.am_provider.specs.Rising.{IsRising};
ghost use Rattle.am_provider.specs.Settling.{own_of, own_in, parts_in};

use crate::feed::{Cast, Origin, Writer};
use crate::sending::LogPass;
use std::alloc::{AllocError, Global};
use std::marker::Model;
use std::sync::ledger::{self, Share};

/// One poster's right to post. Contracts see it as the places that it made, with what was posted, each
/// above those before it, and as how far it knows the log. Another thread may have it after its poster:
/// what it knows comes along.
#[derive(Drop)]
pub struct Pass<N: Origin> {
    pub(crate) pass: LogPass<N>,
    // One part of the provider's ledger, with as many posts as the pass owns.
    pub(crate) share: Share<N>,
}

impl<N: Origin> Model for Pass<N> {
    ghost use Rattle.std.specs.Coded.{codes};
    ghost use Rattle.am_alert.specs.Alerts.{coded_alert};
    ghost use Rattle.am_store.specs.contracts.call.Call as call;
    ghost use Rattle.am_store.specs.contracts.lanes.OpenLane as lane;
    ghost use Rattle.std.specs.Prelude.{◌≡◌, length};
    ghost use Rattle.am_cast.specs.Posters.{PassView};
    ghost use Rattle.am_provider.specs.Rising.{IsRising};
    ghost use Rattle.am_alert.specs.declared.alert.Alert.{Alert};
    ghost use Rattle.am_store.specs.declared.call.Call.{Call};

    ghost Value = { PassView Alert Call };

    ghost coded = { Prim.hlevel (codes, coded_alert, call.the_row.coded, lane.the_row.coded) };

    ghost view = { λ p. p.pass };

    ghost invariant = { λ p. (p.share.parts ≡ 1) × (p.share.amount ≡ length p.pass.own) × IsRising p.pass.own };
}

/// Passes that were given back, as one.
#[derive(Drop)]
pub(crate) struct Joined<N: Origin> {
    pass: LogPass<N>,
    // Their parts of the ledger, with as many posts as they own.
    share: Share<N>,
}

impl<N: Origin> Model for Joined<N> {
    ghost use Rattle.std.specs.Coded.{codes};
    ghost use Rattle.std.specs.Prelude.{◌≡◌, length};
    ghost use Rattle.am_alert.specs.Alerts.{coded_alert};
    ghost use Rattle.am_store.specs.contracts.call.Call as call;
    ghost use Rattle.am_store.specs.contracts.lanes.OpenLane as lane;
    ghost use Rattle.am_provider.specs.Settling.{JoinedView};

    ghost Value = { JoinedView };

    ghost coded = { Prim.hlevel (codes, coded_alert, call.the_row.coded, lane.the_row.coded) };

    ghost view = { λ j. record { parts = j.share.parts; own = j.pass.own } };

    ghost invariant = { λ j. j.share.amount ≡ length j.pass.own };
}

impl<N: Origin> Joined<N> {
    /// One pass alone.
    pub(crate) fn of(pass: Pass<N>) -> Joined<N>
        ensures joined { result ≡ record { parts = 1; own = pass.own } }
        ensures rising { IsRising pass.own }
    {
        let Pass { pass, share } = pass;
        Joined { pass, share }
    }

    /// One pass more.
    pub(crate) fn take_in(&mut self, cast: &Cast<N>, pass: Pass<N>)
        ensures joined { self.new
            ≡ record { parts = self.old.parts + 1; own = self.old.own ++ pass.own } }
        ensures rising { IsRising pass.own }
    {
        let Pass { pass, share } = pass;
        self.pass.merge(cast, pass);
        self.share.merge(share);
    }

    /// What they posted is in the log, each place once. If they are all passes, it is all of the log.
    pub(crate) fn audit(&mut self, cast: &Cast<N>, log: &mut Writer<N>, tally: &mut ledger::Book<N>)
        ensures same { (log.new ≡ log.old) × (tally.new.total ≡ tally.old.total) × (self.new ≡ self.old) }
        ensures stand { AreInLog self.old.own log.old.tail.log }
        ensures once { Once self.old.own }
        ensures whole { self.old.parts ≡ N.parts → length self.old.own ≡ tally.old.total }
    {
        log.confirm(cast, &mut self.pass);
        tally.audit(&mut self.share);
    }
}

// A pass for each poster, with a part of the ledger each.
pub(crate) fn deal<N: Origin>(
    alloc: Global,
    passes: Vec<LogPass<N>>,
    share: Share<N>,
) -> Result<Vec<Pass<N>>, AllocError>
    requires share { (share.parts ≡ length passes.items) × (share.amount ≡ 0) }
    requires fresh { All (λ pass. pass ≡ record { noted = []; own = [] }) passes.items }
    ensures count { IfOk result (λ dealt. length dealt.items ≡ length passes.items) }
    ensures fresh { IfOk result (λ dealt.
        All (λ pass. pass ≡ record { noted = []; own = [] }) dealt.items) }
{
    let mut share = share;
    let mut dealt = Vec::with_capacity(alloc, passes.len())?;
    for pass in passes {
        let share = share.split_off(1, 0);
        dealt.push_reserved(Pass { pass, share });
    }
    Ok(dealt)
}

// All passes as one, if there is any.
pub(crate) fn join_all<N: Origin>(cast: &Cast<N>, passes: Vec<Pass<N>>) -> Option<Joined<N>>
    ensures own { own_in result ≡ own_of passes.items }
    ensures parts { parts_in result ≡ length passes.items }
    ensures rising { All (λ pass. IsRising pass.own) passes.items }
{
    let mut left = passes;
    let mut all = match left.pop() {
        Some(first) => Joined::of(first),
        None => return None,
    };
    while let Some(next) = left.pop() {
        all.take_in(cast, next);
    }
    Some(all)
}
