//! A crew with a provider: threads that begin together, each owning a caller of its own, and that may take turns.
//!
//! `run_crew` starts them, since a `Driver` can't: in a trait's method a bound with ghost members, as `N: Recorded`, holds of
//! the method's own thread alone.

ghost use Rattle.std.specs.Prelude.{◌≡◌, IfOk};
ghost use Rattle.am_provider.specs.PartsOf.{AreOf};
ghost use Rattle.sinnoraku.specs.Runs.{IsCrewRun};

use crate::crew_threads::{Done, run_threads};
use crate::limits::Limits;
use crate::run_fault::RunFault;
use am_history::Timeline;
use am_provider::{Caller, Parts, Provider, Recorded, Register, Settled, TurnsSeen};
use std::alloc::Global;
use std::fmt;
use std::marker::Brand;
use std::sync::Wait;
use std::thread::Threads;

/// What a thread of a crew gives back.
#[derive(Drop)]
pub struct Worked<O, N: Recorded, M: Timeline> {
    pub outcome: O,
    pub caller: Caller<N>,
    /// What it has seen of the turns.
    pub seen: TurnsSeen<N, M>,
}

impl<O, N: Recorded, M: Timeline> fmt::Debug for Worked<O, N, M> {
    fn fmt<W: fmt::Write>(&self, f: &mut fmt::Formatter<W>) -> fmt::Result {
        f.debug_struct("Worked").finish_non_exhaustive()
    }
}

/// What each thread of a crew does. It owns its caller meanwhile, for what owns one and can't be lent a client. `R` is what
/// it needs of the runtime. For most a [`crate::Worker`] does.
pub trait Crew<R> {
    ghost use Rattle.std.specs.Prelude.{ℕ, ◌<◌, List, ⊤};
    ghost use mathlib.Core.List.{IsPrefix};
    ghost use Rattle.am_alert.specs.declared.alert.Alert.{Alert};
    ghost use Rattle.am_cast.specs.Posters.{PassView};
    ghost use Rattle.am_history.specs.Fronts.{FrontView};
    ghost use Rattle.am_provider.specs.Callers.{IsNewCaller};
    ghost use Rattle.am_provider.specs.Histories.{EntryView};
    ghost use Rattle.am_store.specs.declared.call.Call.{Call};
    ghost use Rattle.sinnoraku.specs.declared.limits.Limits.{Limits};

    /// The outcome of one thread.
    type Outcome: Drop + Send;

    // Which limits a crew can work under.
    ghost fits: { Self → Limits → Type 0 } = { λ _ _. ⊤ };

    // The outcome of a thread, by the provider's limits, by the turns that were taken, by the thread's index, and by what
    // its caller has posted and has seen of the one history.
    ghost comes_to: { Self → Limits → List (FrontView EntryView) → ℕ → PassView Alert Call → FrontView EntryView
        → Self.Outcome → Type 0 } = { λ _ _ _ _ _ _ _. ⊤ };

    /// Works in one thread. The others work at the same time, and take turns with it by the register, if they do.
    fn work<'p, N: Recorded, M: Timeline>(
        &self,
        rt: &'p R,
        limits: Limits,
        provider: &'p Provider<N>,
        register: &Register<N, M>,
        index: usize,
        caller: Caller<N>,
    ) -> Worked<Self::Outcome, N, M>
        requires fits { fits self.now limits }
        requires fresh { IsNewCaller caller.pass caller.front }
        requires index { index < limits.callers }
        requires limits { (N.places ≡ limits.places) × (N.policy ≡ limits.policy)
            × (provider.now.resolve_timeout ≡ limits.resolve_timeout) }
        ensures { (turns : List (FrontView EntryView)) → IsPrefix result.seen.seen turns
            → comes_to self.now limits turns index result.caller.pass result.caller.front result.outcome };
}

/// Begins a provider, runs a crew's threads, one for each caller, and settles: then each call of each caller is in the
/// journal that trims and compactions left. No thread begins before all are there, and none works if one can't be started.
pub fn run_crew<C: Crew<R> + Sync, R: Threads + Wait + Sync>(
    rt: &R,
    alloc: Global,
    limits: Limits,
    crew: &C,
) -> Result<(Vec<C::Outcome>, Settled), RunFault>
    requires { C.fits crew.now limits }
    ensures { IfOk result (λ done. IsCrewRun (C.comes_to crew.now limits) limits.callers done.0.items done.1) }
{
    let parts = Parts::make(alloc, limits.places, limits.callers)?;
    run_over::<Brand, C, R>(rt, alloc, parts, limits, crew)
}

fn run_over<N: Recorded + Send + Sync, C: Crew<R> + Sync, R: Threads + Wait + Sync>(
    rt: &R,
    alloc: Global,
    parts: Parts,
    limits: Limits,
    crew: &C,
) -> Result<(Vec<C::Outcome>, Settled), RunFault>
    requires made { AreOf N.table N.name N.parts N.timeline N.entries N.holders parts }
    requires limits { (parts.log.places ≡ N.places) × (limits.policy ≡ N.policy) }
    requires parts { (parts.posters ≡ limits.callers) × (parts.log.places ≡ limits.places) }
    requires fits { C.fits crew.now limits }
    ensures { IfOk result (λ done. IsCrewRun (C.comes_to crew.now limits) limits.callers done.0.items done.1) }
{
    let (provider, callers) = Provider::<N>::begin(
        alloc,
        parts,
        limits.policy,
        limits.resolve_timeout,
    )?;
    match run_threads(rt, alloc, limits, crew, &provider, callers) {
        Ok(Done { outcomes, callers }) => {
            let settled = provider.settle(callers);
            Ok((outcomes, settled))
        }
        Err(fault) => {
            let _settled = provider.settle(Vec::new(alloc));
            Err(fault)
        }
    }
}
