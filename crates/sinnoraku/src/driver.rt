//! A driver of a provider: it has the callers themselves, for what owns one and can't be lent a client.

ghost use Rattle.std.specs.Prelude.{◌≡◌, IfErr, IfOk, length, map};
ghost use Rattle.std.specs.List.{All};
ghost use Rattle.am_provider.specs.Callers.{IsNewCaller};
ghost use Rattle.am_provider.specs.PartsOf.{AreOf};
ghost use Rattle.sinnoraku.specs.Runs.{IsDriven};

use crate::limits::Limits;
use am_provider::{Caller, Parts, Provider, Recorded, Settled};
use std::alloc::{AllocError, Global};
use std::marker::Brand;
use std::sync::Wait;

/// What drives a provider in this thread. `R` is what it needs of the runtime. For most a [`crate::Program`] does.
pub trait Driver<R> {
    ghost use Rattle.std.specs.Prelude.{List, ⊤};
    ghost use Rattle.am_alert.specs.declared.alert.Alert.{Alert};
    ghost use Rattle.am_cast.specs.Posters.{PassView};
    ghost use Rattle.am_history.specs.Fronts.{FrontView};
    ghost use Rattle.am_provider.specs.Histories.{EntryView};
    ghost use Rattle.am_store.specs.declared.call.Call.{Call};
    ghost use Rattle.sinnoraku.specs.declared.limits.Limits.{Limits};

    /// Its outcome.
    type Outcome: Drop;

    // Which limits a driver can be driven under.
    ghost fits: { Self → Limits → Type 0 } = { λ _ _. ⊤ };

    // The outcome, by the driver as it was and as it is then, by the provider's limits, and by what the callers that it
    // gave back have posted and have seen of the one history.
    ghost comes_to: { Self → Self → Limits → List (PassView Alert Call) → List (FrontView EntryView) → Self.Outcome
        → Type 0 } = { λ _ _ _ _ _ _. ⊤ };

    /// Drives a new provider, and gives its callers back. One that is missing has what it did in the history all the
    /// same, but then nothing says that the journal has each call.
    fn drive<'p, N: Recorded>(
        &mut self,
        rt: &'p R,
        limits: Limits,
        provider: &'p Provider<N>,
        callers: Vec<Caller<N>>,
    ) -> (Self::Outcome, Vec<Caller<N>>)
        requires fits { fits self.old limits }
        requires fresh { All (λ caller. IsNewCaller caller.pass caller.front) callers.items }
        requires count { length callers.items ≡ limits.callers }
        requires limits { (N.places ≡ limits.places) × (N.policy ≡ limits.policy)
            × (provider.now.resolve_timeout ≡ limits.resolve_timeout) }
        ensures { comes_to self.old self.new limits (map (λ caller. caller.pass) result.1.items)
            (map (λ caller. caller.front) result.1.items) result.0 };
}

/// Begins a provider, lets a driver drive it, and settles. It fails only if there is no memory to begin with, and then
/// the driver is as it was.
pub fn run_driver<D: Driver<R>, R: Wait>(
    rt: &R,
    alloc: Global,
    limits: Limits,
    driver: &mut D,
) -> Result<(D::Outcome, Settled), AllocError>
    requires { D.fits driver.old limits }
    ensures driven { IfOk result (λ done.
        IsDriven (λ passes fronts. D.comes_to driver.old driver.new limits passes fronts done.0) limits.callers done.1) }
    ensures refused { IfErr result (λ _. driver.new ≡ driver.old) }
{
    let parts = Parts::make(alloc, limits.places, limits.callers)?;
    run_over::<Brand, D, R>(rt, alloc, parts, limits, driver)
}

fn run_over<N: Recorded, D: Driver<R>, R: Wait>(
    rt: &R,
    alloc: Global,
    parts: Parts,
    limits: Limits,
    driver: &mut D,
) -> Result<(D::Outcome, Settled), AllocError>
    requires made { AreOf N.table N.name N.parts N.timeline N.entries N.holders parts }
    requires limits { (parts.log.places ≡ N.places) × (limits.policy ≡ N.policy) }
    requires parts { (parts.posters ≡ limits.callers) × (parts.log.places ≡ limits.places) }
    requires fits { D.fits driver.old limits }
    ensures driven { IfOk result (λ done.
        IsDriven (λ passes fronts. D.comes_to driver.old driver.new limits passes fronts done.0) limits.callers done.1) }
    ensures refused { IfErr result (λ _. driver.new ≡ driver.old) }
{
    let (provider, callers) = Provider::<N>::begin(
        alloc,
        parts,
        limits.policy,
        limits.resolve_timeout,
    )?;
    let (outcome, callers) = driver.drive(rt, limits, &provider, callers);
    let settled = provider.settle(callers);
    Ok((outcome, settled))
}
