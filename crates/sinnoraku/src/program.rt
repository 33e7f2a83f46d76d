//! A program with a provider, from the provider's beginning to its end.

ghost use Rattle.std.specs.Prelude.{◌≡◌, ◌≤◌, IfOk, length, map};
ghost use Rattle.std.specs.List.{All};
ghost use Rattle.am_provider.specs.Callers.{IsNewCaller};
ghost use Rattle.am_provider.specs.PartsOf.{AreOf};
ghost use Rattle.sinnoraku.specs.Runs.{IsSettledRun};

use crate::client::Client;
use crate::clients::{ClientRooms, callers_of, clients_of};
use crate::limits::Limits;
use am_provider::{Parts, Provider, Recorded, Settled};
use std::alloc::{AllocError, Global};
use std::marker::Brand;
use std::sync::Wait;

/// What is done with a provider. `R` is what it needs of the runtime, as `Threads + Wait + Print`.
pub trait Program<R> {
    ghost use Rattle.std.specs.Prelude.{List, ⊤};
    ghost use Rattle.am_history.specs.Fronts.{FrontView};
    ghost use Rattle.am_provider.specs.Histories.{EntryView};
    ghost use Rattle.sinnoraku.specs.declared.limits.Limits.{Limits};

    /// Its outcome.
    type Outcome: Drop;

    // The outcome, by the provider's limits, and by what its clients have seen of the one history and made of it.
    ghost comes_to: { Self → Limits → List (FrontView EntryView) → Self.Outcome → Type 0 } = { λ _ _ _ _. ⊤ };

    /// Runs with the clients of a new provider, in this thread.
    fn run<N: Recorded>(self, rt: &R, clients: &mut [Client<'_, N>]) -> Self::Outcome
        requires fresh { All (λ client. IsNewCaller client.caller.pass client.caller.front) clients.old }
        requires some { 1 ≤ length clients.old }
        requires count { All (λ client. client.limits.callers ≡ length clients.old) clients.old }
        ensures { (limits : Limits) → All (λ client. client.limits ≡ limits) clients.old
            → comes_to self limits (map (λ client. client.caller.front) clients.new) result };
}

/// Begins a provider, runs a program with it, and settles: then each call of each caller is in the journal that
/// trims and compactions left. It fails only if there is no memory to begin with.
pub fn run<P: Program<R> + Drop, R: Wait>(
    rt: &R,
    alloc: Global,
    limits: Limits,
    program: P,
) -> Result<(P::Outcome, Settled), AllocError>
    ensures { IfOk result (λ done.
        IsSettledRun (λ fronts. P.comes_to program limits fronts done.0) limits.callers done.1) }
{
    let parts = Parts::make(alloc, limits.places, limits.callers)?;
    run_over::<Brand, P, R>(rt, alloc, parts, limits, program)
}

fn run_over<N: Recorded, P: Program<R> + Drop, R: Wait>(
    rt: &R,
    alloc: Global,
    parts: Parts,
    limits: Limits,
    program: P,
) -> Result<(P::Outcome, Settled), AllocError>
    requires made { AreOf N.table N.name N.parts N.timeline N.entries N.holders parts }
    requires limits { (parts.log.places ≡ N.places) × (limits.policy ≡ N.policy) }
    requires parts { (parts.posters ≡ limits.callers) × (parts.log.places ≡ limits.places) }
    ensures { IfOk result (λ done.
        IsSettledRun (λ fronts. P.comes_to program limits fronts done.0) limits.callers done.1) }
{
    let (provider, callers) = Provider::<N>::begin(
        alloc,
        parts,
        limits.policy,
        limits.resolve_timeout,
    )?;
    let rooms = match ClientRooms::make(alloc, limits.callers) {
        Ok(rooms) => rooms,
        Err(error) => {
            provider.settle(callers);
            return Err(error);
        }
    };
    let ClientRooms {
        clients,
        callers: back,
    } = rooms;
    let mut clients = clients_of(&provider, limits, callers, clients);
    let outcome = program.run(rt, clients.as_mut_slice());
    let callers = callers_of(clients, back);
    let settled = provider.settle(callers);
    Ok((outcome, settled))
}
