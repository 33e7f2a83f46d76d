//! Workers with a provider, each in a thread of its own with a caller of its own.

ghost use Rattle.std.specs.Prelude.{◌≡◌, ◌<◌, IfOk, [], length, map, vec_capacity};
ghost use Rattle.std.specs.List.{All};
ghost use Rattle.std.specs.Option.{IsSomeAnd};
ghost use Rattle.am_provider.specs.Callers.{IsNewCaller};
ghost use Rattle.am_provider.specs.PartsOf.{AreOf};
ghost use Rattle.sinnoraku.specs.Runs.{AreOutcomes, IsSettledRun};

use crate::client::Client;
use crate::limits::Limits;
use crate::seat::{Rooms, Seat, seat_all, unseat_all};
use am_provider::{Parts, Provider, Recorded, Settled};
use std::alloc::{AllocError, Global};
use std::marker::Brand;
use std::sync::Wait;
use std::thread;
use std::thread::Threads;

/// What each caller of a provider does, in a thread of its own. `R` is what it needs of the runtime.
pub trait Worker<R> {
    ghost use Rattle.std.specs.Prelude.{ℕ, ◌<◌, ⊤};
    ghost use Rattle.am_history.specs.Fronts.{FrontView};
    ghost use Rattle.am_provider.specs.Histories.{EntryView};
    ghost use Rattle.sinnoraku.specs.declared.limits.Limits.{Limits};

    /// The outcome of one client.
    type Outcome: Drop + Send;

    // The outcome of a client, by the provider's limits, by its index and by what it has seen of the one history.
    ghost comes_to: { Self → Limits → ℕ → FrontView EntryView → Self.Outcome → Type 0 } = { λ _ _ _ _ _. ⊤ };

    /// Works with one client of a new provider. The others work at the same time.
    fn work<N: Recorded>(&self, rt: &R, index: usize, client: &mut Client<'_, N>) -> Self::Outcome
        requires fresh { IsNewCaller client.old.caller.pass client.old.caller.front }
        requires index { index < client.old.limits.callers }
        ensures { comes_to self.now client.old.limits index client.new.caller.front result };
}

/// Begins a provider, runs a worker for each caller at the same time, and settles: then each call of each caller is in
/// the journal that trims and compactions left. It fails only if there is no memory to begin with. If the system makes
/// no more threads, several workers share one and run one after another.
pub fn run_workers<W: Worker<R> + Sync, R: Threads + Wait + Sync>(
    rt: &R,
    alloc: Global,
    limits: Limits,
    worker: &W,
) -> Result<(Vec<W::Outcome>, Settled), AllocError>
    ensures { IfOk result (λ done.
        IsSettledRun (λ fronts. AreOutcomes (W.comes_to worker.now limits) fronts done.0.items) limits.callers done.1) }
{
    let parts = Parts::make(alloc, limits.places, limits.callers)?;
    run_over::<Brand, W, R>(rt, alloc, parts, limits, worker)
}

fn run_over<N: Recorded + Send + Sync, W: Worker<R> + Sync, R: Threads + Wait + Sync>(
    rt: &R,
    alloc: Global,
    parts: Parts,
    limits: Limits,
    worker: &W,
) -> Result<(Vec<W::Outcome>, Settled), AllocError>
    requires made { AreOf N.table N.name N.parts N.timeline N.entries N.holders parts }
    requires limits { (parts.log.places ≡ N.places) × (limits.policy ≡ N.policy) }
    requires parts { (parts.posters ≡ limits.callers) × (parts.log.places ≡ limits.places) }
    ensures { IfOk result (λ done.
        IsSettledRun (λ fronts. AreOutcomes (W.comes_to worker.now limits) fronts done.0.items) limits.callers done.1) }
{
    let (provider, callers) = Provider::<N>::begin(
        alloc,
        parts,
        limits.policy,
        limits.resolve_timeout,
    )?;
    let rooms = match Rooms::make(alloc, limits.callers) {
        Ok(rooms) => rooms,
        Err(error) => {
            provider.settle(callers);
            return Err(error);
        }
    };
    let Rooms {
        seats,
        outcomes,
        callers: back,
    } = rooms;
    let seats = seat_all(&provider, limits, callers, seats);
    let seats = work_all(rt, limits, worker, seats);
    let (outcomes, callers) = unseat_all(seats, outcomes, back);
    let settled = provider.settle(callers);
    Ok((outcomes, settled))
}

// Each seat's worker works in a thread.
fn work_all<'p, N: Recorded + Send + Sync, W: Worker<R> + Sync, R: Threads + Sync>(
    rt: &R,
    limits: Limits,
    worker: &W,
    seats: Vec<Seat<'p, N, W::Outcome>>,
) -> Vec<Seat<'p, N, W::Outcome>>
    requires fresh { All (λ seat. IsNewCaller seat.client.caller.pass seat.client.caller.front) seats.items }
    requires limits { All (λ seat. seat.client.limits ≡ limits) seats.items }
    requires count { length seats.items ≡ limits.callers }
    ensures count { length result.items ≡ limits.callers }
    ensures outcomes { AreOutcomes (λ index front outcome. IsSomeAnd outcome (W.comes_to worker.now limits index front))
        (map (λ seat. seat.client.caller.front) result.items) (map (λ seat. seat.outcome) result.items) }
{
    let mut seats = seats;
    thread::for_each_mut(
        rt,
        seats.as_mut_slice(),
        limits.callers as usize,
        &move |index, seat: &mut Seat<'_, N, W::Outcome>|
            requires { IsNewCaller seat.now.client.caller.pass seat.now.client.caller.front
                × (index < seat.now.client.limits.callers) }
        { work_at(rt, worker, index, seat) },
    );
    seats
}

// The worker of one seat.
fn work_at<N: Recorded, W: Worker<R>, R>(
    rt: &R,
    worker: &W,
    index: usize,
    seat: &mut Seat<'_, N, W::Outcome>,
)
    requires fresh { IsNewCaller seat.old.client.caller.pass seat.old.client.caller.front }
    requires index { index < seat.old.client.limits.callers }
    ensures { IsSomeAnd seat.new.outcome
        (W.comes_to worker.now seat.old.client.limits index seat.new.client.caller.front) }
{
    let outcome = worker.work(rt, index, &mut seat.client);
    seat.outcome = Some(outcome);
}
