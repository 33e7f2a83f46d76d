//! A client, and the outcome of its worker.

ghost use Rattle.std.specs.Prelude.{◌≡◌, ◌≤◌, Some, IfOk, [], length, map, vec_capacity};
ghost use Rattle.std.specs.List.{All};
ghost use Rattle.std.specs.Option.{IsSome};

use crate::client::Client;
use crate::limits::Limits;
use am_provider::{Caller, Provider, Recorded};
use std::alloc::{AllocError, Global};

// A client, and the outcome of its worker once that has returned.
#[derive(Drop)]
pub(crate) struct Seat<'p, N: Recorded, O> {
    pub(crate) client: Client<'p, N>,
    pub(crate) outcome: Option<O>,
}

// Room for a seat, an outcome and a caller each.
pub(crate) struct Rooms<'p, N: Recorded, O> {
    pub(crate) seats: Vec<Seat<'p, N, O>>,
    pub(crate) outcomes: Vec<O>,
    pub(crate) callers: Vec<Caller<N>>,
}

impl<'p, N: Recorded, O: Drop> Rooms<'p, N, O> {
    pub(crate) fn make(alloc: Global, count: u32) -> Result<Rooms<'p, N, O>, AllocError>
        ensures seats { IfOk result (λ rooms. (rooms.seats.items ≡ []) × (count ≤ vec_capacity rooms.seats)) }
        ensures outcomes { IfOk result (λ rooms. (rooms.outcomes.items ≡ []) × (count ≤ vec_capacity rooms.outcomes)) }
        ensures callers { IfOk result (λ rooms. (rooms.callers.items ≡ []) × (count ≤ vec_capacity rooms.callers)) }
    {
        let seats = Vec::with_capacity(alloc, count as usize)?;
        let outcomes = Vec::with_capacity(alloc, count as usize)?;
        let callers = Vec::with_capacity(alloc, count as usize)?;
        Ok(Rooms {
            seats,
            outcomes,
            callers,
        })
    }
}

// A seat for each caller.
pub(crate) fn seat_all<'p, N: Recorded, O: Drop>(
    provider: &'p Provider<N>,
    limits: Limits,
    callers: Vec<Caller<N>>,
    room: Vec<Seat<'p, N, O>>,
) -> Vec<Seat<'p, N, O>>
    requires room { (room.items ≡ []) × (length callers.items ≤ vec_capacity room) }
    requires limits { (N.places ≡ limits.places) × (N.policy ≡ limits.policy) }
    requires timeout { provider.now.resolve_timeout ≡ limits.resolve_timeout }
    ensures callers { map (λ seat. seat.client.caller) result.items ≡ callers.items }
    ensures limits { All (λ seat. seat.client.limits ≡ limits) result.items }
{
    let mut seats = room;
    for caller in callers {
        seats.push_reserved(Seat {
            client: Client::new(provider, caller, limits),
            outcome: None,
        });
    }
    seats
}

// The outcomes and the callers of seats whose workers have all returned.
pub(crate) fn unseat_all<N: Recorded, O: Drop>(
    seats: Vec<Seat<'_, N, O>>,
    outcomes: Vec<O>,
    callers: Vec<Caller<N>>,
) -> (Vec<O>, Vec<Caller<N>>)
    requires outcomes { (outcomes.items ≡ []) × (length seats.items ≤ vec_capacity outcomes) }
    requires callers { (callers.items ≡ []) × (length seats.items ≤ vec_capacity callers) }
    requires done { All (λ seat. IsSome seat.outcome) seats.items }
    ensures outcomes { map (λ outcome. Some outcome) result.0.items ≡ map (λ seat. seat.outcome) seats.entry.items }
    ensures callers { result.1.items ≡ map (λ seat. seat.client.caller) seats.entry.items }
{
    let mut outcomes = outcomes;
    let mut callers = callers;
    for seat in seats {
        let Seat { client, outcome } = seat;
        callers.push_reserved(client.into_caller());
        match outcome {
            Some(outcome) => outcomes.push_reserved(outcome),
            None => unreachable!(),
        }
    }
    (outcomes, callers)
}
