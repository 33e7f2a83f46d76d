//! The clients of a new provider, and their callers once they are done.

ghost use Rattle.std.specs.Prelude.{◌≡◌, ◌≤◌, IfOk, [], length, map, vec_capacity};
ghost use Rattle.std.specs.List.{All};

use crate::client::Client;
use crate::limits::Limits;
use am_provider::{Caller, Provider, Recorded};
use std::alloc::{AllocError, Global};

// Room for as many clients, and for their callers.
pub(crate) struct ClientRooms<'p, N: Recorded> {
    pub(crate) clients: Vec<Client<'p, N>>,
    pub(crate) callers: Vec<Caller<N>>,
}

impl<'p, N: Recorded> ClientRooms<'p, N> {
    pub(crate) fn make(alloc: Global, count: u32) -> Result<ClientRooms<'p, N>, AllocError>
        ensures clients { IfOk result (λ rooms. (rooms.clients.items ≡ [])
            × (count ≤ vec_capacity rooms.clients)) }
        ensures callers { IfOk result (λ rooms. (rooms.callers.items ≡ [])
            × (count ≤ vec_capacity rooms.callers)) }
    {
        let clients = Vec::with_capacity(alloc, count as usize)?;
        let callers = Vec::with_capacity(alloc, count as usize)?;
        Ok(ClientRooms { clients, callers })
    }
}

// A client for each caller.
pub(crate) fn clients_of<'p, N: Recorded>(
    provider: &'p Provider<N>,
    limits: Limits,
    callers: Vec<Caller<N>>,
    room: Vec<Client<'p, N>>,
) -> Vec<Client<'p, N>>
    requires room { (room.items ≡ []) × (length callers.items ≤ vec_capacity room) }
    requires limits { (N.places ≡ limits.places) × (N.policy ≡ limits.policy) }
    requires timeout { provider.now.resolve_timeout ≡ limits.resolve_timeout }
    ensures callers { map (λ client. client.caller) result.items ≡ callers.items }
    ensures limits { All (λ client. client.limits ≡ limits) result.items }
{
    let mut clients = room;
    for caller in callers {
        clients.push_reserved(Client::new(provider, caller, limits));
    }
    clients
}

// The callers of clients that are done.
pub(crate) fn callers_of<N: Recorded>(
    clients: Vec<Client<'_, N>>,
    room: Vec<Caller<N>>,
) -> Vec<Caller<N>>
    requires { (room.items ≡ []) × (length clients.items ≤ vec_capacity room) }
    ensures { result.items ≡ map (λ client. client.caller) clients.entry.items }
{
    let mut callers = room;
    for client in clients {
        callers.push_reserved(client.into_caller());
    }
    callers
}
