//! An alert provider begun and settled by one call, with a program of yours between.
//!
//! [`run`] begins a provider with these [`Limits`], runs a [`Program`] with its clients in this thread, and settles.
//! [`run_workers`] does so with a [`Worker`], which works with each client in a thread of its own, and [`run_driver`] with a
//! [`Driver`], which owns the callers meanwhile. [`run_crew`] does so with a [`Crew`], whose threads own a caller each, begin
//! together, and may take turns. A [`Client`] is a caller with its provider: it posts, subscribes and asks. A
//! [`Reader`] is a subscription with its provider: it can wait. Which provider these belong to is part of their type, so
//! that those of another one don't compile.
//!
//! <!-- from crates/uses/src/one_thread.rt -->
//! ```rust
//! fn run<N: Recorded>(self, rt: &R, clients: &mut [Client<'_, N>]) -> Result<()> {
//!     let client = &mut clients[0];
//!     let mut reader = client.subscribe(rt)?;
//!     let done = post_and_print(rt, client, &mut reader);
//!     client.leave(rt, reader);
//!     done
//! }
//! ```
//!
//! A slow reader gets everything in its own time, as long as it lags by fewer batches than there are places.
//! With as many the next post is refused ([`Policy::Refuse`]), or the reader is cut off ([`Policy::Cut`]).
//! After `close` nothing more is accepted, and each reader ends once it has shown all that it is owed.
//!
//! This crate adds no promise to those of am_provider, whose words its contracts cite.
#![tactic(auto)]

mod client;
mod clients;
mod crew;
mod crew_threads;
mod driver;
mod iter;
mod limits;
mod next;
mod program;
mod reader;
mod run_fault;
mod seat;
mod start;
mod worker;

pub use am_alert::{Alert, Moment, Post, PostFault};
pub use am_history::Timeline;
pub use am_labels::{LabelSet, LabelsFault, Text};
pub use am_posts::{AlertParts, PartsFault, post_from_parts, read_post};
pub use am_provider::{
    BodyFault, Caller, CloseFault, Ended, Page, Policy, Posted, PostedIf, Provider, PutFault,
    Recorded, Register, Settled, SubFault, Subscription, TurnsSeen,
};
pub use am_store::{SharedAlert, StoredAlerts};
pub use client::Client;
pub use crew::{Crew, Worked, run_crew};
pub use driver::{Driver, run_driver};
pub use iter::Iter;
pub use limits::{Limits, USUAL_PLACES};
pub use next::Next;
pub use program::{Program, run};
pub use reader::Reader;
pub use run_fault::RunFault;
pub use std::alloc::{AllocError, Global};
pub use std::sync::Wait;
pub use std::thread::Threads;
pub use std::time::Duration;
pub use worker::{Worker, run_workers};
