//! Posts: how one is read, and which of its alerts are valid.
//!
//! `read_post` reads a request's body: its valid alerts, and the faults of the others with their
//! indices, or one refusal of the whole. Each moment is handed in: no clock is read. Who has read the JSON already makes a
//! `Body` of its value, and who has none makes a post by `post_from_parts`. An `UnjudgedAlert` is an alert that may have a
//! fault, as one that another provider hands on.
//!
//! <!-- from crates/uses/src/who_is_notified.rt -->
//! ```rust
//! let now: Moment = NEW_YEAR.parse()?;
//! let post = read_post(alloc, BODY, now, config.resolve_timeout)?;
//! ```
//!
//! This crate knows nothing of stores, nor of how two reports become one: `am_alert` says what an alert is. It is apart from
//! that one so that stores need not wait for its proofs.
#![tactic(auto)]

mod alert_parts;
mod array_reader;
mod body;
mod draft;
mod draft_reader;
mod elements;
pub mod laws;
mod post_reader;
mod postable;
mod room;
mod unjudged_alert;

pub use alert_parts::{AlertParts, PartsFault, post_from_alerts, post_from_parts};
pub use body::Body;
pub use elements::Elements;
pub use post_reader::{PostReader, read_post};
pub use unjudged_alert::UnjudgedAlert;
