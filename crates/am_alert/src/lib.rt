//! Alerts: what was reported of a label set, and how two reports of it become one.
//!
//! `absorb` says what a label set holds once a report of it came. A `Post` is what one request to
//! `/api/v2/alerts` is read as: its valid alerts, and the faults of the others with their indices; `am_posts` reads
//! one. A `Moment` is an instant, read from a text or counted from 1970; no clock is read.
//!
//! <!-- from crates/uses/src/who_is_notified.rt -->
//! ```rust
//! let now: Moment = NEW_YEAR.parse()?;
//! ```
//!
//! This crate knows nothing of stores: it says what an alert is, not where it is kept. It knows of JSON only that a member
//! may be null (specs/GivenMembers.antt).
#![tactic(auto)]

mod alert;
mod alerts;
mod civil_time;
pub mod laws;
mod merging;
mod moment;
mod moment_text;
mod plain_moment;
mod post;
mod time_text;

pub use alert::Alert;
pub use alerts::Alerts;
pub use civil_time::CivilTime;
pub use merging::{absorb, absorb_in_place, merge, overlaps};
pub use moment::Moment;
pub use moment_text::MomentText;
pub use post::{AlertFault, Faults, MAX_ALERTS, MAX_BYTES, Post, PostFault};
pub use time_text::{TimeFault, read_time};
