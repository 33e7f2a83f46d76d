//! Who is muted: an alert of which another one tells already, by the inhibition rules of the
//! configuration.
//!
//! An [`Inhibitor`] takes alerts and keeps the last one of each label set, until a sweep finds it
//! resolved. While an alert that a rule names as a source fires, the targets that the rule names and
//! that have the same values as the source are muted. A label set that matches both sides of a rule
//! is never muted by it because of an alert that does so too, so no alert mutes itself.
//!
//! <!-- parts of crates/uses/src/who_is_notified.rt -->
//! ```rust
//! let mut inhibitor = Inhibitor::new(alloc, &config.rules)?;
//! for alert in &post.valid {
//!     inhibitor.take(alert)?;
//! }
//!
//! let muted_by = match inhibitor.mutes(labels, now)? {
//!     Some((rule, source)) => Some(Mute {
//!         rule,
//!         source: source.clone()?,
//!     }),
//!     None => None,
//! };
//! ```
//!
//! Without sweeps an inhibitor grows with the label sets that it takes, and an answer examines the
//! resolved sources too. A sweep at a moment changes no answer at that moment or later, except which source
//! is named: a label set that was dropped and is taken again comes after the others.
//!
//! This crate knows of no provider: it is handed alerts and labels, and each moment too.
#![tactic(auto)]

mod equal_values;
mod inhibitor;
pub mod laws;
mod source;
mod source_index;

pub use inhibitor::Inhibitor;
