//! The configuration: Alertmanager's JSON, read once and never changed.
//!
//! It has the resolve timeout, the routing tree and the inhibition rules. Each route of the tree has
//! the receiver and the grouping that the text gives it, else those of the route above it, and its
//! own matchers alone. Reading reports the first fault in a fixed order, with the path of the member
//! at fault. Members that nothing here uses are ignored.
//!
//! <!-- from crates/uses/src/who_is_notified.rt -->
//! ```rust
//! let config = Config::read(alloc, CONFIG)?;
//! let now: Moment = NEW_YEAR.parse()?;
//! let post = read_post(alloc, BODY, now, config.resolve_timeout)?;
//! let mut inhibitor = Inhibitor::new(alloc, &config.rules)?;
//! ```
//!
//! This crate decides nothing about alerts: which routes an alert matches is in am_routes, and which
//! alerts a rule mutes is in am_inhibit.
#![tactic(auto)]

mod config;
mod duration;
mod fault;
mod group_by;
mod group_names;
mod inhibit_rule;
mod label_names;
pub mod laws;
mod matcher_reader;
mod members;
mod path;
mod route;
mod route_head;
mod route_reader;
mod rule_reader;
mod texts;
mod timeout;
mod tree;

pub use config::{Config, DEFAULT_MILLISECONDS};
pub use duration::MAX_MILLISECONDS;
pub use fault::ConfigFault;
pub use group_by::GroupBy;
pub use group_names::GroupNames;
pub use inhibit_rule::{InhibitRule, InhibitRules};
pub use label_names::LabelNames;
pub use path::Path;
pub use route::{Route, Routes};
pub use route_reader::MAX_DEPTH;
pub use tree::RouteTree;
