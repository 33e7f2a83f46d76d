//! Who is notified of an alert: the routes that its label set matches, and its groups there.
//!
//! A [`PreparedTree`] is a routing tree made ready to be asked often. It gives the numbers of the
//! routes that a label set matches, as Alertmanager's `dispatch.Route.Match`. It doesn't walk them: an
//! index finds the routes that may match by their equality matchers. A [`Dispatcher`] puts each alert
//! that it is given into one group of each of these routes, by the labels that the route groups by. A
//! sweep removes the resolved alerts, and then the empty groups. [`list_routes`] shows a tree as the
//! list of its routes, and [`matched_routes`] says who is notified of a label set alone.
//!
//! <!-- parts of crates/uses/src/who_is_notified.rt -->
//! ```rust
//! let routes = matched_routes(alloc, &config.tree, labels)?;
//!
//! for route in &verdict.routes {
//!     println!(rt; "  {} {}", route.receiver.as_str(), route.labels)?;
//! }
//! ```
//!
//! This crate knows of no provider and sends nothing: it is given alerts and moments.
#![tactic(auto)]

mod candidates;
mod child_entry;
mod child_index;
mod dispatcher;
mod group;
pub mod laws;
mod listed_route;
mod matched_route;
mod matcher_texts;
mod matching;
mod name_index;
mod route_id;

pub use dispatcher::{Dispatcher, Noted, Swept};
pub use group::Group;
pub use listed_route::{ListedRoute, list_routes};
pub use matched_route::{MatchedRoute, matched_routes};
pub use matcher_texts::MatcherTexts;
pub use matching::{PreparedTree, matching_routes};
pub use route_id::RouteId;
