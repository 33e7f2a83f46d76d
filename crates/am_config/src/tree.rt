//! The routing tree.
//!
//! Contracts see routes as a `Forest`, since a definition's type can't be an item of a list within
//! itself.

use crate::route::Route;

/// The routing tree of a configuration. It never changes, so that threads share it.
#[derive(Debug, Drop)]
pub struct RouteTree {
    pub root: Route,
}
