//! The number of a route.

/// The number of a route in its tree, counted in pre-order: the root is 0, and a route comes before
/// the routes below it.
#[derive(Clone, Copy, Debug, PartialEq, Eq, Hash)]
pub struct RouteId(pub u64);
