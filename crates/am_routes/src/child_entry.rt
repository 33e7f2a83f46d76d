//! What is read of a route below another when a label set is asked about.

ghost use Rattle.std.specs.Prelude.{◌≡◌};
ghost use Rattle.am_config.specs.RouteLists.{route_view};
ghost use Rattle.am_routes.specs.inside.ChildIndexes.{child_entry_of, is_nil, other_matchers};

use am_config::Route;
use am_matchers::{Matcher, Operator};

/// What an index keeps of each of its routes: two words, so that an answer needn't read the route
/// itself, which is larger.
#[derive(Clone, Copy)]
pub(crate) struct ChildEntry {
    /// How far after the route above it comes in pre-order.
    pub(crate) offset: usize,
    /// Whether it has no matcher but its first equality matcher, which the index has settled.
    pub(crate) is_settled: bool,
    /// Whether there are no routes below it.
    pub(crate) is_leaf: bool,
    /// Whether the routes after it are asked too if it matches.
    pub(crate) continues: bool,
}

impl ChildEntry {
    pub(crate) fn of(route: &Route, offset: usize) -> ChildEntry
        ensures { result ≡ child_entry_of (record {
          offset = offset;
          first = route_view route.now;
          below = route.now.children;
        }) }
    {
        ChildEntry {
            offset,
            is_settled: has_no_others(route.matchers.as_slice()),
            is_leaf: route.children.as_slice().is_empty(),
            continues: route.continues,
        }
    }
}

// Whether there are no matchers but one equality matcher.
fn has_no_others(matchers: &[Matcher]) -> bool
    ensures { result ≡ is_nil (other_matchers matchers.now) }
{
    match matchers {
        [] => true,
        [matcher] => matcher.operator() == Operator::Equal,
        _ => false,
    }
}
