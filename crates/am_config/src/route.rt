//! The routes of a configuration, each with those below it.

use crate::group_by::GroupBy;
use am_labels::Text;
use am_matchers::Matchers;
use std::marker::Model;

/// A route: who is notified of the alerts that match it, and how they are grouped.
#[cycle(routes)]
#[derive(Debug, Drop)]
pub struct Route {
    /// The route's own `receiver`, else that of the route above it.
    pub receiver: Text,
    /// The route's own `group_by`, else that of the route above it.
    pub group_by: GroupBy,
    /// The route's own matchers alone.
    pub matchers: Matchers,
    /// Whether the routes after it are asked too if it matches (the member `continue`).
    pub continues: bool,
    pub children: Routes,
}

/// Routes in order, seen by contracts as their list: a [`Route`]'s own fields, the routes below it,
/// and the others.
#[cycle(routes)]
#[derive(Debug, Drop)]
pub struct Routes {
    pub routes: Vec<Route>,
}

impl Model for Routes {
    ghost use Rattle.am_matchers.specs.contracts.operator.Operator as operator;
    ghost use Rattle.am_config.specs.contracts.group_by.GroupBy as group_by;
    ghost use Rattle.am_config.specs.Routes.{Forest, count_of};
    ghost use Rattle.am_config.specs.inside.RouteCodes.{coded_forest};

    ghost Value = { Forest };

    ghost coded = { coded_forest group_by.the_row.coded operator.the_row.coded };

    ghost use Rattle.am_config.specs.RouteLists.{forest_of};

    ghost view = { λ a. forest_of a.routes.items };

    ghost size = { count_of };

    ghost use Rattle.am_config.specs.inside.RouteSizes.{most_le-count_of};

    ghost size_decreases = { λ a h. most_le-count_of a.routes.items };
}

impl Routes {
    ghost use Rattle.std.specs.Prelude.{◌≡◌};
    ghost use Rattle.am_config.specs.RouteLists.{forest_of};

    pub fn as_slice(&self) -> &[Route]
        ensures { forest_of result.now ≡ self.now }
    {
        &self.routes
    }
}
