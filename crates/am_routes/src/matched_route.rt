//! What is said of a route that a label set matches.

ghost use Rattle.std.specs.Prelude.{◌≡◌, IfOk, map};
ghost use Rattle.am_config.specs.RouteLists.{root_of};
ghost use Rattle.am_routes.specs.Listings.{matched_at, AreMatchedBy};
ghost use Rattle.am_routes.specs.inside.Searches.{node_of, nodes_in};

use crate::matching::{FoundRoute, PreparedTree};
use crate::route_id::RouteId;
use am_config::RouteTree;
use am_labels::{LabelSet, Text};
use std::alloc::{AllocError, Global};

/// A route that a label set matches. It borrows nothing of its tree.
#[derive(Debug, Drop)]
pub struct MatchedRoute {
    pub id: RouteId,
    pub receiver: Text,
    /// The labels of the group in which an alert with the label set is there.
    pub labels: LabelSet,
}

impl<'t> PreparedTree<'t> {
    ghost use Rattle.am_routes.specs.Listings.{AreMatchedBy};

    /// As `matches`, with the receiver of each route and the labels of the group there.
    pub fn matched(&mut self, labels: &LabelSet) -> Result<Vec<MatchedRoute>, AllocError>
        ensures matched { IfOk result (λ routes. AreMatchedBy labels.now self.old routes.items) }
        ensures same { self.new ≡ self.old }
    {
        let found = self.find(labels)?;
        matched_each(*found.allocator(), &found, labels)
    }
}

/// The routes that a label set matches, as [`PreparedTree::matched`] gives them. It prepares the tree for
/// this one question.
pub fn matched_routes(
    alloc: Global,
    tree: &RouteTree,
    labels: &LabelSet,
) -> Result<Vec<MatchedRoute>, AllocError>
    ensures { IfOk result (λ routes. AreMatchedBy labels.now (root_of tree.now) routes.items) }
{
    PreparedTree::new(alloc, tree)?.matched(labels)
}

fn matched_each(
    alloc: Global,
    found: &[FoundRoute<'_>],
    labels: &LabelSet,
) -> Result<Vec<MatchedRoute>, AllocError>
    ensures { IfOk result (λ routes. routes.items ≡ map (matched_at labels.now) (nodes_in found.now)) }
{
    let mut matched = Vec::with_capacity(alloc, found.len())?;
    for one in found {
        matched.push(matched_at(alloc, one, labels)?)?;
    }
    Ok(matched)
}

fn matched_at(
    alloc: Global,
    found: &FoundRoute<'_>,
    labels: &LabelSet,
) -> Result<MatchedRoute, AllocError>
    ensures { IfOk result (λ route. route ≡ matched_at labels.now (node_of found.now)) }
{
    Ok(MatchedRoute {
        id: found.id,
        receiver: found.route.receiver.copy()?,
        labels: found.route.group_by.labels_of(alloc, labels)?,
    })
}
