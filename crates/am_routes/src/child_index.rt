//! How the routes below a route are found that may match a label set.
//!
//! A route is filed under its first equality matcher alone: one that fails rules it out. The index
//! only passes over routes that can't match, so no contract of an answer speaks of it; `looked`
//! alone does.

ghost use Rattle.std.specs.Prelude.{◌≡◌, IfOk};
ghost use Rattle.am_config.specs.Routes.{no_routes};
ghost use Rattle.am_config.specs.RouteLists.{forest_of};
ghost use Rattle.am_routes.specs.inside.ChildIndexes.{filings, has_name, is_unfiled};
ghost use Rattle.am_routes.specs.inside.ChildIndexes.{entries_from, offsets_from, places_from, AreIndexesOf};

use crate::candidates::Candidates;
use crate::child_entry::ChildEntry;
use crate::name_index::{NameIndex, first_equality};
use am_config::Route;
use am_labels::LabelSet;
use std::alloc::{AllocError, Global};
use std::marker::Model;

/// An index of the routes below a route by their first equality matchers. Contracts see it as these
/// routes.
#[derive(Drop)]
pub(crate) struct ChildIndex<'t> {
    routes: &'t [Route],
    // What is read of each route.
    entries: Vec<ChildEntry>,
    // The indexes of the routes without an equality matcher.
    unfiled: Vec<usize>,
    // The others, by the name that they are filed under, and then by the value.
    names: Vec<NameIndex<'t>>,
}

impl<'t> Model for ChildIndex<'t> {
    ghost use Rattle.am_config.specs.contracts.route.Routes as forests;
    ghost use Rattle.am_config.specs.Routes.{Forest};

    ghost Value = { Forest };

    ghost coded = { forests.the_row.coded };

    ghost use Rattle.am_config.specs.RouteLists.{forest_of};
    ghost use Rattle.am_routes.specs.inside.ChildIndexes.{AreKeptOf};

    ghost view = { λ c. forest_of c.routes.now };

    ghost invariant = { λ c. AreKeptOf (forest_of c.routes.now) c.entries.items c.unfiled.items c.names.items };
}

impl<'t> ChildIndex<'t> {
    /// The index of no routes. It takes no memory.
    pub(crate) fn none(alloc: Global) -> ChildIndex<'t>
        ensures { result ≡ no_routes }
    {
        ChildIndex {
            routes: &[],
            entries: Vec::new(alloc),
            unfiled: Vec::new(alloc),
            names: Vec::new(alloc),
        }
    }

    /// The index of routes that come so far after the one above.
    pub(crate) fn new(
        alloc: Global,
        routes: &'t [Route],
        offsets: &[usize],
    ) -> Result<ChildIndex<'t>, AllocError>
        requires { offsets.now ≡ offsets_from 1 (forest_of routes.now) }
        ensures { IfOk result (λ index. index ≡ forest_of routes.now) }
    {
        Ok(ChildIndex {
            routes,
            entries: entries(alloc, routes, offsets)?,
            unfiled: unfiled(alloc, routes)?,
            names: index_names(alloc, routes)?,
        })
    }

    /// The routes that may match a label set.
    #[inline(always)]
    pub(crate) fn candidates<'i>(&'i self, labels: &'i LabelSet) -> Candidates<'i, 't>
        ensures { result ≡ record { labels = labels.now; from = 0; routes = self.now } }
    {
        Candidates::new(
            self.routes,
            &self.entries,
            &self.unfiled,
            &self.names,
            labels,
        )
    }
}

// What is read of each route.
fn entries(
    alloc: Global,
    routes: &[Route],
    offsets: &[usize],
) -> Result<Vec<ChildEntry>, AllocError>
    requires { offsets.now ≡ offsets_from 1 (forest_of routes.now) }
    ensures { IfOk result (λ entries. entries.items ≡ entries_from 1 (forest_of routes.now)) }
{
    let mut entries = Vec::with_capacity(alloc, routes.len())?;
    for at in 0..routes.len() {
        entries.push(ChildEntry::of(&routes[at], offsets[at]))?;
    }
    Ok(entries)
}

// The indexes of the routes without an equality matcher.
fn unfiled(alloc: Global, routes: &[Route]) -> Result<Vec<usize>, AllocError>
    ensures { IfOk result (λ places.
        places.items ≡ places_from is_unfiled 0 (filings (forest_of routes.now))) }
{
    let mut places = Vec::new(alloc);
    for at in 0..routes.len() {
        if first_equality(routes[at].matchers.as_slice()).is_none() {
            places.push(at)?;
        }
    }
    Ok(places)
}

// An index for each name that a route is filed under.
fn index_names<'t>(alloc: Global, routes: &'t [Route]) -> Result<Vec<NameIndex<'t>>, AllocError>
    ensures { IfOk result (λ indexes.
        AreIndexesOf (filings (forest_of routes.now)) indexes.items) }
{
    let mut indexes = Vec::new(alloc);
    for route in routes {
        if let Some(matcher) = first_equality(route.matchers.as_slice()) {
            if !is_of(&indexes, matcher.name()) {
                indexes.push(NameIndex::of(alloc, matcher.name(), routes)?)?;
            }
        }
    }
    Ok(indexes)
}

// Whether one of some indexes is of a name.
fn is_of(indexes: &[NameIndex<'_>], name: &str) -> bool
    ensures { result ≡ has_name name.now indexes.now }
{
    for index in indexes {
        if name == index.name() {
            return true;
        }
    }
    false
}
