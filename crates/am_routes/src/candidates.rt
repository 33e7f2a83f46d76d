//! Which of the routes below a route may match a label set, one after another.
//!
//! `next` looks each name of a level up again after a route that fails or continues, so it needs no
//! memory. A level of many names that all continue costs more than a walk.

ghost use Rattle.std.specs.Prelude.{◌≡◌, ◌+◌, drop, slice_get, IfSome};
ghost use Rattle.am_config.specs.RouteLists.{forest_of};
ghost use Rattle.am_routes.specs.Looking.{may_match};
ghost use Rattle.am_routes.specs.inside.ChildIndexes.{earlier, filings, without, AreKeptOf};
ghost use Rattle.am_routes.specs.inside.ChildIndexes.{IsFirstFrom, IsNextChild};

use crate::child_entry::ChildEntry;
use crate::name_index::NameIndex;
use am_config::Route;
use am_labels::LabelSet;
use std::marker::Model;

/// The routes below a route that may match a label set and come from an index on: the first equality
/// matcher of each, if it has any, admits the label set.
#[derive(Drop)]
pub(crate) struct Candidates<'i, 't> {
    routes: &'t [Route],
    // What is read of each route.
    entries: &'i [ChildEntry],
    labels: &'i LabelSet,
    // The index that the next one has at least.
    from: usize,
    // The indexes, from there on, of the routes without an equality matcher, and of those that the
    // first of the names has for its value.
    unfiled: &'i [usize],
    filed: &'i [usize],
    // The names that routes are filed under. What the others have for their values is looked up anew
    // for each candidate: most levels file their routes under one name.
    names: &'i [NameIndex<'t>],
}

/// One of the routes.
#[derive(Clone, Copy)]
pub(crate) struct Child<'t> {
    /// Its index among them.
    pub(crate) at: usize,
    /// What is read of it.
    pub(crate) entry: ChildEntry,
    pub(crate) route: &'t Route,
}

impl<'i, 't> Model for Candidates<'i, 't> {
    ghost use Rattle.am_config.specs.contracts.route.Routes as forests;
    ghost use Rattle.am_config.specs.RouteLists.{forest_of};
    ghost use Rattle.am_routes.specs.inside.ChildIndexes.{CandidatesView, coded_candidates, AreLeftOf};

    ghost Value = { CandidatesView };

    ghost coded = { coded_candidates forests.the_row.coded };

    ghost view = { λ c. record { labels = c.labels.now; from = c.from; routes = forest_of c.routes.now } };

    ghost invariant = { λ c. AreLeftOf c.labels.now c.from (forest_of c.routes.now)
        c.entries.now c.unfiled.now c.filed.now c.names.now };
}

impl<'i, 't> Candidates<'i, 't> {
    #[inline(always)]
    pub(crate) fn new(
        routes: &'t [Route],
        entries: &'i [ChildEntry],
        unfiled: &'i [usize],
        names: &'i [NameIndex<'t>],
        labels: &'i LabelSet,
    ) -> Candidates<'i, 't>
        requires { AreKeptOf (forest_of routes.now) entries.now unfiled.now names.now }
        ensures { result ≡ record { labels = labels.now; from = 0; routes = forest_of routes.now } }
    {
        let filed = match names.first() {
            Some(index) => index.places(labels),
            None => &[],
        };
        Candidates {
            routes,
            entries,
            labels,
            from: 0,
            unfiled,
            filed,
            names,
        }
    }

    /// The first of them, which is then no longer one of them.
    #[inline(always)]
    pub(crate) fn next(&mut self) -> Option<Child<'t>>
        ensures next { IsNextChild self.old.labels self.old.from self.old.routes result }
        ensures left { IfSome result (λ child. self.new ≡ record self.old { from = child.at + 1 }) }
    {
        let at = self.first_place()?;
        self.from = at + 1;
        self.unfiled = without(self.unfiled, at);
        self.filed = without(self.filed, at);
        Some(Child {
            at,
            entry: self.entries[at],
            route: &self.routes[at],
        })
    }

    // The index of the first of them.
    #[inline(always)]
    fn first_place(&self) -> Option<usize>
        ensures { IsFirstFrom (may_match self.now.labels) self.now.from (filings self.now.routes) result }
    {
        let mut first = earlier(first_of(self.unfiled), first_of(self.filed));
        for index in others(self.names) {
            first = earlier(first, index.next(self.labels, self.from));
        }
        first
    }
}

// The indexes of all but the first of some names.
#[inline(always)]
fn others<'i, 't>(names: &'i [NameIndex<'t>]) -> &'i [NameIndex<'t>]
    ensures { result.now ≡ drop 1 names.now }
{
    &names[names.len().min(1)..]
}

// The first of some indexes of routes.
#[inline(always)]
fn first_of(places: &[usize]) -> Option<usize>
    ensures { result ≡ slice_get places.now 0 }
{
    places.first().copied()
}

// Indexes of routes without one, if that is their first.
#[inline(always)]
fn without(places: &[usize], at: usize) -> &[usize]
    ensures { result.now ≡ without at places.now }
{
    match places.split_first() {
        Some((first, others)) if *first == at => others,
        _ => places,
    }
}

// The lower of two indexes.
#[inline(always)]
fn earlier(one: Option<usize>, other: Option<usize>) -> Option<usize>
    ensures { result ≡ earlier one other }
{
    match (one, other) {
        (Some(at), Some(other)) => Some(at.min(other)),
        (None, place) | (place, None) => place,
    }
}
