//! Asking a routing tree which of its routes a label set matches.
//!
//! `matches_into` is for who asks often: a list's memory is a seventh of an answer. `looked` counts in
//! a call of its own; in a field it would be a part of what `matches` leaves as it was.

ghost use Rattle.std.specs.Prelude.{◌≡◌, ◌+◌, ◌<◌, [], ◌∷◌, ◌++◌, get_or, length, min, true, IfOk, OnErr, OnOk};
ghost use Rattle.am_matchers.specs.Matchers.{all_admitted};
ghost use Rattle.am_config.specs.RouteLists.{forest_of, root_of, route_view};
ghost use Rattle.am_routes.specs.Looking.{routes_looked_at};
ghost use Rattle.am_routes.specs.RouteAnswers.{answer_of, IsAnswerOf};
ghost use Rattle.am_routes.specs.inside.ChildIndexes.{has_no_routes, is_nil, other_matchers};
ghost use Rattle.am_routes.specs.inside.Searches.{levels_of, nodes_in, others_of};
ghost use Rattle.am_routes.specs.inside.Searches.{AddsAnswers, AddsLooked, AreSearchesOf, BeginAt};

use crate::child_index::ChildIndex;
use crate::route_id::RouteId;
use am_config::{Route, RouteTree};
use am_labels::LabelSet;
use am_matchers::{Matchers, Operator, PreparedMatchers};
use std::alloc::{AllocError, Global};
use std::marker::Model;
use std::{fmt, mem};

/// A routing tree made ready to be asked many times: its matchers' searches are kept, so that
/// asking compiles no pattern. Contracts see it as the tree's routes.
#[derive(Drop)]
pub struct PreparedTree<'t> {
    tree: &'t RouteTree,
    searches: Searches<'t>,
    // What was found last, and the numbers of it. Their memory is used again.
    found: Found<'t>,
    ids: Vec<RouteId>,
}

impl<'t> Model for PreparedTree<'t> {
    ghost use Rattle.std.specs.Prelude.{◌≡◌};
    ghost use Rattle.am_config.specs.contracts.route.Routes as routes;
    ghost use Rattle.am_config.specs.Routes.{Forest};

    ghost Value = { Forest };

    ghost coded = { routes.the_row.coded };

    ghost use Rattle.am_config.specs.RouteLists.{root_of};
    ghost use Rattle.am_routes.specs.inside.Searches.{AreSearchesOf};

    ghost view = { λ p. root_of p.tree.now };

    ghost invariant = { λ p. AreSearchesOf p.tree.now.root p.searches };
}

impl<'t> PreparedTree<'t> {
    ghost use Rattle.am_config.specs.RouteLists.{root_of};
    ghost use Rattle.am_routes.specs.RouteAnswers.{IsAnswerOf};

    /// The tree made ready. It borrows the tree's patterns and compiles none.
    pub fn new(alloc: Global, tree: &'t RouteTree) -> Result<PreparedTree<'t>, AllocError>
        ensures { IfOk result (λ prepared. prepared ≡ root_of tree.now) }
    {
        let mut searches = Searches {
            root: tree.root.matchers.prepare(alloc)?,
            levels: Vec::new(alloc),
            others: Vec::new(alloc),
        };
        prepare(alloc, &tree.root, &mut searches)?;
        Ok(PreparedTree {
            tree,
            searches,
            found: Found::nothing(alloc),
            ids: Vec::new(alloc),
        })
    }

    /// The routes that a label set matches, in pre-order. A route whose matchers fail gives nothing.
    /// The routes below a route are asked in order; after one that gave something and doesn't
    /// continue no more are asked. If none gave anything, the route itself is the answer.
    pub fn matches(&mut self, labels: &LabelSet) -> Result<Vec<RouteId>, AllocError>
        ensures answer { IfOk result (λ ids. IsAnswerOf labels.now self.old ids.items) }
        ensures same { self.new ≡ self.old }
    {
        search_anew(&mut self.searches, &self.tree.root, labels, &mut self.found)?;
        let mut ids = Vec::with_capacity(*self.ids.allocator(), self.found.routes.len())?;
        self.found.add_ids(&mut ids)?;
        Ok(ids)
    }

    /// As `matches`, into a list that the caller has, in place of what it held. It and a list of the
    /// tree's change places, so that no answer takes memory once both are long enough.
    pub fn matches_into(
        &mut self,
        labels: &LabelSet,
        ids: &mut Vec<RouteId>,
    ) -> Result<(), AllocError>
        ensures answer { OnOk result (IsAnswerOf labels.now self.old ids.new.items) }
        ensures refused { OnErr result (ids.new.items ≡ ids.old.items) }
        ensures same { self.new ≡ self.old }
    {
        search_anew(&mut self.searches, &self.tree.root, labels, &mut self.found)?;
        self.ids.clear();
        self.found.add_ids(&mut self.ids)?;
        mem::swap(ids, &mut self.ids);
        Ok(())
    }

    /// How many of the routes below the root `matches` looks at for a label set. A route that asks for
    /// another value by its first equality matcher isn't looked at. The count stops at the greatest
    /// u64.
    pub fn looked(&mut self, labels: &LabelSet) -> Result<u64, AllocError>
        ensures looked { IfOk result (λ looked.
            looked ≡ min (routes_looked_at labels.now self.old) u64.MAX) }
        ensures same { self.new ≡ self.old }
    {
        let mut found = Found::nothing(*self.found.routes.allocator());
        let root = &self.tree.root;
        search(&mut self.searches, root, labels, &mut found)?;
        Ok(found.looked())
    }

    /// As `matches`, with the routes themselves.
    pub(crate) fn find(&mut self, labels: &LabelSet) -> Result<Vec<FoundRoute<'t>>, AllocError>
        ensures found { IfOk result (λ found.
            nodes_in found.items ≡ answer_of labels.now 0 self.old) }
        ensures same { self.new ≡ self.old }
    {
        let mut found = Found::nothing(*self.found.routes.allocator());
        let root = &self.tree.root;
        search(&mut self.searches, root, labels, &mut found)?;
        Ok(found.routes)
    }
}

/// The routes that a label set matches, as [`PreparedTree::matches`] gives them. It prepares the tree
/// for this one question.
pub fn matching_routes(
    alloc: Global,
    tree: &RouteTree,
    labels: &LabelSet,
) -> Result<Vec<RouteId>, AllocError>
    ensures { IfOk result (λ ids. IsAnswerOf labels.now (root_of tree.now) ids.items) }
{
    PreparedTree::new(alloc, tree)?.matches(labels)
}

/// A route that a label set matches.
#[derive(Clone, Copy)]
pub(crate) struct FoundRoute<'t> {
    pub(crate) id: RouteId,
    pub(crate) route: &'t Route,
}

// What a search through the routes found so far.
#[derive(Drop)]
pub(crate) struct Found<'t> {
    routes: Vec<FoundRoute<'t>>,
    // How many routes below others it looked at. The count stops at the greatest u64.
    looked: u64,
}

impl<'t> Found<'t> {
    ghost use Rattle.am_routes.specs.inside.Searches.{ids_of};

    fn nothing(alloc: Global) -> Found<'t>
        ensures { (result.routes.items ≡ []) × (result.looked ≡ 0) }
    {
        Found {
            routes: Vec::new(alloc),
            looked: 0,
        }
    }

    // It keeps its memory.
    fn clear(&mut self)
        ensures { (self.new.routes.items ≡ []) × (self.new.looked ≡ 0) }
    {
        self.routes.clear();
        self.looked = 0;
    }

    fn add(&mut self, number: usize, route: &'t Route) -> Result<(), AllocError>
        ensures added { OnOk result (nodes_in self.new.routes.items ≡ nodes_in self.old.routes.items
            ++ record { number = number; route = route_view route.now } ∷ []) }
        ensures looked { OnOk result (self.new.looked ≡ self.old.looked) }
    {
        let id = RouteId(number as u64);
        self.routes.push(FoundRoute { id, route })?;
        Ok(())
    }

    fn looked(&self) -> u64
        ensures { result ≡ self.now.looked }
    {
        self.looked
    }

    fn add_ids(&self, ids: &mut Vec<RouteId>) -> Result<(), AllocError>
        ensures { OnOk result (ids.new.items
            ≡ ids.old.items ++ ids_of (nodes_in self.now.routes.items)) }
    {
        for one in &self.routes {
            ids.push(one.id)?;
        }
        Ok(())
    }
}

// What is kept to ask the routes of a tree.
#[derive(Drop)]
pub(crate) struct Searches<'t> {
    // The root's matchers.
    root: PreparedMatchers<'t>,
    // Of each route, in pre-order, the index of those below it.
    levels: Vec<ChildIndex<'t>>,
    // Of each route, in pre-order, the matchers that are asked once the index above it has settled the
    // first equality matcher: all but that one.
    others: Vec<PreparedMatchers<'t>>,
}

// Adds the searches of a route and of those below it, in pre-order.
fn prepare<'t>(
    alloc: Global,
    route: &'t Route,
    searches: &mut Searches<'t>,
) -> Result<(), AllocError>
    ensures levels { OnOk result (searches.new.levels.items
        ≡ searches.old.levels.items ++ levels_of (forest_of (route.now ∷ []))) }
    ensures others { OnOk result (searches.new.others.items
        ≡ searches.old.others.items ++ others_of (forest_of (route.now ∷ []))) }
    ensures root { OnOk result (searches.new.root ≡ searches.old.root) }
{
    let number = searches.levels.len();
    let children = route.children.as_slice();
    searches.levels.push(ChildIndex::none(alloc))?;
    searches
        .others
        .push(prepare_others(alloc, &route.matchers)?)?;
    let mut offsets = Vec::with_capacity(alloc, children.len())?;
    for child in children {
        offsets.push(searches.levels.len() - number)?;
        prepare(alloc, child, searches)?;
    }
    searches.levels[number] = ChildIndex::new(alloc, children, &offsets)?;
    Ok(())
}

// Matchers made ready, without the first of them that is an equality matcher.
fn prepare_others(alloc: Global, matchers: &Matchers) -> Result<PreparedMatchers<'_>, AllocError>
    ensures { IfOk result (λ others. others ≡ other_matchers matchers.now) }
{
    let mut others = Vec::new(alloc);
    let mut is_passed = false;
    for matcher in matchers.as_slice() {
        if !is_passed && matcher.operator() == Operator::Equal {
            is_passed = true;
        } else {
            others.push(matcher.prepare()?)?;
        }
    }
    Ok(PreparedMatchers::new(others))
}

// Asks a tree, and adds the routes that a label set matches.
fn search<'t>(
    searches: &mut Searches<'t>,
    root: &'t Route,
    labels: &LabelSet,
    found: &mut Found<'t>,
) -> Result<(), AllocError>
    requires { AreSearchesOf root.now searches.old }
    ensures found { OnOk result (AddsAnswers labels.now 0 root.now found.old found.new) }
    ensures looked { OnOk result (AddsLooked labels.now root.now found.old found.new) }
    ensures kept { AreSearchesOf root.now searches.new }
{
    if !searches.root.admits(labels) {
        return Ok(());
    }
    ask(
        &searches.levels,
        &mut searches.others,
        root,
        0,
        root.children.as_slice().is_empty(),
        labels,
        found,
    )
}

// Asks a tree for the routes that a label set matches, which are then all that was found.
fn search_anew<'t>(
    searches: &mut Searches<'t>,
    root: &'t Route,
    labels: &LabelSet,
    found: &mut Found<'t>,
) -> Result<(), AllocError>
    requires { AreSearchesOf root.now searches.old }
    ensures found { OnOk result (nodes_in found.new.routes.items
        ≡ answer_of labels.now 0 (forest_of (root.now ∷ []))) }
    ensures kept { AreSearchesOf root.now searches.new }
{
    found.clear();
    search(searches, root, labels, found)
}

// Adds those routes that a label set matches of a route that it matches, which has the number, and of
// those below it.
#[inline(always)]
#[cycle(ask)]
fn ask<'t>(
    levels: &[ChildIndex<'t>],
    others: &mut [PreparedMatchers<'t>],
    route: &'t Route,
    number: usize,
    is_leaf: bool,
    labels: &LabelSet,
    found: &mut Found<'t>,
) -> Result<(), AllocError>
    requires leaf { is_leaf ≡ has_no_routes route.now.children }
    requires levels { BeginAt number (levels_of (forest_of (route.now ∷ []))) levels.now }
    requires others { BeginAt number (others_of (forest_of (route.now ∷ []))) others.old }
    requires matches { all_admitted route.now.matchers labels.now ≡ true }
    ensures found { OnOk result (AddsAnswers labels.now number route.now found.old found.new) }
    ensures looked { OnOk result (AddsLooked labels.now route.now found.old found.new) }
    ensures same { others.new ≡ others.old }
{
    if is_leaf {
        found.add(number, route)
    } else {
        ask_below(levels, others, route, number, labels, found)
    }
}

// The same of a route with others below it.
#[cycle(ask)]
fn ask_below<'t>(
    levels: &[ChildIndex<'t>],
    others: &mut [PreparedMatchers<'t>],
    route: &'t Route,
    number: usize,
    labels: &LabelSet,
    found: &mut Found<'t>,
) -> Result<(), AllocError>
    requires levels { BeginAt number (levels_of (forest_of (route.now ∷ []))) levels.now }
    requires others { BeginAt number (others_of (forest_of (route.now ∷ []))) others.old }
    requires matches { all_admitted route.now.matchers labels.now ≡ true }
    ensures found { OnOk result (AddsAnswers labels.now number route.now found.old found.new) }
    ensures looked { OnOk result (AddsLooked labels.now route.now found.old found.new) }
    ensures same { others.new ≡ others.old }
{
    let had = found.routes.len();
    let mut candidates = levels[number].candidates(labels);
    let mut next = candidates.next();
    while let Some(child) = next {
        found.looked = found.looked.saturating_add(1);
        let at = number + child.entry.offset;
        next = if !others_admit(others, at, child.entry.is_settled, labels) {
            candidates.next()
        } else {
            let (below, leaf) = (child.route, child.entry.is_leaf);
            ask(levels, others, below, at, leaf, labels, found)?;
            if child.entry.continues {
                candidates.next()
            } else {
                None
            }
        };
    }
    if found.routes.len() == had {
        found.add(number, route)?;
    }
    Ok(())
}

// Whether those matchers of a route admit a label set that are asked once its first equality matcher is
// settled. If it is known that there are none, they aren't looked at.
#[inline(always)]
fn others_admit(
    others: &mut [PreparedMatchers<'_>],
    at: usize,
    is_settled: bool,
    labels: &LabelSet,
) -> bool
    requires within { at < length others.old }
    requires settled { is_settled ≡ is_nil (get_or others.old at []) }
    ensures answer { result ≡ all_admitted (get_or others.old at []) labels.now }
    ensures same { others.new ≡ others.old }
{
    if is_settled {
        return true;
    }
    others[at].admits(labels)
}

impl fmt::Debug for PreparedTree<'_> {
    fn fmt<W: fmt::Write>(&self, f: &mut fmt::Formatter<W>) -> fmt::Result {
        f.debug_struct("PreparedTree").finish_non_exhaustive()
    }
}
