//! How routes are found by the value that they ask of one label.

ghost use Rattle.std.specs.Prelude.{◌≡◌, ◌++◌, [], ◌∷◌, ℕ, List, Option, if◌then◌else◌, IfOk, OnOk, bytes_eq, nat_le};
ghost use Rattle.std.specs.List.{find};
ghost use Rattle.std.specs.Option.{option_copied};
ghost use Rattle.std.specs.List.Sorted.{IsNonDecreasing};
ghost use Rattle.am_config.specs.RouteLists.{forest_of};
ghost use Rattle.am_labels.specs.LabelSets.{value_of};
ghost use Rattle.am_matchers.specs.Matchers.{MatcherView};
ghost use Rattle.am_routes.specs.Looking.{first_equality};
ghost use Rattle.am_routes.specs.inside.ChildIndexes.{filings, is_filed, indexes_kept, IsFirstFrom, IsIndexOf};

use am_config::Route;
use am_labels::LabelSet;
use am_matchers::{Matcher, Operator};
use smallvec::SmallVec;
use std::alloc::{AllocError, Global};
use std::collections::HashMap;

/// Those of some routes whose first equality matcher is of one name, by the value that it asks for.
#[derive(Drop)]
pub(crate) struct NameIndex<'t> {
    name: &'t str,
    // The indexes of the routes, in their order. One alone, as most values have it, needs no list of its
    // own.
    values: HashMap<&'t str, SmallVec<usize, 1>>,
}

impl<'t> NameIndex<'t> {
    /// The index of those routes.
    pub(crate) fn of(
        alloc: Global,
        name: &'t str,
        routes: &'t [Route],
    ) -> Result<NameIndex<'t>, AllocError>
        ensures name { IfOk result (λ index. index.name.now ≡ name.now) }
        ensures index { IfOk result (λ index. IsIndexOf (filings (forest_of routes.now)) index) }
    {
        let mut index = NameIndex {
            name,
            values: HashMap::new(alloc),
        };
        for at in 0..routes.len() {
            if let Some(matcher) = first_equality(routes[at].matchers.as_slice()) {
                if matcher.name() == name {
                    index.add(matcher.value(), at)?;
                }
            }
        }
        Ok(index)
    }

    // Adds the index of a route that asks for a value.
    fn add(&mut self, value: &'t str, at: usize) -> Result<(), AllocError>
        ensures added { OnOk result ((wanted : List ℕ) → indexes_kept wanted self.new
            ≡ indexes_kept wanted self.old ++ (if bytes_eq wanted value.now then at ∷ [] else [])) }
        ensures name { OnOk result (self.new.name.now ≡ self.old.name.now) }
    {
        self.values.entry(value)?.or_default().push(at)?;
        Ok(())
    }

    pub(crate) fn name(&self) -> &str
        ensures { result.now ≡ self.now.name.now }
    {
        self.name
    }

    /// The indexes of its routes that ask for the value that a label set has. A missing label counts as
    /// empty.
    pub(crate) fn places(&self, labels: &LabelSet) -> &[usize]
        ensures { result.now ≡ indexes_kept (value_of labels.now self.now.name.now) self.now }
    {
        match self.values.get(labels.get(self.name)) {
            Some(places) => places.as_slice(),
            None => &[],
        }
    }

    /// The first of these that isn't below an index.
    pub(crate) fn next(&self, labels: &LabelSet, from: usize) -> Option<usize>
        ensures { (all : List (Option MatcherView)) → IsIndexOf all self.now → IsFirstFrom
            (is_filed self.now.name.now (value_of labels.now self.now.name.now)) from all result }
    {
        place_from(self.places(labels), from)
    }
}

/// The first of some matchers that asks for one value.
pub(crate) fn first_equality<'m>(matchers: &'m [Matcher]) -> Option<&'m Matcher>
    ensures { option_copied result ≡ first_equality matchers.now }
{
    for matcher in matchers {
        if matcher.operator() == Operator::Equal {
            return Some(matcher);
        }
    }
    None
}

// The first of some rising indexes that isn't below one.
fn place_from(places: &[usize], from: usize) -> Option<usize>
    ensures { IsNonDecreasing places.now → result ≡ find (nat_le from) places.now }
{
    places
        .get(places.partition_point(|place| *place < from))
        .copied()
}
