//! A matcher that keeps its pattern's search.

ghost use Rattle.std.specs.Prelude.{◌≡◌};

use crate::operator::Operator;
use crate::search::Search;
use am_labels::LabelSet;
use std::fmt;
use std::marker::Model;

/// A matcher made ready to be asked many times: asking it takes no memory. Contracts see it as the
/// matcher that it was made of.
#[derive(Drop)]
pub struct PreparedMatcher<'m> {
    name: &'m str,
    value: &'m str,
    search: Search<'m>,
}

impl<'m> Model for PreparedMatcher<'m> {
    ghost use Rattle.am_matchers.specs.contracts.operator.Operator as operator;
    ghost use Rattle.am_matchers.specs.Matchers.{MatcherView, coded_matcher};
    ghost use Rattle.am_matchers.specs.inside.Searches.{IsSearchWith, searched_operator};

    ghost Value = { MatcherView };

    ghost coded = { coded_matcher operator.the_row.coded };

    ghost view = { λ m. record {
      name = m.name.now;
      operator = searched_operator m.search;
      value = m.value.now;
    } };

    ghost invariant = { λ m. IsSearchWith m.value.now m.search };
}

impl<'m> PreparedMatcher<'m> {
    ghost use Rattle.am_matchers.specs.Matchers.{admitted};
    ghost use Rattle.am_matchers.specs.inside.Searches.{IsSearchWith, searched_operator};

    pub(crate) fn new(name: &'m str, value: &'m str, search: Search<'m>) -> PreparedMatcher<'m>
        requires { IsSearchWith value.now search }
        ensures { result ≡ record {
          name = name.now;
          operator = searched_operator search.entry;
          value = value.now;
        } }
    {
        PreparedMatcher {
            name,
            value,
            search,
        }
    }

    /// The name of the label that it looks at.
    pub fn name(&self) -> &str
        ensures { result.now ≡ self.now.name }
    {
        self.name
    }

    pub fn operator(&self) -> Operator
        ensures { result ≡ self.now.operator }
    {
        self.search.operator()
    }

    /// The text or the pattern that it compares the label's value with.
    pub fn value(&self) -> &str
        ensures { result.now ≡ self.now.value }
    {
        self.value
    }

    /// Whether it admits a label set. A missing label counts as empty. It takes no memory.
    pub fn admits(&mut self, labels: &LabelSet) -> bool
        ensures answer { result ≡ admitted self.old labels.now }
        ensures same { self.new ≡ self.old }
    {
        let found = labels.get(self.name);
        self.search.accepts(self.value, found)
    }
}

impl fmt::Debug for PreparedMatcher<'_> {
    fn fmt<W: fmt::Write>(&self, f: &mut fmt::Formatter<W>) -> fmt::Result {
        f.debug_struct("PreparedMatcher")
            .field("name", &self.name)
            .field("value", &self.value)
            .finish_non_exhaustive()
    }
}
