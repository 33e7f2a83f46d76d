//! How a prepared matcher compares, with its pattern's search. Only `prepared_matcher.rt` and
//! `comparison.rt` use it.

ghost use Rattle.std.specs.Prelude.{◌≡◌};
ghost use Rattle.am_matchers.specs.Matchers.{accepts};
ghost use Rattle.am_matchers.specs.inside.Searches.{searched_operator, IsSearchWith};

use crate::operator::Operator;
use crate::pattern::PatternSearch;

#[derive(Drop)]
pub(crate) enum Search<'r> {
    Equal,
    NotEqual,
    MatchRegexp(PatternSearch<'r>),
    MatchNotRegexp(PatternSearch<'r>),
}

impl<'r> Search<'r> {
    pub(crate) fn operator(&self) -> Operator
        ensures { result ≡ searched_operator self.now }
    {
        match self {
            Search::Equal => Operator::Equal,
            Search::NotEqual => Operator::NotEqual,
            Search::MatchRegexp(_) => Operator::MatchRegexp,
            Search::MatchNotRegexp(_) => Operator::MatchNotRegexp,
        }
    }

    /// Whether a label's value is accepted.
    pub(crate) fn accepts(&mut self, value: &str, found: &str) -> bool
        requires { IsSearchWith value.now self.old }
        ensures answer { result ≡ accepts (searched_operator self.old) value.now found.now }
        ensures operator { searched_operator self.new ≡ searched_operator self.old }
        ensures search { IsSearchWith value.now self.new }
    {
        match self {
            Search::Equal => found == value,
            Search::NotEqual => found != value,
            Search::MatchRegexp(pattern) => pattern.finds(found),
            Search::MatchNotRegexp(pattern) => !pattern.finds(found),
        }
    }
}
