//! How a matcher compares, with its pattern. Only `matcher.rt` uses it.

ghost use Rattle.std.specs.Prelude.{◌≡◌, IfOk, OnErr, true, List, ℕ};
ghost use Rattle.am_matchers.specs.Matchers.{is_of_pattern};
ghost use Rattle.am_matchers.specs.inside.Comparisons.{IsComparisonOf, IsComparisonWith, operator_of};
ghost use Rattle.am_matchers.specs.inside.Searches.{IsSearchWith, searched_operator};

use crate::match_fault::MatchFault;
use crate::operator::Operator;
use crate::pattern::Pattern;
use crate::search::Search;
use std::alloc::{AllocError, Global};

#[derive(Debug, Drop)]
pub(crate) enum Comparison {
    Equal,
    NotEqual,
    MatchRegexp(Pattern),
    MatchNotRegexp(Pattern),
}

impl Comparison {
    pub(crate) fn new(
        alloc: Global,
        operator: Operator,
        value: &str,
    ) -> Result<Comparison, MatchFault>
        ensures { IsComparisonOf operator value.now result }
    {
        Ok(match operator {
            Operator::Equal => Comparison::Equal,
            Operator::NotEqual => Comparison::NotEqual,
            Operator::MatchRegexp => Comparison::MatchRegexp(Pattern::read(alloc, value)?),
            Operator::MatchNotRegexp => Comparison::MatchNotRegexp(Pattern::read(alloc, value)?),
        })
    }

    pub(crate) fn operator(&self) -> Operator
        ensures { result ≡ operator_of self.now }
    {
        match self {
            Comparison::Equal => Operator::Equal,
            Comparison::NotEqual => Operator::NotEqual,
            Comparison::MatchRegexp(_) => Operator::MatchRegexp,
            Comparison::MatchNotRegexp(_) => Operator::MatchNotRegexp,
        }
    }

    /// The comparison with its pattern's search. Only a pattern takes memory.
    pub(crate) fn search(&self, alloc: Global) -> Result<Search<'_>, AllocError>
        ensures operator { IfOk result
            (λ search. searched_operator search ≡ operator_of self.now) }
        ensures search { IfOk result (λ search.
            (value : List ℕ) → IsComparisonWith value self.now → IsSearchWith value search) }
        ensures memory { OnErr result (is_of_pattern (operator_of self.now) ≡ true) }
    {
        Ok(match self {
            Comparison::Equal => Search::Equal,
            Comparison::NotEqual => Search::NotEqual,
            Comparison::MatchRegexp(pattern) => Search::MatchRegexp(pattern.search(alloc)?),
            Comparison::MatchNotRegexp(pattern) => Search::MatchNotRegexp(pattern.search(alloc)?),
        })
    }
}
