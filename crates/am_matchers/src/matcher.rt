//! Matchers: conditions on the value of one label.
//!
//! A `Regex` can't be in one value with the search that borrows it, so `Matcher` keeps the pattern
//! and a `PreparedMatcher` the search: 450 instructions and no allocation a question, where
//! `admits` takes 45,000.

ghost use Rattle.std.specs.Prelude.{◌≡◌, IfOk, OnErr, true};

use crate::comparison::Comparison;
use crate::match_fault::MatchFault;
use crate::matcher_text::{read_value, split};
use crate::operator::Operator;
use crate::prepared_matcher::PreparedMatcher;
use am_labels::{LabelSet, Text};
use std::alloc::{AllocError, Global};
use std::marker::Model;

/// A condition on the value of one label, as `name="value"`. Contracts see it as its name, its
/// operator and its value. Its pattern is always the one of its value.
#[derive(Debug, Drop)]
pub struct Matcher {
    name: Text,
    value: Text,
    comparison: Comparison,
}

impl Model for Matcher {
    ghost use Rattle.am_matchers.specs.contracts.operator.Operator as operator;
    ghost use Rattle.am_matchers.specs.Matchers.{MatcherView, coded_matcher};
    ghost use Rattle.am_matchers.specs.inside.Comparisons.{IsComparisonWith, operator_of};

    ghost Value = { MatcherView };

    ghost coded = { coded_matcher operator.the_row.coded };

    ghost view = { λ m. record {
      name = m.name;
      operator = operator_of m.comparison;
      value = m.value;
    } };

    ghost invariant = { λ m. IsComparisonWith m.value m.comparison };
}

impl Matcher {
    ghost use Rattle.am_matchers.specs.Matchers.{admitted, is_of_pattern, IsReadable, IsReadingOf};

    /// The matcher of a text. The value of `=~` and `!~` is a pattern of `regex`, which is compiled
    /// here unless it chooses among few plain texts.
    pub fn read(alloc: Global, text: &str) -> Result<Matcher, MatchFault>
        ensures { IsReadingOf text.now result }
    {
        let parts = split(text)?;
        let Some(value) = read_value(alloc, parts.raw)? else {
            return Err(MatchFault::BadQuote);
        };
        let comparison = Comparison::new(alloc, parts.operator, value.as_str())?;
        Ok(Matcher {
            name: Text::from_str(alloc, parts.name)?,
            value,
            comparison,
        })
    }

    /// The name of the label that it looks at.
    pub fn name(&self) -> &str
        ensures { result.now ≡ self.now.name }
    {
        self.name.as_str()
    }

    pub fn operator(&self) -> Operator
        ensures { result ≡ self.now.operator }
    {
        self.comparison.operator()
    }

    /// The text or the pattern that it compares the label's value with.
    pub fn value(&self) -> &str
        ensures { result.now ≡ self.now.value }
    {
        self.value.as_str()
    }

    /// The matcher made ready to be asked many times. Only a pattern takes memory.
    pub fn prepare(&self) -> Result<PreparedMatcher<'_>, AllocError>
        ensures prepared { IfOk result (λ prepared. prepared ≡ self.now) }
        ensures memory { OnErr result (is_of_pattern self.now.operator ≡ true) }
    {
        let search = self.comparison.search(self.value.allocator())?;
        Ok(PreparedMatcher::new(self.name.as_str(), self.value.as_str(), search))
    }

    /// Whether it admits a label set. A missing label counts as empty. Only a pattern takes memory,
    /// and takes it at each call; a caller who asks often uses `prepare`.
    pub fn admits(&mut self, labels: &LabelSet) -> Result<bool, AllocError>
        ensures answer { IfOk result (λ answer. answer ≡ admitted self.old labels.now) }
        ensures memory { OnErr result (is_of_pattern self.old.operator ≡ true) }
        ensures same { self.new ≡ self.old }
    {
        Ok(self.prepare()?.admits(labels))
    }
}
