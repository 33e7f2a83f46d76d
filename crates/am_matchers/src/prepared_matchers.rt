//! A list of matchers that keep their patterns' searches.

ghost use Rattle.std.specs.Prelude.{◌≡◌};

use crate::prepared_matcher::PreparedMatcher;
use am_labels::LabelSet;
use std::fmt;
use std::marker::Model;

/// Prepared matchers in order, seen by contracts as their list.
#[derive(Drop)]
pub struct PreparedMatchers<'m> {
    matchers: Vec<PreparedMatcher<'m>>,
}

impl<'m> Model for PreparedMatchers<'m> {
    ghost use Rattle.std.specs.Prelude.{List};
    ghost use Rattle.std.specs.Coded.{coded_list};
    ghost use Rattle.am_matchers.specs.contracts.operator.Operator as operator;
    ghost use Rattle.am_matchers.specs.Matchers.{MatcherView, coded_matcher};

    ghost Value = { List MatcherView };

    ghost coded = { coded_list (coded_matcher operator.the_row.coded) };

    ghost view = { λ a. a.matchers.items };
}

impl<'m> PreparedMatchers<'m> {
    ghost use Rattle.am_matchers.specs.Matchers.{all_admitted};

    pub fn new(matchers: Vec<PreparedMatcher<'m>>) -> PreparedMatchers<'m>
        ensures { result ≡ matchers.entry.items }
    {
        PreparedMatchers { matchers }
    }

    /// Whether each of them admits a label set; no matchers admit every one. It takes no
    /// memory.
    pub fn admits(&mut self, labels: &LabelSet) -> bool
        ensures answer { result ≡ all_admitted self.old labels.now }
        ensures same { self.new ≡ self.old }
    {
        for at in 0..self.matchers.len() {
            if !self.matchers[at].admits(labels) {
                return false;
            }
        }
        true
    }
}

impl<'m> fmt::Debug for PreparedMatchers<'m> {
    fn fmt<W: fmt::Write>(&self, f: &mut fmt::Formatter<W>) -> fmt::Result {
        f.debug_struct("PreparedMatchers").finish_non_exhaustive()
    }
}
