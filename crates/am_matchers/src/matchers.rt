//! A list of matchers.

ghost use Rattle.std.specs.Prelude.{◌≡◌, IfOk, OnErr, true};
ghost use Rattle.std.specs.List.{list_any};
ghost use Rattle.am_matchers.specs.Matchers.{all_admitted, is_of_pattern};

use crate::matcher::Matcher;
use crate::prepared_matchers::PreparedMatchers;
use am_labels::LabelSet;
use std::alloc::{AllocError, Global};
use std::marker::Model;
use std::slice;

/// Matchers in order, seen by contracts as their list.
#[derive(Debug, Drop)]
pub struct Matchers {
    matchers: Vec<Matcher>,
}

impl Model for Matchers {
    ghost use Rattle.std.specs.Prelude.{List};
    ghost use Rattle.std.specs.Coded.{coded_list};
    ghost use Rattle.am_matchers.specs.contracts.matcher.Matcher as matcher;
    ghost use Rattle.am_matchers.specs.Matchers.{MatcherView};

    ghost Value = { List MatcherView };

    ghost coded = { coded_list matcher.the_row.coded };

    ghost view = { λ a. a.matchers.items };
}

impl Matchers {
    pub fn new(matchers: Vec<Matcher>) -> Matchers
        ensures { result ≡ matchers.items }
    {
        Matchers { matchers }
    }

    pub fn as_slice(&self) -> &[Matcher]
        ensures { result.now ≡ self.now }
    {
        &self.matchers
    }

    /// The matchers made ready to be asked many times.
    pub fn prepare(&self, alloc: Global) -> Result<PreparedMatchers<'_>, AllocError>
        ensures { IfOk result (λ prepared. prepared ≡ self.now) }
    {
        let mut matchers = Vec::with_capacity(alloc, self.matchers.len())?;
        for matcher in self.as_slice() {
            matchers.push(matcher.prepare()?)?;
        }
        Ok(PreparedMatchers::new(matchers))
    }

    /// Whether each of them admits a label set; no matchers admit every one. Only a pattern takes
    /// memory, and takes it at each call; a caller who asks often uses `prepare`.
    pub fn admits(&mut self, labels: &LabelSet) -> Result<bool, AllocError>
        ensures answer { IfOk result (λ answer. answer ≡ all_admitted self.old labels.now) }
        ensures memory { OnErr result
            (list_any (λ matcher. is_of_pattern matcher.operator) self.old ≡ true) }
        ensures same { self.new ≡ self.old }
    {
        for matcher in self.as_slice() {
            if !matcher.prepare()?.admits(labels) {
                return Ok(false);
            }
        }
        Ok(true)
    }
}

impl<'a> IntoIterator for &'a Matchers {
    type Item = &'a Matcher;

    type IntoIter = slice::Iter<'a, Matcher>;

    ghost use Rattle.std.specs.Prelude.{◌≡◌};
    ghost use Rattle.std.specs.Iterator.Runs.{EveryRun, ItemsMapTo};
    ghost use Rattle.std.specs.Slice.Iter.{iter_rest, iter_steps};
    ghost use Rattle.am_matchers.specs.Matchers.{MatcherView};

    ghost into_iter_gives = { λ list iter. (iter_rest iter ≡ list.now)
        × EveryRun (iter_steps {A = MatcherView}) (λ run. ItemsMapTo run (λ x. x.now) (iter_rest run.from)) };

    fn into_iter(self) -> slice::Iter<'a, Matcher> {
        self.matchers.iter()
    }
}
