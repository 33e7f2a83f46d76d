//! The pattern of a value, anchored at both ends. Only `comparison.rt` and `search.rt` use it.

ghost use Rattle.std.specs.Prelude.{◌≡◌, IfOk, List, ℕ};
ghost use Rattle.am_matchers.specs.inside.Comparisons.{IsPatternOf, IsPatternReadOf};
ghost use Rattle.am_matchers.specs.inside.Searches.{found_by, SearchesFor};

use crate::choice::{choice_in, is_one_of};
use crate::match_fault::MatchFault;
use regex::{Error, Regex};
use std::alloc::{AllocError, Global};

/// A pattern, as it is kept.
#[derive(Debug, Drop)]
pub(crate) enum Pattern {
    /// One that chooses among these few texts. Nothing is compiled for it.
    Choice(Vec<Vec<u8>>),
    /// Any other.
    Compiled(Regex),
}

/// What finds a pattern in a text.
#[derive(Drop)]
pub(crate) enum PatternSearch<'p> {
    Choice(&'p [Vec<u8>]),
    // In memory of its own, since it takes four kilobytes.
    Compiled(Box<regex::Matcher<'p>>),
}

impl Pattern {
    /// The pattern of a value.
    pub(crate) fn read(alloc: Global, value: &str) -> Result<Pattern, MatchFault>
        ensures { IsPatternReadOf value.now result }
    {
        let source = format!(in alloc; "^(?:{value})$")?;
        if let Some(texts) = choice_in(alloc, source.as_str())? {
            return Ok(Pattern::Choice(texts));
        }
        match Regex::new(alloc, source.as_str()) {
            Ok(regex) => Ok(Pattern::Compiled(regex)),
            Err(Error::OutOfMemory) => Err(MatchFault::NoMemory),
            Err(_) => Err(MatchFault::BadPattern),
        }
    }

    /// What finds it. Only one that is compiled takes memory.
    pub(crate) fn search(&self, alloc: Global) -> Result<PatternSearch<'_>, AllocError>
        ensures { IfOk result (λ search.
            (value : List ℕ) → IsPatternOf value self.now → SearchesFor value search) }
    {
        Ok(match self {
            Pattern::Choice(texts) => PatternSearch::Choice(texts),
            Pattern::Compiled(regex) => {
                PatternSearch::Compiled(Box::new(alloc, regex.matcher(alloc)?)?)
            }
        })
    }
}

impl<'p> PatternSearch<'p> {
    /// Whether the pattern is found in a text.
    pub(crate) fn finds(&mut self, text: &str) -> bool
        ensures answer { result ≡ found_by self.old text.now }
        ensures same { (any : List ℕ) → found_by self.new any ≡ found_by self.old any }
    {
        match self {
            PatternSearch::Choice(texts) => is_one_of(text, texts),
            PatternSearch::Compiled(regex) => regex.is_match(text),
        }
    }
}
