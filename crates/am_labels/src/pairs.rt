//! Names with values that lie one after another in one text.

ghost use Rattle.std.specs.Prelude.{◌≡◌, ◌+◌, ◌*◌, ◌^◌, ◌<◌, [], ◌∷◌, ◌++◌, get_or, IfErr, IfOk, IsTrue, length, slice_range};
ghost use Rattle.am_labels.specs.LabelLaws.{concatenated};
ghost use Rattle.am_labels.specs.inside.Spans.{pair_from, start_of, IsSpanFrom};

use std::alloc::{AllocError, Global};
use std::marker::Model;

/// The ends of a name and of its value: the name ends at `middle`, the value, which begins there, at `end`. The name
/// begins where the pair before it ends.
#[derive(Clone, Copy, Debug, Drop)]
pub struct Span {
    middle: u32,
    end: u32,
}

// Both ends are compared as one number: label sets are compared while a provider is locked.
impl PartialEq for Span {
    ghost use Rattle.std.specs.Cmp.{partial_equiv_from_equiv};
    ghost use Rattle.am_labels.specs.inside.Spans.{same_span, same_span_equiv};

    ghost eq = { same_span };

    ghost laws = { partial_equiv_from_equiv same_span_equiv };

    fn eq(&self, other: &Span) -> bool {
        self.ends() == other.ends()
    }
}

impl Span {
    fn ends(self) -> u64
        ensures value { result ≡ self.end * 2 ^ 32 + self.middle }
        ensures bound { self.middle < 2 ^ 32 }
    {
        (self.end as u64) * (1 << 32) + self.middle as u64
    }

    fn name_and_value(self, text: &str, start: u32) -> (&str, &str)
        requires { IsSpanFrom text.now start self }
        ensures { (result.0.now, result.1.now) ≡ pair_from text.now start self }
    {
        let (start, middle) = (start as usize, self.middle as usize);
        (&text[start..middle], &text[middle..self.end as usize])
    }
}

/// Names with values, seen by contracts as their list. It gives them one after another.
#[derive(Debug, Drop)]
pub struct Pairs<'a> {
    text: &'a str,
    // The first of those that are left begins here.
    start: u32,
    spans: &'a [Span],
}

impl<'a> Model for Pairs<'a> {
    ghost use Rattle.std.specs.Prelude.{List, ℕ};
    ghost use Rattle.am_labels.specs.inside.Spans.{pairs_from, AreSpansFrom};

    ghost Value = { List (List ℕ × List ℕ) };

    ghost view = { λ p. pairs_from p.text.now p.start p.spans.now };

    ghost invariant = { λ p. AreSpansFrom p.text.now p.start p.spans.now };
}

impl<'a> Iterator for Pairs<'a> {
    type Item = (&'a str, &'a str);

    ghost use Rattle.std.specs.Iterator.{YieldsFirstBy, item_count};

    ghost next_gives = { YieldsFirstBy (λ pair. (pair.0.now, pair.1.now)) (λ pairs. pairs) };

    ghost remaining = { item_count (λ pairs. pairs) };

    fn next(&mut self) -> Option<(&'a str, &'a str)> {
        let (span, others) = self.spans.split_first()?;
        let pair = span.name_and_value(self.text, self.start);
        self.start = span.end;
        self.spans = others;
        Some(pair)
    }
}

impl<'a> Pairs<'a> {
    /// None.
    pub(crate) fn none() -> Pairs<'a>
        ensures { result ≡ [] }
    {
        Pairs {
            text: "",
            start: 0,
            spans: &[],
        }
    }

    /// How many are left.
    #[tactic(auto, using(crate::proofs::Spans::as_many))]
    pub fn len(&self) -> usize
        ensures { result ≡ length self.now }
    {
        self.spans.len()
    }

    /// Whether the pairs lie alike in texts that are the same, and so are the same.
    pub(crate) fn lie_as(&self, others: &Pairs<'_>) -> bool
        ensures { IsTrue result → self.now ≡ others.now }
    {
        self.text == others.text && self.start == others.start && self.spans == others.spans
    }

    /// One of those that are left.
    #[tactic(auto, using(crate::proofs::Spans::as_many, crate::proofs::Spans::span_at, crate::proofs::Spans::pair_at))]
    pub(crate) fn at(&self, at: usize) -> (&'a str, &'a str)
        requires { at < length self.now }
        ensures { (result.0.now, result.1.now) ≡ get_or self.now at ([], []) }
    {
        let spans = self.spans;
        let start = start_of(self.start, spans, at);
        spans[at].name_and_value(self.text, start)
    }
}

// The byte with which the name at a place begins.
#[tactic(auto, using(crate::proofs::Spans::start_after))]
fn start_of(first: u32, spans: &[Span], at: usize) -> u32
    requires { at < length spans.now }
    ensures { result ≡ start_of first spans.now at }
{
    match at.checked_sub(1) {
        Some(before) => spans[before].end,
        None => first,
    }
}

/// Names with values that are put after each other, seen by contracts as their list. They lie in two
/// blocks of memory, which a buffer that is cleared keeps for the next ones.
#[derive(Debug, Drop)]
pub struct PairBuffer {
    text: String,
    spans: Vec<Span>,
}

impl Model for PairBuffer {
    ghost use Rattle.std.specs.Prelude.{List, ℕ, string_bytes};
    ghost use Rattle.am_labels.specs.inside.Spans.{pairs_from, AreSpansOfAll};

    ghost Value = { List (List ℕ × List ℕ) };

    ghost view = { λ b. pairs_from (string_bytes b.text) 0 b.spans.items };

    ghost invariant = { λ b. AreSpansOfAll (string_bytes b.text) b.spans.items };
}

impl PairBuffer {
    /// No pairs. It takes no memory.
    pub fn new(alloc: Global) -> PairBuffer
        ensures { result ≡ [] }
    {
        PairBuffer {
            text: String::new(alloc),
            spans: Vec::new(alloc),
        }
    }

    /// No pairs, with room for a number of them in a number of bytes.
    pub(crate) fn with_capacity(
        alloc: Global,
        pairs: usize,
        bytes: usize,
    ) -> Result<PairBuffer, AllocError>
        ensures { IfOk result (λ buffer. buffer ≡ []) }
    {
        Ok(PairBuffer {
            text: String::with_capacity(alloc, bytes)?,
            spans: Vec::with_capacity(alloc, pairs)?,
        })
    }

    /// Puts a name with its value after the others. If memory runs out, or the texts would take 4 GiB, the pairs stay as
    /// they were.
    pub fn push(&mut self, name: &str, value: &str) -> Result<(), AllocError>
        ensures pushed { IfOk result (λ done. self.new ≡ self.old ++ (name.now, value.now) ∷ []) }
        ensures kept { IfErr result (λ fault. self.new ≡ self.old) }
    {
        self.spans.reserve(1)?;
        let (start, middle) = (self.text.len(), self.text.len() + name.len());
        let Ok(end) = u32::try_from(middle.saturating_add(value.len())) else {
            return Err(AllocError);
        };
        self.text.push_str(name)?;
        if self.text.push_str(value).is_err() {
            self.text.truncate(start);
            return Err(AllocError);
        }
        self.spans.push(Span {
            middle: middle as u32,
            end,
        })?;
        Ok(())
    }

    /// Drops all pairs, and keeps their memory.
    pub fn clear(&mut self)
        ensures { self.new ≡ [] }
    {
        self.spans.clear();
        self.text.clear();
    }

    pub fn as_pairs(&self) -> Pairs<'_>
        ensures { result ≡ self.now }
    {
        Pairs {
            text: self.text.as_str(),
            start: 0,
            spans: self.spans.as_slice(),
        }
    }

    /// Each name with its value after it, one pair after another.
    #[tactic(auto, using(crate::proofs::Spans::all_concatenated))]
    pub(crate) fn concatenated(&self) -> &str
        ensures { result.now ≡ concatenated self.now }
    {
        self.text.as_str()
    }

    /// The same pairs once more, in blocks that have no room to spare.
    pub(crate) fn copy(&self, alloc: Global) -> Result<PairBuffer, AllocError>
        ensures { IfOk result (λ copy. copy ≡ self.now) }
    {
        Ok(PairBuffer {
            text: String::from_str(alloc, self.text.as_str())?,
            spans: self.spans.clone()?,
        })
    }
}
