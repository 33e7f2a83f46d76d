//! Label sets, by which Alertmanager identifies alerts.
//!
//! A sorted list of pairs under one `Arc`: names and values lie in one text, and a second block says
//! where each ends. So a set takes three blocks however many labels it has, a copy none, and its hash is
//! made once. One block would need raw memory: a shared text or slice of std takes two.

ghost use Rattle.std.specs.Prelude.{◌≡◌, ◌==◌, IfOk};
ghost use Rattle.std.specs.Prelude.{List, ℕ, map, option_map, Some, T};
ghost use Rattle.std.specs.Cmp.Lexicographic.{slice_cmp};
ghost use lib.Pointwise.{pointwise};
ghost use Rattle.std.specs.FinMap as map_of;
ghost use Rattle.std.specs.FinMap.Entries.{find, is_sorted};
ghost use Rattle.am_labels.specs.LabelLaws.{pair_cmp};
ghost use Rattle.am_labels.specs.Texts.{text_cmp};
ghost use Rattle.am_labels.specs.LabelSets.{Labels, bytes_of, last_holds, same_labels, same_pair, value_of};
ghost use Rattle.std.specs.Fmt.{DisplaysOnOk};
ghost use Rattle.am_labels.specs.Printing.{labels_text, pair_text, pairs_text};

use crate::label_name::LabelName;
use crate::pairs::{PairBuffer, Pairs};
use crate::quoted::Quoted;
use crate::shared_pairs::SharedPairs;
use crate::text::Text;
use std::alloc::{AllocError, Global};
use std::cmp::Ordering;
use std::collections::BTreeMap;
use std::fmt;
use std::hash::{Hash, Hasher};
use std::marker::Model;

/// A finite map from names to values. A look-up among n labels takes O(log n) comparisons. It never
/// changes, so its copies share one text of each name and value.
#[derive(Debug, Drop)]
pub struct LabelSet {
    // In byte order of names, each name once.
    pairs: SharedPairs,
}

impl Model for LabelSet {
    ghost use Rattle.std.specs.FinMap.{from_sorted};
    ghost use Rattle.std.specs.FinMap.Entries.{is_sorted};
    ghost use Rattle.std.specs.Prelude.{T};
    ghost use Rattle.am_labels.specs.Texts.{text_cmp};
    ghost use Rattle.am_labels.specs.LabelSets.{Labels, coded_labels};

    ghost Value = { Labels };

    ghost coded = { coded_labels };

    ghost view = { λ a. from_sorted {R = text_cmp} a.pairs };

    ghost invariant = { λ a. T (is_sorted text_cmp a.pairs) };
}

impl LabelSet {
    /// No labels. It takes no memory.
    pub fn new() -> LabelSet
        ensures { result ≡ map_of.empty }
    {
        LabelSet {
            pairs: SharedPairs::new(),
        }
    }

    /// The label set of these names and values. Of pairs with one name the last holds.
    pub fn from_pairs(alloc: Global, pairs: Vec<(String, String)>) -> Result<LabelSet, AllocError>
        ensures { IfOk result (λ labels. labels ≡ last_holds (map bytes_of pairs.items)) }
    {
        let mut texts = Vec::with_capacity(alloc, pairs.len())?;
        for (name, value) in pairs {
            texts.push((Text::new(name), Text::new(value)))?;
        }
        LabelSet::from_texts(alloc, texts)
    }

    /// The label set of these names and values. Of pairs with one name the last holds. It takes O(n)
    /// if the names come in byte order, each once, and else O(n log n).
    pub fn from_texts(alloc: Global, pairs: Vec<(Text, Text)>) -> Result<LabelSet, AllocError>
        ensures { IfOk result (λ labels. labels ≡ last_holds pairs.items) }
    {
        LabelSet::of(alloc, packed(alloc, &pairs)?)
    }

    /// The label set of a buffer's names and values. Of pairs with one name the last holds. It takes two
    /// blocks of memory, whose texts its copies share, and one that counts these.
    pub fn from_buffer(alloc: Global, pairs: &PairBuffer) -> Result<LabelSet, AllocError>
        ensures { IfOk result (λ labels. labels ≡ last_holds pairs.now) }
    {
        LabelSet::of(alloc, pairs.copy(alloc)?)
    }

    fn of(alloc: Global, pairs: PairBuffer) -> Result<LabelSet, AllocError>
        ensures { IfOk result (λ labels. labels ≡ last_holds pairs) }
    {
        if are_ascending(pairs.as_pairs()) {
            return LabelSet::from_ascending(alloc, pairs);
        }
        LabelSet::from_ascending(alloc, last_of_each(alloc, pairs.as_pairs())?)
    }

    fn from_ascending(alloc: Global, pairs: PairBuffer) -> Result<LabelSet, AllocError>
        requires { T (is_sorted text_cmp pairs) }
        ensures { IfOk result (λ labels. labels ≡ map_of.from_sorted {R = text_cmp} pairs) }
    {
        Ok(LabelSet {
            pairs: SharedPairs::from_buffer(alloc, pairs)?,
        })
    }

    /// How many names it has.
    pub fn len(&self) -> usize
        ensures { result ≡ map_of.len self.now }
    {
        self.pairs.as_pairs().len()
    }

    pub fn is_empty(&self) -> bool
        ensures { result ≡ (map_of.len self.now == 0) }
    {
        self.len() == 0
    }

    /// The value of a name, empty if the name is missing.
    pub fn get(&self, name: &str) -> &str
        ensures { result.now ≡ value_of self.now name.now }
    {
        match find(self.pairs.as_pairs(), name) {
            Some(value) => value,
            None => "",
        }
    }

    /// Whether it has the name, with whatever value.
    pub fn contains_name(&self, name: &str) -> bool
        ensures { result ≡ map_of.contains_key self.now name.now }
    {
        find(self.pairs.as_pairs(), name).is_some()
    }

    /// Names with their values, in byte order of names.
    pub fn names_and_values(&self) -> Pairs<'_>
        ensures { result ≡ map_of.entries self.now }
    {
        self.pairs.as_pairs()
    }

    /// Its clone.
    pub fn copy(&self) -> Result<LabelSet, AllocError>
        ensures { IfOk result (λ copy. copy ≡ self.now) }
    {
        self.clone()
    }
}

impl Clone for LabelSet {
    ghost is_clone = { λ labels clone. clone ≡ labels };

    /// The same label set once more, in O(1). It takes no memory, and fails only if there are 2^63
    /// clones already.
    fn clone(&self) -> Result<LabelSet, AllocError> {
        Ok(LabelSet {
            pairs: self.pairs.share()?,
        })
    }
}

// The pairs in one buffer.
fn packed(alloc: Global, pairs: &[(Text, Text)]) -> Result<PairBuffer, AllocError>
    ensures { IfOk result (λ packed. packed ≡ pairs.now) }
{
    let mut bytes = 0usize;
    for (name, value) in pairs {
        bytes = bytes
            .saturating_add(name.as_str().len())
            .saturating_add(value.as_str().len());
    }
    let mut packed = PairBuffer::with_capacity(alloc, pairs.len(), bytes)?;
    for (name, value) in pairs {
        packed.push(name.as_str(), value.as_str())?;
    }
    Ok(packed)
}

// Whether each name is greater than the one before it.
fn are_ascending(pairs: Pairs<'_>) -> bool
    ensures { result ≡ is_sorted text_cmp pairs.entry }
{
    let mut others = pairs;
    let Some((first, _)) = others.next() else {
        return true;
    };
    let mut last = first;
    for (name, _) in others {
        if last >= name {
            return false;
        }
        last = name;
    }
    true
}

// The pairs in byte order of names; of pairs with one name the last.
fn last_of_each(alloc: Global, pairs: Pairs<'_>) -> Result<PairBuffer, AllocError>
    ensures { IfOk result (λ sorted. sorted ≡ map_of.entries (last_holds pairs.entry)) }
{
    let mut sorted = BTreeMap::new(alloc);
    for (name, value) in pairs {
        sorted.insert(Text::from_str(alloc, name)?, Text::from_str(alloc, value)?)?;
    }
    let sorted: Vec<(Text, Text)> = sorted.into_iter().collect(alloc)?;
    packed(alloc, &sorted)
}

// Up to how many pairs comparing a name with each is faster than a binary search: most names differ
// in their lengths already.
const FEW: usize = 8;

// The value of a name among pairs in byte order of names.
fn find<'a>(pairs: Pairs<'a>, name: &str) -> Option<&'a str>
    requires { T (is_sorted text_cmp pairs) }
    ensures { option_map (λ value. value.now) result ≡ find text_cmp name.now pairs.entry }
{
    if pairs.len() <= FEW {
        find_among_few(pairs, name)
    } else {
        find_among_many(pairs, name)
    }
}

#[tactic(auto, using(crate::proofs::LabelSets::Searches::find_first, crate::proofs::LabelSets::Searches::find_later))]
fn find_among_few<'a>(pairs: Pairs<'a>, name: &str) -> Option<&'a str>
    requires { T (is_sorted text_cmp pairs) }
    ensures { option_map (λ value. value.now) result ≡ find text_cmp name.now pairs.entry }
{
    for (other, value) in pairs {
        if other == name {
            return Some(value);
        }
    }
    None
}

// By a binary search. It isn't put into its callers, which are short without it.
#[inline(never)]
fn find_among_many<'a>(pairs: Pairs<'a>, name: &str) -> Option<&'a str>
    requires { T (is_sorted text_cmp pairs) }
    ensures { option_map (λ value. value.now) result ≡ find text_cmp name.now pairs.entry }
{
    let (mut low, mut high) = (0, pairs.len());
    'halves: while low < high {
        let at = low + (high - low) / 2;
        let (other, value) = pairs.at(at);
        match other.cmp(name) {
            Ordering::Equal => return Some(value),
            Ordering::Less => low = at + 1,
            Ordering::Greater => high = at,
        }
    }
    None
}

// Whether two lists have the same names with the same values.
fn are_same(pairs: Pairs<'_>, others: Pairs<'_>) -> bool
    ensures { result ≡ pointwise same_pair pairs.entry others.entry }
{
    if pairs.lie_as(&others) {
        return true;
    }
    let (mut pairs, mut others) = (pairs, others);
    'pairs: loop {
        match (pairs.next(), others.next()) {
            (Some((name, value)), Some((other_name, other_value))) => {
                if name != other_name || value != other_value {
                    return false;
                }
            }
            (None, None) => return true,
            _ => return false,
        }
    }
}

// The order of the first pairs that differ, by their names, and then by their values.
fn order_of(pairs: Pairs<'_>, others: Pairs<'_>) -> Ordering
    ensures { result ≡ slice_cmp pair_cmp pairs.entry others.entry }
{
    let (mut pairs, mut others) = (pairs, others);
    'pairs: loop {
        match (pairs.next(), others.next()) {
            (Some((name, value)), Some((other_name, other_value))) => {
                let order = name.cmp(other_name).then(value.cmp(other_value));
                if order != Ordering::Equal {
                    return order;
                }
            }
            (None, None) => return Ordering::Equal,
            (None, Some(_)) => return Ordering::Less,
            (Some(_), None) => return Ordering::Greater,
        }
    }
}

impl PartialEq for LabelSet {
    ghost use Rattle.am_labels.specs.LabelLaws.{labels_partial};

    ghost eq = { same_labels };

    ghost laws = { labels_partial };

    fn eq(&self, other: &LabelSet) -> bool {
        are_same(self.names_and_values(), other.names_and_values())
    }
}

impl Eq for LabelSet {
    ghost use Rattle.am_labels.specs.LabelLaws.{labels_equiv};

    ghost laws = { labels_equiv };
}

impl PartialOrd for LabelSet {
    ghost use Rattle.am_labels.specs.LabelLaws.{labels_cmp, labels_order};
    ghost use Rattle.std.specs.Ordering.{as_partial_cmp};

    ghost partial_cmp = { as_partial_cmp labels_cmp };

    ghost laws = { labels_order };

    fn partial_cmp(&self, other: &LabelSet) -> Option<Ordering> {
        Some(self.cmp(other))
    }
}

impl Ord for LabelSet {
    ghost use Rattle.am_labels.specs.LabelLaws.{labels_cmp, labels_total, labels_ties};
    ghost use Rattle.std.specs.Prelude.{refl};

    ghost cmp = { labels_cmp };

    ghost total = { labels_total };

    ghost matches_partial_cmp = { λ x y. refl };

    ghost matches_eq = { labels_ties };

    fn cmp(&self, other: &LabelSet) -> Ordering {
        order_of(self.names_and_values(), other.names_and_values())
    }
}

impl Hash for LabelSet {
    ghost use Rattle.am_labels.specs.LabelLaws.{labels_fed, labels_alike};

    ghost hash_input = { labels_fed };

    ghost respects_eq = { labels_alike };

    fn hash<H: Hasher>(&self, state: &mut H) {
        self.pairs.hash().hash(state);
    }
}

// Printed as `{name="value",other="value"}`.
impl fmt::Display for LabelSet {
    ghost output = { λ labels. Some (labels_text labels) };

    fn fmt<W: fmt::Write>(&self, f: &mut fmt::Formatter<W>) -> fmt::Result {
        f.write_str("{")?;
        write_pairs(self.names_and_values(), f)?;
        f.write_str("}")
    }
}

// The pairs with commas between.
fn write_pairs<W: fmt::Write>(pairs: Pairs<'_>, f: &mut fmt::Formatter<W>) -> fmt::Result
    ensures { DisplaysOnOk W.write_str_gives f.old result (Some (pairs_text pairs.entry)) f.new }
{
    let mut others = pairs;
    let Some((name, value)) = others.next() else {
        return Ok(());
    };
    write_pair(name, value, f)?;
    for (name, value) in others {
        f.write_str(",")?;
        write_pair(name, value, f)?;
    }
    Ok(())
}

fn write_pair<W: fmt::Write>(name: &str, value: &str, f: &mut fmt::Formatter<W>) -> fmt::Result
    ensures { DisplaysOnOk W.write_str_gives f.old result (Some (pair_text (name.now, value.now))) f.new }
{
    write!(f, "{}={}", LabelName(name), Quoted(value))
}
