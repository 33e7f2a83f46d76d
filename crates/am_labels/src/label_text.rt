//! Label sets from the texts that they print.
//!
//! What the reader takes too much, as a comma at the end, prints otherwise: so the printed text decides.

ghost use Rattle.std.specs.Prelude.{◌≡◌, ◌∷◌, ◌++◌, ◌<◌, ◌≤◌, IfErr, IfOk, IfSome, List, ℕ, length};
ghost use Rattle.std.specs.FinMap.{entries};
ghost use Rattle.std.specs.Option.{IsSomeAnd};
ghost use Rattle.am_labels.specs.LabelSets.{Labels};
ghost use Rattle.am_labels.specs.LabelTexts.{IsOnlyTextOf, IsTextOfNone};
ghost use Rattle.am_labels.specs.Printing.{labels_text, name_text, pair_text};
ghost use Rattle.am_labels.specs.declared.label_text.LabelsFault.TheVariants.{NotLabels};

use crate::label_set::LabelSet;
use crate::letters::{read_letters, split_name};
use crate::text::Text;
use std::alloc::{AllocError, Global};
use thiserror::Error;

/// Why a text was not read as a label set.
#[derive(Clone, Copy, Debug, PartialEq, Eq, Error)]
#[non_exhaustive]
pub enum LabelsFault {
    #[error("there is no memory for a label set")]
    NoMemory,
    /// No label set prints so.
    #[error("the text is no label set as it is printed: names in order, in braces, with commas between")]
    NotLabels,
}

impl From<AllocError> for LabelsFault {
    ghost use Rattle.std.specs.Prelude.{◌≡◌};
    ghost use Rattle.am_labels.specs.declared.label_text.LabelsFault.TheVariants.{NoMemory};

    ghost from_gives = { λ _ fault. fault ≡ NoMemory };

    fn from(_error: AllocError) -> LabelsFault {
        LabelsFault::NoMemory
    }
}

impl LabelSet {
    /// The label set that is printed so.
    pub fn read(alloc: Global, text: &str) -> Result<LabelSet, LabelsFault>
        ensures read { IfOk result (IsOnlyTextOf text.now) }
        ensures refused { IfErr result (λ fault. fault ≡ NotLabels → IsTextOfNone text.now) }
    {
        let Some(pairs) = read_pairs(alloc, text)? else {
            return Err(LabelsFault::NotLabels);
        };
        let labels = LabelSet::from_texts(alloc, pairs)?;
        if labels.to_string(alloc)?.as_str() != text {
            return Err(LabelsFault::NotLabels);
        }
        Ok(labels)
    }
}

// The pairs of a text that is printed of a label set. Of another text some pairs, or None.
fn read_pairs(alloc: Global, text: &str) -> Result<Option<Vec<(Text, Text)>>, AllocError>
    ensures { IfOk result (λ read. (labels : Labels) → labels_text labels ≡ text.now
        → IsSomeAnd read (λ pairs. pairs.items ≡ entries labels)) }
{
    let mut pairs = Vec::new(alloc);
    let Some(inner) = text.strip_prefix('{') else {
        return Ok(None);
    };
    let mut rest = inner;
    while rest != "}" {
        let Some((name, value, after)) = read_pair(alloc, rest)? else {
            return Ok(None);
        };
        pairs.push((name, value))?;
        rest = match after.strip_prefix(',') {
            Some(others) => others,
            None => after,
        };
    }
    Ok(Some(pairs))
}

// A name, its value and what follows them, if the text begins with a pair.
fn read_pair(alloc: Global, text: &str) -> Result<Option<(Text, Text, &str)>, AllocError>
    ensures shorter { IfOk result (λ read. IfSome read (λ (_, _, after). length after.now < length text.now)) }
    ensures read { IfOk result (λ read. (pair : List ℕ × List ℕ) (rest : List ℕ) → text.now ≡ pair_text pair ++ rest
        → IsSomeAnd read (λ (name, value, after). (name ≡ pair.0) × (value ≡ pair.1) × (after.now ≡ rest))) }
{
    let Some((name, after)) = read_name(alloc, text)? else {
        return Ok(None);
    };
    let Some(quoted) = after.strip_prefix("=\"") else {
        return Ok(None);
    };
    let (value, after) = read_letters(alloc, quoted)?;
    let Some(after) = after else {
        return Ok(None);
    };
    Ok(Some((name, value, after)))
}

// A name, plain or between quotes, and what follows it, if the text begins with one.
fn read_name(alloc: Global, text: &str) -> Result<Option<(Text, &str)>, AllocError>
    ensures shorter { IfOk result (λ read. IfSome read (λ (_, after). length after.now ≤ length text.now)) }
    ensures read { IfOk result (λ read. (name rest : List ℕ) → text.now ≡ name_text name ++ 61 ∷ rest
        → IsSomeAnd read (λ (got, after). (got ≡ name) × (after.now ≡ 61 ∷ rest))) }
{
    if let Some(quoted) = text.strip_prefix('"') {
        let (name, after) = read_letters(alloc, quoted)?;
        let Some(after) = after else {
            return Ok(None);
        };
        return Ok(Some((name, after)));
    }
    let Some((name, after)) = split_name(text) else {
        return Ok(None);
    };
    Ok(Some((Text::from_str(alloc, name)?, after)))
}
