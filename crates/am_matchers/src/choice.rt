//! Patterns that choose among a few texts, as `api|web` does: a value can be compared with these.
//!
//! `exact_literals` of regex_extract isn't used: its clause speaks of the first match alone, and
//! would hold of `a` for `a|ab`, which matches `ab` once anchored. More than 16 texts, 1,024 bytes, a
//! class or a repetition are searched for.

ghost use Rattle.std.specs.Prelude.{◌≡◌, ◌++◌, ◌∷◌, [], map, true, IfOk, IfSome, OnOk};
ghost use Rattle.regex_hir.specs.Meaning.{meaning, cat_all, alt_all};
ghost use Rattle.am_matchers.specs.inside.Choices.{kept_texts, crossed, is_one_of, ChoosesAmong, FindsOneOf, IsChoiceIn};

use regex_hir::{Hir, Look};
use regex_syntax::Config;
use std::alloc::{AllocError, Global};

/// The most texts that are kept of a pattern. A value is compared with each, and a search takes about
/// as long however many texts there are. At which number the two take equally long wasn't measured.
const MOST_TEXTS: usize = 16;

/// The longest source, in bytes, that is read for its texts.
const LONGEST_SOURCE: usize = 1024;

/// The texts that the pattern of a source chooses among, if it is anchored at both ends and chooses
/// among few.
pub(crate) fn choice_in(alloc: Global, source: &str) -> Result<Option<Vec<Vec<u8>>>, AllocError>
    ensures { IfOk result (λ found. IfSome found (λ texts.
        IsChoiceIn source.now (kept_texts texts.items))) }
{
    if source.len() > LONGEST_SOURCE {
        return Ok(None);
    }
    match regex_syntax::parse(alloc, source, &Config::default()) {
        Ok(parsed) => anchored_choice(alloc, &parsed.hir),
        Err(_) => Ok(None),
    }
}

/// Whether a text is one of some.
pub(crate) fn is_one_of(text: &str, texts: &[Vec<u8>]) -> bool
    ensures { result ≡ is_one_of text.now (kept_texts texts.now) }
{
    for one in texts {
        if one.as_slice() == text.as_bytes() {
            return true;
        }
    }
    false
}

// The texts that an anchored pattern chooses among, if it does.
fn anchored_choice(alloc: Global, pattern: &Hir) -> Result<Option<Vec<Vec<u8>>>, AllocError>
    ensures { IfOk result (λ found. IfSome found (λ texts.
        FindsOneOf (kept_texts texts.items) (meaning pattern.now))) }
{
    let Hir::Concat(parts) = pattern else {
        return Ok(None);
    };
    let Some((first, others)) = parts.split_first() else {
        return Ok(None);
    };
    let Some((last, inner)) = others.split_last() else {
        return Ok(None);
    };
    if !is_look(first, Look::Start) || !is_look(last, Look::End) {
        return Ok(None);
    }
    choice_of_parts(alloc, inner)
}

// Whether a pattern is that assertion.
fn is_look(pattern: &Hir, look: Look) -> bool
    ensures { result ≡ true → pattern.now ≡ Hir.Look look }
{
    match pattern {
        Hir::Look(own) => *own == look,
        _ => false,
    }
}

// The texts that a pattern chooses among, if it does.
#[cycle(choice)]
fn choice(alloc: Global, pattern: &Hir) -> Result<Option<Vec<Vec<u8>>>, AllocError>
    ensures { IfOk result (λ found. IfSome found (λ texts.
        ChoosesAmong (kept_texts texts.items) (meaning pattern.now))) }
{
    match pattern {
        Hir::Empty => Ok(Some(one_text(alloc, &[])?)),
        Hir::Literal(bytes) => Ok(Some(one_text(alloc, bytes)?)),
        Hir::Capture { sub, .. } => choice(alloc, sub),
        Hir::Concat(parts) => choice_of_parts(alloc, parts),
        Hir::Alternation(branches) => choice_of_branches(alloc, branches),
        Hir::Bytes(_) | Hir::Chars(_) | Hir::Look(_) | Hir::Repetition { .. } => Ok(None),
    }
}

// Of patterns one after another.
#[cycle(choice)]
fn choice_of_parts(alloc: Global, parts: &[Hir]) -> Result<Option<Vec<Vec<u8>>>, AllocError>
    ensures { IfOk result (λ found. IfSome found (λ texts.
        ChoosesAmong (kept_texts texts.items) (cat_all (map meaning parts.now)))) }
{
    let mut texts = one_text(alloc, &[])?;
    for part in parts {
        let Some(next) = choice(alloc, part)? else {
            return Ok(None);
        };
        if texts.len().saturating_mul(next.len()) > MOST_TEXTS {
            return Ok(None);
        }
        texts = each_with_each(alloc, &texts, &next)?;
    }
    Ok(Some(texts))
}

// Of a choice among patterns.
#[cycle(choice)]
fn choice_of_branches(alloc: Global, branches: &[Hir]) -> Result<Option<Vec<Vec<u8>>>, AllocError>
    ensures { IfOk result (λ found. IfSome found (λ texts.
        ChoosesAmong (kept_texts texts.items) (alt_all (map meaning branches.now)))) }
{
    let mut texts = Vec::new(alloc);
    for branch in branches {
        let Some(mut more) = choice(alloc, branch)? else {
            return Ok(None);
        };
        texts.append(&mut more)?;
        if texts.len() > MOST_TEXTS {
            return Ok(None);
        }
    }
    Ok(Some(texts))
}

fn one_text(alloc: Global, bytes: &[u8]) -> Result<Vec<Vec<u8>>, AllocError>
    ensures { IfOk result (λ texts. kept_texts texts.items ≡ bytes.now ∷ []) }
{
    let mut texts = Vec::new(alloc);
    texts.push(Vec::from_slice(alloc, bytes)?)?;
    Ok(texts)
}

// Each of some texts followed by each of others.
fn each_with_each(
    alloc: Global,
    firsts: &[Vec<u8>],
    seconds: &[Vec<u8>],
) -> Result<Vec<Vec<u8>>, AllocError>
    ensures { IfOk result (λ texts.
        kept_texts texts.items ≡ crossed (kept_texts firsts.now) (kept_texts seconds.now)) }
{
    let mut texts = Vec::new(alloc);
    for first in firsts {
        add_with_each(&mut texts, first, seconds)?;
    }
    Ok(texts)
}

// Adds a text followed by each of others.
fn add_with_each(
    texts: &mut Vec<Vec<u8>>,
    first: &[u8],
    seconds: &[Vec<u8>],
) -> Result<(), AllocError>
    ensures { OnOk result (kept_texts texts.new.items ≡ kept_texts texts.old.items
        ++ map (λ second. first.now ++ second) (kept_texts seconds.now)) }
{
    for second in seconds {
        let mut text = Vec::from_slice(*texts.allocator(), first)?;
        text.extend_from_slice(second)?;
        texts.push(text)?;
    }
    Ok(())
}
