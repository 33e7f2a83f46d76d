//! The parts of a matcher's text.

ghost use Rattle.std.specs.Prelude.{◌≡◌, ◌++◌, [], IfOk, MatchOption, List};
ghost use Rattle.am_labels.specs.Letters.{IsMeantUntil};
ghost use Rattle.am_matchers.specs.MatcherTexts.{IsNoValue, IsOperatorThen, IsSpaceThen, IsTrimmedTo, IsUnquoted, IsValue};
ghost use Rattle.am_matchers.specs.MatcherTexts.{operator_text};
ghost use Rattle.am_matchers.specs.inside.SplitAnswers.{IsSplitOf};

use crate::match_fault::MatchFault;
use crate::operator::Operator;
use am_labels::{Text, read_letters, split_name};
use std::alloc::{AllocError, Global};

/// The parts of a matcher's text; `raw` is how its value is written.
#[derive(Clone, Copy)]
pub(crate) struct MatcherParts<'a> {
    pub name: &'a str,
    pub operator: Operator,
    pub raw: &'a str,
}

pub(crate) fn split(text: &str) -> Result<MatcherParts<'_>, MatchFault>
    ensures { IsSplitOf text.now result }
{
    let Some((name, rest)) = split_name(skip_space(text)) else {
        return Err(MatchFault::BadName);
    };
    let Some((operator, behind)) = split_operator(skip_space(rest)) else {
        return Err(MatchFault::NoOperator);
    };
    Ok(MatcherParts {
        name,
        operator,
        raw: trim_space(behind),
    })
}

fn skip_space(text: &str) -> &str
    ensures { IsSpaceThen text.now result.now }
{
    text.trim_ascii_start()
}

fn trim_space(text: &str) -> &str
    ensures { IsTrimmedTo text.now result.now }
{
    text.trim_ascii()
}

// The operator and what follows it.
fn split_operator(text: &str) -> Option<(Operator, &str)>
    ensures { MatchOption result
        ((op : _) (behind : List _) → text.now ≡ operator_text op ++ behind → ⊥)
        (λ parts. IsOperatorThen text.now parts.0 parts.1.now) }
{
    if let Some(behind) = text.strip_prefix("=~") {
        return Some((Operator::MatchRegexp, behind));
    }
    if let Some(behind) = text.strip_prefix("!=") {
        return Some((Operator::NotEqual, behind));
    }
    if let Some(behind) = text.strip_prefix("!~") {
        return Some((Operator::MatchNotRegexp, behind));
    }
    let behind = text.strip_prefix("=")?;
    Some((Operator::Equal, behind))
}

/// The value that is written so, or None if a quote or a comma is out of place.
pub(crate) fn read_value(alloc: Global, raw: &str) -> Result<Option<Text>, AllocError>
    ensures { IfOk result (λ read. MatchOption read (IsNoValue raw.now) (IsValue raw.now)) }
{
    match raw.strip_prefix('"') {
        Some(rest) => read_quoted(alloc, rest),
        None => read_unquoted(alloc, raw),
    }
}

// The value up to the closing quote, which has to be the end.
fn read_quoted(alloc: Global, text: &str) -> Result<Option<Text>, AllocError>
    ensures { IfOk result (λ read. MatchOption read
        ((value : List _) → IsMeantUntil text.now [] value → ⊥) (IsMeantUntil text.now [])) }
{
    let (value, rest) = read_letters(alloc, text)?;
    let Some(rest) = rest else {
        return Ok(None);
    };
    if !rest.is_empty() {
        return Ok(None);
    }
    Ok(Some(value))
}

fn read_unquoted(alloc: Global, raw: &str) -> Result<Option<Text>, AllocError>
    ensures { IfOk result
        (λ read. MatchOption read ((value : List _) → IsUnquoted raw.now value → ⊥) (IsUnquoted raw.now)) }
{
    if raw.as_bytes().contains(&b',') {
        return Ok(None);
    }
    let (value, rest) = read_letters(alloc, raw)?;
    Ok(match rest {
        Some(_) => None,
        None => Some(value),
    })
}
