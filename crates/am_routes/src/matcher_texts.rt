//! Matchers as they are printed.

ghost use Rattle.std.specs.Prelude.{◌≡◌, IfOk, Some, map};
ghost use Rattle.std.specs.Fmt.{DisplaysOnOk};
ghost use Rattle.std.specs.List.{join_with_byte};
ghost use Rattle.am_matchers.specs.MatcherTexts.{operator_text};
ghost use Rattle.am_routes.specs.Listings.{matcher_text};
ghost use Rattle.am_routes.specs.Printing.{matchers_text};

use am_labels::{Quoted, Text};
use am_matchers::{Matcher, Matchers, Operator};
use std::alloc::{AllocError, Global};
use std::fmt;
use std::marker::Model;

/// Texts of matchers in order, each as `name="value"`, seen by contracts as their list.
#[derive(Debug, Drop)]
pub struct MatcherTexts {
    pub(crate) texts: Vec<Text>,
}

impl Model for MatcherTexts {
    ghost use Rattle.std.specs.Prelude.{List, ℕ};

    ghost Value = { List (List ℕ) };

    ghost view = { λ a. a.texts.items };
}

impl MatcherTexts {
    pub(crate) fn of(alloc: Global, matchers: &Matchers) -> Result<MatcherTexts, AllocError>
        ensures { IfOk result (λ texts. texts ≡ map matcher_text matchers.now) }
    {
        let mut texts = Vec::with_capacity(alloc, matchers.as_slice().len())?;
        for matcher in matchers.as_slice() {
            texts.push(matcher_text(alloc, matcher)?)?;
        }
        Ok(MatcherTexts { texts })
    }

    pub fn as_slice(&self) -> &[Text]
        ensures { result.now ≡ self.now }
    {
        &self.texts
    }
}

fn matcher_text(alloc: Global, matcher: &Matcher) -> Result<Text, AllocError>
    ensures { IfOk result (λ text. text ≡ matcher_text matcher.now) }
{
    let name = matcher.name();
    let operator = operator_text(matcher.operator());
    let value = Quoted(matcher.value());
    Ok(Text::new(format!(in alloc; "{name}{operator}{value}")?))
}

fn operator_text(operator: Operator) -> &'static str
    ensures { result.now ≡ operator_text operator }
{
    match operator {
        Operator::Equal => "=",
        Operator::NotEqual => "!=",
        Operator::MatchRegexp => "=~",
        Operator::MatchNotRegexp => "!~",
    }
}

// Printed as `{name="value",other=~"value"}`.
impl fmt::Display for MatcherTexts {
    ghost output = { λ matchers. Some (matchers_text matchers) };

    fn fmt<W: fmt::Write>(&self, f: &mut fmt::Formatter<W>) -> fmt::Result {
        f.write_str("{")?;
        write_texts(self.as_slice(), f)?;
        f.write_str("}")
    }
}

// The texts with commas between.
fn write_texts<W: fmt::Write>(texts: &[Text], f: &mut fmt::Formatter<W>) -> fmt::Result
    ensures { DisplaysOnOk W.write_str_gives f.old result (Some (join_with_byte 44 texts.now)) f.new }
{
    let Some((first, others)) = texts.split_first() else {
        return Ok(());
    };
    write_text(first, f)?;
    for text in others {
        f.write_str(",")?;
        write_text(text, f)?;
    }
    Ok(())
}

fn write_text<W: fmt::Write>(text: &Text, f: &mut fmt::Formatter<W>) -> fmt::Result
    ensures { DisplaysOnOk W.write_str_gives f.old result (Some text.now) f.new }
{
    f.write_str(text.as_str())
}
