//! What the texts of label sets and of matchers are made of: names, and values in which a backslash escapes.

ghost use Rattle.std.specs.Prelude.{◌≡◌, ◌++◌, IfOk, OnOk, MatchOption, false, map, string_bytes};
ghost use Rattle.std.specs.List.{prefix_len};
ghost use Rattle.am_labels.specs.Printing.{is_name_byte, is_name_start};
ghost use Rattle.am_labels.specs.Letters.{after_backslash, begins, IsMeantUntil, IsMeantWhole, IsNameThen, meant};

use crate::label_name::{is_name_byte, is_name_start};
use crate::text::Text;
use std::alloc::{AllocError, Global};

/// The name of the classic form that a text begins with, and what follows it. None if it begins with none.
pub fn split_name(text: &str) -> Option<(&str, &str)>
    ensures { MatchOption result (begins is_name_start text.now ≡ false)
        (λ parts. IsNameThen text.now parts.0.now parts.1.now) }
{
    if !begins_name(text.as_bytes()) {
        return None;
    }
    Some(text.split_at(name_len(text.as_bytes())))
}

fn name_len(text: &[u8]) -> usize
    ensures { result ≡ prefix_len is_name_byte text.now }
{
    for (i, byte) in text.iter().enumerate() {
        if !is_name_byte(*byte) {
            return i;
        }
    }
    text.len()
}

fn begins_name(text: &[u8]) -> bool
    ensures { result ≡ begins is_name_start text.now }
{
    match text {
        [first, ..] => is_name_start(*first),
        [] => false,
    }
}

/// What a text means up to its first bare quote, and what follows that quote.
pub fn read_letters(alloc: Global, text: &str) -> Result<(Text, Option<&str>), AllocError>
    ensures { IfOk result (λ read. MatchOption read.1
        (IsMeantWhole text.now read.0) (λ rest. IsMeantUntil text.now rest.now read.0)) }
{
    let mut value = String::new(alloc);
    let mut is_escaped = false;
    let mut chars = text.chars();
    while let Some(c) = chars.next() {
        if is_escaped {
            write_escaped(&mut value, c)?;
            is_escaped = false;
        } else if c == '\\' {
            is_escaped = true;
        } else if c == '"' {
            return Ok((Text::new(value), Some(chars.as_str())));
        } else {
            value.push(c)?;
        }
    }
    if is_escaped {
        value.push('\\')?;
    }
    Ok((Text::new(value), None))
}

// What a backslash and this character mean.
fn write_escaped(value: &mut String, c: char) -> Result<(), AllocError>
    ensures { OnOk result
        (string_bytes value.new ≡ string_bytes value.old ++ map meant (after_backslash c)) }
{
    match c {
        'n' => value.push('\n'),
        '"' | '\\' => value.push(c),
        _ => {
            value.push('\\')?;
            value.push(c)?;
            Ok(())
        }
    }
}
