//! Texts between quotes, as values are printed.

ghost use Rattle.std.specs.Prelude.{◌≡◌, IsTrue, Some, encode_utf8};
ghost use Rattle.std.specs.Fmt.{DisplaysOnOk};
ghost use Rattle.am_labels.specs.Printing.{escaped_all, quoted};

use memchr::memchr3;
use std::fmt;

/// A text printed between quotes, with `\"` for a quote, `\\` for a backslash and `\n` for a line
/// feed.
#[derive(Clone, Copy, Debug)]
pub struct Quoted<'a>(pub &'a str);

impl fmt::Display for Quoted<'_> {
    ghost output = { λ q. Some (quoted q.0.now) };

    fn fmt<W: fmt::Write>(&self, f: &mut fmt::Formatter<W>) -> fmt::Result {
        f.write_str("\"")?;
        write_escaped(self.0, f)?;
        f.write_str("\"")
    }
}

// A text without an escape is written at once.
fn write_escaped<W: fmt::Write>(text: &str, f: &mut fmt::Formatter<W>) -> fmt::Result
    ensures { DisplaysOnOk W.write_str_gives f.old result (Some (escaped_all text.now)) f.new }
{
    if is_plain(text) {
        return f.write_str(text);
    }
    write_each_escaped(text, f)
}

fn is_plain(text: &str) -> bool
    ensures { IsTrue result → escaped_all text.now ≡ text.now }
{
    memchr3(b'"', b'\\', b'\n', text.as_bytes()).is_none()
}

fn write_each_escaped<W: fmt::Write>(text: &str, f: &mut fmt::Formatter<W>) -> fmt::Result
    ensures { DisplaysOnOk W.write_str_gives f.old result (Some (escaped_all text.now)) f.new }
{
    for c in text.chars() {
        write_char_escaped(c, f)?;
    }
    Ok(())
}

fn write_char_escaped<W: fmt::Write>(c: char, f: &mut fmt::Formatter<W>) -> fmt::Result
    ensures { DisplaysOnOk W.write_str_gives f.old result
        (Some (escaped_all (encode_utf8 c))) f.new }
{
    match c {
        '"' => f.write_str("\\\""),
        '\\' => f.write_str("\\\\"),
        '\n' => f.write_str("\\n"),
        _ => f.write_char(c),
    }
}
