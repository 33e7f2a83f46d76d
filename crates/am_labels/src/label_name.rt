//! Names of labels: how one is printed, and which bytes a name of the classic form has.

ghost use Rattle.std.specs.Prelude.{◌≡◌, Some};
ghost use Rattle.std.specs.List.{list_all};
ghost use Rattle.am_labels.specs.Printing.{is_classic_name, is_name_byte, is_name_start, name_text};

use crate::quoted::Quoted;
use std::fmt;

/// A label's name, printed plain if it is classic (letters and digits of ASCII, `_` and `:`, no
/// digit first), else as [`Quoted`].
#[derive(Clone, Copy, Debug)]
pub struct LabelName<'a>(pub &'a str);

impl fmt::Display for LabelName<'_> {
    ghost output = { λ name. Some (name_text name.0.now) };

    fn fmt<W: fmt::Write>(&self, f: &mut fmt::Formatter<W>) -> fmt::Result {
        if is_classic_name(self.0.as_bytes()) {
            f.write_str(self.0)
        } else {
            Quoted(self.0).fmt(f)
        }
    }
}

pub(crate) fn is_name_start(byte: u8) -> bool
    ensures { result ≡ is_name_start byte }
{
    byte.is_ascii_alphabetic() || byte == b'_' || byte == b':'
}

pub(crate) fn is_name_byte(byte: u8) -> bool
    ensures { result ≡ is_name_byte byte }
{
    is_name_start(byte) || byte.is_ascii_digit()
}

fn is_classic_name(name: &[u8]) -> bool
    ensures { result ≡ is_classic_name name.now }
{
    let Some((first, others)) = name.split_first() else {
        return false;
    };
    is_name_start(*first) && are_name_bytes(others)
}

fn are_name_bytes(bytes: &[u8]) -> bool
    ensures { result ≡ list_all is_name_byte bytes.now }
{
    bytes.iter().all(|byte| is_name_byte(*byte))
}
