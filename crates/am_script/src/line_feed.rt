//! Finding the end of a line.

ghost use Rattle.std.specs.Prelude.{◌≡◌};
ghost use Rattle.std.specs.List.{position};
ghost use Rattle.am_script.specs.Script.{is_line_feed};

use memchr::memchr;

/// The index of the first line feed.
pub(crate) fn line_feed(bytes: &[u8]) -> Option<usize>
    ensures { result ≡ position is_line_feed bytes.now }
{
    memchr(b'\n', bytes)
}
