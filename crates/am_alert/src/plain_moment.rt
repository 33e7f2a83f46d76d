//! The text of a moment in the form that nearly all are written in, `2024-01-01T10:00:00Z`. Only its digits are read here:
//! which date and time there are, and which instant that is, is jiff's.

ghost use Rattle.std.specs.Prelude.{◌≡◌, ◌<◌, ◌∷◌, [], IfSome, Ok};
ghost use Rattle.jiff_fmt.specs.Text.{pad2};
ghost use Rattle.jiff.specs.Words.{parse_timestamp};

use jiff_core::civil::{Date, DateTime, Time};
use jiff_core::{Offset, Timestamp};

/// The instant of such a text. `None` if it has another form, or a date or a time that there isn't.
pub(crate) fn read_plain(text: &[u8]) -> Option<Timestamp>
    ensures { IfSome result (λ instant. parse_timestamp text.now ≡ Ok instant.nanosecond) }
{
    let &[
        year0,
        year1,
        year2,
        year3,
        b'-',
        month0,
        month1,
        b'-',
        day0,
        day1,
        b'T',
        hour0,
        hour1,
        b':',
        minute0,
        minute1,
        b':',
        second0,
        second1,
        b'Z',
    ] = text
    else {
        return None;
    };
    let year = i16::from(two_digits(year0, year1)?) * 100 + i16::from(two_digits(year2, year3)?);
    let month = two_digits(month0, month1)?;
    let day = two_digits(day0, day1)?;
    let date = Date::new(year, month as i8, day as i8).ok()?;
    let hour = two_digits(hour0, hour1)?;
    let minute = two_digits(minute0, minute1)?;
    let second = two_digits(second0, second1)?;
    let time = Time::new(hour as i8, minute as i8, second as i8, 0).ok()?;
    Offset::UTC.to_timestamp(DateTime { date, time }).ok()
}

// The number that two digits write.
fn two_digits(tens: u8, ones: u8) -> Option<u8>
    ensures { IfSome result (λ number. (number < 100) × (pad2 number ≡ tens ∷ ones ∷ [])) }
{
    if tens.is_ascii_digit() && ones.is_ascii_digit() {
        Some((tens - b'0') * 10 + (ones - b'0'))
    } else {
        None
    }
}
