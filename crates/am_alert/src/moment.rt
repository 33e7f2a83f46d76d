//! Instants, and how they are printed.

ghost use Rattle.std.specs.Prelude.{◌≡◌, ◌<◌, ◌-◌, ◌-ℤ◌, IfNone, IfSome, Ok, Some, None, if◌then◌else◌, nat_lt, pos};
ghost use Rattle.std.specs.Duration.{as_nanos};
ghost use Rattle.am_alert.specs.Moments.{moments, later};
ghost use Rattle.am_alert.specs.Calendar.{parts_of};
ghost use Rattle.am_alert.specs.Printing.{moment_text};
ghost use Rattle.am_alert.specs.TimeTexts.{ReadsMoment, instant_of, year_1970};
ghost use Rattle.jiff.specs.Words.{parse_timestamp};

use crate::civil_time::CivilTime;
use crate::moment_text::MomentText;
use crate::plain_moment::read_plain;
use crate::time_text::TimeFault;
use jiff::Timestamp;
use jiff::fmt::temporal::DateTimePrinter;
use jiff::tz::Offset;
use std::fmt;
use std::marker::Model;
use std::str::FromStr;
use std::time::Duration;

// How many instants there are.
const MOMENTS: u128 = 315_537_804_001_000_000_000;

// The nanoseconds from 0001-01-01T00:00:00Z to 1970-01-01T00:00:00Z.
const YEAR_1970: i128 = 62_135_596_800_000_000_000;

/// An instant, not before 0001-01-01T00:00:00Z and not after the last one that `jiff` has.
/// Contracts see it as the nanoseconds since 0001-01-01T00:00:00Z.
#[derive(Clone, Copy, Debug, PartialEq, Eq, PartialOrd, Ord, Hash)]
pub struct Moment {
    nanoseconds: u128,
}

impl Model for Moment {
    ghost use Rattle.std.specs.Prelude.{ℕ, ◌<◌};
    ghost use Rattle.am_alert.specs.Moments.{moments};

    ghost Value = { ℕ };

    ghost view = { λ a. a.nanoseconds };

    ghost invariant = { λ a. a.nanoseconds < moments };

    ghost inverse = { λ n. record { nanoseconds = n } };
}

impl Moment {
    /// The last instant, 9999-12-30T22:00:00.999999999Z.
    pub const MAX: Moment = Moment {
        nanoseconds: MOMENTS - 1,
    };

    /// The instant that many nanoseconds after 0001-01-01T00:00:00Z.
    pub fn new(nanoseconds: u128) -> Moment
        requires { nanoseconds < moments }
        ensures { result ≡ nanoseconds }
    {
        Moment { nanoseconds }
    }

    /// The instant that many nanoseconds after 0001-01-01T00:00:00Z, unless it is after the last
    /// one.
    pub fn try_new(nanoseconds: u128) -> Option<Moment>
        ensures { result ≡ (if nat_lt nanoseconds moments then Some nanoseconds else None) }
    {
        if nanoseconds <= Moment::MAX.nanoseconds {
            Some(Moment { nanoseconds })
        } else {
            None
        }
    }

    /// The instant that many nanoseconds after 1970-01-01T00:00:00Z, as a system's clock counts, unless
    /// it is after the last one.
    pub fn from_unix_nanos(nanoseconds: u128) -> Option<Moment>
        ensures { result ≡ later year_1970 nanoseconds }
    {
        Moment::try_new(nanoseconds.checked_add(YEAR_1970 as u128)?)
    }

    /// The instant that much later, if there is one.
    pub fn checked_add(self, duration: Duration) -> Option<Moment>
        ensures { result ≡ later self (as_nanos duration) }
    {
        Moment::try_new(self.nanoseconds + duration.as_nanos())
    }

    /// The nanoseconds since 0001-01-01T00:00:00Z.
    pub fn nanoseconds(self) -> u128
        ensures value { result ≡ self }
        ensures bound { self < moments }
    {
        self.nanoseconds
    }

    /// As RFC 3339 writes it in UTC: `2024-01-01T10:00:00Z`, with nine digits of a second if it isn't
    /// whole.
    pub fn text(&self) -> MomentText
        ensures { result ≡ moment_text self.now }
    {
        let places = if self.nanoseconds % 1_000_000_000 == 0 {
            None
        } else {
            Some(9)
        };
        let printer = DateTimePrinter::new().precision(places);
        MomentText {
            text: printer.timestamp_text(self.timestamp().to_plain()),
        }
    }

    fn timestamp(&self) -> Timestamp
        ensures { result.nanosecond ≡ pos self.now -ℤ pos year_1970 }
    {
        Timestamp::from_nanosecond(self.nanoseconds as i128 - YEAR_1970).unwrap()
    }

    /// What a calendar and a clock in UTC show.
    pub fn parts(&self) -> CivilTime
        ensures { result ≡ parts_of self.now }
    {
        let shown = Offset::UTC.to_datetime(self.timestamp()).to_plain();
        CivilTime {
            year: shown.date.year as u16,
            month: shown.date.month,
            day: shown.date.day,
            hour: shown.time.hour,
            minute: shown.time.minute,
            second: shown.time.second,
            nanosecond: shown.time.subsec_nanosecond,
        }
    }
}

// The instant of a text, by jiff's reader unless it has the plain form.
fn timestamp_of(text: &str) -> Option<jiff_core::Timestamp>
    ensures some { IfSome result (λ instant. parse_timestamp text.now ≡ Ok instant.nanosecond) }
    ensures none { IfNone result (instant_of (parse_timestamp text.now) ≡ None) }
{
    if let Some(timestamp) = read_plain(text.as_bytes()) {
        return Some(timestamp);
    }
    match text.parse::<Timestamp>() {
        Ok(timestamp) => Some(timestamp.to_plain()),
        Err(_) => None,
    }
}

/// Reads what RFC 3339 and jiff's Temporal reader take, with an offset or `Z`.
impl FromStr for Moment {
    type Err = TimeFault;

    ghost from_str_gives = { ReadsMoment };

    fn from_str(text: &str) -> Result<Moment, TimeFault> {
        let Some(timestamp) = timestamp_of(text) else {
            return Err(TimeFault::BadTime);
        };
        let nanoseconds = timestamp.nanosecond + YEAR_1970;
        if nanoseconds < 0 {
            return Err(TimeFault::BadTime);
        }
        Ok(Moment {
            nanoseconds: nanoseconds as u128,
        })
    }
}

impl fmt::Display for Moment {
    ghost output = { λ moment. Some (moment_text moment) };

    fn fmt<W: fmt::Write>(&self, f: &mut fmt::Formatter<W>) -> fmt::Result {
        f.write_str(self.text().as_str())
    }
}
