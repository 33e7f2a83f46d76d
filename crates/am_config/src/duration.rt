//! Durations, as `5m` or `1h30m`.

ghost use Rattle.std.specs.Prelude.{◌≡◌, ◌^◌, ◌<◌, ◌≤◌, true, List, MatchOption, sum_by};
ghost use Rattle.std.specs.List.{list_all, prefix_len};
ghost use Rattle.std.specs.Char.{is_ascii_digit};
ghost use Rattle.std.specs.Str.Parse.{digits_value};
ghost use Rattle.am_config.specs.Durations.{milliseconds_of, rank_of, worth};
ghost use Rattle.am_config.specs.Durations.{ArePartsOf, IsDuration};
ghost use Rattle.am_config.specs.inside.DurationParts.{digits_of, is_no_digit, rest_of};
ghost use Rattle.am_config.specs.inside.DurationParts.{symbol_in, unit_of};

/// The longest duration, in milliseconds.
pub const MAX_MILLISECONDS: u64 = 9_223_372_036_854;

/// A unit of a duration, the longest first.
#[derive(Clone, Copy)]
pub(crate) enum Unit {
    Year,
    Week,
    Day,
    Hour,
    Minute,
    Second,
    Millisecond,
}

impl Unit {
    fn milliseconds(self) -> u64
        ensures { result ≡ milliseconds_of self }
    {
        match self {
            Unit::Year => 31_536_000_000,
            Unit::Week => 604_800_000,
            Unit::Day => 86_400_000,
            Unit::Hour => 3_600_000,
            Unit::Minute => 60_000,
            Unit::Second => 1_000,
            Unit::Millisecond => 1,
        }
    }

    // Its rank among the units, the longest first.
    fn rank(self) -> u8
        ensures { result ≡ rank_of self }
    {
        match self {
            Unit::Year => 0,
            Unit::Week => 1,
            Unit::Day => 2,
            Unit::Hour => 3,
            Unit::Minute => 4,
            Unit::Second => 5,
            Unit::Millisecond => 6,
        }
    }
}

/// The milliseconds of a duration, or None if the text is none.
pub(crate) fn read_duration(text: &str) -> Option<u64>
    ensures { MatchOption result
        ((total : _) → IsDuration text.now total → ⊥) (IsDuration text.now) }
{
    if text == "0" {
        return Some(0);
    }
    if text.is_empty() {
        return None;
    }
    let total = sum_of_parts(text.as_bytes(), 0)?;
    if total > MAX_MILLISECONDS {
        return None;
    }
    Some(total)
}

// The sum of a text's parts, whose units have that rank or a later one. None: the text has no such
// parts, or their sum is above the greatest u64.
fn sum_of_parts(text: &[u8], from: u8) -> Option<u64>
    ensures { MatchOption result
        ((parts : _) → ArePartsOf from text.now parts → 2 ^ 64 ≤ sum_by worth parts)
        (λ total. (parts : _) × ArePartsOf from text.now parts × (total ≡ sum_by worth parts)) }
{
    if text.is_empty() {
        return Some(0);
    }
    let (digits, symbol, rest) = split_part(text);
    let unit = unit_of(symbol)?;
    if digits.is_empty() || unit.rank() < from {
        return None;
    }
    let count = number_of(digits)?;
    let others = sum_of_parts(rest, unit.rank() + 1)?;
    count.checked_mul(unit.milliseconds())?.checked_add(others)
}

// The digits that a text begins with, what follows them up to the next digit, and the rest.
fn split_part(text: &[u8]) -> (&[u8], &[u8], &[u8])
    ensures digits { result.0.now ≡ digits_of text.now }
    ensures symbol { result.1.now ≡ symbol_in text.now }
    ensures rest { result.2.now ≡ rest_of text.now }
    ensures number { list_all is_ascii_digit result.0.now ≡ true }
{
    let (digits, behind) = text.split_at(digits_len(text));
    let (symbol, rest) = behind.split_at(symbol_len(behind));
    (digits, symbol, rest)
}

fn digits_len(text: &[u8]) -> usize
    ensures { result ≡ prefix_len is_ascii_digit text.now }
{
    text.iter().take_while(|byte| byte.is_ascii_digit()).count()
}

fn symbol_len(text: &[u8]) -> usize
    ensures { result ≡ prefix_len is_no_digit text.now }
{
    text.iter()
        .take_while(|byte| !byte.is_ascii_digit())
        .count()
}

fn unit_of(symbol: &[u8]) -> Option<Unit>
    ensures { result ≡ unit_of symbol.now }
{
    match symbol {
        b"y" => Some(Unit::Year),
        b"w" => Some(Unit::Week),
        b"d" => Some(Unit::Day),
        b"h" => Some(Unit::Hour),
        b"m" => Some(Unit::Minute),
        b"s" => Some(Unit::Second),
        b"ms" => Some(Unit::Millisecond),
        _ => None,
    }
}

// The number that digits write, or None above the greatest u64.
fn number_of(digits: &[u8]) -> Option<u64>
    requires { list_all is_ascii_digit digits.now ≡ true }
    ensures { MatchOption result (2 ^ 64 ≤ digits_value 10 digits.now)
        (λ number. number ≡ digits_value 10 digits.now) }
{
    let mut number = 0u64;
    for digit in digits {
        number = number
            .checked_mul(10)?
            .checked_add(u64::from(*digit - b'0'))?;
    }
    Some(number)
}
