//! The date and the time of day of an instant.

/// What a calendar and a clock in UTC show.
#[derive(Clone, Copy, Debug, PartialEq, Eq)]
pub struct CivilTime {
    pub year: u16,
    /// From 1.
    pub month: u8,
    /// From 1.
    pub day: u8,
    pub hour: u8,
    pub minute: u8,
    pub second: u8,
    /// Of the second.
    pub nanosecond: u32,
}
