//! Moments and post bodies for the tests.

use am_alert::Moment;
use std::alloc::{AllocError, Global};

// 2024-01-01T00:00:00Z, in seconds since 0001-01-01T00:00:00Z.
const YEAR_2024: u64 = 63_839_664_000;

/// The moment `seconds` seconds after the beginning of 2024.
pub fn moment(seconds: u32) -> Moment {
    let since_year_1 = YEAR_2024 + u64::from(seconds);
    match Moment::try_new(u128::from(since_year_1) * 1_000_000_000) {
        Some(moment) => moment,
        None => Moment::MAX,
    }
}

/// A report as it is posted: its label, and its start and end in seconds after the beginning of 2024.
/// One without an end gets it from the resolve timeout.
#[derive(Clone, Copy, Drop)]
pub struct Report {
    pub label: u32,
    pub start: u32,
    pub end: Option<u32>,
}

impl Report {
    pub fn new(label: u32, start: u32, end: u32) -> Report {
        Report {
            label,
            start,
            end: Some(end),
        }
    }

    fn write_to(&self, body: &mut String) -> Result<(), AllocError> {
        let label = self.label;
        let start = moment(self.start);
        write!(
            body,
            "{{\"labels\":{{\"n\":\"{label}\"}},\"startsAt\":\"{start}\""
        )?;
        if let Some(end) = self.end {
            let end = moment(end);
            write!(body, ",\"endsAt\":\"{end}\"")?;
        }
        body.push_str("}")
    }
}

/// A body with these reports.
pub fn reports_body(alloc: Global, reports: &[Report]) -> Result<String, AllocError> {
    let mut body = String::from_str(alloc, "[")?;
    let mut comma = "";
    for report in reports {
        body.push_str(comma)?;
        report.write_to(&mut body)?;
        comma = ",";
    }
    body.push_str("]")?;
    Ok(body)
}

/// A body with one alert, whose label and start are of this number.
pub fn body_of(alloc: Global, number: u32) -> Result<String, AllocError> {
    reports_body(alloc, &[Report::new(number, number, 4_000_000)])
}

/// A body with one alert that starts and ends at the greatest instant.
pub fn end_body(alloc: Global) -> Result<String, AllocError> {
    let mut body = String::new(alloc);
    let end = Moment::MAX;
    write!(
        body,
        "[{{\"labels\":{{\"ended\":\"1\"}},\"startsAt\":\"{end}\",\"endsAt\":\"{end}\"}}]"
    )?;
    Ok(body)
}
