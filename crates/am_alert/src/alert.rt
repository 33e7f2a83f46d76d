//! One alert, and how it is printed.

ghost use Rattle.std.specs.Prelude.{◌≡◌, IfOk, Some};
ghost use Rattle.am_alert.specs.Printing.{alert_text};

use crate::moment::Moment;
use am_labels::{LabelSet, SharedText};
use std::alloc::AllocError;
use std::fmt;

/// What was reported of one label set.
#[derive(Debug, Drop, PartialEq, Eq)]
pub struct Alert {
    /// They identify the alert.
    pub labels: LabelSet,
    pub annotations: LabelSet,
    pub start: Moment,
    pub end: Moment,
    /// When the report came.
    pub updated: Moment,
    /// Whether no end was given: the end is then the report's moment plus the resolve timeout.
    pub timeout: bool,
    /// The `generatorURL`, as it was posted.
    pub generator: SharedText,
}

impl Alert {
    ghost use Rattle.am_alert.specs.Merging.{is_resolved_at};

    /// Whether its end isn't after the moment.
    pub fn resolved_at(&self, now: Moment) -> bool
        ensures { result ≡ is_resolved_at now self.now }
    {
        self.end <= now
    }

    /// Its clone.
    pub fn copy(&self) -> Result<Alert, AllocError>
        ensures { IfOk result (λ copy. copy ≡ self.now) }
    {
        self.clone()
    }
}

impl Clone for Alert {
    ghost is_clone = { λ alert clone. clone ≡ alert };

    /// The same alert once more, which shares its texts. It takes no memory, and fails only if
    /// there are 2^63 clones already.
    fn clone(&self) -> Result<Alert, AllocError> {
        Ok(Alert {
            labels: self.labels.clone()?,
            annotations: self.annotations.clone()?,
            start: self.start,
            end: self.end,
            updated: self.updated,
            timeout: self.timeout,
            generator: self.generator.clone()?,
        })
    }
}

// Printed as `{labels} start end given {annotations}`; the generator isn't printed.
impl fmt::Display for Alert {
    ghost output = { λ alert. Some (alert_text alert) };

    fn fmt<W: fmt::Write>(&self, f: &mut fmt::Formatter<W>) -> fmt::Result {
        let end_is = if self.timeout { "timeout" } else { "given" };
        write!(
            f,
            "{} {} {} {end_is} {}",
            self.labels, self.start, self.end, self.annotations
        )
    }
}
