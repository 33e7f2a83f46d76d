//! Alerts by their label sets.

ghost use Rattle.std.specs.Prelude.{◌≡◌, IfOk, OnOk, OnErr};
ghost use Rattle.am_alert.specs.Merging.{is_resolved_at};
ghost use Rattle.am_keyed.specs.Keyed.{with_last_alert, before_alert};

use crate::keyed::{HasKey, KeyChange, KeyedList, Removes};
use am_alert::{Alert, Moment};
use am_labels::LabelSet;
use std::alloc::AllocError;

/// Of each label set its last alert.
pub type KeyedAlerts = KeyedList<LabelSet, Alert>;

impl HasKey<LabelSet> for Alert {
    ghost use Rattle.am_labels.specs.LabelLaws.{labels_decide};

    ghost key = { λ alert. alert.labels };

    ghost same = { λ a b. (labels_decide a b).0 };

    fn key(&self) -> &LabelSet {
        &self.labels
    }
}

impl KeyedList<LabelSet, Alert> {
    /// Replaces the alert of its label set by a clone, or adds that at the end.
    pub fn keep(&mut self, alert: &Alert) -> Result<KeyChange<Alert>, AllocError>
        ensures kept { OnOk result (self.new ≡ with_last_alert alert.now self.old) }
        ensures undo { IfOk result (λ change. before_alert change self.new ≡ self.old) }
        ensures err { OnErr result (self.new ≡ self.old) }
    {
        self.put(alert.labels.copy()?, alert.copy()?)
    }
}

/// A moment removes what is resolved at it.
impl Removes<Alert> for Moment {
    ghost is_removed = { is_resolved_at };

    fn is_removed(&self, alert: &Alert) -> bool {
        alert.resolved_at(*self)
    }
}
