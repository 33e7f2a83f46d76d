//! An alert as the log has it.

ghost use Rattle.std.specs.Prelude.{◌≡◌};
ghost use Rattle.std.specs.Arc.{arc_value};

use am_alert::Alert;
use am_store::SharedAlert;
use std::marker::Model;

/// An alert of the log, seen by contracts as the alert. The store has the same one.
#[derive(Debug, Drop)]
pub struct Item {
    alert: SharedAlert,
}

impl Model for Item {
    ghost use Rattle.std.specs.Arc.{arc_value};
    ghost use Rattle.am_alert.specs.declared.alert.Alert.{Alert};
    ghost use Rattle.am_alert.specs.Alerts.{coded_alert};

    ghost Value = { Alert };

    ghost coded = { coded_alert };

    ghost view = { λ item. arc_value item.alert };
}

impl Item {
    pub(crate) fn new(alert: SharedAlert) -> Item
        ensures { result ≡ arc_value alert }
    {
        Item { alert }
    }

    /// The alert.
    pub fn alert(&self) -> &Alert
        ensures { result.now ≡ self.now }
    {
        &self.alert
    }
}
