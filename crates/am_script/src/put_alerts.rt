//! The alerts of a command `put`, which carry their own moments.

ghost use Rattle.std.specs.Prelude.{◌≡◌};

use am_posts::UnjudgedAlert;
use std::marker::Model;

/// Alerts as a line gives them, seen by contracts as their list. They never change, so that a post of them
/// shares their texts.
#[derive(Debug, Drop)]
pub struct PutAlerts {
    alerts: Vec<UnjudgedAlert>,
}

impl Model for PutAlerts {
    ghost use Rattle.std.specs.Prelude.{List};
    ghost use Rattle.std.specs.Coded.{coded_list};
    ghost use Rattle.am_alert.specs.Alerts.{coded_alert};
    ghost use Rattle.am_alert.specs.declared.alert.Alert.{Alert};

    ghost Value = { List Alert };

    ghost coded = { coded_list coded_alert };

    ghost view = { λ a. a.alerts.items };
}

impl PutAlerts {
    pub(crate) fn new(alerts: Vec<UnjudgedAlert>) -> PutAlerts
        ensures { result ≡ alerts.items }
    {
        PutAlerts { alerts }
    }

    pub fn as_slice(&self) -> &[UnjudgedAlert]
        ensures { result.now ≡ self.now }
    {
        &self.alerts
    }
}
