//! A list of alerts.

ghost use Rattle.std.specs.Prelude.{◌≡◌};

use crate::alert::Alert;
use std::marker::Model;
use std::slice;

/// Alerts in order, seen by contracts as their list.
#[derive(Debug, Drop)]
pub struct Alerts {
    pub alerts: Vec<Alert>,
}

impl Model for Alerts {
    ghost use Rattle.std.specs.Prelude.{List};
    ghost use Rattle.std.specs.Coded.{coded_list};
    ghost use Rattle.am_alert.specs.declared.alert.Alert.{Alert};
    ghost use Rattle.am_alert.specs.Alerts.{coded_alert};

    ghost Value = { List Alert };

    ghost coded = { coded_list coded_alert };

    ghost view = { λ a. a.alerts.items };
}

impl Alerts {
    pub fn as_slice(&self) -> &[Alert]
        ensures { result.now ≡ self.now }
    {
        &self.alerts
    }
}

impl<'a> IntoIterator for &'a Alerts {
    type Item = &'a Alert;

    type IntoIter = slice::Iter<'a, Alert>;

    ghost use Rattle.std.specs.Prelude.{◌≡◌};
    ghost use Rattle.std.specs.Iterator.Runs.{EveryRun, ItemsMapTo};
    ghost use Rattle.std.specs.Slice.Iter.{iter_rest, iter_steps};
    ghost use Rattle.am_alert.specs.declared.alert.Alert.{Alert};

    ghost into_iter_gives = { λ list iter. (iter_rest iter ≡ list.now)
        × EveryRun (iter_steps {A = Alert}) (λ run. ItemsMapTo run (λ x. x.now) (iter_rest run.from)) };

    fn into_iter(self) -> slice::Iter<'a, Alert> {
        self.alerts.iter()
    }
}
