//! Reading the alerts of a command `put`.

ghost use Rattle.serde_json.specs.View.{items_view, view};
ghost use Rattle.am_posts.specs.WholeAlerts.{alert_in, whole_alerts_in};
ghost use Rattle.am_script.specs.Commands.{IsReadAs};
ghost use Rattle.am_script.specs.Members.{ReadsAs};
ghost use Rattle.am_script.specs.Puts.{alerts_at};

use crate::command::LineFault;
use crate::members::take_member;
use crate::put_alerts::PutAlerts;
use am_posts::UnjudgedAlert;
use serde_json::Value;
use std::alloc::Global;

/// The alerts in `alerts`, taken out of their line.
pub(crate) fn alerts_at(alloc: Global, value: Value) -> Result<PutAlerts, LineFault>
    ensures { IsReadAs result (alerts_at (view value)) }
{
    match take_member(value, "alerts") {
        Some(Value::Array(elements)) => Ok(PutAlerts::new(alerts_of_each(alloc, elements)?)),
        _ => Err(LineFault::BadLine),
    }
}

fn alerts_of_each(alloc: Global, elements: Vec<Value>) -> Result<Vec<UnjudgedAlert>, LineFault>
    ensures { ReadsAs (λ alerts. alerts.items) result (whole_alerts_in (items_view elements.items)) }
{
    let mut alerts = Vec::with_capacity(alloc, elements.len())?;
    for element in elements {
        alerts.push(alert_in(alloc, element)?)?;
    }
    Ok(alerts)
}

fn alert_in(alloc: Global, element: Value) -> Result<UnjudgedAlert, LineFault>
    ensures { IsReadAs result (alert_in (view element)) }
{
    match UnjudgedAlert::read(alloc, element)? {
        Some(alert) => Ok(alert),
        None => Err(LineFault::BadLine),
    }
}
