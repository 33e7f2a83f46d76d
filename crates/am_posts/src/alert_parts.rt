//! Alerts from their parts, for callers that have no JSON of them, and a post of such alerts.
//!
//! Labels and annotations are pairs and not label sets: labels without a value have to go before the set
//! is made.

ghost use Rattle.std.specs.Prelude.{◌≡◌, ◌≤◌, IfOk, Some, length, map};
ghost use Rattle.am_posts.specs.FromParts.{alert_of, IsAlertOf, IsPostOfAlerts, IsPostOfParts};

use crate::unjudged_alert::UnjudgedAlert;
use am_alert::{Alert, AlertFault, Alerts, Faults, MAX_ALERTS, Moment, Post, PostFault};
use am_labels::Text;
use std::alloc::{AllocError, Global};
use thiserror::Error;

/// What an alert is made of.
#[derive(Debug, Drop)]
pub struct AlertParts {
    /// Names and values. Those without a value are ignored, and of the others the last with a name
    /// holds.
    pub labels: Vec<(Text, Text)>,
    /// Names and values. The last with a name holds.
    pub annotations: Vec<(Text, Text)>,
    pub start: Moment,
    pub end: Moment,
    /// When the report came.
    pub updated: Moment,
    /// Whether no end was reported.
    pub timeout: bool,
    pub generator: Text,
}

/// Why parts make no alert.
#[derive(Clone, Copy, Debug, PartialEq, Eq, Error)]
#[non_exhaustive]
pub enum PartsFault {
    #[error("there is no memory for an alert")]
    NoMemory,
    /// The alert is invalid, as it would be in a post.
    #[error(transparent)]
    Invalid(AlertFault),
}

impl From<AllocError> for PartsFault {
    ghost use Rattle.am_posts.specs.declared.alert_parts.PartsFault.TheVariants.{NoMemory};

    ghost from_gives = { λ _ e. e ≡ NoMemory };

    fn from(_e: AllocError) -> PartsFault {
        PartsFault::NoMemory
    }
}

impl AlertParts {
    /// The alert of these parts, if it is valid as an alert of a post has to be.
    pub fn into_alert(self, alloc: Global) -> Result<Alert, PartsFault>
        ensures { IsAlertOf self result }
    {
        UnjudgedAlert::from_parts(alloc, self)?.judge()
    }
}

/// A post of these alerts: the valid ones, and the faults of the others with their indices. It shares
/// their texts.
pub fn post_from_alerts(alloc: Global, alerts: &[UnjudgedAlert]) -> Result<Post, PostFault>
    ensures { IsPostOfAlerts alerts.now result }
{
    if alerts.len() > MAX_ALERTS {
        return Err(PostFault::TooMany);
    }
    judge_each(alloc, alerts)
}

/// A post of the alerts of these parts.
pub fn post_from_parts(alloc: Global, parts: Vec<AlertParts>) -> Result<Post, PostFault>
    ensures { IsPostOfParts parts.items result }
{
    if parts.len() > MAX_ALERTS {
        return Err(PostFault::TooMany);
    }
    post_from_alerts(alloc, &unjudged(alloc, parts)?)
}

fn unjudged(alloc: Global, parts: Vec<AlertParts>) -> Result<Vec<UnjudgedAlert>, AllocError>
    ensures { IfOk result (λ alerts. alerts.items ≡ map alert_of parts.items) }
{
    let mut alerts = Vec::with_capacity(alloc, parts.len())?;
    for one in parts {
        alerts.push(UnjudgedAlert::from_parts(alloc, one)?)?;
    }
    Ok(alerts)
}

// The alerts in order.
fn judge_each(alloc: Global, alerts: &[UnjudgedAlert]) -> Result<Post, PostFault>
    requires { length alerts.now ≤ MAX_ALERTS }
    ensures { IsPostOfAlerts alerts.now result }
{
    let mut valid = Vec::with_capacity(alloc, alerts.len())?;
    let mut faults = Vec::new(alloc);
    for alert in alerts {
        // Each alert before this one is valid or has a fault.
        let i = (valid.len() + faults.len()) as u32;
        match alert.judge() {
            Ok(alert) => valid.push(alert)?,
            Err(PartsFault::Invalid(fault)) => faults.push((i, fault))?,
            Err(PartsFault::NoMemory) => return Err(PostFault::NoMemory),
        }
    }
    Ok(Post {
        valid: Alerts { alerts: valid },
        faults: Faults { faults },
    })
}
