//! One group of alerts: those that match a route and have the same group labels.

ghost use Rattle.std.specs.Prelude.{◌≡◌, [], ◌∷◌, IfOk, OnErr, count_by};
ghost use Rattle.am_alert.specs.Merging.{is_resolved_at, unresolved};
ghost use Rattle.am_keyed.specs.Keyed.{with_last_alert, before_alert};
ghost use Rattle.am_routes.specs.Groups.{is_empty};

use crate::matching::FoundRoute;
use crate::route_id::RouteId;
use am_alert::{Alert, Moment};
use am_keyed::{KeyChange, KeyedAlerts};
use am_labels::LabelSet;
use std::alloc::{AllocError, Global};
use std::fmt;
use std::marker::Model;

/// Alerts of one route with the same group labels: of each label set its last one, in the order in
/// which the label sets began.
#[derive(Drop)]
pub struct Group<'t> {
    route: RouteId,
    receiver: &'t str,
    labels: LabelSet,
    alerts: KeyedAlerts,
}

impl<'t> Model for Group<'t> {
    ghost use Rattle.am_routes.specs.Groups.{GroupView, coded_group};

    ghost Value = { GroupView };

    ghost coded = { coded_group };

    ghost view = { λ g. record {
      route = g.route.0;
      receiver = g.receiver.now;
      labels = g.labels;
      alerts = g.alerts;
    } };
}

impl<'t> Group<'t> {
    ghost use Rattle.am_config.specs.RouteLists.{route_view};

    /// A group with its first alert.
    pub(crate) fn new(
        alloc: Global,
        found: &FoundRoute<'t>,
        labels: LabelSet,
        alert: &Alert,
    ) -> Result<Group<'t>, AllocError>
        ensures { IfOk result (λ group. group ≡ record {
          route = found.now.id.0;
          receiver = found.now.route.now.receiver;
          labels = labels;
          alerts = alert.now ∷ [];
        }) }
    {
        let mut alerts = KeyedAlerts::new(alloc);
        let _added = alerts.keep(alert)?;
        Ok(Group {
            route: found.id,
            receiver: found.route.receiver.as_str(),
            labels,
            alerts,
        })
    }

    /// The route that its alerts match.
    pub fn route(&self) -> RouteId
        ensures { result.0 ≡ self.now.route }
    {
        self.route
    }

    /// Who is notified of its alerts.
    pub fn receiver(&self) -> &str
        ensures { result.now ≡ self.now.receiver }
    {
        self.receiver
    }

    /// The labels that its alerts have in common.
    pub fn labels(&self) -> &LabelSet
        ensures { result.now ≡ self.now.labels }
    {
        &self.labels
    }

    /// Of each label set its last alert, in the order in which the label sets began.
    pub fn alerts(&self) -> &[Alert]
        ensures { result.now ≡ self.now.alerts }
    {
        self.alerts.as_slice()
    }

    pub(crate) fn is_empty(&self) -> bool
        ensures { result ≡ is_empty self.now.alerts }
    {
        self.alerts().is_empty()
    }

    /// Replaces the last alert of an alert's label set by it, or adds it at the end.
    pub(crate) fn put(&mut self, alert: &Alert) -> Result<KeyChange<Alert>, AllocError>
        ensures put { IfOk result (λ _.
            self.new ≡ record self.old { alerts = with_last_alert alert.now self.old.alerts }) }
        ensures undo { IfOk result
            (λ change. before_alert change self.new.alerts ≡ self.old.alerts) }
        ensures err { OnErr result (self.new ≡ self.old) }
    {
        self.alerts.keep(alert)
    }

    /// Undoes the last change.
    pub(crate) fn undo(&mut self, change: KeyChange<Alert>)
        ensures { self.new ≡ record self.old { alerts = before_alert change self.old.alerts } }
    {
        self.alerts.undo(change);
    }

    /// Removes the resolved alerts, and returns how many they were.
    pub(crate) fn remove_resolved(&mut self, now: Moment) -> u64
        ensures group { self.new ≡ record self.old { alerts = unresolved now self.old.alerts } }
        ensures removed { result ≡ count_by (is_resolved_at now) self.old.alerts }
    {
        self.alerts.remove(&now) as u64
    }
}

impl fmt::Debug for Group<'_> {
    fn fmt<W: fmt::Write>(&self, f: &mut fmt::Formatter<W>) -> fmt::Result {
        f.debug_struct("Group")
            .field("route", &self.route)
            .field("receiver", &self.receiver)
            .field("labels", &self.labels)
            .finish_non_exhaustive()
    }
}
