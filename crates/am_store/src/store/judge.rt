//! Judging the reports of a post by a filter, before any of them is stored.
//!
//! What a filter accepts is found over the store's own map, which is put back; then that is posted as
//! any other post. A filter within the merge would need a log that takes a batch whose size isn't known
//! yet.

ghost use Rattle.std.specs.Prelude.{◌≡◌, ◌≤◌, [], IfOk, OnErr, is_none, length, vec_capacity};
ghost use Rattle.am_alert.specs.declared.post.TheConstants.{MAX_ALERTS};
ghost use Rattle.am_store.specs.AlertList.{lookup};
ghost use Rattle.am_store.specs.AlertMaps.{stored_in, all_taken_back, AreKeptByLabels};
ghost use Rattle.am_store.specs.Judging.{AreJudged, WasAsked};

use crate::store::absorb::{Change, absorb_one, block_of, take_back, take_one_back};
use crate::store::{AlertMap, Store};
use am_alert::{Alert, Alerts, Moment};
use am_labels::LabelSet;
use std::alloc::AllocError;

/// What a filter said of some reports.
#[derive(Debug, Drop)]
pub struct Judged {
    /// Those that it accepted, as they were reported.
    pub accepted: Alerts,
    /// The indices of those that it refused, in order.
    pub refused: Vec<u32>,
}

impl Store {
    /// Asks a filter of each report, in order. The filter gets the alert as it would be stored, over what the
    /// accepted ones before it left, and whether no alert of its label set was there. Nothing is stored. If
    /// memory runs out, it was asked of some of the first reports, or of all.
    pub fn judge<F: FnMut(&Alert, bool) -> bool>(
        &mut self,
        news: Alerts,
        now: Moment,
        accepts: &mut F,
    ) -> Result<Judged, AllocError>
        requires few { length news ≤ MAX_ALERTS }
        requires callable { F.IsAlwaysCallable accepts.old }
        ensures judged { IfOk result (λ done. AreJudged F.FnMut now accepts.new accepts.old 0
            (stored_in self.old) news done.accepted done.refused.items) }
        ensures asked { OnErr result (WasAsked F.FnMut now accepts.new accepts.old
            (stored_in self.old) news) }
        ensures callable { F.IsAlwaysCallable accepts.new }
        ensures same { self.new ≡ self.old }
    {
        let alloc = *self.alerts.allocator();
        let mut changes = Vec::with_capacity(alloc, news.as_slice().len())?;
        let judged = judge_over(&mut self.alerts, &mut changes, news, now, accepts);
        take_back(&mut self.alerts, changes);
        judged
    }
}

// The same, which stores those that were accepted, and notes how to take them back. Each report before one was
// accepted or refused, which gives its index.
fn judge_over<F: FnMut(&Alert, bool) -> bool>(
    alerts: &mut AlertMap,
    changes: &mut Vec<Change>,
    news: Alerts,
    now: Moment,
    accepts: &mut F,
) -> Result<Judged, AllocError>
    requires kept { AreKeptByLabels alerts.old.entries }
    requires few { length news ≤ MAX_ALERTS }
    requires callable { F.IsAlwaysCallable accepts.old }
    requires empty { changes.old.items ≡ [] }
    requires room { length news ≤ vec_capacity changes.old }
    ensures judged { IfOk result (λ done. AreJudged F.FnMut now accepts.new accepts.old 0
        (stored_in alerts.old.entries) news done.accepted done.refused.items) }
    ensures asked { OnErr result (WasAsked F.FnMut now accepts.new accepts.old (stored_in alerts.old.entries) news) }
    ensures callable { F.IsAlwaysCallable accepts.new }
    ensures back { all_taken_back changes.new.items alerts.new.entries ≡ alerts.old.entries }
{
    let Alerts { alerts: reports } = news;
    let mut accepted = Vec::with_capacity(*alerts.allocator(), reports.len())?;
    let mut refused = Vec::with_capacity(*alerts.allocator(), reports.len())?;
    for new in reports {
        let index = (accepted.len() + refused.len()) as u32;
        let first = is_first(alerts, &new.labels);
        let mut became = block_of(*alerts.allocator(), &new)?;
        let change = absorb_one(alerts, &mut became, now)?;
        let keeps = accepts(&*became, first);
        if keeps {
            accepted.push_reserved(new);
            changes.push_reserved(change);
        } else {
            refused.push_reserved(index);
            take_one_back(alerts, change);
        }
    }
    Ok(Judged {
        accepted: Alerts { alerts: accepted },
        refused,
    })
}

// Whether no alert has the label set.
fn is_first(alerts: &AlertMap, labels: &LabelSet) -> bool
    requires { AreKeptByLabels alerts.now.entries }
    ensures { result ≡ is_none (lookup labels.now (stored_in alerts.now.entries)) }
{
    alerts.get(labels).is_none()
}
