//! An element of a post, or a whole alert, while its members are read.

ghost use Rattle.std.specs.Prelude.{◌≡◌, ◌≢◌, IfOk, IfSome, IsTrue, Some, codes};
ghost use Rattle.serde_json.specs.Data.{Members, no_members, object};
ghost use Rattle.am_posts.specs.FromParts.{HasValues};
ghost use Rattle.am_alert.specs.TimeTexts.{time_of};
ghost use Rattle.am_posts.specs.WholeAlerts.{alert_in};
ghost use Rattle.am_posts.specs.inside.Drafts.{IsDraftOf, IsDrafted, TakesFlag, TakesText};

use crate::postable::Postable;
use am_alert::{Alert, Moment, TimeFault, read_time};
use am_labels::{LabelSet, SharedText, Text};
use std::alloc::{AllocError, Global};

/// What was read of an element's members so far.
#[derive(Debug, Drop)]
pub(crate) struct Draft {
    /// Those with a value, if there was the member.
    pub(crate) labels: Option<LabelSet>,
    pub(crate) annotations: LabelSet,
    pub(crate) start: Option<Moment>,
    pub(crate) end: Option<Moment>,
    pub(crate) updated: Option<Moment>,
    pub(crate) timeout: bool,
    pub(crate) generator: SharedText,
}

impl Draft {
    pub(crate) fn new() -> Draft
        ensures { IsDraftOf result no_members }
    {
        Draft {
            labels: None,
            annotations: LabelSet::new(),
            start: None,
            end: None,
            updated: None,
            timeout: false,
            generator: SharedText::new(),
        }
    }

    /// Whether a member that is a text is read.
    pub(crate) fn take(&mut self, alloc: Global, name: &str, text: &str) -> Result<bool, AllocError>
        requires not_labels { name.now ≢ codes "labels" }
        requires not_annotations { name.now ≢ codes "annotations" }
        ensures { IfOk result (λ read. IsTrue read → TakesText name.now text.now self.old self.new) }
    {
        if name == "startsAt" {
            let Some(start) = time_in(text)? else {
                return Ok(false);
            };
            self.start = start;
            return Ok(true);
        }
        if name == "endsAt" {
            let Some(end) = time_in(text)? else {
                return Ok(false);
            };
            self.end = end;
            return Ok(true);
        }
        if name == "updatedAt" {
            let Some(updated) = time_in(text)? else {
                return Ok(false);
            };
            self.updated = updated;
            return Ok(true);
        }
        if name == "generatorURL" {
            self.generator = SharedText::from_text(alloc, Text::from_str(alloc, text)?)?;
            return Ok(true);
        }
        Ok(name != "timeout")
    }

    /// Whether a member that is true or false is read.
    pub(crate) fn take_flag(&mut self, name: &str, flag: bool) -> bool
        ensures { IsTrue result → TakesFlag name.now flag self.old self.new }
    {
        if name != "timeout" {
            return false;
        }
        self.timeout = flag;
        true
    }

    /// The element of a post, if it has labels.
    pub(crate) fn into_postable(self) -> Option<Postable>
        ensures { (members : Members) → IsDraftOf self members → IsDrafted members result }
    {
        let Draft {
            labels,
            annotations,
            start,
            end,
            updated: _,
            timeout: _,
            generator,
        } = self;
        match labels {
            Some(labels) => Some(Postable {
                labels,
                annotations,
                start,
                end,
                generator,
            }),
            None => None,
        }
    }

    /// The whole alert, if it has labels and all its moments.
    pub(crate) fn into_alert(self) -> Option<Alert>
        requires { (members : Members) × IsDraftOf self members }
        ensures read { IfSome result (λ alert. (members : Members) → IsDraftOf self members
            → alert_in (object members) ≡ Some alert) }
        ensures valued { IfSome result (λ alert. HasValues alert.labels) }
    {
        let Draft {
            labels,
            annotations,
            start,
            end,
            updated,
            timeout,
            generator,
        } = self;
        match (labels, start, end, updated) {
            (Some(labels), Some(start), Some(end), Some(updated)) => Some(Alert {
                labels,
                annotations,
                start,
                end,
                updated,
                timeout,
                generator,
            }),
            _ => None,
        }
    }
}

// The time of a text, absent or not, if it has one.
fn time_in(text: &str) -> Result<Option<Option<Moment>>, AllocError>
    ensures { IfOk result (λ read. IfSome read (λ time. time_of text.now ≡ Some time)) }
{
    match read_time(text) {
        Ok(time) => Ok(Some(time)),
        Err(TimeFault::BadTime) => Ok(None),
        Err(_) => Err(AllocError),
    }
}
