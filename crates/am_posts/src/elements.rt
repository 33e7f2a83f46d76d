//! The elements of a post's array, each read as far as it can be before the post's moment is known.

ghost use Rattle.std.specs.Prelude.{◌≡◌, ◌≤◌, IfOk, length};
ghost use Rattle.std.specs.Duration.{as_nanos};
ghost use Rattle.serde_json.specs.View.{view, items_view};
ghost use Rattle.am_posts.specs.Postables.{postable_of};
ghost use Rattle.am_posts.specs.inside.Given.{IsGiven};
ghost use Rattle.am_posts.specs.Posts.{defaulted, element_of, entries_of, fault_of, postables_of, ReadsEach};

use crate::postable::{MemberFault, Postable, read_postable};
use am_alert::{Alert, AlertFault, Alerts, Faults, MAX_ALERTS, Moment, Post, PostFault};
use serde_json::Value;
use std::alloc::{AllocError, Global};
use std::marker::Model;
use std::time::Duration;

/// What an element of a post is.
#[derive(Debug, Drop)]
pub(crate) enum Element {
    Valid(Alert),
    Invalid(AlertFault),
    BadMember,
    OutOfRange,
}

/// The members of each element of a post, in order. Contracts see them as their list, with none for an
/// element of which a member isn't readable.
#[derive(Debug, Drop)]
pub struct Elements {
    elements: Vec<Option<Postable>>,
}

impl Model for Elements {
    ghost use Rattle.std.specs.Prelude.{List, Option};
    ghost use Rattle.std.specs.Coded.{coded_list, coded_option};
    ghost use Rattle.am_posts.specs.Postables.{coded_postable};
    ghost use Rattle.am_posts.specs.inside.Given.{IsGiven};
    ghost use Rattle.am_posts.specs.declared.postable.Postable.{Postable};

    ghost Value = { List (Option Postable) };

    ghost coded = { coded_list (coded_option coded_postable) };

    ghost view = { λ a. a.elements.items };

    ghost invariant = { λ a. IsGiven a.elements.items };
}

impl Elements {
    /// Those that were read, no more than a post may have.
    pub(crate) fn new(elements: Vec<Option<Postable>>) -> Elements
        requires { IsGiven elements.items }
        ensures { result ≡ elements.items }
    {
        Elements { elements }
    }

    /// Those of an array of values.
    pub(crate) fn read(alloc: Global, values: Vec<Value>) -> Result<Elements, AllocError>
        requires { length values.items ≤ MAX_ALERTS }
        ensures { IfOk result (λ elements. elements ≡ postables_of (items_view values.items)) }
    {
        let mut elements = Vec::with_capacity(alloc, values.len())?;
        for value in values {
            elements.push(read_element(alloc, value)?)?;
        }
        Ok(Elements { elements })
    }

    /// The post of these elements at a moment; the first bad one decides.
    pub(crate) fn post(
        &self,
        alloc: Global,
        now: Moment,
        resolve_timeout: Duration,
    ) -> Result<Post, PostFault>
        ensures { ReadsEach result (entries_of now (as_nanos resolve_timeout) 0 self.now) }
    {
        let mut valid = Vec::with_capacity(alloc, self.elements.len())?;
        let mut faults = Vec::new(alloc);
        for element in &self.elements {
            // Each element before this one is valid or has a fault.
            let i = (valid.len() + faults.len()) as u32;
            match judge(element, now, resolve_timeout)? {
                Element::Valid(alert) => valid.push(alert)?,
                Element::Invalid(fault) => faults.push((i, fault))?,
                Element::BadMember => return Err(PostFault::BadMember(i)),
                Element::OutOfRange => return Err(PostFault::OutOfRange(i)),
            }
        }
        Ok(Post {
            valid: Alerts { alerts: valid },
            faults: Faults { faults },
        })
    }
}

// The members of an element, or none if one isn't readable.
fn read_element(alloc: Global, value: Value) -> Result<Option<Postable>, AllocError>
    ensures { IfOk result (λ element. element ≡ postable_of (view value)) }
{
    match read_postable(alloc, value) {
        Ok(postable) => Ok(Some(postable)),
        Err(MemberFault::Bad) => Ok(None),
        Err(MemberFault::NoMemory) => Err(AllocError),
    }
}

fn judge(
    element: &Option<Postable>,
    now: Moment,
    resolve_timeout: Duration,
) -> Result<Element, AllocError>
    ensures { IfOk result (λ judged. judged ≡ element_of now (as_nanos resolve_timeout) element.now) }
{
    let Some(postable) = element else {
        return Ok(Element::BadMember);
    };
    let Some(alert) = with_defaults(postable, now, resolve_timeout)? else {
        return Ok(Element::OutOfRange);
    };
    Ok(match fault_of(&alert) {
        Some(fault) => Element::Invalid(fault),
        None => Element::Valid(alert),
    })
}

// The alert with its times, or None if it gives no end and the default one isn't an instant.
fn with_defaults(
    postable: &Postable,
    now: Moment,
    resolve_timeout: Duration,
) -> Result<Option<Alert>, AllocError>
    ensures { IfOk result (λ alert. alert ≡ defaulted now (as_nanos resolve_timeout) postable.now) }
{
    let end = match postable.end {
        Some(end) => end,
        None => match now.checked_add(resolve_timeout) {
            Some(end) => end,
            None => return Ok(None),
        },
    };
    Ok(Some(Alert {
        labels: postable.labels.copy()?,
        annotations: postable.annotations.copy()?,
        start: postable.start.or(postable.end).unwrap_or(now),
        end,
        updated: now,
        timeout: postable.end.is_none(),
        generator: postable.generator.copy()?,
    }))
}

// Why an alert is invalid.
pub(crate) fn fault_of(alert: &Alert) -> Option<AlertFault>
    ensures { result ≡ fault_of alert.now }
{
    if alert.labels.is_empty() {
        Some(AlertFault::NoLabels)
    } else if alert.end < alert.start {
        Some(AlertFault::EndBeforeStart)
    } else if alert.labels.contains_name("") || alert.annotations.contains_name("") {
        Some(AlertFault::EmptyName)
    } else {
        None
    }
}
