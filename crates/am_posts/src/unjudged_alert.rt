//! A whole alert that wasn't judged yet, from its parts or from the JSON that `types.Alert` is written as.

ghost use Rattle.std.specs.Prelude.{◌≡◌, ◌<◌, [], IfOk, IfSome, false, length, option_and_then, option_map};
ghost use Rattle.serde_json.specs.Data.{object};
ghost use Rattle.serde_json.specs.Find.{as_bool, as_str};
ghost use Rattle.serde_json.specs.View.{members_view, view};
ghost use Rattle.am_posts.specs.FromParts.{alert_of, IsJudged};
ghost use Rattle.am_posts.specs.Postables.{Reads, if_given, texts_of};
ghost use Rattle.am_posts.specs.Tokens.{AreNextAlerts};
ghost use Rattle.am_alert.specs.ValidAlerts.{IsWellFormed};
ghost use Rattle.am_posts.specs.WholeAlerts.{alert_in, moment_at};
ghost use Rattle.am_posts.specs.inside.Streams.{AreAlertsOf, IsWholeAlertOf};

use crate::alert_parts::{AlertParts, PartsFault};
use crate::draft_reader::read_draft;
use crate::elements::fault_of;
use crate::postable::{MemberFault, get, labels_with_values, pairs_from, remove};
use crate::room::Room;
use am_alert::{Alert, Moment, TimeFault, read_time};
use am_labels::{LabelSet, PairBuffer, SharedText, Text};
use json::{Reader, Token};
use serde_json::{Map, Value};
use std::alloc::{AllocError, Global};
use std::marker::Model;

/// An alert that wasn't judged yet, and so may have a fault, as one that ends before it starts. Each of its
/// labels has a value. Contracts see it as the alert.
#[derive(Debug, Drop)]
pub struct UnjudgedAlert {
    alert: Alert,
}

impl Model for UnjudgedAlert {
    ghost use Rattle.am_alert.specs.Alerts.{coded_alert};
    ghost use Rattle.am_posts.specs.FromParts.{HasValues};
    ghost use Rattle.am_alert.specs.declared.alert.Alert.{Alert};

    ghost Value = { Alert };

    ghost coded = { coded_alert };

    ghost view = { λ a. a.alert };

    ghost invariant = { λ a. HasValues a.alert.labels };
}

impl UnjudgedAlert {
    /// The alert of these parts. It has the moment of its report, and whether an end was reported, from
    /// the parts.
    pub fn from_parts(alloc: Global, parts: AlertParts) -> Result<UnjudgedAlert, AllocError>
        ensures { IfOk result (λ alert. alert ≡ alert_of parts) }
    {
        let AlertParts {
            labels,
            annotations,
            start,
            end,
            updated,
            timeout,
            generator,
        } = parts;
        Ok(UnjudgedAlert {
            alert: Alert {
                labels: labels_with_values(alloc, labels)?,
                annotations: LabelSet::from_texts(alloc, annotations)?,
                start,
                end,
                updated,
                timeout,
                generator: SharedText::from_text(alloc, generator)?,
            },
        })
    }

    /// The alert of an object's members: `labels`, `annotations`, `startsAt`, `endsAt`, `updatedAt`,
    /// `timeout` and `generatorURL`. None if one that is needed is missing, or one isn't readable.
    pub fn read(alloc: Global, element: Value) -> Result<Option<UnjudgedAlert>, AllocError>
        ensures { IfOk result (λ read. read ≡ alert_in (view element)) }
    {
        match read_parts(alloc, element) {
            Ok(parts) => Ok(Some(UnjudgedAlert::from_parts(alloc, parts)?)),
            Err(MemberFault::Bad) => Ok(None),
            Err(MemberFault::NoMemory) => Err(AllocError),
        }
    }

    /// The alerts of the array that comes next in a text that is read token by token, or none if it isn't
    /// written as `types.Alert` is, with names in byte order. Its arrays and objects may nest so deep; the
    /// buffer is for names and values.
    pub fn read_next(
        alloc: Global,
        reader: &mut Reader<'_>,
        pairs: &mut PairBuffer,
        depth: usize,
    ) -> Result<Option<Vec<UnjudgedAlert>>, AllocError>
        ensures read { IfOk result (λ read. IfSome read
            (λ alerts. AreNextAlerts depth reader.old reader.new alerts.items)) }
        ensures shorter { IfOk result (λ read. IfSome read (λ _. length reader.new < length reader.old)) }
    {
        match reader.next() {
            Some(Token::BeginArray) if depth > 0 => {
                match read_alerts(alloc, reader, pairs, depth - 1)? {
                    Some(alerts) => Ok(Some(alerts)),
                    None => Ok(None),
                }
            }
            _ => Ok(None),
        }
    }

    /// The alert, which shares its texts with this one, if it is valid as an alert of a post has to be.
    pub fn judge(&self) -> Result<Alert, PartsFault>
        ensures judged { IsJudged self.now result }
        ensures well_formed { IfOk result IsWellFormed }
    {
        match fault_of(&self.alert) {
            Some(fault) => Err(PartsFault::Invalid(fault)),
            None => Ok(self.alert.copy()?),
        }
    }
}

// The whole alerts up to the bracket that closes their array.
fn read_alerts(
    alloc: Global,
    reader: &mut Reader<'_>,
    pairs: &mut PairBuffer,
    depth: usize,
) -> Result<Option<Vec<UnjudgedAlert>>, AllocError>
    ensures read { IfOk result (λ read. IfSome read
        (λ alerts. AreAlertsOf depth reader.old reader.new alerts.items)) }
    ensures shorter { IfOk result (λ read. IfSome read (λ _. length reader.new < length reader.old)) }
{
    let mut alerts = Vec::with_capacity(alloc, 1)?;
    'alerts: while !reader.take_end_array() {
        let Some(alert) = read_alert(alloc, reader, pairs, depth)? else {
            return Ok(None);
        };
        alerts.push(alert)?;
    }
    Ok(Some(alerts))
}

fn read_alert(
    alloc: Global,
    reader: &mut Reader<'_>,
    pairs: &mut PairBuffer,
    depth: usize,
) -> Result<Option<UnjudgedAlert>, AllocError>
    ensures read { IfOk result (λ read. IfSome read (IsWholeAlertOf depth reader.old reader.new)) }
    ensures shorter { IfOk result (λ read. IfSome read (λ _. length reader.new < length reader.old)) }
{
    // A put has no limit of its own.
    let mut room = Room::new(usize::MAX);
    let Some(draft) = read_draft(alloc, reader, pairs, &mut room, depth)? else {
        return Ok(None);
    };
    match draft.into_alert() {
        Some(alert) => Ok(Some(UnjudgedAlert { alert })),
        None => Ok(None),
    }
}

#[tactic(auto, unfolding(crate::specs::WholeAlerts::alert_in))]
fn read_parts(alloc: Global, element: Value) -> Result<AlertParts, MemberFault>
    ensures { Reads alert_of result (alert_in (view element)) }
{
    let Value::Object(mut members) = element else {
        return Err(MemberFault::Bad);
    };
    let start = moment_at(&members, "startsAt")?;
    let end = moment_at(&members, "endsAt")?;
    let updated = moment_at(&members, "updatedAt")?;
    let timeout = timeout_of(get(&members, "timeout"))?;
    let labels = labels_of(alloc, remove(&mut members, "labels"))?;
    let annotations = annotations_of(alloc, remove(&mut members, "annotations"))?;
    let generator = generator_of(alloc, remove(&mut members, "generatorURL"))?;
    Ok(AlertParts {
        labels,
        annotations,
        start,
        end,
        updated,
        timeout,
        generator,
    })
}

// The moment of a member, which isn't absent.
fn moment_at(members: &Map<String, Value>, name: &str) -> Result<Moment, MemberFault>
    ensures { Reads (λ moment. moment) result
        (moment_at name.now (object (members_view members.now.entries))) }
{
    let Some(value) = get(members, name) else {
        return Err(MemberFault::Bad);
    };
    let Some(text) = value.as_str() else {
        return Err(MemberFault::Bad);
    };
    match read_time(text) {
        Ok(Some(moment)) => Ok(moment),
        Ok(None) | Err(TimeFault::BadTime) => Err(MemberFault::Bad),
        Err(_) => Err(MemberFault::NoMemory),
    }
}

// Whether no end was reported: false, if the member is missing.
fn timeout_of(member: Option<&Value>) -> Result<bool, MemberFault>
    ensures { Reads (λ timeout. timeout) result
        (if_given false as_bool (option_map (λ value. view value.now) member.entry)) }
{
    let Some(value) = member else {
        return Ok(false);
    };
    match value.as_bool() {
        Some(timeout) => Ok(timeout),
        None => Err(MemberFault::Bad),
    }
}

fn labels_of(alloc: Global, member: Option<Value>) -> Result<Vec<(Text, Text)>, MemberFault>
    ensures { Reads (λ pairs. pairs.items) result (option_and_then texts_of (option_map view member)) }
{
    match member {
        Some(value) => pairs_from(alloc, value),
        None => Err(MemberFault::Bad),
    }
}

fn annotations_of(alloc: Global, member: Option<Value>) -> Result<Vec<(Text, Text)>, MemberFault>
    ensures { Reads (λ pairs. pairs.items) result (if_given [] texts_of (option_map view member)) }
{
    match member {
        Some(value) => pairs_from(alloc, value),
        None => Ok(Vec::new(alloc)),
    }
}

fn generator_of(alloc: Global, member: Option<Value>) -> Result<Text, MemberFault>
    ensures { Reads (λ text. text) result (if_given [] as_str (option_map view member)) }
{
    match member {
        None => Ok(Text::from_str(alloc, "")?),
        Some(Value::String(text)) => Ok(Text::new(text)),
        Some(_) => Err(MemberFault::Bad),
    }
}
