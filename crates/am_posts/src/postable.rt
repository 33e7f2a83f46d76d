//! Reading the members of a postable alert.

ghost use Rattle.std.specs.Prelude.{◌≡◌, ◌++◌, ◌∷◌, [], List, ℕ, IfOk, OnOk, filter, option_and_then, option_map, string_bytes};
ghost use Rattle.std.specs.FinMap.{empty};
ghost use Rattle.std.specs.List.{list_all};
ghost use Rattle.serde_json.specs.Data.{object};
ghost use Rattle.serde_json.specs.View.{view, members_view};
ghost use Rattle.serde_json.specs.Find.{as_str, get_member};
ghost use Rattle.am_labels.specs.LabelSets.{last_holds};
ghost use Rattle.am_alert.specs.GivenMembers.{given};
ghost use Rattle.am_posts.specs.Postables.{annotations_of, has_value, if_given, labels_of, pairs_of, postable_of, texts_of, time_at, Reads};

use am_alert::{Moment, read_time};
use am_labels::{LabelSet, PairBuffer, Pairs, SharedText, Text};
use serde_json::{Map, Value};
use std::alloc::{AllocError, AllocFailed, Global};

/// Why a member was not read.
#[derive(Clone, Copy, Debug, PartialEq, Eq)]
pub(crate) enum MemberFault {
    /// It is missing, has another kind, or is a time that isn't readable.
    Bad,
    NoMemory,
}

impl From<AllocError> for MemberFault {
    ghost use Rattle.am_posts.specs.declared.postable.MemberFault.TheVariants.{NoMemory};

    ghost from_gives = { λ _ e. e ≡ NoMemory };

    fn from(_e: AllocError) -> MemberFault {
        MemberFault::NoMemory
    }
}

impl<T: Drop> From<AllocFailed<T>> for MemberFault {
    ghost use Rattle.am_posts.specs.declared.postable.MemberFault.TheVariants.{NoMemory};

    ghost from_gives = { λ _ e. e ≡ NoMemory };

    fn from(_e: AllocFailed<T>) -> MemberFault {
        MemberFault::NoMemory
    }
}

/// The members of an element as they were given, before the defaults.
#[derive(Debug, Drop)]
pub(crate) struct Postable {
    /// Those with a value.
    pub(crate) labels: LabelSet,
    pub(crate) annotations: LabelSet,
    pub(crate) start: Option<Moment>,
    pub(crate) end: Option<Moment>,
    pub(crate) generator: SharedText,
}

#[tactic(auto, unfolding(crate::specs::Postables::postable_of))]
pub(crate) fn read_postable(alloc: Global, element: Value) -> Result<Postable, MemberFault>
    ensures { Reads (λ p. p) result (postable_of (view element)) }
{
    let Value::Object(mut members) = element else {
        return Err(MemberFault::Bad);
    };
    let start = time_at(&members, "startsAt")?;
    let end = time_at(&members, "endsAt")?;
    let labels = labels_of(alloc, take(&mut members, "labels"))?;
    let annotations = annotations_of(alloc, take(&mut members, "annotations"))?;
    let generator = generator_of(alloc, take(&mut members, "generatorURL"))?;
    Ok(Postable {
        labels,
        annotations,
        start,
        end,
        generator,
    })
}

// A member that is there and isn't null. It is removed from the object.
fn take(members: &mut Map<String, Value>, name: &str) -> Option<Value>
    ensures given { option_map view result
        ≡ given name.now (object (members_view members.old.entries)) }
    ensures others { (other : List ℕ) → (other ≡ name.now → ⊥)
        → get_member other (members_view members.new.entries)
        ≡ get_member other (members_view members.old.entries) }
{
    match remove(members, name) {
        Some(Value::Null) => None,
        other => other,
    }
}

// A member, which is removed from the object.
pub(crate) fn remove(members: &mut Map<String, Value>, name: &str) -> Option<Value>
    ensures member { option_map view result
        ≡ get_member name.now (members_view members.old.entries) }
    ensures others { (other : List ℕ) → (other ≡ name.now → ⊥)
        → get_member other (members_view members.new.entries)
        ≡ get_member other (members_view members.old.entries) }
{
    members.remove(name)
}

// A member that is there and isn't null.
fn given<'v>(members: &'v Map<String, Value>, name: &str) -> Option<&'v Value>
    ensures { option_map (λ v. view v.now) result
        ≡ given name.now (object (members_view members.now.entries)) }
{
    match get(members, name) {
        Some(Value::Null) => None,
        other => other,
    }
}

// A member.
pub(crate) fn get<'v>(members: &'v Map<String, Value>, name: &str) -> Option<&'v Value>
    ensures { option_map (λ v. view v.now) result
        ≡ get_member name.now (members_view members.now.entries) }
{
    members.get(name)
}

fn labels_of(alloc: Global, value: Option<Value>) -> Result<LabelSet, MemberFault>
    ensures { Reads (λ l. l) result (option_and_then labels_of (option_map view value)) }
{
    let Some(value) = value else {
        return Err(MemberFault::Bad);
    };
    Ok(labels_with_values(alloc, pairs_from(alloc, value)?)?)
}

// The labels of those pairs that have a value.
pub(crate) fn labels_with_values(
    alloc: Global,
    pairs: Vec<(Text, Text)>,
) -> Result<LabelSet, AllocError>
    ensures { IfOk result (λ labels. labels ≡ last_holds (filter has_value pairs.items)) }
{
    let mut kept = pairs;
    let has_value = |pair: &(Text, Text)| -> bool
        ensures { result ≡ has_value pair.now }
    { !pair.1.is_empty() };
    kept.retain(has_value);
    LabelSet::from_texts(alloc, kept)
}

// The same of pairs in a buffer.
pub(crate) fn labels_of_pairs(alloc: Global, pairs: &PairBuffer) -> Result<LabelSet, AllocError>
    ensures { IfOk result (λ labels. labels ≡ last_holds (filter has_value pairs.now)) }
{
    if have_values(pairs.as_pairs()) {
        return LabelSet::from_buffer(alloc, pairs);
    }
    let mut kept = PairBuffer::new(alloc);
    for (name, value) in pairs.as_pairs() {
        if !value.is_empty() {
            kept.push(name, value)?;
        }
    }
    LabelSet::from_buffer(alloc, &kept)
}

fn have_values(pairs: Pairs<'_>) -> bool
    ensures { result ≡ list_all has_value pairs.entry }
{
    for (_, value) in pairs {
        if value.is_empty() {
            return false;
        }
    }
    true
}

fn annotations_of(alloc: Global, value: Option<Value>) -> Result<LabelSet, MemberFault>
    ensures { Reads (λ l. l) result (if_given empty annotations_of (option_map view value)) }
{
    let Some(value) = value else {
        return Ok(LabelSet::new());
    };
    Ok(LabelSet::from_texts(alloc, pairs_from(alloc, value)?)?)
}

fn generator_of(alloc: Global, value: Option<Value>) -> Result<SharedText, MemberFault>
    ensures { Reads (λ t. t) result (if_given [] as_str (option_map view value)) }
{
    match value {
        None => Ok(SharedText::new()),
        Some(Value::String(text)) => Ok(SharedText::from_text(alloc, Text::new(text))?),
        Some(_) => Err(MemberFault::Bad),
    }
}

fn time_at(members: &Map<String, Value>, name: &str) -> Result<Option<Moment>, MemberFault>
    ensures { Reads (λ t. t) result
        (time_at name.now (object (members_view members.now.entries))) }
{
    let Some(value) = given(members, name) else {
        return Ok(None);
    };
    let Some(text) = value.as_str() else {
        return Err(MemberFault::Bad);
    };
    match read_time(text) {
        Ok(time) => Ok(time),
        Err(_) => Err(MemberFault::Bad),
    }
}

// Names and values, from an object of texts.
pub(crate) fn pairs_from(alloc: Global, value: Value) -> Result<Vec<(Text, Text)>, MemberFault>
    ensures { Reads (λ v. v.items) result (texts_of (view value)) }
{
    let Value::Object(members) = value else {
        return Err(MemberFault::Bad);
    };
    pairs_of(alloc, members)
}

fn pairs_of(alloc: Global, members: Map<String, Value>) -> Result<Vec<(Text, Text)>, MemberFault>
    ensures { Reads (λ v. v.items) result (pairs_of (members_view members.entries)) }
{
    let mut pairs = Vec::with_capacity(alloc, members.len())?;
    for (name, value) in members {
        let Value::String(value) = value else {
            return Err(MemberFault::Bad);
        };
        push_pair(&mut pairs, name, value)?;
    }
    Ok(pairs)
}

fn push_pair(pairs: &mut Vec<(Text, Text)>, name: String, value: String) -> Result<(), AllocError>
    ensures { OnOk result
        (pairs.new.items ≡ pairs.old.items ++ (string_bytes name, string_bytes value) ∷ []) }
{
    pairs.push((Text::new(name), Text::new(value)))?;
    Ok(())
}
