//! The members of a configuration's objects: each of its kind, or a fault with its path.

ghost use Rattle.std.specs.Prelude.{◌≡◌, option_map};
ghost use Rattle.serde_json.specs.View.{view, items_view};
ghost use Rattle.am_alert.specs.GivenMembers.{given};
ghost use Rattle.am_config.specs.Members.{array_member, deprecated_member, flag_member};
ghost use Rattle.am_config.specs.Members.{member_text, texts_from, texts_member, ReadsMember};

use crate::fault::ConfigFault;
use crate::path::Path;
use crate::texts::Texts;
use am_labels::Text;
use serde_json::Value;
use std::alloc::Global;

/// A member that is there and isn't null.
pub(crate) fn given<'v>(value: &'v Value, name: &str) -> Option<&'v Value>
    ensures { option_map (λ member. view member.now) result ≡ given name.now (view value.now) }
{
    match value.get(name) {
        Some(Value::Null) => None,
        other => other,
    }
}

pub(crate) fn member_text<'v>(
    alloc: Global,
    value: &'v Value,
    at: &Path,
    name: &str,
) -> Result<&'v str, ConfigFault>
    ensures { ReadsMember (λ text. text.now) result (member_text at.now name.now (view value.now)) }
{
    let Some(member) = given(value, name) else {
        return Ok("");
    };
    match member.as_str() {
        Some(text) => Ok(text),
        None => Err(ConfigFault::WrongKind(at.member(alloc, name)?)),
    }
}

pub(crate) fn flag_member(
    alloc: Global,
    value: &Value,
    at: &Path,
    name: &str,
) -> Result<bool, ConfigFault>
    ensures { ReadsMember (λ flag. flag) result (flag_member at.now name.now (view value.now)) }
{
    let Some(member) = given(value, name) else {
        return Ok(false);
    };
    match member.as_bool() {
        Some(flag) => Ok(flag),
        None => Err(ConfigFault::WrongKind(at.member(alloc, name)?)),
    }
}

pub(crate) fn array_member<'v>(
    alloc: Global,
    value: &'v Value,
    at: &Path,
    name: &str,
) -> Result<&'v [Value], ConfigFault>
    ensures { ReadsMember (λ items. items_view items.now) result
        (array_member at.now name.now (view value.now)) }
{
    let Some(member) = given(value, name) else {
        return Ok(&[]);
    };
    match member.as_array() {
        Some(items) => Ok(items),
        None => Err(ConfigFault::WrongKind(at.member(alloc, name)?)),
    }
}

pub(crate) fn texts_member(
    alloc: Global,
    value: &Value,
    at: &Path,
    name: &str,
) -> Result<Texts, ConfigFault>
    ensures { ReadsMember (λ texts. texts) result (texts_member at.now name.now (view value.now)) }
{
    let items = array_member(alloc, value, at, name)?;
    texts_from(alloc, items, &at.member(alloc, name)?)
}

fn texts_from(alloc: Global, items: &[Value], path: &Path) -> Result<Texts, ConfigFault>
    ensures { ReadsMember (λ texts. texts) result (texts_from path.now 0 (items_view items.now)) }
{
    let mut texts = Vec::with_capacity(alloc, items.len())?;
    for (i, item) in items.iter().enumerate() {
        match item.as_str() {
            Some(text) => texts.push(Text::from_str(alloc, text)?)?,
            None => return Err(ConfigFault::WrongKind(path.item(alloc, i)?)),
        }
    }
    Ok(Texts { texts })
}

/// Refuses a member of the older form.
pub(crate) fn refuse_deprecated(
    alloc: Global,
    value: &Value,
    at: &Path,
    name: &str,
) -> Result<(), ConfigFault>
    ensures { ReadsMember (λ none. none) result (deprecated_member at.now name.now (view value.now)) }
{
    match given(value, name) {
        Some(_) => Err(ConfigFault::Deprecated(at.member(alloc, name)?)),
        None => Ok(()),
    }
}
