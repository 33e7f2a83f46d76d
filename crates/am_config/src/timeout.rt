//! Reading the resolve timeout.

ghost use Rattle.std.specs.Prelude.{◌≡◌, option_map};
ghost use Rattle.serde_json.specs.View.{view};
ghost use Rattle.am_config.specs.Configs.{timeout_of};
ghost use Rattle.am_config.specs.Members.{ReadsMember};
ghost use Rattle.am_config.specs.Readings.{AllowsResult};
ghost use Rattle.am_config.specs.Timeouts.{given_text, object_member, timeout_text_of};

use crate::config::DEFAULT_MILLISECONDS;
use crate::duration::read_duration;
use crate::fault::ConfigFault;
use crate::members::given;
use crate::path::Path;
use serde_json::Value;
use std::alloc::Global;
use std::time::Duration;

/// The resolve timeout of the whole.
pub(crate) fn read_timeout(alloc: Global, whole: &Value) -> Result<Duration, ConfigFault>
    ensures { AllowsResult (timeout_of (view whole.now)) result }
{
    let Some(text) = timeout_text_of(alloc, whole)? else {
        return Ok(Duration::from_millis(DEFAULT_MILLISECONDS));
    };
    match read_duration(text) {
        Some(milliseconds) => Ok(Duration::from_millis(milliseconds)),
        None => Err(ConfigFault::BadDuration),
    }
}

#[tactic(auto, unfolding(crate::specs::Timeouts::timeout_text_of))]
fn timeout_text_of(alloc: Global, whole: &Value) -> Result<Option<&str>, ConfigFault>
    ensures { ReadsMember (λ text. option_map (λ text. text.now) text) result
        (timeout_text_of (view whole.now)) }
{
    let at = Path::whole(alloc);
    let Some(settings) = object_member(alloc, whole, &at, "global")? else {
        return Ok(None);
    };
    let at = at.member(alloc, "global")?;
    given_text(alloc, settings, &at, "resolve_timeout")
}

fn object_member<'v>(
    alloc: Global,
    value: &'v Value,
    at: &Path,
    name: &str,
) -> Result<Option<&'v Value>, ConfigFault>
    ensures { ReadsMember (λ member. option_map (λ member. view member.now) member) result
        (object_member at.now name.now (view value.now)) }
{
    let Some(member) = given(value, name) else {
        return Ok(None);
    };
    if !member.is_object() {
        return Err(ConfigFault::WrongKind(at.member(alloc, name)?));
    }
    Ok(Some(member))
}

fn given_text<'v>(
    alloc: Global,
    value: &'v Value,
    at: &Path,
    name: &str,
) -> Result<Option<&'v str>, ConfigFault>
    ensures { ReadsMember (λ text. option_map (λ text. text.now) text) result
        (given_text at.now name.now (view value.now)) }
{
    let Some(member) = given(value, name) else {
        return Ok(None);
    };
    match member.as_str() {
        Some(text) => Ok(Some(text)),
        None => Err(ConfigFault::WrongKind(at.member(alloc, name)?)),
    }
}
