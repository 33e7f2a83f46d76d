//! What a route states apart from its matchers and the routes below it.

ghost use Rattle.std.specs.Prelude.{◌≡◌, option_copied, IfOk};
ghost use Rattle.std.specs.List.{list_any};
ghost use Rattle.serde_json.specs.View.{view, items_view};
ghost use Rattle.am_config.specs.Members.{ReadsMember};
ghost use Rattle.am_config.specs.RouteHeads.{grouped_by, grouping_of, head_of};
ghost use Rattle.am_config.specs.RouteHeads.{matcher_texts_of, receiver_of, tail_of};

use crate::fault::ConfigFault;
use crate::group_by::GroupBy;
use crate::group_names::GroupNames;
use crate::members::{array_member, flag_member, member_text, refuse_deprecated, texts_member};
use crate::path::Path;
use crate::texts::Texts;
use am_labels::Text;
use serde_json::Value;
use std::alloc::{AllocError, Global};

/// What a route states before its matchers are read. A route below it that states no receiver or no
/// grouping has that of this one.
#[derive(Debug, Drop)]
pub(crate) struct RouteHead {
    pub(crate) receiver: Text,
    pub(crate) group_by: GroupBy,
    /// The route's own alone.
    pub(crate) matcher_texts: Texts,
}

/// The head of the route at a path; the root has none above it.
#[tactic(auto, unfolding(crate::specs::RouteHeads::head_of))]
pub(crate) fn read_head(
    alloc: Global,
    above: Option<&RouteHead>,
    at: &Path,
    value: &Value,
) -> Result<RouteHead, ConfigFault>
    ensures { ReadsMember (λ head. head) result
        (head_of (option_copied above.entry) at.now (view value.now)) }
{
    if !value.is_object() {
        return Err(ConfigFault::WrongKind(at.copy()?));
    }
    refuse_deprecated(alloc, value, at, "match")?;
    refuse_deprecated(alloc, value, at, "match_re")?;
    let receiver = receiver_of(alloc, above, at, value)?;
    let group_by = grouping_of(alloc, above, at, value)?;
    let matcher_texts = matcher_texts_of(alloc, above, at, value)?;
    Ok(RouteHead {
        receiver,
        group_by,
        matcher_texts,
    })
}

#[tactic(auto, unfolding(crate::specs::RouteHeads::receiver_of))]
fn receiver_of(
    alloc: Global,
    above: Option<&RouteHead>,
    at: &Path,
    value: &Value,
) -> Result<Text, ConfigFault>
    ensures { ReadsMember (λ receiver. receiver) result
        (receiver_of (option_copied above.entry) at.now (view value.now)) }
{
    let own = member_text(alloc, value, at, "receiver")?;
    if !own.is_empty() {
        return Ok(Text::from_str(alloc, own)?);
    }
    match above {
        Some(above) => Ok(above.receiver.copy()?),
        None => Err(ConfigFault::Missing(at.member(alloc, "receiver")?)),
    }
}

#[tactic(auto, unfolding(crate::specs::RouteHeads::grouping_of))]
fn grouping_of(
    alloc: Global,
    above: Option<&RouteHead>,
    at: &Path,
    value: &Value,
) -> Result<GroupBy, ConfigFault>
    ensures { ReadsMember (λ grouping. grouping) result
        (grouping_of (option_copied above.entry) at.now (view value.now)) }
{
    let own = texts_member(alloc, value, at, "group_by")?;
    if !own.is_empty() {
        return Ok(grouped_by(alloc, own)?);
    }
    match above {
        Some(above) => Ok(above.group_by.copy()?),
        None => Ok(grouped_by(alloc, own)?),
    }
}

fn grouped_by(alloc: Global, names: Texts) -> Result<GroupBy, AllocError>
    ensures { IfOk result (λ grouping. grouping ≡ grouped_by names) }
{
    if names.has("...") {
        return Ok(GroupBy::All);
    }
    Ok(GroupBy::Names(GroupNames::of(alloc, names)?))
}

#[tactic(auto, unfolding(crate::specs::RouteHeads::matcher_texts_of))]
fn matcher_texts_of(
    alloc: Global,
    above: Option<&RouteHead>,
    at: &Path,
    value: &Value,
) -> Result<Texts, ConfigFault>
    ensures { ReadsMember (λ texts. texts) result
        (matcher_texts_of (option_copied above.entry) at.now (view value.now)) }
{
    let own = texts_member(alloc, value, at, "matchers")?;
    if above.is_none() && !own.is_empty() {
        return Err(ConfigFault::RootMatchers);
    }
    Ok(own)
}

/// What follows a route's matchers: `continue`, and the routes below it, not yet read.
#[tactic(auto, unfolding(crate::specs::RouteHeads::tail_of))]
pub(crate) fn read_tail<'v>(
    alloc: Global,
    at: &Path,
    value: &'v Value,
) -> Result<(bool, &'v [Value]), ConfigFault>
    ensures { ReadsMember (λ tail. (tail.0, items_view tail.1.now)) result
        (tail_of at.now (view value.now)) }
{
    let continues = flag_member(alloc, value, at, "continue")?;
    let children = array_member(alloc, value, at, "routes")?;
    Ok((continues, children))
}
