//! Reading the inhibition rules of a configuration.

ghost use Rattle.std.specs.Prelude.{◌≡◌};
ghost use Rattle.serde_json.specs.View.{view, items_view};
ghost use Rattle.am_config.specs.Members.{ReadsMember};
ghost use Rattle.am_config.specs.Readings.{AllowsResult};
ghost use Rattle.am_config.specs.RuleForms.{rule_form_of};
ghost use Rattle.am_config.specs.RuleReadings.{matchers_member, rule_of, rules_from, rules_of};

use crate::fault::ConfigFault;
use crate::inhibit_rule::{InhibitRule, InhibitRules};
use crate::label_names::LabelNames;
use crate::matcher_reader::read_matchers;
use crate::members::{array_member, refuse_deprecated, texts_member};
use crate::path::Path;
use am_matchers::Matchers;
use serde_json::Value;
use std::alloc::Global;

/// The rules of the whole.
pub(crate) fn read_rules(alloc: Global, whole: &Value) -> Result<InhibitRules, ConfigFault>
    ensures { AllowsResult (rules_of (view whole.now)) result }
{
    let at = Path::whole(alloc);
    let items = array_member(alloc, whole, &at, "inhibit_rules")?;
    rules_from(alloc, &at.member(alloc, "inhibit_rules")?, items)
}

// The rules of the array at a path.
fn rules_from(alloc: Global, path: &Path, items: &[Value]) -> Result<InhibitRules, ConfigFault>
    ensures { AllowsResult (rules_from path.now (items_view items.now)) result }
{
    let mut rules = Vec::with_capacity(alloc, items.len())?;
    for (i, item) in items.iter().enumerate() {
        rules.push(read_rule(alloc, &path.item(alloc, i)?, item)?)?;
    }
    Ok(InhibitRules { rules })
}

// The rule at a path.
fn read_rule(alloc: Global, at: &Path, value: &Value) -> Result<InhibitRule, ConfigFault>
    ensures { AllowsResult (rule_of at.now (view value.now)) result }
{
    check_form(alloc, at, value)?;
    let source = matchers_member(alloc, value, at, "source_matchers")?;
    let target = matchers_member(alloc, value, at, "target_matchers")?;
    let equal = texts_member(alloc, value, at, "equal")?;
    Ok(InhibitRule {
        source,
        target,
        equal: LabelNames { names: equal.texts },
    })
}

#[tactic(auto, unfolding(crate::specs::RuleForms::rule_form_of))]
fn check_form(alloc: Global, at: &Path, value: &Value) -> Result<(), ConfigFault>
    ensures { ReadsMember (λ none. none) result (rule_form_of at.now (view value.now)) }
{
    if !value.is_object() {
        return Err(ConfigFault::WrongKind(at.copy()?));
    }
    refuse_deprecated(alloc, value, at, "source_match")?;
    refuse_deprecated(alloc, value, at, "source_match_re")?;
    refuse_deprecated(alloc, value, at, "target_match")?;
    refuse_deprecated(alloc, value, at, "target_match_re")
}

fn matchers_member(
    alloc: Global,
    value: &Value,
    at: &Path,
    name: &str,
) -> Result<Matchers, ConfigFault>
    ensures { AllowsResult (matchers_member at.now name.now (view value.now)) result }
{
    let texts = texts_member(alloc, value, at, name)?;
    read_matchers(alloc, &at.member(alloc, name)?, &texts)
}
