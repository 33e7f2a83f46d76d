//! Inhibition rules: which alerts mute which others.

use crate::label_names::LabelNames;
use am_matchers::Matchers;
use std::marker::Model;

/// A rule by which an alert mutes others. am_inhibit applies it.
#[derive(Debug, Drop)]
pub struct InhibitRule {
    /// Which alerts mute (`source_matchers`).
    pub source: Matchers,
    /// Which alerts are muted (`target_matchers`).
    pub target: Matchers,
    /// The labels whose values both must share, as the configuration lists them.
    pub equal: LabelNames,
}

/// Rules in order, seen by contracts as their list.
#[derive(Debug, Drop)]
pub struct InhibitRules {
    pub rules: Vec<InhibitRule>,
}

impl Model for InhibitRules {
    ghost use Rattle.std.specs.Prelude.{List};
    ghost use Rattle.am_config.specs.declared.inhibit_rule.InhibitRule.{InhibitRule};

    ghost Value = { List InhibitRule };

    ghost view = { λ a. a.rules.items };
}

impl InhibitRules {
    ghost use Rattle.std.specs.Prelude.{◌≡◌};

    pub fn as_slice(&self) -> &[InhibitRule]
        ensures { result.now ≡ self.now }
    {
        &self.rules
    }
}
