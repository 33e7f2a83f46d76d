//! The configuration: what it holds, and how its JSON is read.
//!
//! What bytes are read as is a relation: a pattern may be refused for its size, which no definition
//! measures. Null counts as absent for members of the older form too: `"match": null` isn't
//! refused.

use crate::fault::ConfigFault;
use crate::inhibit_rule::InhibitRules;
use crate::path::Path;
use crate::route_reader::read_root;
use crate::rule_reader::read_rules;
use crate::timeout::read_timeout;
use crate::tree::RouteTree;
use serde_json::Value;
use std::alloc::Global;
use std::time::Duration;

/// The resolve timeout if the configuration states none: five minutes.
pub const DEFAULT_MILLISECONDS: u64 = 300_000;

/// A configuration that was read. It never changes.
#[derive(Debug, Drop)]
pub struct Config {
    /// How long an alert without an end stays unresolved, counted from its report.
    pub resolve_timeout: Duration,
    pub tree: RouteTree,
    pub rules: InhibitRules,
}

impl Config {
    ghost use Rattle.serde_json.specs.View.{view};
    ghost use Rattle.am_config.specs.Configs.{config_of, IsConfigOf};
    ghost use Rattle.am_config.specs.Readings.{AllowsResult};

    /// The configuration of bytes that are JSON with the member names of Alertmanager's
    /// documentation, or the first fault in the order of the checks. Members that aren't named
    /// there or aren't used here are ignored; one that is null counts as absent.
    pub fn read(alloc: Global, bytes: &[u8]) -> Result<Config, ConfigFault>
        ensures { IsConfigOf bytes.now result }
    {
        match Value::from_slice(alloc, bytes) {
            Ok(value) => Config::from_value(alloc, &value),
            Err(error) if error.is_memory() => Err(ConfigFault::NoMemory),
            Err(_) => Err(ConfigFault::NotJson),
        }
    }

    fn from_value(alloc: Global, whole: &Value) -> Result<Config, ConfigFault>
        ensures { AllowsResult (config_of (view whole.now)) result }
    {
        if !whole.is_object() {
            return Err(ConfigFault::WrongKind(Path::whole(alloc)));
        }
        let resolve_timeout = read_timeout(alloc, whole)?;
        let root = read_root(alloc, whole)?;
        let rules = read_rules(alloc, whole)?;
        Ok(Config {
            resolve_timeout,
            tree: RouteTree { root },
            rules,
        })
    }
}
