//! What a person is shown of a configuration that is refused: which member it is, and what is wanted there.
//!
//! The output has the fault and its path, and that is what contracts speak of. This is for the error stream.

use am_config::{ConfigFault, Path};
use am_script::config_advice;
use serde_json::Value;
use std::alloc::{AllocError, Global};

// What is said of each fault of a matcher.
const MATCHER: &str = "a matcher is NAME OP VALUE, as severity=\"page\"";

const PATTERN: &str = "after =~ and !~ it has to be a regular expression";

const BAD_NAME: &str = "begins with no label's name: ";

const BAD_QUOTE: &str = "has a quote that is missing or out of place, or a comma outside quotes: ";

/// A line about the fault of a first line; if that looks like something else, a line about that.
pub fn fault_advice(alloc: Global, line: &[u8], fault: &ConfigFault) -> Result<String, AllocError> {
    if is_command(alloc, line) {
        return config_advice(alloc, line);
    }
    match fault {
        ConfigFault::NoMemory | ConfigFault::NotJson => config_advice(alloc, line),
        ConfigFault::WrongKind(path) if path.as_str().is_empty() => config_advice(alloc, line),
        ConfigFault::WrongKind(path) => at_path(
            alloc,
            path,
            "has to be ",
            wanted_at(path.as_str()),
        ),
        ConfigFault::Missing(path) => at_path(alloc, path, "is missing", missing_at(path.as_str())),
        ConfigFault::Deprecated(path) => older_form(alloc, path),
        ConfigFault::NoOperator(path) => at_path(alloc, path, "has no operator: ", MATCHER),
        ConfigFault::BadName(path) => at_path(alloc, path, BAD_NAME, MATCHER),
        ConfigFault::BadQuote(path) => at_path(alloc, path, BAD_QUOTE, MATCHER),
        ConfigFault::BadPattern(path) => at_path(alloc, path, "has no pattern: ", PATTERN),
        ConfigFault::RootMatchers => whole_line(
            alloc,
            "\"route.matchers\" has to be empty: the root matches every alert, and the routes below it have matchers",
        ),
        ConfigFault::TooDeep => whole_line(
            alloc,
            "\"route.routes\" is too deep: a tree has at most 32 levels of routes, the root included",
        ),
        ConfigFault::BadDuration => whole_line(
            alloc,
            "\"global.resolve_timeout\" is no duration, or too long: it has to be one such as \"5m\"",
        ),
        _ => unreachable!(),
    }
}

// What is said of the member at a path.
fn at_path(alloc: Global, path: &Path, said: &str, more: &str) -> Result<String, AllocError> {
    format!(in alloc; "replay: line 1: \"{path}\" {said}{more}\n")
}

fn older_form(alloc: Global, path: &Path) -> Result<String, AllocError> {
    let newer = newer_than(path.as_str());
    format!(in alloc;
        "replay: line 1: \"{path}\" is of the older form: \"{newer}\" says the same, a list as [\"severity=page\"]\n"
    )
}

fn whole_line(alloc: Global, told: &str) -> Result<String, AllocError> {
    format!(in alloc; "replay: line 1: {told}\n")
}

// Whether a line is a command of a script.
fn is_command(alloc: Global, line: &[u8]) -> bool {
    match Value::from_slice(alloc, line) {
        Ok(value) => value.get("do").is_some(),
        Err(_) => false,
    }
}

// What has to be at a path.
fn wanted_at(path: &str) -> &'static str {
    match path.strip_suffix("]") {
        Some(element) => match element.rsplit_once('[') {
            Some((list, _)) if has_objects(list) => "an object",
            _ => "a text",
        },
        None => wanted_of(path),
    }
}

// What has to be at a path that ends with a member.
fn wanted_of(path: &str) -> &'static str {
    if has_objects(path) {
        "a list of objects"
    } else if path.ends_with("matchers") || path.ends_with("group_by") || path.ends_with("equal") {
        "a list of texts"
    } else if path.ends_with("resolve_timeout") {
        "a duration in a text, as \"5m\""
    } else if path.ends_with("receiver") {
        "a text"
    } else if path.ends_with("continue") {
        "true or false"
    } else {
        "an object"
    }
}

// Whether the list at a path is one of objects.
fn has_objects(path: &str) -> bool {
    path.ends_with("routes") || path.ends_with("inhibit_rules")
}

// What is said of a member that has to be there.
fn missing_at(path: &str) -> &'static str {
    if path.ends_with("receiver") {
        " or empty: it has to be a text that isn't empty"
    } else {
        ": it has to be an object, the root of the routing tree"
    }
}

// The member that says what one of the older form does.
fn newer_than(path: &str) -> &'static str {
    if path.ends_with("source_match") || path.ends_with("source_match_re") {
        "source_matchers"
    } else if path.ends_with("target_match") || path.ends_with("target_match_re") {
        "target_matchers"
    } else {
        "matchers"
    }
}
