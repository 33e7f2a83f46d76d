//! The configurations and labels that tests of routes are made with.

use am_config::{Config, ConfigFault};
use am_labels::LabelSet;
use std::alloc::{AllocError, Global};
use std::test::Fail;

/// The configuration of a text, read once more where memory was refused.
pub(crate) fn configuration(alloc: Global, text: &str) -> Result<Config, Fail> {
    match Config::read(alloc, text.as_bytes()) {
        Ok(config) => Ok(config),
        Err(ConfigFault::NoMemory) => reread(alloc, text),
        Err(_) => Err(Fail::from("the configuration is refused")),
    }
}

fn reread(alloc: Global, text: &str) -> Result<Config, Fail> {
    match Config::read(alloc, text.as_bytes()) {
        Ok(config) => Ok(config),
        Err(_) => Err(Fail::from("the configuration is refused")),
    }
}

/// The labels of a text such as `a=1 b=2`.
pub(crate) fn labels(alloc: Global, text: &str) -> Result<LabelSet, AllocError> {
    let mut pairs = Vec::new(alloc);
    for pair in text.split(' ') {
        if let Some((name, value)) = pair.split_once('=') {
            pairs.push((
                String::from_str(alloc, name)?,
                String::from_str(alloc, value)?,
            ))?;
        }
    }
    LabelSet::from_pairs(alloc, pairs)
}
