//! Tests of what no contract says, for the parts that need no thread: label sets, matchers and posts,
//! routes, groups and the inhibitor. Each call succeeds if there is memory, at real size and at each
//! limit. How a configuration is read or refused, and which groups alerts form, is tested by the
//! examples in the folder `rows`.
#![tactic(auto)]

#[cfg(test)]
mod alert_parts;
#[cfg(test)]
mod alerts;
#[cfg(test)]
mod configurations;
#[cfg(test)]
mod expectation;
#[cfg(test)]
mod group_names;
#[cfg(test)]
mod groups;
#[cfg(test)]
mod inhibitor;
#[cfg(test)]
mod label_sets;
#[cfg(test)]
mod letters;
#[cfg(test)]
mod matchers;
#[cfg(test)]
mod moments;
#[cfg(test)]
mod patterns;
#[cfg(test)]
mod posts;
#[cfg(test)]
mod rules;
#[cfg(test)]
mod sentences;
#[cfg(test)]
mod sizes;
#[cfg(test)]
mod tree;
