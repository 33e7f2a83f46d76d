//! Matchers: conditions on the value of one label, which admit some label sets.
//!
//! A matcher is read from a text such as `severity=~"page|crit"`; a missing label counts as empty. A
//! caller who asks it often prepares it: it then keeps its pattern's search, and asking takes no memory.
//!
//! <!-- from crates/am_parts_tests/src/matchers.rt -->
//! ```rust
//! // Whether a prepared matcher gives this answer, asked again and again.
//! fn stays(matcher: &mut PreparedMatcher<'_>, labels: &LabelSet, answer: bool) -> bool {
//!     for _ in 0..3 {
//!         if matcher.admits(labels) != answer {
//!             return false;
//!         }
//!     }
//!     true
//! }
//! ```
//!
//! This crate knows nothing of alerts. It is apart from `am_labels` so that alerts need not wait for its proofs.
#![tactic(auto)]

mod choice;
mod comparison;
pub mod laws;
mod match_fault;
mod matcher;
mod matcher_text;
mod matchers;
mod operator;
mod pattern;
mod prepared_matcher;
mod prepared_matchers;
mod search;

pub use match_fault::MatchFault;
pub use matcher::Matcher;
pub use matchers::Matchers;
pub use operator::Operator;
pub use prepared_matcher::PreparedMatcher;
pub use prepared_matchers::PreparedMatchers;
