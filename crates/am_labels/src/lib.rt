//! Label sets: finite maps from names to values, both texts.
//!
//! A label set identifies an alert. It is made of pairs of texts; of pairs with one name the last
//! holds. Its copies share its texts. It is printed as `{name="value"}`, and read from what it prints.
//!
//! <!-- from crates/am_parts_tests/src/label_sets.rt -->
//! ```rust
//! fn has_last_values(labels: &LabelSet) -> bool {
//!     labels.len() == 2 && labels.get("b") == "3" && labels.get("c") == ""
//! }
//! ```
//!
//! This crate knows nothing of alerts. Matchers, which admit some label sets, are am_matchers'.
#![tactic(auto)]

mod label_name;
mod label_set;
mod label_text;
pub mod laws;
mod letters;
mod pairs;
mod quoted;
mod shared_pairs;
mod shared_text;
mod text;

pub use label_name::LabelName;
pub use label_set::LabelSet;
pub use label_text::LabelsFault;
pub use letters::{read_letters, split_name};
pub use pairs::{PairBuffer, Pairs};
pub use quoted::Quoted;
pub use shared_text::SharedText;
pub use text::Text;
