//! Lists in which no two values have one key.
//!
//! A [`KeyedList`] keeps of each key its last value, in the order in which the keys came. It finds a key without a
//! walk. What a value changed can be undone, so that a caller who runs out of memory halfway leaves no trace.
//! Contracts see it as the list of its values, and never its map: [`HasKey`] says what a value's key is, and
//! [`Removes`] which values go.
//!
//! [`KeyedAlerts`] are alerts by their label sets: those of an inhibitor, and those of each group of a dispatcher.
#![tactic(auto)]

mod alerts;
mod keyed;

pub use alerts::KeyedAlerts;
pub use keyed::{HasKey, KeyChange, KeyedList, Removes};
