//! What a line's call answers, and how an answer is printed.
//!
//! An [`Answer`] is what one command answered, or one thing of several: an alert that a read showed, a group, a route. It
//! prints itself as text, and `write_answers` prints a line's answers as text or as JSON. What needs no provider is
//! answered here too: a subscription's [`Consumer`] (a dispatcher, an inhibitor, both or neither) tells its groups and
//! what is muted, and a [`PreparedConfig`] its routes. A run that follows shows the alerts that it knows by their places
//! (`known.rt`, `showing.rt`).
//!
//! No provider, no thread and no lock is here: am_runner makes the calls.
#![tactic(auto)]

mod answer;
mod answer_json;
mod codes;
mod consumer;
mod debug;
mod group_answers;
mod known;
mod prepared_config;
mod room_for_answer;
mod routes;
mod showing;

pub use answer::{Answer, GroupHead, PageHead, one, write_answers};
pub use answer_json::write_count;
pub use consumer::{Consumer, Half};
pub use known::{KnownAlerts, make_room, note_known};
pub use prepared_config::PreparedConfig;
pub use room_for_answer::RoomForAnswer;
pub use routes::{ask_tree, show_tree};
pub use showing::{is_pending, write_came, write_given, write_kept};
