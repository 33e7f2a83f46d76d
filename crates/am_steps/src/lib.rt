//! The pure core of the broadcast log: what each atomic step does to a state that nobody shares.
//!
//! In the running log one writer, up to eight readers and the posters step on shared words, in any
//! order. Here the same steps are plain calls on plain data, so that what holds whatever the order
//! is proved once: see `laws.rt`. The table of all steps is the head of `specs/Steps.antt`.
//!
//! ```text
//! place           0      1      2      3      4      5        the next batch is place 6
//! log             a      b      c      d      e      f        length 6, closed or not
//! lane 0, open    start         known  passed        seen = 5
//!                 got = a b c          in hand, if held
//! ```
//!
//! A lane is a subscriber's slot: idle, admitted, open (a cursor reads) or left. It begins at the
//! log's end, looks how long the log is, takes the key of the next place into its hand, and passes
//! it. The writer learns by a harvest how far a lane is (`known`), keeps its keys of the places
//! from there on, and so frees a place once each lane is known to have passed it.
//!
//! A slow lane: once one that isn't cut is known to lag by `places` batches, the log can't grow, until the
//! lane is harvested further or retired, or the writer cuts it. A cut lane passes the place in its hand, and
//! then takes no more. Closing: a closed log neither grows nor admits; lanes read on to its end.
//!
//! <!-- from crates/am_steps/src/tests.rt -->
//! ```rust
//! let mut state = State::new(alloc, 1, 2, 1)?;
//! assert!(rt; state.apply(Event::Admit(1))?);
//! assert!(rt; state.apply(Event::Open(1))?);
//! ```
#![tactic(auto)]

mod batch_names;
mod cursor;
mod event;
mod lane;
mod lane_record;
pub mod laws;
#[cfg(test)]
mod plain;
mod poster;
mod state;

pub use batch_names::{BatchNames, OwnPosts};
pub use cursor::Cursor;
pub use event::Event;
pub use lane::Lane;
pub use lane_record::LaneRecord;
pub use poster::Poster;
pub use state::State;

#[cfg(test)]
mod tests;
