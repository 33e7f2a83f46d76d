//! What an alert provider keeps: the stored alerts, the journal of the calls that it accepted, and
//! its lanes.
//!
//! The store has one alert for each label set, in the order in which the label sets were first
//! reported. The reports of a post are merged into it one after another (`store::absorb`), and the
//! changes that they made are answered too: a post that is refused further on is taken back by them,
//! so that it leaves no trace. `am_alert` says what two reports of one label set become.
//!
//! The journal has each accepted call with what was posted, and what is stored and what is owed to a
//! subscriber follow from it alone. Calls that no open subscription needs any more can be discarded
//! from its front: what they left takes their place, and nobody can tell (`trimming_laws`).
//!
//! A lane is a subscriber's slot, of which there are eight. An open one keeps when it was subscribed
//! and what was stored then, so that the journal can be shortened up to the earliest of them.
//!
//! <!-- parts of crates/am_provider/src/book/post.rt -->
//! ```rust
//! let Absorbed { batch, undo } = self.stored.absorb(reports?, now)?;
//!
//! self.stored.take_back(undo);
//! ```
//!
//! The store, what goes out and what late subscribers are shown have each alert in common: none of
//! them copies one. The journal has the alerts as they were posted, with the same texts.
#![tactic(auto)]

mod call;
mod discarded;
mod faults;
mod journal;
mod kept_journal;
mod lane_set;
pub mod lanes;
pub mod laws;
mod past;
mod shared_alerts;
pub mod store;

pub use call::Call;
pub use discarded::Discarded;
pub use faults::{BodyFault, PutFault, SubFault};
pub use journal::{Journal, MAX_BEFORE};
pub use kept_journal::KeptJournal;
pub use lane_set::LaneSet;
pub use past::Past;
pub use shared_alerts::{BLOCK, SharedAlert, StoredAlerts, StoredIter};
