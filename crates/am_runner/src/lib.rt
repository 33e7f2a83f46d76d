//! Runs a caller's lines on a provider, each in its turn. Or it answers each line of an input before it reads the next one
//! (`serve`, in `live.rt`).
//!
//! > Whatever posts, subscriptions, reads, leaves, collections and close come, from whichever
//! > threads and in whatever interleaving, what a subscription has taken begins the alerts stored at
//! > its subscription followed by every alert accepted since, merged as stored, each once and in
//! > journal order; one that was told 'closed' has taken them all; and no segment is freed that an
//! > open cursor has not passed.
//!
//! A [`Session`] has a pass and the subscriptions that its lines opened, each with a dispatcher, an inhibitor, both or
//! neither, as its line asks. When it may run a line is up to the [`Turns`] that the caller passes. Crate am_threads runs a
//! script's lines in a session for each thread; `serve_all` runs an input's lines in one.
//!
//! <!-- from crates/am_threads/src/work.rt -->
//! ```rust
//! session.begin_turn(context, register, turn, seen);
//! let given = if failed {
//!     Err(AllocError)
//! } else {
//!     session.run(context, &line.command)
//! };
//! session.end_turn(context, register, turn, seen);
//! ```
#![tactic(auto)]

mod context;
mod debug;
mod live;
mod open_subscription;
mod session;
mod turns;
mod unanswered;

pub use context::Context;
pub use live::{InputLine, LiveRun, Serving, answer_line, next_line, serve, serve_all};
pub use open_subscription::OpenSubscription;
pub use session::Session;
pub use turns::{Turn, Turns};
