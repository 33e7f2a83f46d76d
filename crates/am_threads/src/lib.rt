//! Runs the lines of a script in eight threads, each thread its own lines in their order, on one provider.
//!
//! > Whatever posts, subscriptions, reads, leaves, collections and close come, from whichever
//! > threads and in whatever interleaving, what a subscription has taken begins the alerts stored at
//! > its subscription followed by every alert accepted since, merged as stored, each once and in
//! > journal order; one that was told 'closed' has taken them all; and no segment is freed that an
//! > open cursor has not passed.
//!
//! [`run_whole`] hands sinnoraku a crew of eight: that begins a provider, starts the threads, of which none runs a line before
//! all are there, and settles. When the threads' lines are run is up to the `Turns` that the caller passes: one after another
//! in the script's order ([`InOrder`]), or as the threads reach them ([`Freely`]). What comes back is what each line
//! answered, and the settled provider, which shows the journal.
//!
//! <!-- from crates/am_replay/src/script_run.rt -->
//! ```rust
//! let WholeRun { answers, settled } = run_whole(rt, alloc, log, config, &lines, turns)?;
//! ```
#![tactic(auto)]

mod configured;
mod freely;
mod in_order;
pub mod laws;
mod whole_run;
mod work;

pub use freely::Freely;
pub use in_order::InOrder;
pub use sinnoraku::RunFault;
pub use whole_run::{LogLimits, WholeRun, run_whole};
