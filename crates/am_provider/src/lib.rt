//! The alert provider for threads: the Book over the log without a lock, and the subscriptions that
//! read it.
//!
//! > Whatever posts, subscriptions, reads, leaves, collections and close come, from whichever
//! > threads and in whatever interleaving, what a subscription has taken begins the alerts stored at
//! > its subscription followed by every alert accepted since, merged as stored, each once and in
//! > journal order; one that was told 'closed' has taken them all; and no segment is freed that an
//! > open cursor has not passed.
//!
//! Every call that takes the lock is linearizable (Herlihy and Wing). It takes effect at one moment
//! between its beginning and its end, at which its caller's front was shown the whole history
//! (`looked` in `SeesCall`).
//!
//! # What a slow subscriber gets
//!
//! All of it, in its own time, as long as it lags by fewer batches than the log has places. With as
//! many it holds the next post up. Under `Policy::Refuse` that post is refused and names the lane.
//! Under `Policy::Cut` the subscriber is cut off: `next` answers `Cut` after the alerts of the batch
//! that it is at, and everyone else goes on.
//!
//! # What closing means
//!
//! After `close` no post and no subscriber is accepted. The subscribers that there are read on, and
//! `next` answers `Closed` once it has shown everything.
//!
//! # In one thread
//!
//! <!-- from crates/am_provider_tests/src/books.rt -->
//! ```rust
//! let mut subscription = book.subscribe(cast)?;
//! let posted = post_three(alloc, book, cast, pass);
//! let shown = matches!(subscription.next(), Step::Item(_));
//! let ended = book.leave(cast, subscription);
//! ```
//!
//! # In many threads
//!
//! Each thread calls the provider with a `Caller` of its own. What a call answers is what one history of
//! all calls gives at the call's place in it, whatever the threads do (`specs/Headline.antt`).
//!
//! The crate `sinnoraku` begins a provider, hands its callers out and settles it; its CALLING.md has two threads that do so.
//!
//! One post, as its thread and a reader's see it:
//!
//! ```text
//! poster  lock ─ look at lanes ─ merge ─ publish batch 7 ─ journal ─ entry 12 ─ unlock ─ wake
//!                                               │ the tail's store
//! reader          next: Pending (all shown)     │     next: Item, .. of batch 7   next: Pending
//!             its look came before the store ◄──┴──► its look came after it
//! ```
#![tactic(auto)]

mod answers;
mod book;
mod caller;
mod debug;
mod entry;
mod feed;
mod gate;
mod item;
mod kept_endings;
pub mod laws;
mod parts;
mod pass;
mod prepared_post;
mod provider;
mod recorded_book;
mod register;
mod sending;
mod settled;
mod subscription;

pub use am_cast::{CloseFault, MAX_PLACES};
pub use am_store::{BodyFault, PutFault, SubFault};
pub use answers::{Counts, Ended, Page, Policy, Posted, PostedIf, Slice, Step};
pub use book::Book;
pub use caller::Caller;
pub use entry::Entry;
pub use feed::{Cast, Origin, Recorded};
pub use gate::{Gate, NoGate};
pub use item::Item;
pub use parts::{Begun, MAX_POSTERS, Parts, the_limits};
pub use pass::Pass;
pub use provider::Provider;
pub use register::{Register, TurnsSeen};
pub use settled::Settled;
pub use subscription::Subscription;
