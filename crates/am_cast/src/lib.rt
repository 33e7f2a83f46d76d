//! A bounded broadcast log without a lock: one writer publishes batches to up to eight subscribers.
//! It is as tokio's `sync::broadcast`, but a slow subscriber is the writer's choice at each call.
//!
//! # Lagging
//!
//! Each subscriber reads at its own pace, and none waits for another. A log has a number of places;
//! a subscriber that lags by as many batches holds the next batch up. What then happens is the writer's
//! choice, call by call. `publish` refuses the batch, gives it back, and names the lowest such lane.
//! `publish_cutting` cuts each such lane: its subscriber still shows the items of the place that it has in
//! hand, and from then on `next` answers `Cut`. All others go on as before. A slow subscriber never makes
//! another one miss, repeat or wait for an item, and its memory is kept until it has passed the place in its
//! hand.
//!
//! # Leaving
//!
//! A cursor may be dropped wherever it is: on an early return, on any thread, with a place in its hand. Its lane
//! holds no later batch up, but stays taken until `Writer::reclaim`. That makes each such lane idle, and ends
//! the segments that were kept for it. `Writer::retire` does so at once with a cursor that is given back, and
//! its contract says what the cursor has shown.
//!
//! A cursor owns its handle of the table. That is a borrow, or a `SharedCast`, with which it may live in another thread or
//! next to the log in a struct. When the last share of a log goes that was never ended, its table is freed. The batches that
//! a lane hasn't passed are then never freed, which is safe.
//!
//! # Closing
//!
//! A closed log takes no batch and no subscriber. Those that it has read on to its end, and from
//! then on `next` answers `Closed`. `Pending` means that the log was open at this very call and
//! that all that was there was shown.
//!
//! # Inside
//!
//! ```text
//! place            6      7      8      9      10      the next batch is place 10
//! tail word        2 * 10 + closed                     the writer stores it, everyone loads it
//!
//! lane 0, live     slots  [ key 8 | key 9 |   -    |   -   ]   key 8 is in its cursor's hand
//! lane 0's word    4 * 8 + 2 + 0                       8 passed, one in hand, not cut
//! lane 1, cut      slots  [   -   |   -   |   -    |   -   ]
//! lane 1's word    4 * 6 + 2 + 1                       6 passed, key 6 in hand, cut
//! lane 2, idle     the greatest u64                    and so while it is left, until it is reclaimed
//!
//! rows             of place 6: seven keys, lane 1's is out         the writer's: the eighth key ends
//!                  of place 8: six keys, of place 9: six keys      a segment; two lanes were live then
//! ```
//!
//! A place holds one batch in one segment (`am_segment`), which has eight keys, one for each lane.
//! `publish` lays a key in the slot of each live lane and keeps the others in the place's row. A
//! cursor takes its slot in hand by an exchange on its lane's word. It shows the items one by one,
//! through the key where it lies, and gives the slot back as it passes the place. The writer loads the
//! lanes' words (`harvest`, and every publish), takes the keys of passed places out, and gathers them
//! in the rows; the eighth ends the segment. Its block is kept for a later batch of its size
//! (`Writer::spare`): of as many segments as the log has places, at most 256, and the others are freed. `rule.rt`
//! has what always holds of words, slots and what each side knows, and `board.rt` the single steps,
//! each of them an event of `am_steps`, two or none.
//!
//! It is one crate, with more functions than the others: a cut between its steps and its types
//! would make the steps public.
//!
//! A caller that posts alone, and so has a `Sender`:
//!
//! <!-- parts of crates/am_cast_tests/src/example.rt -->
//! ```rust
//! // The sum of all numbers, until the log is closed or the lane is cut.
//! pub(crate) fn sum_of<C: AsCast<u64, N, (), ()>, N: Feed>(cursor: &mut Cursor<C, u64, N>) -> u64 {
//!     let mut sum: u64 = 0;
//!     for _turn in 0..u64::MAX {
//!         match cursor.next() {
//!             Step::Item(number) => sum = sum.wrapping_add(*number),
//!             Step::Pending => thread::yield_now(),
//!             Step::Closed | Step::Cut => return sum,
//!         }
//!     }
//!     sum
//! }
//!
//! // One thread posts. Another reads with two cursors, and drops one of them in the middle. The third cursor never
//! // reads: whether it is cut, if there was memory.
//! fn three_readers<N: Feed + Send + Sync, R: Threads + Sync>(
//!     rt: &R,
//!     alloc: Global,
//!     sender: &mut LentSender<'_, u64, N>,
//! ) -> Option<bool> {
//!     let cast = *sender.handle();
//!     let mut stays = sender.subscribe(cast, Snapshot::of(&())).ok()?;
//!     let mut goes = sender.subscribe(cast, Snapshot::of(&())).ok()?;
//!     let mut lags = sender.subscribe(cast, Snapshot::of(&())).ok()?;
//!     let (posted, _sum) = thread::join(
//!         rt,
//!         || post_all(alloc, sender),
//!         || {
//!             let _first = goes.next();
//!             drop(goes);
//!             sum_of(&mut stays)
//!         },
//!     );
//!     posted.ok()?;
//!     Some(matches!(lags.next(), Step::Cut))
//! }
//! ```
#![tactic(auto)]

pub mod batch_view;
mod board;
mod cursor;
mod debug;
mod faults;
mod feed;
mod handle;
mod key_rows;
pub mod laws;
mod lends;
mod limits;
mod parts;
mod pass;
mod ring_place;
pub mod rule;
mod sender;
mod tag;
pub mod views;
mod waiters;
mod writer;

pub use cursor::{Cast, Cursor, LentCursor};
pub use faults::{AdmitFault, CloseFault, PublishFault, Refused, RefusedItem};
pub use feed::Feed;
pub use handle::{AsCast, SharedCast};
pub use lends::{Moved, Slice, Step};
pub use limits::{LANES, LONGEST_LOG, MAX_PLACES};
pub use parts::{Begun, InUse, Parts, begin, end};
pub use pass::Pass;
pub use sender::{LentSender, Sender};
pub use writer::{Published, Writer};
