//! One block of items that many keys read, freed exactly when all of its keys are back.
//!
//! A batch is filled once, read by many, and must outlive its slowest reader. No counter is kept
//! and nothing is checked at run time: the keys are values that must be spent, and the proof is
//! the counter.
//!
//! ```text
//! with_places, push, ..   [ item 0 | item 1 | .. | room ]      one block, one owner
//! seal(3), hand_out(3)       ^        ^        ^
//!                          key 0    key 1    key 2             each reads every item
//! JoinedKeys              keys 2 and 0, in the room of one
//! reunite                 all three keys, in any order: the items are dropped, the block is freed
//! into_builder            the same, but the block is there to be filled anew
//! ```
//!
//! What a key owns: a share of the right to read. The block's items are lent for a lifetime of
//! their own, which cannot end while a share is missing; the last key also keeps the right to the
//! block once it has ended. So a slow reader delays the block that it reads, and no other. A key is
//! two words: the items' address, how many they are, and the block's places. Trusted are the toolchain
//! and the library's allocator: each raw pointer is in `block.rt`, proved.
//!
//! Two keys without the memory of a list:
//!
//! <!-- from crates/am_cast_tests/src/segments.rt -->
//! ```rust
//! let (first, rest) = builder.hand_out(2).next();
//! let Some(rest) = rest else { unreachable!() };
//! let (second, end) = rest.next();
//! ```
#![tactic(auto)]

mod block;
mod builder;
mod debug;
mod joined_keys;
mod key;
mod key_run;
pub mod laws;
mod seal_fault;
mod share;

pub use builder::{MAX_ITEMS, SegmentBuilder};
pub use joined_keys::{JoinedKeys, reunite};
pub use key::{MAX_KEYS, SegKey};
pub use key_run::KeyRun;
pub use seal_fault::SealFault;
