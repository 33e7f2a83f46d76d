//! The steps on the table, one file for each kind. Each function here is one atomic step, or one
//! with the steps that belong to it, and its contract says what the seat knows before and after.
//! `rule.rt` has what holds of the table between them, and `laws.rt` which events of am_steps' core
//! each is.
//!
//! # Words
//!
//! All loads and stores are sequentially consistent. The table has 152 words of 64 bits.
//!
//! **Word 0, the tail.** Twice the log's length, and one more once the log is closed. The writer
//! stores it (`publish`, `close`). Lanes load it (`look`), posters do (`note`), and so does a seat
//! that is cut in two or takes in another's (`tell`, `hand`, `take_in`, `weigh`): each such load
//! tells that the log which it knew begins the log.
//!
//! **Word 16 l + 16, lane l's.** Four times the number of places that the lane has passed, 2 more
//! while the key of the next place is in its cursor's hand, and 1 more once the lane is cut. The
//! greatest u64 if the lane is idle or has left. The lane's own seat exchanges it (`take`: plus 2,
//! only if it shows neither), adds to it (`pass`: plus 2, so that the hand's bit carries into the
//! number) and stores it (`leave`, as its cursor is dropped, and `retire`, which takes in the writer's
//! seat: the greatest u64); it loads it once (`open`). The writer stores it once (`admit`), loads it
//! (`harvest`, `recover`, `reclaim`), and exchanges it to cut a slow lane (`cut`: plus 1, only if it
//! is still the word found last). So of a take and a cut one is first, and the other finds it.
//!
//! **Words 144 to 151.** Nobody stores them. The writer loads word l + 144 at its silent steps on
//! lane l's slots (`fill`, `clear`), so that the step's word says which lane it is.
//!
//! The tail, each lane's word and the last eight words are 128 bytes apart, wherever the table lies.
//! So no two of them share a cache line, nor the pair of lines that a processor may fetch at once.
//!
//! All other words stay 0, and nobody loads them.
//!
//! # Slots
//!
//! Slot 8 (i % places) + l holds lane l's key of place i, from the fill before place i is published to
//! the clear after the lane has passed it. So the slots of one place lie side by side, and those of the
//! next place, which the writer fills while lanes read, share no cache line with most of them. A slot is
//! in the hand of one seat or at home. A cursor has at most one in its hand, that of the place it reads,
//! and reads the key where it lies; the writer has at most one, the one that it fills or clears. The slot in
//! a cursor's hand goes home when it passes the place, when it is dropped and when it is retired.

mod admit;
mod clear;
mod close;
mod cut;
mod fill;
mod hand;
mod harvest;
mod leave;
mod look;
mod note;
mod open;
mod pass;
mod publish;
mod reclaim;
mod recover;
mod retire;
mod slot;
mod take;
mod take_in;
mod tell;
mod weigh;

pub(crate) use admit::admit_lane;
pub(crate) use clear::clear_slot;
pub(crate) use close::close_log;
pub(crate) use cut::cut_lane;
pub(crate) use fill::fill_slot;
pub(crate) use hand::hand_own;
pub(crate) use harvest::find_word;
pub(crate) use leave::leave_lane;
pub(crate) use look::look_at_log;
pub(crate) use note::note_log;
pub(crate) use open::open_lane;
pub(crate) use pass::pass_place;
pub(crate) use publish::publish_batch;
pub(crate) use reclaim::reclaim_lane;
pub(crate) use recover::recover_key;
pub(crate) use retire::retire_lane;
pub(crate) use slot::key_in;
pub(crate) use take::take_key;
pub(crate) use take_in::take_in;
pub(crate) use tell::{new_seat, tell_seat};
pub(crate) use weigh::{weigh_lane, weigh_view};
