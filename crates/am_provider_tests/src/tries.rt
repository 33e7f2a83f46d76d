//! What a thread tries again and again, for 10,000,000 turns at the most.

use am_alert::Moment;
use am_provider::{BodyFault, PutFault};
use sinnoraku::{Client, Recorded};
use std::sync::Wait;
use std::sync::atomic::{AtomicU32, Ordering};
use std::thread;

/// Posts a body, and tries again while the log is full. Answers whether it was accepted.
pub fn post_one<N: Recorded, R: Wait>(
    rt: &R,
    client: &mut Client<'_, N>,
    body: &[u8],
    now: Moment,
) -> bool {
    for _turn in 0..10_000_000u32 {
        match client.post(rt, body, now) {
            Ok(_) => return true,
            Err(BodyFault::Put(PutFault::Full { lane: _, passed: _ })) => thread::yield_now(),
            Err(_) => return false,
        }
    }
    false
}

/// Waits until the count is there. Answers whether it is.
pub fn comes_to(count: &AtomicU32, wanted: u32) -> bool {
    for _turn in 0..10_000_000u32 {
        if count.load(Ordering::SeqCst) >= wanted {
            return true;
        }
        thread::yield_now();
    }
    false
}
