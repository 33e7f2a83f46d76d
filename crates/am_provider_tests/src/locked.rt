//! A reader goes on while a post holds the lock.

use crate::bodies::{body_of, moment};
use crate::stopped::Stopped;
use crate::tries::comes_to;
use am_provider::{Gate, Step};
use sinnoraku::{Client, Limits, Recorded, Worker, run_workers};
use std::sync::Wait;
use std::sync::atomic::{AtomicU32, Ordering};
use std::test::Fail;

/// A poster and then a reader. They note in turn that the reader has subscribed, that a post has the lock, that the
/// reader was shown an alert, and that the post saw so while it had the lock.
#[derive(Drop)]
struct BesideLock {
    subscribed: AtomicU32,
    entered: AtomicU32,
    read: AtomicU32,
    seen: AtomicU32,
}

// Holds a post under the lock until the reader was shown an alert, or the turns run out.
impl Gate for BesideLock {
    fn held<R>(&self, _rt: &R) {
        self.entered.store(1, Ordering::SeqCst);
        if comes_to(&self.read, 1) {
            self.seen.store(1, Ordering::SeqCst);
        }
    }
}

impl<R: Wait + AllocGlobal> Worker<R> for BesideLock {
    /// Whether the post saw that the reader was shown an alert, or whether the reader was.
    type Outcome = Result<bool, Stopped>;

    fn work<N: Recorded>(&self, rt: &R, index: usize, client: &mut Client<'_, N>) -> Self::Outcome {
        if index == 0 {
            self.post(rt, client)
        } else {
            self.read(rt, client)
        }
    }
}

impl BesideLock {
    // Posts one alert, and then one under the lock.
    fn post<N: Recorded, R: Wait + AllocGlobal>(
        &self,
        rt: &R,
        client: &mut Client<'_, N>,
    ) -> Result<bool, Stopped> {
        let body = body_of(rt.alloc(), 1)?;
        let bytes = body.as_bytes();
        comes_to(&self.subscribed, 1);
        let _first = client.post(rt, bytes, moment(10));
        let _second = client
            .provider
            .post(rt, &mut client.caller, self, bytes, moment(20));
        Ok(self.seen.load(Ordering::SeqCst) == 1)
    }

    // Reads one alert once the post has the lock.
    fn read<N: Recorded, R: Wait>(
        &self,
        rt: &R,
        client: &mut Client<'_, N>,
    ) -> Result<bool, Stopped> {
        let mut reader = client.subscribe(rt)?;
        self.subscribed.store(1, Ordering::SeqCst);
        comes_to(&self.entered, 1);
        let shown = matches!(reader.subscription.next(), Step::Item(_));
        if shown {
            self.read.store(1, Ordering::SeqCst);
        }
        client.leave(rt, reader);
        Ok(shown)
    }
}

#[test]
fn reader_beside_a_locked_post(rt: HostRuntime) -> Result<(), Fail> {
    let beside = BesideLock {
        subscribed: AtomicU32::new(0),
        entered: AtomicU32::new(0),
        read: AtomicU32::new(0),
        seen: AtomicU32::new(0),
    };
    let limits = Limits::with_callers(2).places(16);
    let (shown, settled) = run_workers(&rt, rt.alloc(), limits, &beside)?;
    assert_eq!(rt; shown.as_slice(), [Ok(true), Ok(true)].as_slice());
    assert!(rt; settled.complete);
    Ok(())
}
