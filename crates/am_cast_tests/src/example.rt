//! The example in the head of am_cast: two threads, and three readers of which one stays, one goes and one is cut.

ghost use Rattle.std.specs.Prelude.{◌≡◌};

use crate::log::{Log, begin_log, end_log, one_of};
use am_cast::{AsCast, Cursor, Feed, LentSender, Parts, Refused, Sender, Step};
use std::alloc::{AllocError, Global};
use std::marker::Brand;
use std::snapshot::Snapshot;
use std::test::Fail;
use std::thread;
use std::thread::Threads;

// The sum of all numbers, until the log is closed or the lane is cut.
pub(crate) fn sum_of<C: AsCast<u64, N, (), ()>, N: Feed>(cursor: &mut Cursor<C, u64, N>) -> u64 {
    let mut sum: u64 = 0;
    for _turn in 0..u64::MAX {
        match cursor.next() {
            Step::Item(number) => sum = sum.wrapping_add(*number),
            Step::Pending => thread::yield_now(),
            Step::Closed | Step::Cut => return sum,
        }
    }
    sum
}

// Posts a hundred numbers, cutting who lags, and closes the log.
fn post_all<N: Feed>(alloc: Global, sender: &mut LentSender<'_, u64, N>) -> Result<(), AllocError> {
    for number in 0..100_u64 {
        let batch = one_of(alloc, number)?;
        match sender.publish_cutting(batch, Snapshot::of(&())) {
            Ok(_) => {}
            Err(Refused { fault: _, batch }) => batch.discard(),
        }
    }
    let _closed = sender.close();
    Ok(())
}

// One thread posts. Another reads with two cursors, and drops one of them in the middle. The third cursor never
// reads: whether it is cut, if there was memory.
fn three_readers<N: Feed + Send + Sync, R: Threads + Sync>(
    rt: &R,
    alloc: Global,
    sender: &mut LentSender<'_, u64, N>,
) -> Option<bool> {
    let cast = *sender.handle();
    let mut stays = sender.subscribe(cast, Snapshot::of(&())).ok()?;
    let mut goes = sender.subscribe(cast, Snapshot::of(&())).ok()?;
    let mut lags = sender.subscribe(cast, Snapshot::of(&())).ok()?;
    let (posted, _sum) = thread::join(
        rt,
        || post_all(alloc, sender),
        || {
            let _first = goes.next();
            drop(goes);
            sum_of(&mut stays)
        },
    );
    posted.ok()?;
    Some(matches!(lags.next(), Step::Cut))
}

fn run<N: Feed + Send + Sync, R: Threads + Sync>(
    rt: &R,
    alloc: Global,
    parts: Parts<u64>,
) -> Result<Option<bool>, Fail>
    requires { parts.board.shared.table_id ≡ N.table }
{
    let Log { cast, writer, pass } = begin_log::<u64, N>(parts)?;
    let mut sender = Sender::new(&cast, writer, pass);
    let cut = three_readers(rt, alloc, &mut sender);
    let _found = sender.reclaim();
    let (_handle, writer, _pass) = sender.into_parts();
    end_log(cast, writer)?;
    Ok(cut)
}

fn run_of<R: Threads + Sync>(rt: &R, alloc: Global) -> Result<Option<bool>, Fail> {
    let parts = Parts::make(alloc, 16)?;
    run::<Brand, R>(rt, alloc, parts)
}

#[test]
fn one_reader_stays_and_one_goes_and_one_lags(rt: HostRuntime) -> Result<(), Fail> {
    assert_eq!(rt; run_of(&rt, rt.alloc())?, Some(true));
    Ok(())
}
