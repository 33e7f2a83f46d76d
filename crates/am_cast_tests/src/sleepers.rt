//! Cursors that sleep while nothing is there for them: each batch wakes all of them, and so does the close.

ghost use Rattle.std.specs.Prelude.{◌≡◌};

use crate::log::{Log, begin_log, end_log, one_of};
use am_cast::{Feed, LentCursor, LentSender, Parts, Refused, Sender, Step};
use std::alloc::{AllocError, Global};
use std::marker::Brand;
use std::snapshot::Snapshot;
use std::sync::Wait;
use std::sync::atomic::{AtomicU32, Ordering};
use std::test::Fail;
use std::thread;
use std::thread::Threads;
use std::time::{Clock, Duration, Instant};

const READERS: u32 = 4;

const ROUNDS: u32 = 6_000;

// Reads until the log is closed, and sleeps while nothing is there. After each item it rests for some turns, so that the
// next one may come at any moment of its falling asleep.
fn read_or_sleep<N: Feed, R: Wait>(
    rt: &R,
    cursor: &mut LentCursor<'_, u64, N>,
    shown: &AtomicU32,
    limit: Option<Duration>,
) {
    let most = 200 * (1 + cursor.lane());
    let mut turns: usize = 0;
    for _turn in rt.forever() {
        match cursor.next() {
            Step::Item(_number) => {
                shown.fetch_add(1, Ordering::SeqCst);
                turns = turns.wrapping_add(1) % most;
                for _turn in 0..turns {
                    let _shown = shown.load(Ordering::SeqCst);
                }
            }
            Step::Pending => match limit {
                Some(limit) => cursor.wait_timeout(rt, limit),
                None => cursor.wait(rt),
            },
            Step::Closed | Step::Cut => return,
        }
    }
}

// Posts the round's number, by each of the three calls in turn. Answers whether it was posted.
fn post<N: Feed>(
    alloc: Global,
    sender: &mut LentSender<'_, u64, N>,
    round: u32,
) -> Result<bool, AllocError> {
    let number = round as u64;
    match round % 3 {
        0 => Ok(sender.publish_one(alloc, number, Snapshot::of(&())).is_ok()),
        1 => match sender.publish(one_of(alloc, number)?, Snapshot::of(&())) {
            Ok(_) => Ok(true),
            Err(Refused { fault: _, batch }) => {
                batch.discard();
                Ok(false)
            }
        },
        _ => match sender.publish_cutting(one_of(alloc, number)?, Snapshot::of(&())) {
            Ok(_) => Ok(true),
            Err(Refused { fault: _, batch }) => {
                batch.discard();
                Ok(false)
            }
        },
    }
}

// Waits until the count is there. Answers whether it is.
fn comes_to(shown: &AtomicU32, wanted: u32) -> bool {
    for _turn in 0..10_000_000u32 {
        if shown.load(Ordering::SeqCst) >= wanted {
            return true;
        }
        thread::yield_now();
    }
    false
}

// Posts a number each time that all readers were shown the last one. Answers how many rounds were finished.
fn post_each<N: Feed>(
    alloc: Global,
    sender: &mut LentSender<'_, u64, N>,
    shown: &AtomicU32,
) -> u32 {
    for round in 0..ROUNDS {
        let Ok(true) = post(alloc, sender, round) else {
            return round;
        };
        if !comes_to(shown, READERS * (round + 1)) {
            return round;
        }
    }
    ROUNDS
}

// Posts while the readers read or sleep. Answers how many rounds were finished, and how many items were shown.
fn sleep_beside<N: Feed + Send + Sync, R: Threads + Wait + Sync>(
    rt: &R,
    alloc: Global,
    sender: &mut LentSender<'_, u64, N>,
    limit: Option<Duration>,
) -> Result<(u32, u32), AllocError> {
    let cast = *sender.handle();
    let mut cursors = Vec::new(alloc);
    for _reader in 0..READERS {
        let Ok(cursor) = sender.subscribe(cast, Snapshot::of(&())) else {
            return Err(AllocError);
        };
        cursors.push(cursor)?;
    }
    let shown = AtomicU32::new(0);
    let (lent, count) = (cursors.as_mut_slice(), &shown);
    let (rounds, ()) = thread::join(
        rt,
        || {
            let rounds = post_each(alloc, sender, count);
            let _closed = sender.close();
            rounds
        },
        || thread::for_each_mut(
            rt,
            lent,
            READERS as usize,
            &|_at, cursor| read_or_sleep(rt, cursor, count, limit),
        ),
    );
    Ok((rounds, shown.load(Ordering::SeqCst)))
}

fn run<N: Feed + Send + Sync, R: Threads + Wait + Sync>(
    rt: &R,
    alloc: Global,
    parts: Parts<u64>,
    limit: Option<Duration>,
) -> Result<(u32, u32), Fail>
    requires { parts.board.shared.table_id ≡ N.table }
{
    let Log { cast, writer, pass } = begin_log::<u64, N>(parts)?;
    let mut sender = Sender::new(&cast, writer, pass);
    let ended = sleep_beside(rt, alloc, &mut sender, limit);
    let _found = sender.reclaim();
    let (_handle, writer, _pass) = sender.into_parts();
    end_log(cast, writer)?;
    Ok(ended?)
}

fn run_of<R: Threads + Wait + Sync>(
    rt: &R,
    alloc: Global,
    limit: Option<Duration>,
) -> Result<(u32, u32), Fail> {
    let parts = Parts::make(alloc, 4)?;
    run::<Brand, R>(rt, alloc, parts, limit)
}

// A wake that is lost leaves a reader asleep, and then the next round isn't reached.
#[test]
fn sleepers_are_woken(rt: HostRuntime) -> Result<(), Fail> {
    assert_eq!(rt; run_of(&rt, rt.alloc(), None)?, (ROUNDS, READERS * ROUNDS));
    Ok(())
}

// The limit is longer than a test may take.
#[test]
fn sleepers_with_a_limit_are_woken(rt: HostRuntime) -> Result<(), Fail> {
    let limit = Some(Duration::from_secs(600));
    assert_eq!(rt; run_of(&rt, rt.alloc(), limit)?, (ROUNDS, READERS * ROUNDS));
    Ok(())
}

// Sleeps ten times with nothing there, and then with an item and with the end there, where a sleep would last for ever.
// Answers how often nothing was there after a sleep, and whether the item and the end were.
fn sleep_alone<N: Feed, R: Wait>(
    rt: &R,
    alloc: Global,
    sender: &mut LentSender<'_, u64, N>,
    limit: Duration,
) -> Option<(u32, bool, bool)> {
    let cast = *sender.handle();
    let mut cursor = sender.subscribe(cast, Snapshot::of(&())).ok()?;
    let mut nothing: u32 = 0;
    for _time in 0..10 {
        cursor.wait_timeout(rt, limit);
        nothing = nothing.wrapping_add(matches!(cursor.next(), Step::Pending) as u32);
    }
    let posted = post(alloc, sender, 0).ok()?;
    cursor.wait(rt);
    let shown = matches!(cursor.next(), Step::Item(_));
    let closed = sender.close().is_ok();
    cursor.wait(rt);
    let ended = matches!(cursor.next(), Step::Closed);
    Some((nothing, posted && shown, closed && ended))
}

fn run_alone<N: Feed, R: Wait>(
    rt: &R,
    alloc: Global,
    parts: Parts<u64>,
    limit: Duration,
) -> Result<Option<(u32, bool, bool)>, Fail>
    requires { parts.board.shared.table_id ≡ N.table }
{
    let Log { cast, writer, pass } = begin_log::<u64, N>(parts)?;
    let mut sender = Sender::new(&cast, writer, pass);
    let ended = sleep_alone(rt, alloc, &mut sender, limit);
    let _found = sender.reclaim();
    let (_handle, writer, _pass) = sender.into_parts();
    end_log(cast, writer)?;
    Ok(ended)
}

fn run_alone_of<R: Wait>(
    rt: &R,
    alloc: Global,
    limit: Duration,
) -> Result<Option<(u32, bool, bool)>, Fail> {
    let parts = Parts::make(alloc, 4)?;
    run_alone::<Brand, R>(rt, alloc, parts, limit)
}

// A sleep may end for no reason, but ten of ten milliseconds don't take less than one of them.
#[test]
fn a_sleep_ends_at_its_limit_and_none_begins_with_news(rt: HostRuntime) -> Result<(), Fail> {
    let limit = Duration::from_millis(10);
    let begin = Instant::now(&rt)?;
    let ended = run_alone_of(&rt, rt.alloc(), limit)?;
    assert!(rt; begin.elapsed(&rt)? >= limit);
    assert_eq!(rt; ended, Some((10, true, true)));
    Ok(())
}
