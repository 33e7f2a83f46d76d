//! Runs of the log with the writer and its readers in threads of their own, and with lanes that come
//! and go: what each reader is shown, and when it is cut.

ghost use Rattle.std.specs.Prelude.{◌≡◌, ◌<◌, ◌≤◌, length, IfOk};
ghost use Rattle.am_cast.specs.declared.limits.TheConstants.{MAX_PLACES};

mod dropped;
mod eight;
mod races;

use crate::log::{Log, begin_log, end_log};
use am_cast::{Cast, Feed, LentCursor, Parts, Pass, Refused, Step, Writer};
use am_segment::SegmentBuilder;
use std::alloc::{AllocError, Global};
use std::marker::Brand;
use std::snapshot::Snapshot;
use std::test::Fail;
use std::thread;
use std::thread::Threads;

// Three numbers from a first one on.
fn batch_of(alloc: Global, first: u64) -> Result<SegmentBuilder<u64>, AllocError>
    ensures { IfOk result (λ batch. 0 < length batch.items) }
{
    let mut batch = SegmentBuilder::with_places(alloc, 3)?;
    let _pushed = batch.push(first);
    for more in 1..3_u64 {
        let _pushed = batch.push(first.wrapping_add(more));
    }
    Ok(batch)
}

/// What a reader was shown: how many items, how many of them weren't the next number, and what it
/// answered at the end.
#[derive(Clone, Copy, Drop)]
struct Shown {
    items: u64,
    wrong: u64,
    closed: bool,
    cut: bool,
}

const NOTHING: Shown = Shown {
    items: 0,
    wrong: 0,
    closed: false,
    cut: false,
};

// Reads the numbers from a first one on, for a number of turns. A lazy reader rests at each eighth
// turn.
fn read_all<R: Threads, N: Feed>(
    rt: &R,
    cursor: &mut LentCursor<'_, u64, N>,
    first: u64,
    turns: u64,
    lazy: bool,
) -> Shown {
    let mut shown = NOTHING;
    for turn in 0..turns {
        match cursor.next() {
            Step::Item(item) => {
                let next = first.wrapping_add(shown.items);
                if *item != next || shown.closed || shown.cut {
                    shown.wrong = shown.wrong.wrapping_add(1);
                }
                shown.items = shown.items.wrapping_add(1);
            }
            Step::Pending => thread::yield_now(),
            Step::Closed => shown.closed = true,
            Step::Cut => shown.cut = true,
        }
        if lazy && turn % 8 == 0 {
            thread::yield_now();
        }
    }
    shown
}

// Posts a number of batches within a number of turns, and closes. Answers how many were posted.
fn post_all<N: Feed>(
    alloc: Global,
    cast: &Cast<u64, N>,
    writer: &mut Writer<u64, N>,
    pass: &mut Pass<u64, N>,
    batches: u64,
    turns: u64,
) -> Result<u64, AllocError> {
    let mut posted: u64 = 0;
    for _turn in 0..turns {
        if posted < batches {
            let batch = batch_of(alloc, posted.wrapping_mul(3))?;
            match writer.publish(cast, batch, Snapshot::of(&()), pass) {
                Ok(_) => posted = posted.wrapping_add(1),
                Err(Refused { fault: _, batch }) => {
                    batch.discard();
                    thread::yield_now();
                }
            }
        }
    }
    let _closed = writer.close(cast);
    Ok(posted)
}

// Posts a number of batches, of the numbers from a first one on, and cuts slow readers. Answers how
// often a lane was cut.
fn post_over<N: Feed>(
    alloc: Global,
    cast: &Cast<u64, N>,
    writer: &mut Writer<u64, N>,
    pass: &mut Pass<u64, N>,
    first: u64,
    batches: u64,
) -> Result<u64, AllocError> {
    let mut cuts: u64 = 0;
    for at in 0..batches {
        let batch = batch_of(alloc, first.wrapping_add(at.wrapping_mul(3)))?;
        match writer.publish_cutting(cast, batch, Snapshot::of(&()), pass) {
            Ok(made) => {
                for lane in 0..8 {
                    if made.cut[lane] {
                        cuts = cuts.wrapping_add(1);
                    }
                }
            }
            Err(Refused { fault: _, batch }) => batch.discard(),
        }
    }
    Ok(cuts)
}

/// How many batches were posted, or lanes cut, and what two readers were shown.
#[derive(Clone, Copy, Drop)]
struct Run {
    count: u64,
    quick: Shown,
    slow: Shown,
}

/// What a run is of: its turns, and whether its posts cut.
#[derive(Clone, Copy, Drop)]
struct Load {
    batches: u64,
    turns: u64,
    cuts: bool,
}

// Posts, cutting slow lanes or waiting for them.
fn post<N: Feed>(
    alloc: Global,
    cast: &Cast<u64, N>,
    writer: &mut Writer<u64, N>,
    pass: &mut Pass<u64, N>,
    load: Load,
) -> Result<u64, AllocError> {
    if load.cuts {
        post_over(alloc, cast, writer, pass, 0, load.batches)
    } else {
        post_all(alloc, cast, writer, pass, load.batches, load.turns)
    }
}

// A quick reader, and next to it a slow one.
fn read_both<N: Feed + Send + Sync, R: Threads + Sync>(
    rt: &R,
    quick: &mut LentCursor<'_, u64, N>,
    slow: &mut LentCursor<'_, u64, N>,
    load: Load,
) -> (Shown, Shown) {
    thread::join(
        rt,
        || read_all(rt, quick, 0, load.turns, false),
        || read_all(rt, slow, 0, load.turns, true),
    )
}

fn drive<N: Feed + Send + Sync, R: Threads + Sync>(
    rt: &R,
    alloc: Global,
    cast: &Cast<u64, N>,
    writer: &mut Writer<u64, N>,
    pass: &mut Pass<u64, N>,
    load: Load,
) -> Result<Run, AllocError> {
    let Ok(mut a) = writer.admit(cast, Snapshot::of(&())) else {
        return Err(AllocError);
    };
    let Ok(mut b) = writer.admit(cast, Snapshot::of(&())) else {
        writer.retire(cast, a);
        return Err(AllocError);
    };
    let (count, (quick, slow)) = thread::join(
        rt,
        || post(alloc, cast, writer, pass, load),
        || read_both(rt, &mut a, &mut b, load),
    );
    writer.retire(cast, b);
    writer.retire(cast, a);
    Ok(Run {
        count: count?,
        quick,
        slow,
    })
}

fn beside<N: Feed + Send + Sync, R: Threads + Sync>(
    rt: &R,
    alloc: Global,
    parts: Parts<u64>,
    load: Load,
) -> Result<Run, Fail>
    requires { parts.board.shared.table_id ≡ N.table }
{
    let Log {
        cast,
        mut writer,
        mut pass,
    } = begin_log::<u64, N>(parts)?;
    let run = drive(rt, alloc, &cast, &mut writer, &mut pass, load);
    end_log(cast, writer)?;
    Ok(run?)
}

fn beside_of<R: Threads + Sync>(rt: &R, alloc: Global, places: u64, load: Load) -> Result<Run, Fail>
    requires { (0 < places) × (places ≤ MAX_PLACES) }
{
    let parts = Parts::make(alloc, places)?;
    beside::<Brand, R>(rt, alloc, parts, load)
}

#[test]
fn two_readers_beside_a_writer(rt: HostRuntime) -> Result<(), Fail> {
    let load = Load {
        batches: 2_000,
        turns: 400_000,
        cuts: false,
    };
    let run = beside_of(&rt, rt.alloc(), 16, load)?;
    for shown in [run.quick, run.slow] {
        assert_eq!(rt; shown.wrong, 0);
        assert!(rt; !shown.cut);
        assert!(rt; shown.items <= run.count.wrapping_mul(3));
        if shown.closed {
            assert_eq!(rt; shown.items, run.count.wrapping_mul(3));
        }
    }
    Ok(())
}

#[test]
fn a_slow_reader_is_cut_once(rt: HostRuntime) -> Result<(), Fail> {
    let load = Load {
        batches: 10_000,
        turns: 10_000,
        cuts: true,
    };
    let run = beside_of(&rt, rt.alloc(), 1, load)?;
    for shown in [run.quick, run.slow] {
        assert_eq!(rt; shown.wrong, 0);
        assert!(rt; !shown.closed);
        assert!(rt; shown.items <= 30_000);
    }
    // A lane is cut at most once, and a reader that answered so was cut.
    assert!(rt; run.count <= 2);
    let told = run.quick.cut as u64 + run.slow.cut as u64;
    assert!(rt; told <= run.count);
    Ok(())
}

// A lane is admitted, reads a batch, and leaves with a part of the next one unread.
fn come_once<N: Feed>(
    alloc: Global,
    cast: &Cast<u64, N>,
    writer: &mut Writer<u64, N>,
    pass: &mut Pass<u64, N>,
    round: u64,
) -> bool {
    let Ok(mut cursor) = writer.admit(cast, Snapshot::of(&())) else {
        return false;
    };
    let mut right = true;
    for part in 0..2_u64 {
        let first = round.wrapping_mul(6).wrapping_add(part.wrapping_mul(3));
        match batch_of(alloc, first) {
            Ok(batch) => match writer.publish(cast, batch, Snapshot::of(&()), pass) {
                Ok(_) => {}
                Err(Refused { fault: _, batch }) => {
                    batch.discard();
                    right = false;
                }
            },
            Err(_) => right = false,
        }
    }
    for at in 0..5_u64 {
        match cursor.next() {
            Step::Item(item) => right &= *item == round.wrapping_mul(6).wrapping_add(at),
            _ => right = false,
        }
    }
    writer.retire(cast, cursor);
    right
}

fn come_and_go<N: Feed>(alloc: Global, parts: Parts<u64>, rounds: u64) -> Result<bool, Fail>
    requires { parts.board.shared.table_id ≡ N.table }
{
    let Log {
        cast,
        mut writer,
        mut pass,
    } = begin_log::<u64, N>(parts)?;
    let mut right = true;
    for round in 0..rounds {
        right &= come_once(alloc, &cast, &mut writer, &mut pass, round);
    }
    end_log(cast, writer)?;
    Ok(right)
}

fn come_and_go_of(alloc: Global, rounds: u64) -> Result<bool, Fail> {
    let parts = Parts::make(alloc, 4)?;
    come_and_go::<Brand>(alloc, parts, rounds)
}

#[test]
fn lanes_come_and_go(rt: HostRuntime) -> Result<(), Fail> {
    assert!(rt; come_and_go_of(rt.alloc(), 10_000)?);
    Ok(())
}
