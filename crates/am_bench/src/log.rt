//! The log: one writer and up to eight readers, each in a thread of its own. `bench/log` runs it
//! and of what it is compared with.

ghost use Rattle.std.specs.Prelude.{◌≡◌, ◌<◌, ◌≤◌, length, IfOk};
ghost use Rattle.am_cast.specs.declared.limits.TheConstants.{MAX_PLACES};

use crate::failure::Failure;
use crate::printed::Printed;
use crate::stopwatch::since;
use crate::words::{number, small_number};
use am_cast::{
    Begun, Cast, Feed, LANES, LentCursor, MAX_PLACES, Parts, Pass, Refused, Slice, Writer, begin,
    end,
};
use am_segment::SegmentBuilder;
use std::alloc::{AllocError, Global};
use std::marker::Brand;
use std::snapshot::Snapshot;
use std::thread;
use std::thread::Threads;
use std::time::{Clock, Duration, Instant};

/// How much is published, and to how many readers.
#[derive(Clone, Copy, Debug, Drop)]
pub(crate) struct Load {
    readers: usize,
    batches: u64,
    /// How many items each batch has.
    items: usize,
    places: u64,
    /// How often in a row a reader that finds nothing yields before it sleeps.
    yields: u32,
    ghost some: { 0 < items },
    ghost within: { (0 < places) × (places ≤ MAX_PLACES) },
}

impl Load {
    pub(crate) fn read(words: &[String]) -> Option<Load> {
        let readers = number(words, 0)?;
        let batches = number(words, 1)?;
        let items = number(words, 2)? as usize;
        let places = number(words, 3)?;
        let yields = small_number(words, 4)?;
        if readers > LANES as u64 || items == 0 || places == 0 || places > MAX_PLACES {
            return None;
        }
        Some(Load {
            readers: readers as usize,
            batches,
            items,
            places,
            yields,
        })
    }

    /// Two readers of a few batches.
    pub(crate) fn small() -> Load {
        Load {
            readers: 2,
            batches: 100,
            items: 3,
            places: 4,
            yields: 100,
        }
    }
}

/// What a reader received.
#[derive(Clone, Copy, Debug, Drop)]
struct Shown {
    items: u64,
    sum: u64,
}

impl Shown {
    const NOTHING: Shown = Shown { items: 0, sum: 0 };

    // What two readers received together.
    fn and(self, other: Shown) -> Shown {
        Shown {
            items: self.items.wrapping_add(other.items),
            sum: self.sum.wrapping_add(other.sum),
        }
    }
}

// A batch of numbers from a first one on, in what an earlier one left if there is such a one.
fn batch_of<N: Feed>(
    alloc: Global,
    writer: &mut Writer<u64, N>,
    first: u64,
    count: usize,
) -> Result<SegmentBuilder<u64>, AllocError>
    requires { 0 < count }
    ensures { IfOk result (λ batch. 0 < length batch.items) }
{
    let mut batch = match writer.spare(count) {
        Some(batch) => batch,
        None => SegmentBuilder::with_places(alloc, count)?,
    };
    let _pushed = batch.push(first);
    for at in 1..count {
        let _pushed = batch.push(first.wrapping_add(at as u64));
    }
    Ok(batch)
}

// What a reader does that found nothing several times in a row. A sleep of a microsecond takes some sixty, since Linux
// lets a timer be late by 50 (its timer slack).
fn idle<R: Clock>(rt: &R, turns: u32, yields: u32) {
    if turns < yields {
        thread::yield_now();
    } else {
        thread::sleep(rt, Duration::from_micros(1));
    }
}

// Publishes all items in batches, waiting while the log is full, and closes the log. Returns whether
// there was memory.
fn publish_all<N: Feed, R: Clock>(
    rt: &R,
    alloc: Global,
    cast: &Cast<u64, N>,
    writer: &mut Writer<u64, N>,
    pass: &mut Pass<u64, N>,
    load: Load,
) -> bool {
    for number in 0..load.batches {
        let first = number.wrapping_mul(load.items as u64);
        match batch_of(alloc, writer, first, load.items) {
            Ok(batch) => publish(rt, cast, writer, pass, batch),
            Err(_) => {
                let _closed = writer.close(cast);
                return false;
            }
        }
    }
    let _closed = writer.close(cast);
    true
}

// Publishes a batch, trying again while the log is full.
fn publish<N: Feed, R: Clock>(
    rt: &R,
    cast: &Cast<u64, N>,
    writer: &mut Writer<u64, N>,
    pass: &mut Pass<u64, N>,
    batch: SegmentBuilder<u64>,
)
    requires { 0 < length batch.items }
{
    let mut batch = batch;
    for _turn in 0..u64::MAX {
        match writer.publish(cast, batch, Snapshot::of(&()), pass) {
            Ok(_) => return,
            Err(
                Refused {
                    fault: _,
                    batch: back,
                },
            ) => batch = back,
        }
        thread::yield_now();
    }
    batch.discard();
}

// Reads to the end of the log.
fn read_to_end<N: Feed, R: Clock>(
    rt: &R,
    cursor: &mut LentCursor<'_, u64, N>,
    yields: u32,
) -> Shown {
    let mut shown = Shown::NOTHING;
    let mut idle_turns: u32 = 0;
    for _turn in 0..u64::MAX {
        match cursor.next_slice() {
            Slice::Items(items) => {
                idle_turns = 0;
                shown.items = shown.items.wrapping_add(items.len() as u64);
                for item in items {
                    shown.sum = shown.sum.wrapping_add(*item);
                }
            }
            Slice::Pending => {
                idle(rt, idle_turns, yields);
                idle_turns = idle_turns.saturating_add(1);
            }
            Slice::Closed | Slice::Cut => return shown,
        }
    }
    shown
}

// Reads to the end of the log, if there is a cursor, which leaves its lane. It lies in this thread's own memory: on one
// cache line with another thread's, each would wait for the other's writes.
fn read_all<N: Feed, R: Clock>(
    rt: &R,
    given: &mut Option<LentCursor<'_, u64, N>>,
    yields: u32,
) -> Shown {
    match given.take() {
        Some(mut cursor) => read_to_end(rt, &mut cursor, yields),
        None => Shown::NOTHING,
    }
}

// A lane for a reader, if there is one.
fn admit<'a, N: Feed>(
    cast: &'a Cast<u64, N>,
    writer: &mut Writer<u64, N>,
) -> Option<LentCursor<'a, u64, N>> {
    match writer.admit(cast, Snapshot::of(&())) {
        Ok(cursor) => Some(cursor),
        Err(_) => None,
    }
}

// A reader, and what it received.
#[derive(Drop)]
struct Seat<'a, N: Feed> {
    cursor: Option<LentCursor<'a, u64, N>>,
    shown: Shown,
}

// A reader in each seat, each in a thread of its own.
fn read_each<N: Feed + Send + Sync, R: Threads + Clock + Sync>(
    rt: &R,
    seats: &mut [Seat<'_, N>],
    yields: u32,
) {
    thread::for_each_mut(
        rt,
        seats,
        LANES,
        &|_seat, seat| seat.shown = read_all(rt, &mut seat.cursor, yields),
    );
}

// What all readers received together.
fn all_shown<N: Feed>(seats: &[Seat<'_, N>]) -> Shown {
    let mut shown = Shown::NOTHING;
    for seat in seats {
        shown = shown.and(seat.shown);
    }
    shown
}

// Publishes while the readers read: what all of these received, if there was memory.
fn publish_and_read<N: Feed + Send + Sync, R: Threads + Clock + Sync>(
    rt: &R,
    alloc: Global,
    cast: &Cast<u64, N>,
    writer: &mut Writer<u64, N>,
    pass: &mut Pass<u64, N>,
    load: Load,
) -> Result<Shown, AllocError> {
    let mut seats = Vec::with_capacity(alloc, load.readers)?;
    for _reader in 0..load.readers {
        seats.push_reserved(Seat {
            cursor: admit(cast, writer),
            shown: Shown::NOTHING,
        });
    }
    let (publisher, lent) = (&mut *writer, seats.as_mut_slice());
    let (well, ()) = thread::join(
        rt,
        move || publish_all(rt, alloc, cast, publisher, pass, load),
        move || read_each(rt, lent, load.yields),
    );
    let shown = all_shown(&seats);
    drop(seats);
    let _left = writer.reclaim(cast);
    if well { Ok(shown) } else { Err(AllocError) }
}

// The whole run: what all readers received, if there was memory.
fn run<N: Feed + Send + Sync, R: Threads + Clock + Sync>(
    rt: &R,
    parts: Parts<u64>,
    alloc: Global,
    load: Load,
) -> Result<Shown, AllocError>
    requires { parts.board.shared.table_id ≡ N.table }
{
    let Begun {
        cast,
        mut writer,
        mut passes,
    } = begin::<u64, N, (), ()>(parts, 1)?;
    let shown = match passes.first_mut() {
        Some(pass) => publish_and_read(rt, alloc, &cast, &mut writer, pass, load),
        None => Err(AllocError),
    };
    // No proof follows the lanes through the threads. With one in use the log's memory isn't all freed.
    if let Err(log) = end(cast, writer) {
        log.leak();
    }
    shown
}

/// Runs a load, and prints how many items the readers received in all, and their sum, and how long that
/// took.
pub(crate) fn time<R: Threads + Clock + Sync>(
    rt: &R,
    alloc: Global,
    load: Load,
    printed: &mut Printed,
) -> Result<(), Failure> {
    let parts = Parts::<u64>::make(alloc, load.places)?;
    let begin = Instant::now(rt);
    let shown = run::<Brand, R>(rt, parts, alloc, load)?;
    write!(printed.nanoseconds, "{}\n", since(rt, begin))?;
    write!(printed.counts, "{} {}\n", shown.items, shown.sum)?;
    Ok(())
}
