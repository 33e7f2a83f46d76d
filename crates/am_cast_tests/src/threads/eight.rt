//! All eight lanes at once: four threads read two lanes each while another one posts.

ghost use Rattle.std.specs.Prelude.{◌≡◌};

use crate::log::end_log;
use am_cast::{
    Begun, Cast, Feed, LANES, LentCursor, Parts, Pass, Refused, Slice, Step, Writer, begin,
};
use am_segment::SegmentBuilder;
use std::alloc::{AllocError, Global};
use std::marker::Brand;
use std::snapshot::Snapshot;
use std::test::Fail;
use std::thread;
use std::thread::Threads;

const PLACES: u64 = 4;

const BATCHES: u64 = 1_000;

/// Two lanes of one thread, and how many items the one ahead was shown.
#[derive(Drop)]
struct Pair<'a, N: Feed> {
    ahead: LentCursor<'a, u64, N>,
    after: LentCursor<'a, u64, N>,
    pass: Pass<u64, N>,
    shown: u64,
    wrong: bool,
    closed: bool,
}

/// How many batches took new memory, how many pairs were shown all that was posted, and which lanes were then
/// found left.
type Ended = (u64, u64, [bool; LANES]);

// Posts the numbers from 0 on, three to a batch, in the blocks of batches that were read. Answers how many batches
// took new memory.
fn post_spares<N: Feed>(
    alloc: Global,
    cast: &Cast<u64, N>,
    writer: &mut Writer<u64, N>,
    pass: &mut Pass<u64, N>,
) -> Result<u64, AllocError> {
    let mut new: u64 = 0;
    let mut next: u64 = 0;
    for _turn in 0..u64::MAX {
        if next >= 3 * BATCHES {
            return Ok(new);
        }
        if writer.harvest(cast).is_some() {
            thread::yield_now();
            continue;
        }
        let mut batch = match writer.spare(3) {
            Some(batch) => batch,
            None => {
                new = new.wrapping_add(1);
                SegmentBuilder::with_places(alloc, 3)?
            }
        };
        let _pushed = batch.push(next);
        let _pushed = batch.push(next.wrapping_add(1));
        let _pushed = batch.push(next.wrapping_add(2));
        next = next.wrapping_add(3);
        if let Err(Refused { fault: _, batch }) = writer.publish(
            cast,
            batch,
            Snapshot::of(&()),
            pass,
        ) {
            batch.discard();
            return Err(AllocError);
        }
    }
    Err(AllocError)
}

// The lane ahead is shown an item, and then a slice of what is left of its batch. The pass learns of them, so that
// the other lane is shown them too before it has to wait.
fn read_pair<N: Feed>(cast: &Cast<u64, N>, pair: &mut Pair<'_, N>) {
    for _turn in 0..u64::MAX {
        let from = pair.shown;
        if let Step::Item(item) = pair.ahead.next() {
            pair.wrong |= *item != pair.shown;
            pair.shown = pair.shown.wrapping_add(1);
        }
        match pair.ahead.next_slice() {
            Slice::Items(items) => {
                for item in items {
                    pair.wrong |= *item != pair.shown;
                    pair.shown = pair.shown.wrapping_add(1);
                }
            }
            Slice::Pending => thread::yield_now(),
            Slice::Closed => {
                pair.closed = matches!(pair.after.next(), Step::Closed);
                return;
            }
            Slice::Cut => return,
        }
        pair.pass.meet(cast, &mut pair.ahead);
        for number in from..pair.shown {
            match pair.after.next_past(&mut pair.pass) {
                Step::Item(item) => pair.wrong |= *item != number,
                _ => {
                    pair.wrong = true;
                    // The writer waits for this lane too.
                    let _item = pair.after.next();
                }
            }
        }
    }
}

// Two lanes for each pass.
fn pairs_of<'a, N: Feed>(
    alloc: Global,
    cast: &'a Cast<u64, N>,
    writer: &mut Writer<u64, N>,
    passes: Vec<Pass<u64, N>>,
) -> Result<Vec<Pair<'a, N>>, AllocError> {
    let mut pairs = Vec::new(alloc);
    for pass in passes {
        let Ok(ahead) = writer.admit(cast, Snapshot::of(&())) else {
            return Err(AllocError);
        };
        let Ok(after) = writer.admit(cast, Snapshot::of(&())) else {
            return Err(AllocError);
        };
        pairs.push(Pair {
            ahead,
            after,
            pass,
            shown: 0,
            wrong: false,
            closed: false,
        })?;
    }
    Ok(pairs)
}

// Answers how many batches took new memory, and how many pairs were shown all that was posted.
fn read_beside<N: Feed + Send + Sync, R: Threads + Sync>(
    rt: &R,
    alloc: Global,
    cast: &Cast<u64, N>,
    writer: &mut Writer<u64, N>,
    mut passes: Vec<Pass<u64, N>>,
) -> Result<(u64, u64), AllocError> {
    let Some(mut own) = passes.pop() else {
        return Err(AllocError);
    };
    let mut pairs = pairs_of(alloc, cast, writer, passes)?;
    let lent = pairs.as_mut_slice();
    let (new, ()) = thread::join(
        rt,
        || {
            let new = post_spares(alloc, cast, writer, &mut own);
            let _closed = writer.close(cast);
            new
        },
        || thread::for_each_mut(rt, lent, 4, &|_at, pair| read_pair(cast, pair)),
    );
    let mut right: u64 = 0;
    for pair in &pairs {
        if pair.closed && !pair.wrong && pair.shown == 3 * BATCHES {
            right = right.wrapping_add(1);
        }
    }
    Ok((new?, right))
}

fn eight_in<N: Feed + Send + Sync, R: Threads + Sync>(
    rt: &R,
    alloc: Global,
    parts: Parts<u64>,
) -> Result<Ended, Fail>
    requires { parts.board.shared.table_id ≡ N.table }
{
    let Begun {
        cast,
        mut writer,
        passes,
    } = begin::<u64, N, (), ()>(parts, 5)?;
    let ended = read_beside(rt, alloc, &cast, &mut writer, passes);
    let found = writer.reclaim(&cast);
    end_log(cast, writer)?;
    let (new, right) = ended?;
    Ok((new, right, found))
}

fn eight_of<R: Threads + Sync>(rt: &R, alloc: Global) -> Result<Ended, Fail> {
    let parts = Parts::make(alloc, PLACES)?;
    eight_in::<Brand, R>(rt, alloc, parts)
}

#[test]
fn eight_lanes_beside_a_writer(rt: HostRuntime) -> Result<(), Fail> {
    let (new, right, found) = eight_of(&rt, rt.alloc())?;
    assert!(rt; new <= PLACES);
    assert_eq!(rt; right, 4);
    assert_eq!(rt; found.as_slice(), [true; LANES].as_slice());
    Ok(())
}
