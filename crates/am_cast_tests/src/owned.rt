//! Items that own memory: each is freed once, whether it was shown, left unread or never asked for.

ghost use Rattle.std.specs.Prelude.{◌≡◌, ◌<◌, length, IfOk};

use crate::log::{Log, begin_log, end_log};
use am_cast::{Cast, Feed, LentCursor, Parts, Pass, PublishFault, Refused, Step, Writer};
use am_segment::SegmentBuilder;
use std::alloc::{AllocError, Global};
use std::marker::Brand;
use std::snapshot::Snapshot;
use std::test::Fail;

fn item_of(alloc: Global, value: u64) -> Result<Vec<u64>, AllocError> {
    let mut item = Vec::new(alloc);
    item.push(value)?;
    Ok(item)
}

// Two items, of the number and of the one after it.
fn batch_of(alloc: Global, first: u64) -> Result<SegmentBuilder<Vec<u64>>, AllocError>
    ensures { IfOk result (λ batch. 0 < length batch.items) }
{
    let one = item_of(alloc, first)?;
    let other = item_of(alloc, first.wrapping_add(1))?;
    let mut batch = SegmentBuilder::with_places(alloc, 2)?;
    let _pushed = batch.push(one);
    let _pushed = batch.push(other);
    Ok(batch)
}

// Whether the batch was posted, and not refused because a lane is full.
fn post<N: Feed>(
    alloc: Global,
    cast: &Cast<Vec<u64>, N>,
    writer: &mut Writer<Vec<u64>, N>,
    pass: &mut Pass<Vec<u64>, N>,
    first: u64,
) -> Result<bool, AllocError> {
    let batch = batch_of(alloc, first)?;
    match writer.publish(cast, batch, Snapshot::of(&()), pass) {
        Ok(_) => Ok(true),
        Err(Refused { fault, batch }) => {
            batch.discard();
            if fault == PublishFault::NoMemory {
                return Err(AllocError);
            }
            Ok(false)
        }
    }
}

// The number of the next item, or 100 if there is none.
fn shown<N: Feed>(cursor: &mut LentCursor<'_, Vec<u64>, N>) -> u64 {
    match cursor.next() {
        Step::Item(item) => *item.get(0).unwrap_or(&101),
        _ => 100,
    }
}

// Posts to a log of two places with a reader, which reads three items of four.
fn read_some<N: Feed>(
    alloc: Global,
    cast: &Cast<Vec<u64>, N>,
    writer: &mut Writer<Vec<u64>, N>,
    pass: &mut Pass<Vec<u64>, N>,
    cursor: &mut LentCursor<'_, Vec<u64>, N>,
) -> Result<[u64; 6], AllocError> {
    let one = post(alloc, cast, writer, pass, 1)?;
    let two = post(alloc, cast, writer, pass, 3)?;
    // The log is full.
    let three = post(alloc, cast, writer, pass, 5)?;
    Ok([
        one as u64,
        two as u64,
        three as u64,
        shown(cursor),
        shown(cursor),
        shown(cursor),
    ])
}

// The reader comes and leaves, and then there is a post that nobody reads.
fn come_and_post<N: Feed>(
    alloc: Global,
    cast: &Cast<Vec<u64>, N>,
    writer: &mut Writer<Vec<u64>, N>,
    pass: &mut Pass<Vec<u64>, N>,
) -> Result<[u64; 6], AllocError> {
    let Ok(mut cursor) = writer.admit(cast, Snapshot::of(&())) else {
        return Err(AllocError);
    };
    let saw = read_some(alloc, cast, writer, pass, &mut cursor);
    writer.retire(cast, cursor);
    let _posted = post(alloc, cast, writer, pass, 7)?;
    saw
}

fn run<N: Feed>(alloc: Global, parts: Parts<Vec<u64>>) -> Result<[u64; 6], Fail>
    requires { parts.board.shared.table_id ≡ N.table }
{
    let Log {
        cast,
        mut writer,
        mut pass,
    } = begin_log::<Vec<u64>, N>(parts)?;
    let saw = come_and_post(alloc, &cast, &mut writer, &mut pass);
    end_log(cast, writer)?;
    Ok(saw?)
}

fn run_of(alloc: Global) -> Result<[u64; 6], Fail> {
    let parts = Parts::make(alloc, 2)?;
    run::<Brand>(alloc, parts)
}

// A reader with a place in its hand goes, and another comes on the same lane. Answers whether the first place
// was freed before the lane was reclaimed, whether it was then, and which item the other reader is shown first.
fn come_and_drop<N: Feed>(
    alloc: Global,
    cast: &Cast<Vec<u64>, N>,
    writer: &mut Writer<Vec<u64>, N>,
    pass: &mut Pass<Vec<u64>, N>,
) -> Result<(bool, bool, u64), AllocError> {
    let Ok(mut cursor) = writer.admit(cast, Snapshot::of(&())) else {
        return Err(AllocError);
    };
    let lane = cursor.lane();
    // The cursor is dropped on an early return too.
    let _posted = post(alloc, cast, writer, pass, 1)?;
    let _first = shown(&mut cursor);
    drop(cursor);
    let before = writer.freed(0);
    let found = writer.reclaim(cast);
    let after = found[lane] && writer.is_idle() && writer.freed(0);
    let Ok(mut next) = writer.admit(cast, Snapshot::of(&())) else {
        return Err(AllocError);
    };
    let same = next.lane() == lane;
    let posted = post(alloc, cast, writer, pass, 3);
    let item = shown(&mut next);
    writer.retire(cast, next);
    let _posted = posted?;
    Ok((before, after && same, item))
}

fn drop_in<N: Feed>(alloc: Global, parts: Parts<Vec<u64>>) -> Result<(bool, bool, u64), Fail>
    requires { parts.board.shared.table_id ≡ N.table }
{
    let Log {
        cast,
        mut writer,
        mut pass,
    } = begin_log::<Vec<u64>, N>(parts)?;
    let saw = come_and_drop(alloc, &cast, &mut writer, &mut pass);
    let _found = writer.reclaim(&cast);
    end_log(cast, writer)?;
    Ok(saw?)
}

fn drop_of(alloc: Global) -> Result<(bool, bool, u64), Fail> {
    let parts = Parts::make(alloc, 2)?;
    drop_in::<Brand>(alloc, parts)
}

#[test]
fn a_dropped_readers_lane_is_given_out_again(rt: HostRuntime) -> Result<(), Fail> {
    let (before, after, item) = drop_of(rt.alloc())?;
    assert!(rt; !before);
    assert!(rt; after);
    assert_eq!(rt; item, 3);
    Ok(())
}

// Whether a segment of that size that has ended can be had, which is then freed.
fn frees_one<N: Feed>(writer: &mut Writer<Vec<u64>, N>, places: usize) -> bool {
    match writer.spare(places) {
        Some(segment) => {
            let fits = segment.places() == places;
            segment.free();
            fits
        }
        None => false,
    }
}

// Whether a segment that has ended can be had while a reader holds a batch, and once it has passed it.
fn end_a_read_one<N: Feed>(
    alloc: Global,
    cast: &Cast<Vec<u64>, N>,
    writer: &mut Writer<Vec<u64>, N>,
    pass: &mut Pass<Vec<u64>, N>,
) -> Result<[bool; 2], AllocError> {
    let Ok(mut cursor) = writer.admit(cast, Snapshot::of(&())) else {
        return Err(AllocError);
    };
    let posted = post(alloc, cast, writer, pass, 9);
    let _both = [shown(&mut cursor), shown(&mut cursor)];
    let _full = writer.harvest(cast);
    let held = frees_one(writer, 2);
    let _none = shown(&mut cursor);
    let _full = writer.harvest(cast);
    let passed = frees_one(writer, 2);
    writer.retire(cast, cursor);
    let _posted = posted?;
    Ok([held, passed])
}

// Three posts that nobody reads, and then what is left of their segments, of which a log of two places
// keeps two; then one more, of which no segment of another size is made; and then one that is read.
fn end_some<N: Feed>(
    alloc: Global,
    cast: &Cast<Vec<u64>, N>,
    writer: &mut Writer<Vec<u64>, N>,
    pass: &mut Pass<Vec<u64>, N>,
) -> Result<[bool; 8], AllocError> {
    let before = frees_one(writer, 2);
    for number in 0..3 {
        let _posted = post(alloc, cast, writer, pass, number)?;
    }
    let left = [
        frees_one(writer, 2),
        frees_one(writer, 2),
        frees_one(writer, 2),
    ];
    let _posted = post(alloc, cast, writer, pass, 7)?;
    let other = frees_one(writer, 1);
    let after = frees_one(writer, 2);
    let read = end_a_read_one(alloc, cast, writer, pass)?;
    Ok([
        before, left[0], left[1], left[2], other, after, read[0], read[1],
    ])
}

fn end_in<N: Feed>(alloc: Global, parts: Parts<Vec<u64>>) -> Result<[bool; 8], Fail>
    requires { parts.board.shared.table_id ≡ N.table }
{
    let Log {
        cast,
        mut writer,
        mut pass,
    } = begin_log::<Vec<u64>, N>(parts)?;
    let left = end_some(alloc, &cast, &mut writer, &mut pass);
    end_log(cast, writer)?;
    Ok(left?)
}

fn end_of(alloc: Global) -> Result<[bool; 8], Fail> {
    let parts = Parts::make(alloc, 2)?;
    end_in::<Brand>(alloc, parts)
}

#[test]
fn as_many_segments_are_left_as_places(rt: HostRuntime) -> Result<(), Fail> {
    let left = end_of(rt.alloc())?;
    assert_eq!(rt;
        left.as_slice(),
        [false, true, true, false, false, false, false, true].as_slice()
    );
    Ok(())
}

#[test]
fn shown_unread_and_never_asked_for(rt: HostRuntime) -> Result<(), Fail> {
    let saw = run_of(rt.alloc())?;
    assert_eq!(rt; saw.as_slice(), [1, 1, 0, 1, 2, 3].as_slice());
    Ok(())
}
