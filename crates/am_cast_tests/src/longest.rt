//! A log of as many places as there may be.

ghost use Rattle.std.specs.Prelude.{◌≡◌};

use crate::log::{Log, begin_log, end_log, one_of};
use am_cast::{
    Cast, Feed, LentCursor, MAX_PLACES, Parts, Pass, PublishFault, Refused, Step, Writer,
};
use std::alloc::{AllocError, Global};
use std::marker::Brand;
use std::snapshot::Snapshot;
use std::test::Fail;

/// How many batches were posted before one was refused, why that was, and how many items were then shown in order. Then
/// the same once more.
type Seen = [(u64, PublishFault, u64); 2];

// Posts a batch for each number from one on until one is refused, and returns how many weren't, and why that one was.
fn post_from<N: Feed>(
    alloc: Global,
    cast: &Cast<u64, N>,
    writer: &mut Writer<u64, N>,
    pass: &mut Pass<u64, N>,
    first: u64,
) -> Result<(u64, PublishFault), AllocError> {
    for posted in 0..u64::MAX {
        let batch = one_of(alloc, first.wrapping_add(posted))?;
        if let Err(Refused { fault, batch }) = writer.publish(
            cast,
            batch,
            Snapshot::of(&()),
            pass,
        ) {
            batch.discard();
            return Ok((posted, fault));
        }
    }
    Err(AllocError)
}

// How many items are shown in the order of the numbers from one on.
fn read_from<N: Feed>(cursor: &mut LentCursor<'_, u64, N>, first: u64) -> u64 {
    for shown in 0..u64::MAX {
        match cursor.next() {
            Step::Item(item) if *item == first.wrapping_add(shown) => {}
            _ => return shown,
        }
    }
    u64::MAX
}

// The reader comes, reads what a log that is full has, twice, and leaves.
fn fill_and_read<N: Feed>(
    alloc: Global,
    cast: &Cast<u64, N>,
    writer: &mut Writer<u64, N>,
    pass: &mut Pass<u64, N>,
) -> Result<Seen, AllocError> {
    let Ok(mut cursor) = writer.admit(cast, Snapshot::of(&())) else {
        return Err(AllocError);
    };
    let seen = fill_twice(alloc, cast, writer, pass, &mut cursor);
    writer.retire(cast, cursor);
    seen
}

fn fill_twice<N: Feed>(
    alloc: Global,
    cast: &Cast<u64, N>,
    writer: &mut Writer<u64, N>,
    pass: &mut Pass<u64, N>,
    cursor: &mut LentCursor<'_, u64, N>,
) -> Result<Seen, AllocError> {
    let (count, fault) = post_from(alloc, cast, writer, pass, 0)?;
    let shown = read_from(cursor, 0);
    let (more, again) = post_from(alloc, cast, writer, pass, count)?;
    let rest = read_from(cursor, count);
    Ok([(count, fault, shown), (more, again, rest)])
}

fn run<N: Feed>(alloc: Global, parts: Parts<u64>) -> Result<Seen, Fail>
    requires { parts.board.shared.table_id ≡ N.table }
{
    let Log {
        cast,
        mut writer,
        mut pass,
    } = begin_log::<u64, N>(parts)?;
    let seen = fill_and_read(alloc, &cast, &mut writer, &mut pass);
    end_log(cast, writer)?;
    Ok(seen?)
}

fn run_of(alloc: Global) -> Result<Seen, Fail> {
    let parts = Parts::make(alloc, MAX_PLACES)?;
    run::<Brand>(alloc, parts)
}

#[test]
fn a_reader_may_lag_by_all_places(rt: HostRuntime) -> Result<(), Fail> {
    let [first, second] = run_of(rt.alloc())?;
    let full = |passed| PublishFault::Full { lane: 0, passed };
    assert_eq!(rt; first, (65_536, full(0), 65_536));
    assert_eq!(rt; second, (65_536, full(65_536), 65_536));
    Ok(())
}
