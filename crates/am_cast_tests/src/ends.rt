//! A log that is to end while a lane is in use: it comes back, and ends once the lane was reclaimed.

ghost use Rattle.std.specs.Prelude.{◌≡◌};

use crate::log::{Log, begin_log, end_log, one_of};
use am_cast::{Cast, Feed, InUse, Parts, Pass, Refused, Step, Writer, end};
use std::alloc::{AllocError, Global};
use std::marker::Brand;
use std::snapshot::Snapshot;
use std::test::Fail;

// Two batches are posted to a reader, which goes with the first one in its hand.
fn come_and_go<N: Feed>(
    alloc: Global,
    cast: &Cast<u64, N>,
    writer: &mut Writer<u64, N>,
    pass: &mut Pass<u64, N>,
) -> Result<bool, AllocError> {
    let Ok(mut cursor) = writer.admit(cast, Snapshot::of(&())) else {
        return Err(AllocError);
    };
    for number in 0..2_u64 {
        let batch = one_of(alloc, number)?;
        if let Err(Refused { fault: _, batch }) = writer.publish(
            cast,
            batch,
            Snapshot::of(&()),
            pass,
        ) {
            batch.discard();
            return Err(AllocError);
        }
    }
    Ok(matches!(cursor.next(), Step::Item(0)))
}

// Whether the log came back with both batches, and the lane was then found left.
fn end_late<N: Feed>(alloc: Global, parts: Parts<u64>) -> Result<bool, Fail>
    requires { parts.board.shared.table_id ≡ N.table }
{
    let Log {
        cast,
        mut writer,
        mut pass,
    } = begin_log::<u64, N>(parts)?;
    let read = come_and_go(alloc, &cast, &mut writer, &mut pass);
    let Err(InUse { cast, mut writer }) = end(cast, writer) else {
        return Ok(false);
    };
    let back = writer.len() == 2 && !writer.is_idle();
    let found = writer.reclaim(&cast);
    end_log(cast, writer)?;
    Ok(read? && back && found[0])
}

// Whether the log came back, and was let go.
fn let_go<N: Feed>(alloc: Global, parts: Parts<u64>) -> Result<bool, Fail>
    requires { parts.board.shared.table_id ≡ N.table }
{
    let Log {
        cast,
        mut writer,
        mut pass,
    } = begin_log::<u64, N>(parts)?;
    let read = come_and_go(alloc, &cast, &mut writer, &mut pass);
    match end(cast, writer) {
        Ok(()) => Ok(false),
        Err(log) => {
            log.leak();
            Ok(read?)
        }
    }
}

fn end_late_of(alloc: Global) -> Result<bool, Fail> {
    let parts = Parts::make(alloc, 2)?;
    end_late::<Brand>(alloc, parts)
}

fn let_go_of(alloc: Global) -> Result<bool, Fail> {
    let parts = Parts::make(alloc, 2)?;
    let_go::<Brand>(alloc, parts)
}

#[test]
fn a_log_in_use_ends_once_its_lane_is_reclaimed(rt: HostRuntime) -> Result<(), Fail> {
    assert!(rt; end_late_of(rt.alloc())?);
    Ok(())
}

#[test]
fn a_log_in_use_is_let_go(rt: HostRuntime) -> Result<(), Fail> {
    assert!(rt; let_go_of(rt.alloc())?);
    Ok(())
}
