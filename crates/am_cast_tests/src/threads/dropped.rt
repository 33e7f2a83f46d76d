//! Cursors that are dropped while another thread posts.

ghost use Rattle.std.specs.Prelude.{◌≡◌};

use crate::log::{Log, begin_log, end_log};
use crate::threads::{post_over, read_all};
use am_cast::{Cast, Feed, Parts, Pass, Step, Writer};
use std::alloc::{AllocError, Global};
use std::marker::Brand;
use std::snapshot::Snapshot;
use std::test::Fail;
use std::thread;
use std::thread::Threads;

// While a thread posts and cuts who lags, another reads with a cursor, drops it wherever it is, and reads with
// a second one. It never looks at a third. Answers whether each of the three ended as it should.
fn part<N: Feed + Send + Sync, R: Threads + Sync>(
    rt: &R,
    alloc: Global,
    cast: &Cast<u64, N>,
    writer: &mut Writer<u64, N>,
    pass: &mut Pass<u64, N>,
) -> Result<[bool; 3], AllocError> {
    let Ok(mut stays) = writer.admit(cast, Snapshot::of(&())) else {
        return Err(AllocError);
    };
    let Ok(mut goes) = writer.admit(cast, Snapshot::of(&())) else {
        return Err(AllocError);
    };
    let Ok(mut slow) = writer.admit(cast, Snapshot::of(&())) else {
        return Err(AllocError);
    };
    let gone = goes.lane();
    let (cuts, wrong) = thread::join(
        rt,
        || post_over(alloc, cast, writer, pass, 0, 100),
        || {
            let some = read_all(rt, &mut goes, 0, 100, false);
            drop(goes);
            let rest = read_all(rt, &mut stays, 0, 1_000, false);
            some.wrong.wrapping_add(rest.wrong)
        },
    );
    let found = writer.reclaim(cast);
    let cut = writer.is_cut(slow.lane()) && matches!(slow.next(), Step::Cut);
    let _cuts = cuts?;
    writer.retire(cast, stays);
    Ok([wrong == 0, found[gone], cut])
}

fn part_in<N: Feed + Send + Sync, R: Threads + Sync>(
    rt: &R,
    alloc: Global,
    parts: Parts<u64>,
) -> Result<[bool; 3], Fail>
    requires { parts.board.shared.table_id ≡ N.table }
{
    let Log {
        cast,
        mut writer,
        mut pass,
    } = begin_log::<u64, N>(parts)?;
    let ended = part(rt, alloc, &cast, &mut writer, &mut pass);
    let _found = writer.reclaim(&cast);
    end_log(cast, writer)?;
    Ok(ended?)
}

fn part_of<R: Threads + Sync>(rt: &R, alloc: Global) -> Result<[bool; 3], Fail> {
    let parts = Parts::make(alloc, 16)?;
    part_in::<Brand, R>(rt, alloc, parts)
}

#[test]
fn one_reader_stays_and_one_goes_and_one_is_cut(rt: HostRuntime) -> Result<(), Fail> {
    let ended = part_of(&rt, rt.alloc())?;
    assert_eq!(rt; ended.as_slice(), [true, true, true].as_slice());
    Ok(())
}
