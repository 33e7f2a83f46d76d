//! A writer that cuts, against a reader, at one place.

ghost use Rattle.std.specs.Prelude.{◌≡◌};

use crate::log::{Log, begin_log, end_log};
use crate::threads::{Shown, post_over, read_all};
use am_cast::{Cast, Feed, Parts, Pass, Writer};
use std::alloc::{AllocError, Global};
use std::marker::Brand;
use std::snapshot::Snapshot;
use std::test::Fail;
use std::thread;
use std::thread::Threads;

// One poster against one reader at one place: the reader is shown a front of what is posted, and may
// be cut.
fn race_once<N: Feed + Send + Sync, R: Threads + Sync>(
    rt: &R,
    alloc: Global,
    cast: &Cast<u64, N>,
    writer: &mut Writer<u64, N>,
    pass: &mut Pass<u64, N>,
    round: u64,
) -> Result<bool, AllocError> {
    let Ok(mut cursor) = writer.admit(cast, Snapshot::of(&())) else {
        return Err(AllocError);
    };
    let first = round.wrapping_mul(9);
    let (cuts, shown) = {
        let (writer, pass, cursor) = (&mut *writer, &mut *pass, &mut cursor);
        thread::join(
            rt,
            move || post_over(alloc, cast, writer, pass, first, 3),
            move || read_all(rt, cursor, first, 12, false),
        )
    };
    writer.retire(cast, cursor);
    let cuts = cuts?;
    let told = shown.cut as u64;
    Ok(shown.wrong == 0 && !shown.closed && shown.items <= 9 && told <= cuts && cuts <= 1)
}

fn race<N: Feed + Send + Sync, R: Threads + Sync>(
    rt: &R,
    alloc: Global,
    parts: Parts<u64>,
    rounds: u64,
) -> Result<bool, Fail>
    requires { parts.board.shared.table_id ≡ N.table }
{
    let Log {
        cast,
        mut writer,
        mut pass,
    } = begin_log::<u64, N>(parts)?;
    let mut right = Ok(true);
    for round in 0..rounds {
        if right == Ok(true) {
            right = race_once(rt, alloc, &cast, &mut writer, &mut pass, round);
        }
    }
    end_log(cast, writer)?;
    Ok(right?)
}

fn race_of<R: Threads + Sync>(rt: &R, alloc: Global, rounds: u64) -> Result<bool, Fail> {
    let parts = Parts::make(alloc, 1)?;
    race::<Brand, R>(rt, alloc, parts, rounds)
}

#[test]
fn ten_thousand_races_at_one_place(rt: HostRuntime) -> Result<(), Fail> {
    assert!(rt; race_of(&rt, rt.alloc(), 10_000)?);
    Ok(())
}
