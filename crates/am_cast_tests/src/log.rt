//! The log of one test: how it begins, with one pass, and ends, and what is posted to it.

ghost use Rattle.std.specs.Prelude.{◌≡◌, ◌<◌, length, IfOk};

use am_cast::{Begun, Cast, Feed, Parts, Pass, Writer, begin, end};
use am_segment::SegmentBuilder;
use std::alloc::{AllocError, Global};
use std::test::Fail;

/// A log that one poster posts to.
pub(crate) struct Log<T, N: Feed> {
    pub(crate) cast: Cast<T, N>,
    pub(crate) writer: Writer<T, N>,
    pub(crate) pass: Pass<T, N>,
}

pub(crate) fn begin_log<T: Drop, N: Feed>(parts: Parts<T>) -> Result<Log<T, N>, AllocError>
    requires { parts.board.shared.table_id ≡ N.table }
{
    let Begun {
        cast,
        writer,
        mut passes,
    } = begin::<T, N, (), ()>(parts, 1)?;
    let Some(pass) = passes.pop() else {
        unreachable!()
    };
    Ok(Log { cast, writer, pass })
}

/// A batch of the number alone.
pub(crate) fn one_of(alloc: Global, number: u64) -> Result<SegmentBuilder<u64>, AllocError>
    ensures { IfOk result (λ batch. 0 < length batch.items) }
{
    let mut batch = SegmentBuilder::with_places(alloc, 1)?;
    let _pushed = batch.push(number);
    Ok(batch)
}

/// The log's end. A lane in use is a fault of the test, and then the log is let go.
pub(crate) fn end_log<T: Drop, N: Feed>(
    cast: Cast<T, N>,
    writer: Writer<T, N>,
) -> Result<(), Fail> {
    match end(cast, writer) {
        Ok(()) => Ok(()),
        Err(log) => {
            log.leak();
            Err("a lane of the log is in use")?
        }
    }
}
