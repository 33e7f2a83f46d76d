//! A cursor that has a share in its log moves into a thread, and is dropped there.

ghost use Rattle.std.specs.Prelude.{◌≡◌};

use crate::example::sum_of;
use crate::log::{Log, begin_log, end_log, one_of};
use am_cast::{Feed, Parts, Refused, Sender, SharedCast};
use std::alloc::{AllocError, Global};
use std::marker::Brand;
use std::snapshot::Snapshot;
use std::test::Fail;
use std::thread;
use std::thread::Threads;

type Shared<N> = Sender<SharedCast<u64, N>, u64, N>;

// Posts the numbers from 0 to 9, the last one as a batch. Answers how many batches the log has then.
fn post_ten<N: Feed>(alloc: Global, sender: &mut Shared<N>) -> Result<u64, AllocError> {
    for number in 0..9_u64 {
        if sender
            .publish_one(alloc, number, Snapshot::of(&()))
            .is_err()
        {
            return Err(AllocError);
        }
    }
    let batch = one_of(alloc, 9)?;
    if let Err(Refused { fault: _, batch }) = sender.publish(batch, Snapshot::of(&())) {
        batch.discard();
        return Err(AllocError);
    }
    Ok(sender.writer().len())
}

// How many batches were posted, and the sum that a reader in a thread of its own was shown.
fn read_beside<N: Feed + Send + Sync + 'static, R: Threads>(
    rt: &R,
    alloc: Global,
    sender: &mut Shared<N>,
) -> Result<[u64; 2], AllocError> {
    let handle = sender.handle().try_clone()?;
    let Ok(mut cursor) = sender.subscribe(handle, Snapshot::of(&())) else {
        return Err(AllocError);
    };
    let Ok(reader) = thread::spawn(rt, move || sum_of(&mut cursor)) else {
        return Err(AllocError);
    };
    let posted = post_ten(alloc, sender);
    let _closed = sender.close();
    let sum = reader.join(rt);
    Ok([posted?, sum])
}

fn share<N: Feed + Send + Sync + 'static, R: Threads>(
    rt: &R,
    alloc: Global,
    parts: Parts<u64>,
) -> Result<[u64; 2], Fail>
    requires { parts.board.shared.table_id ≡ N.table }
{
    let Log { cast, writer, pass } = begin_log::<u64, N>(parts)?;
    let shared = match SharedCast::new(alloc, cast) {
        Ok(shared) => shared,
        Err(cast) => {
            end_log(cast, writer)?;
            return Err(AllocError)?;
        }
    };
    let mut sender = Sender::new(shared, writer, pass);
    let read = read_beside(rt, alloc, &mut sender);
    let _found = sender.reclaim();
    let (shared, writer, _pass) = sender.into_parts();
    match shared.try_unwrap() {
        Ok(cast) => end_log(cast, writer)?,
        Err(_shared) => {
            writer.leak();
            return Err("the log has another owner")?;
        }
    }
    Ok(read?)
}

fn share_of<R: Threads>(rt: &R, alloc: Global) -> Result<[u64; 2], Fail> {
    let parts = Parts::make(alloc, 16)?;
    share::<Brand, R>(rt, alloc, parts)
}

#[test]
fn a_shared_cursor_reads_in_a_thread_of_its_own(rt: HostRuntime) -> Result<(), Fail> {
    assert_eq!(rt; share_of(&rt, rt.alloc())?, [10, 45]);
    Ok(())
}
