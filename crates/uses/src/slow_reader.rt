//! A reader that lags by as many batches as there are places: the next post is refused, or the reader is cut off.

use anyhow::Result;
use sinnoraku::{
    Client, Global, Limits, Moment, Next, Policy, Program, Reader, Recorded, Wait, run,
};

const BODY: &[u8] = b"[{\"labels\":{\"alertname\":\"DiskFull\"}}]";

const NEW_YEAR: &str = "2024-01-01T00:00:00Z";

#[derive(Drop)]
struct SlowReader;

impl<R: Wait + Print> Program<R> for SlowReader {
    type Outcome = Result<()>;

    fn run<N: Recorded>(self, rt: &R, clients: &mut [Client<'_, N>]) -> Result<()> {
        let client = &mut clients[0];
        let mut reader = client.subscribe(rt)?;
        let done = post_twice(rt, client, &mut reader);
        client.leave(rt, reader);
        done
    }
}

// There is one place, so that the reader lags too far at the second post.
fn post_twice<N: Recorded, R: Wait + Print>(
    rt: &R,
    client: &mut Client<'_, N>,
    reader: &mut Reader<'_, N>,
) -> Result<()> {
    let now: Moment = NEW_YEAR.parse()?;
    client.post(rt, BODY, now)?;
    match client.post(rt, BODY, now) {
        Ok(posted) => println!(rt; "posted, and the reader is cut: {}", posted.cut.contains(0))?,
        Err(refused) => println!(rt; "{refused}")?,
    }
    match reader.next_or_wait(rt)? {
        Next::Alert(alert) => println!(rt; "{alert}")?,
        Next::Closed => println!(rt; "closed")?,
        Next::Cut => println!(rt; "cut off")?,
    }
    Ok(())
}

pub fn start<R: Wait + Print>(rt: &R, alloc: Global) -> Result<()> {
    let limits = Limits::with_callers(1).places(1);
    let (refused, _settled) = run(rt, alloc, limits.policy(Policy::Refuse), SlowReader)?;
    refused?;
    let (cut, _settled) = run(rt, alloc, limits.policy(Policy::Cut), SlowReader)?;
    cut
}
