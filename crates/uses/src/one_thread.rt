//! One thread posts an alert, and prints what a reader shows until no more will come.

use anyhow::Result;
use sinnoraku::{Client, Global, Limits, Moment, Program, Reader, Recorded, Wait, run};

const BODY: &[u8] = b"[{\"labels\":{\"alertname\":\"DiskFull\"}}]";

// Every call says its moment.
const NEW_YEAR: &str = "2024-01-01T00:00:00Z";

#[derive(Drop)]
struct OneThread;

impl<R: Wait + Print> Program<R> for OneThread {
    type Outcome = Result<()>;

    fn run<N: Recorded>(self, rt: &R, clients: &mut [Client<'_, N>]) -> Result<()> {
        let client = &mut clients[0];
        let mut reader = client.subscribe(rt)?;
        let done = post_and_print(rt, client, &mut reader);
        client.leave(rt, reader);
        done
    }
}

// A reader has to be given back. So what may fail before that is in a function that borrows it.
fn post_and_print<N: Recorded, R: Wait + Print>(
    rt: &R,
    client: &mut Client<'_, N>,
    reader: &mut Reader<'_, N>,
) -> Result<()> {
    let now: Moment = NEW_YEAR.parse()?;
    client.post(rt, BODY, now)?;
    client.close(rt)?;
    for alert in reader.iter(rt) {
        let alert = alert?;
        println!(rt; "{alert}")?;
    }
    Ok(())
}

pub fn start<R: Wait + Print>(rt: &R, alloc: Global) -> Result<()> {
    let (done, _settled) = run(rt, alloc, Limits::with_callers(1), OneThread)?;
    done
}
