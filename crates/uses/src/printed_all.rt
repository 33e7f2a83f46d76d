//! Two threads: one posts, and one prints what its reader shows, which is all that it was owed.

ghost use Rattle.std.specs.Prelude.{◌≡◌, IfOk, OnOk, string_bytes};
ghost use Rattle.std.specs.Option.{IsSomeAnd};
ghost use Rattle.sinnoraku.specs.Owed.{PrintsItsDue, alert_lines, taken};

use anyhow::Result;
use sinnoraku::{
    Client, Ended, Global, Limits, Moment, Next, Reader, Recorded, Threads, Wait, Worker,
    run_workers,
};
use std::sync::Barrier;

const BODY: &[u8] = b"[{\"labels\":{\"alertname\":\"DiskFull\"}}]";

const NEW_YEAR: &str = "2024-01-01T00:00:00Z";

#[derive(Drop)]
struct Relay {
    alloc: Global,
    ready: Barrier,
    now: Moment,
}

impl<R: Wait> Worker<R> for Relay {
    // What the first worker printed, and its reader's ending.
    type Outcome = Result<Option<(String, Ended)>>;

    ghost comes_to = { λ _ _ index caller outcome. index ≡ 0 → IfOk outcome (λ printed.
        IsSomeAnd printed (λ (text, ended). PrintsItsDue caller ended (string_bytes text))) };

    fn work<N: Recorded>(&self, rt: &R, index: usize, client: &mut Client<'_, N>) -> Self::Outcome {
        if index == 0 {
            return Ok(Some(self.print(rt, client)?));
        }
        self.ready.wait(rt);
        let posted = client.post(rt, BODY, self.now);
        // Also after a refusal: the reader waits for the end.
        client.close(rt)?;
        posted?;
        Ok(None)
    }
}

impl Relay {
    fn print<N: Recorded, R: Wait>(
        &self,
        rt: &R,
        client: &mut Client<'_, N>,
    ) -> Result<(String, Ended)>
        ensures { IfOk result (λ (text, ended). PrintsItsDue client.new.caller.front ended (string_bytes text)) }
    {
        let subscribed = client.subscribe(rt);
        self.ready.wait(rt);
        let mut reader = subscribed?;
        let mut text = String::new(self.alloc);
        let printed = print_all(rt, &mut reader, &mut text);
        let ended = client.leave(rt, reader);
        printed?;
        Ok((text, ended))
    }
}

// A line for each alert, until no more will come. What may fail while there is a reader is in a function that borrows it.
fn print_all<N: Recorded, R: Wait>(
    rt: &R,
    reader: &mut Reader<'_, N>,
    text: &mut String,
) -> Result<()>
    requires { string_bytes text.old ≡ alert_lines (taken reader.old.subscription) }
    ensures { OnOk result (string_bytes text.new ≡ alert_lines (taken reader.new.subscription)) }
{
    for _turn in rt.forever() {
        match reader.next_or_wait(rt)? {
            Next::Alert(alert) => writeln!(text, "{alert}")?,
            Next::Closed | Next::Cut => break,
        }
    }
    Ok(())
}

pub fn start<R: Threads + Wait + Print + Sync>(rt: &R, alloc: Global) -> Result<()> {
    let relay = Relay {
        alloc,
        ready: Barrier::new(2),
        now: NEW_YEAR.parse()?,
    };
    let (outcomes, _settled) = run_workers(rt, alloc, Limits::with_callers(2), &relay)?;
    for outcome in outcomes {
        if let Some((text, _ended)) = outcome? {
            print!(rt; "{text}")?;
        }
    }
    Ok(())
}
