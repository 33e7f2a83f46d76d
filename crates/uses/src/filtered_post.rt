//! A post of alerts that aren't JSON, of which a filter takes at most two that are new.

use anyhow::Result;
use sinnoraku::{
    Alert, AlertParts, Client, Duration, Global, Limits, Moment, Program, Recorded, Text, Wait,
    post_from_parts, run,
};

const NEW_YEAR: &str = "2024-01-01T00:00:00Z";

#[derive(Drop)]
struct FilteredPost;

impl<R: Wait + Print + AllocGlobal> Program<R> for FilteredPost {
    type Outcome = Result<()>;

    fn run<N: Recorded>(self, rt: &R, clients: &mut [Client<'_, N>]) -> Result<()> {
        let client = &mut clients[0];
        let now: Moment = NEW_YEAR.parse()?;
        let mut parts = Vec::new(rt.alloc());
        for instance in ["db1", "db2", "db3"] {
            parts.push(disk_full(rt.alloc(), instance, now)?)?;
        }
        let post = post_from_parts(rt.alloc(), parts)?;
        let mut room = 2u32;
        let mut accepts = |_alert: &Alert, is_new: bool| {
            if is_new && room == 0 {
                return false;
            }
            if is_new {
                room -= 1;
            }
            true
        };
        let put = client.put_if(rt, post, now, &mut accepts)?;
        let stored = put.posted.valid;
        let refused = put.refused.len();
        println!(rt; "{stored} stored, {refused} refused")?;
        Ok(())
    }
}

// An alert that lasts for five minutes.
fn disk_full(alloc: Global, instance: &str, now: Moment) -> Result<AlertParts> {
    let mut labels = Vec::new(alloc);
    labels.push((text(alloc, "alertname")?, text(alloc, "DiskFull")?))?;
    labels.push((text(alloc, "instance")?, text(alloc, instance)?))?;
    Ok(AlertParts {
        labels,
        annotations: Vec::new(alloc),
        start: now,
        end: now.checked_add(Duration::from_secs(300)).unwrap_or(now),
        updated: now,
        timeout: false,
        generator: text(alloc, "")?,
    })
}

fn text(alloc: Global, text: &str) -> Result<Text> {
    Ok(Text::from_str(alloc, text)?)
}

pub fn start<R: Wait + Print + AllocGlobal>(rt: &R, alloc: Global) -> Result<()> {
    let (done, _settled) = run(rt, alloc, Limits::with_callers(1), FilteredPost)?;
    done
}
