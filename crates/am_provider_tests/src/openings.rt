//! Openings of more alerts than a block has, and than a group of blocks: each shows what was stored when it came,
//! whatever came since, also where it has blocks or groups in common with an earlier one.

use crate::bodies::{Report, moment};
use crate::posts::{post_many, post_reports};
use crate::stopped::Stopped;
use am_alert::Moment;
use am_provider::{Slice, Subscription};
use am_store::BLOCK;
use sinnoraku::{Client, Limits, Program, Recorded, run};
use std::alloc::{AllocError, Global};
use std::sync::Wait;
use std::test::Fail;

const ONE_BLOCK: u32 = BLOCK as u32;

// The alert that is posted again, in the second block.
const CHANGED: u32 = ONE_BLOCK + 5;

// When reports end, and when that of the changed alert does then.
const END: u32 = 4_000_000;

const LATER: u32 = 5_000_000;

/// What was shown of an opening, or what is stored: in how many slices, how many alerts, whether their starts
/// rise, and the end of the one that changes.
#[derive(Clone, Copy, Debug, PartialEq, Eq, Drop)]
struct Shown {
    slices: u32,
    alerts: usize,
    rising: bool,
    end: Moment,
}

impl Shown {
    const NOTHING: Shown = Shown {
        slices: 0,
        alerts: 0,
        rising: true,
        end: Moment::MAX,
    };

    fn note(&mut self, last: &mut Moment, start: Moment, end: Moment) {
        self.rising = self.rising && (self.alerts == 0 || *last < start);
        self.alerts = self.alerts.wrapping_add(1);
        *last = start;
        if start == moment(CHANGED) {
            self.end = end;
        }
    }
}

// What is shown of an opening.
fn opening_of<N: Recorded>(subscription: &mut Subscription<'_, N>) -> Shown {
    let mut shown = Shown::NOTHING;
    let mut last = Moment::MAX;
    for _ in 0..100 {
        let Slice::Stored(alerts) = subscription.next_slice() else {
            return shown;
        };
        shown.slices = shown.slices.wrapping_add(1);
        for alert in alerts {
            shown.note(&mut last, alert.start, alert.end);
        }
    }
    shown
}

// What is stored, as one slice.
fn stored<N: Recorded, R: Wait>(rt: &R, client: &mut Client<'_, N>) -> Result<Shown, AllocError> {
    let mut shown = Shown::NOTHING;
    let mut last = Moment::MAX;
    for alert in &client.stored(rt)? {
        shown.note(&mut last, alert.start, alert.end);
    }
    Ok(shown)
}

// How many alerts are stored first: some whole blocks, and a few alerts more.
fn many(blocks: u32) -> u32 {
    blocks.wrapping_mul(ONE_BLOCK).wrapping_add(3)
}

#[derive(Drop)]
struct Sharing {
    blocks: u32,
}

impl<R: Wait + AllocGlobal> Program<R> for Sharing {
    type Outcome = Result<[Shown; 4], Stopped>;

    fn run<N: Recorded>(self, rt: &R, clients: &mut [Client<'_, N>]) -> Self::Outcome {
        let client = &mut clients[0];
        for block in 0..self.blocks {
            post_many(rt, client, block.wrapping_mul(ONE_BLOCK), ONE_BLOCK, END)?;
        }
        post_many(rt, client, self.blocks.wrapping_mul(ONE_BLOCK), 3, END)?;
        let mut first = client.subscribe(rt)?;
        let posted = change(rt, client, many(self.blocks));
        let stored = stored(rt, client);
        let second = client.subscribe(rt);
        let removed = client.collect_resolved(rt, moment(END + 1));
        let shown_first = opening_of(&mut first.subscription);
        client.leave(rt, first);
        let mut second = second?;
        let shown_second = opening_of(&mut second.subscription);
        client.leave(rt, second);
        posted?;
        removed?;
        let mut third = client.subscribe(rt)?;
        let shown_third = opening_of(&mut third.subscription);
        client.leave(rt, third);
        Ok([shown_first, stored?, shown_second, shown_third])
    }
}

// One alert of the second block is posted again, and a new one, the one of this number.
fn change<N: Recorded, R: Wait + AllocGlobal>(
    rt: &R,
    client: &mut Client<'_, N>,
    new: u32,
) -> Result<(), Stopped> {
    let again = [Report::new(CHANGED, CHANGED, LATER)];
    post_reports(rt, client, again.as_slice(), 20)?;
    post_many(rt, client, new, 1, END)
}

// What is shown with this number of whole blocks stored, and what should be.
fn shown_and_wanted<R: Wait + AllocGlobal>(
    rt: &R,
    blocks: u32,
) -> Result<(Result<[Shown; 4], Stopped>, [Shown; 4]), Fail> {
    let limits = Limits::with_callers(1).places(8);
    let (shown, _settled) = run(rt, rt.alloc(), limits, Sharing { blocks })?;
    let many = many(blocks) as usize;
    let slices = blocks.wrapping_add(1);
    let wanted = [
        (slices, many, true, moment(END)),
        (0, many.wrapping_add(1), true, moment(LATER)),
        (slices, many.wrapping_add(1), true, moment(LATER)),
        (1, 1, true, moment(LATER)),
    ]
    .map(|(slices, alerts, rising, end)| Shown {
        slices,
        alerts,
        rising,
        end,
    });
    Ok((shown, wanted))
}

#[test]
fn openings_with_blocks_in_common(rt: HostRuntime) -> Result<(), Fail> {
    let (shown, wanted) = shown_and_wanted(&rt, 2)?;
    assert_eq!(rt; shown?.as_slice(), wanted.as_slice());
    Ok(())
}

// The first group is full, and the last alerts are in a second one.
#[test]
fn openings_with_groups_in_common(rt: HostRuntime) -> Result<(), Fail> {
    let (shown, wanted) = shown_and_wanted(&rt, 32)?;
    assert_eq!(rt; shown?.as_slice(), wanted.as_slice());
    Ok(())
}
