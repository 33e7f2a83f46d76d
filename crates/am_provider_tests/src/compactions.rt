//! What compactions answer, what subscriptions that stay open get across them, and that memory has few calls
//! however many posts come. Pages of the store, too.

use crate::bodies::moment;
use crate::stopped::Stopped;
use crate::trims::post_one;
use am_provider::{Counts, Step, Subscription};
use sinnoraku::{Client, Ended, Limits, Program, Recorded, run};
use std::sync::Wait;
use std::test::Fail;

// How many alerts a subscription shows before it has nothing more.
fn read_on<N: Recorded>(subscription: &mut Subscription<'_, N>) -> u32 {
    for shown in 0..u32::MAX {
        let Step::Item(_) = subscription.next() else {
            return shown;
        };
    }
    u32::MAX
}

/// What calls answered while a subscription was open: how many alerts it showed before and after a compaction, how
/// many calls that took out of memory, and how many a trim discarded after it.
#[derive(Clone, Copy, Debug, PartialEq, Eq, Drop)]
struct WhileOpen {
    shown: u32,
    compacted: u64,
    shown_later: u32,
    trimmed: u64,
}

fn while_open<N: Recorded, R: Wait + AllocGlobal>(
    rt: &R,
    client: &mut Client<'_, N>,
    subscription: &mut Subscription<'_, N>,
) -> Result<WhileOpen, Stopped> {
    let shown = read_on(subscription);
    post_one(rt, client, 3)?;
    let compacted = client.compact(rt)?;
    post_one(rt, client, 4)?;
    Ok(WhileOpen {
        shown,
        compacted,
        shown_later: read_on(subscription),
        trimmed: client.trim(rt)?,
    })
}

/// What a whole run showed: that, the subscription's ending, how many calls a trim discarded when it had been
/// given back, and how many a last compaction took.
#[derive(Clone, Copy, Debug, PartialEq, Eq, Drop)]
struct Compacted {
    open: WhileOpen,
    ended: Ended,
    trimmed: u64,
    at_last: u64,
}

#[derive(Drop)]
struct Compacting;

impl<R: Wait + AllocGlobal> Program<R> for Compacting {
    type Outcome = Result<Compacted, Stopped>;

    fn run<N: Recorded>(self, rt: &R, clients: &mut [Client<'_, N>]) -> Self::Outcome {
        let client = &mut clients[0];
        post_one(rt, client, 1)?;
        post_one(rt, client, 2)?;
        let mut reader = client.subscribe(rt)?;
        let open = while_open(rt, client, &mut reader.subscription);
        let ended = client.leave(rt, reader);
        Ok(Compacted {
            open: open?,
            ended,
            trimmed: client.trim(rt)?,
            at_last: client.compact(rt)?,
        })
    }
}

// Two posts, the subscription and a third post are four calls. The trim discards the two posts before the
// subscription, which memory hasn't any more; then the other four calls.
#[test]
fn nobody_sees_a_compaction(rt: HostRuntime) -> Result<(), Fail> {
    let (compacted, settled) = run(
        &rt,
        rt.alloc(),
        Limits::with_callers(1).places(4),
        Compacting,
    )?;
    assert_eq!(rt;
        compacted?,
        Compacted {
            open: WhileOpen {
                shown: 2,
                compacted: 4,
                shown_later: 2,
                trimmed: 2
            },
            ended: Ended {
                at: 2,
                taken: 4,
                closed: false,
                cut: false
            },
            trimmed: 4,
            at_last: 0,
        }
    );
    assert_eq!(rt; settled.journal.before, 6);
    assert_eq!(rt; (settled.early, settled.ended.len()), (1, 0));
    assert_eq!(rt;
        settled.counts(),
        Counts {
            places: 4,
            posts: 4,
            stored: 4
        }
    );
    Ok(())
}

// Posts a thousand label sets, and answers how many of them the subscription showed.
fn post_and_read<N: Recorded, R: Wait + AllocGlobal>(
    rt: &R,
    client: &mut Client<'_, N>,
    subscription: &mut Subscription<'_, N>,
) -> Result<u32, Stopped> {
    let mut shown = 0u32;
    for number in 0..1_000u32 {
        post_one(rt, client, number)?;
        shown = shown.saturating_add(read_on(subscription));
    }
    Ok(shown)
}

// In how many turns the subscription showed a thousand alerts and a compaction took as many calls.
fn turns<N: Recorded, R: Wait + AllocGlobal>(
    rt: &R,
    client: &mut Client<'_, N>,
    subscription: &mut Subscription<'_, N>,
) -> Result<u32, Stopped> {
    let _begun = client.compact(rt)?;
    for turn in 0..20u32 {
        let shown = post_and_read(rt, client, subscription)?;
        let compacted = client.compact(rt)?;
        if (shown, compacted) != (1_000, 1_000) {
            return Ok(turn);
        }
    }
    Ok(20)
}

#[derive(Drop)]
struct StandingReader;

impl<R: Wait + AllocGlobal> Program<R> for StandingReader {
    type Outcome = Result<(u32, Ended), Stopped>;

    fn run<N: Recorded>(self, rt: &R, clients: &mut [Client<'_, N>]) -> Self::Outcome {
        let client = &mut clients[0];
        let mut reader = client.subscribe(rt)?;
        let turns = turns(rt, client, &mut reader.subscription);
        let ended = client.leave(rt, reader);
        Ok((turns?, ended))
    }
}

// 20,000 posts of a thousand label sets, while one subscription reads. Each compaction takes all calls since the
// last one, so memory has never more than a thousand; and the subscription is given back with all that it was owed.
#[test]
fn few_calls_are_in_memory_while_a_reader_stays(rt: HostRuntime) -> Result<(), Fail> {
    let limits = Limits::with_callers(1).places(4);
    let (outcome, settled) = run(&rt, rt.alloc(), limits, StandingReader)?;
    let (turns, ended) = outcome?;
    assert_eq!(rt; turns, 20);
    assert_eq!(rt;
        ended,
        Ended {
            at: 0,
            taken: 20_000,
            closed: false,
            cut: false
        }
    );
    // Its end came after the last compaction.
    assert_eq!(rt; settled.journal.calls.len(), 1);
    assert_eq!(rt; (settled.early, settled.ended.len()), (1, 0));
    assert_eq!(rt;
        settled.counts(),
        Counts {
            places: 20_000,
            posts: 20_000,
            stored: 1_000
        }
    );
    Ok(())
}

/// What a page said: how many alerts it had, the label of the first, how many alerts were stored, and after how
/// many calls.
type Said = (usize, Option<u32>, u64, u64);

fn page<N: Recorded, R: Wait>(
    rt: &R,
    client: &mut Client<'_, N>,
    from: u64,
    most: u64,
) -> Result<Said, Stopped> {
    let page = client.stored_page(rt, from, most)?;
    let alerts = &page.alerts;
    let first = match alerts.get(0) {
        Some(alert) => alert.labels.get("n").parse::<u32>().ok(),
        None => None,
    };
    Ok((alerts.len(), first, page.stored, page.calls))
}

#[derive(Drop)]
struct Paging;

impl<R: Wait + AllocGlobal> Program<R> for Paging {
    type Outcome = Result<[Said; 5], Stopped>;

    fn run<N: Recorded>(self, rt: &R, clients: &mut [Client<'_, N>]) -> Self::Outcome {
        let client = &mut clients[0];
        for number in 0..5u32 {
            post_one(rt, client, number)?;
        }
        let first = page(rt, client, 0, 2)?;
        let last = page(rt, client, 4, 2)?;
        let past = page(rt, client, 9, 2)?;
        let none = page(rt, client, 0, 0)?;
        client.collect_resolved(rt, moment(9_000))?;
        let empty = page(rt, client, 0, 2)?;
        Ok([first, last, past, none, empty])
    }
}

#[test]
fn a_page_says_what_it_is_of(rt: HostRuntime) -> Result<(), Fail> {
    let (said, _settled) = run(&rt, rt.alloc(), Limits::with_callers(1).places(256), Paging)?;
    assert_eq!(rt;
        said?,
        [
            (2, Some(0), 5, 5),
            (1, Some(4), 5, 5),
            (0, None, 5, 5),
            (0, None, 5, 5),
            (0, None, 0, 6),
        ]
    );
    Ok(())
}
