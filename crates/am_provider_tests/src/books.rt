//! A Book in one thread, without a lock: reads of its stored alerts, a collection that hands back what it
//! removed, and its end without a handle to wait by.

ghost use Rattle.std.specs.Prelude.{◌≡◌};

use crate::bodies::{Report, moment, reports_body};
use crate::stopped::Stopped;
use am_alert::{Alert, Moment};
use am_labels::LabelSet;
use am_posts::read_post;
use am_provider::{Begun, Book, Cast, Counts, Ended, Origin, Parts, Pass, Policy, Settled, Step};
use am_store::StoredAlerts;
use std::alloc::{AllocError, Global};
use std::marker::Brand;
use std::test::Fail;
use std::time::Duration;

// The starts of alerts, in their order.
fn starts_of(alloc: Global, alerts: &StoredAlerts) -> Result<Vec<Moment>, AllocError> {
    let mut starts = Vec::with_capacity(alloc, alerts.len())?;
    for alert in alerts {
        starts.push(alert.start)?;
    }
    Ok(starts)
}

/// What a Book's reads and its collection answered, and a subscription's ending.
#[derive(Debug, Drop)]
struct Answers {
    stored: Vec<Moment>,
    found: Option<Moment>,
    removed: Vec<Moment>,
    left: Vec<Moment>,
    ended: Ended,
    // The place of a post of which a filter refused all, and how many those were.
    none: (Option<u64>, usize),
}

// Posts three reports at 10, of which the second is resolved at 20.
fn post_three<N: Origin>(
    alloc: Global,
    book: &mut Book<N>,
    cast: &Cast<N>,
    pass: &mut Pass<N>,
) -> Result<(), Stopped> {
    let reports = [
        Report::new(1, 10, 30),
        Report::new(2, 11, 20),
        Report::new(3, 12, 30),
    ];
    let body = reports_body(alloc, &reports)?;
    let Ok(post) = read_post(alloc, body.as_bytes(), moment(10), Duration::from_secs(300)) else {
        return Err(Stopped::Refused);
    };
    match book.post(cast, pass, post, moment(10)) {
        Ok(_) => Ok(()),
        Err(_) => Err(Stopped::Refused),
    }
}

// Posts a report at 11 through a filter that refuses what is new.
fn post_none<N: Origin>(
    alloc: Global,
    book: &mut Book<N>,
    cast: &Cast<N>,
    pass: &mut Pass<N>,
) -> Result<(Option<u64>, usize), Stopped> {
    let body = reports_body(alloc, &[Report::new(4, 11, 30)])?;
    let Ok(post) = read_post(alloc, body.as_bytes(), moment(11), Duration::from_secs(300)) else {
        return Err(Stopped::Refused);
    };
    let mut known = |_alert: &Alert, first: bool| -> bool { !first };
    match book.post_if(cast, pass, post, moment(11), &mut known) {
        Ok(done) => Ok((done.posted.place, done.refused.len())),
        Err(_) => Err(Stopped::Refused),
    }
}

// The start of the stored alert of the label set {n="2"}.
fn second_start<N: Origin>(alloc: Global, book: &Book<N>) -> Result<Option<Moment>, AllocError> {
    let mut pairs = Vec::new(alloc);
    pairs.push((String::from_str(alloc, "n")?, String::from_str(alloc, "2")?))?;
    match book.get(&LabelSet::from_pairs(alloc, pairs)?)? {
        Some(alert) => Ok(Some(alert.start)),
        None => Ok(None),
    }
}

fn spend<N: Origin>(
    alloc: Global,
    book: &mut Book<N>,
    cast: &Cast<N>,
    pass: &mut Pass<N>,
) -> Result<Answers, Stopped> {
    let mut subscription = book.subscribe(cast)?;
    let posted = post_three(alloc, book, cast, pass);
    let shown = matches!(subscription.next(), Step::Item(_));
    let ended = book.leave(cast, subscription);
    posted?;
    if !shown {
        return Err(Stopped::Refused);
    }
    let none = post_none(alloc, book, cast, pass)?;
    let stored = starts_of(alloc, &book.stored()?)?;
    let found = second_start(alloc, book)?;
    let removed = starts_of(alloc, &book.take_resolved(moment(20))?)?;
    let left = starts_of(alloc, &book.stored()?)?;
    Ok(Answers {
        stored,
        found,
        removed,
        left,
        ended,
        none,
    })
}

// A Book's day.
fn spend_over<N: Origin>(alloc: Global, parts: Parts) -> Result<(Answers, Settled), Stopped>
    requires table { parts.log.board.shared.table_id ≡ N.table }
    requires ledger { (parts.ledger.name ≡ N.name) × (parts.ledger.parts ≡ N.parts) }
{
    let Begun {
        cast,
        mut book,
        mut passes,
    } = Book::<N>::begin(alloc, parts, Policy::Refuse)?;
    let answers = match passes.first_mut() {
        Some(pass) => spend(alloc, &mut book, &cast, pass),
        None => Err(Stopped::Refused),
    };
    let settled = book.settle(cast, passes);
    Ok((answers?, settled))
}

#[test]
fn a_book_ends_without_a_handle(rt: HostRuntime) -> Result<(), Fail> {
    let alloc = rt.alloc();
    let parts = Parts::make(alloc, 4, 1)?;
    let (answers, settled) = spend_over::<Brand>(alloc, parts)?;
    assert!(rt; answers.stored.as_slice() == [moment(10), moment(11), moment(12)].as_slice());
    assert_eq!(rt; answers.found, Some(moment(11)));
    assert!(rt; answers.removed.as_slice() == [moment(11)].as_slice());
    assert!(rt; answers.left.as_slice() == [moment(10), moment(12)].as_slice());
    assert_eq!(rt; answers.none, (None, 1));
    assert_eq!(rt;
        answers.ended,
        Ended {
            at: 0,
            taken: 1,
            closed: false,
            cut: false
        }
    );
    assert!(rt; settled.complete);
    assert_eq!(rt; settled.ended.len(), 1);
    assert_eq!(rt; settled.journal.calls.len(), 5);
    assert_eq!(rt;
        settled.counts(),
        Counts {
            places: 1,
            posts: 2,
            stored: 2
        }
    );
    Ok(())
}
