//! What no clause says: that items are dropped once, that memory comes back, and that two threads
//! may read at a time.

ghost use Rattle.std.specs.Prelude.{◌≡◌, ◌≤◌, length, IfOk};
ghost use Rattle.am_segment.specs.Segments.{AreAllKeys};

use am_segment::{JoinedKeys, MAX_ITEMS, MAX_KEYS, SealFault, SegKey, SegmentBuilder, reunite};
use std::alloc::{AllocError, Global};
use std::mem::size_of;
use std::sync::Arc;
use std::test::Fail;
use std::thread::{Threads, join};

// Both keys of a segment that has two.
struct Pair<T> {
    first: SegKey<T>,
    second: SegKey<T>,
    ghost two: { (first.number ≡ 0) × (first.keys ≡ 2) },
    ghost same: { second ≡ record first { number = 1 } },
}

impl<T: Drop> Pair<T> {
    // The keys come together in this order, or in the other.
    fn end(self, in_order: bool) {
        let Pair { first, second } = self;
        let mut home = JoinedKeys::new();
        if in_order {
            home.add(first);
            home.add(second);
        } else {
            home.add(second);
            home.add(first);
        }
        home.reunite();
    }
}

fn pair_of<T>(builder: SegmentBuilder<T>) -> Pair<T> {
    let (first, rest) = builder.hand_out(2).next();
    let Some(rest) = rest else { unreachable!() };
    let (second, end) = rest.next();
    let None = end else { unreachable!() };
    Pair { first, second }
}

// All keys of one segment, in a list.
struct Sealed<T> {
    keys: Vec<SegKey<T>>,
    ghost all: { AreAllKeys keys.items },
}

impl<T: Drop> Sealed<T> {
    // The last key comes first.
    fn reversed(self) -> Sealed<T>
        ensures { length result.keys.items ≡ length self.keys.items }
    {
        let Sealed { mut keys } = self;
        keys.reverse();
        Sealed { keys }
    }

    fn end(self) {
        let Sealed { keys } = self;
        reunite(keys);
    }
}

fn seal<T: Drop>(builder: SegmentBuilder<T>, keys: usize) -> Result<Sealed<T>, AllocError>
    requires { 1 ≤ keys }
    ensures { IfOk result (λ made. length made.keys.items ≡ keys) }
{
    match builder.seal(keys) {
        Ok(keys) => Ok(Sealed { keys }),
        Err(SealFault { builder }) => {
            builder.discard();
            Err(AllocError)
        }
    }
}

// A builder of two places with an item that others share and one of its own.
fn filled(alloc: Global, item: &Arc<u64>) -> Result<SegmentBuilder<Arc<u64>>, AllocError> {
    let first = Arc::try_clone(item)?;
    let second = Arc::new(alloc, 8)?;
    let mut builder = SegmentBuilder::with_places(alloc, 2)?;
    drop(builder.push(first));
    drop(builder.push(second));
    Ok(builder)
}

// Whether a key shows the items of `filled` and nothing past them.
fn shows_filled(key: &SegKey<Arc<u64>>) -> bool {
    key.len() == 2
        && key.get(0).map(|item| **item) == Some(7)
        && key.get(1).map(|item| **item) == Some(8)
        && key.get(2).is_none()
}

fn may_be_sent<X: Send>(_x: &X) {}

fn read_in_threads<R: Threads>(
    rt: &R,
    alloc: Global,
    item: &Arc<u64>,
) -> Result<(bool, bool), AllocError> {
    let pair = pair_of(filled(alloc, item)?);
    may_be_sent(&pair.first);
    let (mine, theirs) = (&pair.first, &pair.second);
    let shown = join(rt, move || shows_filled(mine), move || shows_filled(theirs));
    pair.end(true);
    Ok(shown)
}

#[test]
fn two_threads_read_one_segment(rt: HostRuntime) -> Result<(), Fail> {
    let item = Arc::new(rt.alloc(), 7)?;
    assert_eq!(rt; read_in_threads(&rt, rt.alloc(), &item)?, (true, true));
    assert_eq!(rt; Arc::strong_count(&item), 1);
    Ok(())
}

#[test]
fn an_item_past_the_places_comes_back(rt: HostRuntime) -> Result<(), Fail> {
    let item = Arc::new(rt.alloc(), 7)?;
    let third = Arc::try_clone(&item)?;
    let mut builder = filled(rt.alloc(), &item)?;
    assert!(rt; builder.push(third).is_err());
    assert_eq!(rt; Arc::strong_count(&item), 2);
    builder.discard();
    assert_eq!(rt; Arc::strong_count(&item), 1);
    Ok(())
}

#[test]
fn no_item_is_dropped_before_the_last_key(rt: HostRuntime) -> Result<(), Fail> {
    let item = Arc::new(rt.alloc(), 7)?;
    for in_order in [true, false] {
        let pair = pair_of(filled(rt.alloc(), &item)?);
        let before = Arc::strong_count(&item);
        pair.end(in_order);
        assert_eq!(rt; (before, Arc::strong_count(&item)), (2, 1));
    }
    Ok(())
}

#[test]
fn no_item_is_dropped_before_the_last_of_eight_keys(rt: HostRuntime) -> Result<(), Fail> {
    let item = Arc::new(rt.alloc(), 7)?;
    for in_order in [true, false] {
        let sealed = seal(filled(rt.alloc(), &item)?, 8)?;
        let sealed = if in_order { sealed } else { sealed.reversed() };
        let before = Arc::strong_count(&item);
        let shown = sealed.keys.iter().all(|key| shows_filled(key));
        sealed.end();
        assert!(rt; shown);
        assert_eq!(rt; (before, Arc::strong_count(&item)), (2, 1));
    }
    Ok(())
}

// Whether a list of more keys than memory has room for is refused, and the builder kept its items.
fn is_refused(builder: SegmentBuilder<Arc<u64>>, keys: usize) -> Result<bool, AllocError>
    requires { 1 ≤ keys }
{
    match builder.seal(keys) {
        Ok(keys) => {
            reunite(keys);
            Ok(false)
        }
        Err(SealFault { builder }) => {
            let sealed = seal(builder, 1)?;
            let shown = sealed.keys.iter().all(|key| shows_filled(key));
            sealed.end();
            Ok(shown)
        }
    }
}

#[test]
fn without_memory_for_the_keys_the_builder_comes_back(rt: HostRuntime) -> Result<(), Fail> {
    let item = Arc::new(rt.alloc(), 7)?;
    assert!(rt; is_refused(filled(rt.alloc(), &item)?, MAX_KEYS + 1)?);
    assert!(rt; is_refused(filled(rt.alloc(), &item)?, MAX_KEYS)?);
    assert!(rt; is_refused(filled(rt.alloc(), &item)?, 1 << 57)?);
    assert_eq!(rt; Arc::strong_count(&item), 1);
    Ok(())
}

#[test]
fn one_key_to_no_item(rt: HostRuntime) -> Result<(), Fail> {
    let builder: SegmentBuilder<Arc<u64>> = SegmentBuilder::with_places(rt.alloc(), 1)?;
    let (key, rest) = builder.hand_out(1).next();
    let None = rest else { unreachable!() };
    let mut home = JoinedKeys::new();
    home.add(key);
    let shown = home.as_slice().is_empty();
    home.reunite();
    assert!(rt; shown);
    Ok(())
}

// A key that came home next to one that didn't. Answers how many are home, and whether all show their items.
fn half_home(pair: Pair<Arc<u64>>) -> (usize, bool) {
    let Pair { first, second } = pair;
    let mut home = JoinedKeys::new();
    let none = home.as_slice().is_empty();
    home.add(first);
    let count = home.len();
    let shown = none && home.as_slice().len() == 2 && shows_filled(&second);
    home.add(second);
    home.reunite();
    (count, shown)
}

#[test]
fn keys_that_are_home_show_the_items(rt: HostRuntime) -> Result<(), Fail> {
    let item = Arc::new(rt.alloc(), 7)?;
    assert_eq!(rt; half_home(pair_of(filled(rt.alloc(), &item)?)), (1, true));
    assert_eq!(rt; Arc::strong_count(&item), 1);
    Ok(())
}

// Three keys, of which the first is handed out. Answers whether it shows its items.
fn join_two_at_once(builder: SegmentBuilder<Arc<u64>>) -> bool {
    let (first, rest) = builder.hand_out(3).next();
    let Some(rest) = rest else { unreachable!() };
    let shown = shows_filled(&first);
    let mut home = JoinedKeys::new();
    home.add(first);
    home.add_rest(rest);
    home.reunite();
    shown
}

#[test]
fn keys_that_nobody_was_dealt_join_at_once(rt: HostRuntime) -> Result<(), Fail> {
    let item = Arc::new(rt.alloc(), 7)?;
    assert!(rt; join_two_at_once(filled(rt.alloc(), &item)?));
    assert_eq!(rt; Arc::strong_count(&item), 1);
    Ok(())
}

// The keys of a segment, and the one key of another. Answers whether all show their items.
fn beside(pair: Pair<Arc<u64>>, builder: SegmentBuilder<Arc<u64>>) -> bool {
    let Pair { first, second } = pair;
    let (run, first) = builder.hand_out(1).apart_from(first);
    let (other, rest) = run.next();
    let None = rest else { unreachable!() };
    let shown = shows_filled(&first) && shows_filled(&second) && shows_filled(&other);
    let mut home = JoinedKeys::new();
    home.add(other);
    home.reunite();
    Pair { first, second }.end(false);
    shown
}

#[test]
fn a_key_and_a_run_of_another_segment(rt: HostRuntime) -> Result<(), Fail> {
    let item = Arc::new(rt.alloc(), 7)?;
    let second = filled(rt.alloc(), &item)?;
    let first = match filled(rt.alloc(), &item) {
        Ok(first) => first,
        Err(error) => {
            second.discard();
            return Err(error.into());
        }
    };
    assert!(rt; beside(pair_of(first), second));
    assert_eq!(rt; Arc::strong_count(&item), 1);
    Ok(())
}

// One segment of the numbers below `count`, each in a text of its own.
fn texts(alloc: Global, count: usize) -> Result<SegmentBuilder<Vec<usize>>, AllocError>
    requires { 1 ≤ count }
{
    let mut builder = SegmentBuilder::with_places(alloc, count)?;
    for number in 0..count {
        let Ok(item) = vec![in alloc; number] else {
            builder.discard();
            return Err(AllocError);
        };
        drop(builder.push(item));
    }
    Ok(builder)
}

// Two segments, of which one has eight keys in a list.
struct Batch {
    pair: Pair<Vec<usize>>,
    sealed: Sealed<Vec<usize>>,
}

impl Batch {
    fn new(alloc: Global, count: usize) -> Result<Batch, AllocError>
        requires { 1 ≤ count }
    {
        let sealed = seal(texts(alloc, count)?, 8)?;
        match texts(alloc, count) {
            Ok(builder) => Ok(Batch {
                pair: pair_of(builder),
                sealed,
            }),
            Err(error) => {
                sealed.end();
                Err(error)
            }
        }
    }

    fn end(self) {
        let Batch { pair, sealed } = self;
        pair.end(false);
        sealed.end();
    }
}

fn end_all(batches: Vec<Batch>) {
    let mut batches = batches;
    while let Some(batch) = batches.pop() {
        batch.end();
    }
    batches.destroy_empty();
}

// This number of batches, each with `count` items.
fn log_of(alloc: Global, places: usize, count: usize) -> Result<Vec<Batch>, AllocError>
    requires { 1 ≤ count }
{
    let mut batches = Vec::with_capacity(alloc, places)?;
    for _ in 0..places {
        match Batch::new(alloc, count) {
            Ok(batch) => batches.push_reserved(batch),
            Err(error) => {
                end_all(batches);
                return Err(error);
            }
        }
    }
    Ok(batches)
}

// How many items a key shows, and the length of the last of 1,024.
fn shown(key: &SegKey<Vec<usize>>) -> u64 {
    let last = key.get(1_023).map(|item| item.len() as u64);
    last.unwrap_or(0).wrapping_add(key.len() as u64)
}

#[test]
fn whole_log_of_full_batches(rt: HostRuntime) -> Result<(), Fail> {
    let batches = log_of(rt.alloc(), 256, 1_024)?;
    let mut sum = 0u64;
    for batch in batches.iter() {
        for key in [&batch.pair.first, &batch.pair.second] {
            sum = sum.wrapping_add(shown(key));
        }
        for key in batch.sealed.keys.iter() {
            sum = sum.wrapping_add(shown(key));
        }
    }
    end_all(batches);
    assert_eq!(rt; sum, 256 * 10 * 1_025);
    Ok(())
}

#[test]
fn no_segment_has_more_places_than_a_key_can_count(rt: HostRuntime) -> Result<(), Fail> {
    assert_eq!(rt; MAX_ITEMS, 4_294_967_295);
    SegmentBuilder::<()>::with_places(rt.alloc(), MAX_ITEMS)?.discard();
    let is_refused = match SegmentBuilder::<()>::with_places(rt.alloc(), MAX_ITEMS + 1) {
        Ok(builder) => {
            builder.discard();
            false
        }
        Err(_) => true,
    };
    assert!(rt; is_refused);
    Ok(())
}

#[test]
fn how_large_a_key_is(rt: HostRuntime) -> Result<(), Fail> {
    assert_eq!(rt; size_of::<SegKey<u64>>(), 16);
    assert_eq!(rt; size_of::<Option<SegKey<u64>>>(), 24);
    Ok(())
}
