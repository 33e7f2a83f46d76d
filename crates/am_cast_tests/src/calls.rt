//! Calls of the log, compared with the atomic steps of the pure state that each of them makes: after
//! each call the same was answered and shown, and the same places are freed.
//!
//! Two lanes and one place, in one thread. A batch's name is its place, and its items follow from it.

ghost use Rattle.std.specs.Prelude.{◌≡◌, ◌<◌, length, IfOk};

mod script;

use am_cast::{
    Cast, Feed, LANES, LONGEST_LOG, LentCursor, Pass, PublishFault, Refused, Step, Writer,
};
use am_segment::{JoinedKeys, SegmentBuilder};
use am_steps::{Event, Lane, State};
use std::alloc::{AllocError, Global};
use std::snapshot::Snapshot;

// How many kinds of call there are.
const KINDS: u64 = 14;

/// A reader's lane, its cursor if it has one, and what that cursor was shown.
struct Reader<'a, N: Feed> {
    lane: usize,
    cursor: Option<LentCursor<'a, u64, N>>,
    shown: Vec<u64>,
    // How many items of the place in its hand it was shown.
    of_hand: u64,
}

/// The log, and the pure state that it is compared with.
#[derive(Drop)]
struct Both<'a, N: Feed> {
    alloc: Global,
    cast: &'a Cast<u64, N>,
    state: State,
    length: u64,
}

// How many items the batch of that name has, and each of them.
fn count_of(name: u64) -> u64
    ensures { 0 < result }
{
    1 + name % 3
}

fn item_of(name: u64, at: u64) -> u64 {
    name.wrapping_mul(4).wrapping_add(at)
}

// Whether they are keys of the batch of that name: those of six lanes that nobody takes, and at most one more.
fn are_keys_of(keys: &JoinedKeys<u64>, name: u64) -> bool {
    let items = keys.as_slice();
    items.len() as u64 == count_of(name)
        && items.get(0) == Some(&item_of(name, 0))
        && (keys.len() == 6 || keys.len() == 7)
}

// A batch in what an earlier one of its size left, if there is such a one.
fn batch_of<N: Feed>(
    alloc: Global,
    writer: &mut Writer<u64, N>,
    name: u64,
) -> Result<SegmentBuilder<u64>, AllocError>
    ensures some { IfOk result (λ batch. 0 < length batch.items) }
    ensures same { writer.new ≡ writer.old }
{
    let places = count_of(name) as usize;
    let mut batch = match writer.spare(places) {
        Some(batch) => batch,
        None => SegmentBuilder::with_places(alloc, places)?,
    };
    let _pushed = batch.push(item_of(name, 0));
    for at in 1..count_of(name) {
        let _pushed = batch.push(item_of(name, at));
    }
    Ok(batch)
}

// What a read answered: an item, or 1 Pending, 2 Closed, 3 Cut.
fn answer_of(step: Step<'_, u64>) -> Result<u64, u8> {
    match step {
        Step::Item(item) => Ok(*item),
        Step::Pending => Err(1),
        Step::Closed => Err(2),
        Step::Cut => Err(3),
    }
}

impl<'a, N: Feed> Both<'a, N> {
    // The writer loads the word of each lane that is given out.
    fn harvest(&mut self) -> Result<(), AllocError> {
        for lane in 0..LANES {
            let _made = self.state.apply(Event::Harvest(lane))?;
        }
        Ok(())
    }

    // A post: refused by both, or published by both.
    fn publish(
        &mut self,
        writer: &mut Writer<u64, N>,
        pass: &mut Pass<u64, N>,
    ) -> Result<bool, AllocError> {
        let name = self.length;
        self.harvest()?;
        let may = self.state.apply(Event::Publish(name))?;
        let batch = batch_of(self.alloc, writer, name)?;
        match writer.publish(self.cast, batch, Snapshot::of(&()), pass) {
            Ok(place) => Ok(may && place == name && self.note(name)?),
            Err(Refused { fault, batch }) => {
                batch.discard();
                match fault {
                    PublishFault::NoMemory => Err(AllocError),
                    _ => Ok(!may && self.is_cause(fault)),
                }
            }
        }
    }

    // A post right after a look at the lanes. If that finds the log closed or a lane full, the pure state
    // takes none either.
    fn publish_harvested(
        &mut self,
        writer: &mut Writer<u64, N>,
        pass: &mut Pass<u64, N>,
    ) -> Result<bool, AllocError> {
        let name = self.length;
        self.harvest()?;
        let full = writer.harvest(self.cast);
        let may = self.state.apply(Event::Publish(name))?;
        if writer.is_closed() || writer.len() >= LONGEST_LOG {
            return Ok(!may);
        }
        if let Some(lane) = full {
            return Ok(!may && self.full_lane() == Some(lane));
        }
        let batch = batch_of(self.alloc, writer, name)?;
        match writer.publish_harvested(self.cast, batch, Snapshot::of(&()), pass) {
            Ok(place) => Ok(may && place == name && self.note(name)?),
            Err(batch) => {
                batch.discard();
                Err(AllocError)
            }
        }
    }

    // The poster's own post is known.
    fn note(&mut self, name: u64) -> Result<bool, AllocError> {
        self.length = self.length.wrapping_add(1);
        self.state.apply(Event::Note(0, Some((name, name))))
    }

    // Whether a refusal names the lowest lane that has passed none of the log's last place.
    fn is_cause(&self, fault: PublishFault) -> bool {
        match fault {
            PublishFault::Full { lane, passed } => self.full_lane() == Some((lane, passed)),
            PublishFault::Closed => true,
            _ => false,
        }
    }

    // The lowest lane that lags by a batch, as the writer knows it, and how many it has passed.
    fn full_lane(&self) -> Option<(usize, u64)> {
        for lane in 0..LANES {
            if let Some(Lane::Open(record, _)) = self.state.lane(lane) {
                if !record.cut && record.known.wrapping_add(1) == self.length {
                    return Some((lane, record.known));
                }
            }
        }
        None
    }

    // A post that cuts: the same lanes are cut, and it is refused only by a closed log.
    fn publish_cutting(
        &mut self,
        writer: &mut Writer<u64, N>,
        pass: &mut Pass<u64, N>,
    ) -> Result<bool, AllocError> {
        let name = self.length;
        self.harvest()?;
        let batch = batch_of(self.alloc, writer, name)?;
        match writer.publish_cutting(self.cast, batch, Snapshot::of(&()), pass) {
            Ok(made) => {
                let mut same = made.place == name;
                for lane in 0..LANES {
                    same &= self.state.apply(Event::Cut(lane))? == made.cut[lane];
                }
                same &= self.state.apply(Event::Publish(name))?;
                Ok(same && self.note(name)?)
            }
            Err(Refused { fault, batch }) => {
                batch.discard();
                match fault {
                    PublishFault::NoMemory => Err(AllocError),
                    PublishFault::Closed => Ok(!self.state.apply(Event::Publish(name))?),
                    _ => Ok(false),
                }
            }
        }
    }

    // The lowest idle lane, if it is the reader's and the log is open.
    fn admit(
        &mut self,
        writer: &mut Writer<u64, N>,
        reader: &mut Reader<'a, N>,
    ) -> Result<bool, AllocError> {
        if reader.cursor.is_some() {
            return Ok(true);
        }
        match writer.admit(self.cast, Snapshot::of(&())) {
            Ok(cursor) => {
                let lane = cursor.lane();
                reader.lane = lane;
                reader.shown.clear();
                reader.of_hand = 0;
                match reader.cursor.replace(cursor) {
                    None => {}
                    Some(_) => unreachable!(),
                }
                let may = self.state.apply(Event::Admit(lane))?;
                Ok(may && self.state.apply(Event::Open(lane))?)
            }
            Err(_) => Ok(!self.state.apply(Event::Admit(0))?),
        }
    }

    fn retire(
        &mut self,
        writer: &mut Writer<u64, N>,
        reader: &mut Reader<'a, N>,
    ) -> Result<bool, AllocError> {
        let Some(cursor) = reader.cursor.take() else {
            return Ok(true);
        };
        writer.retire(self.cast, cursor);
        let left = self.state.apply(Event::Leave(reader.lane))?;
        Ok(left && self.state.apply(Event::Retire(reader.lane))?)
    }

    // Makes the steps of a `next` in the state, and gives the answer that it is owed.
    fn advance(&mut self, lane: usize, of_hand: &mut u64) -> Result<Result<u64, u8>, AllocError> {
        if let Some(Lane::Open(_, cursor)) = self.state.lane(lane) {
            if cursor.held {
                let name = cursor.passed;
                if *of_hand < count_of(name) {
                    let item = item_of(name, *of_hand);
                    *of_hand = of_hand.wrapping_add(1);
                    return Ok(Ok(item));
                }
            }
        }
        *of_hand = 0;
        let _passed = self.state.apply(Event::Pass(lane))?;
        for looks in 0..2_u8 {
            if let Some(Lane::Open(_, cursor)) = self.state.lane(lane) {
                if cursor.told_cut {
                    return Ok(Err(3));
                }
                if cursor.passed < cursor.seen {
                    return self.take(lane, of_hand);
                }
                if cursor.told {
                    return Ok(Err(2));
                }
            }
            if looks == 0 {
                let _looked = self.state.apply(Event::Look(lane))?;
            }
        }
        Ok(Err(1))
    }

    // The key of the next place, or that the lane was cut.
    fn take(&mut self, lane: usize, of_hand: &mut u64) -> Result<Result<u64, u8>, AllocError> {
        let _taken = self.state.apply(Event::Take(lane))?;
        match self.state.lane(lane) {
            Some(Lane::Open(_, cursor)) if cursor.held => {
                *of_hand = 1;
                Ok(Ok(item_of(cursor.passed, 0)))
            }
            _ => Ok(Err(3)),
        }
    }

    // A read.
    fn next(&mut self, reader: &mut Reader<'a, N>) -> Result<bool, AllocError> {
        let Some(cursor) = &mut reader.cursor else {
            return Ok(true);
        };
        let answer = answer_of(cursor.next());
        self.has_answered(reader, answer)
    }

    // A read of all that the pass knows.
    fn next_past(
        &mut self,
        reader: &mut Reader<'a, N>,
        pass: &mut Pass<u64, N>,
    ) -> Result<bool, AllocError> {
        let Some(cursor) = &mut reader.cursor else {
            return Ok(true);
        };
        let answer = answer_of(cursor.next_past(pass));
        self.has_answered(reader, answer)
    }

    // Whether the state answers the same to a read.
    fn has_answered(
        &mut self,
        reader: &mut Reader<'a, N>,
        answer: Result<u64, u8>,
    ) -> Result<bool, AllocError> {
        if let Ok(item) = answer {
            reader.shown.push(item)?;
        }
        Ok(self.advance(reader.lane, &mut reader.of_hand)? == answer)
    }

    // Whether the reader was shown the items of the places that it has passed, and those of the place in
    // its hand so far.
    fn has_shown(&self, reader: &Reader<'a, N>) -> bool {
        if reader.cursor.is_none() {
            return true;
        }
        let Some(Lane::Open(_, cursor)) = self.state.lane(reader.lane) else {
            return false;
        };
        let mut at = 0;
        for name in &cursor.got.names {
            for item in 0..count_of(*name) {
                if reader.shown.get(at) != Some(&item_of(*name, item)) {
                    return false;
                }
                at = at.saturating_add(1);
            }
        }
        if cursor.held {
            for item in 0..reader.of_hand {
                if reader.shown.get(at) != Some(&item_of(cursor.passed, item)) {
                    return false;
                }
                at = at.saturating_add(1);
            }
        }
        at == reader.shown.len()
    }

    // Whether both free the same places, and the writer keeps keys of the others alone.
    fn frees_the_same(&self, writer: &Writer<u64, N>) -> bool {
        for place in 0..self.length {
            let freed = self.state.freed(place);
            let kept = match writer.kept(place) {
                Some(keys) => !freed && are_keys_of(keys, place),
                None => freed,
            };
            if writer.freed(place) != freed || !kept {
                return false;
            }
        }
        writer.kept(self.length).is_none()
    }

    fn meet(
        &mut self,
        reader: &mut Reader<'a, N>,
        pass: &mut Pass<u64, N>,
    ) -> Result<bool, AllocError> {
        let Some(cursor) = &mut reader.cursor else {
            return Ok(true);
        };
        pass.meet(self.cast, cursor);
        self.state.apply(Event::Note(0, None))
    }
}
