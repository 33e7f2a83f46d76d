//! What an event makes of a state: one method for each row of the table in `specs/Steps.antt`.
ghost use Rattle.std.specs.Prelude.{◌≡◌, ◌↔◌, IsTrue, IfOk, OnErr};
ghost use Rattle.std.specs.List.{AllPass};
ghost use Rattle.am_steps.specs.Answers.{Applies, AsksMemory, IsPossible};
ghost use Rattle.am_steps.specs.inside.LaneRows.{leaves_room};
ghost use Rattle.am_steps.specs.States.{core_of};
ghost use Rattle.am_steps.specs.declared.event.Event.TheVariants as does;

use crate::event::Event;
use crate::lane::Lane;
use crate::state::State;
use std::alloc::AllocError;

impl State {
    /// Makes the step if it is possible, and answers whether it was. If it wasn't, or if memory is out, the
    /// state stays.
    pub fn apply(&mut self, event: Event<u64>) -> Result<bool, AllocError>
        ensures applies { IfOk result (Applies self.old event self.new) }

        ensures possible { OnErr result (IsPossible (core_of self.old) event) }
        ensures memory { OnErr result (AsksMemory event) }
        ensures err { OnErr result (self.new ≡ self.old) }
    {
        match event {
            Event::Publish(name) => self.publish(name),
            Event::Close => Ok(self.close()),
            Event::Harvest(lane) => Ok(self.harvest(lane)),
            Event::Admit(lane) => Ok(self.admit(lane)),
            Event::Open(lane) => Ok(self.open_lane(lane)),
            Event::Look(lane) => Ok(self.look(lane)),
            Event::Take(lane) => Ok(self.take(lane)),
            Event::Pass(lane) => self.pass(lane),
            Event::Cut(lane) => Ok(self.cut(lane)),
            Event::Leave(lane) => Ok(self.leave(lane)),
            Event::Retire(lane) => Ok(self.retire(lane)),
            Event::Note(poster, own) => self.note(poster, own),
        }
    }

    fn publish(&mut self, name: u64) -> Result<bool, AllocError>
        ensures applies { IfOk result (Applies self.old (does.Publish name) self.new) }
        ensures possible { OnErr result (IsPossible (core_of self.old) (does.Publish name)) }
        ensures err { OnErr result (self.new ≡ self.old) }
    {
        let length = self.log.len() as u64;
        if self.closed {
            return Ok(false);
        }
        if !has_room(self.lanes.as_slice(), self.places, length) {
            return Ok(false);
        }
        self.log.push(name)?;
        Ok(true)
    }

    fn close(&mut self) -> bool
        ensures { Applies self.old does.Close self.new result }
    {
        if self.closed {
            return false;
        }
        self.closed = true;
        true
    }

    fn harvest(&mut self, lane: usize) -> bool
        ensures { Applies self.old (does.Harvest lane) self.new result }
    {
        if lane >= self.lanes.len() {
            return false;
        }
        self.lanes[lane].harvest()
    }

    fn admit(&mut self, lane: usize) -> bool
        ensures { Applies self.old (does.Admit lane) self.new result }
    {
        if self.closed || lane >= self.lanes.len() {
            return false;
        }
        let length = self.log.len() as u64;
        self.lanes[lane].admit(length)
    }

    fn open_lane(&mut self, lane: usize) -> bool
        ensures { Applies self.old (does.Open lane) self.new result }
    {
        if lane >= self.lanes.len() {
            return false;
        }
        let alloc = self.alloc;
        self.lanes[lane].open(alloc)
    }

    fn look(&mut self, lane: usize) -> bool
        ensures { Applies self.old (does.Look lane) self.new result }
    {
        if lane >= self.lanes.len() {
            return false;
        }
        let (length, closed) = (self.log.len() as u64, self.closed);
        self.lanes[lane].look(length, closed)
    }

    fn take(&mut self, lane: usize) -> bool
        ensures { Applies self.old (does.Take lane) self.new result }
    {
        if lane >= self.lanes.len() {
            return false;
        }
        self.lanes[lane].take()
    }

    fn pass(&mut self, lane: usize) -> Result<bool, AllocError>
        ensures applies { IfOk result (Applies self.old (does.Pass lane) self.new) }
        ensures possible { OnErr result (IsPossible (core_of self.old) (does.Pass lane)) }
        ensures err { OnErr result (self.new ≡ self.old) }
    {
        if lane >= self.lanes.len() {
            return Ok(false);
        }
        let Some(place) = self.lanes[lane].place_in_hand() else {
            return Ok(false);
        };
        let name = self.log[place as usize];
        self.lanes[lane].pass(name)
    }

    fn cut(&mut self, lane: usize) -> bool
        ensures { Applies self.old (does.Cut lane) self.new result }
    {
        if lane >= self.lanes.len() {
            return false;
        }
        let (places, length) = (self.places, self.log.len() as u64);
        self.lanes[lane].cut(places, length)
    }

    fn leave(&mut self, lane: usize) -> bool
        ensures { Applies self.old (does.Leave lane) self.new result }
    {
        if lane >= self.lanes.len() {
            return false;
        }
        self.lanes[lane].leave()
    }

    fn retire(&mut self, lane: usize) -> bool
        ensures { Applies self.old (does.Retire lane) self.new result }
    {
        if lane >= self.lanes.len() {
            return false;
        }
        self.lanes[lane].retire()
    }

    fn note(&mut self, poster: usize, own: Option<(u64, u64)>) -> Result<bool, AllocError>
        ensures applies { IfOk result (Applies self.old (does.Note poster own) self.new) }
        ensures possible { OnErr result (IsPossible (core_of self.old) (does.Note poster own)) }
        ensures memory { OnErr result (AsksMemory (does.Note poster own)) }
        ensures err { OnErr result (self.new ≡ self.old) }
    {
        if poster >= self.posters.len() {
            return Ok(false);
        }
        self.posters[poster].note(self.log.as_slice(), own)
    }
}

// Whether no lane's lag keeps the log from growing by a batch.
fn has_room(lanes: &[Lane<u64>], places: u64, length: u64) -> bool
    ensures { IsTrue result ↔ AllPass (leaves_room places length) lanes.now }
{
    lanes.iter().all(|lane| lane.leaves_room(places, length))
}
