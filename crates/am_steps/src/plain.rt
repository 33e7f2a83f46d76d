//! The table's rows once more, for tests: over the words of the running log, and by nothing of
//! `lane.rt`. A word is `4 * passed + 2 * held + cut`, or the greatest `u64` once a lane is left.
use crate::event::Event;
use std::alloc::{AllocError, Global};

/// What a lane's word is when its cursor has left.
const GONE: u64 = u64::MAX;

/// Who has a lane.
#[derive(Clone, Copy, Drop)]
pub(crate) enum Stage {
    Idle,
    Admitted,
    Open,
    Left,
}

/// A lane: its word, the word as the writer last found it, and what its cursor knows.
#[derive(Drop)]
pub(crate) struct PlainLane {
    pub(crate) stage: Stage,
    pub(crate) word: u64,
    pub(crate) found: u64,
    pub(crate) start: u64,
    pub(crate) seen: u64,
    pub(crate) told: bool,
    pub(crate) told_cut: bool,
    pub(crate) got: Vec<u64>,
}

/// A poster: how many places it knows, and its own posts.
#[derive(Drop)]
pub(crate) struct PlainPoster {
    pub(crate) places_known: u64,
    pub(crate) own: Vec<(u64, u64)>,
}

/// The whole state.
#[derive(Drop)]
pub(crate) struct Plain {
    pub(crate) places: u64,
    pub(crate) log: Vec<u64>,
    pub(crate) closed: bool,
    pub(crate) lanes: Vec<PlainLane>,
    pub(crate) posters: Vec<PlainPoster>,
}

impl PlainLane {
    // Whether it holds the log back: it isn't idle or cut, and lags by at least `places` batches.
    fn is_full(&self, places: u64, length: u64) -> bool {
        let is_idle = matches!(self.stage, Stage::Idle);
        !is_idle && self.found % 2 == 0 && length.saturating_sub(self.found / 4) >= places
    }

    // Whether the writer has its key of the place.
    fn keeps(&self, place: u64) -> bool {
        match self.stage {
            Stage::Idle => false,
            _ if self.found % 2 == 1 => self.found / 2 % 2 == 1 && place == self.found / 4,
            _ => self.start <= place && self.found / 4 <= place,
        }
    }

    fn harvest(&mut self) -> bool {
        let is_there = matches!(self.stage, Stage::Admitted | Stage::Open);
        if is_there {
            self.found = self.word;
        }
        is_there
    }

    fn admit(&mut self, length: u64) -> bool {
        let is_idle = matches!(self.stage, Stage::Idle);
        if is_idle {
            self.stage = Stage::Admitted;
            self.start = length;
            self.word = length.wrapping_mul(4);
            self.found = self.word;
        }
        is_idle
    }

    fn open(&mut self) -> bool {
        let is_admitted = matches!(self.stage, Stage::Admitted);
        if is_admitted {
            self.stage = Stage::Open;
            self.seen = self.start;
            self.told = false;
            self.told_cut = false;
            self.got.clear();
        }
        is_admitted
    }

    fn look(&mut self, length: u64, closed: bool) -> bool {
        let is_open = matches!(self.stage, Stage::Open);
        if is_open {
            self.seen = length;
            self.told = closed;
        }
        is_open
    }

    // An exchange of `4 * passed` by two more. It fails on a word that is cut.
    fn take(&mut self) -> bool {
        let is_open = matches!(self.stage, Stage::Open);
        let passed = self.word / 4;
        if !is_open || self.word / 2 % 2 == 1 || passed >= self.seen {
            return false;
        }
        if self.word == passed.wrapping_mul(4) {
            self.word = self.word.wrapping_add(2);
        } else {
            self.told_cut = true;
        }
        true
    }

    // Two added to the word.
    fn pass(&mut self, log: &[u64]) -> Result<bool, AllocError> {
        let is_open = matches!(self.stage, Stage::Open);
        if !is_open || self.word / 2 % 2 == 0 {
            return Ok(false);
        }
        for (place, name) in log.iter().enumerate() {
            if place as u64 == self.word / 4 {
                self.got.push(*name)?;
            }
        }
        self.word = self.word.wrapping_add(2);
        if self.word % 2 == 1 {
            self.told_cut = true;
        }
        Ok(true)
    }

    // An exchange of the word last found by one more.
    fn cut(&mut self, places: u64, length: u64) -> bool {
        let is_there = matches!(self.stage, Stage::Admitted | Stage::Open);
        let is_due = (self.word / 4).saturating_add(places) == length;
        if !is_there || self.word != self.found || self.word % 2 == 1 || !is_due {
            return false;
        }
        self.word = self.word.wrapping_add(1);
        self.found = self.word;
        true
    }

    fn leave(&mut self) -> bool {
        let is_open = matches!(self.stage, Stage::Open);
        if is_open {
            self.stage = Stage::Left;
            self.word = GONE;
        }
        is_open
    }

    fn retire(&mut self) -> bool {
        let is_left = matches!(self.stage, Stage::Left);
        if is_left {
            self.stage = Stage::Idle;
        }
        is_left
    }
}

impl Plain {
    /// An empty log with idle lanes and posters that know of no place.
    pub(crate) fn new(
        alloc: Global,
        places: u64,
        lanes: usize,
        posters: usize,
    ) -> Result<Plain, AllocError> {
        let mut plain = Plain {
            places,
            log: Vec::new(alloc),
            closed: false,
            lanes: Vec::new(alloc),
            posters: Vec::new(alloc),
        };
        for _lane in 0..lanes {
            plain.lanes.push(PlainLane {
                stage: Stage::Idle,
                word: GONE,
                found: GONE,
                start: 0,
                seen: 0,
                told: false,
                told_cut: false,
                got: Vec::new(alloc),
            })?;
        }
        for _poster in 0..posters {
            plain.posters.push(PlainPoster {
                places_known: 0,
                own: Vec::new(alloc),
            })?;
        }
        Ok(plain)
    }

    /// Makes the event happen where it is possible.
    pub(crate) fn apply(&mut self, event: Event<u64>) -> Result<bool, AllocError> {
        match event {
            Event::Publish(name) => self.publish(name),
            Event::Note(poster, own) => self.note(poster, own),
            Event::Close => {
                let was_open = !self.closed;
                self.closed = true;
                Ok(was_open)
            }
            Event::Admit(lane) => {
                let length = self.log.len() as u64;
                let closed = self.closed;
                let lane = self.lanes.get_mut(lane);
                Ok(!closed && lane.is_some_and(|lane| lane.admit(length)))
            }
            other => self.on_lane(other),
        }
    }

    fn on_lane(&mut self, event: Event<u64>) -> Result<bool, AllocError> {
        let (places, length, closed) = (self.places, self.log.len() as u64, self.closed);
        let (Event::Harvest(at)
        | Event::Open(at)
        | Event::Look(at)
        | Event::Take(at)
        | Event::Pass(at)
        | Event::Cut(at)
        | Event::Leave(at)
        | Event::Retire(at)) = event
        else {
            return Ok(false);
        };
        let Some(lane) = self.lanes.get_mut(at) else {
            return Ok(false);
        };
        match event {
            Event::Harvest(_) => Ok(lane.harvest()),
            Event::Open(_) => Ok(lane.open()),
            Event::Look(_) => Ok(lane.look(length, closed)),
            Event::Take(_) => Ok(lane.take()),
            Event::Pass(_) => lane.pass(self.log.as_slice()),
            Event::Cut(_) => Ok(lane.cut(places, length)),
            Event::Leave(_) => Ok(lane.leave()),
            Event::Retire(_) => Ok(lane.retire()),
            _ => Ok(false),
        }
    }

    fn publish(&mut self, name: u64) -> Result<bool, AllocError> {
        let (places, length) = (self.places, self.log.len() as u64);
        if self.closed || self.lanes.iter().any(|lane| lane.is_full(places, length)) {
            return Ok(false);
        }
        self.log.push(name)?;
        Ok(true)
    }

    fn note(&mut self, at: usize, own: Option<(u64, u64)>) -> Result<bool, AllocError> {
        let Some(poster) = self.posters.get_mut(at) else {
            return Ok(false);
        };
        if let Some((place, name)) = own {
            let mut stands = false;
            for (number, batch) in self.log.iter().enumerate() {
                stands = stands || (number as u64 == place && *batch == name);
            }
            if !stands || poster.own.contains(&(place, name)) {
                return Ok(false);
            }
            poster.own.push((place, name))?;
        }
        poster.places_known = self.log.len() as u64;
        Ok(true)
    }

    /// Whether the place is in the log and no lane's key of it is kept.
    pub(crate) fn freed(&self, place: u64) -> bool {
        place < self.log.len() as u64 && !self.lanes.iter().any(|lane| lane.keeps(place))
    }
}
