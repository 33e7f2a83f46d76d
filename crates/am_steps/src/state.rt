//! The core's state and how one begins. What an event makes of it is in `state/apply.rt`, and which
//! places are freed in `state/freed.rt`.
ghost use Rattle.std.specs.Prelude.{◌≡◌, IfOk, replicate, slice_get};
ghost use Rattle.std.specs.Option.{option_copied};
ghost use Rattle.am_steps.specs.declared.lane.Lane.TheVariants.{Idle};
ghost use Rattle.am_steps.specs.Soundness.{IsSound};
ghost use Rattle.am_steps.specs.States.{core_of, first_state, first_state_open};
ghost use Rattle.am_steps.specs.States.{new_open_lane, unaware_poster};

mod apply;
mod freed;
#[cfg(test)]
mod shows;

use crate::batch_names::OwnPosts;
use crate::lane::Lane;
use crate::poster::Poster;
use std::alloc::{AllocError, Global};
use std::fmt;
use std::marker::Model;

/// The core's state, with a number for each batch's name.
#[derive(Drop)]
pub struct State {
    places: u64,
    log: Vec<u64>,
    closed: bool,
    lanes: Vec<Lane<u64>>,
    posters: Vec<Poster<u64>>,
    alloc: Global,
}

impl Model for State {
    ghost use Rattle.std.specs.Prelude.{ℕ};
    ghost use Rattle.am_steps.specs.States.{StateView};

    ghost Value = { StateView ℕ };

    ghost use Rattle.am_steps.specs.inside.Fields.{fields_view, IsSoundState};

    ghost view = { fields_view };

    ghost invariant = { IsSoundState };
}

impl State {
    /// An empty log whose lanes may lag by `places` batches, with `lanes` idle lanes, and `posters` posters
    /// that know of no place.
    pub fn new(
        alloc: Global,
        places: u64,
        lanes: usize,
        posters: usize,
    ) -> Result<State, AllocError>
        ensures { IfOk result (λ made. core_of made ≡ first_state places lanes posters) }
    {
        Ok(State {
            places,
            log: Vec::new(alloc),
            closed: false,
            lanes: idle_lanes(alloc, lanes)?,
            posters: unaware_posters(alloc, posters)?,
            alloc,
        })
    }

    /// The same, but each lane is open at the log's beginning.
    pub fn open(
        alloc: Global,
        places: u64,
        lanes: usize,
        posters: usize,
    ) -> Result<State, AllocError>
        ensures { IfOk result (λ made. core_of made ≡ first_state_open places lanes posters) }
    {
        Ok(State {
            places,
            log: Vec::new(alloc),
            closed: false,
            lanes: open_lanes(alloc, lanes)?,
            posters: unaware_posters(alloc, posters)?,
            alloc,
        })
    }

    /// The lane of that number.
    pub fn lane(&self, lane: usize) -> Option<&Lane<u64>>
        ensures { option_copied result ≡ slice_get self.now.lanes lane }
    {
        self.lanes.get(lane)
    }

    /// A law: each `State` is sound. It does nothing; a proof calls it where it needs that.
    pub fn sound(&self)
        ensures { IsSound (core_of self.now) }
    {
        let _ = &self.places;
    }
}

fn idle_lanes(alloc: Global, count: usize) -> Result<Vec<Lane<u64>>, AllocError>
    ensures { IfOk result (λ made. made.items ≡ replicate count Idle) }
{
    let mut made = Vec::with_capacity(alloc, count)?;
    for _number in 0..count {
        made.push_reserved(Lane::Idle);
    }
    Ok(made)
}

fn open_lanes(alloc: Global, count: usize) -> Result<Vec<Lane<u64>>, AllocError>
    ensures { IfOk result (λ made. made.items ≡ replicate count new_open_lane) }
{
    let mut made = Vec::with_capacity(alloc, count)?;
    for _number in 0..count {
        made.push_reserved(new_open_lane(alloc));
    }
    Ok(made)
}

// A lane that is open at the log's beginning.
fn new_open_lane(alloc: Global) -> Lane<u64>
    ensures { result ≡ new_open_lane }
{
    let mut lane = Lane::Idle;
    lane.admit(0);
    lane.open(alloc);
    lane
}

fn unaware_posters(alloc: Global, count: usize) -> Result<Vec<Poster<u64>>, AllocError>
    ensures { IfOk result (λ made. made.items ≡ replicate count unaware_poster) }
{
    let mut made = Vec::with_capacity(alloc, count)?;
    for _number in 0..count {
        made.push_reserved(Poster {
            places_known: 0,
            own: OwnPosts {
                posts: Vec::new(alloc),
            },
        });
    }
    Ok(made)
}

impl fmt::Debug for State {
    fn fmt<W: fmt::Write>(&self, f: &mut fmt::Formatter<W>) -> fmt::Result {
        f.debug_struct("State")
            .field("places", &self.places)
            .field("log", &self.log)
            .field("closed", &self.closed)
            .finish_non_exhaustive()
    }
}
