//! What holds whatever the order of steps: laws over the definitions alone, for any type `N` of
//! batches' names. Each is a function that does nothing: a proof calls it where it needs the law.
ghost use Rattle.am_steps.specs.Laws.{ClosedStays, HasOneNext, IsWithinPlaces, KeepsSound};
ghost use Rattle.am_steps.specs.Laws.{NeededIsNotFreed, OpensEachLane, RunsAreSound, StaysFreed};

/// Each step keeps a state sound.
pub fn a_step_keeps_it_sound<N>()
    ensures { KeepsSound N }
{}

/// Whatever events came since the first state, the state is sound.
pub fn every_run_is_sound<N>()
    ensures { RunsAreSound N }
{}

/// In a sound state no place that a lane needs is freed.
pub fn a_needed_place_is_not_freed<N>()
    ensures { NeededIsNotFreed N }
{}

/// From a sound state on, a freed place stays freed.
pub fn a_freed_place_stays_freed<N>()
    ensures { StaysFreed N }
{}

/// A closed log stays closed and doesn't grow.
pub fn a_closed_log_stays<N>()
    ensures { ClosedStays N }
{}

/// If no lane was cut, each lane that isn't idle lags by at most as many batches as the log has places.
pub fn uncut_lanes_are_within_the_places<N>()
    ensures { IsWithinPlaces N }
{}

/// A state and an event have one next state at most.
pub fn an_event_has_one_next_state<N>()
    ensures { HasOneNext N }
{}

/// An Admit and an Open of each lane lead from the first state to that in which each is open.
pub fn each_lane_opens<N>()
    ensures { OpensEachLane N }
{}
