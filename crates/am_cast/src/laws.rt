//! What each kind of step is to the core of am_steps, so that its words (a sound state, a place
//! that is needed, a place that is freed) are those of the table. Each law is a function that does
//! nothing. `B` is what is known of a batch, `K` a key of one, `A` what a subscription notes down,
//! and `R` says which key of a batch is each lane's.
ghost use Rattle.std.specs.Prelude.{◌^◌, ◌≡◌};
ghost use Rattle.am_cast.specs.Cursors.{ShowsAllItems};
ghost use Rattle.am_cast.specs.Laws.{BeginsAtTheFirstState};
ghost use Rattle.am_cast.specs.Laws.{ShowsASoundState, KnowsWhatIsFreed, FreedIsHome, HomeIsFreed};
ghost use Rattle.am_cast.specs.Laws.{NeededIsNotFreedFor, NotesTheLog, WeighsTheView, TellsASeat};
ghost use Rattle.am_cast.specs.Laws.{DealsALane, HandsOwnPlaces, TakesInASeat, OpensTheLane};
ghost use Rattle.am_cast.specs.Laws.{LooksAtTheLog, TakesTheKey, PassesThePlace, LeavesBare};
ghost use Rattle.am_cast.specs.Laws.{LeavesWithKey, FindsTheWord, RecoversTheKey, CutsTheLane};
ghost use Rattle.am_cast.specs.Laws.{AdmitsTheLane, RetiresTheLane, ReclaimsTheLane, PublishesTheBatch};
ghost use Rattle.am_cast.specs.Laws.{ClosesTheLog, ReachesASlot, LaysAKey, GathersAKey, ClearsASlot};
ghost use Rattle.am_cast.specs.Runs.{RunsOfTheCore};

use crate::limits::{LANES, LONGEST_LOG, MAX_PLACES, WORDS};
use crate::rule::Keyed;
use am_steps::laws::a_needed_place_is_not_freed;

/// A lane that was given out begins: Open.
pub fn an_open_is_an_event<B, K, A, R: Keyed<B, K>>()
    ensures { OpensTheLane B K A R.key }
{}

/// A lane that has begun looks how long the log is: Look.
pub fn a_look_is_an_event<B, K, A, R: Keyed<B, K>>()
    ensures { LooksAtTheLog B K A R.key }
{}

/// A lane exchanges its word for one that shows the key of the next place in its hand: Take.
pub fn a_take_is_an_event<B, K, A, R: Keyed<B, K>>()
    ensures { TakesTheKey B K A R.key }
{}

/// A lane gives the key in its hand back and adds 2 to its word: Pass.
pub fn a_pass_is_an_event<B, K, A, R: Keyed<B, K>>()
    ensures { PassesThePlace B K A R.key }
{}

/// A lane with no key in its hand is left: Leave.
pub fn a_leave_is_an_event<B, K, A, R: Keyed<B, K>>()
    ensures { LeavesBare B K A R.key }
{}

/// A lane gives the key in its hand back and is left: Leave.
pub fn a_leave_with_a_key_is_an_event<B, K, A, R: Keyed<B, K>>()
    ensures { LeavesWithKey B K A R.key }
{}

/// The writer finds a live lane's word: Harvest, or Retire if the lane has left.
pub fn a_harvest_is_an_event<B, K, A, R: Keyed<B, K>>()
    ensures { FindsTheWord B K A R.key }
{}

/// The writer looks at a cut lane whose key is away: Harvest if the key is back, else nothing.
pub fn a_recovery_is_an_event<B, K, A, R: Keyed<B, K>>()
    ensures { RecoversTheKey B K A R.key }
{}

/// The writer exchanges the word that it found last for one more: Cut, or what it finds in place of it.
pub fn a_cut_is_an_event<B, K, A, R: Keyed<B, K>>()
    ensures { CutsTheLane B K A R.key }
{}

/// The writer gives an idle lane out: Admit.
pub fn an_admit_is_an_event<B, K, A, R: Keyed<B, K>>()
    ensures { AdmitsTheLane B K A R.key }
{}

/// A lane whose seat took in the writer's is left, and is idle at once: Leave and Retire.
pub fn a_retire_is_two_events<B, K, A, R: Keyed<B, K>>()
    ensures { RetiresTheLane B K A R.key }
{}

/// The writer looks whether a lane has left: Retire if it has, or nothing if that was found before.
pub fn a_reclaim_is_an_event<B, K, A, R: Keyed<B, K>>()
    ensures { ReclaimsTheLane B K A R.key }
{}

/// The writer makes a place of which each live lane has its key: Publish.
pub fn a_publish_is_an_event<B, K, A, R: Keyed<B, K>>()
    ensures { PublishesTheBatch B K A R.key }
{}

/// The writer closes the log: Close.
pub fn a_close_is_an_event<B, K, A, R: Keyed<B, K>>()
    ensures { ClosesTheLog B K A R.key }
{}

/// The writer takes a lane's slot of the next place: nothing.
pub fn a_reach_is_silent<B, K, A, R: Keyed<B, K>>()
    ensures { ReachesASlot B K A R.key }
{}

/// The writer gives the slot back with a key in it: nothing.
pub fn a_lay_is_silent<B, K, A, R: Keyed<B, K>>()
    ensures { LaysAKey B K A R.key }
{}

/// The writer takes the slot of a place that the lane has passed: nothing.
pub fn a_gather_is_silent<B, K, A, R: Keyed<B, K>>()
    ensures { GathersAKey B K A R.key }
{}

/// The writer gives the slot back empty: nothing.
pub fn a_clear_is_silent<B, K, A, R: Keyed<B, K>>()
    ensures { ClearsASlot B K A R.key }
{}

/// A seat notes how long the log is: a Note of its poster for each place that became its own since, or one
/// for none.
pub fn a_note_is_an_event<B, K, A, R: Keyed<B, K>>()
    ensures { NotesTheLog B K A R.key }
{}

/// A seat compares what it knows: nothing.
pub fn a_weigh_is_silent<B, K, A, R: Keyed<B, K>>()
    ensures { WeighsTheView B K A R.key }
{}

/// A new seat learns what another has seen: the state stays.
pub fn a_tell_is_silent<B, K, A, R: Keyed<B, K>>()
    ensures { TellsASeat B K A R.key }
{}

/// The lane in a view gets its own seat: the state stays.
pub fn a_deal_is_silent<B, K, A, R: Keyed<B, K>>()
    ensures { DealsALane B K A R.key }
{}

/// The own places of a seat that is no poster's get a seat of their own: the state stays.
pub fn a_hand_is_silent<B, K, A, R: Keyed<B, K>>()
    ensures { HandsOwnPlaces B K A R.key }
{}

/// A seat takes in all that another has, which is no poster's and is spent: the state stays.
pub fn a_seat_taken_in_is_silent<B, K, A, R: Keyed<B, K>>()
    ensures { TakesInASeat B K A R.key }
{}

/// A table as it is made shows the core's first state.
pub fn a_new_table_shows_the_first_state<B, K, A, R: Keyed<B, K>>()
    ensures { BeginsAtTheFirstState B K A R.key }
{}

/// Any sequence of steps that these laws allow, from a new table on, is a run of the core from its first
/// state.
pub fn a_run_of_steps_is_a_run_of_the_core<B, K, A, R: Keyed<B, K>>()
    ensures { RunsOfTheCore B K A R.key }
{}

/// What a table shows is a sound state of the core.
pub fn a_table_shows_a_sound_state<B, K, A, R: Keyed<B, K>>()
    ensures { ShowsASoundState B K A R.key }
{}

/// The writer's view names the same places freed as the core.
pub fn the_writer_knows_what_is_freed<B, K, A, R: Keyed<B, K>>()
    ensures { KnowsWhatIsFreed B K A R.key }
{}

/// If the writer has taken out all keys that it may, no lane's key of a freed place is out.
pub fn a_freed_place_has_no_key_out<B, K, A, R: Keyed<B, K>>()
    ensures { FreedIsHome B K A R.key }
{}

/// If the writer has taken out all keys that it may, a place of which no lane's key is out is freed.
pub fn a_place_with_no_key_out_is_freed<B, K, A, R: Keyed<B, K>>()
    ensures { HomeIsFreed B K A R.key }
{}

/// No place that a lane needs is one that the writer's view names freed.
pub fn a_needed_place_is_not_freed_by_the_writer<B, K, A, R: Keyed<B, K>>()
    ensures { NeededIsNotFreedFor B K A R.key }
{
    a_needed_place_is_not_freed::<B>();
}

/// The numbers of the log's limits.
pub fn the_limits()
    ensures subscribers { LANES ≡ 8 }
    ensures places { (MAX_PLACES ≡ 65_536) × (LONGEST_LOG ≡ 2 ^ 51) }
    ensures words { WORDS ≡ 152 }
{}

/// A cursor that has passed all places that it has seen has shown all their items, from its start on: one whose
/// last answer was Closed or Pending.
pub fn a_cursor_at_the_end_has_shown_all<T, P, A>()
    ensures { ShowsAllItems T P A }
{}
