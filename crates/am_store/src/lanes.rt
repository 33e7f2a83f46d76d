//! The lanes of subscriptions: which are open, since when, and which to give out next.
//!
//! A trim looks at up to eight lanes for the earliest; keeping them sorted would cost every subscription.

ghost use Rattle.std.specs.Prelude.{◌≡◌, ◌<◌, None, IsSome, IfSome, IfNone, ℕ};
ghost use Rattle.am_store.specs.Lanes.{all_subscribed_at, lane_at, IsLowestFree, IsEarliest};

use crate::discarded::Discarded;
use crate::shared_alerts::StoredAlerts;
use std::mem;

/// How many lanes there are.
pub const LANES: usize = 8;

/// A lane that has a subscription.
#[derive(Debug, Drop)]
pub struct OpenLane {
    /// How many calls there had been before the subscription.
    pub at: u64,
    /// What was stored then.
    pub opening: StoredAlerts,
}

/// Each lane, with its subscription if it has one.
pub type Lanes = [Option<OpenLane>; LANES];

/// The lowest lane that isn't open.
pub fn idle_lane(lanes: &Lanes) -> Option<usize>
    ensures some { IfSome result (IsLowestFree lanes.now) }
    ensures none { IfNone result
        ((lane : ℕ) → lane < 8 → IsSome (lane_at lanes.now lane)) }
{
    for (lane, open) in lanes.iter().enumerate() {
        if open.is_none() {
            return Some(lane);
        }
    }
    None
}

/// The open lane that was subscribed first.
pub fn earliest(lanes: &Lanes) -> Option<&OpenLane>
    ensures some { IfSome result (λ one. IsEarliest lanes.now one.now) }
    ensures none { IfNone result ((lane : ℕ) → lane_at lanes.now lane ≡ None) }
{
    let mut first: Option<&OpenLane> = None;
    for lane in lanes {
        if let Some(open) = lane {
            match first {
                Some(other) if other.at <= open.at => {}
                _ => first = Some(open),
            }
        }
    }
    first
}

/// Each open lane lets go of its opening, and shares this list in its place. Were that shared 2^63 times already,
/// the opening would stay.
pub fn let_openings_go(lanes: &mut Lanes, others: &StoredAlerts, discarded: &mut Discarded)
    ensures { all_subscribed_at lanes.new ≡ all_subscribed_at lanes.old }
{
    for lane in 0..LANES {
        if let (Some(open), Ok(opening)) = (&lanes[lane], others.share()) {
            let at = open.at;
            let open = Some(OpenLane { at, opening });
            discarded.add_opening(mem::replace(&mut lanes[lane], open));
        }
    }
}
