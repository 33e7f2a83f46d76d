//! Sets of lanes.

ghost use Rattle.std.specs.Prelude.{◌≡◌, ◌<◌, ◌^◌, ◌||◌, ℕ, false, if◌then◌else◌, nat_eq, slice_index_or};
ghost use Rattle.am_store.specs.LaneSets.{has_lane};

use crate::lanes::LANES;
use std::marker::Model;

/// Some of the eight lanes. Contracts see it as a number, lane `l` in its bit `l`.
#[derive(Clone, Copy, Debug, PartialEq, Eq)]
pub struct LaneSet {
    bits: u8,
}

impl Model for LaneSet {
    ghost use Rattle.std.specs.Prelude.{ℕ, ◌<◌, ◌^◌};

    ghost Value = { ℕ };

    ghost view = { λ set. set.bits };

    ghost invariant = { λ set. set.bits < 2 ^ 8 };

    ghost inverse = { λ n. record { bits = n } };
}

impl LaneSet {
    /// No lane.
    pub const EMPTY: LaneSet = LaneSet { bits: 0 };

    /// The lanes that are flagged.
    pub fn from_flags(flags: &[bool; LANES]) -> LaneSet
        ensures lanes { (lane : ℕ) → has_lane result lane ≡ slice_index_or flags.now lane false }
        ensures none { ((lane : ℕ) → slice_index_or flags.now lane false ≡ false) → result ≡ 0 }
    {
        let mut set = LaneSet { bits: 0 };
        for lane in 0..LANES {
            if flags[lane] {
                set = set.with(lane as u32);
            }
        }
        set
    }

    /// Whether it has the lane.
    pub fn contains(self, lane: u32) -> bool
        requires { lane < LANES }
        ensures { result ≡ has_lane self lane }
    {
        (self.bits >> lane) % 2 == 1
    }

    /// The set with the lane.
    pub fn with(self, lane: u32) -> LaneSet
        requires { lane < LANES }
        ensures lanes { (other : ℕ)
            → has_lane result other ≡ (has_lane self other || nat_eq lane other) }
        ensures eight { result < 2 ^ 8 }
    {
        LaneSet {
            bits: self.bits | 1 << lane,
        }
    }

    /// The set without the lane.
    pub fn without(self, lane: u32) -> LaneSet
        requires { lane < LANES }
        ensures lanes { (other : ℕ) → has_lane result other
            ≡ (if nat_eq lane other then false else has_lane self other) }
        ensures eight { result < 2 ^ 8 }
    {
        LaneSet {
            bits: self.bits & !(1 << lane),
        }
    }
}
