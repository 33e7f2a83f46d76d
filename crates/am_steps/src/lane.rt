//! One lane, and what each step on it makes of it. Which lane it is, and what a step does to the
//! log and the posters, is the state's matter.
//!
//! ```text
//!          Admit              Open               Leave          Retire
//!   idle ─────────► admitted ──────► open ────────────► left ──────────► idle
//!                     │               │ Look, Take, Pass: the cursor's
//!                     └─ Harvest, Cut ┘ the writer's, on what it records of the lane
//! ```
ghost use Rattle.std.specs.Prelude.{◌≡◌, ℕ, ◌+◌, ◌<◌, ◌^◌, IfOk, OnErr, Some};
ghost use Rattle.am_steps.specs.inside.LaneRows.{Becomes, after_admit, after_cut, after_harvest};
ghost use Rattle.am_steps.specs.inside.LaneRows.{after_leave, after_look, after_open, after_pass};
ghost use Rattle.am_steps.specs.inside.LaneRows.{after_retire, after_take, keeps_none};
ghost use Rattle.am_steps.specs.inside.LaneRows.{leaves_room, place_in_hand};

use crate::batch_names::BatchNames;
use crate::cursor::Cursor;
use crate::lane_record::LaneRecord;
use std::alloc::{AllocError, Global};

/// A subscriber's slot, which at most one cursor uses at a time.
#[derive(Debug, Drop)]
pub enum Lane<N> {
    /// Nobody's.
    Idle,
    /// Given out, and its cursor hasn't begun.
    Admitted(LaneRecord),
    /// Read by a cursor.
    Open(LaneRecord, Cursor<N>),
    /// Its cursor has ended, and the writer hasn't found that yet.
    Left(LaneRecord),
}

impl<N> Lane<N> {
    // Whether the lane's lag lets the log grow.
    pub(crate) fn leaves_room(&self, places: u64, length: u64) -> bool
        ensures { result ≡ leaves_room places length self.now }
    {
        match self {
            Lane::Idle => true,
            Lane::Admitted(record) | Lane::Open(record, _) | Lane::Left(record) => {
                record.leaves_room(places, length)
            }
        }
    }

    // Whether the writer keeps no key of the lane of the place.
    pub(crate) fn keeps_none(&self, place: u64) -> bool
        ensures { result ≡ keeps_none place self.now }
    {
        match self {
            Lane::Idle => true,
            Lane::Admitted(record) | Lane::Open(record, _) | Lane::Left(record) => {
                !record.keeps_key(place)
            }
        }
    }

    // The place of the key in the cursor's hand.
    pub(crate) fn place_in_hand(&self) -> Option<u64>
        ensures { result ≡ place_in_hand self.now }
    {
        match self {
            Lane::Open(_, cursor) if cursor.held => Some(cursor.passed),
            _ => None,
        }
    }
}

// Each step answers whether it was possible. If it wasn't, the lane stays.
impl<N: Drop> Lane<N> {
    pub(crate) fn harvest(&mut self) -> bool
        ensures { Becomes (after_harvest self.old) self.old self.new result }
    {
        match self {
            Lane::Admitted(record) => {
                record.known = record.start;
                record.key_out = false;
                true
            }
            Lane::Open(record, cursor) => {
                record.known = cursor.passed;
                record.key_out = cursor.held;
                true
            }
            Lane::Idle | Lane::Left(_) => false,
        }
    }

    pub(crate) fn admit(&mut self, length: u64) -> bool
        ensures { Becomes (after_admit length self.old) self.old self.new result }
    {
        let Lane::Idle = self else {
            return false;
        };
        *self = Lane::Admitted(LaneRecord {
            start: length,
            known: length,
            key_out: false,
            cut: false,
        });
        true
    }

    pub(crate) fn open(&mut self, alloc: Global) -> bool
        ensures { Becomes (after_open self.old) self.old self.new result }
    {
        let Lane::Admitted(record) = self else {
            return false;
        };
        let record = *record;
        let cursor = Cursor {
            passed: record.start,
            held: false,
            seen: record.start,
            told: false,
            told_cut: false,
            got: BatchNames {
                names: Vec::new(alloc),
            },
        };
        *self = Lane::Open(record, cursor);
        true
    }

    pub(crate) fn look(&mut self, length: u64, closed: bool) -> bool
        ensures { Becomes (after_look length closed self.old) self.old self.new result }
    {
        let Lane::Open(_, cursor) = self else {
            return false;
        };
        cursor.seen = length;
        cursor.told = closed;
        true
    }

    pub(crate) fn take(&mut self) -> bool
        ensures { Becomes (after_take self.old) self.old self.new result }
    {
        let Lane::Open(record, cursor) = self else {
            return false;
        };
        if cursor.held || cursor.passed >= cursor.seen {
            return false;
        }
        if record.cut {
            cursor.told_cut = true;
        } else {
            cursor.held = true;
        }
        true
    }

    // The name is that of the batch at the place in hand.
    pub(crate) fn pass(&mut self, name: N) -> Result<bool, AllocError>
        requires fits { (place : ℕ) → place_in_hand self.old ≡ Some place → place + 1 < 2 ^ 64 }
        ensures passed { IfOk result (Becomes (after_pass name self.old) self.old self.new) }
        ensures err { OnErr result (self.new ≡ self.old) }
    {
        let Lane::Open(record, cursor) = self else {
            return Ok(false);
        };
        if !cursor.held {
            return Ok(false);
        }
        cursor.got.names.push(name)?;
        cursor.passed += 1;
        cursor.held = false;
        cursor.told_cut = cursor.told_cut || record.cut;
        Ok(true)
    }

    pub(crate) fn cut(&mut self, places: u64, length: u64) -> bool
        ensures { Becomes (after_cut places length self.old) self.old self.new result }
    {
        match self {
            Lane::Admitted(record) => {
                if !record.may_cut(places, length, record.start, false) {
                    return false;
                }
                record.cut = true;
                true
            }
            Lane::Open(record, cursor) => {
                if !record.may_cut(places, length, cursor.passed, cursor.held) {
                    return false;
                }
                record.cut = true;
                true
            }
            Lane::Idle | Lane::Left(_) => false,
        }
    }

    pub(crate) fn leave(&mut self) -> bool
        ensures { Becomes (after_leave self.old) self.old self.new result }
    {
        let Lane::Open(record, _) = self else {
            return false;
        };
        let record = *record;
        *self = Lane::Left(record);
        true
    }

    pub(crate) fn retire(&mut self) -> bool
        ensures { Becomes (after_retire self.old) self.old self.new result }
    {
        let Lane::Left(_) = self else {
            return false;
        };
        *self = Lane::Idle;
        true
    }
}
