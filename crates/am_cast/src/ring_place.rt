//! A place, and the index of its slot in each lane's ring.
ghost use Rattle.std.specs.Prelude.{◌≡◌, ◌+◌, ◌%◌, ◌<◌, ◌≤◌};
ghost use Rattle.am_cast.specs.declared.limits.TheConstants.{LANES, LONGEST_LOG, MAX_PLACES};
ghost use Rattle.am_cast.specs.Rule.{slot};

use crate::limits::LANES;
use std::marker::Model;

/// The index is kept next to the number, so that neither going on nor a place a little back needs a division.
#[derive(Drop)]
pub(crate) struct RingPlace {
    number: u64,
    index: u64,
    places: u64,
}

impl Model for RingPlace {
    ghost use Rattle.am_cast.specs.inside.RingPlaces.{RingPlaceView, IsRingPlace};

    ghost Value = { RingPlaceView };

    ghost view = { λ r. record { number = r.number; places = r.places } };

    ghost invariant = { λ r. IsRingPlace r.number r.index r.places };
}

impl RingPlace {
    pub(crate) fn new(number: u64, places: u64) -> RingPlace
        requires { (0 < places) × (places ≤ MAX_PLACES) }
        ensures { result ≡ record { number = number; places = places } }
    {
        RingPlace {
            number,
            index: number % places,
            places,
        }
    }

    pub(crate) fn number(&self) -> u64
        ensures { result ≡ self.now.number }
    {
        self.number
    }

    /// How many slots each lane's ring has.
    pub(crate) fn places(&self) -> u64
        ensures { result ≡ self.now.places }
    {
        self.places
    }

    /// Its index in each lane's ring.
    pub(crate) fn index(&self) -> usize
        ensures { result ≡ self.now.number % self.now.places }
    {
        self.index as usize
    }

    /// The index of this place or of an earlier one. It divides only where that one is more than a whole
    /// ring back.
    pub(crate) fn index_of(&self, place: u64) -> usize
        requires { place ≤ self.now.number }
        ensures { result ≡ place % self.now.places }
    {
        let back = self.number - place;
        if back > self.places {
            return (place % self.places) as usize;
        }
        let turned = if back <= self.index {
            self.index
        } else {
            self.index + self.places
        };
        (turned - back) as usize
    }

    /// The index of the slot of the lane's key of this place.
    pub(crate) fn slot(&self, lane: usize) -> usize
        requires { lane < LANES }
        ensures { result ≡ slot self.now.places lane self.now.number }
    {
        LANES * self.index as usize + lane
    }

    /// The next place.
    pub(crate) fn go_on(&mut self)
        requires { self.old.number < LONGEST_LOG }
        ensures { self.new ≡ record self.old { number = self.old.number + 1 } }
    {
        self.number += 1;
        self.index += 1;
        if self.index == self.places {
            self.index = 0;
        }
    }
}
