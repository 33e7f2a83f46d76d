//! A post: the alerts of one request to `/api/v2/alerts`, its limits, and why it or an alert of it
//! is refused.

ghost use Rattle.std.specs.Prelude.{◌≡◌, ◌+◌, ◌≤◌, All, Some, length};
ghost use Rattle.am_alert.specs.ValidAlerts.{IsWellFormed, indices_of, Rises};
ghost use Rattle.am_alert.specs.declared.post.TheConstants.{MAX_ALERTS};

use crate::alerts::Alerts;
use std::alloc::{AllocError, AllocFailed};
use std::marker::Model;
use std::slice;
use thiserror::Error;

/// A post has at most this many bytes.
pub const MAX_BYTES: usize = 4_194_304;
/// A post has at most this many alerts, invalid ones included.
pub const MAX_ALERTS: usize = 1_024;

/// Why one alert of a post is invalid. The others of the post stay valid.
#[derive(Clone, Copy, Debug, PartialEq, Eq, Error)]
#[non_exhaustive]
pub enum AlertFault {
    #[error("no label of the alert has a value")]
    NoLabels,
    #[error("the alert ends before it starts")]
    EndBeforeStart,
    #[error("a label or an annotation has an empty name")]
    EmptyName,
}

/// The invalid alerts of a post, each by its index in the post, in order. Contracts see them as
/// their list.
#[derive(Debug, Drop)]
pub struct Faults {
    pub faults: Vec<(u32, AlertFault)>,
}

impl Model for Faults {
    ghost use Rattle.std.specs.Prelude.{List, ℕ};
    ghost use Rattle.am_alert.specs.declared.post.AlertFault.{AlertFault};

    ghost Value = { List (ℕ × AlertFault) };

    ghost view = { λ a. a.faults.items };
}

impl Faults {
    pub fn as_slice(&self) -> &[(u32, AlertFault)]
        ensures { result.now ≡ self.now }
    {
        &self.faults
    }
}

impl<'a> IntoIterator for &'a Faults {
    type Item = &'a (u32, AlertFault);

    type IntoIter = slice::Iter<'a, (u32, AlertFault)>;

    ghost use Rattle.std.specs.Prelude.{◌≡◌, ℕ};
    ghost use Rattle.std.specs.Iterator.Runs.{EveryRun, ItemsMapTo};
    ghost use Rattle.std.specs.Slice.Iter.{iter_rest, iter_steps};
    ghost use Rattle.am_alert.specs.declared.post.AlertFault.{AlertFault};

    ghost into_iter_gives = { λ list iter. (iter_rest iter ≡ list.now)
        × EveryRun (iter_steps {A = ℕ × AlertFault}) (λ run. ItemsMapTo run (λ x. x.now) (iter_rest run.from)) };

    fn into_iter(self) -> slice::Iter<'a, (u32, AlertFault)> {
        self.faults.iter()
    }
}

/// A post that was read: its valid alerts and its faults, both in the order of the post. Each valid
/// alert has a label, none without a value, names that aren't empty, and an end that isn't before
/// its start.
#[derive(Debug, Drop)]
pub struct Post {
    pub valid: Alerts,
    pub faults: Faults,
    pub ghost few: { length valid + length faults ≤ MAX_ALERTS },
    pub ghost well_formed: { All IsWellFormed valid },
    pub ghost rising: { Rises (indices_of faults) },
}

/// Why a post was refused as a whole: nothing of it is stored.
#[derive(Clone, Copy, Debug, PartialEq, Eq, Error)]
#[non_exhaustive]
pub enum PostFault {
    #[error("there is no memory for a post")]
    NoMemory,
    #[error("the body is no JSON")]
    NotJson,
    #[error("the body is no array")]
    NotAnArray,
    #[error("the body has more than 4,194,304 bytes or 1,024 alerts")]
    TooMany,
    #[error("element {0} is no object, has no labels, or has a member that can't be read")]
    BadMember(u32),
    #[error("element {0} gives no end, and the resolve timeout leads past the last instant")]
    OutOfRange(u32),
}

impl From<AllocError> for PostFault {
    ghost use Rattle.am_alert.specs.declared.post.PostFault.TheVariants.{NoMemory};

    ghost from_gives = { λ _ e. e ≡ NoMemory };

    fn from(_e: AllocError) -> PostFault {
        PostFault::NoMemory
    }
}

impl<T: Drop> From<AllocFailed<T>> for PostFault {
    ghost use Rattle.am_alert.specs.declared.post.PostFault.TheVariants.{NoMemory};

    ghost from_gives = { λ _ e. e ≡ NoMemory };

    fn from(_e: AllocFailed<T>) -> PostFault {
        PostFault::NoMemory
    }
}
