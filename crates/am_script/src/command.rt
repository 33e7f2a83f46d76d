//! The commands of a script: what a line can ask for, and the word for each.

ghost use Rattle.std.specs.Prelude.{◌≡◌, Some};
ghost use Rattle.am_script.specs.Commands.{moment_in};
ghost use Rattle.am_script.specs.ScriptTexts.{verb_text};

use crate::kind::Kind;
use crate::put_alerts::PutAlerts;
use crate::thread::Thread;
use am_alert::Moment;
use am_labels::{LabelSet, Text};
use am_posts::Body;
use std::alloc::{AllocError, AllocFailed};
use std::fmt;

/// What a line asks for.
#[derive(Debug, Drop)]
pub enum Command {
    /// A body given as a text is posted as its bytes, any other value as its compact text.
    Post {
        at: Moment,
        body: Body,
    },
    /// Alerts that carry their own moments are posted.
    Put {
        at: Moment,
        alerts: PutAlerts,
    },
    Subscribe {
        name: Text,
        kind: Kind,
    },
    /// At most this many calls of `next`.
    Read {
        name: Text,
        max: u32,
    },
    Leave {
        name: Text,
    },
    Collect {
        at: Moment,
    },
    /// A collection that answers what it removed.
    Take {
        at: Moment,
    },
    Close,
    Trim,
    Compact,
    /// The groups of a subscription's dispatcher. With an inhibitor and a moment also what mutes each of
    /// their alerts then.
    Groups {
        name: Text,
        at: GivenMoment,
    },
    /// A subscription's dispatcher drops what is resolved at the moment.
    Sweep {
        name: Text,
        at: Moment,
    },
    /// A subscription's inhibitor drops what is resolved at the moment.
    Forget {
        name: Text,
        at: Moment,
    },
    /// Whether a subscription's inhibitor mutes a target at the moment. The label set is made as an
    /// alert's is: labels with an empty value are ignored, and of two with one name the last holds.
    Mutes {
        name: Text,
        at: Moment,
        labels: LabelSet,
    },
    /// All stored alerts.
    Stored,
    /// A page of the stored alerts: from an index on, with at most `max` of them.
    StoredPage {
        from: u32,
        max: u32,
    },
    /// The stored alert of a label set, which is made as that of `Mutes` is.
    Get {
        labels: LabelSet,
    },
    /// The configuration's routing tree.
    Routes,
    /// The routes that a label set matches, which is made as that of `Mutes` is.
    Route {
        labels: LabelSet,
    },
}

/// The `at` of `groups`. It is a member of that command only if the subscription has an inhibitor too. Other
/// members are ignored, so one that is no moment is kept until the kind of the subscription is known.
#[derive(Clone, Copy, Debug, PartialEq, Eq)]
pub enum GivenMoment {
    Absent,
    At(Moment),
    /// There is that member, and it is no moment.
    Unread,
}

impl GivenMoment {
    /// The moment, if one is given.
    pub fn moment(self) -> Option<Moment>
        ensures { result ≡ moment_in self }
    {
        match self {
            GivenMoment::At(moment) => Some(moment),
            GivenMoment::Absent | GivenMoment::Unread => None,
        }
    }
}

/// A command, with the thread that gives it and the number of its line.
#[derive(Debug, Drop)]
pub struct Line {
    pub number: u32,
    pub thread: Thread,
    pub command: Command,
}

/// Why a line isn't read.
#[derive(Clone, Copy, Debug, PartialEq, Eq)]
#[non_exhaustive]
pub enum LineFault {
    BadLine,
    NoMemory,
}

impl From<AllocError> for LineFault {
    ghost use Rattle.am_script.specs.declared.command.LineFault.TheVariants.{NoMemory};

    ghost from_gives = { λ _ fault. fault ≡ NoMemory };

    fn from(_error: AllocError) -> LineFault {
        LineFault::NoMemory
    }
}

impl<T: Drop> From<AllocFailed<T>> for LineFault {
    ghost use Rattle.am_script.specs.declared.command.LineFault.TheVariants.{NoMemory};

    ghost from_gives = { λ _ fault. fault ≡ NoMemory };

    fn from(_error: AllocFailed<T>) -> LineFault {
        LineFault::NoMemory
    }
}

/// The word of a line's `do`.
#[derive(Clone, Copy, Debug, PartialEq, Eq)]
pub enum Verb {
    Post,
    Put,
    Subscribe,
    Read,
    Leave,
    Collect,
    Take,
    Close,
    Trim,
    Compact,
    Groups,
    Sweep,
    Forget,
    Mutes,
    Stored,
    Get,
    Routes,
    Route,
}

impl fmt::Display for Verb {
    ghost output = { λ verb. Some (verb_text verb) };

    fn fmt<W: fmt::Write>(&self, f: &mut fmt::Formatter<W>) -> fmt::Result {
        f.write_str(match self {
            Verb::Post => "post",
            Verb::Put => "put",
            Verb::Subscribe => "subscribe",
            Verb::Read => "read",
            Verb::Leave => "leave",
            Verb::Collect => "collect",
            Verb::Take => "take",
            Verb::Close => "close",
            Verb::Trim => "trim",
            Verb::Compact => "compact",
            Verb::Groups => "groups",
            Verb::Sweep => "sweep",
            Verb::Forget => "forget",
            Verb::Mutes => "mutes",
            Verb::Stored => "stored",
            Verb::Get => "get",
            Verb::Routes => "routes",
            Verb::Route => "route",
        })
    }
}
