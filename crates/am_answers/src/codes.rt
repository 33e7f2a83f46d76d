//! Refusals as the program prints them: a code, a word, and what it is about. The sentences that people read
//! are the errors' own.

ghost use Rattle.std.specs.Prelude.{Some};
ghost use Rattle.am_answers.specs.Codes.{body_code, invalid_code, post_code, put_code, subscribe_code};

use am_alert::{AlertFault, PostFault};
use am_store::{BodyFault, PutFault, SubFault};
use std::fmt;

/// The code of a close that was refused.
pub(crate) const CLOSED: &str = "E14 Closed";

/// The code of an invalid alert.
#[derive(Drop)]
pub(crate) struct InvalidCode(pub AlertFault);

impl fmt::Display for InvalidCode {
    ghost output = { λ code. Some (invalid_code code.0) };

    fn fmt<W: fmt::Write>(&self, f: &mut fmt::Formatter<W>) -> fmt::Result {
        f.write_str(match self.0 {
            AlertFault::NoLabels => "E10 NoLabels",
            AlertFault::EndBeforeStart => "E11 EndBeforeStart",
            AlertFault::EmptyName => "E12 EmptyName",
            _ => unreachable!(),
        })
    }
}

/// The code of a body that wasn't posted.
#[derive(Drop)]
pub(crate) struct BodyCode(pub BodyFault);

impl fmt::Display for BodyCode {
    ghost output = { λ code. Some (body_code code.0) };

    fn fmt<W: fmt::Write>(&self, f: &mut fmt::Formatter<W>) -> fmt::Result {
        match self.0 {
            BodyFault::Unread(fault) => PostCode(fault).fmt(f),
            BodyFault::Put(fault) => PutCode(fault).fmt(f),
            _ => unreachable!(),
        }
    }
}

/// The code of a body that can't be read.
#[derive(Drop)]
struct PostCode(pub PostFault);

impl fmt::Display for PostCode {
    ghost output = { λ code. Some (post_code code.0) };

    fn fmt<W: fmt::Write>(&self, f: &mut fmt::Formatter<W>) -> fmt::Result {
        match self.0 {
            PostFault::NoMemory => f.write_str("E0 NoMemory"),
            PostFault::NotJson => f.write_str("E5 NotJson"),
            PostFault::NotAnArray => f.write_str("E6 NotAnArray"),
            PostFault::TooMany => f.write_str("E8 TooMany"),
            PostFault::BadMember(index) => write!(f, "E7 BadMember {index}"),
            PostFault::OutOfRange(index) => write!(f, "E9 OutOfRange {index}"),
            _ => unreachable!(),
        }
    }
}

/// The code of alerts that weren't posted.
#[derive(Drop)]
struct PutCode(pub PutFault);

impl fmt::Display for PutCode {
    ghost output = { λ code. Some (put_code code.0) };

    fn fmt<W: fmt::Write>(&self, f: &mut fmt::Formatter<W>) -> fmt::Result {
        match self.0 {
            PutFault::NoMemory => f.write_str("E0 NoMemory"),
            PutFault::Closed => f.write_str(CLOSED),
            PutFault::LogEnd => f.write_str("E23 LogEnd"),
            PutFault::Full { lane, passed } => write!(f, "E13 Full lane {lane} passed {passed}"),
            _ => unreachable!(),
        }
    }
}

/// The code of a subscription that was refused.
#[derive(Drop)]
pub(crate) struct SubscribeCode(pub SubFault);

impl fmt::Display for SubscribeCode {
    ghost output = { λ code. Some (subscribe_code code.0) };

    fn fmt<W: fmt::Write>(&self, f: &mut fmt::Formatter<W>) -> fmt::Result {
        f.write_str(match self.0 {
            SubFault::NoMemory => "E0 NoMemory",
            SubFault::Closed => CLOSED,
            SubFault::NoLane => "E15 NoLane",
            _ => unreachable!(),
        })
    }
}
