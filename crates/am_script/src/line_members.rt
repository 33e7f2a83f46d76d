//! The members of a line, read as its text is read, with no value of JSON between.
//!
//! It reads lines as programs write them. Of a line with a member of another name, or one whose member isn't what it
//! is read as, it answers nothing, and then the line is read as a value.

ghost use Rattle.std.specs.Prelude.{◌≡◌, ◌<◌, IfOk, IfSome, IsTrue, Ok, Some, length, option_and_then};
ghost use Rattle.serde_json.specs.Data.{Members, no_members, object, unsigned};
ghost use Rattle.serde_json.specs.Find.{as_number, as_str, as_u64};
ghost use Rattle.serde_json.specs.Read.{number_of};
ghost use Rattle.am_posts.specs.Tokens.{AreNextAlerts};
ghost use Rattle.am_alert.specs.TimeTexts.{time_of};
ghost use Rattle.am_script.specs.Commands.{IsLineFrom, ReadsCommand, command_of, unless_empty, verb_of, within};
ghost use Rattle.am_script.specs.inside.LineMembers.{AreAhead, AreMembersOfLine, IsNextValue, IsObjectOf, AddsMember};

use crate::command::{Command, Line, Verb};
use crate::kind::Kind;
use crate::members::verb_of;
use crate::put_alerts::PutAlerts;
use crate::thread::Thread;
use am_alert::{Moment, TimeFault, read_time};
use am_labels::{PairBuffer, Text};
use am_posts::{Body, UnjudgedAlert};
use json::{Reader, Scratch, Token};
use std::alloc::{AllocError, Global};

// How deep the arrays and objects in a line's members may nest: one level less than in a text.
const MEMBER_DEPTH: usize = 126;

/// What was read of a line's members. Of those of one name the last holds.
#[derive(Debug, Drop)]
pub(crate) struct LineMembers {
    verb: Option<Verb>,
    thread: Option<Thread>,
    at: Option<Moment>,
    name: Option<Text>,
    body: Option<Body>,
    alerts: Option<PutAlerts>,
}

impl LineMembers {
    fn new() -> LineMembers
        ensures { AreMembersOfLine result no_members }
    {
        LineMembers {
            verb: None,
            thread: None,
            at: None,
            name: None,
            body: None,
            alerts: None,
        }
    }

    /// Those of a text. The buffer is for names and values.
    pub(crate) fn read(
        alloc: Global,
        text: &str,
        scratch: &mut Scratch,
        pairs: &mut PairBuffer,
    ) -> Result<Option<LineMembers>, AllocError>
        ensures { IfOk result (λ read. IfSome read (IsObjectOf text.now)) }
    {
        let mut reader = Reader::new(text, scratch)?;
        let Some(Token::BeginObject) = reader.next() else {
            return Ok(None);
        };
        let Some(members) = read_members(alloc, &mut reader, pairs)? else {
            return Ok(None);
        };
        match reader.next() {
            None => Ok(Some(members)),
            Some(_) => Ok(None),
        }
    }

    // Whether a member is read.
    fn read_member(
        &mut self,
        alloc: Global,
        reader: &mut Reader<'_>,
        pairs: &mut PairBuffer,
        name: &str,
    ) -> Result<bool, AllocError>
        ensures read { IfOk result (λ read. IsTrue read
            → AddsMember MEMBER_DEPTH name.now reader.old reader.new self.old self.new) }
        ensures shorter { IfOk result (λ read. IsTrue read → length reader.new < length reader.old) }
    {
        match name {
            "do" => {
                self.verb = next_verb(reader);
                Ok(self.verb.is_some())
            }
            "thread" => {
                self.thread = next_thread(reader);
                Ok(self.thread.is_some())
            }
            "at" => {
                self.at = next_moment(reader)?;
                Ok(self.at.is_some())
            }
            "sub" => {
                self.name = next_name(alloc, reader)?;
                Ok(self.name.is_some())
            }
            "body" => {
                self.body = Body::read_next(alloc, reader, pairs, MEMBER_DEPTH)?;
                Ok(self.body.is_some())
            }
            "alerts" => {
                self.alerts = next_alerts(alloc, reader, pairs)?;
                Ok(self.alerts.is_some())
            }
            _ => Ok(false),
        }
    }

    /// The line of this number, taken out of its members, or that it isn't read here.
    pub(crate) fn take_line(&mut self, number: u32) -> Option<Line>
        ensures { IfSome result (λ line. (members : Members) → AreMembersOfLine self.old members
            → IsLineFrom number (object members) (Ok line)) }
    {
        let thread = self.thread?;
        let command = self.take_command()?;
        Some(Line {
            number,
            thread,
            command,
        })
    }

    /// The command, whichever thread is named or none, or that it isn't read here.
    pub(crate) fn take_command(&mut self) -> Option<Command>
        ensures { IfSome result (λ command. (members : Members) → AreMembersOfLine self.old members
            → ReadsCommand (object members) (Ok command) (λ body. command_of body (object members))) }
    {
        let verb = self.verb?;
        match verb {
            Verb::Post => Some(Command::Post {
                at: self.at?,
                body: self.body.take()?,
            }),
            Verb::Put => Some(Command::Put {
                at: self.at?,
                alerts: self.alerts.take()?,
            }),
            Verb::Collect => Some(Command::Collect { at: self.at? }),
            Verb::Take => Some(Command::Take { at: self.at? }),
            Verb::Close => Some(Command::Close),
            Verb::Trim => Some(Command::Trim),
            Verb::Compact => Some(Command::Compact),
            Verb::Stored => Some(Command::Stored),
            Verb::Routes => Some(Command::Routes),
            Verb::Subscribe | Verb::Read | Verb::Leave => self.take_named(verb),
            Verb::Sweep | Verb::Forget => self.take_dropping(verb),
            // These have members that aren't read here, or may lack one.
            Verb::Groups | Verb::Mutes | Verb::Get | Verb::Route => None,
        }
    }

    // The command of a verb that needs a subscription's name alone.
    fn take_named(&mut self, verb: Verb) -> Option<Command>
        ensures { IfSome result (λ command. (members : Members) → AreMembersOfLine self.old members
            → self.old.verb ≡ Some verb
            → ReadsCommand (object members) (Ok command) (λ body. command_of body (object members))) }
    {
        let name = self.name.take()?;
        match verb {
            Verb::Subscribe => Some(Command::Subscribe {
                name,
                kind: Kind::Plain,
            }),
            Verb::Read => Some(Command::Read { name, max: 1 }),
            Verb::Leave => Some(Command::Leave { name }),
            _ => None,
        }
    }

    // The command of a verb by which a consumer drops what is resolved.
    fn take_dropping(&mut self, verb: Verb) -> Option<Command>
        ensures { IfSome result (λ command. (members : Members) → AreMembersOfLine self.old members
            → self.old.verb ≡ Some verb
            → ReadsCommand (object members) (Ok command) (λ body. command_of body (object members))) }
    {
        let at = self.at?;
        let name = self.name.take()?;
        match verb {
            Verb::Sweep => Some(Command::Sweep { name, at }),
            Verb::Forget => Some(Command::Forget { name, at }),
            _ => None,
        }
    }
}

// The members up to the brace that closes their object.
fn read_members(
    alloc: Global,
    reader: &mut Reader<'_>,
    pairs: &mut PairBuffer,
) -> Result<Option<LineMembers>, AllocError>
    ensures { IfOk result (λ read. IfSome read (AreAhead MEMBER_DEPTH reader.old reader.new)) }
{
    let mut line = LineMembers::new();
    'members: loop {
        let Ok(key) = reader.next_key() else {
            return Ok(None);
        };
        let Some(name) = key else {
            return Ok(Some(line));
        };
        if !line.read_member(alloc, reader, pairs, name)? {
            return Ok(None);
        }
    }
}

// The verb that comes next, if it is one.
fn next_verb(reader: &mut Reader<'_>) -> Option<Verb>
    ensures read { IfSome result (IsNextValue (λ d. option_and_then verb_of (as_str d)) reader.old reader.new) }
    ensures shorter { IfSome result (λ _. length reader.new < length reader.old) }
{
    match reader.next() {
        Some(Token::String(word)) => verb_of(word),
        _ => None,
    }
}

// The thread that comes next, if it is one.
fn next_thread(reader: &mut Reader<'_>) -> Option<Thread>
    ensures read { IfSome result
        (IsNextValue (λ d. option_and_then (within 0 7) (option_and_then as_u64 (as_number d))) reader.old reader.new) }
    ensures shorter { IfSome result (λ _. length reader.new < length reader.old) }
{
    match reader.next() {
        Some(Token::Number(text)) => match digit_of(text) {
            Some(digit) if digit < 8 => Some(Thread::new(digit)),
            _ => None,
        },
        _ => None,
    }
}

// The digit that a number's text is.
fn digit_of(text: &str) -> Option<u32>
    ensures { IfSome result (λ digit. number_of text.now ≡ Some (unsigned digit)) }
{
    match text.as_bytes() {
        [byte] if byte.is_ascii_digit() => Some(u32::from(*byte - b'0')),
        _ => None,
    }
}

// The moment that comes next, if it is one and isn't absent.
fn next_moment(reader: &mut Reader<'_>) -> Result<Option<Moment>, AllocError>
    ensures read { IfOk result (λ read. IfSome read (IsNextValue
        (λ d. option_and_then (λ time. time) (option_and_then time_of (as_str d))) reader.old reader.new)) }
    ensures shorter { IfOk result (λ read. IfSome read (λ _. length reader.new < length reader.old)) }
{
    match reader.next() {
        Some(Token::String(text)) => match read_time(text) {
            Ok(moment) => Ok(moment),
            Err(TimeFault::NoMemory) => Err(AllocError),
            Err(_) => Ok(None),
        },
        _ => Ok(None),
    }
}

// The name that comes next, if it is a text and isn't empty.
fn next_name(alloc: Global, reader: &mut Reader<'_>) -> Result<Option<Text>, AllocError>
    ensures read { IfOk result (λ read. IfSome read
        (IsNextValue (λ d. option_and_then unless_empty (as_str d)) reader.old reader.new)) }
    ensures shorter { IfOk result (λ read. IfSome read (λ _. length reader.new < length reader.old)) }
{
    match reader.next() {
        Some(Token::String(text)) if !text.is_empty() => Ok(Some(Text::from_str(alloc, text)?)),
        _ => Ok(None),
    }
}

// The alerts of a put that come next, if they are written as `types.Alert` is.
fn next_alerts(
    alloc: Global,
    reader: &mut Reader<'_>,
    pairs: &mut PairBuffer,
) -> Result<Option<PutAlerts>, AllocError>
    ensures read { IfOk result (λ read. IfSome read (AreNextAlerts MEMBER_DEPTH reader.old reader.new)) }
    ensures shorter { IfOk result (λ read. IfSome read (λ _. length reader.new < length reader.old)) }
{
    match UnjudgedAlert::read_next(alloc, reader, pairs, MEMBER_DEPTH)? {
        Some(alerts) => Ok(Some(PutAlerts::new(alerts))),
        None => Ok(None),
    }
}
