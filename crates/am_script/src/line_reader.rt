//! Reading the command of a line. A line that is written as programs write it is read token by token, any other by
//! the value that its JSON is: its members, in their order.

ghost use Rattle.std.specs.Prelude.{IfOk, IfSome, IsUtf8, Ok};
ghost use Rattle.serde_json.specs.View.{view};
ghost use Rattle.am_script.specs.Commands.{command_for, command_of, page_of};
ghost use Rattle.am_script.specs.Commands.{IsCommandOf, IsLineFrom, IsLineOf, ReadsCommand};
ghost use Rattle.am_script.specs.inside.LineMembers.{IsObjectOf};

use crate::command::{Command, Line, LineFault, Verb};
use crate::line_members::LineMembers;
use crate::members::{
    from_at, given_moment_at, kind_at, labels_at, max_at, moment_at, name_at, take_member,
    thread_at, verb_at,
};
use crate::put_reader::alerts_at;
use am_labels::PairBuffer;
use am_posts::Body;
use json::Scratch;
use serde_json::Value;
use std::alloc::{AllocError, Global};
use std::fmt;

/// Reads lines one after another. The memory that reading one takes is kept for the next: 16 KiB, and as much as
/// the longest line has bytes.
#[derive(Drop)]
pub struct LineReader {
    alloc: Global,
    scratch: Scratch,
    // Names and values of the alert at hand.
    pairs: PairBuffer,
}

impl LineReader {
    /// It takes no memory of the allocator's yet.
    pub fn new(alloc: Global) -> LineReader {
        LineReader {
            alloc,
            scratch: Scratch::new(alloc),
            pairs: PairBuffer::new(alloc),
        }
    }

    /// The command of a line.
    pub fn read_line(&mut self, number: u32, bytes: &[u8]) -> Result<Line, LineFault>
        ensures { IsLineOf number bytes.now result }
    {
        match self.line_from_tokens(number, bytes)? {
            Some(line) => Ok(line),
            None => line_from_value(self.alloc, number, bytes),
        }
    }

    /// The command of a line, whichever thread it names or none.
    pub fn read_command(&mut self, bytes: &[u8]) -> Result<Command, LineFault>
        ensures { IsCommandOf bytes.now result }
    {
        match self.command_from_tokens(bytes)? {
            Some(command) => Ok(command),
            None => command_from_value(self.alloc, bytes),
        }
    }

    // A line that is written as programs write it. Of another it says nothing.
    fn line_from_tokens(&mut self, number: u32, bytes: &[u8]) -> Result<Option<Line>, AllocError>
        ensures { IfOk result (λ read. IfSome read (λ line. IsLineOf number bytes.now (Ok line))) }
    {
        match self.members_of(bytes)? {
            Some(mut members) => Ok(members.take_line(number)),
            None => Ok(None),
        }
    }

    // The same of its command.
    fn command_from_tokens(&mut self, bytes: &[u8]) -> Result<Option<Command>, AllocError>
        ensures { IfOk result (λ read. IfSome read (λ command. IsCommandOf bytes.now (Ok command))) }
    {
        match self.members_of(bytes)? {
            Some(mut members) => Ok(members.take_command()),
            None => Ok(None),
        }
    }

    fn members_of(&mut self, bytes: &[u8]) -> Result<Option<LineMembers>, AllocError>
        ensures { IfOk result (λ read. IfSome read (λ members. IsUtf8 bytes.now × IsObjectOf bytes.now members)) }
    {
        match str::from_utf8(bytes) {
            Ok(text) => LineMembers::read(self.alloc, text, &mut self.scratch, &mut self.pairs),
            Err(_) => Ok(None),
        }
    }
}

// A line by the value that its JSON is.
fn line_from_value(alloc: Global, number: u32, bytes: &[u8]) -> Result<Line, LineFault>
    ensures { IsLineOf number bytes.now result }
{
    match Value::from_slice(alloc, bytes) {
        Ok(value) => line_of(alloc, number, value),
        Err(error) if error.is_memory() => Err(LineFault::NoMemory),
        Err(_) => Err(LineFault::BadLine),
    }
}

#[tactic(auto, unfolding(crate::specs::Commands::line_of))]
fn line_of(alloc: Global, number: u32, value: Value) -> Result<Line, LineFault>
    ensures { IsLineFrom number (view value) result }
{
    let thread = thread_at(&value)?;
    let verb = verb_at(&value)?;
    let command = command_for(alloc, value, verb)?;
    Ok(Line {
        number,
        thread,
        command,
    })
}

// The same of its command.
fn command_from_value(alloc: Global, bytes: &[u8]) -> Result<Command, LineFault>
    ensures { IsCommandOf bytes.now result }
{
    match Value::from_slice(alloc, bytes) {
        Ok(value) => command_of(alloc, value),
        Err(error) if error.is_memory() => Err(LineFault::NoMemory),
        Err(_) => Err(LineFault::BadLine),
    }
}

#[tactic(auto, unfolding(crate::specs::Commands::command_of))]
fn command_of(alloc: Global, value: Value) -> Result<Command, LineFault>
    ensures { ReadsCommand (view value) result (λ body. command_of body (view value)) }
{
    let verb = verb_at(&value)?;
    command_for(alloc, value, verb)
}

fn command_for(alloc: Global, value: Value, verb: Verb) -> Result<Command, LineFault>
    ensures { ReadsCommand (view value) result
        (λ body. command_for body (view value) verb) }
{
    match verb {
        Verb::Post => post_of(alloc, value),
        Verb::Put => put_of(alloc, value),
        Verb::Subscribe => subscribe_of(alloc, &value),
        Verb::Read => read_of(alloc, &value),
        Verb::Leave => leave_of(alloc, &value),
        Verb::Collect => collect_of(&value),
        Verb::Take => take_of(&value),
        Verb::Close => Ok(Command::Close),
        Verb::Trim => Ok(Command::Trim),
        Verb::Compact => Ok(Command::Compact),
        Verb::Groups => groups_of(alloc, &value),
        Verb::Sweep => sweep_of(alloc, &value),
        Verb::Forget => forget_of(alloc, &value),
        Verb::Mutes => mutes_of(alloc, &value),
        Verb::Stored => stored_of(&value),
        Verb::Get => get_of(alloc, &value),
        Verb::Routes => Ok(Command::Routes),
        Verb::Route => route_of(alloc, &value),
    }
}

#[tactic(auto, unfolding(crate::specs::Commands::command_for))]
fn post_of(alloc: Global, value: Value) -> Result<Command, LineFault>
    ensures { ReadsCommand (view value) result
        (λ body. command_for body (view value) Verb.Post) }
{
    let at = moment_at(&value, "at")?;
    let Some(given) = take_member(value, "body") else {
        return Err(LineFault::BadLine);
    };
    let body = Body::of(alloc, given)?;
    Ok(Command::Post { at, body })
}

#[tactic(auto, unfolding(crate::specs::Commands::command_for))]
fn put_of(alloc: Global, value: Value) -> Result<Command, LineFault>
    ensures { ReadsCommand (view value) result
        (λ body. command_for body (view value) Verb.Put) }
{
    let at = moment_at(&value, "at")?;
    let alerts = alerts_at(alloc, value)?;
    Ok(Command::Put { at, alerts })
}

#[tactic(auto, unfolding(crate::specs::Commands::command_for))]
fn subscribe_of(alloc: Global, value: &Value) -> Result<Command, LineFault>
    ensures { ReadsCommand (view value.now) result
        (λ body. command_for body (view value.now) Verb.Subscribe) }
{
    let name = name_at(alloc, value)?;
    let kind = kind_at(value)?;
    Ok(Command::Subscribe { name, kind })
}

#[tactic(auto, unfolding(crate::specs::Commands::command_for))]
fn read_of(alloc: Global, value: &Value) -> Result<Command, LineFault>
    ensures { ReadsCommand (view value.now) result
        (λ body. command_for body (view value.now) Verb.Read) }
{
    let name = name_at(alloc, value)?;
    let max = max_at(value)?;
    Ok(Command::Read { name, max })
}

#[tactic(auto, unfolding(crate::specs::Commands::command_for))]
fn leave_of(alloc: Global, value: &Value) -> Result<Command, LineFault>
    ensures { ReadsCommand (view value.now) result
        (λ body. command_for body (view value.now) Verb.Leave) }
{
    let name = name_at(alloc, value)?;
    Ok(Command::Leave { name })
}

#[tactic(auto, unfolding(crate::specs::Commands::command_for))]
fn collect_of(value: &Value) -> Result<Command, LineFault>
    ensures { ReadsCommand (view value.now) result
        (λ body. command_for body (view value.now) Verb.Collect) }
{
    let at = moment_at(value, "at")?;
    Ok(Command::Collect { at })
}

#[tactic(auto, unfolding(crate::specs::Commands::command_for))]
fn take_of(value: &Value) -> Result<Command, LineFault>
    ensures { ReadsCommand (view value.now) result
        (λ body. command_for body (view value.now) Verb.Take) }
{
    let at = moment_at(value, "at")?;
    Ok(Command::Take { at })
}

#[tactic(auto, unfolding(crate::specs::Commands::command_for))]
fn groups_of(alloc: Global, value: &Value) -> Result<Command, LineFault>
    ensures { ReadsCommand (view value.now) result
        (λ body. command_for body (view value.now) Verb.Groups) }
{
    let name = name_at(alloc, value)?;
    let at = given_moment_at(value)?;
    Ok(Command::Groups { name, at })
}

#[tactic(auto, unfolding(crate::specs::Commands::command_for))]
fn sweep_of(alloc: Global, value: &Value) -> Result<Command, LineFault>
    ensures { ReadsCommand (view value.now) result
        (λ body. command_for body (view value.now) Verb.Sweep) }
{
    let name = name_at(alloc, value)?;
    let at = moment_at(value, "at")?;
    Ok(Command::Sweep { name, at })
}

#[tactic(auto, unfolding(crate::specs::Commands::command_for))]
fn forget_of(alloc: Global, value: &Value) -> Result<Command, LineFault>
    ensures { ReadsCommand (view value.now) result
        (λ body. command_for body (view value.now) Verb.Forget) }
{
    let name = name_at(alloc, value)?;
    let at = moment_at(value, "at")?;
    Ok(Command::Forget { name, at })
}

#[tactic(auto, unfolding(crate::specs::Commands::command_for))]
fn mutes_of(alloc: Global, value: &Value) -> Result<Command, LineFault>
    ensures { ReadsCommand (view value.now) result
        (λ body. command_for body (view value.now) Verb.Mutes) }
{
    let name = name_at(alloc, value)?;
    let at = moment_at(value, "at")?;
    let labels = labels_at(alloc, value)?;
    Ok(Command::Mutes { name, at, labels })
}

#[tactic(auto, unfolding(crate::specs::Commands::command_for))]
fn stored_of(value: &Value) -> Result<Command, LineFault>
    ensures { ReadsCommand (view value.now) result
        (λ body. command_for body (view value.now) Verb.Stored) }
{
    match value.get("max") {
        Some(_) => page_of(value),
        None => Ok(Command::Stored),
    }
}

// A page, if `max` is there.
fn page_of(value: &Value) -> Result<Command, LineFault>
    ensures { ReadsCommand (view value.now) result (λ body. page_of (view value.now)) }
{
    let from = from_at(value)?;
    let max = max_at(value)?;
    Ok(Command::StoredPage { from, max })
}

#[tactic(auto, unfolding(crate::specs::Commands::command_for))]
fn get_of(alloc: Global, value: &Value) -> Result<Command, LineFault>
    ensures { ReadsCommand (view value.now) result
        (λ body. command_for body (view value.now) Verb.Get) }
{
    let labels = labels_at(alloc, value)?;
    Ok(Command::Get { labels })
}

#[tactic(auto, unfolding(crate::specs::Commands::command_for))]
fn route_of(alloc: Global, value: &Value) -> Result<Command, LineFault>
    ensures { ReadsCommand (view value.now) result
        (λ body. command_for body (view value.now) Verb.Route) }
{
    let labels = labels_at(alloc, value)?;
    Ok(Command::Route { labels })
}

impl fmt::Debug for LineReader {
    fn fmt<W: fmt::Write>(&self, f: &mut fmt::Formatter<W>) -> fmt::Result {
        f.debug_struct("LineReader").finish_non_exhaustive()
    }
}
