//! Reads that go on: in a run that follows, what comes for a subscription after its read was answered is
//! shown without another line.
//!
//! ```text
//! {"do":"read","sub":"s","max":100}    3 alerts and Pending: 97 may come
//! {"do":"put",..}                      its answers, and then what came for s
//! {"do":"put",..}                      the same
//! {"do":"read","sub":"s","max":100}    begins anew: 100 may come
//! ```

ghost use Rattle.std.specs.Prelude.{◌≡◌, ◌++◌, ◌-◌, ℕ, List, IfOk, OnOk, filter, length, string_bytes};
ghost use Rattle.am_answers.specs.Answers.{is_item};
ghost use Rattle.am_runner.specs.Sessions.{Does, setting_of};
ghost use Rattle.am_runner.specs.live.Standing.{ReadOn, ends_pending, index_of_read, others, left_to_read, stands_after};

use crate::context::Context;
use crate::session::Session;
use am_answers::{Answer, KnownAlerts, is_pending, write_came};
use am_labels::Text;
use am_provider::{Gate, Recorded};
use am_script::{Command, Form};
use std::alloc::AllocError;
use std::sync::Wait;

/// A read that goes on: of the subscription of this name, and how many alerts it may show yet.
#[derive(Debug, Drop)]
pub(crate) struct StandingRead {
    name: Text,
    left: u32,
}

/// Notes a command that was answered so, in a run that follows or not.
pub(crate) fn note(
    reads: &mut Vec<StandingRead>,
    follows: bool,
    command: &Command,
    given: &[Answer],
) -> Result<(), AllocError>
    ensures { OnOk result
        (reads.new.items ≡ stands_after follows command.now given.now reads.old.items) }
{
    match command {
        Command::Read { name, max } if follows => {
            keep_others(reads, name);
            add_rest(reads, name, *max, given)
        }
        Command::Leave { name } if follows => {
            keep_others(reads, name);
            Ok(())
        }
        _ => Ok(()),
    }
}

/// Reads on all of them, and writes what came after the line of this number, with these alerts known.
pub(crate) fn read_on<'p, 'c, N: Recorded, R: Wait, G: Gate>(
    context: &mut Context<'p, 'c, N, R, G>,
    session: &mut Session<'p, 'c, N>,
    reads: &mut Vec<StandingRead>,
    form: Form,
    number: u64,
    known: &KnownAlerts,
    text: &mut String,
) -> Result<(), AllocError>
    ensures read { OnOk result ((came : List ℕ) × (string_bytes text.new ≡ string_bytes text.old ++ came)
        × ReadOn context.old.config (setting_of N.places N.policy context.old.provider.now.resolve_timeout)
        form number known.now.entries session.old reads.old.items came reads.new.items session.new) }
    ensures same { context.new ≡ context.old }
{
    let mut left = Vec::new(context.alloc);
    for at in 0..reads.len() {
        let read = &reads[at];
        let given = read_more(context, session, read)?;
        write_came(text, form, number, &read.name, known, &given)?;
        add_rest(&mut left, &read.name, read.left, &given)?;
    }
    *reads = left;
    Ok(())
}

fn read_more<'p, 'c, N: Recorded, R: Wait, G: Gate>(
    context: &mut Context<'p, 'c, N, R, G>,
    session: &mut Session<'p, 'c, N>,
    read: &StandingRead,
) -> Result<Vec<Answer>, AllocError>
    ensures does { IfOk result (λ given. Does context.old.config
        (setting_of N.places N.policy context.old.provider.now.resolve_timeout)
        session.old (Command.Read read.now.name read.now.left) given.items session.new) }
    ensures same { context.new ≡ context.old }
{
    let command = Command::Read {
        name: read.name.copy()?,
        max: read.left,
    };
    session.run(context, &command)
}

fn keep_others(reads: &mut Vec<StandingRead>, name: &Text)
    ensures { reads.new.items ≡ others name.now reads.old.items }
{
    match index_of_read(reads, name) {
        Some(index) => drop(reads.remove(index)),
        None => {}
    }
}

// The index of the read of the subscription of a name.
fn index_of_read(reads: &[StandingRead], name: &Text) -> Option<usize>
    ensures { result ≡ index_of_read name.now reads.now }
{
    for index in 0..reads.len() {
        if reads[index].name == *name {
            return Some(index);
        }
    }
    None
}

// Adds what goes on of a read of at most `max` alerts that was answered so.
fn add_rest(
    reads: &mut Vec<StandingRead>,
    name: &Text,
    max: u32,
    given: &[Answer],
) -> Result<(), AllocError>
    ensures { OnOk result (reads.new.items ≡ reads.old.items ++ left_to_read name.now max given.now) }
{
    if !ends_pending(given) {
        return Ok(());
    }
    reads.push(StandingRead {
        name: name.copy()?,
        left: left_of(max, given),
    })?;
    Ok(())
}

// Whether there was nothing more for now.
fn ends_pending(given: &[Answer]) -> bool
    ensures { result ≡ ends_pending given.now }
{
    match given.last() {
        Some(last) => is_pending(last),
        None => false,
    }
}

// How many alerts are left of those that may be shown.
fn left_of(max: u32, given: &[Answer]) -> u32
    ensures { result ≡ max - length (filter is_item given.now) }
{
    let mut left = max;
    for at in 0..given.len() {
        if given[at].is_item() {
            left = left.saturating_sub(1);
        }
    }
    left
}
