//! Times the parts of the provider: the log, the provider for threads and each of its calls, routes and groups,
//! and the inhibitor. The scripts of `bench/` run it.
//!
//!     am_bench log READERS BATCHES ITEMS PLACES YIELDS
//!     am_bench provider bytes|full|ready POSTERS READERS POSTS ALERTS LABELS COMPACT
//!     am_bench calls STORED
//!     am_bench routes matches|matches-into|takes ALERTS ROUNDS [WIDTH]
//!     am_bench inhibitor VALUES ROUNDS FIRST RESOLVED FIRING SWEEPS
//!     am_bench each
//!
//! The first word says what to time; `each` runs a small load of each. What is printed is a count that
//! the script checks, and the time is that of the whole run. `log`, `provider` and `calls` measure for
//! themselves: they print nanoseconds to standard error.
//!
//! The exit status is 1 for arguments that aren't of this form, and 3 if memory runs out.
#![tactic(auto)]

mod calls;
mod failure;
mod inhibitor;
mod log;
mod printed;
mod provider;
mod routes;
mod stopwatch;
mod words;

use crate::failure::Failure;
use crate::printed::Printed;
use std::alloc::Global;
use std::env;
use std::process::ExitCode;
use std::sync::Wait;
use std::thread::Threads;
use std::time::Clock;

/// What is timed.
#[derive(Clone, Copy, Debug, Drop)]
enum Work {
    Log(log::Load),
    Provider(provider::Load),
    Calls(calls::Load),
    Routes(routes::Load),
    Inhibitor(inhibitor::Load),
    /// A small load of each.
    Each,
}

impl Work {
    fn read(words: &[String]) -> Option<Work> {
        let (first, others) = words.split_first()?;
        match first.as_str() {
            "log" => Some(Work::Log(log::Load::read(others)?)),
            "provider" => Some(Work::Provider(provider::Load::read(others)?)),
            "calls" => Some(Work::Calls(calls::Load::read(others)?)),
            "routes" => Some(Work::Routes(routes::Load::read(others)?)),
            "inhibitor" => Some(Work::Inhibitor(inhibitor::Load::read(others)?)),
            "each" => Some(Work::Each),
            _ => None,
        }
    }
}

// The arguments, without the program's name.
fn words_given(rt: &HostRuntime) -> Result<Vec<String>, Failure> {
    let mut words = Vec::new(rt.alloc());
    let Ok(arguments) = env::args(rt) else {
        return Err(Failure::BadArguments);
    };
    for argument in arguments.skip(1) {
        words.push(argument)?;
    }
    Ok(words)
}

fn time_each<R: Threads + Wait + Clock + Sync>(
    rt: &R,
    alloc: Global,
    printed: &mut Printed,
) -> Result<(), Failure> {
    log::time(rt, alloc, log::Load::small(), printed)?;
    provider::time(rt, alloc, provider::Load::small(), printed)?;
    calls::time(rt, alloc, calls::Load::small(), printed)?;
    routes::time(alloc, routes::Load::small(), printed)?;
    inhibitor::time(alloc, inhibitor::Load::small(), printed)
}

fn time<R: Threads + Wait + Clock + Sync>(
    rt: &R,
    alloc: Global,
    work: Work,
    printed: &mut Printed,
) -> Result<(), Failure> {
    match work {
        Work::Log(load) => log::time(rt, alloc, load, printed),
        Work::Provider(load) => provider::time(rt, alloc, load, printed),
        Work::Calls(load) => calls::time(rt, alloc, load, printed),
        Work::Routes(load) => routes::time(alloc, load, printed),
        Work::Inhibitor(load) => inhibitor::time(alloc, load, printed),
        Work::Each => time_each(rt, alloc, printed),
    }
}

fn work_given(rt: &HostRuntime) -> Result<Work, Failure> {
    let words = words_given(rt)?;
    match Work::read(&words) {
        Some(work) => Ok(work),
        None => Err(Failure::BadArguments),
    }
}

fn main(rt: HostRuntime) -> ExitCode {
    let work = match work_given(&rt) {
        Ok(work) => work,
        Err(failure) => return ExitCode::from(failure.exit_status()),
    };
    let mut printed = Printed::new(rt.alloc());
    if let Err(failure) = time(&rt, rt.alloc(), work, &mut printed) {
        return ExitCode::from(failure.exit_status());
    }
    let _printed = print!(rt; "{}", printed.counts);
    let _printed = eprint!(rt; "{}", printed.nanoseconds);
    ExitCode::SUCCESS
}
