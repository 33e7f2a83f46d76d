//! A script's run on a provider of its own, from the provider's beginning to its end.

ghost use Rattle.std.specs.Prelude.{◌≡◌, ◌≤◌, ◌<◌, ◌-◌, ◌^◌, IfOk, Ok, length, map};
ghost use Rattle.am_cast.specs.declared.limits.TheConstants.{MAX_PLACES};
ghost use Rattle.am_runner.specs.Sessions.{setting_of};
ghost use Rattle.am_threads.specs.WholeRuns.{IsWholeRun};

use crate::configured::Configured;
use crate::work::work;
use am_answers::{Answer, PreparedConfig};
use am_config::Config;
use am_history::Timeline;
use am_provider::{Caller, Policy, Provider, Recorded, Register, Settled};
use am_runner::{Context, Turns};
use am_script::{Line, THREADS, Thread};
use sinnoraku::{Crew, Limits, RunFault, Worked, run_crew};
use std::alloc::{AllocError, Global};
use std::fmt;
use std::sync::Wait;
use std::thread::Threads;

/// How large a provider's log is, and what a post does where it is full.
#[derive(Clone, Copy, Debug, Drop)]
pub struct LogLimits {
    /// By how many batches a subscriber may lag.
    pub places: u32,
    pub policy: Policy,
    ghost places_fit: { (1 ≤ places) × (places ≤ MAX_PLACES) },
}

impl LogLimits {
    pub fn of(places: u32, policy: Policy) -> LogLimits
        requires { (1 ≤ places) × (places ≤ MAX_PLACES) }
        ensures { (result.places ≡ places) × (result.policy ≡ policy) }
    {
        LogLimits { places, policy }
    }
}

/// What the threads answered, and what is left of their provider.
#[derive(Drop)]
pub struct WholeRun {
    /// What each thread answered to each of its own lines.
    pub answers: Vec<Vec<Vec<Answer>>>,
    pub settled: Settled,
}

impl fmt::Debug for WholeRun {
    fn fmt<W: fmt::Write>(&self, f: &mut fmt::Formatter<W>) -> fmt::Result {
        f.debug_struct("WholeRun").finish_non_exhaustive()
    }
}

// The threads of a script: each runs its own lines.
#[derive(Drop)]
struct Script<'s, C, T> {
    alloc: Global,
    config: &'s C,
    lines: &'s [Line],
    turns: &'s T,
    // A line's number and eight more fit.
    ghost few: { length lines.now < 2 ^ 64 - 8 },
}

impl<'s, C: Configured, T: Turns, R: Wait> Crew<R> for Script<'s, C, T> {
    ghost use Rattle.std.specs.Prelude.{◌≡◌, IfOk};
    ghost use Rattle.am_runner.specs.Sessions.{setting_of};
    ghost use Rattle.am_runner.specs.Turning.{order_of};
    ghost use Rattle.am_threads.specs.Working.{IsWork};

    /// What each of the thread's own lines answered.
    type Outcome = Result<Vec<Vec<Answer>>, AllocError>;

    ghost fits = { λ _ limits. limits.callers ≡ 8 };

    ghost comes_to = { λ script limits turns thread pass front answers. IfOk answers (λ given.
        IsWork (C.shown script.config.now) (setting_of limits.places limits.policy limits.resolve_timeout)
        (order_of T.ordered turns) script.lines.now thread given.items pass front) };

    fn work<'p, N: Recorded, M: Timeline>(
        &self,
        rt: &'p R,
        _limits: Limits,
        provider: &'p Provider<N>,
        register: &Register<N, M>,
        index: usize,
        caller: Caller<N>,
    ) -> Worked<Result<Vec<Vec<Answer>>, AllocError>, N, M> {
        let mut context = Context {
            rt,
            alloc: self.alloc,
            provider,
            config: PreparedConfig::new(self.config.config()),
            turns: self.turns,
        };
        let thread = Thread::new(index as u32);
        work(&mut context, register, self.lines, thread, caller)
    }
}

/// Runs the lines on a new provider, each in its thread, and settles it. A report without an end lasts as long as the
/// configuration says.
pub fn run_whole<R: Threads + Wait + Sync, T: Turns + Sync>(
    rt: &R,
    alloc: Global,
    log: LogLimits,
    config: &Config,
    lines: &[Line],
    turns: &T,
) -> Result<WholeRun, RunFault>
    ensures { IfOk result (λ run. IsWholeRun T.ordered config.now
        (setting_of log.places log.policy config.now.resolve_timeout) lines.now run.answers.items run.settled) }
{
    if lines.len() >= usize::MAX - 7 {
        // No memory has `usize::MAX - 7` lines.
        return Err(RunFault::NoMemory);
    }
    let limits = Limits::with_callers(THREADS)
        .places(log.places)
        .policy(log.policy)
        .resolve_timeout(config.resolve_timeout);
    run_configured::<Config, R, T>(rt, alloc, limits, config, lines, turns)
}

// The same under these limits.
fn run_configured<C: Configured + Sync, R: Threads + Wait + Sync, T: Turns + Sync>(
    rt: &R,
    alloc: Global,
    limits: Limits,
    config: &C,
    lines: &[Line],
    turns: &T,
) -> Result<WholeRun, RunFault>
    requires callers { limits.callers ≡ 8 }
    requires few { length lines.now < 2 ^ 64 - 8 }
    ensures { IfOk result (λ run. IsWholeRun T.ordered (C.shown config.now)
        (setting_of limits.places limits.policy limits.resolve_timeout) lines.now run.answers.items run.settled) }
{
    let script = Script {
        alloc,
        config,
        lines,
        turns,
    };
    let (outcomes, settled) = run_crew(rt, alloc, limits, &script)?;
    let answers = all_answers(alloc, outcomes)?;
    Ok(WholeRun { answers, settled })
}

// What the threads answered, if each had the memory for it.
fn all_answers(
    alloc: Global,
    outcomes: Vec<Result<Vec<Vec<Answer>>, AllocError>>,
) -> Result<Vec<Vec<Vec<Answer>>>, AllocError>
    ensures { IfOk result (λ all. outcomes.items ≡ map Ok all.items) }
{
    let mut all = Vec::new(alloc);
    for given in outcomes {
        all.push(given?)?;
    }
    Ok(all)
}
