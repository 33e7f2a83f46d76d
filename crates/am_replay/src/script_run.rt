//! A script's run: in the order of its lines, or as its threads reach them.

ghost use Rattle.std.specs.Prelude.{IfOk};
ghost use Rattle.am_runner.specs.Sessions.{setting_of};
ghost use Rattle.am_replay.specs.Replays.{runs_in_order};
ghost use Rattle.am_replay.specs.Runs.{IsRun};

use crate::transcript::Transcript;
use am_command_line::{Arguments, Mode};
use am_config::Config;
use am_provider::Settled;
use am_runner::Turns;
use am_script::Line;
use am_threads::{Freely, InOrder, LogLimits, RunFault, WholeRun, run_whole};
use std::alloc::Global;
use std::sync::Wait;
use std::thread::Threads;

/// What a script is run under, whatever its turns.
#[derive(Drop)]
pub struct Settings<'s, R> {
    pub rt: &'s R,
    pub alloc: Global,
    pub arguments: Arguments,
    pub config: &'s Config,
}

/// What a script's run answered, and what is left of its provider.
#[derive(Drop)]
pub struct Ran {
    pub transcript: Transcript,
    pub settled: Settled,
}

/// Runs the lines on a provider of their own, each in its thread.
pub fn run_script<R: Threads + Wait + Sync>(
    settings: &Settings<'_, R>,
    lines: Vec<Line>,
) -> Result<Ran, RunFault>
    ensures { IfOk result (λ ran. IsRun (runs_in_order settings.now.arguments.mode)
        settings.now.config.now (setting_of settings.now.arguments.places settings.now.arguments.full
        settings.now.config.now.resolve_timeout) lines.items ran.transcript ran.settled) }
{
    match settings.arguments.mode {
        Mode::Ordered => {
            let turns = InOrder::new(settings.alloc, &lines)?;
            run_in(settings, lines, &turns)
        }
        Mode::Free | Mode::Live | Mode::Follow => run_in(settings, lines, &Freely),
    }
}

// Runs the lines in their turns.
fn run_in<R: Threads + Wait + Sync, T: Turns + Sync>(
    settings: &Settings<'_, R>,
    lines: Vec<Line>,
    turns: &T,
) -> Result<Ran, RunFault>
    ensures { IfOk result (λ ran. IsRun T.ordered settings.now.config.now
        (setting_of settings.now.arguments.places settings.now.arguments.full
        settings.now.config.now.resolve_timeout) lines.items ran.transcript ran.settled) }
{
    let Settings {
        rt,
        alloc,
        arguments,
        config,
    } = *settings;
    let log = LogLimits::of(arguments.places, arguments.full);
    let WholeRun { answers, settled } = run_whole(rt, alloc, log, config, &lines, turns)?;
    let counts = settled.counts();
    let transcript = Transcript {
        lines,
        answers,
        counts,
    };
    Ok(Ran {
        transcript,
        settled,
    })
}
