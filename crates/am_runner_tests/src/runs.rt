//! A script's run from its text: read, run in eight threads, and settled.

use am_answers::{Answer, write_answers};
use am_config::{Config, ConfigFault};
use am_provider::{Counts, Ended, Settled};
use am_runner::Turns;
use am_script::{Form, Line, ScriptFault, config_line, read_script};
use am_store::Call;
use am_threads::{InOrder, LogLimits, RunFault, WholeRun, run_whole};
use std::alloc::{AllocError, AllocFailed, Global};
use std::sync::Wait;
use std::thread::Threads;

/// Why a run gave nothing.
#[derive(Clone, Copy, Debug, Drop)]
pub enum Stopped {
    NoMemory,
    /// The script isn't one.
    NoScript,
    /// The system started no more threads.
    NoThread,
}

impl From<AllocError> for Stopped {
    fn from(_error: AllocError) -> Stopped {
        Stopped::NoMemory
    }
}

impl<T: Drop> From<AllocFailed<T>> for Stopped {
    fn from(_error: AllocFailed<T>) -> Stopped {
        Stopped::NoMemory
    }
}

impl From<RunFault> for Stopped {
    fn from(why: RunFault) -> Stopped {
        match why {
            RunFault::NoThread => Stopped::NoThread,
            _ => Stopped::NoMemory,
        }
    }
}

impl From<ConfigFault> for Stopped {
    fn from(fault: ConfigFault) -> Stopped {
        match fault {
            ConfigFault::NoMemory => Stopped::NoMemory,
            _ => Stopped::NoScript,
        }
    }
}

impl From<ScriptFault> for Stopped {
    fn from(fault: ScriptFault) -> Stopped {
        match fault {
            ScriptFault::Refused(_) => Stopped::NoScript,
            _ => Stopped::NoMemory,
        }
    }
}

// What each thread answered to each of its own lines.
type Answers = Vec<Vec<Vec<Answer>>>;

/// What a script's lines answered, and what is left of their provider.
#[derive(Drop)]
pub struct Run {
    lines: Vec<Line>,
    threads: Answers,
    settled: Settled,
}

impl Run {
    // What a thread answered to the line of its own at an index.
    fn answers(&self, thread: usize, at: usize) -> Option<&[Answer]> {
        let lines = self.threads.get(thread)?;
        Some(lines.get(at)?.as_slice())
    }

    /// All answers, as they are printed; then the journal, a line for each call, the endings of the
    /// subscriptions that were left, and how much there is.
    pub fn printed(&self, alloc: Global) -> Result<String, AllocError> {
        let mut text = String::new(alloc);
        // How many lines of each thread are written.
        let mut written = [0usize; 8];
        for line in &self.lines {
            let thread = line.thread.index();
            if let Some(answers) = self.answers(thread, written[thread]) {
                write_answers(&mut text, Form::Text, u64::from(line.number), answers)?;
            }
            written[thread] = written[thread].wrapping_add(1);
        }
        write_settled(&mut text, &self.settled)?;
        Ok(text)
    }
}

fn write_settled(text: &mut String, settled: &Settled) -> Result<(), AllocError> {
    let before = settled.journal.before;
    writeln!(text, "before {before}")?;
    for call in &settled.journal.calls {
        write_call(text, call)?;
    }
    for ended in &settled.ended {
        write_ended(text, *ended)?;
    }
    write_end(text, settled)
}

fn write_call(text: &mut String, call: &Call) -> Result<(), AllocError> {
    match call {
        Call::Posted { now, alerts } => {
            let count = alerts.as_slice().len();
            writeln!(text, "posted {now} {count}")
        }
        Call::Collected(now) => writeln!(text, "collected {now}"),
        Call::Subscribed(lane) => writeln!(text, "subscribed {lane}"),
        Call::Left(lane) => writeln!(text, "left {lane}"),
        Call::Closed => writeln!(text, "closed"),
    }
}

fn write_ended(text: &mut String, ended: Ended) -> Result<(), AllocError> {
    let Ended {
        at,
        taken,
        closed,
        cut,
    } = ended;
    let told = if closed { " closed" } else { "" };
    let was_cut = if cut { " cut" } else { "" };
    writeln!(text, "ended at {at} taken {taken}{told}{was_cut}")
}

fn write_end(text: &mut String, settled: &Settled) -> Result<(), AllocError> {
    let Counts {
        places,
        posts,
        stored,
    } = settled.counts();
    let early = settled.early;
    let complete = settled.complete;
    writeln!(
        text,
        "early {early} places {places} posts {posts} stored {stored} complete {complete}"
    )
}

/// Runs a script, one line after another.
pub fn run_in_order<R: Threads + Wait + Sync>(
    rt: &R,
    alloc: Global,
    log: LogLimits,
    text: &str,
) -> Result<Run, Stopped> {
    let lines = read_script(alloc, text.as_bytes())?;
    let turns = InOrder::new(alloc, &lines)?;
    run_lines(rt, alloc, log, text, lines, &turns)
}

/// Runs the lines of a script, in the turns that are passed. A call that was out of memory spoils them.
pub fn run_lines<R: Threads + Wait + Sync, T: Turns + Sync>(
    rt: &R,
    alloc: Global,
    log: LogLimits,
    text: &str,
    lines: Vec<Line>,
    turns: &T,
) -> Result<Run, Stopped> {
    let config = Config::read(alloc, config_line(text.as_bytes()))?;
    let WholeRun { answers, settled } = run_whole(rt, alloc, log, &config, &lines, turns)?;
    if answers.iter().any(is_out_of_memory) {
        return Err(Stopped::NoMemory);
    }
    Ok(Run {
        lines,
        threads: answers,
        settled,
    })
}

// Whether one of a thread's calls was out of memory.
fn is_out_of_memory(lines: &Vec<Vec<Answer>>) -> bool {
    lines.iter().any(|answers| answers.iter().any(|answer| answer.is_out_of_memory()))
}
