//! What one thread does: it runs its lines in their order, each in its turn.

ghost use Rattle.std.specs.Prelude.{◌≡◌, ◌<◌, ◌-◌, ◌^◌, false, List, [], IfOk, OnOk, length};
ghost use mathlib.Core.List.{IsPrefix};
ghost use Rattle.am_history.specs.Fronts.{FrontView};
ghost use Rattle.am_provider.specs.Callers.{IsNewCaller};
ghost use Rattle.am_provider.specs.Histories.{EntryView};
ghost use Rattle.am_runner.specs.Sessions.{LeavesAll, setting_of};
ghost use Rattle.am_runner.specs.Turning.{Ends, order_of};
ghost use Rattle.am_threads.specs.Working.{Adds, IsWork, RunsLine, Works};

use am_answers::Answer;
use am_history::Timeline;
use am_provider::{Caller, Recorded, Register, TurnsSeen};
use am_runner::{Context, Session, Turn, Turns};
use am_script::{Line, Thread};
use sinnoraku::Worked;
use std::alloc::AllocError;
use std::sync::Wait;

/// Runs a thread's own lines, and leaves the subscriptions that are still open then. Of the turns it has
/// seen at its end those that were taken before its last one, and that.
pub(crate) fn work<'p, 'c, N: Recorded, M: Timeline, R: Wait, T: Turns>(
    context: &mut Context<'p, 'c, N, R, T>,
    register: &Register<N, M>,
    lines: &[Line],
    thread: Thread,
    caller: Caller<N>,
) -> Worked<Result<Vec<Vec<Answer>>, AllocError>, N, M>
    requires new { IsNewCaller caller.pass caller.front }
    requires few { length lines.now < 2 ^ 64 - 8 }
    ensures { (turns : List (FrontView EntryView)) → IsPrefix result.seen.seen turns
        → IfOk result.outcome (λ given. IsWork context.old.config
        (setting_of N.places N.policy context.old.provider.now.resolve_timeout) (order_of T.ordered turns)
        lines.now thread given.items result.caller.pass result.caller.front) }
{
    let mut seen = register.onlooker(context.rt);
    let mut session = Session::begin(context.alloc, caller);
    let answers = run_lines(context, register, lines, thread, &mut seen, &mut session);
    let end = Turn {
        thread,
        at: lines.len() + thread.index(),
    };
    session.begin_turn(context, register, &end, &mut seen);
    let caller = end_session(context, register, &end, &mut seen, session);
    Worked {
        outcome: answers,
        caller,
        seen,
    }
}

// Leaves what is still open, and ends the turn.
fn end_session<'p, 'c, N: Recorded, M: Timeline, R: Wait, T: Turns>(
    context: &Context<'p, 'c, N, R, T>,
    register: &Register<N, M>,
    turn: &Turn,
    seen: &mut TurnsSeen<N, M>,
    session: Session<'p, 'c, N>,
) -> Caller<N>
    ensures { (left : FrontView EntryView)
        × LeavesAll session.entry (record { pass = result.pass; front = left; opened = [] })
        × Ends T.ordered turn.now.at seen.old.seen seen.new.seen left result.front }
{
    let mut caller = session.end(context);
    context.turns.end(
        context.rt,
        context.provider,
        register,
        turn,
        seen,
        &mut caller,
    );
    caller
}

// What each of the thread's own lines answers. If memory runs out, the turns of the following ones are
// begun and ended, but the lines aren't run.
fn run_lines<'p, 'c, N: Recorded, M: Timeline, R: Wait, T: Turns>(
    context: &mut Context<'p, 'c, N, R, T>,
    register: &Register<N, M>,
    lines: &[Line],
    thread: Thread,
    seen: &mut TurnsSeen<N, M>,
    session: &mut Session<'p, 'c, N>,
) -> Result<Vec<Vec<Answer>>, AllocError>
    ensures works { (turns : List (FrontView EntryView)) → IsPrefix seen.new.seen turns
        → IfOk result (λ answers. Works context.old.config
        (setting_of N.places N.policy context.old.provider.now.resolve_timeout) (order_of T.ordered turns) thread 0
        session.old lines.now answers.items session.new) }
    ensures same { context.new ≡ context.old }
{
    let mut answers = Vec::new(context.alloc);
    let mut failed = false;
    for (at, line) in lines.iter().enumerate() {
        if line.thread != thread {
            continue;
        }
        let turn = Turn { thread, at };
        let given = run_line(context, register, line, &turn, seen, session, failed);
        if add(&mut answers, given).is_err() {
            failed = true;
        }
    }
    if failed { Err(AllocError) } else { Ok(answers) }
}

// What a line answers in its turn. After a failure it isn't run.
fn run_line<'p, 'c, N: Recorded, M: Timeline, R: Wait, T: Turns>(
    context: &mut Context<'p, 'c, N, R, T>,
    register: &Register<N, M>,
    line: &Line,
    turn: &Turn,
    seen: &mut TurnsSeen<N, M>,
    session: &mut Session<'p, 'c, N>,
    failed: bool,
) -> Result<Vec<Answer>, AllocError>
    ensures ran { OnOk result (failed ≡ false) }
    ensures kept { IsPrefix seen.old.seen seen.new.seen }
    ensures does { (turns : List (FrontView EntryView)) → IsPrefix seen.new.seen turns
        → IfOk result (λ given. RunsLine context.old.config
        (setting_of N.places N.policy context.old.provider.now.resolve_timeout) (order_of T.ordered turns)
        turn.now.at line.now session.old given.items session.new) }
    ensures same { context.new ≡ context.old }
{
    session.begin_turn(context, register, turn, seen);
    let given = if failed {
        Err(AllocError)
    } else {
        session.run(context, &line.command)
    };
    session.end_turn(context, register, turn, seen);
    given
}

// Adds what a line answered.
fn add(
    answers: &mut Vec<Vec<Answer>>,
    given: Result<Vec<Answer>, AllocError>,
) -> Result<(), AllocError>
    ensures { OnOk result (Adds answers.old.items given answers.new.items) }
{
    answers.push(given?)?;
    Ok(())
}
