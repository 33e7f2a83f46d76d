//! How the answers to lines are printed: by one thread, or each half of the lines by threads of its own.
//!
//! These are functions over slices, and no methods of a struct that borrows them: of a closure that captures a struct with
//! a lifetime, as `|| part.text()`, `join` promises nothing, and of one that captures slices what it ensures.

ghost use Rattle.std.specs.Prelude.{◌≡◌, ◌++◌, ℕ, List, IfOk, length, string_bytes};
ghost use Rattle.std.specs.Thread.{IsSync};
ghost use Rattle.am_replay.specs.Printing.{given_at};
ghost use Rattle.am_replay.specs.inside.PartTexts.{CanCount, PrintsLines};

use crate::line_counts::LineCounts;
use am_answers::{Answer, write_answers};
use am_script::{Form, Line, Thread};
use std::alloc::{AllocError, Global};
use std::thread::{Threads, available_parallelism, join};

// How many lines there are at least, if several threads are to print them.
const FEWEST_IN_THREADS: usize = 4_096;

// How many threads print at most.
const MOST_WRITERS: usize = 8;

/// How many threads are to print this many lines: as many as there are processors, or one if the lines are few.
pub(crate) fn threads_to_print<R: Threads>(rt: &R, lines: usize) -> usize {
    if lines < FEWEST_IN_THREADS {
        return 1;
    }
    match available_parallelism(rt) {
        Ok(processors) => processors.get().min(MOST_WRITERS),
        Err(_) => 1,
    }
}

/// What each of some lines was answered, printed by this many threads. The lines that are counted come before these.
pub(crate) fn print_in_threads<R: Threads + Sync>(
    rt: &R,
    alloc: Global,
    threads: usize,
    form: Form,
    answers: &[Vec<Vec<Answer>>],
    before: LineCounts,
    lines: &[Line],
) -> Result<String, AllocError>
    requires { CanCount (length lines.now) before }
    ensures { IfOk result
        (λ text. PrintsLines form answers.now before lines.now (string_bytes text)) }
{
    if threads < 2 {
        return print(alloc, form, answers, before, lines);
    }
    let (front, back) = lines.split_at(lines.len() / 2);
    let mut middle = before;
    middle.add_all(front);
    let middle = middle;
    let others = threads / 2;
    let own = threads - others;
    let (text, rest) = join(
        rt,
        || -> Result<String, AllocError>
            requires { IsSync R.row × CanCount (length front.now) before }
            ensures { IfOk result
                (λ text. PrintsLines form answers.entry.now before front.entry.now (string_bytes text)) }
        { print_in_threads(rt, alloc, others, form, answers, before, front) },
        || -> Result<String, AllocError>
            requires { IsSync R.row × CanCount (length back.now) middle }
            ensures { IfOk result
                (λ text. PrintsLines form answers.entry.now middle back.entry.now (string_bytes text)) }
        { print_in_threads(rt, alloc, own, form, answers, middle, back) },
    );
    joined(text?, rest?)
}

fn print(
    alloc: Global,
    form: Form,
    answers: &[Vec<Vec<Answer>>],
    before: LineCounts,
    lines: &[Line],
) -> Result<String, AllocError>
    requires { CanCount (length lines.now) before }
    ensures { IfOk result
        (λ text. PrintsLines form answers.now before lines.now (string_bytes text)) }
{
    let mut text = String::new(alloc);
    let mut counted = before;
    for line in lines {
        let given = given_at(answers, line.thread, counted.of(line.thread));
        write_answers(&mut text, form, u64::from(line.number), given)?;
        counted.add(line);
    }
    Ok(text)
}

// One text after another.
fn joined(front: String, back: String) -> Result<String, AllocError>
    ensures { IfOk result (λ text. string_bytes text ≡ string_bytes front ++ string_bytes back) }
{
    let mut text = front;
    text.push_str(&back)?;
    Ok(text)
}

// What a thread answered to the line of its own at an index.
fn given_at(answers: &[Vec<Vec<Answer>>], thread: Thread, index: usize) -> &[Answer]
    ensures { result.now ≡ given_at answers.now thread index }
{
    match answers.get(thread.index()) {
        Some(all) => match all.get(index) {
            Some(given) => given.as_slice(),
            None => &[],
        },
        None => &[],
    }
}
