//! How many lines of each thread there are among some lines of a script.

ghost use Rattle.std.specs.Prelude.{◌≡◌, ◌<◌, ◌+◌, ◌++◌, ◌∷◌, ◌^◌, [], ℕ, List, get_or, length};
ghost use Rattle.am_script.specs.declared.command.Line.{Line};
ghost use Rattle.am_replay.specs.inside.PartTexts.{CanCount, CountsOwn};

use am_script::{Line, Thread};

/// How many lines of each thread there are among some lines.
#[derive(Clone, Copy, Drop)]
pub(crate) struct LineCounts {
    counts: [usize; 8],
}

impl LineCounts {
    /// Of no lines.
    pub(crate) fn none() -> LineCounts
        ensures counts { CountsOwn [] result }
        ensures room { (more : ℕ) → more < 2 ^ 64 → CanCount more result }
    {
        LineCounts { counts: [0; 8] }
    }

    /// How many are a thread's.
    pub(crate) fn of(&self, thread: Thread) -> usize
        ensures value { result ≡ get_or self.now.counts thread 0 }
        ensures thread { thread < 8 }
    {
        self.counts[thread.index()]
    }

    /// Counts a line more.
    pub(crate) fn add(&mut self, line: &Line)
        requires { CanCount 1 self.old }
        ensures counts { (before : List Line) → CountsOwn before self.old
            → CountsOwn (before ++ line.now ∷ []) self.new }
        ensures room { (more : ℕ) → CanCount (more + 1) self.old → CanCount more self.new }
    {
        self.counts[line.thread.index()] += 1;
    }

    /// Counts these lines too.
    pub(crate) fn add_all(&mut self, lines: &[Line])
        requires { CanCount (length lines.now) self.old }
        ensures counts { (before : List Line) → CountsOwn before self.old
            → CountsOwn (before ++ lines.now) self.new }
        ensures room { (more : ℕ) → CanCount (more + length lines.now) self.old → CanCount more self.new }
    {
        for line in lines {
            self.add(line);
        }
    }
}
