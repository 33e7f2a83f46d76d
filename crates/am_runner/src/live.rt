//! An alert provider that is driven line by line: each line of the input is run and answered before the
//! next one is read, in one thread, with no end but the end of the input.
//!
//! A line is one JSON object, a command as in a script (docs/FORMATS.md); its `thread` isn't looked at. A
//! line that isn't one is refused, with its number and its fault, and the run goes on. So is a line above
//! the limit, of which at most the limit is ever in memory, and one that there is no memory to read or to
//! answer, unless something was done. Memory doesn't grow with the lines: the journal is compacted once
//! more was posted than half of what is stored.
//!
//! Who has lines of its own, and no reader, calls `answer_line` for each, and then `LiveRun::compact_if_due`.

mod answering;
mod live_run;
mod pace;
mod reading;
mod serving;
mod standing;

pub use answering::answer_line;
pub use live_run::LiveRun;
pub use reading::{InputLine, next_line};
pub use serving::{Serving, serve, serve_all};
