//! The replay program's scripts: reading one from any reader, what its text says, and writing the
//! output to any writer.
//!
//! The first line is the configuration, which am_config reads. Each later line is one JSON object,
//! one command of one thread. A script is checked whole: the limits of its lines, then each line's
//! members, then whether its subscription exists and has the kind that the command needs. The first
//! fault in the order of lines refuses it. `read_script_in_threads` reads the lines of a long text in
//! several threads, and answers the same.
//!
//! Reading ends at the input's end, or at the first excess over a limit, so that no input takes more
//! memory than a script may. A failed write has written a prefix of the text. An interrupted read or
//! write is tried again, up to 1,000 times in a row.
//!
//! <!-- from crates/am_runner_tests/src/scripts.rt -->
//! ```rust
//! fn is_read_whole(alloc: Global, input: &[u8]) -> std::result::Result<bool, WorkFault> {
//!     let text = read_input(alloc, &mut odd_reader(input))?;
//!     Ok(text.as_slice() == input)
//! }
//! ```
//!
//! This crate knows alerts' moments and no provider: what a command does is in am_runner.
#![tactic(auto)]

mod advice;
mod command;
mod form;
mod input;
mod json_line;
mod kind;
pub mod laws;
mod limits;
mod line_counter;
mod line_feed;
mod line_members;
mod line_reader;
mod members;
mod names;
mod output;
mod part;
mod put_alerts;
mod put_reader;
mod script;
mod thread;
mod work_fault;

pub use advice::{config_advice, script_advice};
pub use command::{Command, GivenMoment, Line, LineFault, Verb};
pub use form::Form;
pub use input::{CHUNK, read_input};
pub use json_line::{JsonLine, write_fault};
pub use kind::Kind;
pub use limits::{LONGEST_LINE, MOST_LINES};
pub use line_reader::LineReader;
pub use output::write_text;
pub use put_alerts::PutAlerts;
pub use script::{Fault, Refusal, ScriptFault, config_line, read_script, read_script_in_threads};
pub use thread::{THREADS, Thread};
pub use work_fault::WorkFault;
