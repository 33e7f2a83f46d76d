//! What a run of the replay program begins with, and how it ends: the arguments of the command line, the configuration in
//! the first line of the input, what is printed of either if it is refused, and the status.
//!
//! This crate knows of no call of a provider.
#![tactic(auto)]

mod advice;
mod arguments;
mod config_code;
mod first_line;
mod refusals;
mod status;

pub use advice::fault_advice;
pub use arguments::{Arguments, ArgumentsFault, Mode};
pub use first_line::FirstLine;
pub use refusals::{FIRST_LINE_TOO_LARGE, advise, refused_config, refused_script};
pub use status::Status;
