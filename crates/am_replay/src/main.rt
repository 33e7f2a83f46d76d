//! The replay program: runs a script of calls on an in-memory alert provider and prints each
//! answer.
//!
//! It reads and prints, and decides nothing about alerts.
#![tactic(auto)]

mod line_counts;
mod lines_text;
mod live;
mod program;
mod script_run;
mod transcript;

use crate::program::run;
use am_command_line::Status;
use am_script::write_text;
use std::env;
use std::io::ErrorKind;
use std::process::ExitCode;

// The arguments of the command line, without the program's name; or how the program ends where they
// can't be had. No contract knows what they really are.
fn given_arguments(rt: &HostRuntime) -> Result<Vec<String>, Status> {
    let mut arguments = Vec::new(rt.alloc());
    match env::args(rt) {
        Ok(args) => {
            for argument in args.skip(1) {
                if arguments.push(argument).is_err() {
                    return Err(Status::OutOfMemory);
                }
            }
            Ok(arguments)
        }
        // One of them isn't UTF-8.
        Err(error) if error.kind() == ErrorKind::InvalidData => Err(Status::BadArguments),
        Err(_) => Err(Status::OutOfMemory),
    }
}

fn main(rt: HostRuntime) -> ExitCode {
    let status = match given_arguments(&rt) {
        Ok(arguments) => run(
            &rt,
            &arguments,
            &mut rt.stdin(),
            &mut rt.stdout(),
            &mut rt.stderr(),
        ),
        Err(status) => status,
    };
    // If the error stream can't be written either, the exit status alone says it.
    let _told = write_text(&mut rt.stderr(), status.reason().as_bytes());
    ExitCode::from(status.exit_status())
}
