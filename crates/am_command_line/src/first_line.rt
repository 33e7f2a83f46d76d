//! The first line of a script, which is its configuration.

ghost use Rattle.std.specs.Prelude.{IfOk};
ghost use Rattle.am_command_line.specs.FirstLines.{IsFirstLine};

use am_config::{Config, ConfigFault};
use am_script::{LONGEST_LINE, config_line};
use std::alloc::{AllocError, Global};

/// What the first line of a script is found to be.
#[derive(Debug, Drop)]
pub enum FirstLine {
    /// It is above a line's limit, and wasn't read.
    TooLong,
    Refused(ConfigFault),
    Read(Config),
}

impl FirstLine {
    pub fn read(alloc: Global, text: &[u8]) -> Result<FirstLine, AllocError>
        ensures { IfOk result (IsFirstLine text.now) }
    {
        let line = config_line(text);
        if line.len() > LONGEST_LINE {
            return Ok(FirstLine::TooLong);
        }
        match Config::read(alloc, line) {
            Ok(config) => Ok(FirstLine::Read(config)),
            Err(ConfigFault::NoMemory) => Err(AllocError),
            Err(fault) => Ok(FirstLine::Refused(fault)),
        }
    }
}
