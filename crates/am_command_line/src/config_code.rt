//! Refusals of a configuration as the program prints them: a code, a word, and the path of what is wrong. The
//! sentences that people read are the errors' own.

ghost use Rattle.std.specs.Prelude.{Some};
ghost use Rattle.am_command_line.specs.ConfigCodes.{config_code};

use am_config::ConfigFault;
use std::fmt;

/// The code of a configuration that was refused.
#[derive(Drop)]
pub(crate) struct ConfigCode<'a>(pub &'a ConfigFault);

impl fmt::Display for ConfigCode<'_> {
    ghost output = { λ code. Some (config_code code.0.now) };

    fn fmt<W: fmt::Write>(&self, f: &mut fmt::Formatter<W>) -> fmt::Result {
        match self.0 {
            ConfigFault::NoMemory => f.write_str("E0 NoMemory"),
            ConfigFault::NoOperator(path) => write!(f, "E1 NoOperator {path}"),
            ConfigFault::BadName(path) => write!(f, "E2 BadName {path}"),
            ConfigFault::BadQuote(path) => write!(f, "E3 BadQuote {path}"),
            ConfigFault::BadPattern(path) => write!(f, "E4 BadPattern {path}"),
            ConfigFault::NotJson => f.write_str("E5 NotJson"),
            ConfigFault::Missing(path) => write!(f, "E17 Missing {path}"),
            ConfigFault::Deprecated(path) => write!(f, "E18 Deprecated {path}"),
            ConfigFault::RootMatchers => f.write_str("E19 RootMatchers"),
            ConfigFault::TooDeep => f.write_str("E20 TooDeep"),
            ConfigFault::BadDuration => f.write_str("E21 BadDuration"),
            ConfigFault::WrongKind(path) => write!(f, "E22 WrongKind {path}"),
            _ => unreachable!(),
        }
    }
}
