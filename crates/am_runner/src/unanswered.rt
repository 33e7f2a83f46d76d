//! Which commands lose nothing where there is no memory for their answer.

ghost use Rattle.std.specs.Prelude.{◌≡◌};
ghost use Rattle.am_runner.specs.Unanswered.{is_question, loses_nothing};

use am_script::Command;

/// Whether a command only asks: what is lost with its answer can be asked again.
pub(crate) fn is_question(command: &Command) -> bool
    ensures { result ≡ is_question command.now }
{
    matches!(
        command,
        Command::Groups { .. }
            | Command::Mutes { .. }
            | Command::Stored
            | Command::StoredPage { .. }
            | Command::Get { .. }
            | Command::Routes
            | Command::Route { .. }
    )
}

/// Whether nothing is lost with the answer of a command: it only asks, or there was room for its answer before it
/// was done. Of the others the answer may be lost after they were done.
pub(crate) fn loses_nothing(command: &Command) -> bool
    ensures { result ≡ loses_nothing command.now }
{
    !matches!(
        command,
        Command::Post { .. } | Command::Put { .. } | Command::Read { .. } | Command::Take { .. }
    )
}
