//! Laws over a thread's work that callers may cite.

ghost use Rattle.am_threads.specs.Owed.{ReadIsDue, ReadsContinue};
ghost use Rattle.am_runner.specs.Turning.{TurnsFollow};

use am_provider::laws::history_laws;

/// What a line's read prints continues what its subscription had taken before, and nothing else is
/// taken. All that a thread's reads have taken begins what the provider's whole history owes the
/// subscription, if the thread ran to its end.
pub fn reading_laws()
    ensures items { ReadsContinue }
    ensures due { ReadIsDue }
{
    history_laws();
}

/// In script order, whatever was done in a turn was seen by the thread of each later one when that began.
pub fn turn_laws()
    ensures { TurnsFollow }
{}
