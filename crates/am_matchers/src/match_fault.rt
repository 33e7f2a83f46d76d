//! Why a text is no matcher.

use std::alloc::AllocError;
use thiserror::Error;

/// Why a text was not read as a matcher.
#[derive(Clone, Copy, Debug, PartialEq, Eq, Error)]
#[non_exhaustive]
pub enum MatchFault {
    #[error("there is no memory for a matcher")]
    NoMemory,
    #[error("no operator follows the label's name")]
    NoOperator,
    /// The text begins with no name of the classic form.
    #[error("a matcher begins with a name of letters, digits and underscores")]
    BadName,
    #[error("a quote is missing or out of place, or a comma is outside quotes")]
    BadQuote,
    /// The value isn't a pattern that `regex` accepts.
    #[error("the value is no regular expression")]
    BadPattern,
}

impl From<AllocError> for MatchFault {
    ghost use Rattle.std.specs.Prelude.{◌≡◌};
    ghost use Rattle.am_matchers.specs.declared.match_fault.MatchFault.TheVariants.{NoMemory};

    ghost from_gives = { λ _ fault. fault ≡ NoMemory };

    fn from(_error: AllocError) -> MatchFault {
        MatchFault::NoMemory
    }
}
