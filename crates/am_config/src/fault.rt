//! Why a configuration is refused.

use crate::path::Path;
use std::alloc::{AllocError, AllocFailed};
use thiserror::Error;

/// Why a configuration was refused: the first fault, in the order of the checks.
#[derive(Debug, Drop, Error)]
#[non_exhaustive]
pub enum ConfigFault {
    #[error("there is no memory for a configuration")]
    NoMemory,
    #[error("{0}: no operator follows the label's name")]
    NoOperator(Path),
    /// A matcher's text begins with no name of the classic form.
    #[error("{0}: a matcher begins with a name of letters, digits and underscores")]
    BadName(Path),
    #[error("{0}: a quote is missing or out of place, or a comma is outside quotes")]
    BadQuote(Path),
    /// A matcher's value is no pattern that `regex` reads.
    #[error("{0}: the value is no regular expression")]
    BadPattern(Path),
    #[error("the configuration is no JSON")]
    NotJson,
    #[error("{0} is missing")]
    Missing(Path),
    /// `match`, `match_re` or a rule's member of that kind.
    #[error("{0} is of an older form: `matchers` says the same")]
    Deprecated(Path),
    #[error("the root route has matchers, though it matches every alert")]
    RootMatchers,
    #[error("a route is more than 32 levels deep, the root's level being 1")]
    TooDeep,
    #[error("the resolve timeout is no duration, or above 9,223,372,036,854 milliseconds")]
    BadDuration,
    #[error("{0} is of the wrong kind")]
    WrongKind(Path),
}

impl From<AllocError> for ConfigFault {
    ghost use Rattle.std.specs.Prelude.{◌≡◌};
    ghost use Rattle.am_config.specs.declared.fault.ConfigFault.TheVariants.{NoMemory};

    ghost from_gives = { λ _ fault. fault ≡ NoMemory };

    fn from(_error: AllocError) -> ConfigFault {
        ConfigFault::NoMemory
    }
}

impl<T: Drop> From<AllocFailed<T>> for ConfigFault {
    ghost use Rattle.std.specs.Prelude.{◌≡◌};
    ghost use Rattle.am_config.specs.declared.fault.ConfigFault.TheVariants.{NoMemory};

    ghost from_gives = { λ _ fault. fault ≡ NoMemory };

    fn from(_error: AllocFailed<T>) -> ConfigFault {
        ConfigFault::NoMemory
    }
}
