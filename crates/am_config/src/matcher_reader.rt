//! Reading the matchers of a route or a rule from their texts.

ghost use Rattle.std.specs.Prelude.{◌≡◌};
ghost use Rattle.am_config.specs.MatcherReadings.{matcher_at, matchers_of};
ghost use Rattle.am_config.specs.Paths.{item_path};
ghost use Rattle.am_config.specs.inside.MatchFaults.{fault_at};
ghost use Rattle.am_config.specs.Readings.{AllowsResult};

use crate::fault::ConfigFault;
use crate::path::Path;
use crate::texts::Texts;
use am_matchers::{MatchFault, Matcher, Matchers};
use std::alloc::Global;

/// The matchers of the texts, which are the elements of the array at a path.
pub(crate) fn read_matchers(
    alloc: Global,
    path: &Path,
    texts: &Texts,
) -> Result<Matchers, ConfigFault>
    ensures { AllowsResult (matchers_of path.now texts.now) result }
{
    let mut matchers = Vec::with_capacity(alloc, texts.as_slice().len())?;
    for (i, text) in texts.as_slice().iter().enumerate() {
        matchers.push(read_matcher(alloc, path, i, text.as_str())?)?;
    }
    Ok(Matchers::new(matchers))
}

fn read_matcher(alloc: Global, path: &Path, i: usize, text: &str) -> Result<Matcher, ConfigFault>
    ensures { AllowsResult (matcher_at (item_path path.now i) text.now) result }
{
    match Matcher::read(alloc, text) {
        Ok(matcher) => Ok(matcher),
        Err(fault) => Err(fault_at(fault, path.item(alloc, i)?)),
    }
}

// Why the text at a path is no matcher.
fn fault_at(fault: MatchFault, at: Path) -> ConfigFault
    ensures { result ≡ fault_at fault at }
{
    match fault {
        MatchFault::NoMemory => ConfigFault::NoMemory,
        MatchFault::NoOperator => ConfigFault::NoOperator(at),
        MatchFault::BadName => ConfigFault::BadName(at),
        MatchFault::BadQuote => ConfigFault::BadQuote(at),
        MatchFault::BadPattern => ConfigFault::BadPattern(at),
        _ => unreachable!(),
    }
}
