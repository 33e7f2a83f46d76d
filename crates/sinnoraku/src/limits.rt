//! How large a provider is, and what it does about a slow reader.

ghost use Rattle.std.specs.Prelude.{◌≡◌, ◌≤◌};
ghost use Rattle.std.specs.Duration.{as_nanos};
ghost use Rattle.am_cast.specs.declared.limits.TheConstants.{MAX_PLACES};
ghost use Rattle.am_provider.specs.declared.parts.TheConstants.{MAX_POSTERS};
ghost use Rattle.am_provider.specs.declared.answers.Policy.TheVariants.{Refuse};
ghost use Rattle.sinnoraku.specs.declared.limits.TheConstants.{USUAL_PLACES};

use am_provider::Policy;
use std::time::Duration;

/// By how many batches a reader may lag, if nothing else is asked for. It may be asked for up to `MAX_PLACES`.
pub const USUAL_PLACES: u32 = 4_096;

/// How large a provider is, and what it does about a slow reader.
#[derive(Clone, Copy, Debug, Drop)]
pub struct Limits {
    /// By how many batches a reader may lag.
    pub places: u32,
    /// How many callers there are: one for each thread that posts or subscribes.
    pub callers: u32,
    /// What a post does about a reader that lags by as many batches as there are places.
    pub policy: Policy,
    /// How long a report without an end lasts.
    pub resolve_timeout: Duration,
    ghost places_fit: { (1 ≤ places) × (places ≤ MAX_PLACES) },
    ghost callers_fit: { (1 ≤ callers) × (callers ≤ MAX_POSTERS) },
}

impl Limits {
    /// As many callers, the usual places, and as Alertmanager has it: no reader is cut, and a report without an
    /// end lasts for five minutes.
    pub fn with_callers(callers: u32) -> Limits
        requires { (1 ≤ callers) × (callers ≤ MAX_POSTERS) }
        ensures callers { result.callers ≡ callers }
        ensures places { result.places ≡ USUAL_PLACES }
        ensures policy { result.policy ≡ Refuse }
        ensures timeout { as_nanos result.resolve_timeout ≡ 300_000_000_000 }
    {
        Limits {
            places: USUAL_PLACES,
            callers,
            policy: Policy::Refuse,
            resolve_timeout: Duration::from_secs(300),
        }
    }

    /// With as many places.
    pub fn places(self, places: u32) -> Limits
        requires { (1 ≤ places) × (places ≤ MAX_PLACES) }
        ensures places { result.places ≡ places }
        ensures same { (result.callers ≡ self.callers) × (result.policy ≡ self.policy)
            × (result.resolve_timeout ≡ self.resolve_timeout) }
    {
        let mut limits = self;
        limits.places = places;
        limits
    }

    /// With this policy.
    pub fn policy(self, policy: Policy) -> Limits
        ensures policy { result.policy ≡ policy }
        ensures same { (result.places ≡ self.places) × (result.callers ≡ self.callers)
            × (result.resolve_timeout ≡ self.resolve_timeout) }
    {
        let mut limits = self;
        limits.policy = policy;
        limits
    }

    /// With this timeout.
    pub fn resolve_timeout(self, resolve_timeout: Duration) -> Limits
        ensures timeout { result.resolve_timeout ≡ resolve_timeout }
        ensures same { (result.places ≡ self.places) × (result.callers ≡ self.callers)
            × (result.policy ≡ self.policy) }
    {
        let mut limits = self;
        limits.resolve_timeout = resolve_timeout;
        limits
    }
}
