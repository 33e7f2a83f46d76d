//! What threads find their configuration in.

ghost use Rattle.std.specs.Prelude.{◌≡◌};

use am_config::Config;

/// A configuration, for functions that hand it to threads by their bound `Sync`. That threads may share a
/// `Config` is proved once, where `run_whole` hands its own on: its patterns are too large for the
/// checker to find it at each thread.
pub(crate) trait Configured {
    ghost use Rattle.am_config.specs.declared.config.Config.{Config};

    ghost shown: { Self → Config };

    fn config(&self) -> &Config
        ensures { result.now ≡ shown self.now };
}

impl Configured for Config {
    ghost shown = { λ config. config };

    fn config(&self) -> &Config {
        self
    }
}
