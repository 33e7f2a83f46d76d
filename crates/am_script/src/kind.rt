//! The kind of a subscription: what consumes its alerts.

ghost use Rattle.std.specs.Prelude.{◌≡◌};
ghost use Rattle.am_script.specs.Kinds.{is_dispatch, is_inhibit};

/// What consumes the alerts of a subscription.
#[derive(Clone, Copy, Debug, PartialEq, Eq)]
pub enum Kind {
    /// Nothing.
    Plain,
    /// A dispatcher.
    Dispatch,
    /// An inhibitor.
    Inhibit,
    /// A dispatcher and an inhibitor, which both take each alert.
    Notify,
}

impl Kind {
    /// Whether a dispatcher consumes the alerts.
    pub fn is_dispatch(self) -> bool
        ensures { result ≡ is_dispatch self }
    {
        match self {
            Kind::Dispatch | Kind::Notify => true,
            Kind::Plain | Kind::Inhibit => false,
        }
    }

    /// Whether an inhibitor consumes the alerts.
    pub fn is_inhibit(self) -> bool
        ensures { result ≡ is_inhibit self }
    {
        match self {
            Kind::Inhibit | Kind::Notify => true,
            Kind::Plain | Kind::Dispatch => false,
        }
    }
}
