//! Laws over histories that callers may cite.

ghost use Rattle.am_provider.specs.Owing.{BeginningIsKnown, ClosedOwesNoMore, PendingOwesNothing, StaysFrontOfDue};

/// What a subscription has taken begins what was due to it when it was given back. So it is the first alerts
/// of what is due to it after the whole history, and its ending says how many. If it answered `Closed`, it
/// has taken all of that. One that says `Pending`, of a log that was looked at before, has taken all that was
/// due then.
pub fn history_laws()
    ensures front { StaysFrontOfDue }
    ensures known { BeginningIsKnown }
    ensures closed { ClosedOwesNoMore }
    ensures pending { PendingOwesNothing }
{}
