//! Laws of muting that callers may cite.

ghost use Rattle.am_inhibit.specs.InhibitionLaws.{LastAlertsDecide, LastAlertsGoOn};
ghost use Rattle.am_inhibit.specs.InhibitionLaws.{NoAlertMutesItself, KeptAreLast, KeptAlertsGoOn};
ghost use Rattle.am_inhibit.specs.InhibitionLaws.{KeptAlertsAreHeld, SweepKeepsAnswers};
ghost use Rattle.am_inhibit.specs.InhibitionLaws.{SweepKeepsNoneResolved, SweepKeepsRules};
ghost use Rattle.am_inhibit.specs.InhibitionLaws.{SweepSparesResolved};

/// The last alerts change by what they are alone and decide who is muted. No alert mutes itself.
pub fn inhibition_laws()
    ensures last_alerts { LastAlertsGoOn }
    ensures decide { LastAlertsDecide }
    ensures itself { NoAlertMutesItself }
{}

/// The alerts that an inhibitor keeps are those of its list of takes and sweeps.
pub fn kept_laws()
    ensures last { KeptAreLast }
    ensures go_on { KeptAlertsGoOn }
    ensures held { KeptAlertsAreHeld }
{}

/// A sweep removes what is resolved, and no more. It changes no answer at its moment or later, except
/// which source of a rule is named once a label set that it removed is taken again.
pub fn sweep_laws()
    ensures resolved { SweepKeepsNoneResolved }
    ensures answers { SweepKeepsAnswers }
    ensures rules { SweepKeepsRules }
    ensures looked { SweepSparesResolved }
{}
