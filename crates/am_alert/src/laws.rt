//! Laws of a post's limits and of merging that callers may cite.

ghost use Rattle.std.specs.Prelude.{◌≡◌};
ghost use Rattle.am_alert.specs.Laws.{MergingEndsAtAnEnd, MergingHasNoOrder, MergingStartsEarliest};
ghost use Rattle.am_alert.specs.Laws.{YoungerReportDecides, YoungerReportStays};

use crate::post::{MAX_ALERTS, MAX_BYTES};

/// The numbers of a post's limits.
pub fn limit_laws()
    ensures bytes { MAX_BYTES ≡ 4194304 }
    ensures alerts { MAX_ALERTS ≡ 1024 }
{}

/// Of two reports that are merged: the alert starts no later than either, and ends when one of them
/// ends. It is resolved exactly if the younger one is, and has all else from that one. In which
/// order they came doesn't matter if they were updated at different moments.
pub fn merging_laws()
    ensures start { MergingStartsEarliest }
    ensures end { MergingEndsAtAnEnd }
    ensures resolved { YoungerReportDecides }
    ensures rest { YoungerReportStays }
    ensures order { MergingHasNoOrder }
{}
