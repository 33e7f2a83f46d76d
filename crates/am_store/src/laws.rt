//! Laws over journals that callers may cite.

ghost use Rattle.am_store.specs.Laws.{BatchesAnswerPosts, LeavingEnds, OpenLanesAreOpen};
ghost use Rattle.am_store.specs.Laws.{EndedOwesNoMore, StaysFront, StaysOpen};
ghost use Rattle.am_store.specs.Laws.{StartsWithBase, StoredIsDistinct, StoredIsOfEach};
ghost use Rattle.am_store.specs.KeepingLaws.{TrimmedBetween, TrimmedToSo};
ghost use Rattle.am_store.specs.Laws.{OneTrim, TrimmedGivesTheSame, TrimmedGrows, TrimmedTwice};

/// A subscription stays open as calls come, until its lane is left; what begins what is due to it
/// still does, and nothing more is due once the log was ended. Each post with an alert sends out one
/// batch, with one alert for each of its own, of that alert's label set and in its order. The stored
/// list has of each label set what that label set's own reports and collections made of it, once.
pub fn journal_laws()
    ensures stays { StaysOpen }
    ensures lanes { OpenLanesAreOpen }
    ensures ended { LeavingEnds }
    ensures front { StaysFront }
    ensures quiet { EndedOwesNoMore }
    ensures batches { BatchesAnswerPosts }
    ensures of_each { StoredIsOfEach }
    ensures distinct { StoredIsDistinct }
{}

/// Nobody can tell a trimmed journal from the whole one: it gives the same stored list, the same
/// open lanes, the same calls may follow, and each subscription that may still be open is owed the
/// same. As both grow, and as it is trimmed again, it stays the whole one trimmed. How much a trim
/// drops is one number.
pub fn trimming_laws()
    ensures base { StartsWithBase }
    ensures same { TrimmedGivesTheSame }
    ensures grows { TrimmedGrows }
    ensures twice { TrimmedTwice }
    ensures one { OneTrim }
{}

/// Of two trims of one journal the longer is one of what the shorter left. A journal of calls has the trim to
/// any of them.
pub fn keeping_laws()
    ensures between { TrimmedBetween }
    ensures any { TrimmedToSo }
{}
