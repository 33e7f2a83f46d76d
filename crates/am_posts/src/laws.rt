//! Laws of reading a post that callers may cite.

ghost use Rattle.am_posts.specs.Bodies.{ElementsAreReadAsTheirText};
ghost use Rattle.am_posts.specs.Laws.{EachElementCounts, FaultsAreInOrder, ValidAlertsAreWellFormed};

/// Of a post that was read: its valid alerts are well formed and were updated at its moment. Its
/// invalid ones are listed in order. Each of its elements is one of these, once.
pub fn post_laws()
    ensures valid { ValidAlertsAreWellFormed }
    ensures faults { FaultsAreInOrder }
    ensures count { EachElementCounts }
{}

/// Elements that were read already make the post that the text of their array makes.
pub fn body_laws()
    ensures { ElementsAreReadAsTheirText }
{}
