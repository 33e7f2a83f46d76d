//! Laws of routes and groups that callers may cite.

ghost use Rattle.am_routes.specs.DispatchLaws.{GroupsGoOn, ListedAreNumbered, MatchedAreListed};
ghost use Rattle.am_routes.specs.DispatchLaws.{RoutesAnswerEach, RoutesAnswerOnce};

/// Routes have one answer for each label set, a tree's list has each of them under its number, and an
/// event changes groups by what they are alone.
pub fn dispatch_laws()
    ensures each { RoutesAnswerEach }
    ensures once { RoutesAnswerOnce }
    ensures numbers { ListedAreNumbered }
    ensures listed { MatchedAreListed }
    ensures groups { GroupsGoOn }
{}
