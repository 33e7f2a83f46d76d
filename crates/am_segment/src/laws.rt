//! When keys are all the keys of a segment.

ghost use Rattle.am_segment.specs.Segments.{OrderedAreAll};

/// Keys of one segment whose numbers count up from 0 to their own count are all of its keys.
pub fn keys_in_order_are_all<T>()
    ensures { OrderedAreAll T }
{}
