//! The limits of a log. `laws::the_limits` has their numbers.

/// How many lanes a log has: one for each subscriber.
pub const LANES: usize = 8;

/// By how many batches a live lane may lag at most.
pub const MAX_PLACES: u64 = 65_536;

/// How many places a log has in all its time, at most. No word of its table overflows before.
pub const LONGEST_LOG: u64 = 2_251_799_813_685_248;

/// How many blocks of ended segments are kept for later ones, at most.
pub(crate) const MOST_SPARES: usize = 256;

/// How many words the table of a log has.
pub(crate) const WORDS: usize = 152;
