//! How large a script can be, how often a read or write is tried, and how many threads read a text.

/// How many bytes a line may have without its line feed.
pub const LONGEST_LINE: usize = 8_388_608;

/// How many lines a script may have.
pub const MOST_LINES: u32 = 65_536;

/// How many tries in a row an interrupted read or write gets: the first, and 1,000 more.
pub(crate) const TRIES: u32 = 1_001;

/// How many bytes a script's text has at least, if several threads are to read it.
pub(crate) const SHORTEST_IN_THREADS: usize = 262_144;

/// How many threads read a script's text at most.
pub(crate) const MOST_READERS: usize = 8;
