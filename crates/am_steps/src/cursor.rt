//! What one reader knows: how far it is and what it has got. Its lane decides what it may do.
use crate::batch_names::BatchNames;

/// What the reader of an open lane has passed and seen, and what it has answered.
#[derive(Debug, Drop)]
pub struct Cursor<N> {
    /// The number of places before it: the place at which it is.
    pub passed: u64,
    /// Whether the key of that place is in its hand.
    pub held: bool,
    /// The log's length at its last look, or at first its start.
    pub seen: u64,
    /// Whether its last look showed the log closed. Places may be left all the same.
    pub told: bool,
    /// Whether it knows that its lane was cut.
    pub told_cut: bool,
    /// The names of the places that it has passed, from its start on.
    pub got: BatchNames<N>,
}
