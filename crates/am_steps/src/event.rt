//! The atomic steps by name. What each does is in `state/apply.rt` and `lane.rt`; the table of all of
//! them is in `specs/Steps.antt`.

/// One atomic step. `N` is what names a batch. Lanes and posters go by their numbers, from 0.
#[derive(Debug, Drop)]
pub enum Event<N> {
    /// The writer stores the tail word: the log grows by a batch.
    Publish(N),
    /// The writer stores the tail word: no batch will come any more.
    Close,
    /// The writer loads a lane's word and records how far its cursor is.
    Harvest(usize),
    /// The writer stores a lane's word: the lane is given out, from the log's end on.
    Admit(usize),
    /// A lane loads its own word, and a cursor begins.
    Open(usize),
    /// A lane loads the tail word, and sees how long the log is and whether it is closed.
    Look(usize),
    /// A lane takes the key of its next place, by an exchange on its own word.
    Take(usize),
    /// A lane gives the key in its hand back, and has passed its place.
    Pass(usize),
    /// The writer cuts a lane that lags by as many batches as the log has places, by an exchange on the
    /// lane's word.
    Cut(usize),
    /// A lane stores the greatest `u64` in its own word.
    Leave(usize),
    /// The writer loads a lane's word and finds the greatest `u64`: the lane is idle again.
    Retire(usize),
    /// A poster loads the tail word. With a place and the name there, the post becomes its own.
    Note(usize, Option<(u64, N)>),
}
