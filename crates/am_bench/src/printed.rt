//! What is printed of a run.

use std::alloc::Global;

/// What is printed of a run.
#[derive(Drop)]
pub(crate) struct Printed {
    /// What the run counted, for standard output.
    pub(crate) counts: String,
    /// What it measured itself, for standard error.
    pub(crate) nanoseconds: String,
}

impl Printed {
    pub(crate) fn new(alloc: Global) -> Printed {
        Printed {
            counts: String::new(alloc),
            nanoseconds: String::new(alloc),
        }
    }
}
