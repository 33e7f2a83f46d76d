//! What the lines of a thread are run on.

use am_answers::PreparedConfig;
use am_provider::{Provider, Recorded};
use std::alloc::Global;

/// What the lines of a thread are run on: a provider, a configuration, which each thread makes ready for its own
/// questions, and the turns in which they are run.
#[derive(Drop)]
pub struct Context<'p, 'c, N: Recorded, R, T> {
    pub rt: &'p R,
    pub alloc: Global,
    pub provider: &'p Provider<N>,
    pub config: PreparedConfig<'c>,
    pub turns: &'p T,
}
