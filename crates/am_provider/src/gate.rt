//! A hook that a post calls as soon as it has the lock.

/// A place where a post may be held up under the lock, for tests and for a replay in a given order.
pub trait Gate {
    /// Called once, as soon as the lock is taken.
    fn held<R>(&self, rt: &R);
}

/// Holds nobody up.
#[derive(Clone, Copy, Debug, Drop)]
pub struct NoGate;

impl Gate for NoGate {
    fn held<R>(&self, _rt: &R) {}
}
