//! No order at all.

use am_history::Timeline;
use am_provider::{Caller, Gate, Provider, Recorded, Register, TurnsSeen};
use am_runner::{Turn, Turns};
use std::sync::Wait;

/// Each thread runs its lines as fast as it reaches them.
#[derive(Clone, Copy, Debug, Drop)]
pub struct Freely;

impl Gate for Freely {
    fn held<R>(&self, _rt: &R) {}
}

impl Turns for Freely {
    ghost use Rattle.std.specs.Prelude.{false};

    ghost ordered = { false };

    fn begin<N: Recorded, M: Timeline, R: Wait>(
        &self,
        _rt: &R,
        _provider: &Provider<N>,
        _register: &Register<N, M>,
        _turn: &Turn,
        _seen: &mut TurnsSeen<N, M>,
        _caller: &mut Caller<N>,
    ) {}

    fn end<N: Recorded, M: Timeline, R: Wait>(
        &self,
        _rt: &R,
        _provider: &Provider<N>,
        _register: &Register<N, M>,
        _turn: &Turn,
        _seen: &mut TurnsSeen<N, M>,
        _caller: &mut Caller<N>,
    ) {}
}
