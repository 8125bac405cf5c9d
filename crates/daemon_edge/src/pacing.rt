//! A pacer, which gives the seconds, and a gate, which turns pass.
ghost use Rattle.std.specs.Prelude.{ℕ, Bool};
ghost use Rattle.daemon_edge.specs.Pacing.{Paces};

use std::time::Clock;

/// What a pacer answers.
#[derive(Clone, Copy, PartialEq, Eq, Debug)]
pub enum Pace {
    /// A second went by.
    Second,
    /// There are no more.
    End,
}

/// What gives the seconds of a router, one after another, until it ends (own).
pub trait Pacer {
    // The seconds given, and whether it has answered `End`.
    ghost given: { Self → ℕ };

    ghost ended: { Self → Bool };

    /// The next second. It may wait.
    fn next<R: Clock>(&mut self, rt: &R) -> Pace
        ensures { Paces (given self.old) (ended self.old) (given self.new)
            (ended self.new) result };
}

/// What each turn of a circuit passes before it begins and after it. It changes no answer (own).
pub trait Gate {
    /// Before a turn of a circuit, counted from 1.
    fn before(&self, circuit: u8, turn: u64);

    /// After it.
    fn after(&self, circuit: u8, turn: u64);
}

/// A gate that is always open: its calls do nothing.
#[derive(Drop, Debug)]
pub struct OpenGate;

impl OpenGate {
    pub fn new() -> OpenGate {
        OpenGate
    }
}

impl Gate for OpenGate {
    fn before(&self, _circuit: u8, _turn: u64) {}

    fn after(&self, _circuit: u8, _turn: u64) {}
}
