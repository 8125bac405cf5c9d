//! A pacer whose first second comes at once, and the gate at which circuits wait for it.
ghost use Rattle.std.specs.Prelude.{◌≡◌, false};

use crate::pacing::{Gate, Pace, Pacer};
use std::sync::atomic::{AtomicBool, Ordering};
use std::thread;
use std::time::{Clock, Duration};

/// How often a circuit looks whether the gate is open: about a second in all.
const LOOKS: u32 = 100_000_000;

/// A gate at which circuits wait for the router's first second, so that it has issued its own LSPs before it hears older ones
/// (own). Where that second doesn't come within about a second they go on without it.
#[derive(Drop, Debug)]
pub struct FirstSecond {
    done: AtomicBool,
}

impl FirstSecond {
    /// A gate that is shut.
    pub fn new() -> FirstSecond {
        FirstSecond {
            done: AtomicBool::new(false),
        }
    }

    /// Opens the gate, for good.
    fn open(&self) {
        self.done.store(true, Ordering::SeqCst);
    }
}

impl Gate for FirstSecond {
    fn before(&self, _circuit: u8, turn: u64) {
        if turn != 1 {
            return;
        }
        for _ in 0..LOOKS {
            if self.done.load(Ordering::SeqCst) {
                return;
            }
        }
    }

    fn after(&self, _circuit: u8, _turn: u64) {}
}

/// A pacer that gives its first second at once, and sleeps a second before each further one. Asked for the second one it opens its
/// gate, since the first was done. Once its count stands at its last value it ends (own).
#[derive(Drop, Debug)]
pub struct PromptPacer<'a> {
    gate: &'a FirstSecond,
    given: u64,
    ended: bool,
}

impl<'a> PromptPacer<'a> {
    /// No second was given yet.
    pub fn new(gate: &'a FirstSecond) -> PromptPacer<'a>
        ensures given { ⟦<PromptPacer<'a> as Pacer>⟧.given result ≡ 0 }
        ensures ended { ⟦<PromptPacer<'a> as Pacer>⟧.ended result ≡ false }
    {
        PromptPacer {
            gate,
            given: 0,
            ended: false,
        }
    }
}

impl<'a> Pacer for PromptPacer<'a> {
    ghost given = { λ p. p.given };

    ghost ended = { λ p. p.ended };

    fn next<R: Clock>(&mut self, rt: &R) -> Pace {
        if self.ended || self.given == u64::MAX {
            self.ended = true;
            return Pace::End;
        }
        if self.given > 0 {
            self.gate.open();
            thread::sleep(rt, Duration::from_secs(1));
        }
        self.given += 1;
        Pace::Second
    }
}
