//! What a thread of `serve` works on: a circuit, or the seconds.
ghost use Rattle.std.specs.Prelude.{◌≡◌, ◌+◌, ◌≤◌, [], Some};
ghost use Rattle.std.specs.Option.{ForSome};
ghost use Rattle.turn_lock.specs.Passes.{own, seen};
ghost use Rattle.circuit_threads.specs.Sharing.{first_router, IsPassOf};
ghost use Rattle.circuit_serve.specs.Walks.{IsCalm};
ghost use Rattle.circuit_serve.specs.Jobs.{IsReady, JobRan, KeepsOpening};

use crate::ticking::tick;
use crate::working::work;
use circuit_threads::{Behind, Journal, Pass, SharedRouter, SubmitFault};
use daemon_edge::{Gate, Pacer, Port, Worker};
use std::alloc::Global;
use std::sync::Wait;
use std::time::Clock;
use turn_lock::Noted;

/// The seconds of a pacer, or a circuit with its number and port.
#[derive(Drop)]
pub enum Task<P, T> {
    Ticker(T),
    Circuit(u8, P),
}

/// A struct can't hold a pass of a value whose type has a bound of its own, so the value is a parameter here.
#[derive(Drop)]
pub struct Job<'a, V: Noted, Q, P, T, G> {
    pub alloc: Global,
    pub shared: &'a Q,
    pub gate: &'a G,
    pub pass: Option<Pass<V>>,
    pub task: Task<P, T>,
    pub turns: u64,
    pub end: Option<SubmitFault>,
}

impl<'a, J: Journal + Drop, P: Port, T: Pacer, G: Gate> Worker
    for Job<'a, Behind<J>, SharedRouter<J>, P, T, G> {
    ghost ready = { λ w. ForSome w.pass (λ p. IsPassOf w.shared.now p × (own p ≡ [])
        × IsReady P.given P.offered P.asked T.given T.ended
        (first_router w.shared.now) w.task w.turns p
        × IsCalm (first_router w.shared.now) (seen p)) };

    ghost works = { λ w v. KeepsOpening P.opening w.task v.task × ForSome w.pass (λ p.
        JobRan P.given P.offered P.asked T.given T.ended w.shared.now w.turns w.task p
        v.task v.pass v.end) };

    fn work<R: Wait + Clock>(&mut self, rt: &R) {
        let Some(pass) = self.pass.take() else {
            return;
        };
        let alloc = self.alloc;
        let shared = self.shared;
        let gate = self.gate;
        let turns = self.turns;
        match &mut self.task {
            Task::Ticker(pacer) => {
                let (pass, end) = tick(rt, shared, pass, pacer, turns);
                self.pass = Some(pass);
                self.end = end;
            }
            Task::Circuit(circuit, port) => {
                let (pass, end) = work(rt, alloc, shared, gate, pass, port, *circuit, turns);
                self.pass = Some(pass);
                self.end = end;
            }
        }
    }
}
