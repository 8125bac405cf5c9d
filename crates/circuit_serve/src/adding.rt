//! The jobs of a run: one for each circuit.
ghost use Rattle.std.specs.Prelude.{◌≡◌, ◌+◌, ◌*◌, ◌<◌, ◌≤◌, ℕ, [], ◌∷◌, ◌++◌, length, vec_len, vec_capacity, slice_get, IfSome};
ghost use Rattle.daemon_edge.specs.Closings.{Opening};
ghost use Rattle.daemon_edge.specs.Ports.{IsFresh};
ghost use Rattle.router_core.specs.Events.{IsThere};
ghost use Rattle.turn_lock.specs.Passes.{turns_left, label, splits, own, seen};
ghost use Rattle.circuit_threads.specs.Sharing.{first_router, IsPassOf};
ghost use Rattle.circuit_serve.specs.Ends.{IsNew};
ghost use Rattle.circuit_serve.specs.Jobs.{IsOpened};
ghost use Rattle.circuit_serve.specs.Walks.{IsCalm};

use crate::job::{Job, Task};
use circuit_threads::{Behind, Journal, Pass, SharedRouter};
use daemon_edge::{Gate, Pacer, Port};
use std::alloc::Global;

/// Adds an item, for which there is room.
pub(crate) fn put<X>(list: Vec<X>, item: X) -> Vec<X>
    requires { vec_len list < vec_capacity list }
    ensures items { result.items ≡ list.items ++ item ∷ [] }
    ensures capacity { vec_capacity list ≤ vec_capacity result }
{
    let mut list = list;
    match list.push(item) {
        Ok(()) => list,
        Err(_) => unreachable!(),
    }
}

/// The items before the last, and the last.
pub(crate) fn split_last<X>(list: Vec<X>) -> (Vec<X>, X)
    requires { 0 < vec_len list }
    ensures { list.items ≡ result.0.items ++ result.1 ∷ [] }
{
    let mut list = list;
    match list.pop() {
        Some(last) => (list, last),
        None => unreachable!(),
    }
}

/// A job for each port, of the circuits 1, 2 and so on, with a pass of its own.
pub(crate) fn add_jobs<'a, J: Journal + Drop, P: Port + Drop, T: Pacer, G: Gate>(
    alloc: Global,
    shared: &'a SharedRouter<J>,
    gate: &'a G,
    pass: Pass<Behind<J>>,
    ports: Vec<P>,
    jobs: Vec<Job<'a, Behind<J>, SharedRouter<J>, P, T, G>>,
    turns: u64,
) -> (
    Pass<Behind<J>>,
    Vec<Job<'a, Behind<J>, SharedRouter<J>, P, T, G>>,
)
    requires lock { IsPassOf shared.now pass × (label pass ≡ 0) × (splits pass ≡ 0)
        × (own pass ≡ []) }
    requires calm { IsCalm (first_router shared.now) (seen pass) }
    requires turns { turns ≤ 10000000000000 }
    requires left { length ports.items * (turns + turns) ≤ turns_left pass }
    requires room { (jobs.items ≡ []) × (vec_len ports ≤ vec_capacity jobs) }
    requires there { (length ports.items ≤ length (first_router shared.now).circuits)
        × (length ports.items ≤ 255) }
    requires fresh { (i : ℕ) → IfSome (slice_get ports.items i)
        (λ p. IsFresh (P.given p) (P.offered p) (P.asked p)) }
    ensures lock { IsPassOf shared.now result.0 × (label result.0 ≡ 0) × (own result.0 ≡ []) }
    ensures left { turns_left result.0 + length ports.items * (turns + turns) ≡ turns_left pass }
    ensures seen { seen result.0 ≡ seen pass }
    ensures jobs { (i : ℕ) → IfSome (slice_get result.1.items i) (λ w.
        IsNew P.given P.offered P.asked shared.now turns (i + 1) w.task w.pass w.end
        × (w.turns ≡ turns) × (w.shared.now ≡ shared.now)) }
    ensures opened { (opens : ℕ → Opening)
        → ((i : ℕ) → IfSome (slice_get ports.items i) (λ p. P.opening p ≡ opens i))
        → (i : ℕ) → IfSome (slice_get result.1.items i) (λ w. IsOpened P.opening (opens i) w.task) }
    ensures count { length result.1.items ≡ length ports.items }
    ensures room { vec_capacity jobs.entry ≤ vec_capacity result.1 }
{
    let mut pass = pass;
    let mut list = jobs;
    let mut circuit: u8 = 0;
    for port in ports {
        circuit += 1;
        let (rest, job) = new_job(alloc, shared, gate, pass, port, circuit, turns);
        pass = rest;
        list = put(list, job);
    }
    (pass, list)
}

/// The job of a circuit, with a pass of its own, and the pass that it was split off.
fn new_job<'a, J: Journal + Drop, P: Port + Drop, T: Pacer, G: Gate>(
    alloc: Global,
    shared: &'a SharedRouter<J>,
    gate: &'a G,
    pass: Pass<Behind<J>>,
    port: P,
    circuit: u8,
    turns: u64,
) -> (
    Pass<Behind<J>>,
    Job<'a, Behind<J>, SharedRouter<J>, P, T, G>,
)
    requires lock { IsPassOf shared.now pass × (label pass ≡ 0) × (splits pass + 1 ≡ circuit)
        × (own pass ≡ []) }
    requires calm { IsCalm (first_router shared.now) (seen pass) }
    requires turns { turns ≤ 10000000000000 }
    requires left { turns + turns ≤ turns_left pass }
    requires there { IsThere (first_router shared.now) circuit }
    requires fresh { IsFresh (P.given port) (P.offered port) (P.asked port) }
    ensures lock { IsPassOf shared.now result.0 × (label result.0 ≡ 0)
        × (splits result.0 ≡ circuit) × (own result.0 ≡ []) }
    ensures left { turns_left result.0 + (turns + turns) ≡ turns_left pass }
    ensures seen { seen result.0 ≡ seen pass }
    ensures job { IsNew P.given P.offered P.asked shared.now turns circuit result.1.task
        result.1.pass result.1.end × (result.1.turns ≡ turns) × (result.1.shared.now ≡ shared.now) }
    ensures opened { IsOpened P.opening (P.opening port) result.1.task }
{
    let (rest, its) = shared.split(pass, turns + turns);
    let job = Job {
        alloc,
        shared,
        gate,
        pass: Some(its),
        task: Task::Circuit(circuit, port),
        turns,
        end: None,
    };
    (rest, job)
}
