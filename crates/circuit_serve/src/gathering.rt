//! The jobs taken apart after they ran: ports, passes and ends.
ghost use Rattle.std.specs.Prelude.{◌≡◌, ◌≢◌, ◌+◌, ◌*◌, ◌<◌, ◌≤◌, ◌↔◌, ℕ, [], ◌∷◌, ◌++◌, length, vec_len, vec_capacity, slice_get, IfSome};
ghost use Rattle.daemon_edge.specs.Closings.{Opening};
ghost use Rattle.turn_lock.specs.Passes.{turns_left, label, own, seen};
ghost use Rattle.circuit_threads.specs.Sharing.{first_router, IsPassOf, HasAll};
ghost use Rattle.circuit_serve.specs.Labels.{of_label, by_label};
ghost use Rattle.circuit_serve.specs.Jobs.{IsOpened};
ghost use Rattle.circuit_serve.specs.Ends.{IsEnd, IsRun, Gathers};

use crate::adding::put;
use crate::end::{ServeEnd, end_of, first_end};
use crate::job::{Job, Task};
use crate::joining::join_labels;
use circuit_threads::{Behind, Journal, Pass, SharedRouter};
use daemon_edge::{Gate, Pacer, Port, Started};

/// Takes the next circuit's job apart: its pass is joined, and its port comes behind those before.
fn gather_one<'a, J: Journal + Drop, P: Port + Drop, T: Pacer + Drop, G: Gate>(
    shared: &SharedRouter<J>,
    pass: Pass<Behind<J>>,
    job: Job<'a, Behind<J>, SharedRouter<J>, P, T, G>,
    ports: Vec<P>,
    end: ServeEnd,
    turns: u64,
    started: Started,
) -> (Pass<Behind<J>>, Vec<P>, ServeEnd)
    requires lock { IsPassOf shared.now pass }
    requires room { vec_len ports < vec_capacity ports }
    requires job { IsRun P.given P.offered P.asked shared.now turns (length ports.items + 1)
        (started ≡ Started.All)
        job.task job.pass job.end }
    requires gathers { Gathers P.given P.offered P.asked turns ports.items pass
        (end ≡ ServeEnd.Done) }
    requires end { IsEnd (first_router shared.now) (seen pass) end }
    requires all { end ≡ ServeEnd.Done → started ≡ Started.All }
    ensures lock { IsPassOf shared.now result.0 × (label result.0 ≡ label pass) }
    ensures share { turns_left result.0 + length (own result.0)
        ≡ (turns_left pass + length (own pass)) + (turns + turns) }
    ensures ticker { by_label 0 (own result.0) (seen result.0) ≡ by_label 0 (own pass) (seen pass) }
    ensures count { length result.1.items ≡ length ports.items + 1 }
    ensures room { vec_capacity ports ≤ vec_capacity result.1 }
    ensures gathers { Gathers P.given P.offered P.asked turns result.1.items result.0
        (result.2 ≡ ServeEnd.Done) }
    ensures opened { (o : Opening) → IsOpened P.opening o job.entry.task → (port : P)
        × (result.1.items ≡ ports.items ++ port ∷ []) × (P.opening port ≡ o) }
    ensures whole { HasAll shared.now result.0
        → (c : ℕ) → of_label c (seen result.0) ≡ by_label c (own result.0) (seen result.0) }
    ensures end { IsEnd (first_router shared.now) (seen result.0) result.2 }
    ensures done { result.2 ≡ ServeEnd.Done → end ≡ ServeEnd.Done }
    ensures not_started { (result.2 ≡ ServeEnd.NotStarted) ↔ (end ≡ ServeEnd.NotStarted) }
{
    let Job {
        alloc: _,
        shared: _,
        gate: _,
        pass: its,
        task,
        turns: _,
        end: fault,
    } = job;
    let Some(its) = its else { unreachable!() };
    let Task::Circuit(_, port) = task else {
        unreachable!()
    };
    let joined = join_labels(shared, pass, its);
    let list = put(ports, port);
    let last = end_of(fault);
    let end = first_end(end, last);
    (joined, list, end)
}

/// Takes the jobs of the circuits 1, 2 and so on apart, and joins their passes to the first.
pub fn gather<'a, J: Journal + Drop, P: Port + Drop, T: Pacer + Drop, G: Gate>(
    shared: &SharedRouter<J>,
    pass: Pass<Behind<J>>,
    jobs: Vec<Job<'a, Behind<J>, SharedRouter<J>, P, T, G>>,
    ports: Vec<P>,
    end: ServeEnd,
    turns: u64,
    started: Started,
) -> (Pass<Behind<J>>, Vec<P>, ServeEnd)
    requires lock { IsPassOf shared.now pass }
    requires room { (ports.items ≡ []) × (vec_len jobs ≤ vec_capacity ports) }
    requires jobs { (i : ℕ)
        → IfSome (slice_get jobs.items i) (λ v. IsRun P.given P.offered P.asked shared.now turns
        (i + 1) (started ≡ Started.All) v.task v.pass v.end) }
    requires only { (d : ℕ) → 0 < d → by_label d (own pass) (seen pass) ≡ [] }
    requires end { IsEnd (first_router shared.now) (seen pass) end }
    requires all { end ≡ ServeEnd.Done → started ≡ Started.All }
    ensures lock { IsPassOf shared.now result.0 × (label result.0 ≡ label pass) }
    ensures share { turns_left result.0 + length (own result.0)
        ≡ (turns_left pass + length (own pass)) + length jobs.entry.items * (turns + turns) }
    ensures ticker { by_label 0 (own result.0) (seen result.0) ≡ by_label 0 (own pass) (seen pass) }
    ensures count { length result.1.items ≡ length jobs.entry.items }
    ensures gathers { Gathers P.given P.offered P.asked turns result.1.items result.0
        (result.2 ≡ ServeEnd.Done) }
    ensures opened { (opens : ℕ → Opening)
        → ((i : ℕ)
        → IfSome (slice_get jobs.entry.items i) (λ v. IsOpened P.opening (opens i) v.task))
        → (i : ℕ) → IfSome (slice_get result.1.items i) (λ p. P.opening p ≡ opens i) }
    ensures whole { 0 < length jobs.entry.items → HasAll shared.now result.0
        → (c : ℕ) → of_label c (seen result.0) ≡ by_label c (own result.0) (seen result.0) }
    ensures end { IsEnd (first_router shared.now) (seen result.0) result.2 }
    ensures done { result.2 ≡ ServeEnd.Done → end ≡ ServeEnd.Done }
    ensures not_started { (result.2 ≡ ServeEnd.NotStarted) ↔ (end ≡ ServeEnd.NotStarted) }
{
    let mut pass = pass;
    let mut list = ports;
    let mut worst = end;
    for job in jobs {
        let (joined, longer, last) = gather_one(shared, pass, job, list, worst, turns, started);
        pass = joined;
        list = longer;
        worst = last;
    }
    (pass, list, worst)
}
