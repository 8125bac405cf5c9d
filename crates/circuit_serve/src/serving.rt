//! `serve`: a worker for each circuit and a ticker, in threads, over one shared router.
ghost use Rattle.std.specs.Prelude.{◌≡◌, ◌≢◌, ◌+◌, ◌-◌, ◌*◌, ◌<◌, ◌≤◌, ◌↔◌, ℕ, [], length, vec_capacity, slice_get, None, Some, IfSome};
ghost use Rattle.isis_edge.specs.Faults.{Rose};
ghost use Rattle.turn_lock.specs.Passes.{turns_left, label, splits, own, seen};
ghost use Rattle.circuit_threads.specs.Sharing.{first_router, all_turns, IsPassOf, HasAll};
ghost use Rattle.daemon_edge.specs.Closings.{Opening};
ghost use Rattle.daemon_edge.specs.Ports.{IsFresh};
ghost use Rattle.daemon_edge.specs.Workers.{WasRefused};
ghost use Rattle.circuit_serve.specs.Ends.{IsEnd, IsRun, TickerIs, Gathers};
ghost use Rattle.circuit_serve.specs.Jobs.{IsOpened, IsTicker};
ghost use Rattle.circuit_serve.specs.Labels.{of_label, by_label};
ghost use Rattle.circuit_serve.specs.Served.{Served, TickerRan, circuit_turns};

use crate::adding::{add_jobs, put, split_last};
use crate::end::{ServeEnd, end_of, end_of_start, first_end};
use crate::gathering::gather;
use crate::job::{Job, Task};
use circuit_threads::{Behind, Journal, Pass, SharedRouter, SubmitFault};
use daemon_edge::{Gate, Pacer, Port, Spawner, Started, run_all};
use std::alloc::Global;
use std::sync::Wait;
use std::thread::Threads;
use std::time::Clock;

/// Runs a router that is shared: a worker for each circuit, whose port stands at the circuit's place in the list, and
/// a ticker. The ticker submits a second for each that the pacer gives, up to `turns`. The worker of a circuit makes
/// 10 * `turns` turns: it passes the gate, takes a datagram from its port and submits it, submits a pull, and offers
/// what either sends. Each stops at its first refusal. The pass is the shared router's first one, with all of its
/// turns; what comes back has the label 0 and all that is left, joined of all. Of several ends the first in the order
/// of `ServeEnd` is answered, `Done` last. It waits until all have ended.
pub fn serve<
    J: Journal + Drop + Send,
    P: Port + Drop + Send,
    S: Spawner,
    T: Pacer + Drop + Send,
    G: Gate + Sync,
    R: Threads + Wait + Clock + Sync,
>(
    rt: &R,
    alloc: Global,
    shared: &SharedRouter<J>,
    pass: Pass<Behind<J>>,
    ports: Vec<P>,
    spawner: &mut S,
    pacer: T,
    gate: &G,
    turns: u64,
) -> (Pass<Behind<J>>, Vec<P>, T, ServeEnd)
    requires lock { IsPassOf shared.now pass × (turns_left pass ≡ all_turns shared.now) }
    requires first { (label pass ≡ 0) × (splits pass ≡ 0) × (own pass ≡ []) × (seen pass ≡ []) }
    requires turns { (1 ≤ turns) × (turns ≤ 1000000000000) }
    requires circuits { (length ports.items ≡ length (first_router shared.now).circuits)
        × (1 ≤ length ports.items) × (length ports.items ≤ 64) }
    requires left { turns + length ports.items * (20 * turns) ≤ turns_left pass }
    requires fresh { (i : ℕ) → IfSome (slice_get ports.items i)
        (λ p. IsFresh (P.given p) (P.offered p) (P.asked p)) }
    ensures served { Served P.opening P.given P.offered P.asked shared.now turns ports.items
        result.1.items (T.given pacer) (T.given result.2) (T.ended result.2) pass result.0 result.3 }
    ensures later { S.faults spawner.old ≤ S.faults spawner.new }
    ensures not_started { result.3 ≡ ServeEnd.NotStarted
        → Rose (S.faults spawner.old) (S.faults spawner.new) }
    ensures refused { (result.3 ≡ ServeEnd.NotStarted)
        ↔ WasRefused (S.answers spawner.old) (S.answers spawner.new) }
{
    let count = ports.len();
    let Ok(jobs) = Vec::with_capacity(alloc, count + 1) else {
        return (pass, ports, pacer, ServeEnd::OutOfMemory);
    };
    let Ok(back) = Vec::with_capacity(alloc, count) else {
        return (pass, ports, pacer, ServeEnd::OutOfMemory);
    };
    let (jobs, started) = start(
        rt, alloc, shared, pass, ports, jobs, spawner, pacer, gate, turns,
    );
    finish(shared, jobs, back, started, turns)
}

/// Runs the jobs of the circuits, and the ticker's behind them.
fn start<
    'a,
    J: Journal + Drop + Send,
    P: Port + Drop + Send,
    S: Spawner,
    T: Pacer + Drop + Send,
    G: Gate + Sync,
    R: Threads + Wait + Clock + Sync,
>(
    rt: &R,
    alloc: Global,
    shared: &'a SharedRouter<J>,
    pass: Pass<Behind<J>>,
    ports: Vec<P>,
    jobs: Vec<Job<'a, Behind<J>, SharedRouter<J>, P, T, G>>,
    spawner: &mut S,
    pacer: T,
    gate: &'a G,
    turns: u64,
) -> (Vec<Job<'a, Behind<J>, SharedRouter<J>, P, T, G>>, Started)
    requires lock { IsPassOf shared.now pass }
    requires first { (label pass ≡ 0) × (splits pass ≡ 0) × (own pass ≡ []) × (seen pass ≡ []) }
    requires turns { turns ≤ 1000000000000 }
    requires circuits { (length ports.items ≡ length (first_router shared.now).circuits)
        × (length ports.items ≤ 64) }
    requires left { turns + length ports.items * (20 * turns) ≤ turns_left pass }
    requires fresh { (i : ℕ) → IfSome (slice_get ports.items i)
        (λ p. IsFresh (P.given p) (P.offered p) (P.asked p)) }
    requires room { (jobs.items ≡ []) × (length ports.items + 1 ≤ vec_capacity jobs) }
    ensures count { length result.0.items ≡ length ports.items + 1 }
    ensures jobs { (i : ℕ) → IfSome (slice_get result.0.items i) (λ v. i + 1 < length result.0.items
        → IsRun P.given P.offered P.asked shared.now (circuit_turns turns) (i + 1)
        (result.1 ≡ Started.All)
        v.task v.pass v.end) }
    ensures ticker { (i : ℕ)
        → IfSome (slice_get result.0.items i) (λ v. i + 1 ≡ length result.0.items
        → TickerRan T.given T.ended shared.now
        (turns_left pass - length ports.items * (circuit_turns turns + circuit_turns turns))
        (T.given pacer) turns (result.1 ≡ Started.All) v.task v.pass v.end) }
    ensures opened { (opens : ℕ → Opening)
        → ((i : ℕ) → IfSome (slice_get ports.items i) (λ p. P.opening p ≡ opens i))
        → (i : ℕ) → IfSome (slice_get result.0.items i) (λ v. i + 1 < length result.0.items
        → IsOpened P.opening (opens i) v.task) }
    ensures later { S.faults spawner.old ≤ S.faults spawner.new }
    ensures refused { result.1 ≡ Started.Refused
        → Rose (S.faults spawner.old) (S.faults spawner.new) }
    ensures answers { (result.1 ≡ Started.Refused)
        ↔ WasRefused (S.answers spawner.old) (S.answers spawner.new) }
{
    let takes = 10 * turns;
    let (rest, jobs) = add_jobs(alloc, shared, gate, pass, ports, jobs, takes);
    let ticker = Job {
        alloc,
        shared,
        gate,
        pass: Some(rest),
        task: Task::Ticker(pacer),
        turns,
        end: None,
    };
    let jobs = put(jobs, ticker);
    run_all(rt, alloc, spawner, jobs)
}

/// Takes the jobs apart after they ran, the ticker's first.
fn finish<'a, J: Journal + Drop, P: Port + Drop, T: Pacer + Drop, G: Gate>(
    shared: &SharedRouter<J>,
    jobs: Vec<Job<'a, Behind<J>, SharedRouter<J>, P, T, G>>,
    back: Vec<P>,
    started: Started,
    turns: u64,
) -> (Pass<Behind<J>>, Vec<P>, T, ServeEnd)
    requires turns { turns ≤ 1000000000000 }
    requires room { (back.items ≡ []) × (length jobs.items ≤ vec_capacity back + 1) }
    requires some { 2 ≤ length jobs.items }
    requires jobs { (i : ℕ) → IfSome (slice_get jobs.items i) (λ v. i + 1 < length jobs.items
        → IsRun P.given P.offered P.asked shared.now (circuit_turns turns) (i + 1)
        (started ≡ Started.All)
        v.task v.pass v.end) }
    requires ticker { (share before : ℕ)
        × ((i : ℕ) → IfSome (slice_get jobs.items i) (λ v. i + 1 ≡ length jobs.items
        → TickerRan T.given T.ended shared.now share before turns (started ≡ Started.All)
        v.task v.pass v.end)) }
    ensures lock { IsPassOf shared.now result.0 × (label result.0 ≡ 0) }
    ensures done { (result.3 ≡ ServeEnd.Done → started ≡ Started.All)
        × ((result.3 ≡ ServeEnd.NotStarted) ↔ (started ≡ Started.Refused)) }
    ensures end { IsEnd (first_router shared.now) (seen result.0) result.3 }
    ensures ran { (share before : ℕ)
        → ((i : ℕ) → IfSome (slice_get jobs.entry.items i) (λ v. i + 1 ≡ length jobs.entry.items
        → TickerRan T.given T.ended shared.now share before turns (started ≡ Started.All)
        v.task v.pass v.end))
        → (turns_left result.0 + length (own result.0) + (circuit_turns turns + circuit_turns turns)
        ≡ share + length jobs.entry.items * (circuit_turns turns + circuit_turns turns))
        × TickerIs (by_label 0 (own result.0) (seen result.0)) before (T.given result.2)
        (T.ended result.2) turns
        (result.3 ≡ ServeEnd.Done) }
    ensures count { length result.1.items + 1 ≡ length jobs.entry.items }
    ensures gathers { Gathers P.given P.offered P.asked
        (circuit_turns turns) result.1.items result.0
        (result.3 ≡ ServeEnd.Done) }
    ensures opened { (opens : ℕ → Opening)
        → ((i : ℕ) → IfSome (slice_get jobs.entry.items i) (λ v. i + 1 < length jobs.entry.items
        → IsOpened P.opening (opens i) v.task))
        → (i : ℕ) → IfSome (slice_get result.1.items i) (λ p. P.opening p ≡ opens i) }
    ensures whole { HasAll shared.now result.0
        → (c : ℕ) → of_label c (seen result.0) ≡ by_label c (own result.0) (seen result.0) }
{
    let (jobs, ticker) = split_last(jobs);
    let (pass, pacer, fault) = open_ticker(ticker);
    let end = first_end(end_of_start(started), end_of(fault));
    let (pass, ports, end) = gather(shared, pass, jobs, back, end, 10 * turns, started);
    (pass, ports, pacer, end)
}

/// The ticker's job taken apart: its pass, its pacer, and what it was refused for.
fn open_ticker<'a, J: Journal + Drop, P: Drop, T: Drop, G>(
    job: Job<'a, Behind<J>, SharedRouter<J>, P, T, G>,
) -> (Pass<Behind<J>>, T, Option<SubmitFault>)
    requires ticker { IsTicker job.task }
    requires some { job.pass ≢ None }
    ensures task { job.entry.task ≡ Task.Ticker result.1 }
    ensures pass { job.entry.pass ≡ Some result.0 }
    ensures end { job.entry.end ≡ result.2 }
{
    let Job {
        alloc: _,
        shared: _,
        gate: _,
        pass,
        task,
        turns: _,
        end,
    } = job;
    let Some(pass) = pass else { unreachable!() };
    let Task::Ticker(pacer) = task else {
        unreachable!()
    };
    (pass, pacer, end)
}
