//! A router served behind a journal of text.
ghost use Rattle.std.specs.Prelude.{◌≡◌, ◌+◌, ◌*◌, ◌<◌, ◌≤◌, ℕ, List, length, slice_get, IfSome};
ghost use Rattle.isis_edge.specs.Told.{Wrote};
ghost use Rattle.circuit_threads.specs.JournalText.{head_text};
ghost use Rattle.isis_edge.specs.Faults.{Rose};
ghost use Rattle.daemon_edge.specs.Ports.{IsFresh};
ghost use Rattle.circuit_serve.specs.Histories.{JournalRan};

use crate::daemon_end::{DaemonEnd, end_of};
use crate::serve;
use circuit_threads::{SharedRouter, TextJournal};
use daemon_edge::{Gate, Pacer, Port, Spawner};
use isis_edge::Sink;
use router_core::Router;
use std::alloc::Global;
use std::sync::Wait;
use std::thread::Threads;
use std::time::Clock;

/// Opens the journal and serves the router until its workers end. The ports, the sink and the pacer come back.
pub(crate) fn serve_with_journal<
    O: Sink + Drop,
    Q: Port + Drop + Send,
    S: Spawner,
    T: Pacer + Drop + Send,
    G: Gate + Sync,
    R: Threads + Wait + Clock + Sync,
>(
    rt: &R,
    alloc: Global,
    router: Router,
    ports: Vec<Q>,
    output: O,
    spawner: &mut S,
    pacer: T,
    gate: &G,
    turns: u64,
) -> (Vec<Q>, O, T, DaemonEnd)
    requires turns { (1 ≤ turns) × (turns ≤ 1000000000000) }
    requires circuits { (length ports.items ≡ length router.circuits) × (1 ≤ length ports.items)
        × (length ports.items ≤ 64) }
    requires fresh { (i : ℕ) → IfSome (slice_get ports.items i)
        (λ p. IsFresh (Q.given p) (Q.offered p) (Q.asked p)) }
    ensures ran { JournalRan Q.opening Q.given Q.offered Q.asked router turns ports.items
        result.0.items (T.given pacer) (T.given result.2) (T.ended result.2)
        (O.put output) (O.put result.1) result.3 }
    ensures later { (O.faults output ≤ O.faults result.1)
        × (S.faults spawner.old ≤ S.faults spawner.new) }
    ensures write_fault { result.3 ≡ DaemonEnd.WriteFault
        → Rose (O.faults output) (O.faults result.1) }
    ensures not_started { result.3 ≡ DaemonEnd.NotStarted
        → Rose (S.faults spawner.old) (S.faults spawner.new) }
{
    let journal = match TextJournal::open(output) {
        Ok(journal) => journal,
        Err((output, _)) => {
            drop(router);
            return (ports, output, pacer, DaemonEnd::WriteFault);
        }
    };
    serve_journal(
        rt, alloc, router, ports, journal, spawner, pacer, gate, turns,
    )
}

/// Serves the router until its workers end.
fn serve_journal<
    O: Sink + Drop,
    Q: Port + Drop + Send,
    S: Spawner,
    T: Pacer + Drop + Send,
    G: Gate + Sync,
    R: Threads + Wait + Clock + Sync,
>(
    rt: &R,
    alloc: Global,
    router: Router,
    ports: Vec<Q>,
    journal: TextJournal<O>,
    spawner: &mut S,
    pacer: T,
    gate: &G,
    turns: u64,
) -> (Vec<Q>, O, T, DaemonEnd)
    requires turns { (1 ≤ turns) × (turns ≤ 1000000000000) }
    requires circuits { (length ports.items ≡ length router.circuits) × (1 ≤ length ports.items)
        × (length ports.items ≤ 64) }
    requires fresh { (i : ℕ) → IfSome (slice_get ports.items i)
        (λ p. IsFresh (Q.given p) (Q.offered p) (Q.asked p)) }
    ensures ran { (before : List ℕ) → Wrote before (O.put journal.sink) head_text
        → JournalRan Q.opening Q.given Q.offered Q.asked router turns ports.items result.0.items
        (T.given pacer) (T.given result.2) (T.ended result.2) before (O.put result.1) result.3 }
    ensures later { (O.faults journal.sink ≤ O.faults result.1)
        × (S.faults spawner.old ≤ S.faults spawner.new) }
    ensures write_fault { result.3 ≡ DaemonEnd.WriteFault
        → Rose (O.faults journal.sink) (O.faults result.1) }
    ensures not_started { result.3 ≡ DaemonEnd.NotStarted
        → Rose (S.faults spawner.old) (S.faults spawner.new) }
{
    let all = turns + 20 * turns * ports.len() as u64;
    let (shared, pass) = match SharedRouter::new(alloc, router, journal, all) {
        Ok(made) => made,
        Err((router, journal, _)) => {
            drop(router);
            return (ports, journal.into_sink(), pacer, DaemonEnd::OutOfMemory);
        }
    };
    let (pass, ports, pacer, end) = serve(
        rt, alloc, &shared, pass, ports, spawner, pacer, gate, turns,
    );
    match shared.close(pass) {
        Ok((router, journal)) => {
            drop(router);
            (ports, journal.into_sink(), pacer, end_of(end))
        }
        Err(_) => unreachable!(),
    }
}
