//! The call `run`, from the octets read to the octets written.
ghost use Rattle.std.specs.Prelude.{◌≡◌, ◌≤◌, ◌↔◌, ◌⊎◌, ℕ, List, map, None, string_bytes, IfSome, IsOk};
ghost use Rattle.isis_edge.specs.Faults.{Rose};
ghost use Rattle.isis_edge.specs.Told.{Took};
ghost use Rattle.lab_grid.specs.GridRuns.{grid_end};
ghost use Rattle.isis_daemon.specs.Commands.{command_of, grid_size_of, walk_of, trace_of, weave_of, AreNone};
ghost use Rattle.isis_daemon.specs.DaemonEnds.{DaemonEnds, IsConfiguration};
ghost use Rattle.isis_daemon.specs.GridEnds.{GridEnds};
ghost use Rattle.isis_daemon.specs.Options.{daemon_of, state_of};
ghost use Rattle.isis_daemon.specs.Runs.{Ends, IsTaken, IsTakenWithin, IsDoneUnlessMemory, IsWrittenUnlessMemory};
ghost use Rattle.isis_daemon.specs.StateRuns.{HasState, StateRan};
ghost use Rattle.isis_daemon.specs.TraceEnds.{TraceEnds, IsTraceable};
ghost use Rattle.isis_daemon.specs.WalkEnds.{WalkEnds, IsWalkable};
ghost use Rattle.isis_daemon.specs.WeaveEnds.{WeaveEnds, CanBeWoven};

use crate::daemon::daemon;
use crate::inputs::run_input;
use crate::options::{daemon_of, state_of};
use crate::state::state;
use crate::status::Status;
use daemon_edge::{Gate, Pacer, Ports, Spawner};
use isis_edge::{Sink, Source};
use std::alloc::Global;
use std::net::Net;
use std::sync::Wait;
use std::thread::Threads;
use std::time::Clock;

/// Runs the program: the words after its name, its input and its output, which is handed back beside the pacer, and what a
/// daemon needs. The words are tested first, then the input is read, of which at most 16,777,217 octets are taken. Of `lab`
/// it is a script, which is read and played, and at last the report is written; of `show` it is shown line by line. At
/// `grid N` no input is read: the script of a grid is run, and its summary is written. Of `walk` it is a script, after which
/// a packet is walked from a router to a prefix, and of `trace` one after which a packet is followed from a router to an
/// address. Of `weave` it has setup and change lines of a script, and journals, which are
/// woven into a schedule. Of `daemon` it is a configuration: a port is opened at each circuit's
/// place, and the router runs until its seconds and turns are made. Of `state` it is a configuration and the journal of its
/// daemon, which are read line by line, however many there are; the journal is replayed, and the router's state is written.
///
/// At `lab` and status 0 the headline holds (ISO 10589 7.3.15 to 7.3.17, RFC 5302 3.2). After each event of the script, where
/// nothing was injected: on each point-to-point link that is up each end names the other, and of what neither let go an LSP
/// held at one end is at the other as new or newer, or its SRM flag stands; routers that links without flags and swept LANs
/// join hold the same live LSPs, of what none of them let go, and so does a member of a LAN with the router that sweeps it,
/// whatever they let go; and what is held under one number has the same contents, unless the LSP ID is doubled. Each `route`
/// line is the best route over that router's own databases. At `grid N` and status 0 the same holds of the grid's script. At
/// `walk` and status 0 the text tells a walk that arrives, whichever next hops a packet takes, at the one router whose own the
/// prefix is, at the cost that it tells (RFC 1195 3.10). At `trace` and status 0 the text is what becomes of a packet by each
/// router's own best routes, whether routers agree or not; where there is a walk to the prefix that the address is looked up
/// as, it is that walk. At `weave` and status 0 the text is a lab script whose schedule is a weaving of the journals: each
/// router's events are those of its journals, which its machine answers as they say, and each take is a delivery of an earlier
/// datagram with those octets. At `daemon` and status 0 the octets written are the journal of one history of the router, from
/// its start on, and each circuit's port gave and was offered what that history took and sent there.
pub fn run<
    I: Source,
    O: Sink + Drop,
    P: Ports,
    S: Spawner,
    T: Pacer + Drop + Send,
    G: Gate + Sync,
    R: Net + Threads + Wait + Clock + Sync,
>(
    rt: &R,
    alloc: Global,
    words: &[String],
    input: &mut I,
    output: O,
    ports: &mut P,
    spawner: &mut S,
    pacer: T,
    gate: &G,
) -> (O, T, Status)
    ensures usage { (result.2 ≡ Status.Usage) ↔ AreNone (map string_bytes words.now) }
    ensures untouched { result.2 ≡ Status.Usage
        → (I.gave input.new ≡ I.gave input.old) × (I.ended input.new ≡ I.ended input.old) × (I.faults input.new ≡ I.faults input.old)
        × (result.0 ≡ output) }
    ensures ends { IfSome (command_of (map string_bytes words.now))
        (λ command. Ends command (I.gave input.old) (I.gave input.new) (I.ended input.new) (O.put output)
        (O.put result.0) result.2) }
    ensures taken { state_of (map string_bytes words.now) ≡ None → IsTakenWithin (I.gave input.old) (I.gave input.new) }
    ensures read_fault { result.2 ≡ Status.ReadFault
        → Rose (I.faults input.old) (I.faults input.new) }
    ensures write_fault { result.2 ≡ Status.WriteFault
        → Rose (O.faults output) (O.faults result.0) }
    ensures not_started { result.2 ≡ Status.NotStarted
        → Rose (S.faults spawner.old) (S.faults spawner.new)
        ⊎ Rose (P.faults ports.old) (P.faults ports.new) }
    ensures complete { IfSome (command_of (map string_bytes words.now))
        (λ command. (octets : List ℕ) → Took (I.gave input.old) (I.gave input.new) octets → IsTaken command octets
        → ¬ Rose (I.faults input.old) (I.faults input.new)
        → ¬ Rose (O.faults output) (O.faults result.0)
        → IsWrittenUnlessMemory command result.2) }
    ensures later { (I.faults input.old ≤ I.faults input.new)
        × (O.faults output ≤ O.faults result.0) × (P.faults ports.old ≤ P.faults ports.new)
        × (S.faults spawner.old ≤ S.faults spawner.new) }
    ensures grid { IfSome (grid_size_of (map string_bytes words.now))
        (λ size. GridEnds size (O.put output) (O.put result.0) result.2) }
    ensures grid_unread { IfSome (grid_size_of (map string_bytes words.now))
        (λ _. (I.gave input.new ≡ I.gave input.old) × (I.ended input.new ≡ I.ended input.old) × (I.faults input.new ≡ I.faults input.old)) }
    ensures grid_complete { IfSome (grid_size_of (map string_bytes words.now))
        (λ size. IsOk (grid_end size) → ¬ Rose (O.faults output) (O.faults result.0)
        → IsDoneUnlessMemory result.2) }
    ensures daemon { IfSome (daemon_of (map string_bytes words.now)) (λ asked.
        DaemonEnds (I.gave input.old) (I.gave input.new) (I.ended input.new) (record {
          boot = asked.0;
          turns = asked.1;
          given = T.given pacer;
          given' = T.given result.1;
          ended = T.ended result.1;
          put = O.put output;
          put' = O.put result.0;
          opened = P.opened ports.old;
          opened' = P.opened ports.new;
          closed = P.closed ports.old;
          closed' = P.closed ports.new;
        }) result.2) }
    ensures daemon_complete { IfSome (daemon_of (map string_bytes words.now)) (λ asked.
        (octets : List ℕ) → Took (I.gave input.old) (I.gave input.new) octets → IsConfiguration octets
        → ¬ Rose (I.faults input.old) (I.faults input.new)
        → ¬ Rose (O.faults output) (O.faults result.0)
        → ¬ Rose (P.faults ports.old) (P.faults ports.new)
        → ¬ Rose (S.faults spawner.old) (S.faults spawner.new)
        → IsDoneUnlessMemory result.2) }
    ensures walk { IfSome (walk_of (map string_bytes words.now)) (λ asked.
        WalkEnds asked.0 asked.1 (I.gave input.old) (I.gave input.new) (I.ended input.new) (O.put output)
        (O.put result.0) result.2) }
    ensures walk_complete { IfSome (walk_of (map string_bytes words.now)) (λ asked.
        (octets : List ℕ) → Took (I.gave input.old) (I.gave input.new) octets → IsWalkable asked.0 asked.1 octets
        → ¬ Rose (I.faults input.old) (I.faults input.new)
        → ¬ Rose (O.faults output) (O.faults result.0)
        → IsDoneUnlessMemory result.2) }
    ensures trace { IfSome (trace_of (map string_bytes words.now)) (λ asked.
        TraceEnds asked.0 asked.1 (I.gave input.old) (I.gave input.new) (I.ended input.new) (O.put output)
        (O.put result.0) result.2) }
    ensures trace_complete { IfSome (trace_of (map string_bytes words.now)) (λ asked.
        (octets : List ℕ) → Took (I.gave input.old) (I.gave input.new) octets → IsTraceable asked.0 octets
        → ¬ Rose (I.faults input.old) (I.faults input.new)
        → ¬ Rose (O.faults output) (O.faults result.0)
        → IsDoneUnlessMemory result.2) }
    ensures weave { IfSome (weave_of (map string_bytes words.now)) (λ _.
        WeaveEnds (I.gave input.old) (I.gave input.new) (I.ended input.new) (O.put output) (O.put result.0)
        result.2) }
    ensures weave_complete { IfSome (weave_of (map string_bytes words.now)) (λ _.
        (octets : List ℕ) → Took (I.gave input.old) (I.gave input.new) octets → CanBeWoven octets
        → ¬ Rose (I.faults input.old) (I.faults input.new)
        → ¬ Rose (O.faults output) (O.faults result.0)
        → IsDoneUnlessMemory result.2) }
    ensures state { IfSome (state_of (map string_bytes words.now)) (λ asked.
        StateRan asked.0 asked.1 (I.gave input.old) (I.gave input.new) (I.ended input.new) (O.put output)
        (O.put result.0) result.2) }
    ensures state_complete { IfSome (state_of (map string_bytes words.now)) (λ asked.
        (octets : List ℕ) → Took (I.gave input.old) (I.gave input.new) octets
        → HasState asked.0 asked.1 octets (I.ended input.new)
        → ¬ Rose (I.faults input.old) (I.faults input.new)
        → ¬ Rose (O.faults output) (O.faults result.0)
        → IsDoneUnlessMemory result.2) }
    ensures aside { daemon_of (map string_bytes words.now) ≡ None
        → (ports.new ≡ ports.old) × (spawner.new ≡ spawner.old) × (result.1 ≡ pacer) }
{
    if let Some(options) = daemon_of(words) {
        return daemon(
            rt, alloc, options, input, output, ports, spawner, pacer, gate,
        );
    }
    if let Some(options) = state_of(words) {
        let (output, status) = state(alloc, options, input, output);
        return (output, pacer, status);
    }
    let (output, status) = run_input(alloc, words, input, output);
    (output, pacer, status)
}
