//! The command `daemon`: a router over the ports of its circuits, and its journal.
ghost use Rattle.std.specs.Prelude.{◌≡◌, ◌≤◌, ◌⊎◌, ℕ, List};
ghost use Rattle.isis_edge.specs.Faults.{Rose};
ghost use Rattle.isis_edge.specs.Told.{Took};
ghost use Rattle.isis_daemon.specs.DaemonEnds.{DaemonEnds, IsConfiguration};
ghost use Rattle.isis_daemon.specs.Runs.{IsTakenWithin, IsDoneUnlessMemory};

use crate::options::DaemonOptions;
use crate::status::{INPUT_LIMIT, Status};
use circuit_serve::run_daemon;
use daemon_config::{Settings, read_config};
use daemon_edge::{Gate, Pacer, Ports, Spawner};
use isis_edge::{Sink, Source, read_whole};
use std::alloc::Global;
use std::net::Net;
use std::sync::Wait;
use std::thread::Threads;
use std::time::Clock;

/// Reads a configuration, and runs its router.
pub(crate) fn daemon<
    I: Source,
    O: Sink + Drop,
    P: Ports,
    S: Spawner,
    T: Pacer + Drop + Send,
    G: Gate + Sync,
    R: Net + Threads + Wait + Clock + Sync,
>(
    rt: &R,
    alloc: Global,
    options: DaemonOptions,
    input: &mut I,
    output: O,
    ports: &mut P,
    spawner: &mut S,
    pacer: T,
    gate: &G,
) -> (O, T, Status)
    requires boot { (1 ≤ options.boot) × (options.boot ≤ 16777215) }
    requires turns { (1 ≤ options.turns) × (options.turns ≤ 1000000000000) }
    ensures usage { ¬ (result.2 ≡ Status.Usage) }
    ensures taken { IsTakenWithin (I.gave input.old) (I.gave input.new) }
    ensures read_fault { result.2 ≡ Status.ReadFault
        → Rose (I.faults input.old) (I.faults input.new) }
    ensures write_fault { result.2 ≡ Status.WriteFault
        → Rose (O.faults output) (O.faults result.0) }
    ensures not_started { result.2 ≡ Status.NotStarted
        → Rose (S.faults spawner.old) (S.faults spawner.new)
        ⊎ Rose (P.faults ports.old) (P.faults ports.new) }
    ensures later { (I.faults input.old ≤ I.faults input.new)
        × (O.faults output ≤ O.faults result.0) × (P.faults ports.old ≤ P.faults ports.new)
        × (S.faults spawner.old ≤ S.faults spawner.new) }
    ensures daemon { DaemonEnds (I.gave input.old) (I.gave input.new) (I.ended input.new) (record {
      boot = options.boot;
      turns = options.turns;
      given = T.given pacer;
      given' = T.given result.1;
      ended = T.ended result.1;
      put = O.put output;
      put' = O.put result.0;
      opened = P.opened ports.old;
      opened' = P.opened ports.new;
      closed = P.closed ports.old;
      closed' = P.closed ports.new;
    }) result.2 }
    ensures complete { (octets : List ℕ) → Took (I.gave input.old) (I.gave input.new) octets → IsConfiguration octets
        → ¬ Rose (I.faults input.old) (I.faults input.new)
        → ¬ Rose (O.faults output) (O.faults result.0)
        → ¬ Rose (P.faults ports.old) (P.faults ports.new)
        → ¬ Rose (S.faults spawner.old) (S.faults spawner.new)
        → IsDoneUnlessMemory result.2 }
{
    let octets = match read_whole(alloc, input, INPUT_LIMIT) {
        Ok(octets) => octets,
        Err(fault) => return (output, pacer, Status::from(fault)),
    };
    let Settings { config, places } = match read_config(alloc, octets.as_slice()) {
        Ok(settings) => settings,
        Err(fault) => return (output, pacer, Status::from(fault)),
    };
    let DaemonOptions { boot, turns } = options;
    let (output, pacer, end) = run_daemon(
        rt, alloc, config, places, boot, turns, output, ports, spawner, pacer, gate,
    );
    (output, pacer, Status::from(end))
}
