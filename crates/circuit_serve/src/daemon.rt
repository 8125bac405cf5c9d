//! A daemon, from its configuration to its end.
ghost use Rattle.std.specs.Prelude.{◌≡◌, ◌≤◌, ◌⊎◌, ℕ, length, IfSome};
ghost use Rattle.isis_edge.specs.Faults.{Rose};
ghost use Rattle.router_desk.specs.Limits.{IsValid};
ghost use Rattle.circuit_serve.specs.Daemons.{DaemonRan, first_router};

use crate::daemon_end::DaemonEnd;
use crate::journal::serve_with_journal;
use crate::ports::{close_ports, open_ports};
use daemon_edge::{Gate, Pacer, Places, Ports, Spawner};
use isis_edge::Sink;
use router_core::Router;
use router_desk::Config;
use std::alloc::Global;
use std::net::Net;
use std::sync::Wait;
use std::thread::Threads;
use std::time::Clock;

/// Runs a daemon: the router of a configuration, in a boot, with a port at the place of each of its circuits, for so
/// many turns, which are 1 to 10^12. The output gets the journal, and comes back beside the pacer. It waits until all
/// workers have ended.
pub fn run_daemon<
    O: Sink + Drop,
    P: Ports,
    S: Spawner,
    T: Pacer + Drop + Send,
    G: Gate + Sync,
    R: Net + Threads + Wait + Clock + Sync,
>(
    rt: &R,
    alloc: Global,
    config: Config,
    places: Places,
    boot: u32,
    turns: u64,
    output: O,
    ports: &mut P,
    spawner: &mut S,
    pacer: T,
    gate: &G,
) -> (O, T, DaemonEnd)
    requires valid { IsValid config }
    requires circuits { (length places ≡ length config.circuits) × (1 ≤ length places) }
    requires boot { (1 ≤ boot) × (boot ≤ 16777215) }
    requires turns { (1 ≤ turns) × (turns ≤ 1000000000000) }
    ensures ran { DaemonRan config places boot turns (T.given pacer) (T.given result.1)
        (T.ended result.1)
        (O.put output) (O.put result.0) (P.opened ports.old) (P.opened ports.new)
        (P.closed ports.old) (P.closed ports.new) result.2 }
    ensures later { (O.faults output ≤ O.faults result.0)
        × (P.faults ports.old ≤ P.faults ports.new)
        × (S.faults spawner.old ≤ S.faults spawner.new) }
    ensures write_fault { result.2 ≡ DaemonEnd.WriteFault
        → Rose (O.faults output) (O.faults result.0) }
    ensures not_started { result.2 ≡ DaemonEnd.NotStarted
        → Rose (S.faults spawner.old) (S.faults spawner.new)
        ⊎ Rose (P.faults ports.old) (P.faults ports.new) }
{
    let Some(router) = first_router(alloc, config, boot) else {
        drop(places);
        return (output, pacer, DaemonEnd::OutOfMemory);
    };
    let Ok(room) = Vec::with_capacity(alloc, places.len()) else {
        drop(router);
        drop(places);
        return (output, pacer, DaemonEnd::OutOfMemory);
    };
    let (opened, answer) = open_ports(rt, ports, places, room);
    match answer {
        Ok(()) => {}
        Err(_) => {
            drop(router);
            close_ports(ports, opened);
            return (output, pacer, DaemonEnd::NotStarted);
        }
    }
    let (opened, output, pacer, end) = serve_with_journal(
        rt, alloc, router, opened, output, spawner, pacer, gate, turns,
    );
    close_ports(ports, opened);
    (output, pacer, end)
}

/// The router of a configuration at its start, unless there is no memory for it.
fn first_router(alloc: Global, config: Config, boot: u32) -> Option<Router>
    requires valid { IsValid config }
    requires boot { (1 ≤ boot) × (boot ≤ 16777215) }
    ensures { IfSome result (λ router. router ≡ first_router config boot) }
{
    match Router::new(alloc, config, boot) {
        Ok(router) => Some(router),
        Err((config, _)) => {
            drop(config);
            None
        }
    }
}
