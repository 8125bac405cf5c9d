//! A daemon of a configuration, and what is counted in its journal.
ghost use Rattle.std.specs.Prelude.{◌≡◌, ◌≤◌};

use circuit_serve::{DaemonEnd, run_daemon};
use daemon_config::{Settings, read_config};
use daemon_edge::{Gate, Pacer, Ports, Spawner};
use isis_edge::Sink;
use std::alloc::Global;
use std::net::Net;
use std::sync::Wait;
use std::thread::Threads;
use std::time::Clock;

/// The run of a daemon of a configuration in boot 1. Where the configuration isn't read, it ends for want of memory.
pub fn run_of<
    O: Sink + Drop,
    P: Ports,
    S: Spawner,
    T: Pacer + Drop + Send,
    G: Gate + Sync,
    R: Net + Threads + Wait + Clock + Sync,
>(
    rt: &R,
    alloc: Global,
    text: &[u8],
    turns: u64,
    output: O,
    ports: &mut P,
    spawner: &mut S,
    pacer: T,
    gate: &G,
) -> (O, DaemonEnd)
    requires { (1 ≤ turns) × (turns ≤ 86400) }
{
    let Settings { config, places } = match read_config(alloc, text) {
        Ok(settings) => settings,
        Err(_) => return (output, DaemonEnd::OutOfMemory),
    };
    let (output, pacer, end) = run_daemon(
        rt, alloc, config, places, 1, turns, output, ports, spawner, pacer, gate,
    );
    drop(pacer);
    (output, end)
}

/// How often a text stands in another.
pub fn times(text: &[u8], piece: &[u8]) -> usize {
    let mut count = 0usize;
    for start in 0..text.len() {
        if text[start..].starts_with(piece) {
            count = count.saturating_add(1);
        }
    }
    count
}
