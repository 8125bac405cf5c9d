//! Openings, starts, takes, offers and writes that fail, one at a time.
use crate::made::{run_of, times};
use circuit_serve::DaemonEnd;
use daemon_edge::{MemoryPacer, MemoryPorts, OpenGate, ThreadSpawner};
use isis_base::Octets;
use isis_edge::MemorySink;
use std::alloc::Global;
use std::net::Net;
use std::sync::Wait;
use std::test::Fail;
use std::thread::Threads;
use std::time::Clock;

/// A router of one link.
const ONE: &[u8] =
    b"system = \"0000.0000.0001\"\nareas = [\"49.0001\"]\nlevel = \"L1\"\n[[circuit]]\nkind = \"p2p\"\nbind = \"127.0.0.1:1\"\npeers = [\"127.0.0.1:2\"]\n";

/// The opening, the start, the call of the port and the write that fail, none at 0; and the seconds that the pacer has.
#[derive(Clone, Copy)]
struct Failing {
    opening: u64,
    start: u64,
    call: u64,
    write: u64,
    seconds: u64,
}

const NONE: Failing = Failing {
    opening: 0,
    start: 0,
    call: 0,
    write: 0,
    seconds: 2,
};

/// What a run of two turns came to: its end; the octets written; the lines, the seconds and the pulls of its journal; and
/// how many of the first offers are told.
#[derive(Clone, Copy, Debug, PartialEq, Eq)]
struct Told {
    end: DaemonEnd,
    written: usize,
    lines: usize,
    seconds: usize,
    pulls: usize,
    takes: usize,
    offered: bool,
}

fn come_to<R: Net + Threads + Wait + Clock + Sync>(
    rt: &R,
    alloc: Global,
    failing: Failing,
) -> Result<Told, Fail> {
    let mut datagram = Octets::new(alloc);
    datagram.extend(b"ISU2")?;
    let mut list = Vec::new(alloc);
    list.push(datagram)?;
    let mut lists = Vec::new(alloc);
    lists.push(list)?;
    let refused = [failing.opening].to_vec(alloc)?;
    let calls = [failing.call].to_vec(alloc)?;
    let mut ports = MemoryPorts::new(alloc, lists, refused, calls, 65_536)?;
    let mut spawner = ThreadSpawner::new([failing.start].to_vec(alloc)?);
    let writes = [failing.write].to_vec(alloc)?;
    let sink = MemorySink::new(alloc, 65_536, 4096, writes)?;
    let gate = OpenGate::new();
    let pacer = MemoryPacer::new(failing.seconds);
    let (sink, end) = run_of(
        rt,
        alloc,
        ONE,
        2,
        sink,
        &mut ports,
        &mut spawner,
        pacer,
        &gate,
    );
    let text = sink.octets();
    Ok(Told {
        end,
        written: text.len(),
        lines: times(text, b"\n"),
        seconds: times(text, b" 0 second -> done\n"),
        pulls: times(text, b" 1 pull 1 -> send"),
        takes: times(text, b" 1 take 1 49535532 -> drop frame\n"),
        offered: ports.offered(1, 1).is_some(),
    })
}

/// Nothing fails: two seconds, twenty pulls, and the datagram that is none.
#[test]
fn all_is_told(rt: HostRuntime) -> Result<(), Fail> {
    let told = come_to(&rt, rt.alloc(), NONE)?;
    assert_eq!(rt; told.end, DaemonEnd::Done);
    assert_eq!(rt; (told.lines, told.seconds), (24, 2));
    assert_eq!(rt; (told.pulls, told.takes), (20, 1));
    assert!(rt; told.offered);
    Ok(())
}

/// The pacer has one second for two turns: the ticker ends with it, and the worker makes its turns.
#[test]
fn pacer_ends_first(rt: HostRuntime) -> Result<(), Fail> {
    let short = Failing { seconds: 1, ..NONE };
    let told = come_to(&rt, rt.alloc(), short)?;
    assert_eq!(rt; told.end, DaemonEnd::Done);
    assert_eq!(rt; (told.seconds, told.pulls), (1, 20));
    Ok(())
}

/// A refused opening: nothing is written.
#[test]
fn an_opening_is_refused(rt: HostRuntime) -> Result<(), Fail> {
    let told = come_to(&rt, rt.alloc(), Failing { opening: 1, ..NONE })?;
    assert_eq!(rt; (told.end, told.written), (DaemonEnd::NotStarted, 0));
    Ok(())
}

/// A refused start: the journal has the entries that the others made. The first start is the circuit's.
#[test]
fn a_start_is_refused(rt: HostRuntime) -> Result<(), Fail> {
    let circuit = come_to(&rt, rt.alloc(), Failing { start: 1, ..NONE })?;
    assert_eq!(rt; circuit.end, DaemonEnd::NotStarted);
    assert_eq!(rt; (circuit.lines, circuit.seconds), (3, 2));
    let ticker = come_to(&rt, rt.alloc(), Failing { start: 2, ..NONE })?;
    assert_eq!(rt; ticker.end, DaemonEnd::NotStarted);
    assert_eq!(rt; (ticker.pulls, ticker.seconds), (20, 0));
    Ok(())
}

/// A take or an offer that fails, each of the first ten calls: it is a datagram that is lost, and no more.
#[test]
fn a_call_of_a_port_fails(rt: HostRuntime) -> Result<(), Fail> {
    for call in 1..=10u64 {
        let told = come_to(&rt, rt.alloc(), Failing { call, ..NONE })?;
        assert_eq!(rt; told.end, DaemonEnd::Done, "{call}");
        assert_eq!(rt;
            (told.seconds, told.pulls, told.takes),
            (2, 20, 1),
            "{call}"
        );
    }
    Ok(())
}

/// The write of the head line fails, and that of the third entry.
#[test]
fn a_write_fails(rt: HostRuntime) -> Result<(), Fail> {
    let head = come_to(&rt, rt.alloc(), Failing { write: 1, ..NONE })?;
    assert_eq!(rt; (head.end, head.written), (DaemonEnd::WriteFault, 0));
    let third = come_to(&rt, rt.alloc(), Failing { write: 4, ..NONE })?;
    assert_eq!(rt; (third.end, third.lines), (DaemonEnd::WriteFault, 3));
    Ok(())
}
