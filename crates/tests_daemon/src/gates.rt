//! Two workers, of which neither begins its first turn before the other has.
use crate::made::run_of;
use circuit_serve::DaemonEnd;
use daemon_edge::{Gate, MemoryPacer, MemoryPorts, ThreadSpawner};
use isis_edge::MemorySink;
use std::sync::atomic::{AtomicBool, Ordering};
use std::test::Fail;

/// A router of two links.
const TWO: &[u8] =
    b"system = \"0000.0000.0001\"\nareas = [\"49.0001\"]\nlevel = \"L1\"\n[[circuit]]\nkind = \"p2p\"\nbind = \"127.0.0.1:1\"\npeers = [\"127.0.0.1:2\"]\n[[circuit]]\nkind = \"p2p\"\nbind = \"127.0.0.1:3\"\npeers = [\"127.0.0.1:4\"]\n";

/// How often a worker looks for the other.
const LOOKS: u32 = 500_000_000;

/// A flag for each of two circuits, and whether one looked for the other's and never saw it.
#[derive(Drop)]
struct Meeting {
    first: AtomicBool,
    second: AtomicBool,
    missed: AtomicBool,
}

impl Meeting {
    /// A circuit's own flag, and the other's.
    fn flags(&self, circuit: u8) -> (&AtomicBool, &AtomicBool) {
        if circuit == 1 {
            (&self.first, &self.second)
        } else {
            (&self.second, &self.first)
        }
    }
}

impl Gate for Meeting {
    fn before(&self, circuit: u8, turn: u64) {
        if turn != 1 {
            return;
        }
        let (own, other) = self.flags(circuit);
        own.store(true, Ordering::SeqCst);
        for _ in 0..LOOKS {
            if other.load(Ordering::SeqCst) {
                return;
            }
        }
        self.missed.store(true, Ordering::SeqCst);
    }

    fn after(&self, _circuit: u8, _turn: u64) {}
}

/// Workers that run one after another would miss each other, in either order.
#[test]
fn workers_run_beside_each_other(rt: HostRuntime) -> Result<(), Fail> {
    let alloc = rt.alloc();
    let mut ports = MemoryPorts::new(alloc, Vec::new(alloc), Vec::new(alloc), Vec::new(alloc), 0)?;
    let mut spawner = ThreadSpawner::new(Vec::new(alloc));
    let sink = MemorySink::new(alloc, 65_536, 4096, Vec::new(alloc))?;
    let gate = Meeting {
        first: AtomicBool::new(false),
        second: AtomicBool::new(false),
        missed: AtomicBool::new(false),
    };
    let pacer = MemoryPacer::new(1);
    let (sink, end) = run_of(
        &rt,
        alloc,
        TWO,
        1,
        sink,
        &mut ports,
        &mut spawner,
        pacer,
        &gate,
    );
    drop(sink);
    assert_eq!(rt; end, DaemonEnd::Done);
    assert!(rt; !gate.missed.load(Ordering::SeqCst));
    Ok(())
}
