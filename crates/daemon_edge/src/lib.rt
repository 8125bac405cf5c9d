//! The outside as a daemon sees it: ports, seconds and threads.
//!
//! A port tells, for contracts alone, the datagrams that it gave and those that it was offered,
//! and each object has a count of faults that never falls. So a fault is answered only where a count rose. What opens
//! ports tells those that were closed, each with the circuit and the place that it was opened with. It is this
//! project's own; no standard speaks of it. It stands apart from isis_edge, since nothing below a daemon needs it.
//!
//! - `place.rt`: where a circuit's port is bound, and whom it sends to
//! - `port.rt`, `ports.rt`: ports, and what opens and closes them
//! - `pacing.rt`: pacers, which give seconds, and gates, which turns pass
//! - `spawning.rt`: workers, and the threads that they work in
//! - `memory_ports.rt`, `kept.rt`: ports in memory, and what they keep; `memory_pacer.rt`: a pacer in memory
//! - `faults.rt`: faults counted
//! - `other_boot.rt`: hellos that name another boot number than their frame
//! - `udp.rt`: ports over UDP; `sleep_pacer.rt`: a pacer that sleeps; `first_second.rt`: one whose first second comes at once, and its gate
//!
//! Choices (own):
//!
//! - A spawner decides of each start alone, and `run_all` is a free function; `Port::take` takes the runtime,
//!   since it waits.
//! - A socket's wait is set only where it changes; what is closed is recorded as a list, so that no body can
//!   close nothing; a gate has no clause.
#![tactic(auto)]

mod faults;
mod first_second;
mod kept;
mod memory_pacer;
mod memory_ports;
mod other_boot;
mod pacing;
mod place;
mod port;
mod ports;
mod sleep_pacer;
mod spawning;
mod udp;

pub use first_second::{FirstSecond, PromptPacer};
pub use isis_base::List as PlaceList;
pub use memory_pacer::MemoryPacer;
pub use memory_ports::{MemoryPort, MemoryPorts};
pub use other_boot::is_of_other_boot;
pub use pacing::{Gate, OpenGate, Pace, Pacer};
pub use place::{Address, CircuitPlace, Peers, Places};
pub use port::{Offered, Port, Taken};
pub use ports::{Ports, Refused};
pub use sleep_pacer::SleepPacer;
pub use spawning::{Spawner, Started, ThreadSpawner, Worker, run_all};
pub use udp::{UdpPort, UdpPorts};
