//! The configuration of a circuit.
use isis_base::{CircuitKind, Octets};

/// The configuration of a circuit: its kind, its metric, the priority on a LAN (ISO 10589 8.4.5),
/// its IPv4 address, and the key of its hellos (RFC 5304 3).
#[derive(Drop, Debug)]
pub struct CircuitConfig {
    pub kind: CircuitKind,
    pub metric: u32,
    pub priority: u8,
    pub address: Option<u32>,
    pub key: Option<Octets>,
}
