//! Where a circuit's port is bound, and whom it sends to.
use isis_base::List;

/// An IPv4 address and a UDP port (RFC 768).
#[derive(Clone, Copy, PartialEq, Eq, Debug)]
pub struct Address {
    pub host: u32,
    pub port: u16,
}

/// Where a circuit's port is bound, and the peers that it sends to; and whether these are routers of this project, of whose
/// point-to-point hellos a UDP port passes over those that name another boot number than their frame (own).
#[derive(Drop, Debug)]
pub struct CircuitPlace {
    pub bind: Address,
    pub peers: Peers,
    pub native: bool,
}

/// The peers of a circuit.
pub type Peers = List<Address>;

/// The places of a router's circuits; the first is that of circuit 1.
pub type Places = List<CircuitPlace>;
