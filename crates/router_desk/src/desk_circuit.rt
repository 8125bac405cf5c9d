//! What the tests look at of a circuit.
use isis_base::{CircuitKind, Octets};

/// The kind of a circuit, and the key of its hellos (RFC 5304 3).
#[derive(Drop, Debug)]
pub(crate) struct DeskCircuit {
    pub(crate) kind: CircuitKind,
    pub(crate) key: Option<Octets>,
}
