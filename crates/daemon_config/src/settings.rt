//! What a configuration says.
use daemon_edge::{CircuitPlace, Places};
use router_desk::{CircuitConfig, Circuits, Config};

/// What a configuration says: that of the router, and the place of each of its circuits, in their
/// order.
#[derive(Drop, Debug)]
pub struct Settings {
    pub config: Config,
    pub places: Places,
}

/// What a circuit's table says.
#[derive(Drop)]
pub(crate) struct CircuitRead {
    pub(crate) config: CircuitConfig,
    pub(crate) place: CircuitPlace,
}

/// What all circuits' tables say.
#[derive(Drop)]
pub(crate) struct CircuitsRead {
    pub(crate) circuits: Circuits,
    pub(crate) places: Places,
}
