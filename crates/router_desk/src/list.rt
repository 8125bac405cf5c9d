//! Lists of a configuration's parts.
use crate::circuit_config::CircuitConfig;
use isis_base::{AreaAddress, List, Prefix};

/// The area addresses of a router (ISO 10589 7.1.5).
pub type Areas = List<AreaAddress>;

/// The circuits of a router; the first has number 1.
pub type Circuits = List<CircuitConfig>;

/// A router's own prefixes, each with its metric.
pub type Prefixes = List<(Prefix, u32)>;
