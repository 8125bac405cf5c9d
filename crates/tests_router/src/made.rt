//! Values that the tests of several modules begin with.
ghost use Rattle.std.specs.Prelude.{◌≡◌};

use isis_base::{CircuitKind, LevelSet, LspId, NodeId, Octets, OutOfMemory, SystemId};
use router_desk::{Areas, CircuitConfig, Circuits, Config, Prefixes};
use std::alloc::Global;

/// Two systems, and their node IDs.
pub const FIRST: SystemId = SystemId([0, 0, 0, 0, 0, 1]);

pub const SECOND: SystemId = SystemId([0, 0, 0, 0, 0, 2]);

pub const ONE: NodeId = NodeId {
    system: FIRST,
    pseudonode: 0,
};

pub const TWO: NodeId = NodeId {
    system: SECOND,
    pseudonode: 0,
};

/// The first system's LSP ID.
pub const OWN: LspId = LspId {
    node: ONE,
    number: 0,
};

/// The first system's LSP of level 1, at number 1, with 1,200 seconds left and no TLVs; and with 600 seconds left. Both
/// are from octets_vectors.py beside src/.
pub const LIVE: &[u8] =
    b"\x83\x1b\x01\x00\x12\x01\x00\x00\x00\x1b\x04\xb0\x00\x00\x00\x00\x00\x01\x00\x00\x00\x00\x00\x01\xf8\x02\x03";

pub const AGED: &[u8] =
    b"\x83\x1b\x01\x00\x12\x01\x00\x00\x00\x1b\x02\x58\x00\x00\x00\x00\x00\x01\x00\x00\x00\x00\x00\x01\xf8\x02\x03";

/// A point-to-point hello of the first system, which another program wrote: one area, IPv4, and the state Down.
pub const HELLO: &[u8] =
    b"\x83\x14\x01\x00\x11\x01\x00\x00\x01\x00\x00\x00\x00\x00\x01\x00\x1e\x00\x24\x01\x01\x04\x03\x49\x00\x01\x81\x01\xcc\xf0\x05\x02\x00\x00\x01\x01";

/// Octets in memory.
pub fn octets(alloc: Global, list: &[u8]) -> Result<Octets, OutOfMemory> {
    let mut octets = Octets::new(alloc);
    octets.extend(list)?;
    Ok(octets)
}

/// A circuit of a kind, with metric 10 and priority 64.
pub fn circuit(kind: CircuitKind, key: Option<Octets>) -> CircuitConfig
    ensures { result.kind ≡ kind }
{
    CircuitConfig {
        kind,
        metric: 10,
        priority: 64,
        address: Some(1),
        key,
    }
}

/// A configuration without areas and circuits.
pub fn bare(alloc: Global, system: SystemId, levels: LevelSet) -> Config {
    Config {
        system,
        areas: Areas::new(alloc),
        levels,
        leak: false,
        overload: false,
        circuits: Circuits::new(alloc),
        prefixes: Prefixes::new(alloc),
        area_key: None,
        domain_key: None,
    }
}

/// The place of the first row that is false.
pub fn first_wrong(rows: &[bool]) -> Option<usize> {
    for (place, row) in rows.iter().enumerate() {
        if !*row {
            return Some(place);
        }
    }
    None
}
