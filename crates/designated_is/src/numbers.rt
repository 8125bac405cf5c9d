//! System IDs and SNPAs as numbers.
ghost use Rattle.std.specs.Prelude.{◌≡◌, ◌<◌, ◌^◌, ◌==◌};
ghost use Rattle.model_router.specs.Numbers.{system_number, snpa_number};

use isis_base::{LspId, NodeId, Snpa, SystemId};

/// A system ID as a number: its octets, the first one the greatest (ISO 10589 7.1).
pub fn system_to_number(system: SystemId) -> u64
    ensures value { result ≡ system_number system }
    ensures size { result < 2 ^ 48 }
{
    let node = NodeId {
        system,
        pseudonode: 0,
    };
    LspId { node, number: 0 }.to_number() / 65536
}

/// An SNPA as a number, as if it were a system ID.
pub fn snpa_to_number(snpa: Snpa) -> u64
    ensures value { result ≡ snpa_number snpa }
    ensures size { result < 2 ^ 48 }
{
    system_to_number(SystemId(snpa.0))
}

/// Whether two system IDs are one, compared as numbers.
pub fn are_same_systems(a: SystemId, b: SystemId) -> bool
    ensures { result ≡ (system_number a == system_number b) }
{
    system_to_number(a) == system_to_number(b)
}
