//! What a desk knows, lent: for those that send.
ghost use Rattle.std.specs.Prelude.{◌≡◌, ◌≤◌, length, Some};
ghost use Rattle.std.specs.Option.{option_copied, option_map};
ghost use Rattle.model_router.specs.Both.{at, runs_of};
ghost use Rattle.model_router.specs.Numbers.{system_number};
ghost use Rattle.router_desk.specs.Desks.{circuit_at};

use crate::desk::Desk;
use isis_base::{CircuitKind, Level, LevelSet, Octets, SystemId};

impl Desk {
    /// The system ID of the router.
    pub fn system(&self) -> SystemId
        ensures { system_number result ≡ self.now.system }
    {
        self.system
    }

    /// The levels that are run.
    pub fn levels(&self) -> LevelSet
        ensures { runs_of result ≡ self.now.runs }
    {
        self.levels
    }

    /// The key of a level's LSPs and sequence numbers PDUs (RFC 5304 3).
    pub fn key(&self, level: Level) -> Option<&Octets>
        ensures { option_copied result ≡ at self.now.keys level }
    {
        match level {
            Level::One => self.area_key.as_ref(),
            Level::Two => self.domain_key.as_ref(),
        }
    }

    /// The number of circuits.
    pub fn circuit_count(&self) -> usize
        ensures { result ≡ length self.now.circuits }
    {
        self.circuits.len()
    }

    /// The kind of a circuit, counted from 1.
    pub fn kind(&self, circuit: u8) -> CircuitKind
        requires { (1 ≤ circuit) × (circuit ≤ length self.now.circuits) }
        ensures { option_map (λ c. c.kind) (circuit_at self.now circuit) ≡ Some result }
    {
        self.circuits[usize::from(circuit) - 1].kind
    }

    /// The key of a circuit's hellos (RFC 5304 3), the circuit counted from 1.
    pub fn hello_key(&self, circuit: u8) -> Option<&Octets>
        requires { (1 ≤ circuit) × (circuit ≤ length self.now.circuits) }
        ensures { option_map (λ c. c.key) (circuit_at self.now circuit)
            ≡ Some (option_copied result) }
    {
        self.circuits[usize::from(circuit) - 1].key.as_ref()
    }
}
