//! Who sends on which circuit.
ghost use Rattle.std.specs.Prelude.{◌≡◌};
ghost use Rattle.std.specs.Option.{option_copied};
ghost use Rattle.model_router.specs.Both.{at};

use isis_base::{AreaAddress, Level, LevelSet, SystemId};

/// A router as it sends on a circuit: its system, its boot number (own), the levels that it runs,
/// its area addresses and the keys of L1 and L2 (RFC 5304 3); the circuit's number, its priority on
/// a LAN (ISO 10589 8.4.5), its IPv4 address, and the key of its hellos.
#[derive(Clone, Copy)]
pub struct Sender<'a> {
    pub system: SystemId,
    pub boot: u32,
    pub levels: LevelSet,
    pub areas: &'a [AreaAddress],
    pub area_key: Option<&'a [u8]>,
    pub domain_key: Option<&'a [u8]>,
    pub circuit: u8,
    pub priority: u8,
    pub address: Option<u32>,
    pub key: Option<&'a [u8]>,
}

impl<'a> Sender<'a> {
    /// The key of a level's LSPs and sequence number PDUs.
    pub(crate) fn level_key(&self, level: Level) -> Option<&'a [u8]>
        ensures { option_copied result ≡ at (record {
          one = option_copied self.now.area_key;
          two = option_copied self.now.domain_key;
        }) level }
    {
        match level {
            Level::One => self.area_key,
            Level::Two => self.domain_key,
        }
    }
}
