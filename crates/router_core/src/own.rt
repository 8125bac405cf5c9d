//! What hellos look at of a router.
ghost use Rattle.std.specs.Prelude.{◌≡◌, ◌<◌, ◌^◌, ◌*◌, ◌+◌};
ghost use Rattle.model_router.specs.Configs as configs;
ghost use Rattle.router_circuits.specs.Hellos.{IsOwn};

use adjacency::Own;
use isis_base::AreaAddress;
use router_desk::Desk;

/// One's own part on a circuit: the extended circuit ID is the boot and the circuit's number (own).
pub(crate) fn own_of<'a>(desk: &Desk, areas: &'a [AreaAddress], boot: u32, circuit: u8) -> Own<'a>
    requires { boot < 2 ^ 24 }
    ensures own { (config : configs.Config) → config.system ≡ desk.now.system
        → config.areas ≡ areas.now → config.runs ≡ desk.now.runs → IsOwn config result }
    ensures id { result.id ≡ 256 * boot + circuit }
{
    Own {
        system: desk.system(),
        id: 256 * boot + u32::from(circuit),
        levels: desk.levels(),
        areas,
    }
}
