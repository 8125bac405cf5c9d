//! Identifiers and their numbers.
ghost use Rattle.std.specs.Prelude.{◌≡◌};
ghost use Rattle.model_router.specs.Numbers.{system_id, system_number};

use isis_base::SystemId;
use isis_base::laws::are_six;

/// A system ID is that of its number.
pub fn system_law(system: SystemId)
    ensures { system_id (system_number system) ≡ system }
{
    are_six(system.0);
}
