//! Why not all schedules were played.

use crate::player::Stop;

/// Why not all schedules were played.
#[derive(Clone, Copy, Debug, PartialEq, Eq)]
pub enum LossesFault {
    /// There are more than 16,777,216 schedules.
    TooMany,
    /// The run of some schedule meets a limit of its network.
    Limit,
    /// There is no memory for it.
    OutOfMemory,
}

impl From<Stop> for LossesFault {
    ghost use Rattle.std.specs.Prelude.{◌≡◌};
    ghost use Rattle.losses.specs.Causes.{fault_of};

    ghost from_gives = { λ stop fault. fault ≡ fault_of stop };

    fn from(stop: Stop) -> LossesFault {
        match stop {
            Stop::Limit => LossesFault::Limit,
            Stop::OutOfMemory => LossesFault::OutOfMemory,
        }
    }
}
