//! Why journals aren't replayed to their ends.
use isis_base::OutOfMemory;
use lab_keys::LimitName;

/// Why journals aren't replayed to their ends: the first of these that applies (own). Journals and
/// their entries are counted from 1.
#[derive(Clone, Copy, Debug, PartialEq, Eq)]
pub enum ReplayFault {
    /// The first entry with a fault has a circuit that isn't there, or a value that is out of its
    /// limits.
    Event { journal: usize, entry: u64 },
    /// The first entry with a fault has another reply than its router answers.
    Reply { journal: usize, entry: u64 },
    /// `Boots`: a router has more than 16,777,215 journals. `Datagrams`: the replies send more than
    /// 262,144.
    Limit(LimitName),
    /// There is no memory for it.
    OutOfMemory,
}

impl From<OutOfMemory> for ReplayFault {
    ghost use Rattle.std.specs.Prelude.{◌≡◌};
    ghost use Rattle.weave_replay.specs.Replays.{no_memory};

    ghost from_gives = { λ _ fault. fault ≡ no_memory };

    fn from(_error: OutOfMemory) -> ReplayFault {
        ReplayFault::OutOfMemory
    }
}
