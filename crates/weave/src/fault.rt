//! Why journals aren't woven.
use isis_base::OutOfMemory;
use weave_replay::LimitName;

/// Why journals aren't woven: the first of these that applies (own). Journals and their entries are
/// counted from 1.
#[derive(Clone, Copy, Debug, PartialEq, Eq)]
pub enum WeaveFault {
    /// The first entry with a fault has a circuit that isn't there, or a value that is out of its
    /// limits.
    Event { journal: usize, entry: u64 },
    /// The first entry with a fault has another reply than its router answers.
    Reply { journal: usize, entry: u64 },
    /// `Boots`: a router has more than 16,777,215 journals. `Datagrams`: the replies send more than
    /// 262,144.
    Limit(LimitName),
    /// No weaving exists: the first entry that no schedule of the network reaches.
    Stuck { journal: usize, entry: u64 },
    /// There is no memory for it.
    OutOfMemory,
}

impl From<OutOfMemory> for WeaveFault {
    ghost use Rattle.std.specs.Prelude.{◌≡◌};
    ghost use Rattle.weave.specs.Faults.{no_memory};

    ghost from_gives = { λ _ fault. fault ≡ no_memory };

    fn from(_error: OutOfMemory) -> WeaveFault {
        WeaveFault::OutOfMemory
    }
}
