//! Why no weaving was written, or not all of it.
ghost use Rattle.std.specs.Prelude.{◌≡◌};

use crate::reason::WeaveReason;
use isis_base::OutOfMemory;
use lab_text::{Reason, RunFault, ScriptFault};
use weave::{LimitName, WeaveFault};

/// Why no weaving was written, or not all of it. Lines, journals and entries are counted from 1.
#[derive(Clone, Copy, Debug, PartialEq, Eq)]
pub enum WeaveTextFault {
    /// This line is refused, and why. Nothing was written.
    Refused {
        line: usize,
        reason: Reason,
    },
    /// A line passes this limit, or the weaving does. Nothing was written.
    Limit(LimitName),
    /// The journals can't be woven: the first entry against it, and why. Nothing was written.
    NotWoven {
        journal: usize,
        entry: u64,
        reason: WeaveReason,
    },
    /// A write failed. A prefix of the lab script was written.
    Write,
    /// There is no memory for it. Nothing was written.
    OutOfMemory,
}

impl From<ScriptFault> for WeaveTextFault {
    ghost use Rattle.weave_text.specs.Faults.{script_fault};

    ghost from_gives = { λ fault end. end ≡ script_fault fault };

    fn from(fault: ScriptFault) -> WeaveTextFault {
        match fault {
            ScriptFault::Refused { line, reason } => WeaveTextFault::Refused { line, reason },
            ScriptFault::Limit(which) => WeaveTextFault::Limit(which),
            ScriptFault::OutOfMemory => WeaveTextFault::OutOfMemory,
        }
    }
}

impl From<RunFault> for WeaveTextFault {
    ghost use Rattle.weave_text.specs.Faults.{run_fault};

    ghost from_gives = { λ fault end. end ≡ run_fault fault };

    fn from(fault: RunFault) -> WeaveTextFault {
        match fault {
            RunFault::Refused { line, reason } => WeaveTextFault::Refused { line, reason },
            RunFault::Limit(which) => WeaveTextFault::Limit(which),
            RunFault::Write => WeaveTextFault::Write,
            RunFault::OutOfMemory => WeaveTextFault::OutOfMemory,
        }
    }
}

impl From<WeaveFault> for WeaveTextFault {
    ghost use Rattle.weave_text.specs.Faults.{weave_fault};

    ghost from_gives = { λ fault end. end ≡ weave_fault fault };

    fn from(fault: WeaveFault) -> WeaveTextFault {
        match fault {
            WeaveFault::Event { journal, entry } => not_woven(journal, entry, WeaveReason::Event),
            WeaveFault::Reply { journal, entry } => not_woven(journal, entry, WeaveReason::Reply),
            WeaveFault::Limit(which) => WeaveTextFault::Limit(which),
            WeaveFault::Stuck { journal, entry } => not_woven(journal, entry, WeaveReason::Stuck),
            WeaveFault::OutOfMemory => WeaveTextFault::OutOfMemory,
        }
    }
}

fn not_woven(journal: usize, entry: u64, reason: WeaveReason) -> WeaveTextFault
    ensures { result ≡ WeaveTextFault.NotWoven journal entry reason }
{
    WeaveTextFault::NotWoven {
        journal,
        entry,
        reason,
    }
}

impl From<OutOfMemory> for WeaveTextFault {
    ghost use Rattle.weave_text.specs.Faults.{no_memory};

    ghost from_gives = { λ _ fault. fault ≡ no_memory };

    fn from(_error: OutOfMemory) -> WeaveTextFault {
        WeaveTextFault::OutOfMemory
    }
}
