//! Why a call on a network isn't carried out.
ghost use Rattle.std.specs.Prelude.{◌≡◌, Some};
ghost use Rattle.lab_keys.specs.Limits.{limit_word, fault_line};
ghost use Rattle.lab_keys.specs.declared.faults.LabFault.TheVariants.{OutOfMemory};

use isis_base::OutOfMemory;
use std::alloc::{AllocError, AllocFailed};
use std::error::Error;
use std::fmt;

/// A quantity of a network that has a limit.
#[derive(Clone, Copy, Debug, PartialEq, Eq)]
pub enum LimitName {
    /// 1,024 routers.
    Routers,
    /// 4,096 links and LANs.
    Links,
    /// 64 circuits of a router.
    Circuits,
    /// 4,096 prefixes of a router's own.
    Prefixes,
    /// 262,144 datagrams.
    Datagrams,
    /// Boot number 16,777,215.
    Boots,
}

/// Why a call of a network is refused. A refused call leaves the network as it was, but at
/// `Limit(Datagrams)` and `OutOfMemory`, which stop a network where it then stands.
#[derive(Clone, Copy, Debug, PartialEq, Eq)]
pub enum LabFault {
    /// What is to be taken wasn't sent, or isn't there; `sent` is how many were.
    NotSent { sent: usize },
    /// No link joins the routers, or the router isn't on the link.
    NotOn,
    /// A limit would be passed.
    Limit(LimitName),
    /// There is no memory for it.
    OutOfMemory,
}

impl fmt::Display for LimitName {
    ghost output = { λ which. Some (limit_word which) };

    fn fmt<W: fmt::Write>(&self, f: &mut fmt::Formatter<W>) -> fmt::Result {
        match self {
            LimitName::Routers => write!(f, "routers"),
            LimitName::Links => write!(f, "links"),
            LimitName::Circuits => write!(f, "circuits"),
            LimitName::Prefixes => write!(f, "prefixes"),
            LimitName::Datagrams => write!(f, "datagrams"),
            LimitName::Boots => write!(f, "boots"),
        }
    }
}

impl fmt::Display for LabFault {
    ghost output = { λ fault. Some (fault_line fault) };

    fn fmt<W: fmt::Write>(&self, f: &mut fmt::Formatter<W>) -> fmt::Result {
        match self {
            LabFault::NotSent { sent } => write!(f, "not sent; {sent} were"),
            LabFault::NotOn => write!(f, "not on the link"),
            LabFault::Limit(which) => write!(f, "limit of {which}"),
            LabFault::OutOfMemory => write!(f, "out of memory"),
        }
    }
}

impl Error for LabFault {}

impl From<AllocError> for LabFault {
    ghost from_gives = { λ _ fault. fault ≡ OutOfMemory };

    fn from(_error: AllocError) -> LabFault {
        LabFault::OutOfMemory
    }
}

impl From<OutOfMemory> for LabFault {
    ghost from_gives = { λ _ fault. fault ≡ OutOfMemory };

    fn from(_error: OutOfMemory) -> LabFault {
        LabFault::OutOfMemory
    }
}

impl<T: Drop> From<AllocFailed<T>> for LabFault {
    ghost from_gives = { λ _ fault. fault ≡ OutOfMemory };

    fn from(_error: AllocFailed<T>) -> LabFault {
        LabFault::OutOfMemory
    }
}
