//! Why a configuration is refused, and at which key.
ghost use Rattle.std.specs.Prelude.{◌≡◌, Some, Err};
ghost use Rattle.daemon_config.specs.Words.{kind_word, key_word, fault_text};
ghost use Rattle.daemon_config.specs.declared.fault.ConfigFault.TheVariants.{OutOfMemory as no_memory};

use isis_base::OutOfMemory;
use std::alloc::{AllocError, AllocFailed};
use std::error::Error;
use std::fmt;

/// Why a configuration is refused (own).
#[derive(Clone, Copy, Debug, PartialEq, Eq)]
pub enum ConfigKind {
    /// The octets aren't UTF-8, or the text is no document (TOML 1.1).
    Text,
    /// A table has a key that it may not have.
    Unknown,
    /// A key that must be there isn't.
    Missing,
    /// A key has a value of another type.
    Kind,
    /// A key has a text, a number or a count that isn't allowed, or a prefix is named twice.
    Value,
}

/// Where a configuration is refused: the document, a kind of table, or a key (own).
#[derive(Clone, Copy, Debug, PartialEq, Eq)]
pub enum ConfigKey {
    /// The document as a text.
    Document,
    /// The table of the document.
    Top,
    /// The list of circuits, or a circuit's table.
    Circuit,
    /// The list of prefixes, a prefix's table, or its `prefix`.
    Prefix,
    /// The system ID.
    System,
    /// The area addresses.
    Areas,
    /// The levels that the router runs.
    Level,
    /// Whether routes of level 2 leak into level 1.
    Leak,
    /// Whether overload is set.
    Overload,
    /// The key of level 1.
    AreaKey,
    /// The key of level 2.
    DomainKey,
    /// The kind of a circuit.
    Kind,
    /// Where a circuit's port is bound.
    Bind,
    /// Whom a circuit sends to.
    Peers,
    /// The metric of a circuit.
    Metric,
    /// The priority of a circuit.
    Priority,
    /// The IPv4 address of a circuit.
    Address,
    /// The key of a circuit's hellos.
    Key,
    /// Whether a circuit's peers are routers of this project.
    Native,
    /// The metric of a prefix.
    PrefixMetric,
}

/// Why there is no configuration.
#[derive(Clone, Copy, Debug, PartialEq, Eq)]
pub enum ConfigFault {
    /// The first refusal of the document.
    Refused { kind: ConfigKind, key: ConfigKey },
    /// There is no memory for it.
    OutOfMemory,
}

/// The answer that refuses a configuration.
pub(crate) fn refused<T>(kind: ConfigKind, key: ConfigKey) -> Result<T, ConfigFault>
    ensures { result ≡ Err (ConfigFault.Refused kind key) }
{
    Err(ConfigFault::Refused { kind, key })
}

impl fmt::Display for ConfigKind {
    ghost output = { λ kind. Some (kind_word kind) };

    fn fmt<W: fmt::Write>(&self, f: &mut fmt::Formatter<W>) -> fmt::Result {
        match self {
            ConfigKind::Text => write!(f, "text"),
            ConfigKind::Unknown => write!(f, "unknown"),
            ConfigKind::Missing => write!(f, "missing"),
            ConfigKind::Kind => write!(f, "kind"),
            ConfigKind::Value => write!(f, "value"),
        }
    }
}

impl fmt::Display for ConfigKey {
    ghost output = { λ key. Some (key_word key) };

    fn fmt<W: fmt::Write>(&self, f: &mut fmt::Formatter<W>) -> fmt::Result {
        f.write_str(self.word())
    }
}

impl fmt::Display for ConfigFault {
    ghost output = { λ fault. Some (fault_text fault) };

    fn fmt<W: fmt::Write>(&self, f: &mut fmt::Formatter<W>) -> fmt::Result {
        match self {
            ConfigFault::Refused { kind, key } => write!(f, "{kind} {key}"),
            ConfigFault::OutOfMemory => write!(f, "out of memory"),
        }
    }
}

impl Error for ConfigFault {}

impl From<OutOfMemory> for ConfigFault {
    ghost from_gives = { λ _ fault. fault ≡ no_memory };

    fn from(_error: OutOfMemory) -> ConfigFault {
        ConfigFault::OutOfMemory
    }
}

impl From<AllocError> for ConfigFault {
    ghost from_gives = { λ _ fault. fault ≡ no_memory };

    fn from(_error: AllocError) -> ConfigFault {
        ConfigFault::OutOfMemory
    }
}

impl<T: Drop> From<AllocFailed<T>> for ConfigFault {
    ghost from_gives = { λ _ fault. fault ≡ no_memory };

    fn from(_error: AllocFailed<T>) -> ConfigFault {
        ConfigFault::OutOfMemory
    }
}
