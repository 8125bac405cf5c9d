//! The words of keys, their names in tables, and the keys that each kind of table may have.
ghost use Rattle.std.specs.Prelude.{◌≡◌};
ghost use Rattle.daemon_config.specs.Words.{key_word, member_name};

use crate::fault::ConfigKey;

/// The keys of a document.
pub(crate) const TOP_KEYS: [ConfigKey; 9] = [
    ConfigKey::System,
    ConfigKey::Areas,
    ConfigKey::Level,
    ConfigKey::Leak,
    ConfigKey::Overload,
    ConfigKey::AreaKey,
    ConfigKey::DomainKey,
    ConfigKey::Circuit,
    ConfigKey::Prefix,
];

/// The keys of a circuit.
pub(crate) const CIRCUIT_KEYS: [ConfigKey; 8] = [
    ConfigKey::Kind,
    ConfigKey::Bind,
    ConfigKey::Peers,
    ConfigKey::Metric,
    ConfigKey::Priority,
    ConfigKey::Address,
    ConfigKey::Key,
    ConfigKey::Native,
];

/// The keys of a prefix.
pub(crate) const PREFIX_KEYS: [ConfigKey; 2] = [ConfigKey::Prefix, ConfigKey::PrefixMetric];

impl ConfigKey {
    /// The word of a refusal.
    pub(crate) fn word(&self) -> &'static str
        ensures { result.now ≡ key_word self.now }
    {
        match self {
            ConfigKey::Document => "-",
            ConfigKey::Top => "top",
            ConfigKey::Circuit => "circuit",
            ConfigKey::Prefix => "prefix",
            ConfigKey::System => "system",
            ConfigKey::Areas => "areas",
            ConfigKey::Level => "level",
            ConfigKey::Leak => "leak",
            ConfigKey::Overload => "overload",
            ConfigKey::AreaKey => "area_key",
            ConfigKey::DomainKey => "domain_key",
            ConfigKey::Kind => "kind",
            ConfigKey::Bind => "bind",
            ConfigKey::Peers => "peers",
            ConfigKey::Metric => "metric",
            ConfigKey::Priority => "priority",
            ConfigKey::Address => "address",
            ConfigKey::Key => "key",
            ConfigKey::Native => "native",
            ConfigKey::PrefixMetric => "prefix-metric",
        }
    }

    /// The name of a table's member.
    pub(crate) fn name(&self) -> &'static str
        ensures { result.now ≡ member_name self.now }
    {
        match self {
            ConfigKey::PrefixMetric => "metric",
            _ => self.word(),
        }
    }
}
