//! Prefixes of which none is named twice.
ghost use Rattle.std.specs.Prelude.{◌≡◌, ◌==◌, [], ◌∷◌, ◌++◌, IfOk};
ghost use Rattle.std.specs.List.{list_any};
ghost use Rattle.isis_base.specs.Prefixes.{prefix_number};
ghost use Rattle.router_desk.specs.Limits.{numbers_of};

use isis_base::{OutOfMemory, Prefix};
use router_desk::Prefixes;
use std::alloc::Global;
use std::collections::BTreeSet;
use std::marker::Model;

/// Prefixes with their metrics, and the numbers of those that are among them, so that whether one
/// was named is found without a walk. Contracts see it as the list.
#[derive(Drop)]
pub(crate) struct NamedPrefixes {
    numbers: BTreeSet<u64>,
    list: Prefixes,
}

impl Model for NamedPrefixes {
    ghost use Rattle.std.specs.Prelude.{ℕ, List};
    ghost use Rattle.isis_base.specs.declared.prefix.Prefix.{Prefix};
    ghost use Rattle.daemon_config.specs.Named.{HasNumbers};

    ghost Value = { List (Prefix × ℕ) };

    ghost view = { λ named. named.list };

    ghost invariant = { λ named. HasNumbers named.numbers named.list };
}

impl NamedPrefixes {
    /// No prefixes. It takes no memory.
    pub(crate) fn new(alloc: Global) -> NamedPrefixes
        ensures { result ≡ [] }
    {
        NamedPrefixes {
            numbers: BTreeSet::new(alloc),
            list: Prefixes::new(alloc),
        }
    }

    /// Whether a prefix is among them.
    pub(crate) fn has(&self, prefix: &Prefix) -> bool
        ensures { result ≡ list_any (λ n. n == prefix_number prefix.now) (numbers_of self.now) }
    {
        self.numbers.contains(&prefix.to_number())
    }

    /// These, and a prefix with its metric behind them.
    pub(crate) fn with(mut self, prefix: Prefix, metric: u32) -> Result<NamedPrefixes, OutOfMemory>
        ensures { IfOk result (λ named. named ≡ self ++ (prefix, metric) ∷ []) }
    {
        self.numbers.insert(prefix.to_number())?;
        self.list.push((prefix, metric))?;
        Ok(self)
    }

    /// The prefixes, given away.
    pub(crate) fn into_list(self) -> Prefixes
        ensures { result ≡ self }
    {
        self.list
    }
}
