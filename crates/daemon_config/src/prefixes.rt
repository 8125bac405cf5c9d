//! The prefixes of a document.
ghost use Rattle.std.specs.Prelude.{◌≡◌, ◌⊎◌, ◌==◌, ℕ, ◌∷◌, [], List, map, Ok, Err, IfOk, IfErr, OnOk, Result};
ghost use Rattle.toml.specs.Data.{Members, as_table};
ghost use Rattle.toml.specs.View.{view, table_view};
ghost use Rattle.daemon_config.specs.Config.{prefixes_after, prefixes_at};
ghost use Rattle.daemon_config.specs.Seen.{parts_seen};
ghost use Rattle.daemon_config.specs.Shapes.{wanted, otherwise, text, tables};
ghost use Rattle.daemon_config.specs.Steps.{Stops};

use crate::fault::{ConfigFault, ConfigKey, ConfigKind, refused};
use crate::lists::table_items;
use crate::named::NamedPrefixes;
use crate::shapes::{found, number_or, wanted_text};
use isis_base::Prefix;
use isis_base::numbers::{PREFIX_LIMIT, PREFIX_METRIC};
use router_desk::Prefixes;
use std::alloc::Global;
use toml::{Table, Value};

/// The prefixes of a document, at most 4,096.
#[tactic(auto, unfolding(crate::specs::Config::prefixes_at, crate::specs::Config::prefixes_after))]
pub(crate) fn read_prefixes(alloc: Global, top: &Table) -> Result<Prefixes, ConfigFault>
    ensures ok { IfOk result (λ list. prefixes_at (table_view top.now) ≡ Ok list) }
    ensures err { IfErr result (λ fault. Stops fault (prefixes_at (table_view top.now))) }
{
    let key = ConfigKey::Prefix;
    let Some(value) = found(top, key) else {
        return Ok(Prefixes::new(alloc));
    };
    match table_items(value, key, 0, PREFIX_LIMIT) {
        Ok(items) => prefixes_in(alloc, items),
        Err(fault) => Err(fault),
    }
}

/// The prefixes of tables. Items that are no tables are passed over; `table_items` lets none through.
#[tactic(auto, unfolding(crate::specs::Config::prefixes_after))]
fn prefixes_in(alloc: Global, items: &[Value]) -> Result<Prefixes, ConfigFault>
    ensures ok { IfOk result (λ list. prefixes_after [] (parts_seen as_table items.now) ≡ Ok list) }
    ensures err { IfErr result (λ fault.
        Stops fault (prefixes_after [] (parts_seen as_table items.now))) }
{
    let mut named = NamedPrefixes::new(alloc);
    let mut left = items;
    while let [item, rest @ ..] = left {
        if let Some(table) = item.as_table() {
            named = match with_prefix(table, named) {
                Ok(more) => more,
                Err(fault) => return Err(fault),
            };
        }
        left = rest;
    }
    Ok(named.into_list())
}

/// The prefixes that were named, and that of a table behind them.
#[tactic(auto, unfolding(crate::specs::Config::prefixes_after))]
fn with_prefix(table: &Table, named: NamedPrefixes) -> Result<NamedPrefixes, ConfigFault>
    ensures ok { (more : List Members) → IfOk result (λ all. prefixes_after all more
        ≡ prefixes_after named (table_view table.now ∷ more)) }
    ensures err { (more : List Members) → IfErr result (λ fault.
        Stops fault (prefixes_after named (table_view table.now ∷ more))) }
{
    let prefix = wanted_text::<Prefix>(table, ConfigKey::Prefix)?;
    if named.has(&prefix) {
        return refused(ConfigKind::Value, ConfigKey::Prefix);
    }
    let metric = number_or(table, ConfigKey::PrefixMetric, 10, PREFIX_METRIC)?;
    match named.with(prefix, metric) {
        Ok(all) => Ok(all),
        Err(_) => Err(ConfigFault::OutOfMemory),
    }
}
