//! Whether tables have no other keys than they may.
ghost use Rattle.std.specs.Prelude.{◌≡◌, [], ◌∷◌, map, Ok, Err, Result};
ghost use Rattle.std.specs.List.{list_all};
ghost use Rattle.std.specs.Option.{option_map};
ghost use Rattle.toml.specs.View.{view, table_view};
ghost use Rattle.daemon_config.specs.Config.{all_known, known, tables_at};
ghost use Rattle.daemon_config.specs.Documents.{is_named, has_only, tables_in};
ghost use Rattle.daemon_config.specs.Shapes.{found};

use crate::fault::{ConfigFault, ConfigKey, ConfigKind, refused};
use crate::keys::{CIRCUIT_KEYS, PREFIX_KEYS, TOP_KEYS};
use crate::lists::items_of;
use crate::shapes::found;
use toml::{Table, Value};

/// Tests the names of all keys of a document.
#[tactic(auto, unfolding(crate::specs::Config::all_known))]
pub(crate) fn test_names(top: &Table) -> Result<(), ConfigFault>
    ensures { result ≡ all_known (table_view top.now) }
{
    if !has_only(&TOP_KEYS, top) {
        return refused(ConfigKind::Unknown, ConfigKey::Top);
    }
    if !have_only(&CIRCUIT_KEYS, found(top, ConfigKey::Circuit)) {
        return refused(ConfigKind::Unknown, ConfigKey::Circuit);
    }
    if !have_only(&PREFIX_KEYS, found(top, ConfigKey::Prefix)) {
        return refused(ConfigKind::Unknown, ConfigKey::Prefix);
    }
    Ok(())
}

/// Whether the tables of a list have no other keys than these; true where there is no list.
fn have_only(keys: &[ConfigKey], value: Option<&Value>) -> bool
    ensures { result
        ≡ list_all (has_only keys.now) (tables_at (option_map (λ v. view v.now) value.entry)) }
{
    let Some(value) = value else {
        return true;
    };
    match items_of(value) {
        Some(items) => all_have_only(keys, items),
        None => true,
    }
}

/// Whether the tables among these items have no other keys than these.
fn all_have_only(keys: &[ConfigKey], items: &[Value]) -> bool
    ensures { result ≡ list_all (has_only keys.now) (tables_in (map view items.now)) }
{
    let mut left = items;
    while let [item, more @ ..] = left {
        if let Some(table) = item.as_table() {
            if !has_only(keys, table) {
                return false;
            }
        }
        left = more;
    }
    true
}

/// Whether a table has no other keys than these.
fn has_only(keys: &[ConfigKey], table: &Table) -> bool
    ensures { result ≡ has_only keys.now (table_view table.now) }
{
    for (name, _value) in table.iter() {
        if !is_named(keys, name.as_str()) {
            return false;
        }
    }
    true
}

/// Whether a name is that of one of these keys.
fn is_named(keys: &[ConfigKey], name: &str) -> bool
    ensures { result ≡ is_named keys.now name.now }
{
    for key in keys {
        if name == key.name() {
            return true;
        }
    }
    false
}
