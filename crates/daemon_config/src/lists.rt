//! Lists of so many texts or tables.
ghost use Rattle.std.specs.Prelude.{◌≡◌, ◌⊎◌, map, is_some, Ok, Err, IfOk, IfErr, Result};
ghost use Rattle.std.specs.List.{list_all, filter_map};
ghost use Rattle.toml.specs.Data.{as_str, as_table};
ghost use Rattle.toml.specs.View.{view, table_view};
ghost use Rattle.isis_base.specs.AreaTexts.{area_of};
ghost use Rattle.daemon_config.specs.Documents.{list_at};
ghost use Rattle.daemon_config.specs.Fields.{address_of};
ghost use Rattle.daemon_config.specs.Seen.{items_seen, list_seen, parts_seen};
ghost use Rattle.daemon_config.specs.Shapes.{list, texts, tables, all_said, wanted};
ghost use Rattle.daemon_config.specs.Steps.{Stops};

use crate::fault::{ConfigFault, ConfigKey, ConfigKind, refused};
use crate::shapes::{said, wanted};
use daemon_edge::{Address, Peers};
use isis_base::AreaAddress;
use router_desk::Areas;
use std::alloc::Global;
use toml::{Table, Value};

/// The items of a list.
pub(crate) fn items_of(value: &Value) -> Option<&[Value]>
    ensures { items_seen result ≡ list_at (view value.now) }
{
    match value.as_array() {
        Some(array) => Some(array.as_slice()),
        None => None,
    }
}

/// The items of a list of so many texts.
fn text_items<'a>(
    value: &'a Value,
    key: ConfigKey,
    least: usize,
    most: usize,
) -> Result<&'a [Value], ConfigFault>
    ensures { list_seen as_str result ≡ list as_str least most key (view value.now) }
{
    let Some(items) = items_of(value) else {
        return refused(ConfigKind::Kind, key);
    };
    if !are_texts(items) {
        return refused(ConfigKind::Kind, key);
    }
    if items.len() < least {
        return refused(ConfigKind::Value, key);
    }
    if most < items.len() {
        return refused(ConfigKind::Value, key);
    }
    Ok(items)
}

/// The items of a list of so many tables.
pub(crate) fn table_items<'a>(
    value: &'a Value,
    key: ConfigKey,
    least: usize,
    most: usize,
) -> Result<&'a [Value], ConfigFault>
    ensures { list_seen as_table result ≡ tables least most key (view value.now) }
{
    let Some(items) = items_of(value) else {
        return refused(ConfigKind::Kind, key);
    };
    if !are_tables(items) {
        return refused(ConfigKind::Kind, key);
    }
    if items.len() < least {
        return refused(ConfigKind::Value, key);
    }
    if most < items.len() {
        return refused(ConfigKind::Value, key);
    }
    Ok(items)
}

/// Whether all items are texts.
fn are_texts(items: &[Value]) -> bool
    ensures { result ≡ list_all (λ d. is_some (as_str d)) (map view items.now) }
{
    let mut left = items;
    while let [item, more @ ..] = left {
        if !item.is_str() {
            return false;
        }
        left = more;
    }
    true
}

/// Whether all items are tables.
fn are_tables(items: &[Value]) -> bool
    ensures { result ≡ list_all (λ d. is_some (as_table d)) (map view items.now) }
{
    let mut left = items;
    while let [item, more @ ..] = left {
        if !item.is_table() {
            return false;
        }
        left = more;
    }
    true
}

/// The area addresses of a document, 1 to 3.
pub(crate) fn read_areas(alloc: Global, top: &Table) -> Result<Areas, ConfigFault>
    ensures ok { IfOk result (λ areas.
        wanted ConfigKey.Areas (texts 1 3 area_of) (table_view top.now) ≡ Ok areas) }
    ensures err { IfErr result (λ fault.
        Stops fault (wanted ConfigKey.Areas (texts 1 3 area_of) (table_view top.now))) }
{
    let key = ConfigKey::Areas;
    let value = match wanted(top, key) {
        Ok(value) => value,
        Err(fault) => return Err(fault),
    };
    match text_items(value, key, 1, 3) {
        Ok(items) => areas_in(alloc, items),
        Err(fault) => Err(fault),
    }
}

/// The area addresses that texts say. Items that are no texts are passed over; `text_items` lets none
/// through.
fn areas_in(alloc: Global, items: &[Value]) -> Result<Areas, ConfigFault>
    ensures ok { IfOk result (λ areas.
        all_said area_of ConfigKey.Areas (parts_seen as_str items.now) ≡ Ok areas) }
    ensures err { IfErr result (λ fault.
        Stops fault (all_said area_of ConfigKey.Areas (parts_seen as_str items.now))) }
{
    let mut areas = Areas::new(alloc);
    let mut left = items;
    while let [item, more @ ..] = left {
        if let Some(letters) = item.as_str() {
            match said::<AreaAddress>(letters, ConfigKey::Areas) {
                Ok(area) => match areas.push(area) {
                    Ok(()) => {}
                    Err(_) => return Err(ConfigFault::OutOfMemory),
                },
                Err(fault) => return Err(fault),
            }
        }
        left = more;
    }
    Ok(areas)
}

/// The peers of a circuit, 1 to so many.
pub(crate) fn read_peers(alloc: Global, table: &Table, most: usize) -> Result<Peers, ConfigFault>
    ensures ok { IfOk result (λ peers.
        wanted ConfigKey.Peers (texts 1 most address_of) (table_view table.now) ≡ Ok peers) }
    ensures err { IfErr result (λ fault.
        Stops fault (wanted ConfigKey.Peers (texts 1 most address_of) (table_view table.now))) }
{
    let key = ConfigKey::Peers;
    let value = match wanted(table, key) {
        Ok(value) => value,
        Err(fault) => return Err(fault),
    };
    match text_items(value, key, 1, most) {
        Ok(items) => peers_in(alloc, items),
        Err(fault) => Err(fault),
    }
}

/// The addresses that texts say. Items that are no texts are passed over; `text_items` lets none
/// through.
fn peers_in(alloc: Global, items: &[Value]) -> Result<Peers, ConfigFault>
    ensures ok { IfOk result (λ peers.
        all_said address_of ConfigKey.Peers (parts_seen as_str items.now) ≡ Ok peers) }
    ensures err { IfErr result (λ fault.
        Stops fault (all_said address_of ConfigKey.Peers (parts_seen as_str items.now))) }
{
    let mut peers = Peers::new(alloc);
    let mut left = items;
    while let [item, more @ ..] = left {
        if let Some(letters) = item.as_str() {
            match said::<Address>(letters, ConfigKey::Peers) {
                Ok(peer) => match peers.push(peer) {
                    Ok(()) => {}
                    Err(_) => return Err(ConfigFault::OutOfMemory),
                },
                Err(fault) => return Err(fault),
            }
        }
        left = more;
    }
    Ok(peers)
}
