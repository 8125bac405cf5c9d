//! The circuits of a document.
ghost use Rattle.std.specs.Prelude.{◌≡◌, ◌⊎◌, map, Ok, Err, IfOk, IfErr, Result};
ghost use Rattle.toml.specs.Data.{as_table};
ghost use Rattle.toml.specs.View.{view, table_view};
ghost use Rattle.daemon_config.specs.Config.{most_peers, circuit_from, circuits_from, circuits_at};
ghost use Rattle.daemon_config.specs.Seen.{parts_seen};
ghost use Rattle.daemon_config.specs.Shapes.{wanted, tables};
ghost use Rattle.daemon_config.specs.Steps.{Stops};

use crate::fault::{ConfigFault, ConfigKey};
use crate::lists::{read_peers, table_items};
use crate::settings::{CircuitRead, CircuitsRead};
use crate::shapes::{flag_or_false, key_if_given, number_or, text_if_given, wanted, wanted_text};
use daemon_edge::{Address, CircuitPlace, Places};
use isis_base::CircuitKind;
use isis_base::numbers::{CIRCUIT_LIMIT, CIRCUIT_METRIC};
use router_desk::{CircuitConfig, Circuits};
use std::alloc::Global;
use toml::{Table, Value};

/// How many peers a circuit has at most.
fn most_peers(kind: CircuitKind) -> usize
    ensures { result ≡ most_peers kind }
{
    match kind {
        CircuitKind::PointToPoint => 1,
        CircuitKind::Lan => 63,
    }
}

/// The circuit of a table, and its place.
#[tactic(auto, unfolding(crate::specs::Config::circuit_from))]
fn read_circuit(alloc: Global, table: &Table) -> Result<CircuitRead, ConfigFault>
    ensures ok { IfOk result (λ circuit. circuit_from (table_view table.now) ≡ Ok circuit) }
    ensures err { IfErr result (λ fault. Stops fault (circuit_from (table_view table.now))) }
{
    let kind = wanted_text::<CircuitKind>(table, ConfigKey::Kind)?;
    let bind = wanted_text::<Address>(table, ConfigKey::Bind)?;
    let peers = read_peers(alloc, table, most_peers(kind))?;
    let metric = number_or(table, ConfigKey::Metric, 10, CIRCUIT_METRIC)?;
    let priority = number_or(table, ConfigKey::Priority, 64, 127)?;
    let address = text_if_given::<u32>(table, ConfigKey::Address)?;
    let key = key_if_given(alloc, table, ConfigKey::Key)?;
    let native = flag_or_false(table, ConfigKey::Native)?;
    Ok(CircuitRead {
        config: CircuitConfig {
            kind,
            metric,
            priority: priority as u8,
            address,
            key,
        },
        place: CircuitPlace {
            bind,
            peers,
            native,
        },
    })
}

/// The circuits of a document, 1 to 64.
#[tactic(auto, unfolding(crate::specs::Config::circuits_at))]
pub(crate) fn read_circuits(alloc: Global, top: &Table) -> Result<CircuitsRead, ConfigFault>
    ensures ok { IfOk result (λ read. circuits_at (table_view top.now) ≡ Ok read) }
    ensures err { IfErr result (λ fault. Stops fault (circuits_at (table_view top.now))) }
{
    let key = ConfigKey::Circuit;
    let value = match wanted(top, key) {
        Ok(value) => value,
        Err(fault) => return Err(fault),
    };
    match table_items(value, key, 1, CIRCUIT_LIMIT) {
        Ok(items) => circuits_in(alloc, items),
        Err(fault) => Err(fault),
    }
}

/// The circuits of tables. Items that are no tables are passed over; `table_items` lets none through.
#[tactic(auto, unfolding(crate::specs::Config::circuits_from))]
fn circuits_in(alloc: Global, items: &[Value]) -> Result<CircuitsRead, ConfigFault>
    ensures ok { IfOk result (λ read. circuits_from (parts_seen as_table items.now) ≡ Ok read) }
    ensures err { IfErr result (λ fault.
        Stops fault (circuits_from (parts_seen as_table items.now))) }
{
    let mut circuits = Circuits::new(alloc);
    let mut places = Places::new(alloc);
    let mut left = items;
    while let [item, more @ ..] = left {
        if let Some(table) = item.as_table() {
            let circuit = match read_circuit(alloc, table) {
                Ok(circuit) => circuit,
                Err(fault) => return Err(fault),
            };
            match circuits.push(circuit.config) {
                Ok(()) => {}
                Err(_) => return Err(ConfigFault::OutOfMemory),
            }
            match places.push(circuit.place) {
                Ok(()) => {}
                Err(_) => return Err(ConfigFault::OutOfMemory),
            }
        }
        left = more;
    }
    Ok(CircuitsRead { circuits, places })
}
