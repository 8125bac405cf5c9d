//! The lines of a value, by its code.
ghost use Rattle.std.specs.Prelude.{◌≡◌, ◌++◌, OnOk};
ghost use Rattle.isis_tlv.specs.Items.{three_way_of};
ghost use Rattle.value_text.specs.ValueLines as lines;

use crate::address::Address;
use crate::items::{add_items, add_misfit};
use isis_base::{
    AreaAddress, LspEntry, Octets, OutOfMemory, Snpa, SystemId, add_number, add_system_id,
};
use isis_tlv::codes::{
    ADDRESSES, AREAS, AUTHENTICATION, ENTRIES, NEIGHBOURS, PREFIXES, SNPAS, THREE_WAY,
};
use isis_tlv::{Adj, NeighbourItem, PrefixItem, ThreeWay, ValueFault, three_way_value};
use std::alloc::Global;

/// Adds a line for each thing that a value says, which has this code: areas, SNPAs, LSP entries, neighbours, addresses and
/// prefixes, the state of the three-way handshake, and the type of authentication. Of other codes it adds nothing.
#[tactic(auto, unfolding(crate::specs::ValueLines::value_lines))]
pub fn add_value(
    alloc: Global,
    text: &mut Octets,
    code: u8,
    value: &[u8],
) -> Result<(), OutOfMemory>
    ensures { OnOk result (text.new ≡ text.old ++ lines.value_lines code value.now) }
{
    if code == AREAS {
        return add_items::<AreaAddress>(alloc, text, value);
    }
    if code == SNPAS {
        return add_items::<Snpa>(alloc, text, value);
    }
    if code == ENTRIES {
        return add_items::<LspEntry>(alloc, text, value);
    }
    if code == AUTHENTICATION {
        return add_authentication(text, value);
    }
    if code == NEIGHBOURS {
        return add_items::<NeighbourItem>(alloc, text, value);
    }
    if code == ADDRESSES {
        return add_items::<Address>(alloc, text, value);
    }
    if code == PREFIXES {
        return add_items::<PrefixItem>(alloc, text, value);
    }
    if code == THREE_WAY {
        return add_handshake(text, value);
    }
    Ok(())
}

/// `authentication TYPE`.
fn add_authentication(text: &mut Octets, value: &[u8]) -> Result<(), OutOfMemory>
    ensures { OnOk result (text.new ≡ text.old ++ lines.authentication_line value.now) }
{
    let [kind, ..] = value else {
        return add_misfit(text, ValueFault { place: 0 });
    };
    add_number(text, b"authentication ", u64::from(*kind))?;
    text.extend(b"\n")
}

/// What a value of code 240 says.
fn add_handshake(text: &mut Octets, value: &[u8]) -> Result<(), OutOfMemory>
    ensures { OnOk result (text.new
        ≡ text.old ++ lines.item_line lines.three_way_line (three_way_of value.now)) }
{
    match three_way_value(value) {
        Ok(value) => add_three_way(text, value),
        Err(fault) => add_misfit(text, fault),
    }
}

/// `three-way STATE circuit ID hears SYSTEM circuit ID`.
fn add_three_way(text: &mut Octets, value: ThreeWay) -> Result<(), OutOfMemory>
    ensures { OnOk result (text.new ≡ text.old ++ lines.three_way_line value) }
{
    text.extend(state_word(value.state))?;
    add_circuit(text, value.own_id)?;
    add_heard(text, value.neighbour)?;
    text.extend(b"\n")
}

/// The word of a state.
fn state_word(state: Adj) -> &'static [u8]
    ensures { result.now ≡ lines.state_word state }
{
    match state {
        Adj::Down => b"three-way down",
        Adj::Initializing => b"three-way initializing",
        Adj::Up => b"three-way up",
    }
}

/// The extended circuit ID of the sender.
fn add_circuit(text: &mut Octets, id: Option<u32>) -> Result<(), OutOfMemory>
    ensures { OnOk result (text.new ≡ text.old ++ lines.circuit_words id) }
{
    match id {
        None => Ok(()),
        Some(id) => add_number(text, b" circuit ", u64::from(id)),
    }
}

/// The neighbour that it hears, with its extended circuit ID.
fn add_heard(text: &mut Octets, heard: Option<(SystemId, u32)>) -> Result<(), OutOfMemory>
    ensures { OnOk result (text.new ≡ text.old ++ lines.heard_words heard) }
{
    match heard {
        None => Ok(()),
        Some((system, id)) => {
            add_system_id(text, b" hears ", system)?;
            add_number(text, b" circuit ", u64::from(id))
        }
    }
}
