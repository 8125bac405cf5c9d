//! The line of each kind of item.
ghost use Rattle.std.specs.Prelude.{◌≡◌, ◌++◌, codes, OnOk};
ghost use Rattle.isis_base.specs.PrefixTexts.{address_text};
ghost use Rattle.value_text.specs.ValueLines as lines;

use crate::address::Address;
use crate::items::Line;
use isis_base::{
    AreaAddress, LspEntry, Octets, OutOfMemory, Snpa, SystemId, add_hex, add_lsp_id, add_node_id,
    add_number, add_system_id,
};
use isis_tlv::{NeighbourItem, PrefixItem};
use std::alloc::Global;

impl Line for AreaAddress {
    ghost use Rattle.value_text.specs.ValueLines.{area_line};

    ghost line = { area_line };

    fn add_line(&self, alloc: Global, text: &mut Octets) -> Result<(), OutOfMemory> {
        let words = match format!(in alloc; "{self}") {
            Ok(words) => words,
            Err(_) => return Err(OutOfMemory),
        };
        text.extend(b"area ")?;
        text.extend(words.as_bytes())?;
        text.extend(b"\n")
    }
}

impl Line for Snpa {
    ghost use Rattle.value_text.specs.ValueLines.{snpa_line};

    ghost line = { snpa_line };

    fn add_line(&self, _alloc: Global, text: &mut Octets) -> Result<(), OutOfMemory> {
        add_system_id(text, b"snpa ", SystemId(self.0))?;
        text.extend(b"\n")
    }
}

impl Line for LspEntry {
    ghost use Rattle.value_text.specs.ValueLines.{entry_line};

    ghost line = { entry_line };

    fn add_line(&self, _alloc: Global, text: &mut Octets) -> Result<(), OutOfMemory> {
        add_lsp_id(text, b"entry ", self.id)?;
        add_number(text, b" number ", u64::from(self.number))?;
        add_number(text, b" lifetime ", u64::from(self.lifetime))?;
        text.extend(b" checksum ")?;
        add_checksum(text, self.checksum)?;
        text.extend(b"\n")
    }
}

/// A checksum's two octets in hex.
#[tactic(auto, unfolding(crate::specs::ValueLines::checksum_text))]
fn add_checksum(text: &mut Octets, checksum: u16) -> Result<(), OutOfMemory>
    ensures { OnOk result (text.new ≡ text.old ++ lines.checksum_text checksum) }
{
    let [high, low] = checksum.to_be_bytes();
    add_hex(text, high)?;
    add_hex(text, low)
}

impl Line for NeighbourItem {
    ghost use Rattle.value_text.specs.ValueLines.{neighbour_line};

    ghost line = { neighbour_line };

    fn add_line(&self, _alloc: Global, text: &mut Octets) -> Result<(), OutOfMemory> {
        add_node_id(text, b"neighbour ", self.node)?;
        add_number(text, b" metric ", u64::from(self.metric))?;
        text.extend(b"\n")
    }
}

impl Line for PrefixItem {
    ghost use Rattle.value_text.specs.ValueLines.{prefix_line};

    ghost line = { prefix_line };

    fn add_line(&self, alloc: Global, text: &mut Octets) -> Result<(), OutOfMemory> {
        let prefix = self.prefix;
        let words = match format!(in alloc; "{prefix}") {
            Ok(words) => words,
            Err(_) => return Err(OutOfMemory),
        };
        text.extend(b"prefix ")?;
        text.extend(words.as_bytes())?;
        add_number(text, b" metric ", u64::from(self.metric))?;
        text.extend(down_word(self.down))
    }
}

/// The end of the line of a prefix.
fn down_word(down: bool) -> &'static [u8]
    ensures { result.now ≡ lines.down_word down }
{
    if down { b" down\n" } else { b"\n" }
}

impl Line for Address {
    ghost use Rattle.value_text.specs.ValueLines.{address_line};

    ghost line = { address_line };

    fn add_line(&self, _alloc: Global, text: &mut Octets) -> Result<(), OutOfMemory> {
        add_address(text, self.number)?;
        text.extend(b"\n")
    }
}

/// The word `address` and the four octets.
fn add_address(text: &mut Octets, address: u32) -> Result<(), OutOfMemory>
    ensures { OnOk result (text.new ≡ text.old ++ (codes "address " ++ address_text address)) }
{
    let [a, b, c, d] = address.to_be_bytes();
    add_number(text, b"address ", u64::from(a))?;
    add_number(text, b".", u64::from(b))?;
    add_number(text, b".", u64::from(c))?;
    add_number(text, b".", u64::from(d))
}
