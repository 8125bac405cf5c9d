//! What the tables of values share: octets of hex digits, and the numbers that a value says.
use isis_base::{AreaAddress, LspEntry, NodeId, Snpa};
use isis_tlv::{Adj, NeighbourItem, PrefixItem, ThreeWay, ValueFault};
use std::alloc::{AllocError, Global};

/// The octets of hex digits; `-` has none.
pub fn octets_of(alloc: Global, hex: &str) -> Option<Vec<u8>> {
    let digits = if hex == "-" { "" } else { hex };
    hex::decode(alloc, digits).ok()
}

/// An item's numbers, with a blank before each.
pub trait Says {
    fn say(&self, text: &mut String) -> Result<(), AllocError>;
}

fn say_number(text: &mut String, number: u64) -> Result<(), AllocError> {
    write!(text, " {number}")
}

fn number(octets: &[u8]) -> u64 {
    octets.iter().fold(
        0u64,
        |n, octet| n.wrapping_mul(256).wrapping_add(u64::from(*octet)),
    )
}

fn node_number(node: NodeId) -> u64 {
    number(&node.system.0)
        .wrapping_mul(256)
        .wrapping_add(u64::from(node.pseudonode))
}

impl Says for AreaAddress {
    fn say(&self, text: &mut String) -> Result<(), AllocError> {
        let octets = self.octets();
        say_number(text, octets.len() as u64)?;
        for octet in octets {
            say_number(text, u64::from(*octet))?;
        }
        Ok(())
    }
}

impl Says for Snpa {
    fn say(&self, text: &mut String) -> Result<(), AllocError> {
        say_number(text, number(&self.0))
    }
}

impl Says for LspEntry {
    fn say(&self, text: &mut String) -> Result<(), AllocError> {
        say_number(text, u64::from(self.lifetime))?;
        say_number(text, self.id.to_number())?;
        say_number(text, u64::from(self.number))?;
        say_number(text, u64::from(self.checksum))
    }
}

impl Says for NeighbourItem {
    fn say(&self, text: &mut String) -> Result<(), AllocError> {
        say_number(text, node_number(self.node))?;
        say_number(text, u64::from(self.metric))
    }
}

impl Says for PrefixItem {
    fn say(&self, text: &mut String) -> Result<(), AllocError> {
        say_number(text, u64::from(self.prefix.address()))?;
        say_number(text, u64::from(self.prefix.length()))?;
        say_number(text, u64::from(self.metric))?;
        say_number(text, u64::from(self.down))
    }
}

impl Says for ThreeWay {
    fn say(&self, text: &mut String) -> Result<(), AllocError> {
        let state = match self.state {
            Adj::Up => 0,
            Adj::Initializing => 1,
            Adj::Down => 2,
        };
        say_number(text, state)?;
        if let Some(id) = self.own_id {
            say_number(text, u64::from(id))?;
        }
        if let Some((system, id)) = self.neighbour {
            say_number(text, number(&system.0))?;
            say_number(text, u64::from(id))?;
        }
        Ok(())
    }
}

/// An item's numbers; a fault is `!` and its place.
pub fn say_item<T: Says + Drop>(
    text: &mut String,
    item: Result<T, ValueFault>,
) -> Result<(), AllocError> {
    match item {
        Ok(item) => item.say(text),
        Err(fault) => {
            let place = fault.place;
            write!(text, " !{place}")
        }
    }
}
