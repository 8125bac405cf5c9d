//! What an LSP says.
use isis_base::AreaAddress;
use isis_tlv::{NeighbourItem, PrefixItem};

/// What an own LSP says (ISO 10589 9.8): the system's area addresses, its circuits' IPv4 addresses,
/// neighbours and prefixes in their order, and the flags octet of fragment 0. The LSP of a
/// pseudonode says neither areas nor addresses.
#[derive(Drop, Debug)]
pub struct Content {
    pub areas: Vec<AreaAddress>,
    pub addresses: Vec<u32>,
    pub neighbours: Vec<NeighbourItem>,
    pub prefixes: Vec<PrefixItem>,
    pub flags: u8,
    pub pseudonode: bool,
}
