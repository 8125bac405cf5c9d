//! Fields of octets at a place: numbers, the first octet the greatest, and identifiers (ISO 10589 9).
ghost use Rattle.std.specs.Prelude.{◌≡◌, ◌+◌, ◌≤◌, length, drop};
ghost use Rattle.isis_base.specs.Fields as field;

use crate::identifiers::{LspId, NodeId, SystemId};
use crate::numbers::LSP_HEADER;

/// The number of the two octets at a place.
pub fn u16_at(octets: &[u8], place: usize) -> u16
    requires { place + 2 ≤ length octets.now }
    ensures { result ≡ field.u16_at place octets.now }
{
    u16::from_be_bytes([octets[place], octets[place + 1]])
}

/// The number of the three octets at a place.
pub fn u24_at(octets: &[u8], place: usize) -> u32
    requires { place + 3 ≤ length octets.now }
    ensures { result ≡ field.u24_at place octets.now }
{
    u32::from_be_bytes([0, octets[place], octets[place + 1], octets[place + 2]])
}

/// The number of the four octets at a place.
pub fn u32_at(octets: &[u8], place: usize) -> u32
    requires { place + 4 ≤ length octets.now }
    ensures { result ≡ field.u32_at place octets.now }
{
    u32::from_be_bytes([
        octets[place],
        octets[place + 1],
        octets[place + 2],
        octets[place + 3],
    ])
}

/// The system ID of the six octets at a place (ISO 10589 9.8).
pub fn system_at(octets: &[u8], place: usize) -> SystemId
    requires { place + 6 ≤ length octets.now }
    ensures { result ≡ field.system_at place octets.now }
{
    let mut system = [0; 6];
    system.copy_from_slice(&octets[place..place + 6]);
    SystemId(system)
}

/// The node ID of the seven octets at a place (ISO 10589 9.8).
pub fn node_at(octets: &[u8], place: usize) -> NodeId
    requires { place + 7 ≤ length octets.now }
    ensures { result ≡ field.node_at place octets.now }
{
    let system = system_at(octets, place);
    let pseudonode = octets[place + 6];
    NodeId { system, pseudonode }
}

/// The LSP ID of the eight octets at a place (ISO 10589 9.8).
pub fn lsp_at(octets: &[u8], place: usize) -> LspId
    requires { place + 8 ≤ length octets.now }
    ensures { result ≡ field.lsp_at place octets.now }
{
    let node = node_at(octets, place);
    let number = octets[place + 7];
    LspId { node, number }
}

/// The octets behind an LSP's header (ISO 10589 9.8); none where they are fewer than it has.
pub fn behind_header(octets: &[u8]) -> &[u8]
    ensures { result.now ≡ drop 27 octets.now }
{
    if octets.len() < LSP_HEADER {
        return &[];
    }
    &octets[LSP_HEADER..]
}
