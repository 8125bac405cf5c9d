//! LSPs of level 1 from texts.
use crate::graphs::node;
use isis_base::{Level, LspId, Octets};
use isis_pdu::{Pdu, encode};
use isis_tlv::are_tlvs;
use isis_tlv::laws::tlv_laws;
use iso_checksum::fill;
use std::alloc::Global;

/// The octets of an LSP whose lifetime is 1,200 and whose checksum holds: ID, number and TLVs.
fn lsp(alloc: Global, id: LspId, number: u32, tlvs: &[u8]) -> Option<Octets> {
    tlv_laws();
    if tlvs.len() > 1000 || !are_tlvs(tlvs) {
        return None;
    }
    let pdu = Pdu::Lsp {
        level: Level::One,
        lifetime: 1200,
        id,
        number,
        checksum: 0,
        flags: 1,
        tlvs,
    };
    let mut octets = encode(alloc, &pdu).ok()?;
    if octets.len() < 27 || octets.len() > 65535 {
        return None;
    }
    fill(&mut octets.as_mut_slice()[12..], 12);
    Some(octets)
}

/// The LSP of a row: node, fragment, number, and the octets behind the header in hex.
pub fn lsp_of(alloc: Global, row: &str) -> Option<Octets> {
    let (from, rest) = row.split_once(' ')?;
    let (fragment, rest) = rest.split_once(' ')?;
    let (number, hex) = rest.split_once(' ')?;
    let id = LspId {
        node: node(from.parse::<u8>().ok()?),
        number: fragment.parse::<u8>().ok()?,
    };
    let tlvs = hex::decode(alloc, hex).ok()?;
    lsp(alloc, id, number.parse::<u32>().ok()?, tlvs.as_slice())
}
