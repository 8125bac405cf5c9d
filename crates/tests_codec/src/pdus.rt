//! The tables are from pdus_vectors.py beside src/, which packs PDUs with Python's `struct` and prints their values in the form
//! of `Debug`.
ghost use Rattle.std.specs.Prelude.{◌≡◌};
ghost use Rattle.isis_pdu.specs.Views.{pdu_view};
ghost use Rattle.isis_pdu.specs.Spelling.{priority_of};

use crate::says::octets_of;
use isis_base::Octets;
use isis_pdu::{Pdu, PduFaultKind, decode, encode, encoded_len};
use isis_tlv::are_tlvs;
use std::alloc::Global;
use std::test::Fail;

/// PDUs as they are written: the octets in hex, the number of octets behind the PDU, and its value.
const WRITTEN: &str = "\
831b01000f01000003000000000001001e00214000000000000201010403490001 0 LanHello { level: One, circuit_type: Both, source: SystemId([0, 0, 0, 0, 0, 1]), holding: 30, priority: 64, lan: NodeId { system: SystemId([0, 0, 0, 0, 0, 2]), pseudonode: 1 }, tlvs: [1, 4, 3, 73, 0, 1] }
831b01000f01000001ffffffffffffffff001d7fffffffffffffff0600 0 LanHello { level: One, circuit_type: One, source: SystemId([255, 255, 255, 255, 255, 255]), holding: 65535, priority: 127, lan: NodeId { system: SystemId([255, 255, 255, 255, 255, 255]), pseudonode: 255 }, tlvs: [6, 0] }
831b010010010000020123456789ab0100002400cdef01234567890104034900018101cc 0 LanHello { level: Two, circuit_type: Two, source: SystemId([1, 35, 69, 103, 137, 171]), holding: 256, priority: 0, lan: NodeId { system: SystemId([205, 239, 1, 35, 69, 103]), pseudonode: 137 }, tlvs: [1, 4, 3, 73, 0, 1, 129, 1, 204] }
8314010011010000010123456789ab001e001401 0 PointHello { circuit_type: One, source: SystemId([1, 35, 69, 103, 137, 171]), holding: 30, circuit: 1, tlvs: [] }
831401001101000002ffffffffffffffff0017fff00102 0 PointHello { circuit_type: Two, source: SystemId([255, 255, 255, 255, 255, 255]), holding: 65535, circuit: 255, tlvs: [240, 1, 2] }
8314010011010000030000000000010001001a00010403490001 0 PointHello { circuit_type: Both, source: SystemId([0, 0, 0, 0, 0, 1]), holding: 1, circuit: 0, tlvs: [1, 4, 3, 73, 0, 1] }
831b010012010000002104af0123456789abcdef0123456789ab03010403490001 0 Lsp { level: One, lifetime: 1199, id: LspId { node: NodeId { system: SystemId([1, 35, 69, 103, 137, 171]), pseudonode: 205 }, number: 239 }, number: 19088743, checksum: 35243, flags: 3, tlvs: [1, 4, 3, 73, 0, 1] }
831b010014010000001bffffffffffffffffffffffffffffffffff 0 Lsp { level: Two, lifetime: 65535, id: LspId { node: NodeId { system: SystemId([255, 255, 255, 255, 255, 255]), pseudonode: 255 }, number: 255 }, number: 4294967295, checksum: 65535, flags: 255, tlvs: [] }
831b010014010000001b0000000000000001000000000001000000 0 Lsp { level: Two, lifetime: 0, id: LspId { node: NodeId { system: SystemId([0, 0, 0, 0, 0, 1]), pseudonode: 0 }, number: 0 }, number: 1, checksum: 0, flags: 0, tlvs: [] }
832101001801000000330123456789ab000000000000000000ffffffffffffffff0910000102030405060708090a0b0c0d0e0f 0 Csnp { level: One, source: NodeId { system: SystemId([1, 35, 69, 103, 137, 171]), pseudonode: 0 }, start: LspId { node: NodeId { system: SystemId([0, 0, 0, 0, 0, 0]), pseudonode: 0 }, number: 0 }, end: LspId { node: NodeId { system: SystemId([255, 255, 255, 255, 255, 255]), pseudonode: 255 }, number: 255 }, tlvs: [9, 16, 0, 1, 2, 3, 4, 5, 6, 7, 8, 9, 10, 11, 12, 13, 14, 15] }
83210100190100000021ffffffffffffffcdef0123456789abcdef0123456789ac 0 Csnp { level: Two, source: NodeId { system: SystemId([255, 255, 255, 255, 255, 255]), pseudonode: 255 }, start: LspId { node: NodeId { system: SystemId([205, 239, 1, 35, 69, 103]), pseudonode: 137 }, number: 171 }, end: LspId { node: NodeId { system: SystemId([205, 239, 1, 35, 69, 103]), pseudonode: 137 }, number: 172 }, tlvs: [] }
831101001a01000000130123456789abcd0900 0 Psnp { level: One, source: NodeId { system: SystemId([1, 35, 69, 103, 137, 171]), pseudonode: 205 }, tlvs: [9, 0] }
831101001b0100000011ffffffffffffff 0 Psnp { level: Two, source: NodeId { system: SystemId([255, 255, 255, 255, 255, 255]), pseudonode: 255 }, tlvs: [] }";

/// The same with reserved bits and octets, with an ID length of 6 or a number of areas of 3, or with octets behind.
const HEARD: &str = "\
831b0106ef01ff03ff000000000001001e0021c000000000000201010403490001 0 LanHello { level: One, circuit_type: Both, source: SystemId([0, 0, 0, 0, 0, 1]), holding: 30, priority: 64, lan: NodeId { system: SystemId([0, 0, 0, 0, 0, 2]), pseudonode: 1 }, tlvs: [1, 4, 3, 73, 0, 1] }
831b01001001000001000000000001001e001b800000000000020101 1 LanHello { level: Two, circuit_type: One, source: SystemId([0, 0, 0, 0, 0, 1]), holding: 30, priority: 0, lan: NodeId { system: SystemId([0, 0, 0, 0, 0, 2]), pseudonode: 1 }, tlvs: [] }
831401003101000046000000000001001e001a07010403490001831b 2 PointHello { circuit_type: Two, source: SystemId([0, 0, 0, 0, 0, 1]), holding: 30, circuit: 7, tlvs: [1, 4, 3, 73, 0, 1] }
831b010612010000002104af000000000001000700000005abcd0b01040349000100000000000000000000000000000000000000000000000000000000000000000000000000000000 40 Lsp { level: One, lifetime: 1199, id: LspId { node: NodeId { system: SystemId([0, 0, 0, 0, 0, 1]), pseudonode: 0 }, number: 7 }, number: 5, checksum: 43981, flags: 11, tlvs: [1, 4, 3, 73, 0, 1] }
83210100d90100000021000000000001000000000000000000ffffffffffffffffff 1 Csnp { level: Two, source: NodeId { system: SystemId([0, 0, 0, 0, 0, 1]), pseudonode: 0 }, start: LspId { node: NodeId { system: SystemId([0, 0, 0, 0, 0, 0]), pseudonode: 0 }, number: 0 }, end: LspId { node: NodeId { system: SystemId([255, 255, 255, 255, 255, 255]), pseudonode: 255 }, number: 255 }, tlvs: [] }
831101001a0101030017000000000001000104034900010000 2 Psnp { level: One, source: NodeId { system: SystemId([0, 0, 0, 0, 0, 1]), pseudonode: 0 }, tlvs: [1, 4, 3, 73, 0, 1] }";

/// Octets that are no PDU, the fault and its place.
const FAULTS: &str = "\
- Short 0
00000000000000 Short 7
821b020012010000002104b0000000000001000000000001abcd03010403490001 Discriminator 0
831b000812010000002104b0000000000001000000000001abcd03010403490001 Version 2
831b010800010000002104b0000000000001000000000001abcd03010403490001 IdLength 3
831b010112010000002104b0000000000001000000000001abcd03010403490001 IdLength 3
831b010000000000002104b0000000000001000000000001abcd03010403490001 PduType 4
831b01000e000000002104b0000000000001000000000001abcd03010403490001 PduType 4
831b010013000000002104b0000000000001000000000001abcd03010403490001 PduType 4
831b010015000000002104b0000000000001000000000001abcd03010403490001 PduType 4
831b010016000000002104b0000000000001000000000001abcd03010403490001 PduType 4
831b010017000000002104b0000000000001000000000001abcd03010403490001 PduType 4
831b01001c000000002104b0000000000001000000000001abcd03010403490001 PduType 4
831b01001f000000002104b0000000000001000000000001abcd03010403490001 PduType 4
831b010012020001002104b0000000000001000000000001abcd03010403490001 Version 5
831a010012010001002104b0000000000001000000000001abcd03010403490001 MaxAreas 7
831c010012010000002104b00000000000010000 HeaderLength 1
8321010014010000002104b0000000000001000000000001abcd03010403490001 HeaderLength 1
831b010012010000000004b0000000000001000000000001abcd Short 26
831401001101000003000000000001001e001a Short 19
831101001a0100000017000000000001 Short 16
83210100190100000027000000000001000000000000000000ffffffffffffff Short 32
831b01000f01000000000000000001001e00004000000000000101010403490001 CircuitType 8
8314010011010000fc000000000001001e001a01010403490001 CircuitType 8
831b01000f01000003000000000001001e001a4000000000000101010403490001 PduLength 17
831401001101000003000000000001001e001b01010403490001 PduLength 17
831401001101000003000000000001001e011a01010403490001 PduLength 17
831b010012010000001a04b0000000000001000000000001abcd03010403490001 PduLength 8
831b010012010000002104b0000000000001000000000001abcd030104034900 PduLength 8
831101001a010000001000000000000100010403490001 PduLength 8
83210100190100000020000000000001000000000000000000ffffffffffffffff010403490001 PduLength 8
83210100190100000028000000000001000000000000000000ffffffffffffffff010403490001 PduLength 8
831b010012010000001c04b0000000000001000000000001abcd03010403490001 Tlv 27
831b010012010000002004b0000000000001000000000001abcd03010403490001 Tlv 27
831401001101000003000000000001001e001a01010503490001 Tlv 20
831101001a010000001700000000000100010303490001 Tlv 22
83210100190100000027000000000001000000000000000000ffffffffffffffff010203490001 Tlv 37
831b01000f01000003000000000001001e00214000000000000101010103490001 Tlv 32";

/// An LSP of a header alone.
const HEADER: &str = "831b010012010000001b04b0000000000001000000000001abcd03";

/// A LAN hello's priority, 0 of another PDU.
fn priority_of(pdu: &Pdu<'_>) -> u8
    ensures { result ≡ priority_of (pdu_view pdu.now) }
{
    match *pdu {
        Pdu::LanHello { priority, .. } => priority,
        _ => 0,
    }
}

/// The octets that are written of a PDU, where it can be written.
fn written(alloc: Global, pdu: &Pdu<'_>) -> Option<Octets> {
    if encoded_len(pdu) > 65535 || priority_of(pdu) > 127 || !are_tlvs(pdu.tlvs()) {
        return None;
    }
    encode(alloc, pdu).ok()
}

/// Whether the octets of a PDU are written as they were read, where `again` is true, and else as others that read the same.
fn is_written(alloc: Global, octets: &[u8], again: bool) -> Option<bool> {
    let (pdu, len) = decode(octets).ok()?;
    let other = written(alloc, &pdu)?;
    let is_same = other.as_slice() == octets;
    Some(is_same == again && encoded_len(&pdu) == len && decode(other.as_slice()) == Ok((pdu, len)))
}

/// The number of octets behind a PDU, and its value, in words.
fn says(alloc: Global, octets: &[u8]) -> Option<String> {
    let (pdu, len) = decode(octets).ok()?;
    let behind = octets.len().checked_sub(len)?;
    format!(in alloc; "{behind} {pdu:?}").ok()
}

fn is_right(alloc: Global, row: &str, again: bool) -> Option<bool> {
    let (hex, want) = row.split_once(' ')?;
    let octets = octets_of(alloc, hex)?;
    Some(says(alloc, &octets)?.as_str() == want && is_written(alloc, &octets, again)?)
}

fn first_wrong<'a>(alloc: Global, rows: &'a str, again: bool) -> Option<&'a str> {
    for row in rows.lines() {
        if is_right(alloc, row, again) != Some(true) {
            return Some(row);
        }
    }
    None
}

#[test]
fn pdus_are_those_of_others(rt: HostRuntime) {
    assert_eq!(rt; first_wrong(rt.alloc(), WRITTEN, true), None);
    assert_eq!(rt; first_wrong(rt.alloc(), HEARD, false), None);
}

/// The fault of octets and its place, in words.
fn fault_in(alloc: Global, octets: &[u8]) -> Option<String> {
    let fault = decode(octets).err()?;
    let (kind, place) = (fault.kind, fault.place);
    format!(in alloc; "{kind:?} {place}").ok()
}

fn is_fault(alloc: Global, row: &str) -> Option<bool> {
    let (hex, want) = row.split_once(' ')?;
    let octets = octets_of(alloc, hex)?;
    Some(fault_in(alloc, &octets)?.as_str() == want)
}

fn first_misjudged<'a>(alloc: Global, rows: &'a str) -> Option<&'a str> {
    for row in rows.lines() {
        if is_fault(alloc, row) != Some(true) {
            return Some(row);
        }
    }
    None
}

#[test]
fn faults_come_in_order(rt: HostRuntime) {
    assert_eq!(rt; first_misjudged(rt.alloc(), FAULTS), None);
}

/// The fault where all bits of an octet of the header are turned.
const TURNED: [(usize, PduFaultKind, usize); 9] = [
    (0, PduFaultKind::Discriminator, 0),
    (1, PduFaultKind::HeaderLength, 1),
    (2, PduFaultKind::Version, 2),
    (3, PduFaultKind::IdLength, 3),
    (4, PduFaultKind::PduType, 4),
    (5, PduFaultKind::Version, 5),
    (7, PduFaultKind::MaxAreas, 7),
    (8, PduFaultKind::PduLength, 8),
    (9, PduFaultKind::PduLength, 8),
];

/// The kind and the place of the fault of octets.
fn judged(octets: &[u8]) -> Option<(PduFaultKind, usize)> {
    let fault = decode(octets).err()?;
    Some((fault.kind, fault.place))
}

/// The length of the first prefix of a header that isn't found short there.
fn first_long(header: &[u8]) -> Option<usize> {
    for len in 0..header.len() {
        if judged(&header[..len]) != Some((PduFaultKind::Short, len)) {
            return Some(len);
        }
    }
    None
}

/// The fault that the table has of a place.
fn fault_where_turned(place: usize) -> Option<(PduFaultKind, usize)> {
    for (turned, kind, at) in &TURNED {
        if *turned == place {
            return Some((*kind, *at));
        }
    }
    None
}

/// The first octet of a header that has another fault than the table says where its bits are turned.
fn first_misturned(header: &mut [u8]) -> Option<usize> {
    for place in 0..header.len() {
        header[place] ^= 0xff;
        let got = judged(header);
        header[place] ^= 0xff;
        if got != fault_where_turned(place) {
            return Some(place);
        }
    }
    None
}

#[test]
fn a_header_is_whole_and_unchanged(rt: HostRuntime) -> Result<(), Fail> {
    let mut header = octets_of(rt.alloc(), HEADER).ok_or("a header")?;
    assert_eq!(rt; first_long(&header), None);
    assert_eq!(rt; first_misturned(&mut header), None);
    Ok(())
}
