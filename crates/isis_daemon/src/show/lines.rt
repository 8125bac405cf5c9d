//! The lines that octets are shown as.
ghost use Rattle.std.specs.Prelude.{◌≡◌, ◌+◌, ◌^◌, ◌<◌, ◌≤◌, ◌++◌, codes, decimal, length, OnOk};
ghost use Rattle.std.specs.List.{flat_map};
ghost use Rattle.isis_tlv.specs.Tlvs.{tlv_list};
ghost use Rattle.isis_tlv.specs.TlvViews.{one_view};
ghost use Rattle.isis_pdu.specs.Decoded.{decoded};
ghost use Rattle.isis_pdu.specs.Layout.{kind_of};
ghost use Rattle.isis_base.specs.PduKinds.{header_length};
ghost use Rattle.isis_pdu.specs.Views.{pdu_view, tlvs_of_pdu, decoded_view};
ghost use Rattle.isis_base.specs.Texts.{node_text, lsp_text};
ghost use Rattle.isis_daemon.specs.ShowText as show;

use isis_base::{
    Level, LevelSet, LspId, NodeId, Octets, OutOfMemory, SystemId, add_hex, add_levels, add_lsp_id,
    add_node_id, add_number, add_system_id,
};
use isis_pdu::{Pdu, PduFaultKind, decode};
use isis_tlv::{Tlv, Tlvs};
use iso_checksum::holds;
use std::alloc::Global;
use value_text::add_value;

/// One of two words, by the level.
fn by_level(level: Level, one: &'static str, two: &'static str) -> &'static str
    ensures { result.now ≡ show.by_level level one.now two.now }
{
    match level {
        Level::One => one,
        Level::Two => two,
    }
}

/// The word of a PDU's type.
fn type_word(pdu: &Pdu<'_>) -> &'static str
    ensures { result.now ≡ show.type_word (pdu_view pdu.now) }
{
    match *pdu {
        Pdu::LanHello { level, .. } => by_level(level, "l1-lan-hello", "l2-lan-hello"),
        Pdu::PointHello { .. } => "p2p-hello",
        Pdu::Lsp { level, .. } => by_level(level, "l1-lsp", "l2-lsp"),
        Pdu::Csnp { level, .. } => by_level(level, "l1-csnp", "l2-csnp"),
        Pdu::Psnp { level, .. } => by_level(level, "l1-psnp", "l2-psnp"),
    }
}

/// The word of a fault of octets.
fn kind_word(kind: PduFaultKind) -> &'static str
    ensures { result.now ≡ show.kind_word kind }
{
    match kind {
        PduFaultKind::Short => "Short",
        PduFaultKind::Discriminator => "Discriminator",
        PduFaultKind::Version => "Version",
        PduFaultKind::IdLength => "IdLength",
        PduFaultKind::PduType => "PduType",
        PduFaultKind::MaxAreas => "MaxAreas",
        PduFaultKind::HeaderLength => "HeaderLength",
        PduFaultKind::CircuitType => "CircuitType",
        PduFaultKind::PduLength => "PduLength",
        PduFaultKind::Tlv => "Tlv",
    }
}

/// What an LSP's checksum comes to, of the LSP's octets (ISO 10589 7.3.11).
#[tactic(auto, unfolding(crate::specs::ShowText::checksum_word))]
fn checksum_word(lifetime: u16, checksum: u16, octets: &[u8]) -> &'static str
    requires { 12 ≤ length octets.now }
    ensures { result.now ≡ show.checksum_word lifetime checksum octets.now }
{
    if lifetime == 0 {
        "purge"
    } else if checksum == 0 || !holds(&octets[12..]) {
        "bad"
    } else {
        "good"
    }
}

/// Adds the fields that both kinds of hellos have.
fn add_hello(
    text: &mut Octets,
    circuit_type: LevelSet,
    source: SystemId,
    holding: u16,
) -> Result<(), OutOfMemory>
    ensures { OnOk result (text.new ≡ text.old ++ show.hello_text circuit_type source holding) }
{
    add_levels(text, b" circuit ", circuit_type)?;
    add_system_id(text, b" source ", source)?;
    add_number(text, b" holding ", u64::from(holding))
}

/// Adds a number's two octets in hex.
#[tactic(auto, unfolding(crate::specs::ShowText::hex_field))]
fn add_hex_field(text: &mut Octets, number: u16) -> Result<(), OutOfMemory>
    ensures { OnOk result (text.new ≡ text.old ++ show.hex_field number) }
{
    let [high, low] = number.to_be_bytes();
    add_hex(text, high)?;
    add_hex(text, low)
}

/// Adds the last fields of an LSP.
fn add_checksum(
    text: &mut Octets,
    lifetime: u16,
    checksum: u16,
    flags: u8,
    octets: &[u8],
) -> Result<(), OutOfMemory>
    requires { 12 ≤ length octets.now }
    ensures { OnOk result (text.new ≡ text.old
        ++ show.checksum_text lifetime checksum flags octets.now) }
{
    text.extend(b" checksum ")?;
    add_hex_field(text, checksum)?;
    text.push(b' ')?;
    text.extend(checksum_word(lifetime, checksum, octets).as_bytes())?;
    text.extend(b" flags ")?;
    add_hex(text, flags)
}

/// Adds the fields of a LAN hello.
fn add_lan_hello(
    text: &mut Octets,
    circuit_type: LevelSet,
    source: SystemId,
    holding: u16,
    priority: u8,
    lan: NodeId,
) -> Result<(), OutOfMemory>
    ensures { OnOk result (text.new ≡ text.old ++ (show.hello_text circuit_type source holding
        ++ codes " priority " ++ decimal priority ++ codes " lan " ++ node_text lan)) }
{
    add_hello(text, circuit_type, source, holding)?;
    add_number(text, b" priority ", u64::from(priority))?;
    add_node_id(text, b" lan ", lan)
}

/// Adds the fields of a hello of a point-to-point link.
fn add_point_hello(
    text: &mut Octets,
    circuit_type: LevelSet,
    source: SystemId,
    holding: u16,
    circuit: u8,
) -> Result<(), OutOfMemory>
    ensures { OnOk result (text.new ≡ text.old ++ (show.hello_text circuit_type source holding
        ++ codes " id " ++ decimal circuit)) }
{
    add_hello(text, circuit_type, source, holding)?;
    add_number(text, b" id ", u64::from(circuit))
}

/// Adds the first fields of an LSP.
fn add_entry(text: &mut Octets, lifetime: u16, id: LspId, number: u32) -> Result<(), OutOfMemory>
    ensures { OnOk result (text.new ≡ text.old ++ (codes " lifetime " ++ decimal lifetime
        ++ codes " id " ++ lsp_text id ++ codes " number " ++ decimal number)) }
{
    add_number(text, b" lifetime ", u64::from(lifetime))?;
    add_lsp_id(text, b" id ", id)?;
    add_number(text, b" number ", u64::from(number))
}

/// Adds the fields of a CSNP.
fn add_range(text: &mut Octets, source: NodeId, start: LspId, end: LspId) -> Result<(), OutOfMemory>
    ensures { OnOk result (text.new ≡ text.old ++ (codes " source " ++ node_text source
        ++ codes " start " ++ lsp_text start ++ codes " end " ++ lsp_text end)) }
{
    add_node_id(text, b" source ", source)?;
    add_lsp_id(text, b" start ", start)?;
    add_lsp_id(text, b" end ", end)
}

/// Adds the fields of a PDU, which has these octets.
fn add_fields(text: &mut Octets, pdu: &Pdu<'_>, octets: &[u8]) -> Result<(), OutOfMemory>
    requires { header_length (kind_of (pdu_view pdu.now)) ≤ length octets.now }
    ensures { OnOk result (text.new ≡ text.old ++ show.fields_text (pdu_view pdu.now) octets.now) }
{
    match *pdu {
        Pdu::LanHello {
            circuit_type,
            source,
            holding,
            priority,
            lan,
            ..
        } => add_lan_hello(text, circuit_type, source, holding, priority, lan),
        Pdu::PointHello {
            circuit_type,
            source,
            holding,
            circuit,
            ..
        } => add_point_hello(text, circuit_type, source, holding, circuit),
        Pdu::Lsp {
            lifetime,
            id,
            number,
            checksum,
            flags,
            ..
        } => {
            add_entry(text, lifetime, id, number)?;
            add_checksum(text, lifetime, checksum, flags, octets)
        }
        Pdu::Csnp {
            source,
            start,
            end,
            ..
        } => add_range(text, source, start, end),
        Pdu::Psnp { source, .. } => add_node_id(text, b" source ", source),
    }
}

/// How many TLVs there are.
#[tactic(auto, using(crate::proofs::ShowLemmas::length_tlv_list))]
fn count_tlvs(tlvs: &[u8], first: usize) -> usize
    requires { first + length tlvs.now < 2 ^ 64 }
    ensures { result ≡ length (tlv_list first tlvs.now) }
{
    let mut count = 0;
    for item in Tlvs::new(tlvs, first) {
        if item.is_err() {
            return count;
        }
        count += 1;
    }
    count
}

/// Adds the line of a TLV.
fn add_tlv(text: &mut Octets, tlv: &Tlv<'_>) -> Result<(), OutOfMemory>
    ensures { OnOk result (text.new ≡ text.old ++ show.tlv_line (one_view tlv.now)) }
{
    add_number(text, b"tlv ", u64::from(tlv.code))?;
    add_number(text, b" at ", tlv.place as u64)?;
    add_number(text, b" length ", tlv.value.len() as u64)?;
    text.push(b'\n')
}

/// Adds the lines of a TLV.
fn add_tlv_lines(
    alloc: Global,
    text: &mut Octets,
    long: bool,
    tlv: &Tlv<'_>,
) -> Result<(), OutOfMemory>
    ensures { OnOk result (text.new ≡ text.old ++ show.tlv_lines long (one_view tlv.now)) }
{
    add_tlv(text, tlv)?;
    if long {
        add_value(alloc, text, tlv.code, tlv.value)
    } else {
        Ok(())
    }
}

/// Adds the lines of each TLV.
fn add_tlvs(
    alloc: Global,
    text: &mut Octets,
    long: bool,
    tlvs: &[u8],
    first: usize,
) -> Result<(), OutOfMemory>
    requires { first + length tlvs.now < 2 ^ 64 }
    ensures { OnOk result (text.new ≡ text.old
        ++ flat_map (show.tlv_lines long) (tlv_list first tlvs.now)) }
{
    for item in Tlvs::new(tlvs, first) {
        let Ok(tlv) = item else {
            return Ok(());
        };
        match add_tlv_lines(alloc, text, long, &tlv) {
            Ok(()) => {}
            Err(fault) => return Err(fault),
        }
    }
    Ok(())
}

/// Adds the first line of a PDU, which has these octets, up to the count of its TLVs.
#[tactic(auto, unfolding(crate::specs::ShowText::head_text))]
fn add_head(
    text: &mut Octets,
    number: usize,
    pdu: &Pdu<'_>,
    octets: &[u8],
) -> Result<(), OutOfMemory>
    requires { header_length (kind_of (pdu_view pdu.now)) ≤ length octets.now }
    ensures { OnOk result (text.new ≡ text.old
        ++ show.head_text number (pdu_view pdu.now) octets.now) }
{
    add_number(text, b"pdu ", number as u64)?;
    text.push(b' ')?;
    text.extend(type_word(pdu).as_bytes())?;
    add_number(text, b" length ", octets.len() as u64)?;
    add_fields(text, pdu, octets)
}

/// Adds the lines of a PDU, which has these octets.
fn add_pdu(
    alloc: Global,
    text: &mut Octets,
    long: bool,
    number: usize,
    pdu: &Pdu<'_>,
    octets: &[u8],
) -> Result<(), OutOfMemory>
    requires { header_length (kind_of (pdu_view pdu.now)) ≤ length octets.now }
    ensures { OnOk result (text.new ≡ text.old
        ++ show.pdu_lines long number (pdu_view pdu.now) octets.now) }
{
    let tlvs = pdu.tlvs();
    let first = pdu.header_len();
    add_head(text, number, pdu, octets)?;
    add_number(text, b" tlvs ", count_tlvs(tlvs, first) as u64)?;
    text.push(b'\n')?;
    add_tlvs(alloc, text, long, tlvs, first)
}

/// Adds the line of a fault.
pub fn add_fault(
    text: &mut Octets,
    number: usize,
    kind: &str,
    place: usize,
) -> Result<(), OutOfMemory>
    ensures { OnOk result (text.new ≡ text.old ++ show.fault_line number kind.now place) }
{
    add_number(text, b"pdu ", number as u64)?;
    text.extend(b" fault ")?;
    text.extend(kind.as_bytes())?;
    add_number(text, b" ", place as u64)?;
    text.push(b'\n')
}

/// Adds the lines of the PDU that octets begin with, or of its fault.
pub fn add_octets(
    alloc: Global,
    text: &mut Octets,
    long: bool,
    number: usize,
    octets: &[u8],
) -> Result<(), OutOfMemory>
    ensures { OnOk result (text.new ≡ text.old
        ++ show.octets_lines long number octets.now (decoded octets.now)) }
{
    match decode(octets) {
        Ok((pdu, end)) => add_pdu(alloc, text, long, number, &pdu, &octets[..end]),
        Err(fault) => add_fault(text, number, kind_word(fault.kind), fault.place),
    }
}
