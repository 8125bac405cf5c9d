//! PDUs written.
ghost use Rattle.std.specs.Prelude.{◌≡◌, ℕ, List, ◌+◌, ◌^◌, ◌<◌, ◌≤◌, [], ◌∷◌, ◌++◌, length, IfOk};
ghost use Rattle.isis_base.specs.Fields.{u16_octets};
ghost use Rattle.isis_tlv.specs.Tlvs.{AreTlvs};
ghost use Rattle.isis_pdu.specs.Views.{pdu_view, tlvs_of_pdu};
ghost use Rattle.isis_base.specs.PduKinds.{header_length};
ghost use Rattle.isis_pdu.specs.Layout.{kind_of};
ghost use Rattle.isis_pdu.specs.Reading.{Begins};
ghost use Rattle.isis_pdu.specs.Spelling.{encoded_len, priority_of, start_octets, field_octets, header_octets, octets_of_pdu, levels_octet, FieldsFit};

use crate::check::{DISCRIMINATOR, VERSION};
use crate::laws::round_trip_law;
use crate::pdu::Pdu;
use isis_base::{Draft, LevelSet, Octets, OutOfMemory, PduKind, SystemId};
use std::alloc::Global;

/// The octets of a PDU (ISO 10589 9): ID length, number of areas and what is reserved are 0. The PDU has at most 65,535
/// octets, a LAN hello's priority is at most 127, and `tlvs` are TLVs to their end.
pub fn encode(alloc: Global, pdu: &Pdu<'_>) -> Result<Octets, OutOfMemory>
    requires fits { encoded_len (pdu_view pdu.now) ≤ 65535 }
    requires priority { priority_of (pdu_view pdu.now) ≤ 127 }
    requires tlvs { AreTlvs (tlvs_of_pdu (pdu_view pdu.now)) }
    ensures octets { IfOk result (λ octets. octets ≡ octets_of_pdu (pdu_view pdu.now)) }
    ensures sized { IfOk result (λ octets. length octets ≡ encoded_len (pdu_view pdu.now)) }

    // So `decode` gives the PDU and its length back, whatever follows.
    ensures begins { IfOk result (λ octets. (more : List ℕ)
        → Begins (octets ++ more) (pdu_view pdu.now) (encoded_len (pdu_view pdu.now))) }
{
    round_trip_law();
    let header = header_of(pdu);
    let mut octets = Octets::new(alloc);
    octets.extend(header.as_slice())?;
    octets.extend(pdu.tlvs())?;
    Ok(octets)
}

/// The number of octets that `encode` writes, the PDU length.
pub fn encoded_len(pdu: &Pdu<'_>) -> usize
    ensures { result ≡ encoded_len (pdu_view pdu.now) }
{
    pdu.header_len() + pdu.tlvs().len()
}

/// The octet of a circuit type.
fn octet_of_levels(levels: LevelSet) -> u8
    ensures { result ≡ levels_octet levels }
{
    match levels {
        LevelSet::One => 1,
        LevelSet::Two => 2,
        LevelSet::Both => 3,
    }
}

/// Adds what a PDU of this type begins with.
fn add_start(draft: &mut Draft, kind: PduKind)
    requires { length draft.old + 8 ≤ 255 }
    ensures { draft.new ≡ draft.old ++ start_octets kind }
{
    draft.add(&[DISCRIMINATOR, kind.header_length(), VERSION, 0]);
    draft.add(&[kind.number(), VERSION, 0, 0]);
}

/// Adds the fields that every hello begins with.
fn add_hello(draft: &mut Draft, levels: LevelSet, source: SystemId, holding: u16, count: [u8; 2])
    requires { length draft.old + 11 ≤ 255 }
    ensures octets { draft.new ≡ draft.old ++ levels_octet levels ∷ [] ++ source.0
        ++ u16_octets holding ++ count }
    ensures count { length draft.new ≡ length draft.old + 11 }
    ensures fit { (length source.0 ≡ 6) × (holding < 2 ^ 16) }
{
    draft.add(&[octet_of_levels(levels)]);
    draft.add(&source.0);
    draft.add(&holding.to_be_bytes());
    draft.add(&count);
}

/// Adds the fields of a PDU whose length is `count`.
fn add_fields(draft: &mut Draft, pdu: &Pdu<'_>, count: u16)
    requires { length draft.old + header_length (kind_of (pdu_view pdu.now)) ≤ 255 }
    ensures octets { draft.new ≡ draft.old ++ field_octets (pdu_view pdu.now) count }
    ensures fit { priority_of (pdu_view pdu.now) ≤ 127 → FieldsFit (pdu_view pdu.now) }
{
    let count = count.to_be_bytes();
    match *pdu {
        Pdu::LanHello {
            circuit_type,
            source,
            holding,
            priority,
            lan,
            ..
        } => {
            add_hello(draft, circuit_type, source, holding, count);
            draft.add(&[priority]);
            draft.add_node(lan);
        }
        Pdu::PointHello {
            circuit_type,
            source,
            holding,
            circuit,
            ..
        } => {
            add_hello(draft, circuit_type, source, holding, count);
            draft.add(&[circuit]);
        }
        Pdu::Lsp {
            lifetime,
            id,
            number,
            checksum,
            flags,
            ..
        } => {
            draft.add(&count);
            draft.add(&lifetime.to_be_bytes());
            draft.add_lsp_id(id);
            draft.add(&number.to_be_bytes());
            draft.add(&checksum.to_be_bytes());
            draft.add(&[flags]);
        }
        Pdu::Csnp {
            source,
            start,
            end,
            ..
        } => {
            draft.add(&count);
            draft.add_node(source);
            draft.add_lsp_id(start);
            draft.add_lsp_id(end);
        }
        Pdu::Psnp { source, .. } => {
            draft.add(&count);
            draft.add_node(source);
        }
    }
}

/// The header of a PDU.
fn header_of(pdu: &Pdu<'_>) -> Draft
    requires { encoded_len (pdu_view pdu.now) ≤ 65535 }
    ensures octets { result ≡ header_octets (pdu_view pdu.now) }
    ensures fit { priority_of (pdu_view pdu.now) ≤ 127 → FieldsFit (pdu_view pdu.now) }
{
    let mut header = Draft::new();
    add_start(&mut header, pdu.kind());
    add_fields(&mut header, pdu, encoded_len(pdu) as u16);
    header
}
