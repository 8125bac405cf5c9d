//! The first value of a PDU's TLVs that must be read and doesn't fit.
ghost use Rattle.std.specs.Prelude.{◌≡◌, ◌+◌, ◌^◌, ◌<◌, ◌≤◌, length, IfSome};
ghost use Rattle.std.specs.Option.{option_map};
ghost use Rattle.isis_base.specs.PduKinds.{header_length};
ghost use Rattle.isis_tlv.specs.TlvViews.{one_view};
ghost use Rattle.isis_tlv.specs.Walks.{fault_of};
ghost use Rattle.router_desk.specs.Values.{hello_fault, snp_fault, value_fault, faulty_tlv, value_place};

use isis_base::PduKind;
use isis_tlv::{Item, Items, Tlv, Tlvs, ValueFault, areas, codes, entries, snpas, three_way_value};

/// The place in the PDU of the first item that must be read and doesn't fit: area addresses, SNPAs
/// and three-way values of a hello, entries of a sequence numbers PDU. `tlvs` are the octets
/// behind the header. Of an LSP nothing must be read, so it is answered at once.
#[tactic(auto, unfolding(crate::specs::Values::value_place))]
pub(crate) fn value_place(kind: PduKind, tlvs: &[u8]) -> Option<usize>
    ensures { result ≡ value_place kind tlvs.now }
{
    if let PduKind::Lsp(_) = kind {
        return None;
    }
    let Some(tlv) = faulty_tlv(kind, tlvs) else {
        return None;
    };
    let Some(fault) = value_fault(kind, &tlv) else {
        return None;
    };
    Some(usize::from(kind.header_length()) + tlv.place + 2 + fault.place)
}

/// The first TLV with a fault.
fn faulty_tlv(kind: PduKind, tlvs: &[u8]) -> Option<Tlv<'_>>
    ensures { option_map one_view result ≡ faulty_tlv kind tlvs.now }
{
    for tlv in Tlvs::new(tlvs, 0) {
        match tlv {
            Ok(tlv) if value_fault(kind, &tlv).is_some() => return Some(tlv),
            Ok(_) => {}
            Err(_) => break,
        }
    }
    None
}

/// The fault of a TLV in a PDU of a type.
fn value_fault(kind: PduKind, tlv: &Tlv<'_>) -> Option<ValueFault>
    ensures value { result ≡ value_fault kind (one_view tlv.now) }
    ensures within { IfSome result (λ fault. fault.place ≤ length tlv.now.value.now) }
{
    match kind {
        PduKind::LanHello(_) | PduKind::PointHello => hello_fault(tlv),
        PduKind::Lsp(_) => None,
        PduKind::Csnp(_) | PduKind::Psnp(_) => snp_fault(tlv),
    }
}

/// The fault of a TLV of a hello.
fn hello_fault(tlv: &Tlv<'_>) -> Option<ValueFault>
    ensures value { result ≡ hello_fault (one_view tlv.now) }
{
    match tlv.code {
        codes::AREAS => fault_of(areas(tlv.value)),
        codes::SNPAS => fault_of(snpas(tlv.value)),
        codes::THREE_WAY => three_way_value(tlv.value).err(),
        _ => None,
    }
}

/// The fault of a TLV of a sequence numbers PDU.
fn snp_fault(tlv: &Tlv<'_>) -> Option<ValueFault>
    ensures value { result ≡ snp_fault (one_view tlv.now) }
{
    match tlv.code {
        codes::ENTRIES => fault_of(entries(tlv.value)),
        _ => None,
    }
}

/// The fault that ends these items, if there is one.
fn fault_of<I: Item + Drop>(items: Items<'_, I>) -> Option<ValueFault>
    ensures { result ≡ fault_of items.entry }
{
    for item in items {
        match item {
            Ok(_) => {}
            Err(fault) => return Some(fault),
        }
    }
    None
}
