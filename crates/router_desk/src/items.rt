//! The items of the TLVs of a code, of all of them in order.
ghost use Rattle.std.specs.Prelude.{◌≡◌, ◌==◌, IfOk};
ghost use Rattle.std.specs.Option.{option_map};
ghost use Rattle.std.specs.Result.{ok_prefix};
ghost use Rattle.model_router.specs.Numbers.{system_number, snpa_number};
ghost use Rattle.model_datagram.specs.Values as values;
ghost use Rattle.model_datagram.specs.Values.{lists, handshake, first_handshake};

use isis_base::laws::are_six;
use isis_base::{AreaAddress, LspEntry, OutOfMemory, Snpa, SystemId};
use isis_tlv::codes::{AREAS, ENTRIES, SNPAS, THREE_WAY};
use isis_tlv::{ThreeWay, Tlvs, areas, entries, snpas, three_way_value};
use std::alloc::Global;

/// The area addresses, up to a fault.
#[tactic(auto, unfolding(model_datagram::specs::Values::items_in))]
pub(crate) fn areas_in(alloc: Global, tlvs: &[u8]) -> Result<Vec<AreaAddress>, OutOfMemory>
    ensures { IfOk result (λ list. list.items ≡ ok_prefix (values.areas_in tlvs.now)) }
{
    let mut list = Vec::new(alloc);
    for tlv in Tlvs::new(tlvs, 0) {
        let value = match tlv {
            Ok(tlv) if tlv.code == AREAS => tlv.value,
            Ok(_) => continue,
            Err(_) => break,
        };
        for area in areas(value) {
            let Ok(area) = area else {
                return Ok(list);
            };
            match list.push(area) {
                Ok(()) => {}
                Err(_) => return Err(OutOfMemory),
            }
        }
    }
    Ok(list)
}

/// The LSP entries, up to a fault.
#[tactic(auto, unfolding(model_datagram::specs::Values::items_in))]
pub(crate) fn entries_in(alloc: Global, tlvs: &[u8]) -> Result<Vec<LspEntry>, OutOfMemory>
    ensures { IfOk result (λ list. list.items ≡ ok_prefix (values.entries_in tlvs.now)) }
{
    let mut list = Vec::new(alloc);
    for tlv in Tlvs::new(tlvs, 0) {
        let value = match tlv {
            Ok(tlv) if tlv.code == ENTRIES => tlv.value,
            Ok(_) => continue,
            Err(_) => break,
        };
        for entry in entries(value) {
            let Ok(entry) = entry else {
                return Ok(list);
            };
            match list.push(entry) {
                Ok(()) => {}
                Err(_) => return Err(OutOfMemory),
            }
        }
    }
    Ok(list)
}

/// Whether the SNPAs, up to a fault, have one's own.
#[tactic(auto, unfolding(model_datagram::specs::Values::items_in))]
pub(crate) fn names_own(own: SystemId, tlvs: &[u8]) -> bool
    ensures { result ≡ lists (system_number own) (ok_prefix (values.snpas_in tlvs.now)) }
{
    for tlv in Tlvs::new(tlvs, 0) {
        let value = match tlv {
            Ok(tlv) if tlv.code == SNPAS => tlv.value,
            Ok(_) => continue,
            Err(_) => break,
        };
        for snpa in snpas(value) {
            match snpa {
                Ok(snpa) if is_own(own, snpa) => return true,
                Ok(_) => {}
                Err(_) => return false,
            }
        }
    }
    false
}

/// Whether an SNPA is one's own.
fn is_own(own: SystemId, snpa: Snpa) -> bool
    ensures { result ≡ (snpa_number snpa == system_number own) }
{
    are_six(snpa.0);
    are_six(own.0);
    snpa.0 == own.0
}

/// The first three-way value, where it has no fault.
#[tactic(auto, unfolding(model_datagram::specs::Values::items_in))]
pub(crate) fn three_way_in(tlvs: &[u8]) -> Option<ThreeWay>
    ensures { option_map handshake result
        ≡ first_handshake (ok_prefix (values.handshakes_in tlvs.now)) }
{
    for tlv in Tlvs::new(tlvs, 0) {
        match tlv {
            Ok(tlv) if tlv.code == THREE_WAY => return three_way_value(tlv.value).ok(),
            Ok(_) => {}
            Err(_) => break,
        }
    }
    None
}
