//! The split of an own LSP into fragments.
ghost use Rattle.std.specs.Prelude.{◌≡◌, ◌≤◌, ◌<◌, ◌^◌, length, map, true, All, IfOk, IfErr, ◌+◌};
ghost use Rattle.model_router.specs.Splits as splits;
ghost use Rattle.lsp_fragments.specs.Entries.{content_first, content_entries, neighbour_entry, prefix_entry};
ghost use Rattle.lsp_fragments.specs.Fits.{IsFault, IsPut, fit_of, fault_behind};

use crate::content::Content;
use crate::entries::{neighbour_octets, prefix_octets};
use crate::fault::SplitFault;
use crate::filling::Filling;
use crate::first;
use isis_base::Octets;
use isis_tlv::{NeighbourItem, PrefixItem};
use std::alloc::Global;

/// The TLVs of each fragment of an LSP, in order (ISO 10589 7.3.4). Fragment 0 begins with area
/// addresses, IPv4 and addresses, a pseudonode's with nothing; then come the neighbours, then the
/// prefixes. An entry goes into the last TLV of its code where the value's 255 octets and the room
/// allow, else into a new TLV where the room allows, else into the next fragment. `room` is how
/// many octets a fragment may have. `TooMuch` exactly past 256 fragments.
pub fn split(alloc: Global, content: &Content, room: usize) -> Result<Vec<Octets>, SplitFault>
    requires room { (1400 ≤ room) × (room ≤ 1465) }
    requires areas { length content.now.areas.items ≤ 3 }
    requires addresses { length content.now.addresses.items ≤ 64 }
    requires metrics { All (λ item. item.metric < 2 ^ 24) content.now.neighbours.items }
    ensures ok { IfOk result (λ all. splits.split (content_first content.now)
        (content_entries content.now) room ≡ record { fragments = all.items; whole = true }) }
    ensures too_much { IfErr result (IsFault (content_first content.now)
        (content_entries content.now) room) }
{
    let first = match first::first_of(alloc, content) {
        Ok(first) => first,
        Err(_) => return Err(SplitFault::OutOfMemory),
    };
    let filling = match put_entries(Filling::new(alloc, first), content, room) {
        Ok(filling) => filling,
        Err(fault) => return Err(fault),
    };
    match filling.finish() {
        Ok(all) => Ok(all),
        Err(_) => Err(SplitFault::OutOfMemory),
    }
}

/// Puts all entries in, the neighbours before the prefixes.
fn put_entries(filling: Filling, content: &Content, room: usize) -> Result<Filling, SplitFault>
    requires room { room ≤ 1465 }
    requires metrics { All (λ item. item.metric < 2 ^ 24) content.now.neighbours.items }
    ensures { IsPut room filling (content_entries content.now) result }
{
    let filling = match put_neighbours(filling, &content.neighbours, room) {
        Ok(filling) => filling,
        Err(fault) => return Err(fault),
    };
    match put_prefixes(filling, &content.prefixes, room) {
        Ok(filling) => Ok(filling),
        Err(fault) => Err(behind(content.neighbours.len(), fault)),
    }
}

/// A fault of the entries behind so many.
fn behind(before: usize, fault: SplitFault) -> SplitFault
    requires { before + fit_of fault < 2 ^ 64 }
    ensures { result ≡ fault_behind before fault }
{
    match fault {
        SplitFault::TooMuch { fit } => SplitFault::TooMuch { fit: before + fit },
        SplitFault::OutOfMemory => SplitFault::OutOfMemory,
    }
}

/// Puts neighbours in.
fn put_neighbours(
    mut filling: Filling,
    list: &[NeighbourItem],
    room: usize,
) -> Result<Filling, SplitFault>
    requires room { room ≤ 1465 }
    requires metrics { All (λ item. item.metric < 2 ^ 24) list.now }
    ensures { IsPut room filling (map neighbour_entry list.now) result }
{
    let mut fit = 0;
    for item in list {
        match filling.put(22, &neighbour_octets(item), room) {
            Ok(true) => fit += 1,
            Ok(false) => return Err(SplitFault::TooMuch { fit }),
            Err(_) => return Err(SplitFault::OutOfMemory),
        }
    }
    Ok(filling)
}

/// Puts prefixes in.
fn put_prefixes(
    mut filling: Filling,
    list: &[PrefixItem],
    room: usize,
) -> Result<Filling, SplitFault>
    requires room { room ≤ 1465 }
    ensures { IsPut room filling (map prefix_entry list.now) result }
{
    let mut fit = 0;
    for item in list {
        let (octets, count) = prefix_octets(item);
        match filling.put(135, &octets[..count], room) {
            Ok(true) => fit += 1,
            Ok(false) => return Err(SplitFault::TooMuch { fit }),
            Err(_) => return Err(SplitFault::OutOfMemory),
        }
    }
    Ok(filling)
}
