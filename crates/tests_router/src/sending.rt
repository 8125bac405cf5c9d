//! Each kind of datagram of router_sending once. The expected PDUs are from sending_vectors.py beside src/.
ghost use Rattle.std.specs.Prelude.{◌≡◌, ◌≤◌, [], ◌∷◌, length};
ghost use Rattle.isis_tlv.specs.Spelling.{area_value};

use crate::made::{AGED, FIRST, HELLO, LIVE, ONE, octets};
use adjacency::Neighbour;
use isis_base::{
    AreaAddress, Key, Level, LevelSet, LspEntry, LspId, NodeId, OutOfMemory, Snpa, SystemId,
};
use isis_tlv::Adj;
use lsp_store::Entry;
use router_sending::{Sender, csnp, lan_hello, lsp, point_hello, psnp};
use std::alloc::Global;

const POINT: &[u8] =
    b"\x83\x14\x01\x00\x11\x01\x00\x00\x03\x00\x00\x00\x00\x00\x01\x00\x1e\x00\x47\x01\x0a\x11\x36\xed\x5d\x22\xa6\x34\xf7\xf4\xcc\xc6\xf8\x20\x02\x99\x95\x5a\x7b\x01\x04\x03\x49\x00\x01\x81\x01\xcc\x84\x04\x0a\x00\x00\x01\xf0\x0f\x01\x00\x00\x01\x01\x02\x00\x00\x00\x00\x01\x00\x00\x02\x01";

const LAN: &[u8] =
    b"\x83\x1b\x01\x00\x0f\x01\x00\x00\x03\x00\x00\x00\x00\x00\x01\x00\x1e\x01\x43\x40\x00\x00\x00\x00\x00\x01\x01\x0a\x11\x36\x0e\x80\x59\x77\x49\xf6\x82\xc2\x94\x62\xc6\xcd\x14\x23\xfe\x85\x01\x04\x03\x49\x00\x01\x81\x01\xcc\x84\x04\x0a\x00\x00\x01\x06\xfc\x02\x00\x00\x00\x00\x01\x02\x00\x00\x00\x00\x02\x02\x00\x00\x00\x00\x03\x02\x00\x00\x00\x00\x04\x02\x00\x00\x00\x00\x05\x02\x00\x00\x00\x00\x06\x02\x00\x00\x00\x00\x07\x02\x00\x00\x00\x00\x08\x02\x00\x00\x00\x00\x09\x02\x00\x00\x00\x00\x0a\x02\x00\x00\x00\x00\x0b\x02\x00\x00\x00\x00\x0c\x02\x00\x00\x00\x00\x0d\x02\x00\x00\x00\x00\x0e\x02\x00\x00\x00\x00\x0f\x02\x00\x00\x00\x00\x10\x02\x00\x00\x00\x00\x11\x02\x00\x00\x00\x00\x12\x02\x00\x00\x00\x00\x13\x02\x00\x00\x00\x00\x14\x02\x00\x00\x00\x00\x15\x02\x00\x00\x00\x00\x16\x02\x00\x00\x00\x00\x17\x02\x00\x00\x00\x00\x18\x02\x00\x00\x00\x00\x19\x02\x00\x00\x00\x00\x1a\x02\x00\x00\x00\x00\x1b\x02\x00\x00\x00\x00\x1c\x02\x00\x00\x00\x00\x1d\x02\x00\x00\x00\x00\x1e\x02\x00\x00\x00\x00\x1f\x02\x00\x00\x00\x00\x20\x02\x00\x00\x00\x00\x21\x02\x00\x00\x00\x00\x22\x02\x00\x00\x00\x00\x23\x02\x00\x00\x00\x00\x24\x02\x00\x00\x00\x00\x25\x02\x00\x00\x00\x00\x26\x02\x00\x00\x00\x00\x27\x02\x00\x00\x00\x00\x28\x02\x00\x00\x00\x00\x29\x02\x00\x00\x00\x00\x2a\x06\x06\x02\x00\x00\x00\x00\x2b";

const CSNP: &[u8] =
    b"\x83\x21\x01\x00\x19\x01\x00\x00\x01\x25\x00\x00\x00\x00\x00\x01\x00\x00\x00\x00\x00\x00\x00\x00\x00\xff\xff\xff\xff\xff\xff\xff\xff\x09\xf0\x04\xb0\x00\x00\x00\x00\x00\x01\x00\x01\x00\x00\x00\x01\x01\x02\x04\xb0\x00\x00\x00\x00\x00\x01\x00\x02\x00\x00\x00\x02\x01\x02\x04\xb0\x00\x00\x00\x00\x00\x01\x00\x03\x00\x00\x00\x03\x01\x02\x04\xb0\x00\x00\x00\x00\x00\x01\x00\x04\x00\x00\x00\x04\x01\x02\x04\xb0\x00\x00\x00\x00\x00\x01\x00\x05\x00\x00\x00\x05\x01\x02\x04\xb0\x00\x00\x00\x00\x00\x01\x00\x06\x00\x00\x00\x06\x01\x02\x04\xb0\x00\x00\x00\x00\x00\x01\x00\x07\x00\x00\x00\x07\x01\x02\x04\xb0\x00\x00\x00\x00\x00\x01\x00\x08\x00\x00\x00\x08\x01\x02\x04\xb0\x00\x00\x00\x00\x00\x01\x00\x09\x00\x00\x00\x09\x01\x02\x04\xb0\x00\x00\x00\x00\x00\x01\x00\x0a\x00\x00\x00\x0a\x01\x02\x04\xb0\x00\x00\x00\x00\x00\x01\x00\x0b\x00\x00\x00\x0b\x01\x02\x04\xb0\x00\x00\x00\x00\x00\x01\x00\x0c\x00\x00\x00\x0c\x01\x02\x04\xb0\x00\x00\x00\x00\x00\x01\x00\x0d\x00\x00\x00\x0d\x01\x02\x04\xb0\x00\x00\x00\x00\x00\x01\x00\x0e\x00\x00\x00\x0e\x01\x02\x04\xb0\x00\x00\x00\x00\x00\x01\x00\x0f\x00\x00\x00\x0f\x01\x02\x09\x10\x04\xb0\x00\x00\x00\x00\x00\x01\x00\x10\x00\x00\x00\x10\x01\x02";

const PSNP: &[u8] =
    b"\x83\x11\x01\x00\x1a\x01\x00\x00\x00\x36\x00\x00\x00\x00\x00\x01\x00\x0a\x11\x36\x2d\x44\x2b\x81\xda\xe6\x68\x4b\xd0\x18\xc7\xb2\xb8\x35\xf0\x1d\x09\x10\x04\xb0\x00\x00\x00\x00\x00\x01\x00\x01\x00\x00\x00\x01\x01\x02";

/// What stands before each PDU, in boot 7.
const FRAME: &[u8] = b"ISU2\x00\x00\x00\x00\x00\x01\x00\x00\x00\x07";

/// A LAN of the system.
const LAN_ID: NodeId = NodeId {
    system: FIRST,
    pseudonode: 1,
};

/// Whether a datagram is a frame of the system with a PDU.
fn is_framed(datagram: &[u8], pdu: &[u8]) -> bool {
    let long = datagram.len() == FRAME.len() + pdu.len();
    long & datagram.starts_with(FRAME) & datagram.ends_with(pdu)
}

/// The system on circuit 1, in boot 7.
fn sender<'a>(
    areas: &'a [AreaAddress],
    levels: LevelSet,
    address: Option<u32>,
    key: Option<&'a [u8]>,
) -> Sender<'a>
    ensures areas { result.areas.now ≡ areas.now }
    ensures priority { result.priority ≡ 64 }
{
    Sender {
        system: FIRST,
        boot: 7,
        levels,
        areas,
        area_key: Some(b"area"),
        domain_key: None,
        circuit: 1,
        priority: 64,
        address,
        key,
    }
}

/// A neighbour of this SNPA's last octet.
fn neighbour(last: u8) -> Neighbour {
    let octets = [2, 0, 0, 0, 0, last];
    Neighbour {
        system: SystemId(octets),
        snpa: Snpa(octets),
        id: 513,
        boot: 2,
        levels: LevelSet::Both,
        priority: 64,
        lan: LAN_ID,
        left: 30,
    }
}

/// Neighbours of 43 SNPAs.
fn heard(alloc: Global) -> Result<Vec<Neighbour>, OutOfMemory> {
    let mut list = Vec::new(alloc);
    for last in 1..44u8 {
        list.push(neighbour(last))?;
    }
    Ok(list)
}

/// What is known of the system's LSP of a number.
fn entry(number: u8) -> LspEntry {
    LspEntry {
        lifetime: 1200,
        id: LspId { node: ONE, number },
        number: u32::from(number),
        checksum: 258,
    }
}

/// Entries of the LSP IDs 1 to 16.
fn entries(alloc: Global) -> Result<Vec<LspEntry>, OutOfMemory> {
    let mut list = Vec::new(alloc);
    for number in 1..17u8 {
        list.push(entry(number))?;
    }
    Ok(list)
}

/// One area address fits a TLV.
fn fits_one(area: &AreaAddress)
    ensures { length (area_value (area.now ∷ [])) ≤ 255 }
{
    let _octets = area.octets();
}

/// Whether the hello that another program wrote is sent.
fn is_first_hello(alloc: Global, area: AreaAddress) -> Result<bool, OutOfMemory> {
    fits_one(&area);
    let areas = [area];
    let bare = sender(&areas, LevelSet::One, None, None);
    let hello = point_hello(alloc, &bare, Adj::Down, 257, None)?;
    Ok(is_framed(hello.as_slice(), HELLO))
}

/// Whether a signed hello of a point-to-point circuit is sent, which names a neighbour.
fn is_point_hello(alloc: Global, area: AreaAddress) -> Result<bool, OutOfMemory> {
    fits_one(&area);
    let areas = [area];
    let signing = sender(&areas, LevelSet::Both, Some(0x0a00_0001), Some(b"key"));
    let names = Some((SystemId([2, 0, 0, 0, 0, 1]), 513));
    let hello = point_hello(alloc, &signing, Adj::Initializing, 257, names)?;
    Ok(is_framed(hello.as_slice(), POINT))
}

/// Whether a signed hello of a LAN is sent, which names its neighbours in two TLVs.
fn is_lan_hello(
    alloc: Global,
    area: AreaAddress,
    heard: &[Neighbour],
) -> Result<bool, OutOfMemory> {
    if heard.len() > 200 {
        return Ok(false);
    }
    fits_one(&area);
    let areas = [area];
    let signing = sender(&areas, LevelSet::Both, Some(0x0a00_0001), Some(b"key"));
    let hello = lan_hello(alloc, &signing, Level::One, LAN_ID, heard)?;
    Ok(is_framed(hello.as_slice(), LAN))
}

/// Whether a CSNP of all LSP IDs is sent, with these entries.
fn is_csnp(alloc: Global, entries: &[LspEntry]) -> Result<bool, OutOfMemory> {
    if entries.len() > 75 {
        return Ok(false);
    }
    let plain = sender(&[], LevelSet::Both, None, None);
    let (first, last) = (LspId::from_number(0), LspId::from_number(u64::MAX));
    let full = csnp(alloc, &plain, Level::Two, first, last, entries)?;
    Ok(is_framed(full.as_slice(), CSNP))
}

/// Whether a PSNP under the area's key is sent, with an entry.
fn is_psnp(alloc: Global) -> Result<bool, OutOfMemory> {
    let plain = sender(&[], LevelSet::Both, None, None);
    let partial = psnp(alloc, &plain, Level::One, &[entry(1)])?;
    Ok(is_framed(partial.as_slice(), PSNP))
}

/// Whether a live LSP is sent with the seconds that are left.
fn is_lsp(alloc: Global) -> Result<bool, OutOfMemory> {
    let held = octets(alloc, LIVE)?;
    if held.len() < 27 {
        return Ok(false);
    }
    let entry = Entry {
        key: Some(Key {
            number: 1,
            purged: false,
        }),
        checksum: 0xf802,
        flags: 3,
        left: 600,
        octets: held,
    };
    let plain = sender(&[], LevelSet::Both, None, None);
    let sent = lsp(alloc, &plain, Level::Two, &entry)?;
    Ok(is_framed(sent.as_slice(), AGED))
}

/// Whether each hello is sent.
fn are_hellos(alloc: Global, area: AreaAddress) -> Result<[bool; 3], OutOfMemory> {
    let heard = heard(alloc)?;
    Ok([
        is_first_hello(alloc, area)?,
        is_point_hello(alloc, area)?,
        is_lan_hello(alloc, area, &heard)?,
    ])
}

/// Whether each sequence number PDU is sent, and the LSP.
fn are_others(alloc: Global) -> Result<[bool; 3], OutOfMemory> {
    let entries = entries(alloc)?;
    Ok([is_csnp(alloc, &entries)?, is_psnp(alloc)?, is_lsp(alloc)?])
}

#[test]
fn sends_hellos(rt: HostRuntime) {
    let Some(area) = AreaAddress::new(&[0x49, 0, 1]) else {
        panic!(rt; "an area")
    };
    assert_eq!(rt; are_hellos(rt.alloc(), area), Ok([true; 3]));
}

#[test]
fn sends_lsps_and_lists(rt: HostRuntime) {
    assert_eq!(rt; are_others(rt.alloc()), Ok([true; 3]));
}
