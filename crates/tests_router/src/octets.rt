//! An own LSP of router_sending issued, and what is held sent, with and without a key. The expected octets are from
//! octets_vectors.py beside src/.
ghost use Rattle.std.specs.Prelude.{◌≡◌, IsTrue};
ghost use Rattle.router_sending.specs.Held.{IsHeader};

use crate::made::{AGED, LIVE, OWN, octets};
use isis_base::{Key, Level, Octets, OutOfMemory, PduKind};
use isis_tlv::are_tlvs;
use lsp_store::Entry;
use router_sending::{Draft, lent_key, put_lsp};
use std::alloc::Global;

/// A key, none where it is empty, a sequence number, TLVs, and the octets that are issued.
type Issue<'a> = (&'a [u8], u32, &'a [u8], &'a [u8]);

const ISSUES: [Issue<'static>; 4] = [
    (b"", 1, b"", LIVE),
    (
        b"",
        258,
        b"\x81\x01\xcc",
        b"\x83\x1b\x01\x00\x12\x01\x00\x00\x00\x1e\x04\xb0\x00\x00\x00\x00\x00\x01\x00\x00\x00\x00\x01\x02\x2d\x7c\x03\x81\x01\xcc",
    ),
    (
        b"\x6b\x65\x79",
        258,
        b"\x81\x01\xcc",
        b"\x83\x1b\x01\x00\x12\x01\x00\x00\x00\x31\x04\xb0\x00\x00\x00\x00\x00\x01\x00\x00\x00\x00\x01\x02\xe7\x5a\x03\x0a\x11\x36\xbf\x64\xfe\x75\xd5\x8a\x37\xf6\x99\x3f\x4b\x53\xb2\x1c\xcc\xdb\x81\x01\xcc",
    ),
    (
        b"\x6b\x6b\x6b\x6b\x6b\x6b\x6b\x6b\x6b\x6b\x6b\x6b\x6b\x6b\x6b\x6b\x6b\x6b\x6b\x6b\x6b\x6b\x6b\x6b\x6b\x6b\x6b\x6b\x6b\x6b\x6b\x6b\x6b\x6b\x6b\x6b\x6b\x6b\x6b\x6b\x6b\x6b\x6b\x6b\x6b\x6b\x6b\x6b\x6b\x6b\x6b\x6b\x6b\x6b\x6b\x6b\x6b\x6b\x6b\x6b\x6b\x6b\x6b\x6b\x6b",
        4294967295,
        b"",
        b"\x83\x1b\x01\x00\x12\x01\x00\x00\x00\x2e\x04\xb0\x00\x00\x00\x00\x00\x01\x00\x00\xff\xff\xff\xff\xa7\x67\x03\x0a\x11\x36\xc3\x02\x36\x05\x51\x3f\x7a\x88\x17\x4c\x3e\x2b\x9d\x3f\xd9\x83",
    ),
];

/// A key, none where it is empty, and the octets of a purge of number 7 as it is sent.
const PURGES: [(&[u8], &[u8]); 2] = [
    (
        b"",
        b"\x83\x1b\x01\x00\x12\x01\x00\x00\x00\x1b\x00\x00\x00\x00\x00\x00\x00\x01\x00\x00\x00\x00\x00\x07\x00\x00\x03",
    ),
    (
        b"\x6b\x65\x79",
        b"\x83\x1b\x01\x00\x12\x01\x00\x00\x00\x2e\x00\x00\x00\x00\x00\x00\x00\x01\x00\x00\x00\x00\x00\x07\x00\x00\x03\x0a\x11\x36\xd6\x17\xb8\x71\xe3\xdb\xce\x5a\x96\xe2\x0f\x87\x7e\xfc\xf5\x30",
    ),
];

/// The key, where there is one.
fn key_of(octets: &[u8]) -> Option<&[u8]> {
    if octets.is_empty() {
        None
    } else {
        Some(octets)
    }
}

/// Whether a draft says what it was made of.
fn is_drafted(draft: &Draft, tlvs: &[u8]) -> bool {
    let head = (draft.id() == OWN) & (draft.level() == Level::One) & (draft.flags() == 3);
    head & (draft.tlvs() == tlvs)
}

/// Whether an own LSP with these TLVs is issued as these octets.
fn is_issued(
    alloc: Global,
    key: Option<&[u8]>,
    number: u32,
    tlvs: &[u8],
    want: &[u8],
) -> Result<bool, OutOfMemory> {
    let given = octets(alloc, tlvs)?;
    if number == 0 || given.len() > 1446 || !are_tlvs(given.as_slice()) {
        return Ok(false);
    }
    let draft = Draft::new(alloc, key, Level::One, OWN, 3, given)?;
    let drafted = is_drafted(&draft, tlvs);
    let issued = draft.issue(key, number);
    Ok(drafted & (issued.entry.octets.as_slice() == want))
}

/// The first row that is issued otherwise.
fn wrong_issue(alloc: Global) -> Result<Option<usize>, OutOfMemory> {
    for (place, (key, number, tlvs, want)) in ISSUES.iter().enumerate() {
        if !is_issued(alloc, key_of(key), *number, tlvs, want)? {
            return Ok(Some(place));
        }
    }
    Ok(None)
}

/// Whether octets are the header of an LSP alone.
fn is_header(octets: &[u8]) -> bool
    ensures { IsTrue result → IsHeader octets.now }
{
    if octets.len() != 27 {
        return false;
    }
    match PduKind::of_number(octets[4] % 32) {
        Some(kind) => kind.header_length() == 27,
        None => false,
    }
}

/// An entry with these octets, at number 7.
fn entry(octets: Octets, purged: bool, left: u16) -> Entry
    ensures { result.octets ≡ octets }
{
    Entry {
        key: Some(Key { number: 7, purged }),
        checksum: 0,
        flags: 3,
        left,
        octets,
    }
}

/// Whether these octets are sent of an entry.
fn is_sent(
    alloc: Global,
    key: Option<&[u8]>,
    entry: &Entry,
    want: &[u8],
) -> Result<bool, OutOfMemory> {
    if !is_header(entry.octets.as_slice()) {
        return Ok(false);
    }
    let mut out = Octets::new(alloc);
    put_lsp(&mut out, key, entry)?;
    Ok(out.as_slice() == want)
}

/// Whether a purge is sent so under a key, where there is one.
fn is_purged(alloc: Global, key: Option<&[u8]>, want: &[u8]) -> Result<bool, OutOfMemory> {
    let entry = entry(octets(alloc, PURGES[0].1)?, true, 60);
    is_sent(alloc, key, &entry, want)
}

/// The first purge that is sent otherwise. Its key is lent of octets in memory.
fn wrong_purge(alloc: Global) -> Result<Option<usize>, OutOfMemory> {
    for (place, (key, want)) in PURGES.iter().enumerate() {
        let held = octets(alloc, key)?;
        let key = if key.is_empty() { None } else { Some(&held) };
        if !is_purged(alloc, lent_key(key), want)? {
            return Ok(Some(place));
        }
    }
    Ok(None)
}

/// Whether a live LSP is sent with the seconds that are left.
fn is_aged(alloc: Global) -> Result<bool, OutOfMemory> {
    let entry = entry(octets(alloc, LIVE)?, false, 600);
    is_sent(alloc, None, &entry, AGED)
}

#[test]
fn issues_own_lsps(rt: HostRuntime) {
    assert_eq!(rt; wrong_issue(rt.alloc()), Ok(None));
}

#[test]
fn sends_what_is_held(rt: HostRuntime) {
    assert_eq!(rt; wrong_purge(rt.alloc()), Ok(None));
    assert_eq!(rt; is_aged(rt.alloc()), Ok(true));
}
