//! What no clause of isis_base says: readings of sample texts, each call once with ample memory.
use isis_base::{
    AreaAddress, Key, Level, LevelSet, LspEntry, LspId, NodeId, Octets, Order3, OutOfMemory,
    Prefix, Snpa, SystemId, TextFault, join, newer, read_area, read_levels, read_lsp_id,
    read_prefix, read_system,
};
use std::alloc::{AllocError, Global};
use std::fmt::Display;
use std::test::Fail;

/// Kinds of texts, texts, and what is read: the text that is written of it and its octets in hex, or the place of the fault.
const TEXTS: &str = "\
system|1921.6800.1001|1921.6800.1001 192168001001
system|abcd.effe.dcba|abcd.effe.dcba abcdeffedcba
system|ABcd.EFfe.dCBa|abcd.effe.dcba abcdeffedcba
system|0000.0000.0000|0000.0000.0000 000000000000
system||!0
system|.|!0
system|g|!0
system| 1921.6800.1001|!0
system|1|!1
system|1.|!1
system|1921|!4
system|1921-6800-1001|!4
system|192168001001|!4
system|1921.|!5
system|1921.680G.1001|!8
system|1921.6800.100|!13
system|1921.6800.100\u{e9}|!13
system|1921.6800.10011|!14
system|1921.6800.1001.00|!14
lsp|1921.6800.1001.00-00|1921.6800.1001.00-00 1921680010010000
lsp|1921.6800.1001.0c-a1|1921.6800.1001.0c-a1 1921680010010ca1
lsp|ABCD.EFFE.DCBA.FF-0A|abcd.effe.dcba.ff-0a abcdeffedcbaff0a
lsp|1921.6800.1001|!14
lsp|1921.6800.1001-00|!14
lsp|1921.6800.1001.00.00|!17
lsp|1921.6800.1001.00-|!18
lsp|1921.6800.1001.00-0|!19
lsp|1921.6800.1001.00-000|!20
area|47|47 47
area|47.00|47.00 4700
area|47.0005|47.0005 470005
area|47.0005.80|47.0005.80 47000580
area|47.0005.80FF|47.0005.80ff 47000580ff
area|47.0005.80ff.f700.0000.0001.ab|47.0005.80ff.f700.0000.0001.ab 47000580fff70000000001ab
area|47.0005.80Ff.F700.0000.0001.aBcD|47.0005.80ff.f700.0000.0001.abcd 47000580fff70000000001abcd
area||!0
area|.|!0
area| 49|!0
area|4|!1
area|4g|!1
area|490|!2
area|49-0001|!2
area|49.|!3
area|49.g|!3
area|49.0|!4
area|49.00.01|!5
area|49.000|!6
area|49.00010|!7
area|49.0001.|!8
area|49.0001.0002.0003.0004.0005.0006.|!32
area|49.0001.0002.0003.0004.0005.0006.07|!32
area|49.0001.0002.0003.0004.0005.000607|!32
prefix|0.0.0.0/0|0.0.0.0/0 0000000000
prefix|128.0.0.0/1|128.0.0.0/1 8000000001
prefix|10.0.0.0/7|10.0.0.0/7 0a00000007
prefix|10.0.1.0/24|10.0.1.0/24 0a00010018
prefix|192.168.0.0/16|192.168.0.0/16 c0a8000010
prefix|0.0.0.0/32|0.0.0.0/32 0000000020
prefix|255.255.255.255/32|255.255.255.255/32 ffffffff20
prefix||!0
prefix|/|!0
prefix|1|!1
prefix|01.0.0.0/8|!1
prefix|1/8|!1
prefix|256.0.0.0/8|!2
prefix|300.0.0.0/8|!2
prefix|1..2.3/8|!2
prefix|1000.0.0.0/8|!3
prefix|10.0.1/24|!6
prefix|10.0.1.0|!8
prefix|10.0.1.0.0/24|!8
prefix|10.0.1.0/|!9
prefix|10.0.1.0/1|!9
prefix|10.0.1.0/024|!9
prefix|10.0.1.0/8|!9
prefix|10.0.1.0/2|!10
prefix|10.0.1.0/23|!10
prefix|10.0.1.0/3|!10
prefix|10.0.1.0/33|!10
prefix|10.0.1.0/240|!11
prefix|10.0.0.0/6|!9
prefix|10.0.0.0/1|!10
prefix|10.0.0.0/20.|!11
prefix|0.0.0.0/00|!9
prefix|0.0.0.0/40|!9
levels|L1|L1 01
levels|L2|L2 02
levels|L1L2|L1L2 03
levels||!0
levels|l1|!0
levels|1|!0
levels|L|!1
levels|L3|!1
levels|L12|!2
levels|L2L1|!2
levels|L1L|!3
levels|L1L1|!3
levels|L1L2L|!4";

/// What a value shows, and its octets in hex.
fn said(alloc: Global, value: &impl Display, octets: &[u8]) -> Result<String, AllocError> {
    let hex = hex::encode(alloc, octets)?;
    format!(in alloc; "{value} {hex}")
}

fn refused(alloc: Global, fault: TextFault) -> Result<String, AllocError> {
    let place = fault.place;
    format!(in alloc; "!{place}")
}

fn system_said(alloc: Global, text: &str) -> Result<String, AllocError> {
    match read_system(text) {
        Ok(system) => said(alloc, &system, &system.0),
        Err(fault) => refused(alloc, fault),
    }
}

fn lsp_said(alloc: Global, text: &str) -> Result<String, AllocError> {
    match read_lsp_id(text) {
        Ok(id) => {
            let [a, b, c, d, e, f] = id.node.system.0;
            said(
                alloc,
                &id,
                &[a, b, c, d, e, f, id.node.pseudonode, id.number],
            )
        }
        Err(fault) => refused(alloc, fault),
    }
}

fn area_said(alloc: Global, text: &str) -> Result<String, AllocError> {
    match read_area(text) {
        Ok(area) => said(alloc, &area, area.octets()),
        Err(fault) => refused(alloc, fault),
    }
}

fn prefix_said(alloc: Global, text: &str) -> Result<String, AllocError> {
    match read_prefix(text) {
        Ok(prefix) => {
            let [a, b, c, d] = prefix.address().to_be_bytes();
            said(alloc, &prefix, &[a, b, c, d, prefix.length()])
        }
        Err(fault) => refused(alloc, fault),
    }
}

fn levels_said(alloc: Global, text: &str) -> Result<String, AllocError> {
    match read_levels(text) {
        Ok(LevelSet::One) => said(alloc, &LevelSet::One, &[1]),
        Ok(LevelSet::Two) => said(alloc, &LevelSet::Two, &[2]),
        Ok(LevelSet::Both) => said(alloc, &LevelSet::Both, &[3]),
        Err(fault) => refused(alloc, fault),
    }
}

/// Whether a row of texts is right.
fn is_read(alloc: Global, row: &str) -> Option<bool> {
    let (kind, rest) = row.split_once('|')?;
    let (text, want) = rest.split_once('|')?;
    let says = match kind.as_bytes() {
        b"system" => system_said(alloc, text),
        b"lsp" => lsp_said(alloc, text),
        b"area" => area_said(alloc, text),
        b"prefix" => prefix_said(alloc, text),
        b"levels" => levels_said(alloc, text),
        _ => return None,
    };
    Some(says.ok()?.as_str() == want)
}

fn first_misread<'a>(alloc: Global, rows: &'a str) -> Option<&'a str> {
    for row in rows.lines() {
        if is_read(alloc, row) != Some(true) {
            return Some(row);
        }
    }
    None
}

#[test]
fn reads_and_writes_texts(rt: HostRuntime) {
    assert_eq!(rt; first_misread(rt.alloc(), TEXTS), None);
}

const SYSTEM: SystemId = SystemId([0xab, 0xcd, 0xef, 0xfe, 0xdc, 0xba]);

#[test]
fn writes_other_values(rt: HostRuntime) -> Result<(), Fail> {
    let node = NodeId {
        system: SYSTEM,
        pseudonode: 12,
    };
    let snpa = Snpa([0x00, 0x00, 0x5e, 0x00, 0x53, 0xaf]);
    let (one, two) = (Level::One, Level::Two);
    let ids = format!(in rt.alloc(); "{node} {snpa} {one} {two}")?;
    assert_eq!(rt; ids.as_str(), "abcd.effe.dcba.0c 0000.5e00.53af L1 L2");
    Ok(())
}

#[test]
fn writes_keys_and_orders(rt: HostRuntime) -> Result<(), Fail> {
    let purge = Key {
        number: 7,
        purged: true,
    };
    let live = Key {
        number: 4_294_967_295,
        purged: false,
    };
    let (older, same, newer) = (Order3::Older, Order3::Same, Order3::Newer);
    let texts = format!(in rt.alloc(); "{purge}, {live}, {older} {same} {newer}")?;
    assert_eq!(rt;
        texts.as_str(),
        "7 purged, 4294967295 live, older same newer"
    );
    Ok(())
}

/// LSP IDs in rising order, with their numbers.
const NUMBERS: &str = "\
0000.0000.0000.00-00 0
0000.0000.0000.00-ff 255
0000.0000.0000.01-00 256
0000.0000.0001.00-00 65536
1921.6800.1001.0c-a1 1810842874657442977
ffff.ffff.ffff.ff-ff 18446744073709551615";

/// The ID of a row, where it has the row's number and comes after another one.
fn numbered(row: &str, below: Option<LspId>) -> Option<LspId> {
    let (text, number) = row.split_once(' ')?;
    let id = read_lsp_id(text).ok()?;
    let number = number.parse::<u64>().ok()?;
    let is_next = below < Some(id);
    if is_next && id.to_number() == number && LspId::from_number(number) == id {
        return Some(id);
    }
    None
}

fn first_misnumbered<'a>(rows: &'a str) -> Option<&'a str> {
    let mut below = None;
    for row in rows.lines() {
        below = numbered(row, below);
        if below.is_none() {
            return Some(row);
        }
    }
    None
}

#[test]
fn numbers_and_orders_lsp_ids(rt: HostRuntime) {
    assert_eq!(rt; first_misnumbered(NUMBERS), None);
}

/// Keys, the newest last; 0 stands for none.
const KEYS: [(u32, bool); 7] = [
    (0, false),
    (1, false),
    (1, true),
    (2, false),
    (2, true),
    (u32::MAX, false),
    (u32::MAX, true),
];

/// The key of this number and mark; none at number 0.
fn key(number: u32, purged: bool) -> Option<Key> {
    if number == 0 {
        return None;
    }
    Some(Key { number, purged })
}

/// Whether two keys are ordered as their places among the keys.
fn are_ordered(i: usize, j: usize, a: Option<Key>, b: Option<Key>) -> bool {
    let (order, later) = if i < j {
        (Order3::Older, b)
    } else if i == j {
        (Order3::Same, a)
    } else {
        (Order3::Newer, a)
    };
    newer(a, b) == order && join(a, b) == later
}

fn first_misordered(keys: &[(u32, bool)]) -> Option<(usize, usize)> {
    for (i, a) in keys.iter().enumerate() {
        for (j, b) in keys.iter().enumerate() {
            if !are_ordered(i, j, key(a.0, a.1), key(b.0, b.1)) {
                return Some((i, j));
            }
        }
    }
    None
}

#[test]
fn orders_keys(rt: HostRuntime) {
    assert_eq!(rt; first_misordered(&KEYS), None);
}

/// Lifetimes and numbers of entries, and their keys.
const ENTRIES: [(u16, u32, Option<(u32, bool)>); 5] = [
    (0, 0, None),
    (1200, 0, None),
    (0, 5, Some((5, true))),
    (1, 5, Some((5, false))),
    (1200, u32::MAX, Some((u32::MAX, false))),
];

fn first_misnamed(rows: &[(u16, u32, Option<(u32, bool)>)]) -> Option<usize> {
    for (place, (lifetime, number, want)) in rows.iter().enumerate() {
        let entry = LspEntry {
            lifetime: *lifetime,
            id: LspId::from_number(0),
            number: *number,
            checksum: 0,
        };
        if entry.key().map(|key| (key.number, key.purged)) != *want {
            return Some(place);
        }
    }
    None
}

#[test]
fn entries_name_keys(rt: HostRuntime) {
    assert_eq!(rt; first_misnamed(&ENTRIES), None);
}

/// Four octets, of which one was pushed and the others came as pieces.
fn grown(alloc: Global) -> Result<Octets, OutOfMemory> {
    let mut octets = Octets::new(alloc);
    octets.push(0x83)?;
    octets.extend(&[0x1b, 0x01, 0x00])?;
    octets.extend(&[])?;
    Ok(octets)
}

#[test]
fn octets_grow_and_shrink(rt: HostRuntime) -> Result<(), Fail> {
    let mut octets = grown(rt.alloc())?;
    assert!(rt; Octets::new(rt.alloc()).is_empty() && !octets.is_empty() && octets.len() == 4);
    assert!(rt; octets.get(0) == Some(0x83) && octets.get(3) == Some(0));
    assert!(rt; octets.get(4).is_none() && octets.get(usize::MAX).is_none());
    let copy = octets.copy()?;
    octets.truncate(2);
    octets.as_mut_slice().reverse();
    assert_eq!(rt; octets.as_slice(), b"\x1b\x83".as_slice());
    assert_eq!(rt; copy.as_slice(), b"\x83\x1b\x01\x00".as_slice());
    Ok(())
}

/// Whether octets are an area exactly where there are 1 to 13 of them.
fn is_area_by_length(octets: &[u8]) -> bool {
    match AreaAddress::new(octets) {
        Some(area) => area.octets() == octets && octets.len() >= 1 && octets.len() <= 13,
        None => octets.is_empty() || octets.len() > 13,
    }
}

fn first_misread_area(octets: &[u8; 14]) -> Option<usize> {
    for count in 0..=14 {
        if !is_area_by_length(&octets[..count]) {
            return Some(count);
        }
    }
    None
}

#[test]
fn areas_have_1_to_13_octets(rt: HostRuntime) {
    assert_eq!(rt; first_misread_area(&[0x49; 14]), None);
}

/// Addresses and lengths, and whether they are prefixes.
const PREFIXES: [(u32, u8, bool); 10] = [
    (0, 0, true),
    (0x0a00_0100, 24, true),
    (0x0a00_0100, 23, false),
    (0x0a00_0101, 24, false),
    (0x8000_0000, 1, true),
    (0x8000_0000, 0, false),
    (0xffff_ffff, 32, true),
    (0xffff_ffff, 31, false),
    (0, 33, false),
    (0, 255, false),
];

fn first_misjudged(rows: &[(u32, u8, bool)]) -> Option<usize> {
    for (place, (address, length, good)) in rows.iter().enumerate() {
        let made = Prefix::new(*address, *length);
        let parts = made.map(|prefix| (prefix.address(), prefix.length()));
        let want = good.then_some((*address, *length));
        if parts != want {
            return Some(place);
        }
    }
    None
}

#[test]
fn prefixes_are_clear_past_their_length(rt: HostRuntime) {
    assert_eq!(rt; first_misjudged(&PREFIXES), None);
}
