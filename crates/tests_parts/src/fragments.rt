//! Full fragments, two TLVs of addresses, a pseudonode, and each call on own LSPs, of lsp_fragments.
ghost use Rattle.std.specs.Prelude.{◌≡◌, ◌≤◌, ◌<◌, [], length, IfOk};

use isis_base::{AreaAddress, Key, LspId, NodeId, Octets, OutOfMemory, Prefix, SystemId};
use isis_tlv::{NeighbourItem, PrefixItem, Tlvs};
use lsp_fragments::{Content, Issue, OwnLsps, SplitFault, split};
use std::alloc::Global;
use std::test::Fail;

const NODE: NodeId = NodeId {
    system: SystemId([0, 0, 0, 0, 0, 1]),
    pseudonode: 0,
};

const ID: LspId = LspId {
    node: NODE,
    number: 0,
};

/// What the system says of area 49.0001, these addresses, and so many prefixes of length 32.
fn content(alloc: Global, addresses: &[u32], count: u32) -> Result<Content, OutOfMemory>
    requires { length addresses.now ≤ 64 }
    ensures areas { IfOk result (λ content. length content.areas.items ≤ 3) }
    ensures addresses { IfOk result (λ content. length content.addresses.items ≤ 64) }
    ensures neighbours { IfOk result (λ content. content.neighbours.items ≡ []) }
{
    let mut content = Content {
        areas: Vec::new(alloc),
        addresses: Vec::from_slice(alloc, addresses)?,
        neighbours: Vec::new(alloc),
        prefixes: prefixes_of(alloc, count)?,
        flags: 3,
        pseudonode: false,
    };
    if let Some(area) = AreaAddress::new(&[0x49, 0, 1]) {
        content.areas.push(area)?;
    }
    Ok(content)
}

/// So many prefixes of length 32, at metric 10.
fn prefixes_of(alloc: Global, count: u32) -> Result<Vec<PrefixItem>, OutOfMemory> {
    let mut all = Vec::new(alloc);
    for address in 0..count {
        if let Some(prefix) = Prefix::new(address, 32) {
            match all.push(PrefixItem {
                prefix,
                metric: 10,
                down: false,
            }) {
                Ok(()) => {}
                Err(_) => return Err(OutOfMemory),
            }
        }
    }
    Ok(all)
}

/// The number of prefixes that TLVs say, each in nine octets.
fn prefixes_in(octets: &[u8]) -> usize {
    let mut count = 0usize;
    for tlv in Tlvs::new(octets, 0) {
        if let Ok(tlv) = tlv {
            if tlv.code == 135 {
                count = count.saturating_add(tlv.value.len() / 9);
            }
        }
    }
    count
}

/// The first fragment that doesn't say 160 prefixes, fragment 0, or 161, another one.
fn first_wrong(all: &[Octets]) -> Option<usize> {
    for (number, octets) in all.iter().enumerate() {
        let wanted = if number == 0 { 160 } else { 161 };
        if prefixes_in(octets.as_slice()) != wanted {
            return Some(number);
        }
    }
    None
}

/// Whether 41,215 prefixes fill 256 fragments.
fn is_full(alloc: Global) -> Result<bool, OutOfMemory> {
    let content = content(alloc, &[], 41_215)?;
    match split(alloc, &content, 1_465) {
        Ok(all) => Ok(all.len() == 256 && first_wrong(&all).is_none()),
        Err(_) => Ok(false),
    }
}

/// What comes of one prefix more.
fn past_full(alloc: Global) -> Result<Option<SplitFault>, OutOfMemory> {
    let content = content(alloc, &[], 41_216)?;
    match split(alloc, &content, 1_465) {
        Ok(_) => Ok(None),
        Err(fault) => Ok(Some(fault)),
    }
}

#[test]
fn fills_256_fragments(rt: HostRuntime) -> Result<(), Fail> {
    assert!(rt; is_full(rt.alloc())?);
    assert!(rt; past_full(rt.alloc())? == Some(SplitFault::TooMuch { fit: 41_215 }));
    Ok(())
}

/// Whether octets have two TLVs 132 behind an area, of 252 and of 4 octets.
fn are_two(octets: &[u8]) -> bool {
    let [first, second] = [octets.get(9..11), octets.get(263..265)];
    first == Some(&[132, 252]) && second == Some(&[132, 4]) && octets.len() == 269
}

/// Whether fragment 0 of 64 addresses has two TLVs of them.
fn has_two(alloc: Global) -> Result<bool, OutOfMemory> {
    let content = content(alloc, &[7; 64], 0)?;
    match split(alloc, &content, 1_400) {
        Ok(all) => match all.first() {
            Some(octets) => Ok(are_two(octets.as_slice())),
            None => Ok(false),
        },
        Err(_) => Ok(false),
    }
}

/// Whether the pseudonode LSP of one neighbour says it alone.
fn says_one(alloc: Global) -> Result<bool, OutOfMemory> {
    let mut neighbours = Vec::new(alloc);
    neighbours.push(NeighbourItem {
        node: NODE,
        metric: 0,
    })?;
    let content = Content {
        areas: Vec::new(alloc),
        addresses: Vec::new(alloc),
        neighbours,
        prefixes: Vec::new(alloc),
        flags: 3,
        pseudonode: true,
    };
    let wanted = [22, 11, 0, 0, 0, 0, 0, 1, 0, 0, 0, 0, 0];
    match split(alloc, &content, 1_446) {
        Ok(all) => match all.first() {
            Some(octets) => Ok(all.len() == 1 && octets.as_slice() == &wanted[..]),
            None => Ok(false),
        },
        Err(_) => Ok(false),
    }
}

#[test]
fn says_addresses_and_neighbours(rt: HostRuntime) -> Result<(), Fail> {
    assert!(rt; has_two(rt.alloc())?);
    assert!(rt; says_one(rt.alloc())?);
    Ok(())
}

/// So many seconds.
fn pass(own: &mut OwnLsps, seconds: u32) {
    for _ in 0..seconds {
        own.second();
    }
}

/// The key of a live copy.
fn live(number: u32) -> Option<Key>
    requires { 0 < number }
{
    Some(Key {
        number,
        purged: false,
    })
}

/// The first answer that is another than wanted: of a fragment that isn't issued, then from 0, 4, 5, 899 and 900 seconds
/// after its issue at number 1, each with the same contents and with others; from 899 seconds on it doesn't rest.
fn first_other(own: &mut OwnLsps) -> Option<usize> {
    let next = Issue::Number(2);
    let wanted = [
        (0, Issue::Wait, Issue::Wait),
        (4, Issue::Wait, Issue::Wait),
        (1, Issue::Wait, next),
        (894, Issue::Wait, next),
        (1, next, next),
    ];
    for (place, row) in wanted.iter().enumerate() {
        pass(own, row.0);
        let same = own.next_issue(ID, live(1), true);
        let other = own.next_issue(ID, live(1), false);
        if same != row.1 || other != row.2 || own.rests() != (place < 3) {
            return Some(place);
        }
    }
    None
}

/// Issues the LSP with one octet: whether there was memory.
fn issue(own: &mut OwnLsps, alloc: Global) -> Result<bool, OutOfMemory> {
    let mut tlvs = Octets::new(alloc);
    tlvs.push(7)?;
    Ok(own.reserve(1).is_ok() && own.issued(ID, tlvs, 3).is_ok())
}

/// Whether a copy has the LSP still that is dropped.
fn is_dropped(own: &mut OwnLsps) -> Result<bool, OutOfMemory> {
    let copy = own.copy()?;
    own.drop_id(ID);
    Ok(own.contents(ID).is_none() && copy.is_issued(ID) && !own.is_issued(ID))
}

#[test]
fn issues(rt: HostRuntime) -> Result<(), Fail> {
    let mut own = OwnLsps::new(rt.alloc());
    assert!(rt; own.next_issue(ID, None, false) == Issue::Number(1));
    assert!(rt; issue(&mut own, rt.alloc())?);
    assert!(rt; own.is_issued(ID) && own.next_from(ID) == Some(ID) && own.next_above(ID).is_none());
    assert!(rt; own.contents(ID) == Some((&[7u8][..], 3)));
    assert!(rt; first_other(&mut own).is_none());
    assert!(rt; own.next_issue(ID, live(u32::MAX), true) == Issue::Exhausted);
    assert!(rt; own.outbid(ID, 6) == Issue::Number(7));
    assert!(rt; own.outbid(ID, u32::MAX) == Issue::Exhausted);
    assert!(rt; is_dropped(&mut own)?);
    Ok(())
}
