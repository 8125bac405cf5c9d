//! What router_wanted tells of a level of a router that is designated on a LAN: its LSP, with leaks, and its pseudonode's.
ghost use Rattle.std.specs.Prelude.{◌≡◌, IfOk};

use crate::made::{SECOND, TWO, circuit};
use adjacency::{HelloFields, Own};
use isis_base::{AreaAddress, CircuitKind, Level, LevelSet, OutOfMemory, Prefix, Snpa, SystemId};
use router_circuits::Circuit;
use router_wanted::{Wanted, Wants, wanted_lsps};
use std::alloc::Global;

const MINE: SystemId = SystemId([0, 0, 0, 0, 0, 9]);

const SNPA: Snpa = Snpa([0, 0, 0, 0, 0, 2]);

/// A hello of another system, at priority 1.
fn hello<'a>(areas: &'a [AreaAddress]) -> HelloFields<'a> {
    HelloFields {
        source: SECOND,
        snpa: SNPA,
        boot: 1,
        levels: LevelSet::One,
        holding: 30,
        priority: 1,
        lan: TWO,
        areas,
        three_way: None,
        names_me: true,
    }
}

/// A LAN at metric 10 and priority 64, on which that hello was heard.
fn lan(alloc: Global, areas: &[AreaAddress]) -> Result<Circuit, OutOfMemory>
    ensures { IfOk result (λ circuit. circuit.metric ≡ 10) }
{
    let config = circuit(CircuitKind::Lan, None);
    let mut lan = Circuit::new(alloc, &config)?;
    let own = Own {
        system: MINE,
        id: 257,
        levels: LevelSet::Both,
        areas,
    };
    let _ = lan.hear_lan(alloc, &own, Level::One, &hello(areas));
    lan.set_metric(10);
    Ok(lan)
}

/// Area 49.0001, IPv4, the circuit's address, the pseudonode at 10, and two prefixes: one's own at
/// 10, and a leaked one at 20.
const SYSTEM: &[u8] = &[
    1, 4, 3, 0x49, 0, 1, 129, 1, 204, 132, 4, 0, 0, 0, 1, 22, 11, 0, 0, 0, 0, 0, 9, 1, 0, 0, 10, 0,
    135, 12, 0, 0, 0, 10, 8, 10, 0, 0, 0, 20, 0x88, 20,
];

/// Both systems, at 0.
const PSEUDONODE: &[u8] = &[
    22, 22, 0, 0, 0, 0, 0, 2, 0, 0, 0, 0, 0, 0, 0, 0, 0, 0, 9, 0, 0, 0, 0, 0,
];

fn says(wanted: &Wanted, pseudonode: u8, flags: u8, tlvs: &[u8]) -> bool {
    wanted.id.node.pseudonode == pseudonode
        && wanted.id.number == 0
        && wanted.flags == flags
        && wanted.tlvs.as_slice() == tlvs
}

/// Whether two LSPs are wanted, as they should be.
fn are_wanted(list: &[Wanted]) -> bool {
    match list {
        [system, pseudonode] => { says(system, 0, 11, SYSTEM) & says(pseudonode, 1, 3, PSEUDONODE) }
        _ => false,
    }
}

/// What is lent of a router of one area and one prefix.
fn lent<'a>(areas: &'a [AreaAddress], prefixes: &'a [(Prefix, u32)]) -> Wants<'a>
    ensures areas { result.areas.now ≡ areas.now }
    ensures prefixes { result.prefixes.now ≡ prefixes.now }
{
    Wants {
        system: MINE,
        areas,
        levels: LevelSet::Both,
        leak: true,
        overload: false,
        prefixes,
        signed: false,
    }
}

/// Whether a router of an area wants them, which has a prefix and leaks another.
fn wants_two(
    alloc: Global,
    area: AreaAddress,
    ten: Prefix,
    twenty: Prefix,
) -> Result<bool, OutOfMemory> {
    let (areas, prefixes, leaks) = ([area], [(ten, 10)], [(twenty, 20), (ten, 5)]);
    let circuits = [lan(alloc, &areas)?];
    let base = lent(&areas, &prefixes);
    let list = wanted_lsps(alloc, &base, &circuits, Level::One, &leaks, true)?;
    Ok(are_wanted(list.as_slice()))
}

#[test]
fn wants_two_lsps(rt: HostRuntime) {
    let (Some(area), Some(ten), Some(twenty)) = (
        AreaAddress::new(&[0x49, 0, 1]),
        Prefix::new(0x0A00_0000, 8),
        Prefix::new(0x1400_0000, 8),
    ) else {
        panic!(rt; "an area and prefixes")
    };
    assert_eq!(rt; wants_two(rt.alloc(), area, ten, twenty), Ok(true));
}
