//! Rows of point-to-point adjacencies and of LANs, of adjacency: each call once, each refusal for both kinds, and 200
//! neighbours.
use adjacency::{
    AdjChange, Boots, HelloDrop, HelloFields, LanAdj, Neighbour, Own, P2pAdj, three_way,
};
use isis_base::{AreaAddress, Level, LevelSet, NodeId, OutOfMemory, Snpa, SystemId};
use isis_tlv::{Adj, ThreeWay};
use std::alloc::Global;
use std::test::Fail;

pub const MINE: SystemId = SystemId([0, 0, 0, 0, 0, 1]);

pub const OTHER: SystemId = SystemId([0, 0, 0, 0, 0, 2]);

/// One's own part, in an area.
pub fn own<'a>(areas: &'a [AreaAddress]) -> Own<'a> {
    Own {
        system: MINE,
        id: 257,
        levels: LevelSet::One,
        areas,
    }
}

/// A hello of another system in boot 2, over a link or a LAN, with a holding time of 2 seconds.
pub fn hello<'a>(state: Adj, areas: &'a [AreaAddress]) -> HelloFields<'a> {
    HelloFields {
        source: OTHER,
        snpa: Snpa(OTHER.0),
        boot: 2,
        levels: LevelSet::One,
        holding: 2,
        priority: 64,
        lan: NodeId {
            system: OTHER,
            pseudonode: 0,
        },
        areas,
        three_way: Some(ThreeWay {
            state,
            own_id: Some(515),
            neighbour: Some((MINE, 257)),
        }),
        names_me: false,
    }
}

/// A LAN hello of system 9.0.0.0.0.number.
pub fn lan_hello<'a>(
    number: u8,
    holding: u16,
    names_me: bool,
    areas: &'a [AreaAddress],
) -> HelloFields<'a> {
    let octets = [9, 0, 0, 0, 0, number];
    HelloFields {
        source: SystemId(octets),
        snpa: Snpa(octets),
        holding,
        three_way: None,
        names_me,
        ..hello(Adj::Down, areas)
    }
}

/// The area 49.0001, or with another last octet.
pub fn area(last: u8) -> Option<AreaAddress> {
    AreaAddress::new(&[0x49, 0, last])
}

/// What comes of a hello in a state.
fn heard(
    adjacency: &mut P2pAdj,
    areas: &[AreaAddress],
    state: Adj,
    boots: &mut Boots,
) -> Option<AdjChange> {
    adjacency
        .hear_hello(&own(areas), &hello(state, areas), boots)
        .ok()
}

#[test]
fn comes_up_and_ends(rt: HostRuntime) -> Result<(), Fail> {
    let areas = [area(1).ok_or("an area")?];
    let mut boots = Boots::new(rt.alloc())?;
    let mut adjacency = P2pAdj::new();
    let moved = heard(&mut adjacency, &areas, Adj::Down, &mut boots);
    assert!(rt; moved == Some(AdjChange::Moved));
    assert!(rt; adjacency.state() == Adj::Initializing);
    let up = heard(&mut adjacency, &areas, Adj::Initializing, &mut boots);
    assert!(rt; up == Some(AdjChange::WentUp));
    assert!(rt; adjacency.state() == three_way(Adj::Initializing, Adj::Initializing));
    assert!(rt; adjacency.names_boot() == Some(2));
    assert!(rt; adjacency.second() == AdjChange::None && adjacency.neighbour().is_some());
    assert!(rt; adjacency.second() == AdjChange::LeftUp && adjacency.neighbour().is_none());
    Ok(())
}

/// What is spoilt in a hello, and why it is refused then over a link, and on a LAN of level 1.
const REFUSALS: &str = "\
mine OwnId OwnId
elsewhere OtherSnpa OtherSnpa
old OldBoot OldBoot
oldtwo OldBoot OldBoot
two NoLevel NoLevel
far NoArea NoArea
plain NoThreeWay -
named OtherNeighbour -";

/// A hello that is spoilt, in boot 2 where it isn't old.
fn spoilt<'a>(how: &str, areas: &'a [AreaAddress], others: &'a [AreaAddress]) -> HelloFields<'a> {
    let mut hello = hello(Adj::Down, areas);
    match how.as_bytes() {
        b"mine" => hello.source = MINE,
        b"elsewhere" => hello.snpa = Snpa(MINE.0),
        b"old" => hello.boot = 0,
        b"oldtwo" => {
            hello.boot = 0;
            hello.levels = LevelSet::Two;
        }
        b"two" => hello.levels = LevelSet::Two,
        b"far" => hello.areas = others,
        b"plain" => hello.three_way = None,
        _ => {
            hello.three_way = Some(ThreeWay {
                state: Adj::Down,
                own_id: Some(515),
                neighbour: Some((MINE, 1)),
            });
        }
    }
    hello
}

/// Why a hello is refused, by its word; none by another one.
fn drop_of(word: &str) -> Option<HelloDrop> {
    match word.as_bytes() {
        b"OwnId" => Some(HelloDrop::OwnId),
        b"OtherSnpa" => Some(HelloDrop::OtherSnpa),
        b"OldBoot" => Some(HelloDrop::OldBoot),
        b"NoLevel" => Some(HelloDrop::NoLevel),
        b"NoArea" => Some(HelloDrop::NoArea),
        b"NoThreeWay" => Some(HelloDrop::NoThreeWay),
        b"OtherNeighbour" => Some(HelloDrop::OtherNeighbour),
        _ => None,
    }
}

/// Boots in which the other system's boot 1 is remembered.
fn remembering(alloc: Global) -> Option<Boots> {
    let mut boots = Boots::new(alloc).ok()?;
    let heard = boots.hear(OTHER, 1);
    if heard.is_ok() { Some(boots) } else { None }
}

/// The boot of the other system that is remembered, where a hello of its boot 2 is refused or not.
fn is_remembered(boots: &Boots, why: Option<HelloDrop>) -> bool {
    boots.heard(OTHER) == Some(if why.is_some() { 1 } else { 2 })
}

/// Whether a hello is refused so over a link.
fn is_refused_over_link(
    own: &Own<'_>,
    hello: &HelloFields<'_>,
    boots: &mut Boots,
    why: Option<HelloDrop>,
) -> bool {
    let mut point = P2pAdj::new();
    point.hear_hello(own, hello, boots).err() == why && is_remembered(boots, why)
}

/// Whether a hello is refused so on a LAN, and its sender heard where it isn't refused.
fn is_refused_on_lan(
    lan: &mut LanAdj,
    own: &Own<'_>,
    hello: &HelloFields<'_>,
    boots: &mut Boots,
    why: Option<HelloDrop>,
) -> bool {
    let got = lan.hear_hello(own, Level::One, hello, boots).err();
    got == why && is_remembered(boots, why) && lan.heard().len() == usize::from(why.is_none())
}

fn is_right_over_link(
    alloc: Global,
    own: &Own<'_>,
    hello: &HelloFields<'_>,
    why: &str,
) -> Option<bool> {
    let mut boots = remembering(alloc)?;
    Some(is_refused_over_link(own, hello, &mut boots, drop_of(why)))
}

fn is_right_on_lan(
    alloc: Global,
    own: &Own<'_>,
    hello: &HelloFields<'_>,
    why: &str,
) -> Option<bool> {
    let mut boots = remembering(alloc)?;
    let mut lan = LanAdj::new(alloc).ok()?;
    Some(is_refused_on_lan(&mut lan, own, hello, &mut boots, drop_of(why)))
}

fn is_refused(
    alloc: Global,
    areas: &[AreaAddress],
    others: &[AreaAddress],
    row: &str,
) -> Option<bool> {
    let (how, rest) = row.split_once(' ')?;
    let (over_link, on_lan) = rest.split_once(' ')?;
    let own = own(areas);
    let hello = spoilt(how, areas, others);
    let is_right = is_right_over_link(alloc, &own, &hello, over_link)?;
    Some(is_right && is_right_on_lan(alloc, &own, &hello, on_lan)?)
}

fn first_misjudged<'a>(
    alloc: Global,
    areas: &[AreaAddress],
    others: &[AreaAddress],
    rows: &'a str,
) -> Option<&'a str> {
    for row in rows.lines() {
        if is_refused(alloc, areas, others, row) != Some(true) {
            return Some(row);
        }
    }
    None
}

#[test]
fn refusals(rt: HostRuntime) -> Result<(), Fail> {
    let areas = [area(1).ok_or("an area")?];
    let others = [area(2).ok_or("an area")?];
    assert_eq!(rt;
        first_misjudged(rt.alloc(), &areas, &others, REFUSALS),
        None
    );
    Ok(())
}

/// LAN hellos in turn: the number, whether it names one's own SNPA, what becomes of it, and how many are heard and Up
/// afterwards.
const TURNS: [(u8, bool, AdjChange, usize, usize); 7] = [
    (7, false, AdjChange::Moved, 1, 0),
    (7, false, AdjChange::None, 1, 0),
    (3, true, AdjChange::WentUp, 2, 1),
    (7, true, AdjChange::WentUp, 2, 2),
    (3, true, AdjChange::None, 2, 2),
    (7, false, AdjChange::LeftUp, 2, 1),
    (5, false, AdjChange::Moved, 3, 1),
];

/// The place of the first turn that goes otherwise.
fn first_wrong_turn(lan: &mut LanAdj, areas: &[AreaAddress], boots: &mut Boots) -> Option<usize> {
    for (place, (number, names_me, change, heard, up)) in TURNS.iter().enumerate() {
        let hello = lan_hello(*number, 2, *names_me, areas);
        let got = lan.hear_hello(&own(areas), Level::One, &hello, boots);
        if got != Ok(*change) || lan.heard().len() != *heard || lan.up().len() != *up {
            return Some(place);
        }
    }
    None
}

/// Whether neighbours are those of these numbers, in order.
fn numbers_are(neighbours: &[Neighbour], numbers: &[u8]) -> bool {
    if neighbours.len() != numbers.len() {
        return false;
    }
    for (neighbour, number) in neighbours.iter().zip(numbers) {
        if neighbour.snpa.0[5] != *number {
            return false;
        }
    }
    true
}

/// Whether these numbers are heard, and those up.
fn are_heard(lan: &LanAdj, heard: &[u8], up: &[u8]) -> bool {
    numbers_are(lan.heard(), heard) && numbers_are(lan.up(), up)
}

/// Whether the neighbours of the turns end in their seconds, of which one has three.
fn all_end(lan: &mut LanAdj, areas: &[AreaAddress], boots: &mut Boots) -> bool {
    let first = lan.second() == AdjChange::None;
    let longer = lan_hello(3, 3, true, areas);
    let again = lan.hear_hello(&own(areas), Level::One, &longer, boots) == Ok(AdjChange::None);
    let moved = lan.second() == AdjChange::Moved && are_heard(lan, &[3], &[3]);
    let third = lan.second() == AdjChange::None;
    let left = lan.second() == AdjChange::LeftUp && are_heard(lan, &[], &[]);
    first && again && moved && third && left
}

/// Whether a copy stays as it was while the neighbours end.
fn is_copied(
    lan: &mut LanAdj,
    areas: &[AreaAddress],
    boots: &mut Boots,
) -> Result<bool, OutOfMemory> {
    let copy = lan.copy()?;
    let is_same = are_heard(&copy, &[3, 5, 7], &[3]);
    Ok(is_same && all_end(lan, areas, boots) && copy.heard().len() == 3)
}

#[test]
fn hears_neighbours_on_a_lan(rt: HostRuntime) -> Result<(), Fail> {
    let areas = [area(1).ok_or("an area")?];
    let mut boots = Boots::new(rt.alloc())?;
    let mut lan = LanAdj::new(rt.alloc())?;
    assert_eq!(rt; first_wrong_turn(&mut lan, &areas, &mut boots), None);
    assert!(rt; are_heard(&lan, &[3, 5, 7], &[3]));
    assert!(rt; is_copied(&mut lan, &areas, &mut boots)?);
    Ok(())
}

/// What comes of a hello of a second's holding time.
fn heard_on_lan(
    lan: &mut LanAdj,
    areas: &[AreaAddress],
    number: u8,
    names_me: bool,
    boots: &mut Boots,
) -> Result<AdjChange, HelloDrop> {
    let hello = lan_hello(number, 1, names_me, areas);
    lan.hear_hello(&own(areas), Level::One, &hello, boots)
}

/// The first of 200 neighbours that isn't heard, of whom every second one names one's own SNPA.
fn first_not_heard(lan: &mut LanAdj, areas: &[AreaAddress], boots: &mut Boots) -> Option<u8> {
    for number in 0..200u8 {
        if heard_on_lan(lan, areas, number, number % 2 == 0, boots).is_err() {
            return Some(number);
        }
    }
    None
}

#[test]
fn hears_200_neighbours(rt: HostRuntime) -> Result<(), Fail> {
    let areas = [area(1).ok_or("an area")?];
    let mut boots = Boots::new(rt.alloc())?;
    let mut lan = LanAdj::new(rt.alloc())?;
    assert_eq!(rt; first_not_heard(&mut lan, &areas, &mut boots), None);
    let full = heard_on_lan(&mut lan, &areas, 200, true, &mut boots);
    assert!(rt; full == Err(HelloDrop::TooMany));
    let last = heard_on_lan(&mut lan, &areas, 199, true, &mut boots);
    assert!(rt; last == Ok(AdjChange::WentUp));
    assert!(rt; lan.heard().len() == 200 && lan.up().len() == 101);
    assert!(rt; lan.second() == AdjChange::LeftUp);
    let one_more = heard_on_lan(&mut lan, &areas, 200, true, &mut boots);
    assert!(rt; one_more == Ok(AdjChange::WentUp));
    Ok(())
}
