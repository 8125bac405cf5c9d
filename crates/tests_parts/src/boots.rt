//! Boot numbers that are remembered and kept, of adjacency: 256 systems of a circuit, and neighbours in another boot.
use crate::neighbours::{OTHER, area, hello, lan_hello, own};
use adjacency::{AdjChange, Boots, HelloDrop, HelloFields, LanAdj, P2pAdj};
use isis_base::{AreaAddress, Level, OutOfMemory, SystemId};
use isis_tlv::Adj;
use std::test::Fail;

/// The system of a number.
fn system(number: u16) -> SystemId {
    let [high, low] = number.to_be_bytes();
    SystemId([8, 0, 0, 0, high, low])
}

/// The first of 256 systems that isn't heard, each in boot 5.
fn first_unheard(boots: &mut Boots) -> Option<u16> {
    for number in 0..256u16 {
        if boots.hear(system(number), 5).is_err() {
            return Some(number);
        }
    }
    None
}

/// Whether boots have the greater number of two systems, and not a 257th.
fn are_greatest(boots: &Boots) -> bool {
    let (seven, eight) = (boots.heard(system(7)), boots.heard(system(8)));
    seven == Some(9) && eight == Some(5) && boots.heard(system(256)).is_none()
}

/// Whether a 257th system isn't heard, and systems that are known are, in greater boots and in smaller ones.
fn keeps_greatest(boots: &mut Boots) -> bool {
    let full = boots.hear(system(256), 9).is_err();
    let greater = boots.hear(system(7), 9).is_ok();
    let smaller = boots.hear(system(8), 3).is_ok();
    full && greater && smaller && are_greatest(boots)
}

/// Whether a copy is equal, and stays so while more is heard.
fn is_copied(boots: &mut Boots) -> Result<bool, OutOfMemory> {
    let copy = boots.copy()?;
    let later = boots.hear(system(7), 10).is_ok() && boots.heard(system(7)) == Some(10);
    Ok(later && are_greatest(&copy))
}

#[test]
fn remembers_256_systems(rt: HostRuntime) -> Result<(), Fail> {
    let mut boots = Boots::new(rt.alloc())?;
    assert!(rt; boots.heard(system(7)).is_none());
    assert_eq!(rt; first_unheard(&mut boots), None);
    assert!(rt; keeps_greatest(&mut boots));
    assert!(rt; is_copied(&mut boots)?);
    Ok(())
}

/// Whether a hello of a system that isn't remembered is one too many.
fn is_too_many(
    lan: &mut LanAdj,
    hello: &HelloFields<'_>,
    areas: &[AreaAddress],
    boots: &mut Boots,
) -> bool {
    let over_link = P2pAdj::new().hear_hello(&own(areas), hello, boots).err();
    let on_lan = lan.hear_hello(&own(areas), Level::One, hello, boots).err();
    let is_too_many = over_link == Some(HelloDrop::TooMany) && on_lan == over_link;
    is_too_many && lan.heard().is_empty() && boots.heard(OTHER).is_none()
}

#[test]
fn hears_hellos_of_256_systems(rt: HostRuntime) -> Result<(), Fail> {
    let areas = [area(1).ok_or("an area")?];
    let mut boots = Boots::new(rt.alloc())?;
    let mut lan = LanAdj::new(rt.alloc())?;
    assert_eq!(rt; first_unheard(&mut boots), None);
    assert!(rt; is_too_many(&mut lan, &hello(Adj::Down, &areas), &areas, &mut boots));
    Ok(())
}

/// Hellos over a link in turn: the boot, the state, what becomes of it, and the boot that is kept afterwards.
const OVER_LINK: [(u32, Adj, AdjChange, Option<u32>); 6] = [
    (2, Adj::Down, AdjChange::Moved, Some(2)),
    (2, Adj::Initializing, AdjChange::WentUp, Some(2)),
    (3, Adj::Initializing, AdjChange::WentUp, Some(3)),
    (4, Adj::Down, AdjChange::LeftUp, Some(4)),
    (5, Adj::Down, AdjChange::Moved, Some(5)),
    (6, Adj::Up, AdjChange::Moved, None),
];

/// The boot that is kept of a neighbour.
fn kept_boot(adjacency: &P2pAdj) -> Option<u32> {
    match adjacency.neighbour() {
        Some(neighbour) => Some(neighbour.boot),
        None => None,
    }
}

/// The place of the first turn that goes otherwise.
fn first_wrong(adjacency: &mut P2pAdj, areas: &[AreaAddress], boots: &mut Boots) -> Option<usize> {
    for (place, (boot, state, change, kept)) in OVER_LINK.iter().enumerate() {
        let hello = HelloFields {
            boot: *boot,
            ..hello(*state, areas)
        };
        let got = adjacency.hear_hello(&own(areas), &hello, boots);
        if got != Ok(*change) || kept_boot(adjacency) != *kept {
            return Some(place);
        }
    }
    None
}

#[test]
fn begins_anew_in_another_boot(rt: HostRuntime) -> Result<(), Fail> {
    let areas = [area(1).ok_or("an area")?];
    let mut boots = Boots::new(rt.alloc())?;
    let mut adjacency = P2pAdj::new();
    assert_eq!(rt; first_wrong(&mut adjacency, &areas, &mut boots), None);
    let old = hello(Adj::Down, &areas);
    let got = adjacency.hear_hello(&own(&areas), &old, &mut boots);
    assert!(rt; got == Err(HelloDrop::OldBoot));
    assert!(rt; boots.heard(OTHER) == Some(6));
    Ok(())
}

/// LAN hellos in turn: the boot, whether it names one's own SNPA, what becomes of it, and how many are Up afterwards.
const ON_LAN: [(u32, bool, AdjChange, usize); 6] = [
    (2, true, AdjChange::WentUp, 1),
    (3, true, AdjChange::Moved, 1),
    (4, false, AdjChange::LeftUp, 0),
    (4, false, AdjChange::None, 0),
    (5, false, AdjChange::Moved, 0),
    (6, true, AdjChange::WentUp, 1),
];

/// What comes of a LAN hello in a boot.
fn heard_on_lan(
    lan: &mut LanAdj,
    areas: &[AreaAddress],
    boot: u32,
    names_me: bool,
    boots: &mut Boots,
) -> Result<AdjChange, HelloDrop> {
    let hello = HelloFields {
        boot,
        ..lan_hello(3, 1, names_me, areas)
    };
    lan.hear_hello(&own(areas), Level::One, &hello, boots)
}

/// The place of the first turn that goes otherwise.
fn first_wrong_on_lan(lan: &mut LanAdj, areas: &[AreaAddress], boots: &mut Boots) -> Option<usize> {
    for (place, (boot, names_me, change, up)) in ON_LAN.iter().enumerate() {
        let got = heard_on_lan(lan, areas, *boot, *names_me, boots);
        if got != Ok(*change) || lan.up().len() != *up || lan.heard().len() != 1 {
            return Some(place);
        }
    }
    None
}

#[test]
fn begins_anew_in_another_boot_on_a_lan(rt: HostRuntime) -> Result<(), Fail> {
    let areas = [area(1).ok_or("an area")?];
    let mut boots = Boots::new(rt.alloc())?;
    let mut lan = LanAdj::new(rt.alloc())?;
    assert_eq!(rt; first_wrong_on_lan(&mut lan, &areas, &mut boots), None);
    assert!(rt; lan.second() == AdjChange::LeftUp && lan.heard().is_empty());
    let old = heard_on_lan(&mut lan, &areas, 5, true, &mut boots);
    assert!(rt; old == Err(HelloDrop::OldBoot));
    let again = heard_on_lan(&mut lan, &areas, 6, true, &mut boots);
    assert!(rt; again == Ok(AdjChange::WentUp));
    Ok(())
}
