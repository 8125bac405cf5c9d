//! Rows of elections, pseudonodes, and identifiers as numbers, of designated_is.
use designated_is::{
    Candidate, are_same_systems, elect, pseudonode, snpa_to_number, system_to_number,
};
use isis_base::{Snpa, SystemId};

fn system(number: u8) -> SystemId {
    SystemId([0, 0, 0, 0, 0, number])
}

/// A candidate of a priority, an SNPA and a system.
fn candidate(row: (u8, u8, u8)) -> Candidate {
    Candidate {
        priority: row.0,
        snpa: Snpa([2, 0, 0, 0, 0, row.1]),
        system: system(row.2),
    }
}

/// The system that is elected of three.
fn elected(rows: [(u8, u8, u8); 3]) -> Option<SystemId> {
    let [one, two, three] = rows;
    elect(&[candidate(one), candidate(two), candidate(three)])
}

#[test]
fn elections(rt: HostRuntime) {
    assert!(rt; elect(&[]).is_none());
    assert!(rt; elect(&[candidate((0, 1, 1))]) == Some(system(1)));
    // By priority, by SNPA, by system.
    assert!(rt; elected([(64, 9, 1), (65, 1, 2), (3, 9, 3)]) == Some(system(2)));
    assert!(rt; elected([(64, 1, 3), (64, 7, 2), (64, 2, 1)]) == Some(system(2)));
    assert!(rt; elected([(64, 1, 2), (64, 1, 3), (64, 1, 1)]) == Some(system(3)));
    assert!(rt; pseudonode(7) == 7);
}

#[test]
fn identifiers(rt: HostRuntime) {
    let (one, two) = (SystemId([0, 0, 0, 0, 1, 2]), SystemId([0, 0, 0, 0, 2, 2]));
    assert!(rt; system_to_number(one) == 258);
    assert!(rt; snpa_to_number(Snpa([0, 0, 0, 0, 2, 2])) == 514);
    assert!(rt; are_same_systems(one, one) && !are_same_systems(one, two));
}
