//! A toy run: three deliveries come up, and one more where something was lost before it. It costs the sum of the lost places,
//! counted from 1.
use losses::{LossesFault, Part, Played, Player, Stop, Tally, explore};
use std::alloc::Global;

#[derive(Drop)]
struct Toy {
    deliveries: usize,
}

impl Player for Toy {
    ghost plays = { λ _ _. ⊥ };

    ghost meets = { λ _ _. Unit {0} };

    fn play(&self, fates: &[bool]) -> Result<Played, Stop> {
        let mut cost: u64 = 0;
        let mut lost = false;
        for place in 0..fates.len() {
            if fates[place] {
                cost = cost.wrapping_add(place as u64).wrapping_add(1);
                lost = true;
            }
        }
        let count = if lost {
            self.deliveries.wrapping_add(1)
        } else {
            self.deliveries
        };
        let further = if count > fates.len() {
            count - fates.len()
        } else {
            0
        };
        Ok(Played { further, cost })
    }
}

/// How many schedules a part has, how many of them cost more than 5, and the worst.
fn counted(alloc: Global, number: usize, of: usize) -> Option<(u64, u64, u64)> {
    if of == 0 {
        return None;
    }
    let toy = Toy { deliveries: 3 };
    let tally: Result<Tally, LossesFault> = explore(alloc, &toy, 2, 5, Part { number, of });
    match tally {
        Ok(tally) => Some((tally.schedules(), tally.apart(), tally.worst())),
        Err(_) => None,
    }
}

// With none lost one; with one lost three. With two lost: three after the first place, two after the second, one after the third.
#[test]
fn all_schedules_are_played(rt: HostRuntime) {
    assert_eq!(rt; counted(rt.alloc(), 0, 1), Some((10, 2, 7)));
}

// The first and the third place are in the first part, with the schedule that loses nothing.
#[test]
fn parts_are_played(rt: HostRuntime) {
    assert_eq!(rt; counted(rt.alloc(), 0, 2), Some((7, 1, 7)));
    assert_eq!(rt; counted(rt.alloc(), 1, 2), Some((3, 1, 6)));
}
