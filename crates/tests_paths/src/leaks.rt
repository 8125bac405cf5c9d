//! What no clause of route_leaking says: each call once, over a table of routes and lists of area addresses.
use crate::graphs::graph;
use crate::offers::{candidates, item, made};
use isis_base::AreaAddress;
use isis_tlv::PrefixItem;
use route_leaking::{attached, down_into_l1, up_into_l2};
use route_table::{Rank, Route, Routes};
use std::alloc::Global;
use std::test::Fail;

/// What is offered: prefix, rank, cost; all from system 2.
const CANDIDATES: &str = "\
10.0.0.0/8 One 20 2
10.1.0.0/16 Two 30 2
10.2.0.0/16 OneDown 1 2
10.3.0.0/16 One 5000000000 2
10.4.0.0/16 Own 7 2
10.5.0.0/16 Two 4261412865 2
0.0.0.0/0 Default 10 2";

/// The routes of what is offered, over one link between systems 1 and 2 in both levels.
fn table(alloc: Global, offers: &str) -> Option<Routes> {
    let candidates = candidates(alloc, offers, true)?;
    let graph = graph(alloc, "1-2:1 2-1:1", None)?;
    made(alloc, candidates.as_slice(), &graph, &graph).ok()
}

/// Whether these are the items of two words, each with the bit or each without.
fn are_told(items: &[PrefixItem], words: [&str; 2], down: bool) -> bool {
    let [first, second] = words;
    match items {
        [one, two] => Some(*one) == item(first, down) && Some(*two) == item(second, down),
        _ => false,
    }
}

#[test]
fn leaks_by_rank(rt: HostRuntime) -> Result<(), Fail> {
    let table = table(rt.alloc(), CANDIDATES).ok_or("routes")?;
    let up = up_into_l2(rt.alloc(), &table)?;
    assert!(rt; are_told(&up, ["10.0.0.0/8:20", "10.3.0.0/16:4261412864"], false));
    let down = down_into_l1(rt.alloc(), &table)?;
    assert!(rt; are_told(&down, ["10.1.0.0/16:30", "10.5.0.0/16:4261412864"], true));
    Ok(())
}

/// The rank and the cost of the only route.
fn only(routes: &[Route]) -> Option<(Rank, u64)> {
    match routes {
        [route] => Some((route.rank, route.cost)),
        _ => None,
    }
}

/// Whether what is offered of one prefix comes to a way of this rank and cost, which is told up at this metric or not at all.
fn is_taken(alloc: Global, offers: &str, way: (Rank, u64), metric: Option<u32>) -> Option<bool> {
    let table = table(alloc, offers)?;
    let up = up_into_l2(alloc, &table).ok()?;
    let told = up.first().map(|item| item.metric);
    Some(only(table.list()) == Some(way) && up.len() <= 1 && told == metric)
}

// A way in level 1 before a cheaper one in level 2, and what came down last, which isn't leaked up.
#[test]
fn leaks_the_better_rank(rt: HostRuntime) {
    let alloc = rt.alloc();
    let down = "10.9.0.0/16 OneDown 1 2";
    assert!(rt; is_taken(alloc, down, (Rank::OneDown, 1), None) == Some(true));
    let two = "10.9.0.0/16 OneDown 1 2\n10.9.0.0/16 Two 20 2";
    assert!(rt; is_taken(alloc, two, (Rank::Two, 20), None) == Some(true));
    let all = "10.9.0.0/16 OneDown 1 2\n10.9.0.0/16 Two 20 2\n10.9.0.0/16 One 500 2";
    assert!(rt; is_taken(alloc, all, (Rank::One, 500), Some(500)) == Some(true));
}

/// Areas 49.00 with these last octets, behind others.
fn add_areas(reached: &mut Vec<Vec<AreaAddress>>, alloc: Global, lasts: &[u8]) -> Option<()> {
    let mut areas = Vec::new(alloc);
    for last in lasts {
        areas.push(AreaAddress::new(&[0x49, 0, *last])?).ok()?;
    }
    reached.push(areas).ok()
}

#[test]
fn is_attached_where_another_area_is_reached(rt: HostRuntime) -> Result<(), Fail> {
    let one = AreaAddress::new(&[0x49, 0, 1]).ok_or("an area")?;
    let own = [one, AreaAddress::new(&[0x49, 0, 2]).ok_or("an area")?];
    let mut reached = Vec::new(rt.alloc());
    assert!(rt; !attached(&own, reached.as_slice()));
    add_areas(&mut reached, rt.alloc(), &[]).ok_or("areas")?;
    assert!(rt; !attached(&own, reached.as_slice()));
    add_areas(&mut reached, rt.alloc(), &[3, 2]).ok_or("areas")?;
    assert!(rt; !attached(&own, reached.as_slice()));
    add_areas(&mut reached, rt.alloc(), &[3, 4]).ok_or("areas")?;
    assert!(rt; attached(&own, reached.as_slice()));
    Ok(())
}
