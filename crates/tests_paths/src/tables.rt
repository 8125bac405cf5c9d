//! What is offered, the routes that come of it and look-ups, in tables, of route_table: no clause prints a route.
use crate::graphs::{add_hops, graph};
use crate::offers::{candidates, made};
use isis_base::{Prefix, read_prefix};
use route_table::{Route, Routes};
use std::alloc::{AllocError, Global};
use std::test::Fail;

/// Level 1: system 4 behind 2 and 3, at the same cost.
const ONE: &str = "1-2:10 2-1:10 1-3:10 3-1:10 2-4:5 4-2:5 3-4:5 4-3:5";

/// Level 2: system 5 beside the root.
const TWO: &str = "1-5:1 5-1:1";

/// What is offered: prefix, rank, cost, origin.
const CANDIDATES: &str = "\
172.16.0.0/12 OneDown 30 3
10.0.0.0/8 Two 1 5
10.1.0.0/16 Two 12 5
10.0.0.0/8 One 20 4
0.0.0.0/0 Default 10 3
10.1.0.0/16 Two 9 5
10.0.0.0/8 One 25 2
10.0.0.0/16 Own 7 1
0.0.0.0/0 Default 10 2
172.16.0.0/12 Default 2 2";

/// The routes that come of it, with their next hops.
const ROUTES: &str = "\
0.0.0.0/0 Default 10>2,3
10.0.0.0/8 One 20>2,3
10.0.0.0/16 Own 7>
10.1.0.0/16 Two 9>5
172.16.0.0/12 OneDown 30>3";

/// The table of what is offered.
fn table(alloc: Global, default: bool) -> Option<Routes> {
    let candidates = candidates(alloc, CANDIDATES, default)?;
    let one = graph(alloc, ONE, None)?;
    let two = graph(alloc, TWO, None)?;
    made(alloc, candidates.as_slice(), &one, &two).ok()
}

/// Puts a route behind a text.
fn add_route(text: &mut String, route: &Route) -> Result<(), AllocError> {
    let (prefix, rank, cost) = (route.prefix, route.rank, route.cost);
    write!(text, "{prefix} {rank:?} {cost}>")?;
    add_hops(text, &route.hops)?;
    write!(text, "\n")
}

/// Whether routes are those of rows.
fn are_routes(alloc: Global, routes: &[Route], rows: &str) -> Result<bool, AllocError> {
    let mut text = String::new(alloc);
    for route in routes {
        add_route(&mut text, route)?;
    }
    Ok(text.as_str().trim() == rows)
}

#[test]
fn each_prefix_has_its_best_way(rt: HostRuntime) -> Result<(), Fail> {
    let routes = table(rt.alloc(), true).ok_or("routes")?;
    assert!(rt; are_routes(rt.alloc(), routes.list(), ROUTES)?);
    let copy = routes.copy()?;
    assert!(rt; are_routes(rt.alloc(), copy.list(), ROUTES)?);
    Ok(())
}

/// Addresses as prefixes of 32 bits, and the longest prefix with and without the default route.
const ADDRESSES: &str = "\
10.1.2.3/32 10.1.0.0/16 10.1.0.0/16
10.2.0.1/32 10.0.0.0/8 10.0.0.0/8
11.0.0.1/32 0.0.0.0/0 -
10.0.255.255/32 10.0.0.0/16 10.0.0.0/16
172.31.255.255/32 172.16.0.0/12 172.16.0.0/12
172.32.0.0/32 0.0.0.0/0 -
0.0.0.0/32 0.0.0.0/0 -
255.255.255.255/32 0.0.0.0/0 -";

/// Whether the longest prefix of an address is this one, `-` for none.
fn is_longest(routes: &Routes, address: Prefix, want: &str) -> bool {
    match routes.lookup(address.address()) {
        Some(route) => read_prefix(want) == Ok(route.prefix),
        None => want == "-",
    }
}

fn is_found(with: &Routes, without: &Routes, row: &str) -> Option<bool> {
    let (address, rest) = row.split_once(' ')?;
    let (want, less) = rest.split_once(' ')?;
    let address = read_prefix(address).ok()?;
    Some(is_longest(with, address, want) && is_longest(without, address, less))
}

fn first_not_found<'a>(with: &Routes, without: &Routes, rows: &'a str) -> Option<&'a str> {
    for row in rows.lines() {
        if is_found(with, without, row) != Some(true) {
            return Some(row);
        }
    }
    None
}

#[test]
fn addresses_have_their_longest_prefix(rt: HostRuntime) -> Result<(), Fail> {
    let with = table(rt.alloc(), true).ok_or("routes")?;
    let without = table(rt.alloc(), false).ok_or("routes")?;
    assert_eq!(rt; first_not_found(&with, &without, ADDRESSES), None);
    Ok(())
}
