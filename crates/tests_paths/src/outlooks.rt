//! What no clause of router_routes says: two systems of level 1, the route that one tells the other, and what follows once it
//! is told something else.
ghost use Rattle.router_routes.specs.Outlooks.{outlook_in};
ghost use Rattle.router_routes.specs.Following.{IsFollowing};

use crate::graphs::node;
use crate::lsps::{entry_of, put};
use isis_base::{Level, LevelSet, LspId, OutOfMemory};
use lsp_store::{Entry, Store};
use router_routes::{Following, Lent};
use std::alloc::Global;
use std::test::Fail;

/// System 2 at 10.
const FIRST: &[u8] = b"\x16\x0b\0\0\0\0\0\x02\0\0\0\x0a\0";

/// System 1 at 10, and 10.1.0.0/16 at 20.
const OTHER: &[u8] = b"\x16\x0b\0\0\0\0\0\x01\0\0\0\x0a\0\x87\x07\0\0\0\x14\x10\x0a\x01";

/// System 1 at 10, and 10.1.0.0/16 at 21.
const DEARER: &[u8] = b"\x16\x0b\0\0\0\0\0\x01\0\0\0\x0a\0\x87\x07\0\0\0\x15\x10\x0a\x01";

/// The database of what both systems tell.
fn database(alloc: Global, first: &[u8], other: &[u8]) -> Result<Store, OutOfMemory> {
    let mut store = Store::new(alloc);
    put(alloc, &mut store, (node(1), 0), false, 1, first)?;
    put(alloc, &mut store, (node(2), 0), false, 1, other)?;
    Ok(store)
}

/// What system 1, of level 1, has.
fn lent<'a>(one: &'a Store, two: &'a Store) -> Lent<'a> {
    Lent {
        system: node(1).system,
        areas: &[],
        levels: LevelSet::One,
        prefixes: &[],
        one,
        two,
    }
}

/// The cost of the only route, how many systems it leads to first, and how often level 1 changed.
fn only(following: &Following) -> Option<(u64, usize, u64)> {
    match following.routes().list() {
        [route] => {
            let changes = following.repaired(Level::One).changes();
            Some((route.cost, route.hops.len(), changes))
        }
        _ => None,
    }
}

/// Whether there is the one route, which is told in level 2, and no other area is reached.
fn is_told(following: &Following) -> Result<bool, OutOfMemory> {
    let is_only = only(following) == Some((30, 1, 0)) && !following.attached();
    let leaks = following.leaks(Level::Two)?;
    Ok(is_only && leaks.len() == 1)
}

/// Whether what follows a database has the one route.
fn follows(alloc: Global, one: &Store) -> Result<bool, OutOfMemory> {
    let none = Store::new(alloc);
    let lent = lent(one, &none);
    let following = Following::new(alloc, &lent)?;
    is_told(&following)
}

#[test]
fn follows_two_systems(rt: HostRuntime) -> Result<(), Fail> {
    let store = database(rt.alloc(), FIRST, OTHER)?;
    assert!(rt; follows(rt.alloc(), &store)?);
    Ok(())
}

/// Whether the only route costs so much.
fn costs(following: &Following, cost: u64) -> bool {
    match following.routes().list() {
        [route] => route.cost == cost,
        _ => false,
    }
}

/// Whether the only route costs so much once system 2 tells this.
fn costs_then(
    following: &mut Following,
    lent: &Lent<'_>,
    entry: &Entry,
    cost: u64,
) -> Result<bool, OutOfMemory>
    requires { IsFollowing (outlook_in lent.now) following.old }
{
    let id = LspId {
        node: node(2),
        number: 0,
    };
    match following.ahead(lent, Level::One, id, entry) {
        Ok(Some(next)) => following.put(next),
        Ok(None) => {}
        Err(error) => return Err(error),
    }
    Ok(costs(following, cost))
}

/// The same of what follows a database.
fn told_then(alloc: Global, one: &Store, entry: &Entry, cost: u64) -> Result<bool, OutOfMemory> {
    let none = Store::new(alloc);
    let lent = lent(one, &none);
    let mut following = Following::new(alloc, &lent)?;
    costs_then(&mut following, &lent, entry, cost)
}

/// The same where system 2 tells this.
fn is_cost(alloc: Global, body: &[u8], cost: u64) -> Result<bool, OutOfMemory> {
    let store = database(alloc, FIRST, OTHER)?;
    let entry = entry_of(alloc, false, 1, body)?;
    told_then(alloc, &store, &entry, cost)
}

#[test]
fn follows_one_node(rt: HostRuntime) -> Result<(), Fail> {
    assert!(rt; is_cost(rt.alloc(), OTHER, 30)?);
    assert!(rt; is_cost(rt.alloc(), DEARER, 31)?);
    Ok(())
}
