//! What no clause of lsp_view says: each call once, over a database of a few LSPs.
use crate::graphs::{node, rows_of};
use crate::lsps::put;
use crate::offers::item;
use isis_base::{AreaAddress, SystemId};
use lsp_store::Store;
use lsp_view::{area_list, is_attached, overloaded, reach, rows};
use std::alloc::Global;
use std::test::Fail;

/// The LSPs: node, number, kind, flags, and the octets behind the header in hex. The first has systems 2 at 10 and 3 at
/// 16,777,215; the second a TLV whose neighbour is cut, and one with system 4 at 5; the third system 1 at 0; the sixth area
/// 49.0001, 10.1.0.0/16 at 20 and 10.2.0.0/16 at 4,261,412,865; the seventh 10.3.0.0/16 at 7, marked as having come down; the
/// last a value that passes the end.
const LSPS: &str = "\
1 0 live 11 16160000000000020000000a0000000000000300ffffff00
1 1 live 4 160c000000000009000000050000160b0000000000040000000500
201 0 live 0 160b0000000000010000000000
2 1 live 0 16160000000000020000000a0000000000000300ffffff00
3 0 purge 4 16160000000000020000000a0000000000000300ffffff00
4 0 live 7 010403490001870e00000014100a01fe000001100a02
4 1 live 0 870700000007900a03
5 0 live 1 160b0000000000020000000a00160b";

/// Puts the LSP of a row.
fn put_row(alloc: Global, store: &mut Store, row: &str) -> Option<()> {
    let (number, rest) = row.split_once(' ')?;
    let (fragment, rest) = rest.split_once(' ')?;
    let (kind, rest) = rest.split_once(' ')?;
    let (flags, hex) = rest.split_once(' ')?;
    let id = (
        node(number.parse::<u8>().ok()?),
        fragment.parse::<u8>().ok()?,
    );
    let flags = flags.parse::<u8>().ok()?;
    let body = hex::decode(alloc, hex).ok()?;
    put(alloc, store, id, kind == "purge", flags, body.as_slice()).ok()
}

/// The database of these LSPs.
fn database(alloc: Global) -> Option<Store> {
    let mut store = Store::new(alloc);
    for row in LSPS.lines() {
        put_row(alloc, &mut store, row)?;
    }
    Some(store)
}

/// Whether the rows of a database are those of words.
fn are_rows(alloc: Global, store: &Store, words: &str) -> Option<bool> {
    let rows = rows(alloc, store).ok()?;
    let wanted = rows_of(alloc, words)?;
    Some(rows.as_slice() == wanted.as_slice())
}

#[test]
fn lists_rows_of_led_nodes(rt: HostRuntime) -> Result<(), Fail> {
    let store = database(rt.alloc()).ok_or("a database")?;
    let wanted = "1-2:10 1-3:16777215 1-4:5 201-1:0";
    assert_eq!(rt; are_rows(rt.alloc(), &store, wanted), Some(true));
    let nodes = overloaded(rt.alloc(), &store)?;
    assert!(rt; nodes.as_slice() == [node(4)].as_slice());
    Ok(())
}

fn system(number: u8) -> SystemId {
    node(number).system
}

/// Whether system 4 tells two prefixes, of which the second came down, and system 2 tells none.
fn are_reached(alloc: Global, store: &Store) -> Option<bool> {
    let wanted = [item("10.1.0.0/16:20", false)?, item("10.3.0.0/16:7", true)?];
    let reached = reach(alloc, store, system(4)).ok()?;
    Some(reached.as_slice() == wanted.as_slice() && reach(alloc, store, system(2)).ok()?.is_empty())
}

/// Whether system 4 is of area 49.0001, and system 5 of none.
fn are_areas(alloc: Global, store: &Store) -> Option<bool> {
    let wanted = [AreaAddress::new(&[0x49, 0, 1])?];
    let areas = area_list(alloc, store, system(4)).ok()?;
    let none = area_list(alloc, store, system(5)).ok()?;
    Some(areas.as_slice() == wanted.as_slice() && none.is_empty())
}

#[test]
fn tells_what_a_system_says(rt: HostRuntime) -> Result<(), Fail> {
    let store = database(rt.alloc()).ok_or("a database")?;
    assert_eq!(rt; are_reached(rt.alloc(), &store), Some(true));
    assert_eq!(rt; are_areas(rt.alloc(), &store), Some(true));
    assert!(rt; is_attached(&store, system(1)));
    assert!(rt; !is_attached(&store, system(4)) && !is_attached(&store, system(2)));
    Ok(())
}
