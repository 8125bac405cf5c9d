//! Two routers of router_core of level 1 over a link: what each public call answers, with ample memory.
ghost use Rattle.std.specs.Prelude.{◌≡◌, ◌≤◌, length, true};
ghost use Rattle.router_desk.specs.Desks.{desk_of};
ghost use Rattle.router_core.specs.Events.{IsThere};

use crate::made::{ONE, TWO, bare, circuit, first_wrong, octets};
use isis_base::{
    AreaAddress, CircuitKind, Level, LevelSet, LspId, NodeId, Octets, OutOfMemory, Prefix,
};
use router_core::{Datagrams, NodeEvent, Reply, Router};
use router_desk::{Change, Config, DropCause, DropName};
use std::alloc::Global;

const L1: Level = Level::One;

/// An address of the prefix that is set.
const ADDRESS: u32 = 0x0a00_0001;

/// Lays out an area and a link.
fn lay_out(config: &mut Config) -> Result<(), OutOfMemory> {
    if let Some(area) = AreaAddress::new(&[0x49, 0, 1]) {
        config.areas.push(area)?;
    }
    config
        .circuits
        .push(circuit(CircuitKind::PointToPoint, None))
}

/// A configuration of level 1 with an area and a link.
fn config_of(alloc: Global, node: NodeId) -> Result<Config, OutOfMemory> {
    let mut config = bare(alloc, node.system, LevelSet::One);
    lay_out(&mut config)?;
    Ok(config)
}

/// A router at its start, in boot 1.
fn router(alloc: Global, node: NodeId) -> Result<Router, OutOfMemory> {
    let config = config_of(alloc, node)?;
    if !config.valid() {
        return Err(OutOfMemory);
    }
    match Router::new(alloc, config, 1) {
        Ok(router) => Ok(router),
        Err(back) => {
            let error = back.1;
            drop(back);
            Err(error)
        }
    }
}

/// Whether a router has a link.
fn has_link(router: &Router) -> bool
    ensures there { result ≡ true → IsThere router.now 1 }
    ensures desk { result ≡ true
        → 1 ≤ length (desk_of router.now.config router.now.circuits).circuits }
{
    router.desk().circuit_count() >= 1
}

/// A datagram that came over the link is taken.
fn take(router: &mut Router, datagram: Octets) -> Result<Reply, OutOfMemory> {
    if !has_link(router) {
        return Err(OutOfMemory);
    }
    let event = NodeEvent::Take(router.desk().open(1, datagram));
    let copy = event.copy()?;
    router.step(copy)
}

/// What is due on the link.
fn pulled(router: &mut Router) -> Result<Reply, OutOfMemory> {
    if !has_link(router) {
        return Err(OutOfMemory);
    }
    let reply = router.step(NodeEvent::Pull { circuit: 1 })?;
    reply.copy()
}

/// Datagrams that came over the link are taken.
fn take_all(router: &mut Router, datagrams: Datagrams) -> Result<(), OutOfMemory> {
    for datagram in datagrams.into_items() {
        take(router, datagram)?;
    }
    Ok(())
}

/// What is due is sent over the link and taken.
fn send(from: &mut Router, to: &mut Router) -> Result<(), OutOfMemory> {
    match pulled(from)? {
        Reply::Send(sent) => take_all(to, sent),
        _ => Ok(()),
    }
}

/// So many seconds pass, in each of which both send what is due.
fn pass(a: &mut Router, b: &mut Router, seconds: u8) -> Result<(), OutOfMemory> {
    for _ in 0..seconds {
        a.step(NodeEvent::Second)?;
        b.step(NodeEvent::Second)?;
        send(a, b)?;
        send(b, a)?;
    }
    Ok(())
}

/// Whether the link is up for level 1 alone, to a neighbour in its first boot.
fn is_up(router: &Router) -> bool {
    if !has_link(router) {
        return false;
    }
    let up = router.up(1, L1) & !router.up(1, Level::Two);
    up & (router.names_boot(1) == Some(1)) & router.designated(1, L1).is_none()
}

/// How many LSPs of level 1 are held.
fn held(router: &Router) -> usize {
    match router.book(L1) {
        Some(book) => book.store().len(),
        None => 0,
    }
}

/// The sequence number at which the first router's own LSP is held; 0 where it isn't.
fn number_at(router: &Router) -> u32 {
    let own = LspId {
        node: ONE,
        number: 0,
    };
    match router.database(L1).key(own) {
        Some(key) => key.number,
        None => 0,
    }
}

/// Whether no LSP ID was let go.
fn keeps_all(router: &Router) -> bool {
    match router.let_go(L1).list() {
        Some(ids) => ids.is_empty(),
        None => false,
    }
}

/// The first that is wrong of a router that is up, holds the LSPs of both, and none of level 2.
fn wrong_of_whole(router: &Router) -> Option<usize> {
    first_wrong(&[
        is_up(router),
        held(router) == 2,
        keeps_all(router),
        router.book(Level::Two).is_none(),
        router.repaired(L1).is_some(),
        router.repaired(Level::Two).is_none(),
        router.changes(L1) > 0,
        !router.attached(),
        router.boot() == 1,
    ])
}

/// The cost of an address of the prefix; 0 where no route leads there.
fn cost(router: &Router) -> u64 {
    match router.routes().lookup(ADDRESS) {
        Some(route) => route.cost,
        None => 0,
    }
}

/// A prefix is set at metric 7, or taken back; how many there are then, and whether it is one.
fn set_prefix(
    router: &mut Router,
    prefix: Prefix,
    there: bool,
) -> Result<(usize, bool), OutOfMemory> {
    if router.prefix_count() >= 4096 {
        return Err(OutOfMemory);
    }
    let metric = if there { Some(7) } else { None };
    router.step(NodeEvent::Change(Change::Prefix { prefix, metric }))?;
    Ok((router.prefix_count(), router.has_prefix(prefix)))
}

/// The metric of the link changes, and overload.
fn change(router: &mut Router) -> Result<(), OutOfMemory> {
    router.step(NodeEvent::Change(Change::Overload { on: true }))?;
    if !has_link(router) {
        return Err(OutOfMemory);
    }
    let metric = 20;
    router.step(NodeEvent::Change(Change::Metric { circuit: 1, metric }))?;
    Ok(())
}

/// Whether what is no datagram is dropped, and counted.
fn refuses(alloc: Global, router: &mut Router) -> Result<bool, OutOfMemory> {
    let before = router.drops(DropName::Frame);
    let reply = take(router, octets(alloc, &[1])?)?;
    let dropped = matches!(&reply, Reply::Dropped(DropCause::Frame(_)));
    Ok(dropped & (before == 0) & (router.drops(DropName::Frame) == 1))
}

/// Whether another boot begins with nothing.
fn restarts(router: &Router) -> Result<bool, OutOfMemory> {
    router.facts();
    let again = router.restarted(2)?;
    let good = (again.boot() == 2) & (held(&again) == 0) & !is_up(&again);
    drop(again);
    Ok(good)
}

/// Brings two routers up; the first that is wrong of each.
fn meet(a: &mut Router, b: &mut Router) -> Result<[Option<usize>; 2], OutOfMemory> {
    pass(a, b, 12)?;
    Ok([wrong_of_whole(a), wrong_of_whole(b)])
}

/// Whether a prefix of the first router is told to the second, at its metric and the link's.
fn tells_prefix(a: &mut Router, b: &mut Router, prefix: Prefix) -> Result<bool, OutOfMemory> {
    let there = set_prefix(a, prefix, true)? == (1, true);
    pass(a, b, 35)?;
    let told = cost(b) == 17;
    let back = set_prefix(a, prefix, false)? == (0, false);
    Ok(there & told & back)
}

/// Whether changes of the first router are told to the second, and the prefix no more.
fn tells_changes(a: &mut Router, b: &mut Router) -> Result<bool, OutOfMemory> {
    let before = number_at(b);
    change(a)?;
    pass(a, b, 35)?;
    let number = number_at(b);
    Ok((number > before) & (number == number_at(a)) & (cost(b) == 0))
}

/// What two routers come to: what is wrong once they are up; and whether a prefix and changes are told, what is no
/// datagram is dropped, and another boot begins.
fn played(
    alloc: Global,
    a: &mut Router,
    b: &mut Router,
    prefix: Prefix,
) -> Result<([Option<usize>; 2], [bool; 4]), OutOfMemory> {
    let wrong = meet(a, b)?;
    let prefix = tells_prefix(a, b, prefix)?;
    let changes = tells_changes(a, b)?;
    let refused = refuses(alloc, a)?;
    Ok((wrong, [prefix, changes, refused, restarts(a)?]))
}

/// The same of two routers that are made. They are let go by name: that costs less to prove.
fn two_routers(
    alloc: Global,
    prefix: Prefix,
) -> Result<([Option<usize>; 2], [bool; 4]), OutOfMemory> {
    let mut a = router(alloc, ONE)?;
    let mut b = match router(alloc, TWO) {
        Ok(b) => b,
        Err(error) => {
            drop(a);
            return Err(error);
        }
    };
    let played = played(alloc, &mut a, &mut b, prefix);
    drop(a);
    drop(b);
    played
}

/// Whether datagrams are what was added.
fn lists(alloc: Global) -> Result<bool, OutOfMemory> {
    let datagram = octets(alloc, &[5])?;
    let mut sent = Datagrams::new(alloc);
    let none = sent.is_empty();
    sent.push(datagram)?;
    let copy = sent.copy()?;
    let first = copy.get(0) == Some([5].as_slice());
    Ok(none & first & (copy.len() == 1) & copy.get(1).is_none())
}

#[test]
fn two_routers_over_a_link(rt: HostRuntime) {
    let Some(prefix) = Prefix::new(0x0a00_0000, 8) else {
        panic!(rt; "a prefix")
    };
    let want = ([None, None], [true; 4]);
    assert_eq!(rt; two_routers(rt.alloc(), prefix), Ok(want));
}

#[test]
fn lists_what_is_sent(rt: HostRuntime) {
    assert_eq!(rt; lists(rt.alloc()), Ok(true));
}
