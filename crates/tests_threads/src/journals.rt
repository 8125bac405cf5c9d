//! The shared router of circuit_threads: calls run once with ample memory, and what no clause says, as the text of a
//! journal as it lies behind a sink, an append that fails, and turns of two threads.
ghost use Rattle.std.specs.Prelude.{◌≡◌, ◌+◌, ◌≤◌, length, true, IfOk};
ghost use Rattle.router_desk.specs.Desks.{desk_of};
ghost use Rattle.router_core.specs.Events.{IsThere};
ghost use Rattle.turn_lock.specs.Passes.{turns_left, splits};
ghost use Rattle.circuit_threads.specs.Answered.{pass_of};
ghost use Rattle.circuit_threads.specs.Sharing.{first_router, IsPassOf};

use circuit_threads::{Behind, Pass, Receipt, SharedRouter, SubmitFault, TextJournal};
use isis_base::{
    AreaAddress, CircuitKind, Level, LevelSet, LspId, NodeId, Octets, OutOfMemory, SystemId,
};
use isis_edge::MemorySink;
use router_core::{NodeEvent, Router};
use router_desk::{Areas, Change, CircuitConfig, Circuits, Config, DropName, Prefixes};
use std::alloc::Global;
use std::sync::Wait;
use std::thread;
use std::thread::Threads;

type Journal = TextJournal<MemorySink>;

type Shared = SharedRouter<Journal>;

type SharedPass = Pass<Behind<Journal>>;

type Answer = Result<(SharedPass, Receipt), (SharedPass, SubmitFault)>;

const SYSTEM: SystemId = SystemId([0, 0, 0, 0, 0, 1]);

/// The areas of a router: one.
fn areas(alloc: Global) -> Result<Areas, OutOfMemory> {
    let mut areas = Areas::new(alloc);
    if let Some(area) = AreaAddress::new(&[0x49, 0, 1]) {
        areas.push(area)?;
    }
    Ok(areas)
}

/// The circuits of a router: one link.
fn circuits(alloc: Global) -> Result<Circuits, OutOfMemory> {
    let mut circuits = Circuits::new(alloc);
    circuits.push(CircuitConfig {
        kind: CircuitKind::PointToPoint,
        metric: 10,
        priority: 64,
        address: None,
        key: None,
    })?;
    Ok(circuits)
}

/// A configuration of level 1, with these areas and circuits.
fn config(alloc: Global, areas: Areas, circuits: Circuits) -> Config {
    Config {
        system: SYSTEM,
        areas,
        levels: LevelSet::One,
        leak: false,
        overload: false,
        circuits,
        prefixes: Prefixes::new(alloc),
        area_key: None,
        domain_key: None,
    }
}

/// A router of a configuration, in boot 1.
fn started(alloc: Global, config: Config) -> Result<Router, OutOfMemory> {
    if !config.valid() {
        return Err(OutOfMemory);
    }
    match Router::new(alloc, config, 1) {
        Ok(router) => Ok(router),
        Err(back) => {
            let error = back.1;
            drop(back);
            Err(error)
        }
    }
}

/// A router of level 1 with one area and one link, in boot 1.
fn router(alloc: Global) -> Result<Router, OutOfMemory> {
    let areas = areas(alloc)?;
    let circuits = circuits(alloc)?;
    started(alloc, config(alloc, areas, circuits))
}

/// A journal whose sink has that room.
fn journal(alloc: Global, room: usize) -> Result<Journal, OutOfMemory> {
    let sink = MemorySink::new(alloc, room, 100, Vec::new(alloc))?;
    match TextJournal::open(sink) {
        Ok(journal) => Ok(journal),
        Err(_) => Err(OutOfMemory),
    }
}

/// A router shared for so many turns, whose journal's sink has that room.
fn shared(alloc: Global, room: usize, turns: u64) -> Result<(Shared, SharedPass), OutOfMemory>
    ensures { IfOk result (λ r. IsPassOf r.0 r.1 × (turns_left r.1 ≡ turns)
        × (splits r.1 ≡ 0)) }
{
    let journal = journal(alloc, room)?;
    let router = router(alloc)?;
    match SharedRouter::new(alloc, router, journal, turns) {
        Ok(made) => Ok(made),
        Err(back) => {
            let error = back.2;
            drop(back);
            Err(error)
        }
    }
}

/// The LSPs of level 1 that a router holds, and the sequence number of its own.
fn held(router: &Router) -> (usize, u32) {
    let node = NodeId {
        system: SYSTEM,
        pseudonode: 0,
    };
    let own = LspId { node, number: 0 };
    let Some(book) = router.book(Level::One) else {
        return (0, 0);
    };
    match book.key(own) {
        Some(key) => (book.store().len(), key.number),
        None => (book.store().len(), 0),
    }
}

/// Whether two routers say the same of their boot, drops and LSPs, of which they have some.
fn are_alike(a: &Router, b: &Router) -> bool {
    let (count, number) = held(a);
    let (other_count, other_number) = held(b);
    let same_drops = a.drops(DropName::Frame) == b.drops(DropName::Frame);
    let same_held = count == other_count && number == other_number;
    a.boot() == b.boot() && same_drops && same_held && count == 1
}

/// Whether the shared router has a link.
fn has_link(shared: &Shared) -> bool
    ensures there { result ≡ true
        → IsThere (first_router shared.now) 1 }
    ensures desk { result ≡ true → 1 ≤ length
        (desk_of (first_router shared.now).config (first_router shared.now).circuits).circuits }
{
    shared.desk().circuit_count() >= 1
}

/// The pass of a submit, and what its answer says: 0 for an entry, 1 for one whose append failed, 2
/// for one at which it stopped, with the entry's number; 3 for want of memory.
fn told_by(answer: Answer) -> (SharedPass, (u8, u64))
    ensures { result.0 ≡ pass_of answer }
{
    match answer {
        Ok((pass, receipt)) => (pass, (0, receipt.entry)),
        Err((pass, fault)) => (pass, fault_told(&fault)),
    }
}

fn fault_told(fault: &SubmitFault) -> (u8, u64) {
    match fault {
        SubmitFault::JournalFault(receipt) => (1, receipt.entry),
        SubmitFault::Stopped { entry } => (2, *entry),
        SubmitFault::OutOfMemory => (3, 0),
    }
}

/// Submits so many seconds.
fn seconds<R: Wait>(rt: &R, shared: &Shared, pass: SharedPass, turns: u64) -> SharedPass
    requires lock { IsPassOf shared.now pass }
    requires left { turns ≤ turns_left pass }
    ensures lock { IsPassOf shared.now result }
    ensures left { turns_left result + turns ≡ turns_left pass }
{
    let mut pass = pass;
    for _ in 0..turns {
        let (next, _) = told_by(shared.submit(rt, pass, NodeEvent::Second));
        pass = next;
    }
    pass
}

/// Submits so many seconds in each of two threads.
fn two<R: Threads + Wait + Sync>(
    rt: &R,
    shared: &Shared,
    pass: SharedPass,
    turns: u64,
) -> SharedPass
    requires lock { IsPassOf shared.now pass }
    requires left { turns + turns ≤ turns_left pass }
    requires splits { splits pass ≤ 1 }
    ensures lock { IsPassOf shared.now result }
{
    let (rest, first) = shared.split(pass, turns);
    let (rest, second) = shared.split(rest, turns);
    let (first, second) = thread::join(
        rt,
        move || -> SharedPass
            requires { IsPassOf shared.now first × (turns ≤ turns_left first) }
            ensures { IsPassOf shared.entry.now result }
        { seconds(rt, shared, first, turns) },
        move || -> SharedPass
            requires { IsPassOf shared.now second × (turns ≤ turns_left second) }
            ensures { IsPassOf shared.entry.now result }
        { seconds(rt, shared, second, turns) },
    );
    shared.join(shared.join(rest, first), second)
}

/// Steps a router by so many seconds.
fn step_each(router: &mut Router, seconds: u8) -> Result<(), OutOfMemory> {
    for _ in 0..seconds {
        match router.step(NodeEvent::Second) {
            Ok(_reply) => {}
            Err(error) => return Err(error),
        }
    }
    Ok(())
}

/// Whether a router is as one that is stepped by so many seconds alone.
fn is_as_stepped(alloc: Global, router: &Router, seconds: u8) -> Result<bool, OutOfMemory> {
    let mut alone = self::router(alloc)?;
    let stepped = step_each(&mut alone, seconds);
    let alike = are_alike(router, &alone);
    drop(alone);
    match stepped {
        Ok(()) => Ok(alike),
        Err(error) => Err(error),
    }
}

/// Whether a journal has so many entries of pass 1, and of pass 2.
fn has_entries(journal: Journal, count: usize) -> bool {
    let sink = journal.into_sink();
    let text = sink.octets();
    count_of(text, b" 1 second") == count && count_of(text, b" 2 second") == count
}

/// Whether a shared router ends as one that is stepped by 200 seconds, of which passes 1 and 2 have
/// 100 each.
fn ends_as_stepped(alloc: Global, shared: Shared, pass: SharedPass) -> Result<bool, OutOfMemory>
    requires { IsPassOf shared pass }
{
    match shared.close(pass) {
        Ok((router, journal)) => {
            let written = has_entries(journal, 100);
            let stepped = is_as_stepped(alloc, &router, 200);
            drop(router);
            Ok(stepped? & written)
        }
        Err(_) => Ok(false),
    }
}

/// How often a piece stands in a text.
fn count_of(text: &[u8], piece: &[u8]) -> usize {
    let mut count: usize = 0;
    for place in 0..text.len() {
        if text[place..].starts_with(piece) {
            count = count.wrapping_add(1);
        }
    }
    count
}

const TEXT: &str = "isis-journal 1
1 0 second -> done
2 0 pull 1 -> send 4953553200000000000100000001831401001101000001000000000001001e\
0024010104034900018101ccf0050200000101
3 0 take 1 00ff -> drop frame
4 0 change metric 1 20 -> done
";

/// Octets in memory.
fn octets_of(alloc: Global, list: &[u8]) -> Result<Octets, OutOfMemory> {
    let mut octets = Octets::new(alloc);
    octets.extend(list)?;
    Ok(octets)
}

/// Whether a shared router is closed and its journal's sink then holds just this text.
fn is_closed_with(shared: Shared, pass: SharedPass, text: &[u8]) -> bool
    requires { IsPassOf shared pass }
{
    match shared.close(pass) {
        Ok((router, journal)) => {
            drop(router);
            journal.into_sink().octets() == text
        }
        Err(_) => false,
    }
}

/// Submits a second, a pull, the take of a datagram and a change of a metric; nothing where there is
/// no link.
fn submit_each<R: Wait>(rt: &R, shared: &Shared, pass: SharedPass, datagram: Octets) -> SharedPass
    requires lock { IsPassOf shared.now pass }
    requires left { 4 ≤ turns_left pass }
    ensures lock { IsPassOf shared.now result }
{
    if !has_link(shared) {
        return pass;
    }
    let opened = shared.desk().open(1, datagram);
    let change = Change::Metric {
        circuit: 1,
        metric: 20,
    };
    let (pass, _) = told_by(shared.submit(rt, pass, NodeEvent::Second));
    let (pass, _) = told_by(shared.submit(rt, pass, NodeEvent::Pull { circuit: 1 }));
    let (pass, _) = told_by(shared.submit(rt, pass, NodeEvent::Take(opened)));
    let (pass, _) = told_by(shared.submit(rt, pass, NodeEvent::Change(change)));
    pass
}

/// Whether the journal of one entry of each kind is this text.
fn is_written<R: Wait>(rt: &R, alloc: Global, text: &[u8]) -> Result<bool, OutOfMemory> {
    let datagram = octets_of(alloc, &[0x00, 0xff])?;
    let (shared, pass) = shared(alloc, 1000, 4)?;
    let pass = submit_each(rt, &shared, pass, datagram);
    Ok(is_closed_with(shared, pass, text))
}

/// Submits three seconds, and tells what each answers.
fn submit_three<R: Wait>(rt: &R, shared: &Shared, pass: SharedPass) -> (SharedPass, [(u8, u64); 3])
    requires lock { IsPassOf shared.now pass }
    requires left { 3 ≤ turns_left pass }
    ensures lock { IsPassOf shared.now result.0 }
{
    let (pass, first) = told_by(shared.submit(rt, pass, NodeEvent::Second));
    let (pass, second) = told_by(shared.submit(rt, pass, NodeEvent::Second));
    let (pass, third) = told_by(shared.submit(rt, pass, NodeEvent::Second));
    (pass, [first, second, third])
}

/// What three seconds answer where the sink has that room, and whether the journal is then this text.
fn stops_with<R: Wait>(
    rt: &R,
    alloc: Global,
    room: usize,
    text: &[u8],
) -> Result<([(u8, u64); 3], bool), OutOfMemory> {
    let (shared, pass) = shared(alloc, room, 3)?;
    let (pass, told) = submit_three(rt, &shared, pass);
    Ok((told, is_closed_with(shared, pass, text)))
}

/// Whether two threads that submit 100 seconds each end as a router that is stepped by 200.
fn is_shared_by_two<R: Threads + Wait + Sync>(rt: &R, alloc: Global) -> Result<bool, OutOfMemory> {
    let (shared, pass) = shared(alloc, 10_000, 200)?;
    let pass = two(rt, &shared, pass, 100);
    ends_as_stepped(alloc, shared, pass)
}

#[test]
fn a_journal_is_written(rt: HostRuntime) {
    assert_eq!(rt; is_written(&rt, rt.alloc(), TEXT.as_bytes()), Ok(true));
}

#[test]
fn an_append_that_fails_stops_all(rt: HostRuntime) {
    let text = b"isis-journal 1\n1 0 second -> done\n2 0 seco".as_slice();
    let want = ([(0, 1), (1, 2), (2, 2)], true);
    assert_eq!(rt; stops_with(&rt, rt.alloc(), 42, text), Ok(want));
}

#[test]
fn two_threads_submit(rt: HostRuntime) {
    assert_eq!(rt; is_shared_by_two(&rt, rt.alloc()), Ok(true));
}
