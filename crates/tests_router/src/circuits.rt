//! Each call of router_circuits once, on a LAN and on a point-to-point circuit.
ghost use Rattle.std.specs.Prelude.{◌≡◌, true, false, IfOk};
ghost use Rattle.router_desk.specs.Desks.{is_lan};

use crate::made::{FIRST, SECOND, circuit, first_wrong};
use adjacency::{HelloDrop, HelloFields, Own};
use isis_base::{CircuitKind, Level, LevelSet, NodeId, OutOfMemory, Snpa, SystemId};
use isis_tlv::{Adj, ThreeWay};
use router_circuits::{Circuit, Designated};
use router_desk::Envelope;
use std::alloc::Global;

const MINE: SystemId = FIRST;

const OTHER: SystemId = SECOND;

const LAN: NodeId = NodeId {
    system: OTHER,
    pseudonode: 7,
};

const SNPA: Snpa = Snpa([0, 0, 0, 0, 0, 2]);

/// What the frames of the other system say, in its second boot; of another SNPA; and of the boot before.
const FROM: Envelope = Envelope {
    snpa: SNPA,
    boot: 2,
};

const FROM_MINE: Envelope = Envelope {
    snpa: Snpa([0, 0, 0, 0, 0, 1]),
    boot: 2,
};

const FROM_BEFORE: Envelope = Envelope {
    snpa: SNPA,
    boot: 1,
};

const L2: Level = Level::Two;

/// A circuit of a kind.
fn circuit_of(alloc: Global, kind: CircuitKind) -> Result<Circuit, OutOfMemory>
    ensures { IfOk result (λ circuit. circuit.lan ≡ is_lan kind) }
{
    let config = circuit(kind, None);
    let made = Circuit::new(alloc, &config);
    drop(config);
    made
}

fn own<'a>() -> Own<'a> {
    Own {
        system: MINE,
        id: 257,
        levels: LevelSet::Two,
        areas: &[],
    }
}

/// A hello from the SNPA of another system, in its second boot, with a holding time of 3 seconds.
fn hello<'a>(source: SystemId) -> HelloFields<'a> {
    HelloFields {
        source,
        snpa: SNPA,
        boot: 2,
        levels: LevelSet::Two,
        holding: 3,
        priority: 64,
        lan: LAN,
        areas: &[],
        three_way: Some(ThreeWay {
            state: Adj::Initializing,
            own_id: Some(515),
            neighbour: Some((MINE, 257)),
        }),
        names_me: true,
    }
}

/// The first row that is wrong of a LAN on which nothing was heard.
fn wrong_at_first(lan: &Circuit) -> Option<usize> {
    let id = lan.lan_id(MINE, 3, L2);
    first_wrong(&[
        lan.is_lan(),
        lan.point().is_none(),
        lan.names_boot().is_none(),
        lan.metric() == 10,
        lan.priority() == 64,
        lan.address() == Some(1),
        lan.key().is_none(),
        lan.hello_is_due(),
        !lan.is_open(L2),
        lan.designated(MINE, 3, L2).is_none(),
        id.system == MINE,
        id.pseudonode == 3,
    ])
}

/// The first row that is wrong of a LAN on which another system was heard.
fn wrong_when_heard(lan: &Circuit) -> Option<usize> {
    let designated = Designated {
        system: OTHER,
        lan: LAN,
    };
    first_wrong(&[
        lan.is_open(L2),
        !lan.is_open(Level::One),
        lan.heard(L2).len() == 1,
        lan.up(L2).len() == 1,
        lan.sender(L2, FROM) == Some(OTHER),
        lan.sender(L2, FROM_MINE).is_none(),
        lan.sender(L2, FROM_BEFORE).is_none(),
        lan.designated(MINE, 3, L2) == Some(designated),
        lan.lan_id(MINE, 3, L2) == LAN,
        !lan.is_designated(MINE, 3, L2),
        !lan.is_csnp_due(MINE, 3, L2),
    ])
}

/// Hears a hello on a LAN; the first row that is wrong then.
fn hears_lan(alloc: Global, lan: &mut Circuit) -> Option<usize>
    requires { lan.old.lan ≡ true }
{
    match lan.hear_lan(alloc, &own(), L2, &hello(OTHER)) {
        Ok(Ok(_)) => wrong_when_heard(lan),
        _ => Some(99),
    }
}

/// Whether what was heard on a LAN is held for three seconds, and its boot is remembered for longer.
fn is_held(alloc: Global, lan: &mut Circuit) -> bool {
    lan.csnp_sent(L2);
    lan.idle(MINE, 3);
    lan.second();
    lan.second();
    let held = lan.is_open(L2) & lan.is_ending();
    lan.second();
    let left = !lan.is_open(L2) & !lan.is_ending() & lan.hello_is_due();
    held & left & remembers(alloc, lan)
}

/// Whether a hello of the boot before is too old for a LAN.
fn remembers(alloc: Global, lan: &mut Circuit) -> bool {
    if !lan.is_lan() {
        return false;
    }
    let before = HelloFields {
        boot: 1,
        ..hello(OTHER)
    };
    lan.hear_lan(alloc, &own(), L2, &before) == Ok(Err(HelloDrop::OldBoot))
}

/// Whether a copy changes alone.
fn is_copied(circuit: &Circuit) -> Result<bool, OutOfMemory> {
    let mut copy = circuit.copy()?;
    copy.set_metric(11);
    Ok((copy.metric() == 11) & (circuit.metric() == 10))
}

/// The first rows that are wrong of a LAN, at first and when a hello was heard; and whether it is copied, and holds.
fn wrong_on_a_lan(alloc: Global) -> Result<([Option<usize>; 2], [bool; 2]), OutOfMemory> {
    let mut lan = circuit_of(alloc, CircuitKind::Lan)?;
    let first = wrong_at_first(&lan);
    let copied = is_copied(&lan);
    let heard = hears_lan(alloc, &mut lan);
    let held = is_held(alloc, &mut lan);
    drop(lan);
    Ok(([first, heard], [copied?, held]))
}

/// Whether a hello with one's own system ID is refused over a link, and leaves it shut.
fn is_refused(alloc: Global, link: &mut Circuit) -> bool
    requires { link.old.lan ≡ false }
    ensures { link.new.lan ≡ false }
{
    let heard = link.hear_point(alloc, &own(), &hello(MINE));
    (heard == Ok(Err(HelloDrop::OwnId))) & !link.is_csnp_due(MINE, 3, L2)
}

/// The first row that is wrong of a link over which another system was heard.
fn wrong_when_up(link: &Circuit) -> Option<usize> {
    link.facts();
    first_wrong(&[
        !link.is_lan(),
        link.point().is_some(),
        link.hello_is_due(),
        link.is_csnp_due(MINE, 3, L2),
        link.is_open(L2),
        link.sender(L2, FROM) == Some(OTHER),
        link.sender(L2, FROM_BEFORE).is_none(),
        link.names_boot() == Some(2),
        !link.may_answer(L2),
        link.heard(L2).is_empty(),
    ])
}

/// Whether an answer may be sent after two of three seconds, no CSNP is due once it was sent, and the neighbour goes then.
fn is_counted(link: &mut Circuit) -> bool {
    link.second();
    let early = link.is_ending();
    link.second();
    link.csnp_sent(L2);
    link.may_answer(L2) & !link.is_csnp_due(MINE, 3, L2) & !early & link.is_ending()
}

/// Whether a hello of another system is heard over a link, and what is due is as it should be.
fn hears_point(alloc: Global, link: &mut Circuit) -> ([bool; 4], Option<usize>)
    requires { link.old.lan ≡ false }
{
    link.hello_sent();
    link.answer_sent(L2);
    let refused = is_refused(alloc, link);
    let sent = !link.hello_is_due();
    let heard = link.hear_point(alloc, &own(), &hello(OTHER)) == Ok(Ok(true));
    let wrong = wrong_when_up(link);
    ([refused, sent, heard, is_counted(link)], wrong)
}

/// The same of a link that is made.
fn over_a_link(alloc: Global) -> Result<([bool; 4], Option<usize>), OutOfMemory> {
    let mut link = circuit_of(alloc, CircuitKind::PointToPoint)?;
    let heard = hears_point(alloc, &mut link);
    drop(link);
    Ok(heard)
}

#[test]
fn a_lan_hears(rt: HostRuntime) {
    let want = ([None, None], [true, true]);
    assert_eq!(rt; wrong_on_a_lan(rt.alloc()), Ok(want));
}

#[test]
fn a_link_hears(rt: HostRuntime) {
    let want = ([true; 4], None);
    assert_eq!(rt; over_a_link(rt.alloc()), Ok(want));
}
