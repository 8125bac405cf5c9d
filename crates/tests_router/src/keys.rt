//! Worked nets of lab_keys, and the words of its faults.
ghost use Rattle.std.specs.Prelude.{◌≡◌, ◌<◌, IfOk};

use crate::made::{ONE, TWO};
use isis_base::{Key, LspId};
use lab_keys::{KeyNet, LabFault, LimitName};
use std::alloc::Global;

const FIRST: LspId = LspId {
    node: ONE,
    number: 0,
};

const SECOND: LspId = LspId {
    node: TWO,
    number: 0,
};

/// Each fault with its words.
const WORDS: [(LabFault, &str); 9] = [
    (LabFault::NotSent { sent: 7 }, "not sent; 7 were"),
    (LabFault::NotOn, "not on the link"),
    (LabFault::Limit(LimitName::Routers), "limit of routers"),
    (LabFault::Limit(LimitName::Links), "limit of links"),
    (LabFault::Limit(LimitName::Circuits), "limit of circuits"),
    (LabFault::Limit(LimitName::Prefixes), "limit of prefixes"),
    (LabFault::Limit(LimitName::Datagrams), "limit of datagrams"),
    (LabFault::Limit(LimitName::Boots), "limit of boots"),
    (LabFault::OutOfMemory, "out of memory"),
];

/// Two routers with a link between them, and a third one.
fn net(alloc: Global) -> Result<KeyNet, LabFault>
    ensures { IfOk result (λ net. net.routers ≡ 3) }
{
    let mut net = KeyNet::new(alloc);
    net.add_router()?;
    net.add_router()?;
    net.add_router()?;
    net.add_link([1, 0])?;
    Ok(net)
}

const fn live(number: u32) -> Key
    requires { 0 < number }
{
    Key {
        number,
        purged: false,
    }
}

/// Issues three copies at the first router, of which the last is older than the first; their numbers.
fn issued(net: &mut KeyNet) -> Result<[usize; 3], LabFault>
    requires { net.old.routers ≡ 3 }
    ensures { net.new.routers ≡ 3 }
{
    let newer = net.issue(0, SECOND, live(5))?;
    let own = net.issue(0, FIRST, live(1))?;
    let older = net.issue(0, SECOND, live(4))?;
    Ok([newer, own, older])
}

/// Why passes are refused: off the link, of a copy that isn't there, and of numbers that no copy has.
fn refusals(net: &mut KeyNet) -> [Result<(), LabFault>; 4]
    requires { net.old.routers ≡ 3 }
    ensures { net.new.routers ≡ 3 }
{
    [
        net.pass(3, 0, 2),
        net.pass(2, 1, 0),
        net.pass(0, 0, 1),
        net.pass(4, 0, 1),
    ]
}

/// Whether links join the routers that they should.
fn is_joined(net: &KeyNet) -> bool {
    net.joins(0, 1) & net.joins(1, 0) & !net.joins(0, 2)
}

/// Whether copies are passed along the link alone, and the newest are held.
fn is_passed(alloc: Global) -> Result<bool, LabFault> {
    let mut net = net(alloc)?;
    let numbers = issued(&mut net)?;
    net.pass(3, 0, 1)?;
    let older = net.held(1) == [(SECOND, live(4))].as_slice();
    let not_sent = Err(LabFault::NotSent { sent: 3 });
    let refused = refusals(&mut net) == [Err(LabFault::NotOn), not_sent, not_sent, not_sent];
    net.pass(1, 0, 1)?;
    let newer = net.held(1) == [(SECOND, live(5))].as_slice();
    let all = net.held(0) == [(FIRST, live(1)), (SECOND, live(5))].as_slice();
    let good = (numbers == [1, 2, 3]) & is_joined(&net) & net.held(2).is_empty();
    Ok(older & refused & newer & all & good)
}

/// Whether these are a fault's words.
fn is_spelt(alloc: Global, fault: LabFault, text: &str) -> bool {
    let mut spelt = String::new(alloc);
    match write!(spelt, "{fault}") {
        Ok(()) => spelt.as_str() == text,
        Err(_) => false,
    }
}

/// The first fault that is spelt otherwise.
fn misspelt(alloc: Global) -> Option<usize> {
    for (place, (fault, text)) in WORDS.iter().enumerate() {
        if !is_spelt(alloc, *fault, text) {
            return Some(place);
        }
    }
    None
}

#[test]
fn passes_copies(rt: HostRuntime) {
    assert_eq!(rt; is_passed(rt.alloc()), Ok(true));
}

#[test]
fn spells_faults(rt: HostRuntime) {
    assert_eq!(rt; misspelt(rt.alloc()), None);
}
