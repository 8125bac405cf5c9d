//! The network at a script's end, and what can be read of it.
ghost use Rattle.std.specs.Prelude.{◌<◌, length};

use isis_base::Level;
use lab_text::{Network, Reason, RunFault, Script, play_script, read_script};
use std::alloc::Global;
use std::test::Fail;

/// Two routers that a link joins, seven seconds, and three seconds of A in which nothing changes.
const LINKED: &str =
    "isis-lab 1\nrouter A 0000.0000.0001 49.0001 L1\nrouter B 0000.0000.0002 49.0001 L1\nlink X A B 10\nrun 7\ntick A\ntick A\ntick A\n";

/// A datagram that nobody sent is delivered.
const REFUSED: &str = "isis-lab 1\nrouter A 0000.0000.0001 49.0001 L1\ndeliver 1 A\n";

#[test]
fn a_network_is_read_as_played(rt: HostRuntime) -> Result<(), Fail> {
    assert_eq!(rt; fault_of(rt.alloc(), LINKED), None);
    let refused = RunFault::Refused {
        line: 3,
        reason: Reason::NotSent,
    };
    assert_eq!(rt; fault_of(rt.alloc(), REFUSED), Some(refused));
    Ok(())
}

/// Why a script isn't played, or `OutOfMemory` where its network isn't that of the two routers.
fn fault_of(alloc: Global, text: &str) -> Option<RunFault> {
    let Ok(script) = read_script(alloc, text.as_bytes()) else {
        return Some(RunFault::OutOfMemory);
    };
    let fault = fault_of_script(alloc, &script);
    drop(script);
    fault
}

/// The same of a script that was read.
fn fault_of_script(alloc: Global, script: &Script<'_>) -> Option<RunFault> {
    if !script.is_lab() {
        return Some(RunFault::OutOfMemory);
    }
    match play_script(alloc, script) {
        Ok(net) => {
            let fault = fault_of_net(&net);
            drop(net);
            fault
        }
        Err(fault) => Some(fault),
    }
}

fn fault_of_net(net: &Network) -> Option<RunFault> {
    if is_joined(net) & are_computed(net) & has_routes(net) {
        None
    } else {
        Some(RunFault::OutOfMemory)
    }
}

/// Whether the two routers have a circuit each, both of the one link.
fn is_joined(net: &Network) -> bool {
    if net.routers() != 2 || net.links() != 1 || net.datagrams() != 14 {
        return false;
    }
    net.config(0).circuits.len() == 1
        && net.config(1).circuits.len() == 1
        && net.link_of(0, 1) == Some(0)
        && net.link_of(1, 1) == Some(0)
        && net.link_of(0, 2).is_none()
        && net.ports(0).len() == 1
        && net.ports(1).len() == 1
}

/// Whether each router's distances of level 1 were never repaired: they are computed once, at the script's end.
fn are_computed(net: &Network) -> bool {
    net.routers() == 2 && repairs(net, 0) == Some(0) && repairs(net, 1) == Some(0)
}

/// How often a router's distances of level 1 were repaired.
fn repairs(net: &Network, router: usize) -> Option<u64>
    requires { router < length net.now.seen.routers }
{
    Some(net.router(router).repaired(Level::One)?.changes())
}

/// Whether the best routes of the first router, computed anew, are as many as those that it has.
fn has_routes(net: &Network) -> bool {
    if net.routers() == 0 {
        return false;
    }
    let router = net.router(0);
    match router.best_routes() {
        Ok(routes) => routes.list().len() == router.routes().list().len(),
        Err(_) => false,
    }
}
