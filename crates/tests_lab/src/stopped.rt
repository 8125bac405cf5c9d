//! A network that met the limit of datagrams: each later call answers the same.
use lab_text::{LimitName, Network, Script, play_script, read_script};
use network_lab::{LabEvent, LabFault};
use std::alloc::Global;
use std::test::Fail;

/// Two routers that a link joins. They send some 18,000 datagrams a day.
const LINKED: &str =
    "isis-lab 1\nrouter A 0000.0000.0001 49.0001 L1\nrouter B 0000.0000.0002 49.0001 L1\nlink X A B 10\nrun 7\n";

/// Why a network stops that runs for up to twenty days more.
fn stop_of(net: &mut Network) -> Option<LabFault> {
    for _ in 0..20 {
        match net.run(86_400, None, None) {
            Ok(()) => {}
            Err(fault) => return Some(fault),
        }
    }
    None
}

/// What a run of a second and a second of A answer.
fn later(net: &mut Network) -> [Option<LabFault>; 2] {
    let run = net.run(1, None, None).err();
    if net.routers() == 0 {
        return [run, None];
    }
    let tick = net.apply(LabEvent::Tick { router: 0 }).err();
    [run, tick]
}

/// Whether the network of a script stops at the limit, and stays so.
fn stays_stopped(alloc: Global, script: &Script<'_>) -> bool {
    if !script.is_lab() {
        return false;
    }
    let Ok(mut net) = play_script(alloc, script) else {
        return false;
    };
    let limit = Some(LabFault::Limit(LimitName::Datagrams));
    let stop = stop_of(&mut net);
    let answers = later(&mut net);
    drop(net);
    stop == limit && answers == [limit, limit]
}

/// The same of the two routers.
fn linked_stays_stopped(alloc: Global) -> bool {
    let Ok(script) = read_script(alloc, LINKED.as_bytes()) else {
        return false;
    };
    let stays = stays_stopped(alloc, &script);
    drop(script);
    stays
}

#[test]
fn a_network_stays_stopped(rt: HostRuntime) -> Result<(), Fail> {
    assert!(rt; linked_stays_stopped(rt.alloc()));
    Ok(())
}
