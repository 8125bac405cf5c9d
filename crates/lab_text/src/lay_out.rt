//! The network that a lab script's setup lines lay out.
ghost use Rattle.std.specs.Prelude.{◌≡◌, ◌≢◌, ◌<◌, ◌≤◌, ◌+◌, [], length, false, None, IfOk, OnOk};
ghost use Rattle.isis_base.specs.declared.level.CircuitKind.TheVariants as kind;
ghost use Rattle.model_router.specs.Places.{nth};
ghost use Rattle.lab_script.specs.LabScripts.{end_routers};
ghost use Rattle.std.specs.List.{AllByRecursion};
ghost use Rattle.router_desk.specs.Limits.{IsKey};
ghost use Rattle.network_lab.specs.LabNets.{StandsFor, empty_lab, new_circuit, with_router, with_ends};
ghost use Rattle.lab_text.specs.Layouts as layout;
ghost use Rattle.lab_text.specs.Layouts.{laid_out, opened};
ghost use Rattle.lab_text.specs.Played.{IsLaid};
ghost use Rattle.lab_text.specs.Setups.{HasRouters, HasLinks, HasScope, HasEnd, IsNextLink};

use crate::router_config::config_of;
use isis_base::{CircuitKind, OutOfMemory};
use lab_script::{End, KeyScope, LabKey, LabLink, LabRouter, LabScript};
use network_lab::{Asked, LabFault, Network};
use std::alloc::Global;

/// The network before the script's events.
pub fn lay_out(alloc: Global, script: &LabScript<'_>) -> Result<Network<Asked>, OutOfMemory>
    ensures laid { IfOk result (λ net. net ≡ laid_out script.now) }
    ensures is { IfOk result (λ net. IsLaid (length script.now.routers) script.now.links net.seen) }
    ensures stands { IfOk result (λ net. StandsFor (opened net) net) }
    ensures goes_on { IfOk result (λ net. net.stopped ≡ None) }
    ensures early { IfOk result (λ net. net.begun ≡ false) }
{
    let mut net = Network::new(alloc);
    match set_up(alloc, &mut net, script) {
        Ok(()) => Ok(net),
        Err(error) => {
            drop(net);
            Err(error)
        }
    }
}

/// Adds all that the setup lines say to an empty network.
fn set_up(
    alloc: Global,
    net: &mut Network<Asked>,
    script: &LabScript<'_>,
) -> Result<(), OutOfMemory>
    requires { net.old ≡ empty_lab }
    ensures value { OnOk result (net.new ≡ laid_out script.now) }
    ensures has { OnOk result (HasLinks (length script.now.routers) script.now.links net.new) }
{
    match add_routers(alloc, net, script) {
        Ok(()) => {}
        Err(error) => return Err(error),
    }
    match add_links(alloc, net, script) {
        Ok(()) => {}
        Err(error) => return Err(error),
    }
    set_keys(alloc, net, script)
}

/// Adds the routers, each without a circuit.
fn add_routers(
    alloc: Global,
    net: &mut Network<Asked>,
    script: &LabScript<'_>,
) -> Result<(), OutOfMemory>
    requires { net.old ≡ empty_lab }
    ensures value { OnOk result (net.new
        ≡ layout.with_routers script.now.keys 0 script.now.routers net.old) }
    ensures has { OnOk result (HasRouters script.now.routers net.new) }
{
    let keys = script.keys();
    let routers = script.routers();
    let mut number = 0usize;
    for router in routers {
        match add_router(alloc, net, keys, number, router) {
            Ok(()) => number += 1,
            Err(error) => return Err(error),
        }
    }
    Ok(())
}

/// Adds the router of this number.
fn add_router(
    alloc: Global,
    net: &mut Network<Asked>,
    keys: &[LabKey<'_>],
    number: usize,
    router: &LabRouter<'_>,
) -> Result<(), OutOfMemory>
    requires keys { AllByRecursion (λ key. IsKey key.key) keys.now }
    requires fresh { AllByRecursion (λ other. other.system ≢ router.now.system) net.old.configs }
    requires few { length net.old.configs < 1024 }
    requires early { net.old.begun ≡ false }
    ensures { OnOk result (net.new
        ≡ with_router net.old (layout.config_of keys.now number router.now)) }
{
    let config = config_of(alloc, keys, number, router)?;
    match net.add_router(config) {
        Ok(_) => Ok(()),
        Err(LabFault::OutOfMemory) => Err(OutOfMemory),
        Err(_) => unreachable!(),
    }
}

/// Adds the links and LANs.
fn add_links(
    alloc: Global,
    net: &mut Network<Asked>,
    script: &LabScript<'_>,
) -> Result<(), OutOfMemory>
    requires { HasLinks (length script.now.routers) [] net.old }
    ensures value { OnOk result (net.new
        ≡ layout.with_links script.now.routers script.now.links net.old) }
    ensures has { OnOk result (HasLinks (length script.now.routers) script.now.links net.new) }
{
    let routers = script.routers();
    let links = script.links();
    for link in links {
        match add_laid(alloc, net, routers, link) {
            Ok(()) => {}
            Err(error) => return Err(error),
        }
    }
    Ok(())
}

/// Adds a link or LAN where there is room for one.
fn add_laid(
    alloc: Global,
    net: &mut Network<Asked>,
    routers: &[LabRouter<'_>],
    link: &LabLink<'_>,
) -> Result<(), OutOfMemory>
    requires next { IsNextLink net.old link.now }
    requires priorities { AllByRecursion (λ router. router.priority ≤ 127) routers.now }
    requires early { net.old.begun ≡ false }
    requires few { length net.old.seen.links < 4096 }
    ensures { OnOk result (net.new ≡ layout.with_laid routers.now link.now net.old) }
{
    match link.kind {
        CircuitKind::PointToPoint => add_point(net, link),
        CircuitKind::Lan => add_lan(alloc, net, routers, link),
    }
}

/// Adds a point-to-point link where there is room for one.
fn add_point(net: &mut Network<Asked>, link: &LabLink<'_>) -> Result<(), OutOfMemory>
    requires kind { link.now.kind ≡ kind.PointToPoint }
    requires next { IsNextLink net.old link.now }
    requires early { net.old.begun ≡ false }
    requires few { length net.old.seen.links < 4096 }
    ensures { OnOk result (net.new ≡ with_ends net.old (end_routers link.now.ends)
        (new_circuit kind.PointToPoint link.now.metric)) }
{
    let ends = link.ends.as_slice();
    match net.add_link([ends[0].router, ends[1].router], link.metric) {
        Ok(_) => Ok(()),
        Err(LabFault::OutOfMemory) => Err(OutOfMemory),
        Err(_) => unreachable!(),
    }
}

/// Adds a LAN where there is room for one; each of its circuits has the priority of its router.
fn add_lan(
    alloc: Global,
    net: &mut Network<Asked>,
    routers: &[LabRouter<'_>],
    link: &LabLink<'_>,
) -> Result<(), OutOfMemory>
    requires kind { link.now.kind ≡ kind.Lan }
    requires next { IsNextLink net.old link.now }
    requires priorities { AllByRecursion (λ router. router.priority ≤ 127) routers.now }
    requires early { net.old.begun ≡ false }
    requires few { length net.old.seen.links < 4096 }
    ensures { OnOk result (net.new ≡ layout.with_priorities routers.now link.now.ends
        (with_ends net.old (end_routers link.now.ends) (new_circuit kind.Lan link.now.metric))) }
{
    let ends = link.ends.as_slice();
    let members = routers_of(alloc, ends)?;
    match net.add_lan(members.as_slice(), link.metric) {
        Ok(_) => {}
        Err(LabFault::OutOfMemory) => return Err(OutOfMemory),
        Err(_) => unreachable!(),
    }
    set_priorities(net, routers, ends)
}

/// The routers of these ends.
fn routers_of(alloc: Global, ends: &[End]) -> Result<Vec<usize>, OutOfMemory>
    ensures { IfOk result (λ routers. routers.items ≡ end_routers ends.now) }
{
    let mut routers = Vec::new(alloc);
    for end in ends {
        match routers.push(end.router) {
            Ok(()) => {}
            Err(_) => return Err(OutOfMemory),
        }
    }
    Ok(routers)
}

/// Gives each of these ends the priority of its router.
fn set_priorities(
    net: &mut Network<Asked>,
    routers: &[LabRouter<'_>],
    ends: &[End],
) -> Result<(), OutOfMemory>
    requires there { AllByRecursion (λ e. HasEnd net.old e) ends.now }
    requires priorities { AllByRecursion (λ router. router.priority ≤ 127) routers.now }
    requires early { net.old.begun ≡ false }
    ensures { OnOk result (net.new ≡ layout.with_priorities routers.now ends.now net.old) }
{
    for end in ends {
        match set_priority(net, routers, end) {
            Ok(()) => {}
            Err(error) => return Err(error),
        }
    }
    Ok(())
}

/// Gives an end the priority of its router.
fn set_priority(
    net: &mut Network<Asked>,
    routers: &[LabRouter<'_>],
    end: &End,
) -> Result<(), OutOfMemory>
    requires there { HasEnd net.old end.now }
    requires priorities { AllByRecursion (λ router. router.priority ≤ 127) routers.now }
    requires early { net.old.begun ≡ false }
    ensures { OnOk result (net.new ≡ layout.with_own_priority routers.now end.now net.old) }
{
    let priority = priority_of(routers, end.router);
    match net.set_priority(end.router, end.place as u8 + 1, priority) {
        Ok(()) => Ok(()),
        Err(_) => Err(OutOfMemory),
    }
}

/// The priority of the router of this number; 0 where there is none.
fn priority_of(routers: &[LabRouter<'_>], router: usize) -> u8
    requires { AllByRecursion (λ router. router.priority ≤ 127) routers.now }
    ensures value { result ≡ layout.priority_in (nth routers.now router) }
    ensures small { result ≤ 127 }
{
    match routers.get(router) {
        Some(router) => router.priority,
        None => 0,
    }
}

/// Sets the keys of circuits.
fn set_keys(
    alloc: Global,
    net: &mut Network<Asked>,
    script: &LabScript<'_>,
) -> Result<(), OutOfMemory>
    requires { HasLinks (length script.now.routers) script.now.links net.old }
    ensures value { OnOk result (net.new ≡ layout.with_keys script.now.keys net.old) }
    ensures has { OnOk result (HasLinks (length script.now.routers) script.now.links net.new) }
{
    let keys = script.keys();
    for key in keys {
        match set_key(alloc, net, key) {
            Ok(()) => {}
            Err(error) => return Err(error),
        }
    }
    Ok(())
}

/// Sets a key, where it is that of a circuit.
fn set_key(alloc: Global, net: &mut Network<Asked>, key: &LabKey<'_>) -> Result<(), OutOfMemory>
    requires early { net.old.begun ≡ false }
    requires there { HasScope net.old key.now.router key.now.scope }
    requires key { IsKey key.now.key }
    ensures { OnOk result (net.new
        ≡ layout.with_scope key.now.router key.now.scope key.now.key net.old) }
{
    match key.scope {
        KeyScope::Area | KeyScope::Domain => Ok(()),
        KeyScope::Circuit { place } => {
            let octets = key.key.octets(alloc)?;
            match net.set_key(key.router, place as u8 + 1, octets) {
                Ok(()) => Ok(()),
                Err(_) => Err(OutOfMemory),
            }
        }
    }
}
