//! What becomes of the routers that a link or LAN joins.
ghost use Rattle.std.specs.Prelude.{◌≡◌, ◌<◌, ◌≤◌, ◌-◌, length, map, false, IfOk, OnOk};
ghost use Rattle.std.specs.List.{AllByRecursion, insert};
ghost use Rattle.model_router.specs.Places.{nth};
ghost use Rattle.router_desk.specs.Limits.{IsValid};
ghost use Rattle.model_network.specs.declared.end.End.{End as ModelEnd};
ghost use Rattle.model_network.specs.RunLines.{by_router};
ghost use Rattle.model_network.specs.RunLines as line;
ghost use Rattle.network_lab.specs.LabNets.{circuit_count, new_circuit, next_end, with_circuit, router_of};
ghost use Rattle.router_core.specs.Reached.{IsReached};
ghost use Rattle.network_lab.specs.LabCauses as cause;
ghost use Rattle.network_lab.specs.Joining.{Adds, IsJoined, configs_with, routers_with, ports_with};

use crate::places::put_at;
use crate::setup::{Setup, put_setup, setup_of};
use isis_base::numbers::CIRCUIT_LIMIT;
use isis_base::{CircuitKind, List, OutOfMemory};
use model_network::End;
use router_core::{Keeping, Router};
use router_desk::{CircuitConfig, Config};
use std::alloc::Global;

/// What becomes of a router that a link or LAN joins: its setup with a circuit more, and the links
/// of its circuits.
#[derive(Drop)]
pub(crate) struct Joined<K: Keeping> {
    pub(crate) router: usize,
    pub(crate) setup: Setup<K>,
    pub(crate) ports: List<usize>,
}

/// Whether one of these routers has all the circuits that it may have.
pub(crate) fn has_full(configs: &[Config], members: &[usize]) -> bool
    ensures { result ≡ cause.has_full configs.now members.now }
{
    let mut left = members;
    while let [member, more @ ..] = left {
        if next_place(configs, *member) >= CIRCUIT_LIMIT {
            return true;
        }
        left = more;
    }
    false
}

/// The place of a router's next circuit.
fn next_place(configs: &[Config], router: usize) -> usize
    ensures { result ≡ circuit_count (nth configs.now router) }
{
    match configs.get(router) {
        Some(config) => config.circuits.len(),
        None => 0,
    }
}

/// The next circuits of these routers as ends.
pub(crate) fn ends_of(
    alloc: Global,
    configs: &[Config],
    members: &[usize],
) -> Result<List<End>, OutOfMemory>
    ensures { IfOk result (λ row. row ≡ map (next_end configs.now) members.now) }
{
    let mut ends = Vec::new(alloc);
    let mut left = members;
    while let [member, more @ ..] = left {
        let router = *member;
        let place = next_place(configs, router);
        match ends.push(End { router, place }) {
            Ok(()) => {}
            Err(_) => return Err(OutOfMemory),
        }
        left = more;
    }
    Ok(List::of(ends))
}

/// Ends in order of their routers.
pub(crate) fn ordered_of(alloc: Global, ends: &List<End>) -> Result<List<End>, OutOfMemory>
    ensures { IfOk result (λ row. row ≡ by_router ends.now) }
{
    let ends = ends.as_slice();
    let mut ordered = Vec::new(alloc);
    let count = ends.len();
    for behind in 0..count {
        match put_end(&mut ordered, ends[count - behind - 1]) {
            Ok(()) => {}
            Err(error) => return Err(error),
        }
    }
    Ok(List::of(ordered))
}

/// Puts an end behind those of no greater router.
fn put_end(ends: &mut Vec<End>, end: End) -> Result<(), OutOfMemory>
    ensures { OnOk result (ends.new.items ≡ line.put_end ends.old.items end) }
{
    let place = place_behind(ends, end.router);
    match ends.insert(place, end) {
        Ok(()) => Ok(()),
        Err(_) => Err(OutOfMemory),
    }
}

/// The place behind the ends of no greater router.
fn place_behind(ends: &[End], router: usize) -> usize
    ensures inside { result ≤ length ends.now }
    ensures place { (e : ModelEnd) → e.router ≡ router
        → line.put_end ends.now e ≡ insert ends.now result e }
{
    for place in 0..ends.len() {
        if ends[place].router > router {
            return place;
        }
    }
    ends.len()
}

/// What becomes of each of these routers, which have room for a circuit more.
pub(crate) fn joined_all<K: Keeping>(
    alloc: Global,
    configs: &[Config],
    ports: &[List<usize>],
    members: &[usize],
    link: usize,
    kind: CircuitKind,
    metric: u32,
) -> Result<Vec<Joined<K>>, OutOfMemory>
    requires valid { AllByRecursion IsValid configs.now }
    requires same { length ports.now ≡ length configs.now }
    requires there { AllByRecursion (λ i. i < length configs.now) members.now }
    requires room { cause.has_full configs.now members.now ≡ false }
    requires metric { metric ≤ 16777215 }
    ensures joined { IfOk result (λ list. AllByRecursion
        (IsJoined configs.now ports.now link (new_circuit kind metric)) list.items) }
    ensures routers { IfOk result (λ list. map (λ j. j.router) list.items ≡ members.now) }
{
    let mut list = Vec::new(alloc);
    let mut left = members;
    while let [member, more @ ..] = left {
        match join(&mut list, configs, ports, *member, link, kind, metric) {
            Ok(()) => {}
            Err(error) => return Err(error),
        }
        left = more;
    }
    Ok(list)
}

/// Adds what becomes of a router.
fn join<K: Keeping>(
    list: &mut Vec<Joined<K>>,
    configs: &[Config],
    ports: &[List<usize>],
    router: usize,
    link: usize,
    kind: CircuitKind,
    metric: u32,
) -> Result<(), OutOfMemory>
    requires valid { AllByRecursion IsValid configs.now }
    requires same { length ports.now ≡ length configs.now }
    requires there { router < length configs.now }
    requires room { circuit_count (nth configs.now router) < 64 }
    requires metric { metric ≤ 16777215 }
    ensures { OnOk result (Adds (IsJoined configs.now ports.now link (new_circuit kind metric))
        router list.old.items list.new.items) }
{
    let alloc = *list.allocator();
    let joined = joined_at(alloc, configs, ports, router, link, kind, metric)?;
    match list.push(joined) {
        Ok(()) => {}
        Err(refused) => {
            drop(refused);
            return Err(OutOfMemory);
        }
    }
    Ok(())
}

/// What becomes of a router.
fn joined_at<K: Keeping>(
    alloc: Global,
    configs: &[Config],
    ports: &[List<usize>],
    router: usize,
    link: usize,
    kind: CircuitKind,
    metric: u32,
) -> Result<Joined<K>, OutOfMemory>
    requires valid { AllByRecursion IsValid configs.now }
    requires same { length ports.now ≡ length configs.now }
    requires there { router < length configs.now }
    requires room { circuit_count (nth configs.now router) < 64 }
    requires metric { metric ≤ 16777215 }
    ensures joined { IfOk result (λ joined.
        IsJoined configs.now ports.now link (new_circuit kind metric) joined) }
    ensures router { IfOk result (λ joined. joined.router ≡ router) }
{
    let ports = ports[router].with(link)?;
    let setup = with_new(alloc, &configs[router], kind, metric)?;
    Ok(Joined {
        router,
        setup,
        ports,
    })
}

/// A configuration with a circuit more.
fn with_new<K: Keeping>(
    alloc: Global,
    config: &Config,
    kind: CircuitKind,
    metric: u32,
) -> Result<Setup<K>, OutOfMemory>
    requires valid { IsValid config.now }
    requires room { length config.now.circuits < 64 }
    requires metric { metric ≤ 16777215 }
    ensures config { IfOk result (λ setup. setup.config
        ≡ with_circuit (new_circuit kind metric) config.now) }
    ensures router { IfOk result (λ setup. setup.router
        ≡ router_of (with_circuit (new_circuit kind metric) config.now)) }
    ensures reached { IfOk result (λ setup. IsReached setup.router) }
{
    let mut copy = config.copy()?;
    copy.circuits.push(CircuitConfig {
        kind,
        metric,
        priority: 64,
        address: None,
        key: None,
    })?;
    setup_of(alloc, copy)
}

/// Each of these routers becomes what was made ready.
pub(crate) fn put_all<K: Keeping>(
    configs: &mut Vec<Config>,
    routers: &mut Vec<Router<K>>,
    ports: &mut Vec<List<usize>>,
    joined: Vec<Joined<K>>,
)
    requires configs { AllByRecursion (λ j. j.router < length configs.old.items) joined.items }
    requires routers { AllByRecursion (λ j. j.router < length routers.old.items) joined.items }
    requires ports { AllByRecursion (λ j. j.router < length ports.old.items) joined.items }
    ensures configs { configs.new.items ≡ configs_with joined.items configs.old.items }
    ensures routers { routers.new.items ≡ routers_with joined.items routers.old.items }
    ensures ports { ports.new.items ≡ ports_with joined.items ports.old.items }
{
    let mut left = joined.into_iter();
    while let Some(next) = left.next() {
        put_setup(configs, routers, next.router, next.setup);
        put_at(ports, next.router, next.ports);
    }
}
