//! How a network of routers is set up.
ghost use Rattle.std.specs.Prelude.{◌≡◌, ◌≢◌, ◌<◌, ◌≤◌, true, false, [], ◌∷◌, length, Some, Err, vec_len, vec_capacity, IfOk, IfErr, OnOk, OnErr, slice_index};
ghost use Rattle.std.specs.List.{AllByRecursion};
ghost use Rattle.model_router.specs.Numbers.{system_id, system_number};
ghost use Rattle.model_router.specs.Places.{nth, with_nth};
ghost use Rattle.router_desk.specs.Limits.{IsCircuit, IsKey, IsValid};
ghost use Rattle.router_core.specs.Reached.{IsReached};
ghost use Rattle.lab_keys.specs.declared.faults.LabFault.TheVariants.{Limit};
ghost use Rattle.lab_keys.specs.declared.faults.LimitName.TheVariants.{Routers, Links, Circuits};
ghost use Rattle.network_lab.specs.LabNets.{with_router, new_circuit, with_ends, with_link, with_lan, with_key, with_priority, router_of, AreDistinct};
ghost use Rattle.network_lab.specs.LabSteps.{with_circuit_at};
ghost use Rattle.network_lab.specs.LabCauses.{RouterCause, LinkCause, HasCircuit, has_full};

use crate::joining::{ends_of, has_full, joined_all, ordered_of, put_all};
use crate::network::Network;
use crate::places::put_at;
use isis_base::{CircuitKind, List, Octets, OutOfMemory};
use lab_keys::{LINK_LIMIT, LabFault, LimitName, ROUTER_LIMIT};
use model_network::End;
use model_router::laws::identifiers::system_law;
use router_core::{Keeping, Router};
use router_desk::{CircuitConfig, Circuits, Config};
use std::alloc::{AllocError, Global};

impl<K: Keeping> Network<K> {
    /// Adds a router and answers its number, counted from 0. `Limit(Routers)` exactly where 1,024
    /// are there.
    pub fn add_router(&mut self, config: Config) -> Result<usize, LabFault>
        requires valid { IsValid config }
        requires bare { config.circuits ≡ [] }
        requires fresh { AllByRecursion (λ other. other.system ≢ config.system) self.old.configs }
        requires setup { self.old.begun ≡ false }
        ensures number { IfOk result (λ router. router ≡ length self.old.configs) }
        ensures ok { OnOk result (self.new ≡ with_router self.old config) }
        ensures cause { IfErr result (RouterCause self.old) }
        ensures limit { 1024 ≤ length self.old.configs → result ≡ Err (Limit Routers) }
        ensures err { OnErr result (self.new ≡ self.old) }
    {
        let router = self.configs.len();
        if router >= ROUTER_LIMIT {
            return Err(LabFault::Limit(LimitName::Routers));
        }
        make_room(&mut self.configs, &mut self.routers, &mut self.ports)?;
        let setup = setup_of(self.alloc, config)?;
        self.configs.push_reserved(setup.config);
        self.routers.push_reserved(setup.router);
        self.ports.push_reserved(List::new(self.alloc));
        Ok(router)
    }

    /// Adds a point-to-point link between two routers and answers its number, counted from 0. Each
    /// end gets its next circuit. `Limit(Links)` exactly where 4,096 links and LANs are there, or else
    /// `Limit(Circuits)` exactly where an end has 64 circuits.
    pub fn add_link(&mut self, ends: [usize; 2], metric: u32) -> Result<usize, LabFault>
        requires there { (slice_index ends 0 < length self.old.configs)
            × (slice_index ends 1 < length self.old.configs) }
        requires apart { slice_index ends 0 ≢ slice_index ends 1 }
        requires metric { metric ≤ 16777215 }
        requires setup { self.old.begun ≡ false }
        ensures number { IfOk result (λ link. link ≡ length self.old.seen.links) }
        ensures ok { OnOk result (self.new
            ≡ with_link self.old (slice_index ends 0) (slice_index ends 1) metric) }
        ensures cause { IfErr result (LinkCause self.old
            (slice_index ends 0 ∷ slice_index ends 1 ∷ [])) }
        ensures links { 4096 ≤ length self.old.seen.links → result ≡ Err (Limit Links) }
        ensures circuits { length self.old.seen.links < 4096
            → has_full self.old.configs (slice_index ends 0 ∷ slice_index ends 1 ∷ []) ≡ true
            → result ≡ Err (Limit Circuits) }
        ensures err { OnErr result (self.new ≡ self.old) }
    {
        let [near, far] = ends;
        self.add_ends(&[near, far], CircuitKind::PointToPoint, metric)
    }

    /// Adds a LAN of 2 to 64 routers and answers its number, counted from 0. Each member gets its
    /// next circuit. `Limit(Links)` exactly where 4,096 links and LANs are there, or else
    /// `Limit(Circuits)` exactly where a member has 64 circuits.
    pub fn add_lan(&mut self, members: &[usize], metric: u32) -> Result<usize, LabFault>
        requires many { (2 ≤ length members.now) × (length members.now ≤ 64) }
        requires there { AllByRecursion (λ i. i < length self.old.configs) members.now }
        requires apart { AreDistinct members.now }
        requires metric { metric ≤ 16777215 }
        requires setup { self.old.begun ≡ false }
        ensures number { IfOk result (λ link. link ≡ length self.old.seen.links) }
        ensures ok { OnOk result (self.new ≡ with_lan self.old members.now metric) }
        ensures cause { IfErr result (LinkCause self.old members.now) }
        ensures links { 4096 ≤ length self.old.seen.links → result ≡ Err (Limit Links) }
        ensures circuits { length self.old.seen.links < 4096
            → has_full self.old.configs members.now ≡ true → result ≡ Err (Limit Circuits) }
        ensures err { OnErr result (self.new ≡ self.old) }
    {
        self.add_ends(members, CircuitKind::Lan, metric)
    }

    /// Sets the key of the hellos of a router's circuit, counted from 1. It answers `OutOfMemory`
    /// alone.
    pub fn set_key(&mut self, router: usize, circuit: u8, key: Octets) -> Result<(), LabFault>
        requires there { HasCircuit self.old router circuit }
        requires key { IsKey key }
        requires setup { self.old.begun ≡ false }
        ensures ok { OnOk result (self.new ≡ with_key self.old router circuit key) }
        ensures cause { IfErr result (λ fault. fault ≡ LabFault.OutOfMemory) }
        ensures err { OnErr result (self.new ≡ self.old) }
    {
        let place = usize::from(circuit) - 1;
        let mut changed = self.configs[router].circuits.as_slice()[place].copy()?;
        changed.key = Some(key);
        let setup = changed_at(self.alloc, &self.configs[router], place, &changed)?;
        put_setup(&mut self.configs, &mut self.routers, router, setup);
        Ok(())
    }

    /// Sets the priority of a router's circuit, counted from 1. It answers `OutOfMemory` alone.
    pub fn set_priority(&mut self, router: usize, circuit: u8, priority: u8) -> Result<(), LabFault>
        requires there { HasCircuit self.old router circuit }
        requires priority { priority ≤ 127 }
        requires setup { self.old.begun ≡ false }
        ensures ok { OnOk result (self.new ≡ with_priority self.old router circuit priority) }
        ensures cause { IfErr result (λ fault. fault ≡ LabFault.OutOfMemory) }
        ensures err { OnErr result (self.new ≡ self.old) }
    {
        let place = usize::from(circuit) - 1;
        let mut changed = self.configs[router].circuits.as_slice()[place].copy()?;
        changed.priority = priority;
        let setup = changed_at(self.alloc, &self.configs[router], place, &changed)?;
        put_setup(&mut self.configs, &mut self.routers, router, setup);
        Ok(())
    }

    /// Adds a link or LAN of these routers.
    fn add_ends(
        &mut self,
        members: &[usize],
        kind: CircuitKind,
        metric: u32,
    ) -> Result<usize, LabFault>
        requires there { AllByRecursion (λ i. i < length self.old.configs) members.now }
        requires apart { AreDistinct members.now }
        requires metric { metric ≤ 16777215 }
        requires setup { self.old.begun ≡ false }
        ensures number { IfOk result (λ link. link ≡ length self.old.seen.links) }
        ensures ok { OnOk result (self.new
            ≡ with_ends self.old members.now (new_circuit kind metric)) }
        ensures cause { IfErr result (LinkCause self.old members.now) }
        ensures links { 4096 ≤ length self.old.seen.links → result ≡ Err (Limit Links) }
        ensures circuits { length self.old.seen.links < 4096
            → has_full self.old.configs members.now ≡ true → result ≡ Err (Limit Circuits) }
        ensures err { OnErr result (self.new ≡ self.old) }
    {
        let link = self.links.len();
        if link >= LINK_LIMIT {
            return Err(LabFault::Limit(LimitName::Links));
        }
        if has_full(&self.configs, members) {
            return Err(LabFault::Limit(LimitName::Circuits));
        }
        self.join(members, kind, metric)?;
        Ok(link)
    }

    /// A link or LAN of routers that have room for it.
    fn join(&mut self, members: &[usize], kind: CircuitKind, metric: u32) -> Result<(), OutOfMemory>
        requires there { AllByRecursion (λ i. i < length self.old.configs) members.now }
        requires room { has_full self.old.configs members.now ≡ false }
        requires apart { AreDistinct members.now }
        requires metric { metric ≤ 16777215 }
        requires setup { self.old.begun ≡ false }
        ensures ok { OnOk result (self.new
            ≡ with_ends self.old members.now (new_circuit kind metric)) }
        ensures err { OnErr result (self.new ≡ self.old) }
    {
        let link = self.links.len();
        let ends = ends_of(self.alloc, &self.configs, members)?;
        let ordered = ordered_of(self.alloc, &ends)?;
        make_link_room(&mut self.links, &mut self.ordered)?;
        let joined = joined_all(
            self.alloc,
            &self.configs,
            &self.ports,
            members,
            link,
            kind,
            metric,
        )?;
        self.links.push_reserved(ends);
        self.ordered.push_reserved(ordered);
        put_all(
            &mut self.configs,
            &mut self.routers,
            &mut self.ports,
            joined,
        );
        Ok(())
    }
}

/// Makes room for one more router.
fn make_room<K: Keeping>(
    configs: &mut Vec<Config>,
    routers: &mut Vec<Router<K>>,
    ports: &mut Vec<List<usize>>,
) -> Result<(), AllocError>
    ensures configs { configs.new.items ≡ configs.old.items }
    ensures routers { routers.new.items ≡ routers.old.items }
    ensures ports { ports.new.items ≡ ports.old.items }
    ensures room { OnOk result ((vec_len configs.new < vec_capacity configs.new)
        × (vec_len routers.new < vec_capacity routers.new)
        × (vec_len ports.new < vec_capacity ports.new)) }
{
    configs.reserve(1)?;
    routers.reserve(1)?;
    ports.reserve(1)
}

/// A configuration, and the router of it at its start.
#[derive(Drop)]
pub(crate) struct Setup<K: Keeping> {
    pub(crate) config: Config,
    pub(crate) router: Router<K>,
}

/// The router of a configuration at its start, with the configuration.
pub(crate) fn setup_of<K: Keeping>(alloc: Global, config: Config) -> Result<Setup<K>, OutOfMemory>
    requires { IsValid config }
    ensures config { IfOk result (λ setup. setup.config ≡ config) }
    ensures router { IfOk result (λ setup. setup.router ≡ router_of config) }
    ensures reached { IfOk result (λ setup. IsReached setup.router) }
    ensures system { system_id (system_number config.system) ≡ config.system }
{
    system_law(config.system);
    let copy = config.copy()?;
    match Router::new(alloc, copy, 1) {
        Ok(router) => Ok(Setup { config, router }),
        Err((_, error)) => Err(error),
    }
}

/// A configuration with another circuit at a place.
fn changed_at<K: Keeping>(
    alloc: Global,
    config: &Config,
    place: usize,
    circuit: &CircuitConfig,
) -> Result<Setup<K>, OutOfMemory>
    requires valid { IsValid config.now }
    requires circuit { IsCircuit circuit.now }
    ensures config { IfOk result (λ setup. setup.config
        ≡ with_circuit_at config.now place circuit.now) }
    ensures router { IfOk result (λ setup. setup.router
        ≡ router_of (with_circuit_at config.now place circuit.now)) }
    ensures reached { IfOk result (λ setup. IsReached setup.router) }
{
    let circuits = replaced(alloc, &config.circuits, place, circuit)?;
    let mut copy = config.copy()?;
    copy.circuits = circuits;
    setup_of(alloc, copy)
}

/// Circuits with another one at a place.
pub(crate) fn replaced(
    alloc: Global,
    circuits: &Circuits,
    place: usize,
    circuit: &CircuitConfig,
) -> Result<Circuits, OutOfMemory>
    ensures { IfOk result (λ copies. copies ≡ with_nth circuits.now place circuit.now) }
{
    let mut copies = Circuits::new(alloc);
    let list = circuits.as_slice();
    let count = list.len();
    for at in 0..count {
        let copy = match copy_of(list, at, place, circuit) {
            Ok(copy) => copy,
            Err(error) => return Err(error),
        };
        match copies.push(copy) {
            Ok(()) => {}
            Err(error) => return Err(error),
        }
    }
    Ok(copies)
}

/// An equal circuit, or another one at a place.
fn copy_of(
    list: &[CircuitConfig],
    at: usize,
    place: usize,
    circuit: &CircuitConfig,
) -> Result<CircuitConfig, OutOfMemory>
    requires { at < length list.now }
    ensures { IfOk result (λ copy. nth (with_nth list.now place circuit.now) at ≡ Some copy) }
{
    if at == place {
        return circuit.copy();
    }
    list[at].copy()
}

/// Makes room for one more link.
fn make_link_room(
    links: &mut Vec<List<End>>,
    ordered: &mut Vec<List<End>>,
) -> Result<(), AllocError>
    ensures links { links.new.items ≡ links.old.items }
    ensures ordered { ordered.new.items ≡ ordered.old.items }
    ensures room { OnOk result ((vec_len links.new < vec_capacity links.new)
        × (vec_len ordered.new < vec_capacity ordered.new)) }
{
    links.reserve(1)?;
    ordered.reserve(1)
}

/// Another configuration of a router before the run, with the router of it.
pub(crate) fn put_setup<K: Keeping>(
    configs: &mut Vec<Config>,
    routers: &mut Vec<Router<K>>,
    router: usize,
    setup: Setup<K>,
)
    requires there { (router < length configs.old.items) × (router < length routers.old.items) }
    ensures configs { configs.new.items ≡ with_nth configs.old.items router setup.config }
    ensures routers { routers.new.items ≡ with_nth routers.old.items router setup.router }
{
    put_at(configs, router, setup.config);
    put_at(routers, router, setup.router);
}
