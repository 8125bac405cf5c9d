//! A circuit.
ghost use Rattle.std.specs.Prelude.{◌≡◌, true, false, [], map, IfOk, MatchOption};
ghost use Rattle.std.specs.Option.{option_map};
ghost use Rattle.model_router.specs.Both.{at};
ghost use Rattle.model_router.specs.Pulls.{snpas_of};
ghost use Rattle.adjacency.specs.Changes.{boot_of};
ghost use Rattle.adjacency.specs.Views.{snpa_of, neighbour_of, point_of};
ghost use Rattle.adjacency.specs.Lans.{AreHeard, neighbours, ups};
ghost use Rattle.router_desk.specs.Configs.{circuit_of};
ghost use Rattle.router_circuits.specs.Facts.{IsCircuit};

use crate::medium::Medium;
use crate::sizes::point_sizes;
use crate::timers::Timers;
use adjacency::{Boots, Neighbour, P2pAdj};
use isis_base::{Level, Octets, OutOfMemory};
use router_desk::CircuitConfig;
use std::alloc::Global;
use std::marker::Model;

/// A circuit of a router: its configuration, its adjacencies, its counters, and the boots that it
/// remembers, for which room is taken when the first hello is heard (own). Contracts see it as the
/// router's model has it.
#[derive(Drop, Debug)]
pub struct Circuit {
    metric: u32,
    pub(crate) priority: u8,
    address: Option<u32>,
    key: Option<Octets>,
    pub(crate) medium: Medium,
    pub(crate) one: Timers,
    pub(crate) two: Timers,
    pub(crate) hello: u8,
    pub(crate) boots: Option<Boots>,
}

impl Model for Circuit {
    ghost use Rattle.model_router.specs.Routers as model;
    ghost use Rattle.router_circuits.specs.Views.{AreSized, boots_in, heard_in, is_lan, levels_in, point_in};

    ghost Value = { model.Circuit };

    ghost view = { λ c. record {
      lan = is_lan c.medium;
      metric = c.metric;
      priority = c.priority;
      address = c.address;
      key = c.key;
      point = point_in c.medium;
      levels = levels_in (heard_in c.medium) c.one c.two;
      hello = c.hello;
      boots = boots_in c.boots;
    } };

    ghost invariant = { λ c. AreSized c.medium };
}

impl Circuit {
    /// The circuit of a configuration: nothing was heard, and a hello is due.
    pub fn new(alloc: Global, config: &CircuitConfig) -> Result<Circuit, OutOfMemory>
        ensures { IfOk result (λ circuit. circuit ≡ circuit_of config.now) }
    {
        let key = copy_of_key(&config.key)?;
        let medium = Medium::new(alloc, config.kind)?;
        Ok(Circuit {
            metric: config.metric,
            priority: config.priority,
            address: config.address,
            key,
            medium,
            one: QUIET,
            two: QUIET,
            hello: 0,
            boots: None,
        })
    }

    /// An equal circuit.
    pub fn copy(&self) -> Result<Circuit, OutOfMemory>
        ensures { IfOk result (λ copy. copy ≡ self.now) }
    {
        let boots = copy_of_boots(&self.boots)?;
        let mut copy = self.copy_without_boots()?;
        copy.boots = boots;
        Ok(copy)
    }

    /// A circuit that is equal but for the boots, of which it remembers none (own).
    pub fn copy_without_boots(&self) -> Result<Circuit, OutOfMemory>
        ensures { IfOk result (λ copy. copy ≡ record self.now { boots = [] }) }
    {
        let key = copy_of_key(&self.key)?;
        let medium = self.medium.copy()?;
        Ok(Circuit {
            metric: self.metric,
            priority: self.priority,
            address: self.address,
            key,
            medium,
            one: self.one,
            two: self.two,
            hello: self.hello,
            boots: None,
        })
    }

    /// Takes the boots that another circuit remembers.
    pub fn take_boots(&mut self, from: &mut Circuit)
        ensures { self.new ≡ record self.old { boots = from.old.boots } }
    {
        self.boots = from.boots.take();
    }

    /// The greatest boot numbers that were heard, by system.
    pub fn boots(&self) -> &[(u64, u32)]
        ensures { result.now ≡ self.now.boots }
    {
        match &self.boots {
            None => &[],
            Some(boots) => boots.list(),
        }
    }

    /// What always holds of a circuit. It does nothing.
    pub fn facts(&self)
        ensures { IsCircuit self.now }
    {
        self.medium.up(Level::One);
        self.medium.up(Level::Two);
        if let Some(point) = self.medium.point() {
            point_sizes(point);
        }
    }

    /// Whether it is a LAN, or else a point-to-point circuit (ISO 10589 6.3).
    pub fn is_lan(&self) -> bool
        ensures { result ≡ self.now.lan }
    {
        self.medium.is_lan()
    }

    /// The metric (RFC 5305 3).
    pub fn metric(&self) -> u32
        ensures { result ≡ self.now.metric }
    {
        self.metric
    }

    /// Sets the metric.
    pub fn set_metric(&mut self, metric: u32)
        ensures { self.new ≡ record self.old { metric = metric } }
    {
        self.metric = metric;
    }

    /// The priority on a LAN (ISO 10589 8.4.5).
    pub fn priority(&self) -> u8
        ensures { result ≡ self.now.priority }
    {
        self.priority
    }

    /// The IPv4 address.
    pub fn address(&self) -> Option<u32>
        ensures { result ≡ self.now.address }
    {
        self.address
    }

    /// The key of hellos (RFC 5304 3).
    pub fn key(&self) -> Option<&[u8]>
        ensures { option_map (λ key. key.now) result ≡ self.now.key }
    {
        match &self.key {
            Some(key) => Some(key.as_slice()),
            None => None,
        }
    }

    /// The adjacency of a point-to-point circuit; `None` exactly on a LAN.
    pub fn point(&self) -> Option<&P2pAdj>
        ensures { MatchOption result (self.now.lan ≡ true)
            (λ point. (self.now.lan ≡ false) × (point_of point.now ≡ self.now.point)) }
    {
        self.medium.point()
    }

    /// All neighbours that are heard on a LAN and level, by SNPA; none on a point-to-point circuit.
    pub fn heard(&self, level: Level) -> &[Neighbour]
        ensures all { map neighbour_of result.now ≡ neighbours (at self.now.levels level).heard }
        ensures heard { AreHeard (at self.now.levels level).heard }
        ensures snpas { map snpa_of result.now ≡ snpas_of (at self.now.levels level).heard }
    {
        self.medium.heard(level)
    }

    /// The neighbours in state Up on a LAN and level, by SNPA; none on a point-to-point circuit.
    pub fn up(&self, level: Level) -> &[Neighbour]
        ensures up { map neighbour_of result.now ≡ ups (at self.now.levels level).heard }
        ensures heard { AreHeard (at self.now.levels level).heard }
    {
        self.medium.up(level)
    }

    /// The boot number in the extended circuit ID of a point-to-point neighbour, where its state is
    /// Up (own).
    pub fn names_boot(&self) -> Option<u32>
        ensures { result ≡ boot_of self.now.point }
    {
        match self.medium.point() {
            Some(point) => point.names_boot(),
            None => None,
        }
    }
}

/// The counters of a level on which nothing was heard.
const QUIET: Timers = Timers {
    csnp: 0,
    psnp: 0,
    due: false,
};

/// Equal boots, where room for them was taken.
fn copy_of_boots(boots: &Option<Boots>) -> Result<Option<Boots>, OutOfMemory>
    ensures { IfOk result (λ copy. copy ≡ boots.now) }
{
    match boots {
        None => Ok(None),
        Some(boots) => {
            let copy = boots.copy()?;
            Ok(Some(copy))
        }
    }
}

/// An equal key, where there is one.
fn copy_of_key(key: &Option<Octets>) -> Result<Option<Octets>, OutOfMemory>
    ensures { IfOk result (λ copy. copy ≡ key.now) }
{
    match key {
        None => Ok(None),
        Some(key) => {
            let copy = key.copy()?;
            Ok(Some(copy))
        }
    }
}
