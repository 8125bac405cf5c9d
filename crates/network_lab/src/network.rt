//! A network of routers, and what is read of it.
ghost use Rattle.std.specs.Prelude.{◌≡◌, ◌<◌, ◌≤◌, ◌-◌, false, length, Some, None};
ghost use Rattle.std.specs.Option.{option_map};
ghost use Rattle.model_router.specs.Places.{nth};
ghost use Rattle.model_network.specs.Networks.{numbered};
ghost use Rattle.model_network.specs.RunLines.{link_of as link_at, circuit_count};
ghost use Rattle.flag_sync.specs.Walks.{numbers_of};
ghost use Rattle.lab_facts.specs.Sightings.{doubled_in};
ghost use Rattle.network_lab.specs.LabNets.{empty_lab, systems_of, AreDistinct};
ghost use Rattle.network_lab.specs.Claims.{AreEnds, AreLinksOf, HaveOneLink, IsClaimed};
ghost use Rattle.network_lab.specs.LinkStates.{AreWithin};
ghost use Rattle.network_lab.specs.Reached.{AreSmall, HasRun, HoldNothing};

use crate::notes::Notes;
use crate::places::sent_at;
use crate::sent::SentDatagram;
use isis_base::{Level, List, LspId};
use lab_facts::{Histories, Sweeps};
use lab_keys::LabFault;
use model_network::End;
use router_core::{Keeping, Kept, Router};
use router_desk::Config;
use std::alloc::Global;
use std::marker::Model;

/// A network of routers, of the links between them, and of the datagrams that were sent. It stands
/// for the run of the events that were applied to it, whatever of it is delivered, in whichever
/// order, and how often.
#[derive(Drop)]
pub struct Network<K: Keeping = Kept> {
    pub(crate) alloc: Global,
    pub(crate) configs: Vec<Config>,
    pub(crate) routers: Vec<Router<K>>,
    pub(crate) links: Vec<List<End>>,
    // of each link its ends in order of their routers
    pub(crate) ordered: Vec<List<End>>,
    // of each router the links of its circuits
    pub(crate) ports: Vec<List<usize>>,
    pub(crate) sent: Vec<SentDatagram>,
    pub(crate) injected: u64,
    pub(crate) notes: Notes,
    pub(crate) begun: bool,
    pub(crate) stopped: Option<LabFault>,
}

impl<K: Keeping> Model for Network<K> {
    ghost use Rattle.network_lab.specs.LabNets.{LabNet};
    ghost use Rattle.network_lab.specs.LabInside.{lab_of, IsSoundLab};

    ghost Value = { LabNet };

    ghost view = { lab_of };

    ghost invariant = { IsSoundLab };
}

impl<K: Keeping> Network<K> {
    /// The network without routers. It takes no memory.
    pub fn new(alloc: Global) -> Network<K>
        ensures { result ≡ empty_lab }
    {
        Network {
            alloc,
            configs: Vec::new(alloc),
            routers: Vec::new(alloc),
            links: Vec::new(alloc),
            ordered: Vec::new(alloc),
            ports: Vec::new(alloc),
            sent: Vec::new(alloc),
            injected: 0,
            notes: Notes {
                past: Histories::new(alloc),
                takings: Sweeps::new(alloc),
            },
            begun: false,
            stopped: None,
        }
    }

    /// What always holds of a network: at most 262,144 datagrams were sent, all of octets, the ends of
    /// links are there, and a router's place belongs to one link. Before an event no router holds anything. In a run that wasn't
    /// stopped, where nothing was injected, it is seen as a network whose routers can be reached; the
    /// claims of links, groups, sweeps and contents hold; and no end of a link is ahead in more LSP
    /// IDs than its SRM flags. No two routers have one system. It does nothing.
    pub fn facts(&self)
        ensures few { length self.now.seen.sent ≤ 262144 }
        ensures small { AreSmall self.now.seen.sent }
        ensures ends { AreEnds self.now.seen }
        ensures wired { HaveOneLink self.now.seen.links }
        ensures systems { AreDistinct (systems_of self.now.seen.routers) }
        ensures run { self.now.stopped ≡ None → self.now.seen.injected ≡ 0
            → HasRun self.now.seen }
        ensures fresh { self.now.begun ≡ false → HoldNothing self.now.seen.routers }
        ensures claimed { self.now.stopped ≡ None → IsClaimed self.now.seen }
        ensures within { self.now.stopped ≡ None → AreWithin self.now.seen }
    {
        let _ = &self.alloc;
    }

    /// A router, by its number.
    pub fn router(&self, router: usize) -> &Router<K>
        requires { router < length self.now.seen.routers }
        ensures { nth self.now.seen.routers router ≡ Some result.now }
    {
        &self.routers[router]
    }

    /// The number of routers.
    pub fn routers(&self) -> usize
        ensures { result ≡ length self.now.seen.routers }
    {
        self.routers.len()
    }

    /// A router's configuration with the changes so far, by its number.
    pub fn config(&self, router: usize) -> &Config
        requires { router < length self.now.seen.routers }
        ensures { nth self.now.configs router ≡ Some result.now }
    {
        &self.configs[router]
    }

    /// The number of links and LANs.
    pub fn links(&self) -> usize
        ensures { result ≡ length self.now.seen.links }
    {
        self.links.len()
    }

    /// The ends of a link or LAN.
    pub fn ends(&self, link: usize) -> &[End]
        requires { link < length self.now.seen.links }
        ensures { nth self.now.seen.links link ≡ Some result.now }
    {
        self.links[link].as_slice()
    }

    /// The link or LAN of a router's circuit, counted from 1; `None` exactly where the router has
    /// no such circuit.
    pub fn link_of(&self, router: usize, circuit: u8) -> Option<usize>
        requires there { router < length self.now.seen.routers }
        requires number { 1 ≤ circuit }
        ensures { result ≡ link_at router (circuit - 1) 0 self.now.seen.links }
    {
        self.port(router, usize::from(circuit) - 1)
    }

    /// The links of a router's circuits, in order.
    pub fn ports(&self, router: usize) -> &[usize]
        requires { router < length self.now.seen.routers }
        ensures size { length result.now ≡ circuit_count (nth self.now.seen.routers router) }
        ensures on { AreLinksOf self.now.seen.links router result.now }
    {
        self.ports[router].as_slice()
    }

    /// The octets of a datagram, counted from 1; `None` exactly at 0 and past the last one.
    pub fn datagram(&self, number: usize) -> Option<&[u8]>
        ensures { option_map (λ octets. octets.now) result
            ≡ option_map (λ d. d.octets) (numbered self.now.seen.sent number) }
    {
        let datagram = sent_at(&self.sent, number)?;
        Some(datagram.octets.as_slice())
    }

    /// The sender and the link of a datagram, counted from 1; `None` exactly at 0 and past the last
    /// one.
    pub fn origin(&self, number: usize) -> Option<(usize, usize)>
        ensures { result ≡ option_map (λ d. (d.sender, d.link))
            (numbered self.now.seen.sent number) }
    {
        let datagram = sent_at(&self.sent, number)?;
        Some((datagram.sender, datagram.link))
    }

    /// How many datagrams were sent.
    pub fn datagrams(&self) -> usize
        ensures { result ≡ length self.now.seen.sent }
    {
        self.sent.len()
    }

    /// The LSP IDs of a level that are doubled, in order: the router of their system held two contents, the flags octet and
    /// the TLVs, live under one number in the run so far (own).
    pub fn doubled(&self, level: Level) -> &[LspId]
        ensures { numbers_of result.now ≡ doubled_in self.now.seen.noted.past level }
    {
        self.notes.past.doubled(level)
    }

    /// How many datagrams were injected.
    pub fn injected(&self) -> u64
        ensures { result ≡ self.now.seen.injected }
    {
        self.injected
    }
}
