//! One event of a network of routers.
ghost use Rattle.std.specs.Prelude.{◌≡◌, ◌-◌, ◌<◌, ◌≤◌, None, length, Some, Err, Ok, IfSome, IfErr, OnOk, OnErr, MatchOption, true};
ghost use Rattle.std.specs.Option.{option_map};
ghost use Rattle.model_router.specs.Places.{nth, with_nth};
ghost use Rattle.router_core.specs.Events.{event_of, Fits, IsThere};
ghost use Rattle.model_network.specs.Networks.{Network as ModelNetwork, place_in, numbered};
ghost use Rattle.model_network.specs.Runs.{taking};
ghost use Rattle.network_lab.specs.declared.event.LabEvent.TheVariants as event;
ghost use Rattle.lab_keys.specs.declared.faults.LabFault.TheVariants.{OutOfMemory};
ghost use Rattle.network_lab.specs.LabNets.{StandsFor};
ghost use Rattle.network_lab.specs.LabEvents.{IsEvent, IsChange, refusal, after, unless_changes, ApplyCause};
ghost use Rattle.network_lab.specs.LabConfigs.{configs_after};
ghost use Rattle.network_lab.specs.LabCauses.{IsStop};
ghost use Rattle.network_lab.specs.LabSteps.{Ending, Taken, moved_in, delivered_on};
ghost use Rattle.network_lab.specs.Reached.{Happen};
ghost use Rattle.network_lab.specs.Claims.{IsClaimed};

use crate::config_changes::changed;
use crate::event::LabEvent;
use crate::heard_range::HeardRange;
use crate::network::Network;
use crate::places::{one_more, place_at, put_at};
use crate::taking::{restart_at, take_at, taking_at};
use isis_base::Octets;
use isis_base::numbers::{BOOT_LIMIT, PREFIX_LIMIT};
use lab_keys::{LabFault, LimitName};
use router_core::{Keeping, NodeEvent, Router};
use router_desk::{Change, Config};

impl<K: Keeping> Network<K> {
    /// One event. Whatever network of the model this network stood for, it then stands for that
    /// network after the event. `NotSent`, `NotOn`, `Limit(Prefixes)` and `Limit(Boots)` come exactly
    /// where the event is refused, which changes nothing; `Limit(Datagrams)` where it sends past
    /// 262,144 datagrams, of which the first are kept. After `Limit(Datagrams)` or
    /// `OutOfMemory` each later call answers the same. At Ok, where nothing was injected, the claims
    /// hold (ISO 10589 7.3.17): each end of a point-to-point link that is up names the other, and
    /// what one end holds the other holds as new or newer, or its SRM flag stands; routers of one
    /// group, and a member of a LAN with the router that sweeps it, hold the same live LSPs; and what
    /// is held live under one number is the same, unless the LSP ID is doubled. A change also changes
    /// the router's configuration.
    pub fn apply(&mut self, event: LabEvent) -> Result<(), LabFault>
        requires there { IsEvent self.old.seen event }
        ensures run { OnOk result ((net : ModelNetwork) → StandsFor net self.old
            → StandsFor (after net event) self.new) }
        ensures refused { (net : ModelNetwork) → StandsFor net self.old → self.old.stopped ≡ None
            → IfSome (refusal net event)
            (λ fault. (result ≡ Err fault) × (self.new ≡ self.old)) }
        ensures cause { IfErr result (λ fault. (net : ModelNetwork) → StandsFor net self.old
            → ApplyCause net self.old.stopped event self.new.seen.sent fault) }
        ensures stopped { IfSome self.old.stopped
            (λ fault. (result ≡ Err fault) × (self.new ≡ self.old)) }
        ensures stops { IfErr result (λ fault. IsStop fault → self.new.stopped ≡ Some fault) }
        ensures goes_on { OnOk result (self.new.stopped ≡ None) }
        ensures claimed { OnOk result (IsClaimed self.new.seen) }
        ensures configs { OnOk result (self.new.configs ≡ configs_after event self.old.configs) }
        ensures links { self.new.seen.links ≡ self.old.seen.links }
        ensures routers { length self.new.seen.routers ≡ length self.old.seen.routers }
    {
        if let Some(fault) = self.stopped {
            return Err(fault);
        }
        let result = self.happen(event);
        self.facts();
        result
    }

    /// One event of a network that wasn't stopped.
    pub(crate) fn happen(&mut self, event: LabEvent) -> Result<(), LabFault>
        requires there { IsEvent self.old.seen event }
        requires running { self.old.stopped ≡ None }
        ensures { Ending event self.old self.new result }
    {
        match event {
            LabEvent::Tick { router } => self.tick(router),
            LabEvent::Pull { router, link } => self.pull(router, link),
            LabEvent::Deliver { datagram, router } => self.deliver(datagram, router),
            LabEvent::Restart { router } => self.restart(router),
            LabEvent::Change { router, change } => self.change(router, change),
            LabEvent::Inject {
                router,
                link,
                octets,
            } => self.inject(router, link, octets),
        }
    }

    /// A second of a router.
    fn tick(&mut self, router: usize) -> Result<(), LabFault>
        requires there { router < length self.old.seen.routers }
        requires running { self.old.stopped ≡ None }
        ensures { Ending (event.Tick router) self.old self.new result }
    {
        self.take(router, None, NodeEvent::Second, None)
    }

    /// A router is asked for what is due on its circuit of a link.
    fn pull(&mut self, router: usize, link: usize) -> Result<(), LabFault>
        requires there { router < length self.old.seen.routers }
        requires running { self.old.stopped ≡ None }
        ensures { Ending (event.Pull router link) self.old self.new result }
    {
        match self.circuit_on(link, router) {
            None => Err(LabFault::NotOn),
            Some(circuit) => self.take(router, Some(link), NodeEvent::Pull { circuit }, None),
        }
    }

    /// A datagram is delivered to a router.
    fn deliver(&mut self, number: usize, router: usize) -> Result<(), LabFault>
        requires there { router < length self.old.seen.routers }
        requires running { self.old.stopped ≡ None }
        ensures { Ending (event.Deliver number router) self.old self.new result }
    {
        let link = match self.delivered_on(number, router) {
            Ok(link) => link,
            Err(fault) => return Err(fault),
        };
        match self.circuit_on(link, router) {
            None => Err(LabFault::NotOn),
            Some(circuit) => match self.hearing(number, router, circuit) {
                Ok(hearing) => self.take(router, Some(link), hearing.event, hearing.heard),
                Err(_) => self.stop(),
            },
        }
    }

    /// A router restarts in its next boot.
    fn restart(&mut self, router: usize) -> Result<(), LabFault>
        requires there { router < length self.old.seen.routers }
        requires running { self.old.stopped ≡ None }
        ensures { Ending (event.Restart router) self.old self.new result }
    {
        if self.routers[router].boot() >= BOOT_LIMIT {
            return Err(LabFault::Limit(LimitName::Boots));
        }
        self.begun = true;
        match restart_at(&mut self.routers, router) {
            Ok(()) => Ok(()),
            Err(_) => self.stop(),
        }
    }

    /// A router's configuration changes.
    fn change(&mut self, router: usize, change: Change) -> Result<(), LabFault>
        requires there { router < length self.old.seen.routers }
        requires change { IfSome (nth self.old.seen.routers router) (λ r. IsChange r change) }
        requires running { self.old.stopped ≡ None }
        ensures { Ending (event.Change router change) self.old self.new result }
    {
        if let Some(fault) = change_fault(&self.routers[router], change) {
            return Err(fault);
        }
        let config = match changed(self.alloc, self.config(router), change) {
            Ok(config) => config,
            Err(_) => return self.stop(),
        };
        match self.take(router, None, NodeEvent::Change(change), None) {
            Ok(()) => {
                self.put_config(router, config);
                Ok(())
            }
            Err(fault) => Err(fault),
        }
    }

    /// Another configuration of a router, with as many circuits.
    fn put_config(&mut self, router: usize, config: Config)
        requires begun { self.old.begun ≡ true }
        requires there { router < length self.old.configs }
        requires circuits { IfSome (nth self.old.configs router)
            (λ c. length config.circuits ≡ length c.circuits) }
        ensures { self.new ≡ record self.old {
          configs = with_nth self.old.configs router config;
        } }
    {
        put_at(&mut self.configs, router, config);
    }

    /// A router is given octets on its circuit of a link.
    fn inject(&mut self, router: usize, link: usize, octets: Octets) -> Result<(), LabFault>
        requires there { router < length self.old.seen.routers }
        requires running { self.old.stopped ≡ None }
        ensures { Ending (event.Inject router link octets) self.old self.new result }
    {
        match self.circuit_on(link, router) {
            None => Err(LabFault::NotOn),
            Some(circuit) => {
                self.begun = true;
                self.injected = one_more(self.injected);
                self.give(router, link, circuit, octets)
            }
        }
    }

    /// The link on which a datagram is delivered to a router, or why it isn't.
    fn delivered_on(&self, number: usize, router: usize) -> Result<usize, LabFault>
        ensures { result ≡ delivered_on self.now.seen (numbered self.now.seen.sent number) router }
    {
        let sent = self.sent.len();
        if number == 0 || number > sent {
            return Err(LabFault::NotSent { sent });
        }
        let datagram = &self.sent[number - 1];
        if datagram.sender == router {
            return Err(LabFault::NotOn);
        }
        Ok(datagram.link)
    }

    /// The number of a router's circuit on a link, counted from 1.
    pub(crate) fn circuit_on(&self, link: usize, router: usize) -> Option<u8>
        requires { router < length self.now.seen.routers }
        ensures place { option_map (λ circuit. circuit - 1) result
            ≡ place_in (nth self.now.seen.links link) router }
        ensures there { IfSome result (λ circuit. IfSome (nth self.now.seen.routers router) (λ r.
            IsThere r circuit)) }
    {
        let place = place_at(&self.links, link, router)?;
        self.routers[router].facts();
        Some(place as u8 + 1)
    }

    /// A router takes octets on its circuit of a link.
    fn give(
        &mut self,
        router: usize,
        link: usize,
        circuit: u8,
        octets: Octets,
    ) -> Result<(), LabFault>
        requires there { router < length self.old.seen.routers }
        requires circuit { IfSome (nth self.old.seen.routers router) (λ r. IsThere r circuit) }
        requires running { self.old.stopped ≡ None }
        requires happens { IfSome (nth self.old.seen.routers router) (λ r. Happen self.old.seen
            (moved_in self.old.seen router (Some link) (taking r (circuit - 1) octets) r None)) }
        ensures { IfSome (nth self.old.seen.routers router) (λ r. Taken self.old self.new
            (moved_in self.old.seen router (Some link)
            (taking r (circuit - 1) octets) r None) result) }
    {
        let event = taking_at(&self.routers, router, circuit, octets);
        self.take(router, Some(link), event, None)
    }

    /// A router takes an event: what it sends goes out on the link, and the range that it heard is kept, where it
    /// takes that.
    fn take(
        &mut self,
        router: usize,
        link: Option<usize>,
        event: NodeEvent,
        heard: Option<HeardRange>,
    ) -> Result<(), LabFault>
        requires there { router < length self.old.seen.routers }
        requires fits { IfSome (nth self.old.seen.routers router) (λ r. Fits r event) }
        requires running { self.old.stopped ≡ None }
        requires happens { IfSome (nth self.old.seen.routers router) (λ r. Happen self.old.seen
            (moved_in self.old.seen router link (event_of r event) r heard)) }
        ensures { IfSome (nth self.old.seen.routers router) (λ r. Taken self.old self.new
            (moved_in self.old.seen router link (event_of r event) r heard) result) }
    {
        // where nothing was injected, live LSPs come from the routers of their systems
        let seen = self.injected == 0;
        self.begun = true;
        let taken = take_at(
            &mut self.routers,
            &mut self.sent,
            &mut self.notes,
            router,
            link,
            event,
            heard,
            seen,
        );
        self.stopped = taken.err();
        taken
    }

    /// The network stops for want of memory.
    fn stop(&mut self) -> Result<(), LabFault>
        ensures result { result ≡ Err OutOfMemory }
        ensures stopped { self.new ≡ record self.old { begun = true; stopped = Some OutOfMemory } }
    {
        self.begun = true;
        self.stopped = Some(LabFault::OutOfMemory);
        Err(LabFault::OutOfMemory)
    }
}

/// Why a router's configuration isn't changed.
fn change_fault<K: Keeping>(router: &Router<K>, change: Change) -> Option<LabFault>
    ensures { result ≡ unless_changes (Some router.now) change }
{
    match change {
        Change::Prefix {
            prefix,
            metric: Some(_),
        } => {
            if !router.has_prefix(prefix) && router.prefix_count() >= PREFIX_LIMIT {
                return Some(LabFault::Limit(LimitName::Prefixes));
            }
            None
        }
        Change::Prefix {
            prefix: _,
            metric: None,
        }
        | Change::Metric { .. }
        | Change::Overload { .. } => None,
    }
}
