//! How the members of LANs stand.
ghost use Rattle.std.specs.Prelude.{◌≡◌, ◌-◌, ◌==◌, ◌<◌, true, length, Some, IfSome, IsSome};
ghost use Rattle.std.specs.Option.{option_map};
ghost use Rattle.model_router.specs.Numbers.{system_id, system_number};
ghost use Rattle.model_router.specs.Places.{nth};
ghost use Rattle.router_core.specs.Events.{IsThere};
ghost use Rattle.model_network.specs.Networks.{place_in};
ghost use Rattle.network_lab.specs.LanStates as state;
ghost use Rattle.network_lab.specs.LanStates.{lan_state_at, sees_at, sweeper_at, swept_by, router_in as router_among};

use crate::lan_state::LanState;
use crate::network::Network;
use isis_base::{Level, SystemId};
use lab_facts::SweepKey;
use model_network::End;
use model_router::laws::identifiers::system_law;
use router_core::{Keeping, Router};

impl<K: Keeping> Network<K> {
    /// Whom a member of a LAN has designated at a level (ISO 10589 8.4.5), and whether it is swept by that: it took all
    /// of a set of CSNPs without a flag, at the present boots and counts of changed keys of both, and these are still
    /// counted (7.3.15.2). `None` and false on a point-to-point link, and where the level isn't run.
    #[tactic(auto, unfolding(crate::specs::LanStates::lan_state_at))]
    pub fn lan_state(&self, lan: usize, member: usize, level: Level) -> LanState
        requires there { lan < length self.now.seen.links }
        requires on { IsSome (place_in (nth self.now.seen.links lan) member) }
        ensures { result ≡ lan_state_at self.now.seen lan member level }
    {
        self.facts();
        let sees = self.sees(lan, member, level);
        let swept = self.sweeper(lan, member, level).is_some();
        LanState { sees, swept }
    }

    /// The system that a member has designated at a level.
    fn sees(&self, lan: usize, member: usize, level: Level) -> Option<SystemId>
        requires { member < length self.now.seen.routers }
        ensures number { option_map system_number result ≡ sees_at self.now.seen lan member level }
        ensures system { result ≡ option_map system_id (sees_at self.now.seen lan member level) }
    {
        let circuit = self.circuit_on(lan, member)?;
        designated_by(self.router(member), circuit, level)
    }

    /// The other end of a LAN by which a member is swept at a level.
    pub fn sweeper(&self, lan: usize, member: usize, level: Level) -> Option<usize>
        requires there { lan < length self.now.seen.links }
        requires member { member < length self.now.seen.routers }
        ensures { result ≡ sweeper_at self.now.seen lan member level }
    {
        let system = self.sees(lan, member, level)?;
        let other = router_in(&self.routers, self.ends(lan), system)?;
        if other == member || !self.is_swept(lan, member, other, level) {
            return None;
        }
        Some(other)
    }

    /// Whether a member of a LAN is swept at a level by another router.
    fn is_swept(&self, lan: usize, member: usize, other: usize, level: Level) -> bool
        requires member { member < length self.now.seen.routers }
        requires other { other < length self.now.seen.routers }
        ensures { result ≡ swept_by self.now.seen lan level member other }
    {
        let (here, there) = (self.router(member), self.router(other));
        let key = SweepKey {
            link: lan,
            level,
            member,
            sender: other,
            boot: here.boot(),
            changes: here.changes(level),
            sent_boot: there.boot(),
            sent_changes: there.changes(level),
        };
        key.changes < u64::MAX && key.sent_changes < u64::MAX && self.notes.takings.is_whole(key)
    }
}

/// The system that a router has designated on a circuit, counted from 1, at a level that it runs.
fn designated_by<K: Keeping>(router: &Router<K>, circuit: u8, level: Level) -> Option<SystemId>
    requires { IsThere router.now circuit }
    ensures number { option_map system_number result
        ≡ state.seen_by (Some router.now) (Some (circuit - 1)) level }
    ensures system { result
        ≡ option_map system_id (state.seen_by (Some router.now) (Some (circuit - 1)) level) }
{
    if router.book(level).is_none() {
        return None;
    }
    let system = router.designated(circuit, level)?;
    system_law(system);
    Some(system)
}

/// The router of a system among ends.
fn router_in<K: Keeping>(routers: &[Router<K>], ends: &[End], system: SystemId) -> Option<usize>
    ensures router { result ≡ router_among routers.now (system_number system) ends.now }
    ensures there { IfSome result (λ router. router < length routers.now) }
{
    for end in ends {
        if is_of(routers, end.router, system) {
            return Some(end.router);
        }
    }
    None
}

/// Whether a router has a system ID; where it isn't there it has none.
fn is_of<K: Keeping>(routers: &[Router<K>], router: usize, system: SystemId) -> bool
    ensures of { result ≡ state.has_system (nth routers.now router) (system_number system) }
    ensures there { result ≡ true → router < length routers.now }
{
    match routers.get(router) {
        Some(router) => has_system(router, system),
        None => false,
    }
}

/// Whether a router has a system ID.
fn has_system<K: Keeping>(router: &Router<K>, system: SystemId) -> bool
    ensures { result ≡ (router.now.config.system == system_number system) }
{
    let own = router.desk().system();
    system_law(own);
    system_law(system);
    own == system
}
