//! How the links of a network stand, and which routers agree.
ghost use Rattle.std.specs.Prelude.{◌≡◌, ◌<◌, ◌+◌, ◌++◌, drop, length, Some, None, IfSome, IfOk, OnOk};
ghost use Rattle.std.specs.List.{flat_map};
ghost use Rattle.model_router.specs.Places.{nth};
ghost use Rattle.router_desk.specs.Desks as desk;
ghost use Rattle.router_core.specs.Events.{IsThere};
ghost use Rattle.lab_facts.specs.LinkStates.{no_state as no_link_state};
ghost use Rattle.network_lab.specs.Claims.{IsEndIn};
ghost use Rattle.network_lab.specs.LinkStates as state;
ghost use Rattle.network_lab.specs.LinkStates.{state_at, groups_at, IsWithin};

use crate::network::Network;
use isis_base::{CircuitKind, Level, OutOfMemory};
use lab_facts::{Groups, LinkState, joined_groups, link_state};
use model_network::End;
use router_core::{Keeping, Router};

impl<K: Keeping> Network<K> {
    /// How the two ends of a point-to-point link stand at a level. All its numbers are 0 where an
    /// end doesn't run the level, and of a LAN. Where the link is up, the run wasn't stopped and nothing was
    /// injected, no end is ahead in more LSP IDs than its SRM flags on the link (ISO 10589 7.3.17).
    pub fn link_state(&self, link: usize, level: Level) -> LinkState
        requires { link < length self.now.seen.links }
        ensures state { IfSome (nth self.now.seen.links link)
            (λ ends. result ≡ state_at self.now.seen.routers ends level) }
        ensures within { self.now.stopped ≡ None → self.now.seen.injected ≡ 0 → IsWithin result }
    {
        self.facts();
        match self.pair(link) {
            Some((near, far)) => self.pair_state(near, far, level),
            None => no_state(),
        }
    }

    /// The groups of the routers that run a level: those that are joined by links that are up and
    /// without flags, and each member of a LAN with the end that sweeps it.
    pub fn agreed(&self, level: Level) -> Result<Groups, OutOfMemory>
        ensures { IfOk result (λ groups. groups ≡ groups_at self.now.seen level) }
    {
        let runs = self.running_routers(level)?;
        let pairs = self.pairs(level)?;
        joined_groups(self.alloc, &runs, &pairs)
    }

    /// The two ends of a link; none of a LAN.
    fn pair(&self, link: usize) -> Option<(End, End)>
        requires { link < length self.now.seen.links }
        ensures pair { IfSome (nth self.now.seen.links link) (λ ends. result ≡ state.pair_of ends) }
        ensures there { IfSome result (λ pair. IsEndIn self.now.seen.routers pair.0
            × IsEndIn self.now.seen.routers pair.1) }
    {
        self.facts();
        pair_of(self.ends(link))
    }

    /// How two ends stand at a level.
    fn pair_state(&self, near: End, far: End, level: Level) -> LinkState
        requires near { IsEndIn self.now.seen.routers near }
        requires far { IsEndIn self.now.seen.routers far }
        ensures { result ≡ state.state_of_ends self.now.seen.routers level (near, far) }
    {
        if !self.is_point(near, level) || !self.is_point(far, level) {
            return no_state();
        }
        self.state_between(near, far, level)
    }

    /// How two ends of a point-to-point link stand at a level.
    fn state_between(&self, near: End, far: End, level: Level) -> LinkState
        requires near { IsEndIn self.now.seen.routers near }
        requires far { IsEndIn self.now.seen.routers far }
        ensures { result ≡ state.state_between (nth self.now.seen.routers near.router) near.place
            (nth self.now.seen.routers far.router) far.place level }
    {
        let near_circuit = self.circuit_of(near);
        let far_circuit = self.circuit_of(far);
        let near_router = self.router_of(near);
        let far_router = self.router_of(far);
        link_state(near_router, near_circuit, far_router, far_circuit, level)
    }

    /// Whether an end's circuit is point-to-point and its router runs the level.
    fn is_point(&self, end: End, level: Level) -> bool
        requires { IsEndIn self.now.seen.routers end }
        ensures { result
            ≡ state.is_point_in (nth self.now.seen.routers end.router) end.place level }
    {
        let circuit = self.circuit_of(end);
        let router = self.router_of(end);
        router.book(level).is_some() && is_point(router.desk().kind(circuit))
    }

    /// The router of an end.
    fn router_of(&self, end: End) -> &Router<K>
        requires { IsEndIn self.now.seen.routers end }
        ensures { nth self.now.seen.routers end.router ≡ Some result.now }
    {
        self.router(end.router)
    }

    /// The number of an end's circuit, counted from 1.
    fn circuit_of(&self, end: End) -> u8
        requires { IsEndIn self.now.seen.routers end }
        ensures number { result ≡ end.place + 1 }
        ensures there { IfSome (nth self.now.seen.routers end.router) (λ r. IsThere r result) }
    {
        self.router_of(end).facts();
        end.place as u8 + 1
    }

    /// For each router, whether it runs a level.
    fn running_routers(&self, level: Level) -> Result<Vec<bool>, OutOfMemory>
        ensures { IfOk result (λ runs. runs.items ≡ state.runs_of self.now.seen.routers level) }
    {
        let mut runs = Vec::new(self.alloc);
        for router in 0..self.routers() {
            match self.add_run(&mut runs, router, level) {
                Ok(()) => {}
                Err(error) => return Err(error),
            }
        }
        Ok(runs)
    }

    /// Adds whether a router runs a level.
    fn add_run(&self, runs: &mut Vec<bool>, router: usize, level: Level) -> Result<(), OutOfMemory>
        requires { router < length self.now.seen.routers }
        ensures { OnOk result (runs.new.items
            ++ state.runs_of (drop (router + 1) self.now.seen.routers) level
            ≡ runs.old.items ++ state.runs_of (drop router self.now.seen.routers) level) }
    {
        runs.push(self.runs_at(router, level))?;
        Ok(())
    }

    /// Whether a router runs a level.
    fn runs_at(&self, router: usize, level: Level) -> bool
        requires { router < length self.now.seen.routers }
        ensures { result ≡ state.runs_at self.now.seen.routers router level }
    {
        self.router(router).book(level).is_some()
    }

    /// The pairs of routers that clean links join at a level, and of swept members and the ends that sweep them.
    fn pairs(&self, level: Level) -> Result<Vec<(usize, usize)>, OutOfMemory>
        ensures { IfOk result (λ pairs. pairs.items ≡ state.pairs_of self.now.seen level) }
    {
        let mut pairs = Vec::new(self.alloc);
        for link in 0..self.links() {
            match self.add_pairs(&mut pairs, link, level) {
                Ok(()) => {}
                Err(error) => return Err(error),
            }
        }
        Ok(pairs)
    }

    /// Adds the pairs of routers that a link or LAN joins at a level.
    fn add_pairs(
        &self,
        pairs: &mut Vec<(usize, usize)>,
        link: usize,
        level: Level,
    ) -> Result<(), OutOfMemory>
        requires { link < length self.now.seen.links }
        ensures { OnOk result (pairs.new.items ++ state.pairs_from self.now.seen level (link + 1)
            (drop (link + 1) self.now.seen.links)
            ≡ pairs.old.items ++ state.pairs_from self.now.seen level link
            (drop link self.now.seen.links)) }
    {
        match self.add_pair(pairs, link, level) {
            Ok(()) => self.add_swept(pairs, link, level),
            Err(error) => Err(error),
        }
    }

    /// Adds the pair of routers that a link joins at a level, if any.
    fn add_pair(
        &self,
        pairs: &mut Vec<(usize, usize)>,
        link: usize,
        level: Level,
    ) -> Result<(), OutOfMemory>
        requires { link < length self.now.seen.links }
        ensures { OnOk result (IfSome (nth self.now.seen.links link) (λ ends. pairs.new.items
            ≡ pairs.old.items ++ state.joined_by self.now.seen.routers level ends)) }
    {
        match self.joined_by(link, level) {
            Some(pair) => {
                pairs.push(pair)?;
                Ok(())
            }
            None => Ok(()),
        }
    }

    /// Adds the members of a LAN that are swept at a level, each with the end that sweeps it.
    fn add_swept(
        &self,
        pairs: &mut Vec<(usize, usize)>,
        link: usize,
        level: Level,
    ) -> Result<(), OutOfMemory>
        requires { link < length self.now.seen.links }
        ensures { OnOk result (IfSome (nth self.now.seen.links link) (λ ends. pairs.new.items
            ≡ pairs.old.items ++ flat_map (state.swept_pair self.now.seen link level) ends)) }
    {
        for place in 0..self.ends(link).len() {
            match self.add_member(pairs, link, place, level) {
                Ok(()) => {}
                Err(error) => return Err(error),
            }
        }
        Ok(())
    }

    /// Adds a member of a LAN, where it is swept at a level, with the end that sweeps it.
    fn add_member(
        &self,
        pairs: &mut Vec<(usize, usize)>,
        link: usize,
        place: usize,
        level: Level,
    ) -> Result<(), OutOfMemory>
        requires link { link < length self.now.seen.links }
        requires place { IfSome (nth self.now.seen.links link) (λ ends. place < length ends) }
        ensures { OnOk result (IfSome (nth self.now.seen.links link) (λ ends. pairs.new.items
            ++ flat_map (state.swept_pair self.now.seen link level) (drop (place + 1) ends)
            ≡ pairs.old.items
            ++ flat_map (state.swept_pair self.now.seen link level) (drop place ends))) }
    {
        self.facts();
        let member = self.ends(link)[place].router;
        match self.sweeper(link, member, level) {
            Some(other) => {
                pairs.push((member, other))?;
                Ok(())
            }
            None => Ok(()),
        }
    }

    /// The pair of routers that a link joins at a level, if any.
    fn joined_by(&self, link: usize, level: Level) -> Option<(usize, usize)>
        requires { link < length self.now.seen.links }
        ensures { IfSome (nth self.now.seen.links link) (λ ends. result
            ≡ state.joined_pair self.now.seen.routers level (state.pair_of ends)) }
    {
        let (near, far) = self.pair(link)?;
        if is_clean(self.pair_state(near, far, level)) {
            return Some((near.router, far.router));
        }
        None
    }
}

/// Whether a circuit is point-to-point.
fn is_point(kind: CircuitKind) -> bool
    ensures { result ≡ desk.is_point kind }
{
    match kind {
        CircuitKind::PointToPoint => true,
        CircuitKind::Lan => false,
    }
}

/// The two ends of a link.
fn pair_of(ends: &[End]) -> Option<(End, End)>
    ensures { result ≡ state.pair_of ends.now }
{
    if ends.len() != 2 {
        return None;
    }
    Some((ends[0], ends[1]))
}

/// Whether a link is up, and no SRM flag stands on it (ISO 10589 7.3.15).
fn is_clean(link: LinkState) -> bool
    ensures { result ≡ state.is_clean link }
{
    let [near, far] = link.flags;
    link.up && near == 0 && far == 0
}

/// The state of what is no point-to-point link.
fn no_state() -> LinkState
    ensures { result ≡ no_link_state }
{
    LinkState {
        up: false,
        flags: [0, 0],
        ahead: [0, 0],
        excepted: 0,
    }
}
