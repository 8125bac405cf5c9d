//! A router's routes once some nodes moved: those of touched prefixes are looked at anew (own).
ghost use Rattle.std.specs.Prelude.{◌≡◌, map, IfOk};
ghost use Rattle.isis_base.specs.Prefixes.{prefix_number};
ghost use Rattle.router_routes.specs.Outlooks.{outlook_in};
ghost use Rattle.router_routes.specs.Following.{IsFollowing};
ghost use Rattle.router_routes.specs.Moved.{AreViewed, outlook_at};
ghost use Rattle.router_routes.specs.Coming.{AreLevels, AreRoutesAfter};
ghost use Rattle.router_routes.specs.Touched.{AreStill, IsReachedAfter};

use crate::candidates::candidates_for;
use crate::coming::{LevelsAfter, ReachedAfter, newest_hops};
use crate::following::Following;
use crate::lent::Lent;
use crate::numbers::in_order;
use crate::told::Told;
use crate::view::View;
use isis_base::{NodeId, OutOfMemory, Prefix};
use route_table::{Patches, patches_for};
use std::alloc::Global;

impl Following {
    /// What the routes of touched prefixes become, where these nodes moved, levels are these and this is reached.
    pub(crate) fn routes_after(
        &self,
        lent: &Lent<'_>,
        told: &Told<'_>,
        view: &View<'_>,
        nodes: &[NodeId],
        levels: &LevelsAfter,
        reached: &ReachedAfter,
    ) -> Result<Patches, OutOfMemory>
        requires follows { IsFollowing (outlook_in lent.now) self.now }
        requires viewed { AreViewed lent.now told.now view.now }
        requires still { AreStill nodes.now (outlook_in lent.now) (outlook_at view.now) }
        requires levels { AreLevels (outlook_at view.now) self.now levels.now }
        requires reached { IsReachedAfter nodes.now (outlook_in lent.now) (outlook_at view.now) self.now reached.now }
        ensures { IfOk result (λ routes.
            AreRoutesAfter (outlook_at view.now) self.now.routes routes) }
    {
        let prefixes = self.touched(lent, told, view, nodes, levels, reached)?;
        let unsorted = prefix_numbers(self.alloc, prefixes.as_slice())?;
        let numbers = in_order(unsorted);
        let candidates = candidates_for(
            self.alloc,
            view,
            &self.told,
            &reached.told,
            reached.attached,
            numbers.as_slice(),
        )?;
        let one = newest_hops(&levels.one, &self.hops_one);
        let two = newest_hops(&levels.two, &self.hops_two);
        patches_for(
            self.alloc,
            self.routes(),
            prefixes,
            candidates.as_slice(),
            one,
            two,
        )
    }
}

/// The numbers of prefixes.
fn prefix_numbers(alloc: Global, prefixes: &[Prefix]) -> Result<Vec<u64>, OutOfMemory>
    ensures { IfOk result (λ numbers. numbers.items ≡ map prefix_number prefixes.now) }
{
    let mut numbers = match Vec::with_capacity(alloc, prefixes.len()) {
        Ok(numbers) => numbers,
        Err(_) => return Err(OutOfMemory),
    };
    for prefix in prefixes {
        match numbers.push(prefix.to_number()) {
            Ok(()) => {}
            Err(_) => return Err(OutOfMemory),
        }
    }
    Ok(numbers)
}
