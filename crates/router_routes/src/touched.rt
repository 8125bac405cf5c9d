//! The prefixes whose routes are looked at anew once some nodes moved (own).
ghost use Rattle.std.specs.Prelude.{◌≡◌, ◌++◌, ℕ, not, filter, map, IfOk, OnOk};
ghost use Rattle.std.specs.List.Sorted.{IsStrictlyIncreasing};
ghost use Rattle.isis_base.specs.declared.prefix.Prefix.{Prefix};
ghost use Rattle.spf_tree.specs.Nodes.{node_number};
ghost use Rattle.route_table.specs.Ranks.{prefix_number};
ghost use Rattle.route_table.specs.Patches.{IsListed, is_moved};
ghost use Rattle.router_routes.specs.Outlooks.{outlook_in};
ghost use Rattle.router_routes.specs.Moved.{AreViewed, is_among, outlook_at};
ghost use Rattle.router_routes.specs.Following.{IsFollowing};
ghost use Rattle.router_routes.specs.Coming.{AreLevels, HopsStay, apart_in, hops_after};
ghost use Rattle.router_routes.specs.Touched.{AreApartBeside, AreStill, AreTouched, HaveOwn, IsReachedAfter};

use crate::coming::{LevelAfter, LevelsAfter, ReachedAfter};
use crate::following::Following;
use crate::lent::Lent;
use crate::numbers::{in_order, is_one_of};
use crate::own::own_apart;
use crate::told::Told;
use crate::view::View;
use isis_base::{NodeId, OutOfMemory, Prefix};
use spf_tree::parts::number;
use std::alloc::Global;

impl Following {
    /// The prefixes that are looked at anew, where these nodes moved, levels are these and this is
    /// reached: 0.0.0.0/0, one's own that come, go or have another metric, those that moved nodes told
    /// and tell, and those that nodes tell whose next hops may be others, in any order; some may be there twice.
    pub(crate) fn touched(
        &self,
        lent: &Lent<'_>,
        told: &Told<'_>,
        view: &View<'_>,
        nodes: &[NodeId],
        levels: &LevelsAfter,
        reached: &ReachedAfter,
    ) -> Result<Vec<Prefix>, OutOfMemory>
        requires follows { IsFollowing (outlook_in lent.now) self.now }
        requires viewed { AreViewed lent.now told.now view.now }
        requires still { AreStill nodes.now (outlook_in lent.now) (outlook_at view.now) }
        requires levels { AreLevels (outlook_at view.now) self.now levels.now }
        requires reached { IsReachedAfter nodes.now (outlook_in lent.now) (outlook_at view.now) self.now reached.now }
        ensures { IfOk result (λ prefixes. AreTouched nodes.now (outlook_in lent.now) (outlook_at view.now)
            self.now levels.now prefixes.items) }
    {
        let beside = self.apart_beside(nodes, levels)?;
        let mut prefixes = own_touched(self.alloc, lent, told, view)?;
        add_listed(&mut prefixes, reached.prefixes.as_slice())?;
        self.told.add_prefixes(&mut prefixes, beside.as_slice())?;
        Ok(prefixes)
    }

    /// The numbers of nodes beside these whose next hops may be others in a level, in order.
    fn apart_beside(&self, nodes: &[NodeId], levels: &LevelsAfter) -> Result<Vec<u64>, OutOfMemory>
        requires one { HopsStay (apart_in levels.now.one) self.now.hops.one
            (hops_after levels.now.one self.now.hops.one) }
        requires two { HopsStay (apart_in levels.now.two) self.now.hops.two
            (hops_after levels.now.two self.now.hops.two) }
        ensures { IfOk result (λ numbers.
            AreApartBeside nodes.now self.now levels.now numbers.items) }
    {
        let unsorted = node_numbers(self.alloc, nodes)?;
        let moved = in_order(unsorted);
        let mut beside = Vec::new(self.alloc);
        add_apart(&mut beside, moved.as_slice(), &levels.one)?;
        add_apart(&mut beside, moved.as_slice(), &levels.two)?;
        Ok(in_order(beside))
    }
}

/// The numbers of nodes.
pub(crate) fn node_numbers(alloc: Global, nodes: &[NodeId]) -> Result<Vec<u64>, OutOfMemory>
    ensures { IfOk result (λ numbers. numbers.items ≡ map node_number nodes.now) }
{
    let mut numbers = match Vec::with_capacity(alloc, nodes.len()) {
        Ok(numbers) => numbers,
        Err(_) => return Err(OutOfMemory),
    };
    for node in nodes {
        match numbers.push(number(*node)) {
            Ok(()) => {}
            Err(_) => return Err(OutOfMemory),
        }
    }
    Ok(numbers)
}

/// Adds the nodes beside some whose next hops may be others, where a level has new ones.
fn add_apart(
    numbers: &mut Vec<u64>,
    moved: &[u64],
    level: &Option<LevelAfter>,
) -> Result<(), OutOfMemory>
    requires { IsStrictlyIncreasing moved.now }
    ensures { OnOk result (numbers.new.items
        ≡ numbers.old.items ++ filter (λ n. not (is_moved moved.now n)) (apart_in level.now)) }
{
    match level {
        None => Ok(()),
        Some(level) => add_others(numbers, moved, level.apart.as_slice()),
    }
}

/// Adds those of some numbers that aren't among others.
fn add_others(numbers: &mut Vec<u64>, moved: &[u64], more: &[u64]) -> Result<(), OutOfMemory>
    requires { IsStrictlyIncreasing moved.now }
    ensures { OnOk result (numbers.new.items
        ≡ numbers.old.items ++ filter (λ n. not (is_moved moved.now n)) more.now) }
{
    let mut left = more;
    while let [first, others @ ..] = left {
        if !is_one_of(moved, *first) {
            match numbers.push(*first) {
                Ok(()) => {}
                Err(_) => return Err(OutOfMemory),
            }
        }
        left = others;
    }
    Ok(())
}

/// 0.0.0.0/0, and where others are told of one's own prefixes, those that aren't in both lists.
fn own_touched(
    alloc: Global,
    lent: &Lent<'_>,
    told: &Told<'_>,
    view: &View<'_>,
) -> Result<Vec<Prefix>, OutOfMemory>
    requires viewed { AreViewed lent.now told.now view.now }
    ensures all { IfOk result (λ prefixes. IsListed prefixes.items 0) }
    ensures own { IfOk result (λ prefixes. HaveOwn (outlook_in lent.now).prefixes
        (outlook_at view.now).prefixes prefixes.items) }
{
    let mut prefixes = Vec::new(alloc);
    match prefixes.push(for_all()) {
        Ok(()) => {}
        Err(_) => return Err(OutOfMemory),
    }
    match told.prefixes {
        None => Ok(prefixes),
        Some(_) => {
            let (old, new) = own_apart(lent.prefixes, view.prefixes);
            add_own(&mut prefixes, old)?;
            add_own(&mut prefixes, new)?;
            Ok(prefixes)
        }
    }
}

/// 0.0.0.0/0.
fn for_all() -> Prefix
    ensures { prefix_number result ≡ 0 }
{
    Prefix::new(0, 0).unwrap()
}

/// Adds one's own prefixes.
fn add_own(prefixes: &mut Vec<Prefix>, own: &[(Prefix, u32)]) -> Result<(), OutOfMemory>
    ensures { OnOk result (prefixes.new.items
        ≡ prefixes.old.items ++ map (λ (one : Prefix × ℕ). one.0) own.now) }
{
    for one in own {
        match prefixes.push(one.0) {
            Ok(()) => {}
            Err(_) => return Err(OutOfMemory),
        }
    }
    Ok(())
}

/// Adds prefixes.
fn add_listed(prefixes: &mut Vec<Prefix>, more: &[Prefix]) -> Result<(), OutOfMemory>
    ensures { OnOk result (prefixes.new.items ≡ prefixes.old.items ++ more.now) }
{
    match prefixes.extend_from_slice(more) {
        Ok(()) => Ok(()),
        Err(_) => Err(OutOfMemory),
    }
}
