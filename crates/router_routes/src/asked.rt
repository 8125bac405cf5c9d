//! The routes of a router, and what it leaks, computed when asked for (own).
ghost use Rattle.std.specs.Prelude.{◌≡◌, true, map, IfOk};
ghost use Rattle.isis_base.specs.declared.level.Level.{Level};
ghost use Rattle.model_router.specs.Both.{at};
ghost use Rattle.router_routes.specs.Outlooks.{outlook_in};
ghost use Rattle.router_routes.specs.Candidates.{AreRoutesOf, attached_of};
ghost use Rattle.router_routes.specs.Kept.{AreReached};
ghost use Rattle.router_routes.specs.Leaks.{leaked_by, leaks_of, pair_of};

use crate::candidates::{all_candidates, own_node};
use crate::coming::hops_from;
use crate::following::{Reached, all_reached, fresh, tables_of};
use crate::leaks::{leaked, pairs_of};
use crate::lent::Lent;
use crate::view::as_lent;
use isis_base::{Level, LevelSet, OutOfMemory, Prefix};
use model_router::has_level;
use route_table::{Routes, routes_by};
use std::alloc::Global;

/// What a router leaks into a level: prefixes with the metrics that they are leaked at, in order (RFC 5302 3, RFC 5305 4). And
/// whether the router is attached (ISO 10589 7.2.9.2).
#[derive(Drop)]
pub struct Leaked {
    pub prefixes: Vec<(Prefix, u32)>,
    pub attached: bool,
}

impl Lent<'_> {
    /// The routes, in order of prefix (RFC 5302 3.2).
    pub fn routes(&self, alloc: Global) -> Result<Routes, OutOfMemory>
        ensures { IfOk result (AreRoutesOf (outlook_in self.now)) }
    {
        let root = own_node(self.system);
        let one = fresh(alloc, has_level(self.levels, Level::One), self.one, root)?;
        let two = fresh(alloc, has_level(self.levels, Level::Two), self.two, root)?;
        let view = as_lent(self);
        let reached = all_reached(alloc, &view, &one, &two)?;
        let tables = tables_of(alloc, &view, &reached, &one, &two)?;
        Ok(tables.routes)
    }

    /// What is leaked into a level that is run, and whether the router is attached. A router of one level leaks nothing.
    pub fn leaked(&self, alloc: Global, level: Level) -> Result<Leaked, OutOfMemory>
        requires { at (outlook_in self.now).runs level ≡ true }
        ensures prefixes { IfOk result (λ leaked. map pair_of leaked.prefixes.items ≡ leaks_of (outlook_in self.now) level) }
        ensures attached { IfOk result (λ leaked. leaked.attached ≡ attached_of (outlook_in self.now)) }
    {
        match self.levels {
            LevelSet::Both => self.leaked_between(alloc, level),
            LevelSet::One | LevelSet::Two => Ok(Leaked {
                prefixes: Vec::new(alloc),
                attached: false,
            }),
        }
    }

    /// What is leaked into a level by the ranks and costs of the best routes; next hops aren't looked for.
    fn leaked_between(&self, alloc: Global, level: Level) -> Result<Leaked, OutOfMemory>
        ensures prefixes { IfOk result (λ leaked. map pair_of leaked.prefixes.items ≡ leaks_of (outlook_in self.now) level) }
        ensures attached { IfOk result (λ leaked. leaked.attached ≡ attached_of (outlook_in self.now)) }
    {
        let root = own_node(self.system);
        let one = fresh(alloc, has_level(self.levels, Level::One), self.one, root)?;
        let two = fresh(alloc, has_level(self.levels, Level::Two), self.two, root)?;
        let reached = all_reached(alloc, &as_lent(self), &one, &two)?;
        let routes = self.unrouted(alloc, &reached)?;
        let items = leaked(alloc, &routes, level)?;
        let prefixes = pairs_of(alloc, items.as_slice())?;
        Ok(Leaked {
            prefixes,
            attached: reached.attached,
        })
    }

    /// The routes of what is reached, without their next hops.
    fn unrouted(&self, alloc: Global, reached: &Reached) -> Result<Routes, OutOfMemory>
        requires { AreReached (outlook_in self.now) reached.now.told.items reached.now.attached }
        ensures { IfOk result (λ routes. (level : Level) → leaked_by level routes ≡ leaks_of (outlook_in self.now) level) }
    {
        let candidates = all_candidates(
            alloc,
            &as_lent(self),
            reached.told.as_slice(),
            reached.attached,
        )?;
        let hops = hops_from(
            alloc,
            &fresh(alloc, false, self.one, own_node(self.system))?,
        )?;
        routes_by(alloc, candidates.as_slice(), &hops, &hops)
    }
}
