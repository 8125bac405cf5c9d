//! A level's next hops once its costs are others, and what is other of both (own).
ghost use Rattle.std.specs.Prelude.{IfOk};
ghost use Rattle.router_routes.specs.Following.{AreHopsOf};
ghost use Rattle.router_routes.specs.Coming.{AreOfOneRoot, CostsStay, HopsStay};

use crate::coming::hops_from;
use crate::numbers::in_order;
use isis_base::OutOfMemory;
use spf_repair::Repaired;
use spf_tree::HopTable;
use std::alloc::Global;

/// The nodes of a level beside their next hops, as they will be; the nodes whose next hops may be others then; and those whose
/// costs may be, each once, since each is read again.
#[derive(Drop)]
pub(crate) struct HopsMoved {
    pub table: HopTable,
    pub apart: Vec<u64>,
    pub moved: Vec<u64>,
}

/// The nodes of a level beside their next hops at new costs, and what is other of both than at the old ones.
pub(crate) fn hops_moved(
    alloc: Global,
    old: &Repaired,
    known: &HopTable,
    new: &Repaired,
) -> Result<HopsMoved, OutOfMemory>
    requires { AreOfOneRoot old.now new.now }
    ensures right { IfOk result (λ hops. AreHopsOf new.now hops.table) }
    ensures apart { IfOk result (λ hops. HopsStay hops.apart.items known.now hops.table) }
    ensures moved { IfOk result (λ hops.
        CostsStay hops.moved.items old.now.distances new.now.distances) }
{
    let (before, after) = (old.distances(), new.distances());
    let moved = match before.apart(alloc, after) {
        Ok(unsorted) => in_order(unsorted),
        Err(error) => return Err(error),
    };
    let table = match hops_from(alloc, new) {
        Ok(table) => table,
        Err(error) => return Err(error),
    };
    match known.apart(alloc, &table) {
        Ok(apart) => Ok(HopsMoved {
            table,
            apart,
            moved,
        }),
        Err(error) => Err(error),
    }
}
