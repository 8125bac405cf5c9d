//! The links of each router's circuits.
ghost use Rattle.std.specs.Prelude.{map, IfOk};
ghost use Rattle.weave.specs.Woven.{AreRows};

use isis_base::OutOfMemory;
use network_lab::Network;
use std::alloc::Global;

/// The links of each router's circuits, in order.
pub(crate) fn rows_of(alloc: Global, network: &Network) -> Result<Vec<Vec<usize>>, OutOfMemory>
    ensures { IfOk result (λ rows. AreRows network.now.seen.routers network.now.seen.links
        (map (λ row. row.items) rows.items)) }
{
    let mut rows = Vec::new(alloc);
    for router in 0..network.routers() {
        match Vec::from_slice(alloc, network.ports(router)) {
            Ok(row) => rows.push(row)?,
            Err(_) => return Err(OutOfMemory),
        }
    }
    Ok(rows)
}
