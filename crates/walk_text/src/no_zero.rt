//! Whether a router lists a neighbour at metric 0.
ghost use Rattle.std.specs.Prelude.{◌≡◌, false, IfOk};
ghost use Rattle.std.specs.List.{list_any};
ghost use Rattle.lsp_store.specs.Databases.{live_of};
ghost use Rattle.walk_text.specs.Tests.{ListsNoZero};
ghost use Rattle.walk_text.specs.Zeros.{has_zero, lists_zero};

use crate::level_one::level_one;
use crate::nodes::{number, system_number, system_of};
use crate::test::Test;
use isis_base::OutOfMemory;
use isis_tlv::NeighbourItem;
use isis_tlv::codes::NEIGHBOURS;
use lsp_store::Store;
use lsp_view::parts::add_items;
use router_core::Router;
use std::alloc::Global;

/// That a router's own LSPs list no neighbour at metric 0 (RFC 5305 3).
#[derive(Drop)]
pub(crate) struct NoZero {
    pub(crate) alloc: Global,
}

impl Test for NoZero {
    ghost needs = { λ test r. r.config.runs.two ≡ false };

    ghost has = { λ test look. ListsNoZero look };

    fn passes(&self, router: &Router) -> Result<bool, OutOfMemory> {
        let node = system_number(system_of(router));
        let zero = lists_zero(self.alloc, level_one(router), node)?;
        Ok(!zero)
    }
}

/// Whether a live LSP of a node lists a neighbour at metric 0.
fn lists_zero(alloc: Global, store: &Store, node: u64) -> Result<bool, OutOfMemory>
    ensures { IfOk result (λ yes. yes ≡ list_any (lists_zero node) (live_of store.now.entries)) }
{
    let mut items = Vec::new(alloc);
    for (id, entry) in store.live() {
        if number(id.node) == node {
            items.clear();
            add_items::<NeighbourItem>(&mut items, NEIGHBOURS, entry.octets.as_slice())?;
            if has_zero(items.as_slice()) {
                return Ok(true);
            }
        }
    }
    Ok(false)
}

/// Whether a neighbour is listed at metric 0.
fn has_zero(items: &[NeighbourItem]) -> bool
    ensures { result ≡ has_zero items.now }
{
    items.iter().any(|item| item.metric == 0)
}
