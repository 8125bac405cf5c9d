//! A network of routers that kept no routes, once they do.
ghost use Rattle.std.specs.Prelude.{◌≡◌, ◌++◌, ◌∷◌, [], IfOk, OnOk};

use crate::network::Network;
use isis_base::OutOfMemory;
use router_core::{Asked, Machine, Router};
use std::alloc::Global;

impl Network<Asked> {
    /// The same network, whose routers keep their routes from now on.
    pub fn with_routes(self) -> Result<Network, OutOfMemory>
        ensures { IfOk result (λ net. net ≡ self) }
    {
        let Network {
            alloc,
            configs,
            routers,
            links,
            ordered,
            ports,
            sent,
            injected,
            notes,
            begun,
            stopped,
        } = self;
        let routers = routers_with_routes(alloc, routers)?;
        Ok(Network {
            alloc,
            configs,
            routers,
            links,
            ordered,
            ports,
            sent,
            injected,
            notes,
            begun,
            stopped,
        })
    }
}

/// The same routers, which keep their routes from now on.
fn routers_with_routes(alloc: Global, routers: Vec<Machine>) -> Result<Vec<Router>, OutOfMemory>
    ensures { IfOk result (λ list. list.items ≡ routers.items) }
{
    let mut list = Vec::new(alloc);
    let mut left = routers.into_iter();
    while let Some(router) = left.next() {
        match add_with_routes(&mut list, router) {
            Ok(()) => {}
            Err(error) => return Err(error),
        }
    }
    Ok(list)
}

/// Adds the same router, which keeps its routes from now on.
fn add_with_routes(list: &mut Vec<Router>, router: Machine) -> Result<(), OutOfMemory>
    ensures { OnOk result (list.new.items ≡ list.old.items ++ router ∷ []) }
{
    let router = router.with_routes()?;
    match list.push(router) {
        Ok(()) => Ok(()),
        Err(refused) => {
            drop(refused);
            Err(OutOfMemory)
        }
    }
}
