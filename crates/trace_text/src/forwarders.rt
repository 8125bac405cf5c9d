//! The routers of a network as packets meet them.
ghost use Rattle.std.specs.Prelude.{◌≡◌, IfOk};
ghost use Rattle.router_routes.specs.Outlooks.{outlook_of};
ghost use Rattle.trace_text.specs.Forwarders.{IsForwarder, AreForwarders};

use isis_base::{OutOfMemory, SystemId};
use model_router::laws::identifiers::system_law;
use network_lab::Network;
use packet_trace::Forwarder;
use router_core::Router;
use std::alloc::Global;

/// The system and the routes of each router.
pub fn forwarders_of(alloc: Global, network: &Network) -> Result<Vec<Forwarder>, OutOfMemory>
    ensures { IfOk result (λ forwarders.
        AreForwarders network.now.seen.routers forwarders.items) }
{
    let mut forwarders = Vec::new(alloc);
    for place in 0..network.routers() {
        let forwarder = match forwarder_of(network.router(place)) {
            Ok(forwarder) => forwarder,
            Err(error) => return Err(error),
        };
        match forwarders.push(forwarder) {
            Ok(()) => {}
            Err(_) => return Err(OutOfMemory),
        }
    }
    Ok(forwarders)
}

/// The system and the routes of a router.
fn forwarder_of(router: &Router) -> Result<Forwarder, OutOfMemory>
    ensures { IfOk result (λ forwarder. IsForwarder router.now forwarder) }
{
    let routes = router.routes().copy()?;
    Ok(Forwarder {
        system: system_of(router),
        routes,
    })
}

/// The system of a router.
fn system_of(router: &Router) -> SystemId
    ensures { result ≡ (outlook_of router.now).root.system }
{
    let system = router.desk().system();
    system_law(system);
    system
}
