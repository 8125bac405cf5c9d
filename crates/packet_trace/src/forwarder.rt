//! What packets meet at a router.

use isis_base::SystemId;
use route_table::Routes;

/// What packets meet at a router: its system ID, by which other routers name it as a next hop, and its routes.
#[derive(Drop, Debug)]
pub struct Forwarder {
    pub system: SystemId,
    pub routes: Routes,
}
