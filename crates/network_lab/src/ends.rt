//! The circuits of routers and the ends of links, as a run goes through them.
ghost use Rattle.std.specs.Prelude.{◌≡◌, ◌<◌, ◌≤◌, length, IfSome};
ghost use Rattle.model_router.specs.Places.{nth};
ghost use Rattle.model_network.specs.RunLines.{circuit_count, link_of as link_at, by_router, ends_of};

use crate::network::Network;
use crate::places::{count_at, number_at};
use router_core::Keeping;

impl<K: Keeping> Network<K> {
    /// How many datagrams were sent, of which there are few enough.
    pub(crate) fn sent_count(&self) -> usize
        ensures count { result ≡ length self.now.seen.sent }
        ensures few { result ≤ 262144 }
    {
        self.sent.len()
    }

    /// The number of a router's circuits.
    pub(crate) fn circuits(&self, router: usize) -> usize
        requires { router < length self.now.seen.routers }
        ensures { result ≡ circuit_count (nth self.now.seen.routers router) }
    {
        self.ports[router].as_slice().len()
    }

    /// The link of a router's circuit at a place.
    pub(crate) fn port(&self, router: usize, place: usize) -> Option<usize>
        requires { router < length self.now.seen.routers }
        ensures link { result ≡ link_at router place 0 self.now.seen.links }
        ensures there { IfSome result (λ link. link < length self.now.seen.links) }
    {
        number_at(self.ports[router].as_slice(), place)
    }

    /// The number of ends of a link.
    pub fn ends_count(&self, link: usize) -> usize
        ensures { result ≡ length (by_router (ends_of (nth self.now.seen.links link))) }
    {
        count_at(&self.ordered, link)
    }

    /// The router of an end of a link, in order of routers.
    pub fn end_router(&self, link: usize, place: usize) -> usize
        requires { place < length (by_router (ends_of (nth self.now.seen.links link))) }
        ensures router { IfSome (nth (by_router (ends_of (nth self.now.seen.links link))) place)
            (λ e. result ≡ e.router) }
        ensures there { result < length self.now.seen.routers }
    {
        self.ordered[link].as_slice()[place].router
    }
}
