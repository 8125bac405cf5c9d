//! What is still to come of a report.
ghost use Rattle.std.specs.Prelude.{◌≤◌, ◌+◌, ◌≡◌, length};
ghost use Rattle.isis_base.specs.declared.level.Level.TheVariants as level;
ghost use Rattle.network_lab.specs.LinkStates.{groups_at};

use network_lab::Network;
use route_table::Routes;

/// How many groups agree at each level.
#[derive(Clone, Copy, Debug, PartialEq, Eq)]
pub(crate) struct GroupCounts {
    pub one: usize,
    pub two: usize,
}

/// The report of a network: its head, the blocks of routers, the lines of links, those of the
/// network, and the datagrams that are told.
#[derive(Drop)]
pub struct LabReport<'n, 't> {
    pub(crate) net: &'n Network,
    pub(crate) routers: &'t [&'t str],
    pub(crate) links: &'t [&'t str],
    pub(crate) groups: GroupCounts,
    /// The routes of each router.
    pub(crate) routes: Vec<&'n Routes>,
    /// The head, where it is still to come.
    pub(crate) head: &'static [u8],
    /// The number of the next router, and the names from it on.
    pub(crate) router: usize,
    pub(crate) router_names: &'t [&'t str],
    /// The number of the next link, and the names from it on.
    pub(crate) link: usize,
    pub(crate) link_names: &'t [&'t str],
    /// Whether the lines of the network are still to come.
    pub(crate) is_open: bool,
    pub(crate) dumps: &'t [usize],
    pub(crate) ghost some_routers: { router + length router_names.now
        ≤ length net.now.seen.routers },
    pub(crate) ghost some_links: { link + length link_names.now ≤ length net.now.seen.links },
    pub(crate) ghost few_routers: { router + length router_names.now ≤ 1024 },
    pub(crate) ghost few_links: { link + length link_names.now ≤ 4096 },
    pub(crate) ghost told: { length routes.items ≡ length net.now.seen.routers },
    pub(crate) ghost one: { groups.one ≡ length (groups_at net.now.seen level.One) },
    pub(crate) ghost two: { groups.two ≡ length (groups_at net.now.seen level.Two) },
}
