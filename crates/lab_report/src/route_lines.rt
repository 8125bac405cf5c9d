//! The lines of a router's routes in a report.
ghost use Rattle.std.specs.Prelude.{◌≡◌, ◌++◌, OnOk};
ghost use Rattle.std.specs.List.{flat_map};
ghost use Rattle.lab_report.specs.RouteLines as lines;
ghost use Rattle.spf_tree.specs.Nodes.{system_node};

use isis_base::numbers::PREFIX_METRIC;
use isis_base::{LspId, NodeId, Octets, OutOfMemory, Prefix, SystemId, add_number, add_system_id};
use route_table::{Rank, Route};
use router_sending::laws::id_law;
use spf_tree::Hops;

/// Adds a line for each route, by prefix.
pub(crate) fn add_routes(page: &mut Octets, name: &str, routes: &[Route]) -> Result<(), OutOfMemory>
    ensures { OnOk result (page.new
        ≡ page.old ++ flat_map (lines.route_line name.now) routes.now) }
{
    for route in routes {
        match add_route(page, name, route) {
            Ok(()) => {}
            Err(error) => return Err(error),
        }
    }
    Ok(())
}

/// `route NAME PREFIX RANK COST via SYSTEM SYSTEM`.
#[tactic(auto, unfolding(crate::specs::RouteLines::route_line))]
fn add_route(page: &mut Octets, name: &str, route: &Route) -> Result<(), OutOfMemory>
    ensures { OnOk result (page.new ≡ page.old ++ lines.route_line name.now route.now) }
{
    page.extend(b"route ")?;
    page.extend(name.as_bytes())?;
    add_prefix(page, route.prefix)?;
    add_way(page, route.rank, told_cost(route.cost))?;
    add_via(page, &route.hops)?;
    page.extend(b"\n")
}

/// A rank and a cost, each behind a blank.
fn add_way(page: &mut Octets, rank: Rank, cost: u64) -> Result<(), OutOfMemory>
    ensures { OnOk result (page.new ≡ page.old ++ lines.way_text rank cost) }
{
    page.extend(b" ")?;
    page.extend(rank_word(rank))?;
    add_number(page, b" ", cost)
}

/// The cost that is told.
fn told_cost(cost: u64) -> u64
    ensures { result ≡ lines.told_cost cost }
{
    cost.min(u64::from(PREFIX_METRIC))
}

/// A blank and the text of a prefix.
fn add_prefix(page: &mut Octets, prefix: Prefix) -> Result<(), OutOfMemory>
    ensures { OnOk result (page.new
        ≡ page.old ++ lines.prefix_words prefix) }
{
    let [a, b, c, d] = prefix.address().to_be_bytes();
    add_number(page, b" ", u64::from(a))?;
    add_number(page, b".", u64::from(b))?;
    add_number(page, b".", u64::from(c))?;
    add_number(page, b".", u64::from(d))?;
    add_number(page, b"/", u64::from(prefix.length()))
}

/// The word of a rank.
fn rank_word(rank: Rank) -> &'static [u8]
    ensures { result.now ≡ lines.rank_text rank }
{
    match rank {
        Rank::Own => b"own",
        Rank::One => b"L1",
        Rank::Two => b"L2",
        Rank::OneDown => b"L1d",
        Rank::Default => b"default",
    }
}

/// ` via SYSTEM SYSTEM`, where there is a next hop.
fn add_via(page: &mut Octets, hops: &Hops) -> Result<(), OutOfMemory>
    ensures { OnOk result (page.new ≡ page.old ++ lines.via_text hops.now) }
{
    if hops.is_empty() {
        return Ok(());
    }
    page.extend(b" via")?;
    add_hops(page, hops)
}

/// A blank and a system ID for each next hop.
fn add_hops(page: &mut Octets, hops: &Hops) -> Result<(), OutOfMemory>
    ensures { OnOk result (page.new ≡ page.old ++ flat_map lines.hop_text hops.now) }
{
    for place in 0..hops.len() {
        let Some(system) = hops.get(place) else {
            return Ok(());
        };
        match add_hop(page, system) {
            Ok(()) => {}
            Err(error) => return Err(error),
        }
    }
    Ok(())
}

/// A blank and a system ID.
#[tactic(auto, unfolding(crate::specs::RouteLines::hop_text))]
fn add_hop(page: &mut Octets, system: SystemId) -> Result<(), OutOfMemory>
    ensures { OnOk result (page.new ≡ page.old ++ lines.hop_text (system_node system)) }
{
    id_law(LspId {
        node: NodeId {
            system,
            pseudonode: 0,
        },
        number: 0,
    });
    add_system_id(page, b" ", system)
}
