//! The line of an IPv4 route.
ghost use Rattle.std.specs.Prelude.{◌≡◌, ◌++◌, OnOk};
ghost use Rattle.route_text.specs.RouteLine as lines;

use crate::via::add_via;
use isis_base::numbers::PREFIX_METRIC;
use isis_base::{Octets, OutOfMemory, Prefix, add_number};
use route_table::{Rank, Route};

/// Adds `route PREFIX RANK COST via SYSTEM SYSTEM`.
#[tactic(auto, unfolding(crate::specs::RouteLine::route_line))]
pub fn add_route(page: &mut Octets, route: &Route) -> Result<(), OutOfMemory>
    ensures { OnOk result (page.new ≡ page.old ++ lines.route_line route.now) }
{
    page.extend(b"route")?;
    add_prefix(page, route.prefix)?;
    add_way(page, route.rank, printed_cost(route.cost))?;
    add_via(page, &route.hops)?;
    page.extend(b"\n")
}

/// A blank and the text of a prefix.
fn add_prefix(page: &mut Octets, prefix: Prefix) -> Result<(), OutOfMemory>
    ensures { OnOk result (page.new ≡ page.old ++ lines.prefix_words prefix) }
{
    let [a, b, c, d] = prefix.address().to_be_bytes();
    add_number(page, b" ", u64::from(a))?;
    add_number(page, b".", u64::from(b))?;
    add_number(page, b".", u64::from(c))?;
    add_number(page, b".", u64::from(d))?;
    add_number(page, b"/", u64::from(prefix.length()))
}

/// A rank and a cost, each behind a blank.
fn add_way(page: &mut Octets, rank: Rank, cost: u64) -> Result<(), OutOfMemory>
    ensures { OnOk result (page.new ≡ page.old ++ lines.way_text rank cost) }
{
    page.extend(b" ")?;
    page.extend(rank_word(rank))?;
    add_number(page, b" ", cost)
}

/// The cost that is printed.
fn printed_cost(cost: u64) -> u64
    ensures { result ≡ lines.printed_cost cost }
{
    cost.min(u64::from(PREFIX_METRIC))
}

/// The word of a rank.
fn rank_word(rank: Rank) -> &'static [u8]
    ensures { result.now ≡ lines.rank_text rank }
{
    match rank {
        Rank::Own => b"own",
        Rank::One => b"L1",
        Rank::Two => b"L2",
        Rank::OneDown => b"L1d",
        Rank::Default => b"default",
    }
}
