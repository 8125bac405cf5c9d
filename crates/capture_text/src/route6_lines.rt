//! The line of an IPv6 route.
ghost use Rattle.std.specs.Prelude.{◌≡◌, ◌++◌, OnOk};
ghost use Rattle.capture_text.specs.Routes6Text as lines;

use ipv6_reach::{Prefix6, Rank6, Route6};
use isis_base::numbers::PREFIX_METRIC;
use isis_base::{Octets, OutOfMemory, add_number};
use route_text::add_via;
use std::alloc::Global;

/// `route6 PREFIX RANK COST via SYSTEM SYSTEM`.
#[tactic(auto, unfolding(crate::specs::Routes6Text::route6_line))]
pub(crate) fn add_route6(
    alloc: Global,
    page: &mut Octets,
    route: &Route6,
) -> Result<(), OutOfMemory>
    ensures { OnOk result (page.new ≡ page.old ++ lines.route6_line route.now) }
{
    page.extend(b"route6")?;
    add_prefix6(alloc, page, route.prefix)?;
    add_way(page, route.rank, told_cost(route.cost))?;
    add_via(page, &route.hops)?;
    page.extend(b"\n")
}

/// A blank and the text of a prefix.
#[tactic(auto, unfolding(crate::specs::Routes6Text::prefix6_words))]
fn add_prefix6(alloc: Global, page: &mut Octets, prefix: Prefix6) -> Result<(), OutOfMemory>
    ensures { OnOk result (page.new ≡ page.old ++ lines.prefix6_words prefix) }
{
    let text = match format!(in alloc; "{prefix}") {
        Ok(text) => text,
        Err(_) => return Err(OutOfMemory),
    };
    page.extend(b" ")?;
    page.extend(text.as_bytes())
}

/// A rank and a cost, each behind a blank.
fn add_way(page: &mut Octets, rank: Rank6, cost: u64) -> Result<(), OutOfMemory>
    ensures { OnOk result (page.new ≡ page.old ++ lines.way6_text rank cost) }
{
    page.extend(b" ")?;
    page.extend(rank_word(rank))?;
    add_number(page, b" ", cost)
}

/// The cost that is told.
fn told_cost(cost: u64) -> u64
    ensures { result ≡ lines.told_cost6 cost }
{
    cost.min(u64::from(PREFIX_METRIC))
}

/// The word of a rank.
fn rank_word(rank: Rank6) -> &'static [u8]
    ensures { result.now ≡ lines.rank6_text rank }
{
    match rank {
        Rank6::Own => b"own",
        Rank6::Up => b"up",
        Rank6::Down => b"down",
    }
}
