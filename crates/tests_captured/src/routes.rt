//! IPv6 routes of system 1 in captures of a few LSPs.
use crate::graphs::{add_hops, node};
use crate::lsps::lsp_of;
use ipv6_reach::{Capture, Rank6, Route6, routes6};
use isis_base::Level;
use std::alloc::{AllocError, Global};

/// System 1 with system 2 at 10 and system 3 at 1. Of 2001:db8::/32 system 2 tells 490 up, system 3 tells 4 down.
const UP_WINS: &str = "\
1 0 1 16160000000000020000000a000000000000030000000100
2 0 1 160b0000000000010000000a00ec0a000001ea002020010db8
3 0 1 160b0000000000010000000100ec0a00000004802020010db8";

/// Two systems at 10 tell ::/0 at 0, of which one tells it twice, and a host: 1 tells the host itself, at 7. Of an LSP of one
/// number the first stays. A metric above the greatest isn't looked at, and a TLV with a length of 129 isn't read, in a fragment
/// that tells ff::/16 at 5 behind it.
const EQUALS: &str = "\
1 0 1 16160000000000020000000a000000000000030000000a00ec160000000700802001000000000000000000000000000f
1 0 1 16160000000000020000000a000000000000030000000a00
2 0 1 160b0000000000010000000a00ec0c000000000000000000000000ec160000000100802001000000000000000000000000000f
3 0 1 160b0000000000010000000a00ec06000000000000ec0afe000001002020010db8
3 1 1 ec0c000000010000000000020081ec0800000005001000ff";

/// A LAN of 1, 2 and 3, of pseudonode 1 of system 2, and a link of 3 and 4: 4 tells a prefix with bits past its length, marked
/// as external, with sub-TLVs. System 5 isn't reached.
const LAN: &str = "\
1 0 1 160b0000000000020100000a00
2 0 1 160b0000000000020100000a00
102 0 1 1621000000000001000000000000000000000200000000000000000000030000000000
3 0 1 16160000000000020100000a000000000000040000000a00
4 0 1 160b0000000000030000000a00ec0a00000005600920ff0100
5 0 1 ec06000000010000";

fn word_of(rank: Rank6) -> &'static str {
    match rank {
        Rank6::Own => "own",
        Rank6::Up => "up",
        Rank6::Down => "down",
    }
}

/// Puts a route behind a text.
fn add_route(text: &mut String, route: &Route6) -> Result<(), AllocError> {
    let (prefix, cost, word) = (route.prefix, route.cost, word_of(route.rank));
    write!(text, "{prefix} {word} {cost} ")?;
    add_hops(text, &route.hops)?;
    write!(text, ";")
}

/// Routes as a text.
fn text_of(alloc: Global, routes: &[Route6]) -> Result<String, AllocError> {
    let mut text = String::new(alloc);
    for route in routes {
        add_route(&mut text, route)?;
    }
    Ok(text)
}

/// Takes the LSP of each row.
fn take_all(alloc: Global, capture: &mut Capture, rows: &str) -> Option<()> {
    for row in rows.lines() {
        let octets = lsp_of(alloc, row)?;
        capture.take(octets.as_slice()).ok()?;
    }
    Some(())
}

/// The routes of system 1 as a text.
fn routes_in(alloc: Global, capture: &Capture) -> Option<String> {
    let routes = routes6(capture, node(1).system).ok()?;
    text_of(alloc, routes.as_slice()).ok()
}

/// Whether the routes of system 1 in a capture of these rows are these.
fn are(alloc: Global, rows: &str, want: &str) -> Option<bool> {
    let mut capture = Capture::new(alloc, Level::One);
    take_all(alloc, &mut capture, rows)?;
    let text = routes_in(alloc, &capture)?;
    Some(text.as_str() == want)
}

#[test]
fn an_up_of_500_wins_over_a_down_of_5(rt: HostRuntime) {
    let want = "2001:db8:0:0:0:0:0:0/32 up 500 2;";
    assert_eq!(rt; are(rt.alloc(), UP_WINS, want), Some(true));
}

#[test]
fn equals_share_a_route(rt: HostRuntime) {
    let want =
        "0:0:0:0:0:0:0:0/0 up 10 2,3;ff:0:0:0:0:0:0:0/16 up 15 3;2001:0:0:0:0:0:0:f/128 own 7 ;";
    assert_eq!(rt; are(rt.alloc(), EQUALS, want), Some(true));
}

#[test]
fn a_lan_is_stepped_over(rt: HostRuntime) {
    let want = "2080:0:0:0:0:0:0:0/9 up 25 3;";
    assert_eq!(rt; are(rt.alloc(), LAN, want), Some(true));
}
