//! What becomes of octets, and prefixes written.
use ipv6_reach::{Capture, Prefix6, Prefix6Item, Took, put_prefixes6};
use isis_base::{Level, Octets};
use std::alloc::Global;

/// Octets, and what becomes of them, one after another: a checksum that doesn't hold, the LSP, the same again, a purge of its
/// number whose checksum doesn't hold, the same again, number 0, an LSP of level 2, a hello, and a header that is cut.
const TAKES: &str = "\
831b010012010000002704b0000000000001000000000001a05401ec0a0000000a002020010db9 checksum
831b010012010000002704b0000000000001000000000001a05401ec0a0000000a002020010db8 kept
831b010012010000002704b0000000000001000000000001a05401ec0a0000000a002020010db8 not-newer
831b010012010000001b0000000000000001000000000001123401 kept
831b010012010000001b0000000000000001000000000001123401 not-newer
831b010012010000001b04b0000000000001000000000000123401 zero
831b010014010000001b04b0000000000001000000000001123401 not-lsp
831401001101000001000000000001001e001401 not-lsp
831b0100120100 pdu";

fn word_of(took: Took) -> &'static str {
    match took {
        Took::Pdu(_) => "pdu",
        Took::NotLsp => "not-lsp",
        Took::Zero => "zero",
        Took::Checksum => "checksum",
        Took::NotNewer => "not-newer",
        Took::Kept => "kept",
    }
}

/// Whether a capture takes the octets of a row as it says.
fn holds(alloc: Global, capture: &mut Capture, row: &str) -> Option<bool> {
    let (hex, want) = row.split_once(' ')?;
    let octets = hex::decode(alloc, hex).ok()?;
    let took = capture.take(octets.as_slice()).ok()?;
    Some(word_of(took) == want)
}

/// The first row that doesn't hold, counted from 1; 0 where all do.
fn first_wrong(alloc: Global, capture: &mut Capture) -> usize {
    let mut place = 0usize;
    for row in TAKES.lines() {
        place = place.saturating_add(1);
        if holds(alloc, capture, row) != Some(true) {
            return place;
        }
    }
    0
}

#[test]
fn octets_are_taken_or_left(rt: HostRuntime) {
    let mut capture = Capture::new(rt.alloc(), Level::One);
    assert_eq!(rt; first_wrong(rt.alloc(), &mut capture), 0);
}

/// Whether 2001:db8::/32 at 10 is written as these octets.
fn is_written(alloc: Global, want: &str) -> Option<bool> {
    let prefix = Prefix6::new(0x2001_0db8 << 96, 32)?;
    let item = Prefix6Item {
        prefix,
        metric: 10,
        down: false,
        external: false,
    };
    let mut octets = Octets::new(alloc);
    put_prefixes6(&mut octets, &[item]).ok()?;
    let text = hex::encode(alloc, octets.as_slice()).ok()?;
    Some(text.as_str() == want)
}

#[test]
fn a_prefix_is_written(rt: HostRuntime) {
    assert_eq!(rt;
        is_written(rt.alloc(), "ec0a0000000a002020010db8"),
        Some(true)
    );
}
