//! An entry's octets.
ghost use Rattle.std.specs.Prelude.{◌≡◌, ◌<◌, ◌≤◌, ◌^◌, take};
ghost use Rattle.isis_tlv.specs.Spelling as spelling;

use isis_tlv::{DOWN, NeighbourItem, PrefixItem};

/// The octets of a neighbour's entry (RFC 5305 3).
pub(crate) fn neighbour_octets(item: &NeighbourItem) -> [u8; 11]
    requires { item.now.metric < 2 ^ 24 }
    ensures { result ≡ spelling.neighbour_octets item.now }
{
    let [a, b, c, d, e, f] = item.node.system.0;
    let [_, x, y, z] = item.metric.to_be_bytes();
    [a, b, c, d, e, f, item.node.pseudonode, x, y, z, 0]
}

/// The octets of a prefix's entry (RFC 5305 4), in the first so many of nine.
pub(crate) fn prefix_octets(item: &PrefixItem) -> ([u8; 9], usize)
    ensures octets { take result.1 result.0 ≡ spelling.prefix_octets item.now }
    ensures count { result.1 ≤ 9 }
{
    let mark = if item.down { DOWN } else { 0 };
    let length = item.prefix.length();
    let [a, b, c, d] = item.metric.to_be_bytes();
    let [w, x, y, z] = item.prefix.address().to_be_bytes();
    let count = 5 + usize::from(length.div_ceil(8));
    ([a, b, c, d, mark + length, w, x, y, z], count)
}
