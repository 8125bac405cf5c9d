//! Neighbours, the value of code 22.
ghost use Rattle.std.specs.Prelude.{◌≡◌, ◌≤◌, ◌<◌, ◌^◌, ◌+◌, ◌*◌, ◌++◌, All, map, length, Ok, OnOk, OnErr};
ghost use Rattle.isis_tlv.specs.Items.{neighbour_at, neighbours_of};
ghost use Rattle.isis_tlv.specs.Fits.{IsNeighbour};
ghost use Rattle.isis_tlv.specs.Spelling.{neighbour_octets, neighbour_value, neighbour_tlv};

use crate::codes;
use crate::items::{Item, Items};
use crate::laws::item_laws;
use crate::put::put_tlv;
use isis_base::fields::{node_at, u24_at};
use isis_base::{Draft, NodeId, Octets, OutOfMemory};

/// One neighbour of an extended IS reachability TLV (RFC 5305 3), and the metric to it. Three octets hold a metric
/// up to 16,777,215.
#[derive(Clone, Copy, Debug, PartialEq, Eq)]
pub struct NeighbourItem {
    pub node: NodeId,
    pub metric: u32,
}

/// The neighbours of a value of code 22, in order. A fault is the last item. Contracts see what is left.
pub type NeighbourItems<'a> = Items<'a, NeighbourItem>;

/// The neighbours of a value of code 22 (RFC 5305 3). Sub-TLVs are stepped over; a length of them that
/// passes the end is a fault.
pub fn neighbours(value: &[u8]) -> NeighbourItems<'_>
    ensures { result ≡ neighbours_of value.now }
{
    Items::new(value)
}

impl Item for NeighbourItem {
    ghost use Rattle.isis_tlv.specs.Items.{neighbour_at};
    ghost use Rattle.isis_tlv.specs.Takes.{neighbour-takes_one};

    ghost first = { neighbour_at };

    ghost takes = { neighbour-takes_one };

    fn read_first(octets: &[u8]) -> Option<(NeighbourItem, usize)> {
        let Some(subs) = octets.get(10) else {
            return None;
        };
        let size = 11 + usize::from(*subs);
        if size > octets.len() {
            return None;
        }
        let item = NeighbourItem {
            node: node_at(octets, 0),
            metric: u24_at(octets, 7),
        };
        Some((item, size))
    }
}

/// Adds the eleven octets of a neighbour without sub-TLVs.
fn add_neighbour(draft: &mut Draft, item: &NeighbourItem)
    requires room { length draft.old + 11 ≤ 255 }
    requires metric { item.now.metric < 2 ^ 24 }
    ensures added { draft.new ≡ draft.old ++ neighbour_octets item.now }
    ensures count { length draft.new ≡ length draft.old + 11 }
    ensures fits { IsNeighbour item.now }
{
    let [_, a, b, c] = item.metric.to_be_bytes();
    draft.add_node(item.node);
    draft.add(&[a, b, c, 0]);
}

/// Adds a TLV of code 22 with these neighbours, at most 23, without sub-TLVs. A metric is at most 16,777,215. At
/// `OutOfMemory` the list is as it was.
pub fn put_neighbours(out: &mut Octets, list: &[NeighbourItem]) -> Result<(), OutOfMemory>
    requires fits { 11 * length list.now ≤ 255 }
    requires metrics { All (λ item. item.metric < 2 ^ 24) list.now }
    ensures ok { OnOk result (out.new ≡ out.old ++ neighbour_tlv list.now) }
    ensures err { OnErr result (out.new ≡ out.old) }
    ensures sized { length (neighbour_value list.now) ≡ 11 * length list.now }
    ensures reads { neighbours_of (neighbour_value list.now) ≡ map (λ item. Ok item) list.now }
{
    let mut draft = Draft::new();
    for item in list {
        add_neighbour(&mut draft, item);
    }
    item_laws();
    put_tlv(out, codes::NEIGHBOURS, draft.as_slice())
}
