//! TLVs: the code, the length and the value that the bodies of PDUs are made of, and the values of the codes
//! that this router reads or writes.
//!
//! The form of a TLV and the values of codes 1, 6 and 9 are those of ISO 10589 9.5 and 9.10, of 22 and 135 of
//! RFC 5305 3 and 4, of 129 and 132 of RFC 1195 5.3 and of 240 of RFC 5303 3. Left out: sub-TLVs are stepped over
//! and never written. Reading takes no memory; a `put_` call takes what its octets need.
//!
//! - `tlv.rt`: the walk over TLVs; `codes.rt`: their codes
//! - `fault.rt`: where a value doesn't fit
//! - `left.rt`: the octets that a walk has left
//! - `items.rt`: the walk over the items of a value, whatever they are
//! - `area.rt`, `snpa.rt`, `entry.rt`, `neighbour.rt`, `prefix.rt`: the values of codes 1, 6, 9, 22 and 135
//! - `three_way.rt`: the value of code 240
//! - `ipv4.rt`: codes 129 and 132, which are only written
//! - `put.rt`: a TLV put behind others
//! - `laws.rt`: what follows for all octets: functions without a body, whose contracts are the laws
//!
//! Choices (own):
//!
//! - Readers are iterators over borrowed octets; a faulty item ends the walk with its place; one generic
//!   iterator serves all values.
#![tactic(auto)]

mod area;
pub mod codes;
mod entry;
mod fault;
mod ipv4;
mod items;
pub mod laws;
mod left;
mod neighbour;
mod prefix;
mod put;
mod snpa;
mod three_way;
mod tlv;

pub use area::{AreaItems, areas, put_areas};
pub use entry::{EntryItems, entries, put_entries};
pub use fault::ValueFault;
pub use ipv4::{put_addresses, put_protocols};
pub use items::{Item, Items};
pub use neighbour::{NeighbourItem, NeighbourItems, neighbours, put_neighbours};
pub use prefix::{DOWN, PrefixItem, PrefixItems, prefixes, put_prefixes};
pub use put::put_tlv;
pub use snpa::{SnpaItems, put_snpas, snpas};
pub use three_way::{Adj, ThreeWay, put_three_way, three_way_value};
pub use tlv::{Tlv, TlvFault, Tlvs, are_tlvs};
