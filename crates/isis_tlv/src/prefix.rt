//! Prefixes, the value of code 135.
ghost use Rattle.std.specs.Prelude.{◌≡◌, ◌≤◌, ◌+◌, ◌%◌, ◌++◌, ◌==◌, map, length, Ok, OnOk, OnErr};
ghost use Rattle.std.specs.Option.{option_map};
ghost use Rattle.std.specs.Int.{bit_at};
ghost use Rattle.isis_base.specs.Fields.{u32_at};
ghost use Rattle.isis_tlv.specs.Items.{prefix_at, prefixes_of, clear_past, octets_for, subs_at};
ghost use Rattle.isis_tlv.specs.Fits.{IsPrefix};
ghost use Rattle.isis_tlv.specs.Spelling.{prefix_octets, prefix_value, prefix_tlv};

use crate::codes;
use crate::items::{Item, Items};
use crate::laws::item_laws;
use crate::put::put_tlv;
use isis_base::fields::u32_at;
use isis_base::{Draft, Octets, OutOfMemory, Prefix};

/// One prefix of an extended IP reachability TLV (RFC 5305 4), the metric to it, and whether it was leaked down.
#[derive(Clone, Copy, Debug, PartialEq, Eq)]
pub struct PrefixItem {
    pub prefix: Prefix,
    pub metric: u32,
    pub down: bool,
}

/// The prefixes of a value of code 135, in order. A fault is the last item. Contracts see what is left.
pub type PrefixItems<'a> = Items<'a, PrefixItem>;

/// The prefixes of a value of code 135 (RFC 5305 4). Bits past a prefix's length are read as 0, and sub-TLVs
/// are stepped over. A prefix length above 32, or a length of sub-TLVs that passes the end, is a fault.
pub fn prefixes(value: &[u8]) -> PrefixItems<'_>
    ensures { result ≡ prefixes_of value.now }
{
    Items::new(value)
}

impl Item for PrefixItem {
    ghost use Rattle.isis_tlv.specs.Items.{prefix_at};
    ghost use Rattle.isis_tlv.specs.Takes.{prefix-takes_one};

    ghost first = { prefix_at };

    ghost takes = { prefix-takes_one };

    fn read_first(octets: &[u8]) -> Option<(PrefixItem, usize)> {
        let Some(control) = octets.get(4) else {
            return None;
        };
        let bits = length_of(*control);
        if bits > 32 {
            return None;
        }
        let end = 5 + octets_for(bits);
        let size = end + subs_at(*control, end, octets);
        if size > octets.len() {
            return None;
        }
        let item = PrefixItem {
            prefix: prefix_of(&octets[5..end], bits),
            metric: u32_at(octets, 0),
            down: is_down(*control),
        };
        Some((item, size))
    }
}

/// The control octet's mark for a prefix that was leaked down (RFC 5305 4).
pub const DOWN: u8 = 0x80;

/// The control octet's mark for sub-TLVs.
const SUBS: u8 = 0x40;

/// The length of a prefix, in bits, that the control octet tells: its low six bits.
fn length_of(control: u8) -> u8
    ensures { result ≡ control % 64 }
{
    control % 64
}

/// The number of octets that hold so many bits.
fn octets_for(bits: u8) -> usize
    ensures { result ≡ octets_for bits }
{
    usize::from(bits.div_ceil(8))
}

fn is_down(control: u8) -> bool
    ensures { result ≡ (bit_at control 7 == 1) }
{
    control & DOWN != 0
}

fn has_subs(control: u8) -> bool
    ensures { result ≡ (bit_at control 6 == 1) }
{
    control & SUBS != 0
}

/// After a prefix, at `place`: no octet without the mark for sub-TLVs, else their length and as many octets. A length
/// that isn't there counts as 0.
fn subs_at(control: u8, place: usize, octets: &[u8]) -> usize
    ensures { result ≡ subs_at control place octets.now }
{
    if !has_subs(control) {
        return 0;
    }
    match octets.get(place) {
        Some(count) => 1 + usize::from(*count),
        None => 1,
    }
}

/// The prefix of so many bits that these octets hold. Bits past its length are read as 0.
#[tactic(auto, using(crate::proofs::BitLemmas::cleared_mod))]
fn prefix_of(held: &[u8], bits: u8) -> Prefix
    requires bits { bits ≤ 32 }
    requires held { length held.now ≤ 4 }
    ensures address { result.address ≡ clear_past bits (u32_at 0 held.now) }
    ensures length { result.length ≡ bits }
{
    let past = 32 - bits;
    let address = u64::from(address_of(held)) >> past << past;
    Prefix::new(address as u32, bits).unwrap()
}

/// The address that begins with these octets and goes on with zeros.
fn address_of(held: &[u8]) -> u32
    requires { length held.now ≤ 4 }
    ensures { result ≡ u32_at 0 held.now }
{
    let mut octets = [0; 4];
    octets[..held.len()].copy_from_slice(held);
    u32::from_be_bytes(octets)
}

/// Adds the octets of a prefix, without sub-TLVs.
fn add_prefix(draft: &mut Draft, item: &PrefixItem)
    requires { length draft.old + length (prefix_octets item.now) ≤ 255 }
    ensures added { draft.new ≡ draft.old ++ prefix_octets item.now }
    ensures fits { IsPrefix item.now }
{
    let length = item.prefix.length();
    let mark = if item.down { DOWN } else { 0 };
    let address = item.prefix.address().to_be_bytes();
    let count = octets_for(length);
    draft.add(&item.metric.to_be_bytes());
    draft.add(&[mark + length]);
    draft.add(&address[..count]);
}

/// Adds a TLV of code 135 with these prefixes, each in as few octets as hold it, without sub-TLVs. Its value has at
/// most 255 octets. At `OutOfMemory` the list is as it was.
pub fn put_prefixes(out: &mut Octets, list: &[PrefixItem]) -> Result<(), OutOfMemory>
    requires { length (prefix_value list.now) ≤ 255 }
    ensures ok { OnOk result (out.new ≡ out.old ++ prefix_tlv list.now) }
    ensures err { OnErr result (out.new ≡ out.old) }
    ensures reads { prefixes_of (prefix_value list.now) ≡ map (λ item. Ok item) list.now }
{
    let mut draft = Draft::new();
    for item in list {
        add_prefix(&mut draft, item);
    }
    item_laws();
    put_tlv(out, codes::PREFIXES, draft.as_slice())
}
