//! What no clause of isis_tlv says: vectors of another program, and each call once with ample memory.
ghost use Rattle.std.specs.Iterator.{IsFinite};

use crate::says::{Says, octets_of, say_item};
use isis_base::{
    AreaAddress, LspEntry, LspId, NodeId, Octets, OutOfMemory, Snpa, SystemId, read_prefix,
};
use isis_tlv::{
    Adj, NeighbourItem, PrefixItem, ThreeWay, Tlvs, ValueFault, are_tlvs, areas, entries,
    neighbours, prefixes, put_addresses, put_areas, put_entries, put_neighbours, put_prefixes,
    put_protocols, put_snpas, put_three_way, snpas, three_way_value,
};
use std::alloc::{AllocError, Global};
use std::test::Fail;

/// Values of TLVs, a row each: the code, the value in hex, what it says in decimal numbers, and `!PLACE` where an
/// item doesn't fit. Computed by tlvs_vectors.py, which packs them with Python's `struct` and shares nothing with
/// isis_tlv.
const VECTORS: &str = "\
1 -
1 03490001 3 73 0 1
1 03490001034900020547000580ff 3 73 0 1 3 73 0 2 5 71 0 5 128 255
1 0149 1 73
1 0d39840f80000000000000000123 13 57 132 15 128 0 0 0 0 0 0 0 1 35
1 034900010049 3 73 0 1 !4
1 0349000101490e0000000000000000000000000000 3 73 0 1 1 73 !6
1 034900 !0
6 -
6 000000000001 1
6 00aabbccddeeffffffffffff000000000002 733295205870 281474976710655 2
6 0000000000010000000000 1 !6
9 -
9 04af000000000001000000000001abcd 1199 65536 1 43981
9 04b01921680010010203ffffffffffff0000ffffffffffffffff000000070000 1200 1810842874657440259 4294967295 65535 0 18446744073709551615 7 0
9 ffff000000000000000000000000000100010000000000030100000001000002003c0000000000030101000100000003 65535 0 0 1 1 196864 256 2 60 196865 65536 3
9 012c0000000000040000000000110102000000000000000000000000000000 300 262144 17 258 !16
22 -
22 0000000000020000000a00 512 10
22 00000000000201ffffff001921680010020000000000 513 16777215 7073604979130880 0
22 0000000000020000003f060604c0a80001 512 63
22 000000000002000000640c0604c0a800010804c0a800020000000000030001000000 512 100 768 65536
22 0000000000020000000a0000000000000000000000 512 10 !11
22 0000000000020000000a0203000000000000030000000a0500000000 512 10 !13
135 -
135 0000001400 0 0 20 0
135 0000000a080a 167772160 8 10 0
135 0000000a18c0a801 3232235776 24 10 0
135 0000000020c0a80101 3232235777 32 0 0
135 ffffffff0cac10 2886729728 12 4294967295 0
135 fe000000990a010280 167838336 25 4261412864 1
135 00000005110a010000000006110a01800000000780 167837696 17 5 0 167870464 17 6 0 0 0 7 1
135 0000000101800000000202c00000000303e000000004090a00 2147483648 1 1 0 3221225472 2 2 0 3758096384 3 3 0 167772160 9 4 0
135 0000001e4a0a4006010400000001 171966464 10 30 0
135 0000001e4a0a400000000001080a 171966464 10 30 0 167772160 8 1 0
135 0000000c090a7f0000000d14c0a8050000000e827f 167772160 9 12 0 3232235520 20 13 0 1073741824 2 14 1
135 0000000cc90a010202000000000940020100 167772160 9 12 1 0 0 9 0
135 0000000a080a0000000a210000000000 167772160 8 10 0 !6
135 0000000a080a0000000a3f0000000000000000 167772160 8 10 0 !6
135 0000000a080a0000000a110000 167772160 8 10 0 !6
135 0000000a18c0a8010000000a480a 3232235776 24 10 0 !8
135 0000000a18c0a8010000000a480a030000 3232235776 24 10 0 !8
135 0000000a !0
240 00 0
240 01 1
240 02 2
240 0200000101 2 257
240 01ffffffff 1 4294967295
240 000000010100000000000200000201 0 257 2 513
240 0100000000fffffffffffeffffffff 1 0 281474976710654 4294967295
240 03 !0
240 0300000101 !0
240 ff0000010100000000000200000201 !0
240 - !0
240 0000000101aa !0
240 0000000101000000000000000000 !0
240 00000001010000000000000000000000 !0";

fn say_all<T: Says + Drop, I: Iterator<Item = Result<T, ValueFault>> + Drop>(
    text: &mut String,
    items: I,
) -> Result<(), AllocError>
    requires can { I.can_next items }
    requires ends { IsFinite (I.remaining items) }
{
    for item in items {
        say_item(text, item)?;
    }
    Ok(())
}

/// Puts what a value of a code says behind a text.
fn say_value(text: &mut String, code: &str, value: &[u8]) -> Result<(), AllocError> {
    match code.as_bytes() {
        b"1" => say_all(text, areas(value)),
        b"6" => say_all(text, snpas(value)),
        b"9" => say_all(text, entries(value)),
        b"22" => say_all(text, neighbours(value)),
        b"135" => say_all(text, prefixes(value)),
        b"240" => say_item(text, three_way_value(value)),
        _ => Ok(()),
    }
}

fn is_said(alloc: Global, row: &str) -> Option<bool> {
    let (code, rest) = row.split_once(' ')?;
    let (hex, want) = rest.split_once(' ').unwrap_or((rest, ""));
    let value = octets_of(alloc, hex)?;
    let mut text = String::new(alloc);
    say_value(&mut text, code, &value).ok()?;
    Some(text.as_str().trim() == want)
}

fn first_missaid<'a>(alloc: Global, rows: &'a str) -> Option<&'a str> {
    for row in rows.lines() {
        if is_said(alloc, row) != Some(true) {
            return Some(row);
        }
    }
    None
}

#[test]
fn values_say_what_was_packed(rt: HostRuntime) {
    assert_eq!(rt; first_missaid(rt.alloc(), VECTORS), None);
}

/// Areas, protocols, an address, a neighbour, a prefix, an empty value, and one octet too many.
const BODY: &str = "0104034900018101cc84040a000001160b0000000000020000000a00870600000014080a06000a";

/// Each TLV's code, place and length, the first one at 27.
fn walked(alloc: Global, body: &[u8]) -> Result<String, AllocError> {
    let mut text = String::new(alloc);
    for tlv in Tlvs::new(body, 27) {
        match tlv {
            Ok(tlv) => {
                let (code, place, len) = (tlv.code, tlv.place, tlv.value.len());
                write!(text, " {code}@{place}:{len}")?;
            }
            Err(fault) => write!(text, " {fault}")?,
        }
    }
    Ok(text)
}

#[test]
fn tlvs_are_walked(rt: HostRuntime) -> Result<(), Fail> {
    let body = octets_of(rt.alloc(), BODY).ok_or("a body")?;
    let text = walked(rt.alloc(), &body)?;
    assert_eq!(rt;
        text.as_str(),
        " 1@27:4 129@33:1 132@36:4 22@42:11 135@55:6 6@63:0 the TLV at octet 65 has no length"
    );
    assert!(rt; !are_tlvs(&body));
    assert!(rt; are_tlvs(body.get(..38).ok_or("the TLVs")?));
    assert!(rt; !are_tlvs(body.get(..35).ok_or("the TLVs")?));
    Ok(())
}

/// Whether octets are those of hex digits.
fn are_octets(alloc: Global, octets: &[u8], hex: &str) -> bool {
    octets_of(alloc, hex).is_some_and(|want| want.as_slice() == octets)
}

/// Puts an empty list of each kind, addresses and protocols.
fn put_least(out: &mut Octets) -> Result<(), OutOfMemory> {
    put_areas(out, &[])?;
    put_snpas(out, &[])?;
    put_entries(out, &[])?;
    put_neighbours(out, &[])?;
    put_prefixes(out, &[])?;
    put_addresses(out, &[])?;
    put_protocols(out)?;
    put_addresses(out, &[0x0a00_0001, 0xc0a8_0101])
}

#[test]
fn empty_lists_are_put_as_code_and_length(rt: HostRuntime) -> Result<(), Fail> {
    let mut out = Octets::new(rt.alloc());
    put_least(&mut out)?;
    let want = "0100060009001600870084008101cc84080a000001c0a80101";
    assert!(rt; are_octets(rt.alloc(), out.as_slice(), want));
    Ok(())
}

const NODE: NodeId = NodeId {
    system: SystemId([0x19, 0x21, 0x68, 0, 0x10, 1]),
    pseudonode: 2,
};

/// Puts two areas.
fn put_two_areas(out: &mut Octets) -> Option<()> {
    let one = AreaAddress::new(&[0x49, 0, 1])?;
    let two = AreaAddress::new(&[0x47, 0, 5, 0x80, 0xff])?;
    put_areas(out, &[one, two]).ok()
}

/// Puts two SNPAs, an entry and a neighbour.
fn put_items(out: &mut Octets) -> Result<(), OutOfMemory> {
    let snpa = Snpa([0, 0xaa, 0xbb, 0xcc, 0xdd, 0xee]);
    put_snpas(out, &[snpa, Snpa([0, 0, 0, 0, 0, 2])])?;
    let entry = LspEntry {
        lifetime: 1200,
        id: LspId {
            node: NODE,
            number: 3,
        },
        number: u32::MAX,
        checksum: u16::MAX,
    };
    put_entries(out, &[entry])?;
    let item = NeighbourItem {
        node: NODE,
        metric: 16_777_215,
    };
    put_neighbours(out, &[item])
}

#[test]
fn items_are_put_as_they_were_packed(rt: HostRuntime) -> Result<(), Fail> {
    let mut out = Octets::new(rt.alloc());
    put_two_areas(&mut out).ok_or("two areas")?;
    put_items(&mut out)?;
    let want =
        "010a034900010547000580ff060c00aabbccddee000000000002091004b01921680010010203ffffffffffff160b19216800100102ffffff00";
    assert!(rt; are_octets(rt.alloc(), out.as_slice(), want));
    Ok(())
}

/// Prefixes, metrics and directions, and the TLVs in hex.
const PUT_PREFIXES: &str = "\
0.0.0.0/0 20 up 87050000001400
10.0.0.0/8 10 up 87060000000a080a
192.168.1.0/24 10 up 87080000000a18c0a801
192.168.1.1/32 0 up 87090000000020c0a80101
172.16.0.0/12 4294967295 up 8707ffffffff0cac10
10.1.2.128/25 4261412864 down 8709fe000000990a010280";

/// The item of a prefix, a metric and a direction.
fn item_of(words: &str) -> Option<PrefixItem> {
    let (prefix, rest) = words.split_once(' ')?;
    let (metric, direction) = rest.split_once(' ')?;
    Some(PrefixItem {
        prefix: read_prefix(prefix).ok()?,
        metric: metric.parse::<u32>().ok()?,
        down: direction == "down",
    })
}

/// Whether a prefix is put as the row says.
fn is_put(alloc: Global, row: &str) -> Option<bool> {
    let (words, hex) = row.rsplit_once(' ')?;
    let item = item_of(words)?;
    let mut out = Octets::new(alloc);
    put_prefixes(&mut out, &[item]).ok()?;
    Some(are_octets(alloc, out.as_slice(), hex))
}

fn first_misput<'a>(alloc: Global, rows: &'a str) -> Option<&'a str> {
    for row in rows.lines() {
        if is_put(alloc, row) != Some(true) {
            return Some(row);
        }
    }
    None
}

#[test]
fn prefixes_are_put_in_as_few_octets_as_hold_them(rt: HostRuntime) {
    assert_eq!(rt; first_misput(rt.alloc(), PUT_PREFIXES), None);
}

/// Puts a TLV for each state, with nothing more, with the own ID, and with a neighbour.
fn put_states(out: &mut Octets) -> Result<(), OutOfMemory> {
    let state = |state, own_id, neighbour| ThreeWay {
        state,
        own_id,
        neighbour,
    };
    put_three_way(out, &state(Adj::Up, None, None))?;
    put_three_way(out, &state(Adj::Down, Some(257), None))?;
    put_three_way(out, &state(Adj::Initializing, Some(u32::MAX), None))?;
    let heard = Some((SystemId([0, 0, 0, 0, 0, 2]), 513));
    put_three_way(out, &state(Adj::Up, Some(257), heard))
}

#[test]
fn three_way_is_put_as_it_was_packed(rt: HostRuntime) -> Result<(), Fail> {
    let mut out = Octets::new(rt.alloc());
    put_states(&mut out)?;
    let want = "f00100f0050200000101f00501fffffffff00f000000010100000000000200000201";
    assert!(rt; are_octets(rt.alloc(), out.as_slice(), want));
    Ok(())
}
