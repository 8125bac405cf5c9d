//! The expected answers are looked at by checksum_vectors.py beside src/, which takes both sums term by term, as ISO 8473 6.11
//! defines them, and tries each pair of check octets from 1 to 255: it finds one pair for each row.
use crate::says::octets_of;
use iso_checksum::{fill, holds};
use std::alloc::Global;

/// Octets in hex, and whether their checksum holds. The last two are a link state PDU from its ID on.
const SUMS: &str = "\
- true
00 true
ff true
01 false
0000 true
ffff true
01fe false
fe01 false
000000 true
01fd01 true
01fd02 false
02fd01 false
00ff00ff true
8080808080 false
05f4ff0701 false
000000000001000000000001f60601 true
000000000001000000000001f60603 false";

/// Link state PDUs from their ID on, with the check octets at 12 and 13.
const BODIES: &str = "\
000000000001000000000001f60601
000000000001000000000001f80203
00000000000200000000000291c7010104034900018101cc
00000000000a000000000010a6d6030112034900010d39840f800000000000000000008101cc84080a000001c0000201
00000000000a030000000007cbc403162100000000000a000000000000000000000b000000000000000000000c0000000000
19216800100100017fffffff97870b16161921680010020000000a0019216800100302fffffe00
1921680010010002ffffffff1db607871d0000000a100a0100000014980a02030000000100fe00000020c0000207
ffffffffffffffffffffffffffffff
0011223344550000000012346cbc03010201498101cc8404c6336409160b001122334466000000640087080000006418c63364
aabbccddeeff00ff000001019b8901890a726f757465722d6f6e65082800000000000000000000000000000000000000000000000000000000000000000000000000000000";

fn is_held(alloc: Global, row: &str) -> Option<bool> {
    let (hex, want) = row.split_once(' ')?;
    let octets = octets_of(alloc, hex)?;
    Some(holds(&octets) == (want == "true"))
}

fn first_misheld<'a>(alloc: Global, rows: &'a str) -> Option<&'a str> {
    for row in rows.lines() {
        if is_held(alloc, row) != Some(true) {
            return Some(row);
        }
    }
    None
}

#[test]
fn holds_where_both_sums_do(rt: HostRuntime) {
    assert_eq!(rt; first_misheld(rt.alloc(), SUMS), None);
}

/// Writes the check octets of a body anew.
fn fill_again(octets: &mut [u8]) {
    if octets.len() >= 14 && octets.len() <= 65535 {
        octets[12] = 0;
        octets[13] = 7;
        fill(octets, 12);
    }
}

/// Whether a body's checksum holds, and is what it was once it is filled again.
fn is_filled(alloc: Global, row: &str) -> Option<bool> {
    let body = octets_of(alloc, row)?;
    let mut octets = octets_of(alloc, row)?;
    fill_again(&mut octets);
    Some(holds(&body) && octets == body)
}

fn first_misfilled<'a>(alloc: Global, rows: &'a str) -> Option<&'a str> {
    for row in rows.lines() {
        if is_filled(alloc, row) != Some(true) {
            return Some(row);
        }
    }
    None
}

#[test]
fn fills_bodies(rt: HostRuntime) {
    assert_eq!(rt; first_misfilled(rt.alloc(), BODIES), None);
}
