//! The expected digests, and the signed and spoilt PDUs, are from Python's `hmac` with `hashlib`: `auth_vectors.py` beside src/
//! prints the tables. The first seven digests are those of RFC 2202 2.
ghost use Rattle.std.specs.Prelude.{◌≡◌, ◌+◌, ◌≤◌, length, IfSome};
ghost use Rattle.std.specs.Option.{option_map};
ghost use Rattle.isis_tlv.specs.Framed.{IsPdu};
ghost use Rattle.isis_tlv.specs.TlvViews.{one_view};
ghost use Rattle.hmac_auth.specs.Auth.{IsDigestPlace, auth_tlv};

use crate::says::octets_of;
use hmac_auth::{AuthFault, check_pdu, digest, sign_pdu};
use isis_base::PduKind;
use isis_tlv::{Tlv, Tlvs, are_tlvs};
use md5::{Digest, Md5};
use std::alloc::{AllocError, Global};

/// Key, message and digest in hex.
const DIGESTS: &str = "\
0b0b0b0b0b0b0b0b0b0b0b0b0b0b0b0b 4869205468657265 9294727a3638bb1c13f48ef8158bfc9d
4a656665 7768617420646f2079612077616e7420666f72206e6f7468696e673f 750c783e6ab0b503eaa86e310a5db738
aaaaaaaaaaaaaaaaaaaaaaaaaaaaaaaa dddddddddddddddddddddddddddddddddddddddddddddddddddddddddddddddddddddddddddddddddddddddddddddddddddd 56be34521d144c88dbb8c733f0e8b3f6
0102030405060708090a0b0c0d0e0f10111213141516171819 cdcdcdcdcdcdcdcdcdcdcdcdcdcdcdcdcdcdcdcdcdcdcdcdcdcdcdcdcdcdcdcdcdcdcdcdcdcdcdcdcdcdcdcdcdcdcdcdcdcd 697eaf0aca3a3aea3a75164746ffaa79
0c0c0c0c0c0c0c0c0c0c0c0c0c0c0c0c 546573742057697468205472756e636174696f6e 56461ef2342edc00f9bab995690efd4c
aaaaaaaaaaaaaaaaaaaaaaaaaaaaaaaaaaaaaaaaaaaaaaaaaaaaaaaaaaaaaaaaaaaaaaaaaaaaaaaaaaaaaaaaaaaaaaaaaaaaaaaaaaaaaaaaaaaaaaaaaaaaaaaaaaaaaaaaaaaaaaaaaaaaaaaaaaaaaaaa 54657374205573696e67204c6172676572205468616e20426c6f636b2d53697a65204b6579202d2048617368204b6579204669727374 6b1ab7fe4bd7bf8f0b62e6ce61b9d0cd
aaaaaaaaaaaaaaaaaaaaaaaaaaaaaaaaaaaaaaaaaaaaaaaaaaaaaaaaaaaaaaaaaaaaaaaaaaaaaaaaaaaaaaaaaaaaaaaaaaaaaaaaaaaaaaaaaaaaaaaaaaaaaaaaaaaaaaaaaaaaaaaaaaaaaaaaaaaaaaaa 54657374205573696e67204c6172676572205468616e20426c6f636b2d53697a65204b657920616e64204c6172676572205468616e204f6e6520426c6f636b2d53697a652044617461 6f630fad67cda0ee1fb1f562db3aa53e";

/// The length of a key, whose octet at i is (11 * i + 5) % 256, that of a message, whose octet at i is (7 * i + 3) % 256, and
/// the digest in hex.
const BY_LENGTHS: &str = "\
0 0 74e6f7298a9c2d168935f58c001bad88
0 64 08820052bafaba9c1c4d6eb2f7cfdd0b
0 65 82fdc4cd98840bc2403b5ee521f542da
64 0 fb7dff29118497efb6eb24ee9782e9ec
64 64 dda0241c0f6d0dcaf391491f661c4bac
64 65 3dcee19cb7f79ebf38536f0c1635a817
65 0 43d742f3ce81b9bde9bd73a1c078c4fc
65 64 15866835aedafa4a3f6492216dfc7d22
65 65 a5c18879deba30d79b07762751db719e";

/// A key and a PDU that is authentic under it.
const GOOD: &str = "\
61726561206b6579 831b010012010000003704af0000000000010000000000071234030a1136a545c12f227ab53045daf7c4005d005d0104034900018101cc
0000000000000000000000000000000000000000 831b010014010000003700010000000000010000000000011234030104034900010a1136bc03ad9ad12c7da7d32acc22fffcc2508101cc
61726561206b6579 831b010012010000003700010000000000010000000000071234030a1136a545c12f227ab53045daf7c4005d005d0104034900018101cc
61726561206b6579 831b010012010000003704af000000000001000000000007ffff030a1136a545c12f227ab53045daf7c4005d005d0104034900018101cc
61726561206b6579 831b010012010000002e00000000000000010000000000070000030a11360221572c17c1c94767609233e3d5e92d
61726561206b6579 831b010012010000003100000000000000010000000000070000030a11363835044ae83c6bcca1b84381cb4e055d0a0101
000102030405060708090a0b0c0d0e0f101112131415161718191a1b1c1d1e1f202122232425262728292a2b2c2d2e2f303132333435363738393a3b3c3d3e3f404142434445 831b01000f01000003000000000001001e003440000000000001020a113661f68925e61ab9540f12c704e288e2f6010403490001
- 831b01001001000003000000000001001e003140000000000001028101cc0a113643e5e142a789865d08f774bdcf5bfac1
000102030405060708090a0b0c0d0e0f101112131415161718191a1b1c1d1e1f202122232425262728292a2b2c2d2e2f303132333435363738393a3b3c3d3e3f404142434445 831401001101000003000000000001001e002a010a1136347da05f6b66c136b0b40893329bd938f00102
61726561206b6579 83210100180100000046000000000001000000000000000000ffffffffffffffff0a11361941ecf014c821a155e031a1a2dfcaa4091004af0000000000010000000000071234
0000000000000000000000000000000000000000 83210100190100000046000000000001000000000000000000ffffffffffffffff0910000000000000000100000000000200000a1136c92342d50c3977336ec42358891776bc
61726561206b6579 831101001a0100000036000000000001000a113606d561b2217d89f8ef1e666f7c42b2c3091004af0000000000010000000000071234
0000000000000000000000000000000000000000 831101001b0100000024000000000001000a1136f3110527a9d02b2fbf0f362babd12f05
61726561206b6579 831101001a0100000037000000000001000a113684d120b079356d7c6d5d03cfbd89aa3c0a113600000000000000000000000000000000";

/// A key, a PDU that isn't authentic under it, and why.
const BAD: &str = "\
61726561206b6579 831101001a0100000037000000000001000a1136000000000000000000000000000000000a113684d120b079356d7c6d5d03cfbd89aa3c Wrong
61726561206b6579 831101001a0100000037000000000001000a113684d120b079356d7c6d5d03cfbd89aa3c0a113600000000000000000000000100000000 Wrong
61726561206b6579 831b01000f01000003000000000001001e001b4000000000000102 Missing
61726561206b6579 831b010012010000002404af0000000000010000000000071234030104034900018101cc Missing
61726561206b6579 831b01001401000000210000000000000001000000000007000003010403490001 Missing
61726561206b6579 831101001a0100000023000000000001000910000a00000000000100000a1136000a11 Missing
61726561206b6579 831101001a0100000018000000000001000a050161726561 OtherType
61726561206b6579 831101001a0100000013000000000001000a00 OtherType
61726561206b6579 831101001a0100000024000000000001000a110100000000000000000000000000000000 OtherType
61726561206b6579 831101001a0100000023000000000001000a1036000000000000000000000000000000 OtherType
61726561206b6579 83210100180100000037000000000001000000000000000000ffffffffffffffff0a01360a113600000000000000000000000000000000 OtherType
61726561206b6579 831b010012010000003800000000000000010000000000070000030a15360000000000000000000000000000000000000000010403490001 OtherType
61726561206b6579 831b010012010000003400000000000000010000000000070000030a11369d60a62894877cc18417b22faa9adb00010403490001 PurgeBody
61726561206b6579 831b010014010000003400000000000000010000000000070000030104034900010a113600000000000000000000000000000000 PurgeBody
61726561206b6579 831b010012010000003700000000000000010000000000071234030a1136a545c12f227ab53045daf7c4005d005d0104034900018101cc PurgeBody
0000000000000000000000000000000000000000 831b010012010000003704af0000000000010000000000071234030a1136a545c12f227ab53045daf7c4005d005d0104034900018101cc Wrong
61726561206b6579 831b01000f01000003000000000001001e003440000000000001020a113661f68925e61ab9540f12c704e288e2f6010403490001 Wrong
000102030405060708090a0b0c0d0e0f101112131415161718191a1b1c1d1e1f202122232425262728292a2b2c2d2e2f303132333435363738393a3b3c3d3e3f404142434445 831b01000f01000003000000000001001e003440000000000001020a1136e1f68925e61ab9540f12c704e288e2f6010403490001 Wrong
000102030405060708090a0b0c0d0e0f101112131415161718191a1b1c1d1e1f202122232425262728292a2b2c2d2e2f303132333435363738393a3b3c3d3e3f404142434445 831b01000f01000003000000000001001e003440000000000001020a113661f68925e61ab9540f12c704e288e2f7010403490001 Wrong
000102030405060708090a0b0c0d0e0f101112131415161718191a1b1c1d1e1f202122232425262728292a2b2c2d2e2f303132333435363738393a3b3c3d3e3f404142434445 831b01000f01000003000000000001001e003440000000000001020a113661f68925e61ab9540f12c704e288e2f6010403490000 Wrong
61726561206b6579 831b010012010000003704af0000000000010000000000071234020a1136a545c12f227ab53045daf7c4005d005d0104034900018101cc Wrong
61726561206b6579 831b010012010000003704af0000000000010000000000061234030a1136a545c12f227ab53045daf7c4005d005d0104034900018101cc Wrong
61726561206b6579 831b010014010000002e00000000000000010000000000070000030a11360221572c17c1c94767609233e3d5e92d Wrong
61726561206b6579 831b010012010000003704af0000000000010000000000071234030a113667ef6ad9c25b9ccbe05018b39cacdad60104034900018101cc Wrong";

/// PDUs that another router made and signed (isisd of FRR 8.4.4): an LSP, a purge, a CSNP and a PSNP.
const FOREIGN: &str = "\
417265614b657931 831b0100120100000038049b000000000002000000000001a708030a113673b712380537181b82b8bd226114e93701040349000189025232
446f6d61696e4b657931 831b010014010000002e0000000000000004020000000002bdc0030a11365d5e93bb70ad50b45bebae514beda3d2
417265614b657931 83210100180100000046000000000002000000000000000000ffffffffffffffff0a113669e3f15b465d8a84356918bca5dfaf870910049b000000000002000000000001a708
417265614b657931 831101001a0100000036000000000001000a1136c75b4966661842ccfafd2e11dd5a45cd0910049a000000000002000000000001a708";

fn is_digest(alloc: Global, row: &str) -> Option<bool> {
    let (key, rest) = row.split_once(' ')?;
    let (message, want) = rest.split_once(' ')?;
    let key = octets_of(alloc, key)?;
    let message = octets_of(alloc, message)?;
    is_hex(alloc, &digest(&key, &message), want)
}

/// Whether octets are those of hex digits.
fn is_hex(alloc: Global, octets: &[u8], hex: &str) -> Option<bool> {
    Some(octets_of(alloc, hex)?.as_slice() == octets)
}

/// Octets by a rule: the one at i is (step * i + first) % 256.
fn by_rule(alloc: Global, count: u16, step: u8, first: u8) -> Result<Vec<u8>, AllocError> {
    (0..count)
        .map(|place| ((u32::from(place) * u32::from(step) + u32::from(first)) % 256) as u8)
        .collect(alloc)
}

/// Whether the digest of octets by the rule is this one, under a key by the rule and, where that is longer than a block,
/// under its hash too.
fn is_digest_by_rule(alloc: Global, row: &str) -> Option<bool> {
    let (key, rest) = row.split_once(' ')?;
    let (message, want) = rest.split_once(' ')?;
    let key = by_rule(alloc, key.parse::<u16>().ok()?, 11, 5).ok()?;
    let message = by_rule(alloc, message.parse::<u16>().ok()?, 7, 3).ok()?;
    let got = digest(&key, &message);
    let of_hash = key.len() <= 64 || digest(&Md5::digest(key.as_slice()), &message) == got;
    Some(of_hash && is_hex(alloc, &got, want)?)
}

/// The first row whose digest is another.
fn first_other<'a>(alloc: Global, rows: &'a str, by_rule: bool) -> Option<&'a str> {
    for row in rows.lines() {
        let is_right = if by_rule {
            is_digest_by_rule(alloc, row)
        } else {
            is_digest(alloc, row)
        };
        if is_right != Some(true) {
            return Some(row);
        }
    }
    None
}

#[test]
fn digests_are_those_of_others(rt: HostRuntime) {
    assert_eq!(rt; first_other(rt.alloc(), DIGESTS, false), None);
    assert_eq!(rt; first_other(rt.alloc(), BY_LENGTHS, true), None);
}

/// The length of the header, where these octets are a PDU.
fn header_in(pdu: &[u8]) -> Option<usize>
    ensures { IfSome result (λ header. IsPdu pdu.now header) }
{
    let kind = PduKind::of_number(*pdu.get(4)? % 32)?;
    let header = usize::from(kind.header_length());
    if header <= pdu.len() && are_tlvs(&pdu[header..]) {
        return Some(header);
    }
    None
}

/// What is said of a PDU under a key; nothing where the octets are no PDU.
fn judged(key: &[u8], pdu: &[u8]) -> Option<Result<(), AuthFault>> {
    let header = header_in(pdu)?;
    Some(check_pdu(key, pdu, header))
}

/// The fault of a word, none of `Good`.
fn fault_of(word: &str) -> Result<(), AuthFault> {
    match word.as_bytes() {
        b"Missing" => Err(AuthFault::Missing),
        b"OtherType" => Err(AuthFault::OtherType),
        b"PurgeBody" => Err(AuthFault::PurgeBody),
        b"Wrong" => Err(AuthFault::Wrong),
        _ => Ok(()),
    }
}

/// Whether a PDU has the fault that its row says, or none where the row says none.
fn is_judged(alloc: Global, row: &str) -> Option<bool> {
    let (key, rest) = row.split_once(' ')?;
    let (pdu, word) = rest.split_once(' ').unwrap_or((rest, ""));
    let key = octets_of(alloc, key)?;
    let pdu = octets_of(alloc, pdu)?;
    Some(judged(&key, &pdu)? == fault_of(word))
}

fn first_misjudged<'a>(alloc: Global, rows: &'a str) -> Option<&'a str> {
    for row in rows.lines() {
        if is_judged(alloc, row) != Some(true) {
            return Some(row);
        }
    }
    None
}

/// Whether another key finds the PDU of a row wrong.
fn is_wrong_by_another(alloc: Global, row: &str) -> Option<bool> {
    let (_, pdu) = row.split_once(' ')?;
    let pdu = octets_of(alloc, pdu)?;
    Some(judged(b"OtherKey", &pdu)? == Err(AuthFault::Wrong))
}

fn first_taken_by_another<'a>(alloc: Global, rows: &'a str) -> Option<&'a str> {
    for row in rows.lines() {
        if is_wrong_by_another(alloc, row) != Some(true) {
            return Some(row);
        }
    }
    None
}

#[test]
fn each_fault_has_its_cause(rt: HostRuntime) {
    assert_eq!(rt; first_misjudged(rt.alloc(), GOOD), None);
    assert_eq!(rt; first_misjudged(rt.alloc(), FOREIGN), None);
    assert_eq!(rt; first_taken_by_another(rt.alloc(), FOREIGN), None);
    assert_eq!(rt; first_misjudged(rt.alloc(), BAD), None);
}

/// The first TLV of code 10.
fn auth_tlv(pdu: &[u8], header: usize) -> Option<Tlv<'_>>
    requires { header ≤ length pdu.now }
    ensures { option_map one_view result ≡ auth_tlv pdu.now header }
{
    for tlv in Tlvs::new(&pdu[header..], header) {
        match tlv {
            Ok(tlv) if tlv.code == 10 => return Some(tlv),
            Ok(_) => {}
            Err(_) => break,
        }
    }
    None
}

/// The place of the digest of a PDU, where there is one.
#[tactic(auto, unfolding(hmac_auth::specs::Auth::digest_place))]
fn place_in(pdu: &[u8]) -> Option<usize>
    ensures place { IfSome result (λ at. IsDigestPlace pdu.now at) }
    ensures within { IfSome result (λ at. at + 16 ≤ length pdu.now) }
{
    let header = header_in(pdu)?;
    let tlv = auth_tlv(pdu, header)?;
    if tlv.value.len() != 17 || tlv.value[0] != 54 {
        return None;
    }
    let at = tlv.place.checked_add(3)?;
    if at.checked_add(16)? > pdu.len() {
        return None;
    }
    Some(at)
}

/// Spoils the digest of a PDU; answers whether there is one.
fn spoil(pdu: &mut [u8]) -> bool {
    let Some(at) = place_in(pdu) else {
        return false;
    };
    pdu[at..at + 16].fill(0xaa);
    true
}

/// Signs a PDU; answers whether there is a place for its digest.
fn sign(key: &[u8], pdu: &mut [u8]) -> bool {
    let Some(at) = place_in(pdu) else {
        return false;
    };
    sign_pdu(key, pdu, at);
    true
}

/// Whether a PDU whose digest is spoilt is found wrong, and has its digest again once it is signed.
fn is_signed_again(alloc: Global, row: &str) -> Option<bool> {
    let (key, hex) = row.split_once(' ')?;
    let key = octets_of(alloc, key)?;
    let mut pdu = octets_of(alloc, hex)?;
    let is_spoilt = spoil(&mut pdu) && judged(&key, &pdu) == Some(Err(AuthFault::Wrong));
    Some(is_spoilt && sign(&key, &mut pdu) && is_hex(alloc, &pdu, hex)?)
}

fn first_missigned<'a>(alloc: Global, rows: &'a str) -> Option<&'a str> {
    for row in rows.lines() {
        if is_signed_again(alloc, row) != Some(true) {
            return Some(row);
        }
    }
    None
}

#[test]
fn signing_gives_the_digest_of_others(rt: HostRuntime) {
    assert_eq!(rt; first_missigned(rt.alloc(), GOOD), None);
}
