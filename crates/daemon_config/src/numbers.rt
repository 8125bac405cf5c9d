//! Numbers and addresses read from their texts.
ghost use Rattle.std.specs.Prelude.{◌≡◌, ◌≢◌, ◌≤◌, ◌<◌, true, [], ◌∷◌, length, IfSome, MatchOption};
ghost use Rattle.std.specs.Char.{is_ascii_digit};
ghost use Rattle.std.specs.List.{list_all};
ghost use Rattle.daemon_config.specs.Fields.{has_plain_lead, bounded, number_within, octet_of, port_of, parts_at, host_of, address_of};

use daemon_edge::Address;
use line_cuts::cut;

/// Reads an address, as `10.0.0.1:7001`.
#[tactic(auto, using(crate::proofs::NumberLemmas::not_two), unfolding(crate::specs::Fields::address_of))]
pub(crate) fn read_address(text: &[u8]) -> Option<Address>
    ensures { result ≡ address_of text.now }
{
    let (host, port) = two_parts(text)?;
    let host = read_host(host)?;
    let port = read_port(port)?;
    Some(Address { host, port })
}

/// Reads an IPv4 address, as `10.0.0.1`.
#[tactic(auto, using(crate::proofs::NumberLemmas::not_four), unfolding(crate::specs::Fields::host_of, crate::specs::Fields::host_number))]
pub fn read_host(text: &[u8]) -> Option<u32>
    ensures { result ≡ host_of text.now }
{
    let (first, second, third, fourth) = four_parts(text)?;
    let first = read_octet(first)?;
    let second = read_octet(second)?;
    let third = read_octet(third)?;
    let fourth = read_octet(fourth)?;
    Some(u32::from_be_bytes([first, second, third, fourth]))
}

/// The two parts of a text with a colon between.
fn two_parts(text: &[u8]) -> Option<(&[u8], &[u8])>
    ensures { MatchOption result
        (length (parts_at 58 text.now) ≢ 2)
        (λ parts. parts_at 58 text.now ≡ parts.0.now ∷ parts.1.now ∷ []) }
{
    let (first, behind) = first_part(text, b':')?;
    let second = only_part(behind, b':')?;
    Some((first, second))
}

/// The four parts of a text with dots between.
fn four_parts(text: &[u8]) -> Option<(&[u8], &[u8], &[u8], &[u8])>
    ensures { MatchOption result
        (length (parts_at 46 text.now) ≢ 4)
        (λ parts. parts_at 46 text.now
        ≡ parts.0.now ∷ parts.1.now ∷ parts.2.now ∷ parts.3.now ∷ []) }
{
    let (first, behind) = first_part(text, b'.')?;
    let (second, behind) = first_part(behind, b'.')?;
    let (third, behind) = first_part(behind, b'.')?;
    let fourth = only_part(behind, b'.')?;
    Some((first, second, third, fourth))
}

/// The octets before the first mark, and those behind it; none where there is no mark.
#[tactic(auto, unfolding(crate::specs::Fields::parts_at))]
fn first_part(text: &[u8], mark: u8) -> Option<(&[u8], &[u8])>
    ensures { MatchOption result
        (length (parts_at mark text.now) ≡ 1)
        (λ parts. parts_at mark text.now ≡ parts.0.now ∷ parts_at mark parts.1.now) }
{
    match cut(text, mark) {
        (part, Some(behind)) => Some((part, behind)),
        (_, None) => None,
    }
}

/// All octets, where no mark is among them.
#[tactic(auto, unfolding(crate::specs::Fields::parts_at))]
fn only_part(text: &[u8], mark: u8) -> Option<&[u8]>
    ensures { MatchOption result
        (1 < length (parts_at mark text.now))
        (λ part. parts_at mark text.now ≡ part.now ∷ []) }
{
    match cut(text, mark) {
        (_, Some(_)) => None,
        (part, None) => Some(part),
    }
}

/// Reads an octet of an IPv4 address.
fn read_octet(text: &[u8]) -> Option<u8>
    ensures { result ≡ octet_of text.now }
{
    let number = read_number(text, 0, 255)?;
    Some(number as u8)
}

/// Reads a UDP port (RFC 768), 1 to 65,535.
fn read_port(text: &[u8]) -> Option<u16>
    ensures { result ≡ port_of text.now }
{
    let number = read_number(text, 1, 65_535)?;
    Some(number as u16)
}

/// Reads a number of decimal digits without sign or leading zeros, within two bounds.
#[tactic(auto, unfolding(crate::specs::Fields::number_within))]
fn read_number(text: &[u8], least: u32, most: u32) -> Option<u32>
    ensures value { result ≡ number_within least most text.now }
    ensures within { IfSome result (λ number. number ≤ most) }
{
    if !leads_plainly(text) {
        return None;
    }
    if !all_digits(text) {
        return None;
    }
    match std::str::from_utf8(text) {
        Ok(digits) => match digits.parse::<u32>() {
            Ok(number) => bounded(number, least, most),
            Err(_) => None,
        },
        Err(_) => None,
    }
}

/// A number within two bounds.
fn bounded(number: u32, least: u32, most: u32) -> Option<u32>
    ensures value { result ≡ bounded least most number }
    ensures within { IfSome result (λ number. number ≤ most) }
{
    if least <= number && number <= most {
        return Some(number);
    }
    None
}

/// Whether there is something, and no 0 before another digit.
fn leads_plainly(text: &[u8]) -> bool
    ensures { result ≡ has_plain_lead text.now }
{
    match text {
        [] => false,
        [_] => true,
        [first, ..] => *first != b'0',
    }
}

/// Whether all octets are decimal digits.
fn all_digits(text: &[u8]) -> bool
    ensures { result ≡ list_all is_ascii_digit text.now }
{
    text.iter().all(|byte| byte.is_ascii_digit())
}
