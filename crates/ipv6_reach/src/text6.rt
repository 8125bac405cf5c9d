//! The texts of IPv6 prefixes (RFC 4291 2.2, 2.3).

ghost use Rattle.std.specs.Prelude.{◌≡◌, ◌≤◌, ◌/◌, ◌%◌, ◌^◌, Some};
ghost use Rattle.ipv6_reach.specs.Texts6.{group_of, four_text, prefix6_text};

use crate::prefix6::Prefix6;
use std::fmt;

/// Four groups of an address.
#[derive(Clone, Copy)]
struct Four(u16, u16, u16, u16);

impl fmt::Display for Four {
    ghost output = { λ four. Some (four_text four.0 four.1 four.2 four.3) };

    fn fmt<W: fmt::Write>(&self, f: &mut fmt::Formatter<W>) -> fmt::Result {
        let (a, b, c, d) = (self.0, self.1, self.2, self.3);
        write!(f, "{a:x}:{b:x}:{c:x}:{d:x}")
    }
}

/// The group of an address above so many bits.
fn group_of(address: u128, bits: u8) -> u16
    requires { bits ≤ 112 }
    ensures { result ≡ group_of address bits }
{
    ((address >> bits) % 65536) as u16
}

/// Eight groups of lower-case hex without leading zeros, parted by `:`, then `/` and the length; nothing is left out for `::` (own).
impl fmt::Display for Prefix6 {
    ghost output = { λ prefix. Some (prefix6_text prefix.address prefix.length) };

    fn fmt<W: fmt::Write>(&self, f: &mut fmt::Formatter<W>) -> fmt::Result {
        let (address, length) = (self.address(), self.length());
        let high = Four(
            group_of(address, 112),
            group_of(address, 96),
            group_of(address, 80),
            group_of(address, 64),
        );
        let low = Four(
            group_of(address, 48),
            group_of(address, 32),
            group_of(address, 16),
            group_of(address, 0),
        );
        write!(f, "{high}:{low}/{length}")
    }
}
