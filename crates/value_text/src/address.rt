//! IPv4 addresses, the value of code 132.

use isis_base::fields::u32_at;
use isis_tlv::Item;

/// An IPv4 address of an interface (RFC 1195 5.3).
#[derive(Clone, Copy, Debug, PartialEq, Eq)]
pub(crate) struct Address {
    pub number: u32,
}

impl Item for Address {
    ghost use Rattle.value_text.specs.Addresses.{address_at};
    ghost use Rattle.value_text.specs.Takes.{address-takes_one};

    ghost first = { address_at };

    ghost takes = { address-takes_one };

    fn read_first(octets: &[u8]) -> Option<(Address, usize)> {
        if octets.len() < 4 {
            return None;
        }
        let number = u32_at(octets, 0);
        Some((Address { number }, 4))
    }
}
