//! IPv4 addresses and protocols, the values of codes 132 and 129, which are only written.
ghost use Rattle.std.specs.Prelude.{◌≡◌, ◌≤◌, ◌*◌, ◌++◌, length, OnOk, OnErr};
ghost use Rattle.isis_tlv.specs.Spelling.{address_value, address_tlv, protocol_tlv};

use crate::codes;
use crate::put::put_tlv;
use isis_base::{Draft, Octets, OutOfMemory};

/// Adds a TLV of code 132 with these IPv4 addresses, at most 63, each with its first octet the greatest. At
/// `OutOfMemory` the list is as it was.
pub fn put_addresses(out: &mut Octets, list: &[u32]) -> Result<(), OutOfMemory>
    requires { 4 * length list.now ≤ 255 }
    ensures ok { OnOk result (out.new ≡ out.old ++ address_tlv list.now) }
    ensures err { OnErr result (out.new ≡ out.old) }
    ensures sized { length (address_value list.now) ≡ 4 * length list.now }
{
    let mut draft = Draft::new();
    for address in list {
        draft.add(&address.to_be_bytes());
    }
    put_tlv(out, codes::ADDRESSES, draft.as_slice())
}

/// Adds the TLV of code 129 that names IPv4 alone. At `OutOfMemory` the list is as it was.
pub fn put_protocols(out: &mut Octets) -> Result<(), OutOfMemory>
    ensures ok { OnOk result (out.new ≡ out.old ++ protocol_tlv) }
    ensures err { OnErr result (out.new ≡ out.old) }
{
    put_tlv(out, codes::PROTOCOLS, &[0xcc])
}
