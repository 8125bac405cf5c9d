//! A TLV put behind others.
ghost use Rattle.std.specs.Prelude.{◌≡◌, ◌≤◌, ◌++◌, length, OnOk, OnErr};
ghost use Rattle.isis_tlv.specs.Tlvs.{tlv_octets};

use isis_base::{Octets, OutOfMemory};

/// Adds a TLV of this code and value at the end. At `OutOfMemory` the list is as it was.
pub fn put_tlv(out: &mut Octets, code: u8, value: &[u8]) -> Result<(), OutOfMemory>
    requires { length value.now ≤ 255 }
    ensures ok { OnOk result (out.new ≡ out.old ++ tlv_octets code value.now) }
    ensures err { OnErr result (out.new ≡ out.old) }
{
    let before = out.len();
    let header = [code, value.len() as u8];
    out.extend(&header)?;
    if let Err(fault) = out.extend(value) {
        out.truncate(before);
        return Err(fault);
    }
    Ok(())
}
