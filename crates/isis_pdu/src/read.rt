//! PDUs read.
ghost use Rattle.std.specs.Prelude.{◌≡◌, ℕ, ◌↔◌, Ok};
ghost use Rattle.std.specs.Result.{result_err};
ghost use Rattle.isis_pdu.specs.Views.{PduView, decoded_view};
ghost use Rattle.isis_pdu.specs.Table.{first_fault};
ghost use Rattle.isis_pdu.specs.Reading.{Begins};
ghost use Rattle.isis_pdu.specs.Decoded.{decoded};

use crate::check::{check_kind, check_start};
use crate::fault::PduFault;
use crate::fields::value_at;
use crate::pdu::Pdu;

/// The PDU that octets begin with, and its length in octets; octets past it aren't looked at (ISO 10589 9). Where there
/// is none, the fault of the first test that fails, in this order: eight octets are there, the discriminator, the
/// version, the ID length, the type, the other version and the number of areas are right, the header length is the
/// type's, the header is there, a hello's circuit type has a level, the PDU length fits, and what it holds behind the
/// header are TLVs.
pub fn decode(octets: &[u8]) -> Result<(Pdu<'_>, usize), PduFault>
    ensures ok { (pdu : PduView) (n : ℕ) → (decoded_view result ≡ Ok (pdu, n))
        ↔ Begins octets.now pdu n }
    ensures err { result_err result ≡ first_fault octets.now }
    ensures value { decoded_view result ≡ decoded octets.now }
{
    let kind = check_start(octets)?;
    let end = check_kind(kind, octets)?;
    let header = usize::from(kind.header_length());
    let pdu = value_at(kind, octets, &octets[header..end]);
    Ok((pdu, end))
}
