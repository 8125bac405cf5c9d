//! What holds of all PDUs and of the datagrams that they are sent in: functions without a body, whose contracts are the laws.
ghost use Rattle.std.specs.List.{AllByRecursion};
ghost use Rattle.std.specs.Prelude.{◌≡◌, ◌≢◌, ◌<◌, ◌≤◌, ◌^◌, ℕ, List, ◌++◌, length, take, codes, Ok, Err};
ghost use Rattle.isis_base.specs.Fields.{u32_octets};
ghost use Rattle.isis_base.specs.PduKinds.{header_length};
ghost use Rattle.isis_base.specs.declared.identifiers.Snpa.{Snpa};
ghost use Rattle.isis_tlv.specs.Framed.{IsPdu};
ghost use Rattle.isis_pdu.specs.Layout.{kind_of};
ghost use Rattle.isis_pdu.specs.Views.{PduView};
ghost use Rattle.isis_pdu.specs.Reading.{Begins};
ghost use Rattle.isis_pdu.specs.Frames.{framed, unframed};
ghost use Rattle.isis_pdu.specs.Spelling.{IsWritable, encoded_len, octets_of_pdu};

/// What is written of a PDU has its length and reads as the PDU, whatever follows. So `decode` gives the PDU and its
/// length back.
pub fn round_trip_law()
    ensures sized { (pdu : PduView) → IsWritable pdu → length (octets_of_pdu pdu) ≡ encoded_len pdu }
    ensures begins { (pdu : PduView) (more : List ℕ) → IsWritable pdu
        → Begins (octets_of_pdu pdu ++ more) pdu (encoded_len pdu) }
{}

/// The octets of a PDU that was read are a header of its type and TLVs. So they are what authentication asks for.
pub fn framed_law()
    ensures { (octets : List ℕ) (pdu : PduView) (n : ℕ) → Begins octets pdu n
        → IsPdu (take n octets) (header_length (kind_of pdu)) }
{}

/// The datagram of an SNPA, a boot number and a PDU has just these, begins with `ISU2`, and is fourteen octets longer than the PDU.
pub fn frame_laws()
    ensures again { (snpa : Snpa) (boot : ℕ) (pdu : List ℕ) → length snpa.0 ≡ 6 → boot < 2 ^ 32
        → unframed (framed snpa boot pdu) ≡ Ok (snpa, boot, pdu) }
    ensures begins { (snpa : Snpa) (boot : ℕ) (pdu : List ℕ)
        → framed snpa boot pdu ≡ codes "ISU2" ++ (snpa.0 ++ (u32_octets boot ++ pdu)) }
    ensures whole { (datagram pdu : List ℕ) (snpa : Snpa) (boot : ℕ)
        → AllByRecursion (λ octet. octet < 256) datagram
        → unframed datagram ≡ Ok (snpa, boot, pdu) → framed snpa boot pdu ≡ datagram }
{}
