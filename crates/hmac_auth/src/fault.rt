//! Why a PDU isn't authentic.
use std::error::Error;
use std::fmt;

/// Why a PDU isn't authentic.
#[derive(Clone, Copy, Debug, PartialEq, Eq)]
pub enum AuthFault {
    /// There is no TLV of code 10.
    Missing,
    /// The first TLV of code 10 isn't HMAC-MD5: its length isn't 17, or its type isn't 54.
    OtherType,
    /// A purge, an LSP of remaining lifetime 0, has a TLV of another code.
    PurgeBody,
    /// The digest isn't that of the PDU under the key.
    Wrong,
}

impl fmt::Display for AuthFault {
    ghost use Rattle.std.specs.Prelude.{Some};
    ghost use Rattle.hmac_auth.specs.Faults.{auth_fault_text};

    ghost output = { λ fault. Some (auth_fault_text fault) };

    fn fmt<W: fmt::Write>(&self, f: &mut fmt::Formatter<W>) -> fmt::Result {
        match self {
            AuthFault::Missing => write!(f, "the PDU has no authentication"),
            AuthFault::OtherType => write!(f, "the authentication isn't HMAC-MD5"),
            AuthFault::PurgeBody => write!(f, "a purge has more than its authentication"),
            AuthFault::Wrong => write!(f, "the digest isn't that of the PDU under the key"),
        }
    }
}

impl Error for AuthFault {}
