//! The walk over TLVs.
ghost use Rattle.std.specs.Prelude.{◌≡◌, ◌+◌, ◌^◌, ◌<◌, ◌≤◌, ◌↔◌, length, IsTrue};
ghost use Rattle.isis_tlv.specs.Tlvs.{AreTlvs, tlv_at, tlvs_of};
ghost use Rattle.isis_tlv.specs.TlvViews.{found_view};

use crate::left::Left;
use std::error::Error;
use std::fmt;
use std::marker::Model;

/// One TLV (ISO 10589 9.5). `place` is that of its code; the value begins two octets later.
#[derive(Clone, Copy, Debug, PartialEq, Eq)]
pub struct Tlv<'a> {
    pub code: u8,
    pub place: usize,
    pub value: &'a [u8],
}

/// The octets at a place are no TLV.
#[derive(Clone, Copy, Debug, PartialEq, Eq)]
pub enum TlvFault {
    /// One octet is left: a code without a length.
    Header { place: usize },
    /// The value would pass the end.
    Past { place: usize },
}

impl fmt::Display for TlvFault {
    ghost use Rattle.std.specs.Prelude.{Some};
    ghost use Rattle.isis_tlv.specs.Faults.{tlv_fault_text};

    ghost output = { λ fault. Some (tlv_fault_text fault) };

    fn fmt<W: fmt::Write>(&self, f: &mut fmt::Formatter<W>) -> fmt::Result {
        match self {
            TlvFault::Header { place } => write!(f, "the TLV at octet {place} has no length"),
            TlvFault::Past { place } => write!(
                f,
                "the value of the TLV at octet {place} passes the end"
            ),
        }
    }
}

impl Error for TlvFault {}

/// The TLVs of some octets, in order. A fault is the last item. Contracts see what is left: the TLVs and the fault.
#[derive(Debug, Drop)]
pub struct Tlvs<'a> {
    left: Left<'a>,
}

impl<'a> Model for Tlvs<'a> {
    ghost use Rattle.std.specs.Prelude.{List, Result};
    ghost use Rattle.isis_tlv.specs.declared.tlv.TlvFault.{TlvFault};
    ghost use Rattle.isis_tlv.specs.Tlvs.{TlvView, tlvs_of};

    ghost Value = { List (Result TlvView TlvFault) };

    ghost view = { λ walk. tlvs_of walk.left.place walk.left.octets.now };
}

impl<'a> Tlvs<'a> {
    /// The TLVs of the octets, whose first one is counted as `first`.
    pub fn new(octets: &'a [u8], first: usize) -> Tlvs<'a>
        requires { first + length octets.now < 2 ^ 64 }
        ensures { result ≡ tlvs_of first octets.now }
    {
        let left = Left {
            octets,
            place: first,
        };
        Tlvs { left }
    }
}

/// Whether octets are TLVs to their end (ISO 10589 9.5).
pub fn are_tlvs(octets: &[u8]) -> bool
    ensures { IsTrue result ↔ AreTlvs octets.now }
{
    for tlv in Tlvs::new(octets, 0) {
        match tlv {
            Ok(_) => {}
            Err(_) => return false,
        }
    }
    true
}

impl<'a> Iterator for Tlvs<'a> {
    ghost use Rattle.std.specs.Iterator.{YieldsFirstBy, item_count};
    ghost use Rattle.isis_tlv.specs.TlvViews.{tlv_view};

    type Item = Result<Tlv<'a>, TlvFault>;

    ghost next_gives = { YieldsFirstBy tlv_view (λ rest. rest) };

    ghost remaining = { item_count (λ rest. rest) };

    fn next(&mut self) -> Option<Result<Tlv<'a>, TlvFault>> {
        if self.left.is_done() {
            return None;
        }
        match tlv_at(self.left) {
            Ok(tlv) => {
                self.left.pass(2 + tlv.value.len());
                Some(Ok(tlv))
            }
            Err(fault) => {
                self.left.stop();
                Some(Err(fault))
            }
        }
    }
}

/// The TLV that stands first, or the fault there.
fn tlv_at(left: Left<'_>) -> Result<Tlv<'_>, TlvFault>
    requires { 0 < length left.octets.now }
    ensures { found_view result ≡ tlv_at left.entry.place left.entry.octets.now }
{
    let place = left.place;
    let [code, count, octets @ ..] = left.octets else {
        return Err(TlvFault::Header { place });
    };
    let count = usize::from(*count);
    if count > octets.len() {
        return Err(TlvFault::Past { place });
    }
    let code = *code;
    let value = &octets[..count];
    Ok(Tlv { code, place, value })
}
