//! Area addresses read from their texts.
ghost use Rattle.std.specs.Prelude.{◌≡◌, ℕ, List, IfOk, IfErr, Ok};
ghost use Rattle.std.specs.Result.{result_ok};
ghost use Rattle.isis_base.specs.AreaTexts.{SpellsArea, IsAreaText, octets_of_length, area_of};
ghost use Rattle.isis_base.specs.Texts.{IsFaultAt};

use crate::area::AreaAddress;
use crate::parts::{Part, read_parts};
use crate::texts::TextFault;

/// The form of an area address of 13 octets, as `49.0001.0002.0003.0004.0005.0006`. The texts of shorter ones
/// are its fronts that end with an octet.
pub const AREA_TEXT: [Part; 19] = [
    Part::Octet,
    Part::Mark(b'.'),
    Part::Octet,
    Part::Octet,
    Part::Mark(b'.'),
    Part::Octet,
    Part::Octet,
    Part::Mark(b'.'),
    Part::Octet,
    Part::Octet,
    Part::Mark(b'.'),
    Part::Octet,
    Part::Octet,
    Part::Mark(b'.'),
    Part::Octet,
    Part::Octet,
    Part::Mark(b'.'),
    Part::Octet,
    Part::Octet,
];

/// Reads an area address, as `49.0001` or `49.0001.02`.
pub fn read_area(text: &str) -> Result<AreaAddress, TextFault>
    ensures ok { IfOk result (λ area. SpellsArea text.now area) }
    ensures read { (octets : List ℕ) → SpellsArea text.now octets → result ≡ Ok octets }
    ensures value { result_ok result ≡ area_of text.now }
    ensures err { IfErr result (λ fault. IsFaultAt IsAreaText text.now fault.place) }
{
    let mut octets = [0u8; 13];
    let count = octets_of_length(text.len());
    let form = &AREA_TEXT[..count + count / 2];
    match read_parts(&mut octets, text.as_bytes(), form) {
        Some(place) => Err(TextFault { place }),
        None => Ok(AreaAddress::new(&octets[..count]).unwrap()),
    }
}

/// The number of octets of the area addresses whose texts have this length: the least whose text is no shorter,
/// since the text of `n` octets has `2 * n + n / 2`.
fn octets_of_length(length: usize) -> usize
    ensures { result ≡ octets_of_length length }
{
    (2 * length.min(32)).div_ceil(5).max(1)
}
