//! Octets written in hex.
ghost use Rattle.std.specs.Prelude.{◌≡◌, ◌<◌, true, IfOk};
ghost use Rattle.std.specs.Char.{digit_value, is_ascii_hexdigit};
ghost use Rattle.std.specs.List.{list_all};
ghost use Rattle.line_cuts.specs.HexTexts.{AreDigits, octets_in, is_octets, octets_of};

use isis_base::{Octets, OutOfMemory};
use std::alloc::Global;
use std::marker::Model;

/// Octets written in hex, in a text. Contracts see it as the octets.
#[derive(Drop)]
pub struct Hex<'a> {
    digits: &'a [u8],
}

impl<'a> Model for Hex<'a> {
    ghost use Rattle.std.specs.Prelude.{ℕ, List};
    ghost use Rattle.line_cuts.specs.HexTexts.{octets_in};

    ghost Value = { List ℕ };

    ghost view = { λ hex. octets_in hex.digits.now };

    ghost use Rattle.line_cuts.specs.HexTexts.{AreDigits};

    ghost invariant = { λ hex. AreDigits hex.digits.now };
}

impl<'a> Hex<'a> {
    /// The octets of these digits, two for each.
    pub fn new(digits: &'a [u8]) -> Hex<'a>
        requires { AreDigits digits.now }
        ensures { result ≡ octets_in digits.now }
    {
        Hex { digits }
    }

    /// The octets, in a list of their own.
    #[tactic(auto, unfolding(crate::specs::HexTexts::octets_in))]
    pub fn octets(&self, alloc: Global) -> Result<Octets, OutOfMemory>
        ensures { IfOk result (λ octets. octets ≡ self.now) }
    {
        let mut octets = Octets::new(alloc);
        let mut left = self.digits;
        while let [high, low, behind @ ..] = left {
            match octets.push(16 * digit(*high) + digit(*low)) {
                Ok(()) => {}
                Err(OutOfMemory) => return Err(OutOfMemory),
            }
            left = behind;
        }
        Ok(octets)
    }
}

/// The octets that a word writes in hex, in upper or lower case; none too.
pub fn read_octets(word: &[u8]) -> Option<Hex<'_>>
    ensures { result ≡ octets_of word.now }
{
    if !reads_octets(word) {
        return None;
    }
    Some(Hex::new(word))
}

/// Whether a word writes octets in hex.
pub fn reads_octets(word: &[u8]) -> bool
    ensures { result ≡ is_octets word.now }
{
    word.len() % 2 == 0 && all_hex(word)
}

/// Whether all of a word are hex digits.
pub fn all_hex(word: &[u8]) -> bool
    ensures { result ≡ list_all is_ascii_hexdigit word.now }
{
    word.iter().all(|byte| byte.is_ascii_hexdigit())
}

/// The value of a hex digit.
fn digit(byte: u8) -> u8
    requires { is_ascii_hexdigit byte ≡ true }
    ensures value { result ≡ digit_value byte }
    ensures small { result < 16 }
{
    match byte {
        b'0'..=b'9' => byte - b'0',
        b'A'..=b'F' => byte - b'A' + 10,
        _ => byte - b'a' + 10,
    }
}
