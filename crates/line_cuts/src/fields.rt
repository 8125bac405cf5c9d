//! What words of several kinds of lines say.
ghost use Rattle.std.specs.Prelude.{◌≡◌, ◌≤◌, IfSome};
ghost use Rattle.line_cuts.specs.Fields.{prefix_of, on_of};
ghost use Rattle.line_cuts.specs.Numerals.{number_to};

use crate::numerals::read_number;
use isis_base::{Prefix, read_prefix};

/// The number of a word, up to the greatest.
pub fn read_up_to(word: &[u8], greatest: u32) -> Option<u32>
    ensures value { result ≡ number_to greatest word.now }
    ensures within { IfSome result (λ number. number ≤ greatest) }
{
    let number = read_number(word)?;
    match u32::try_from(number) {
        Ok(number) if number <= greatest => Some(number),
        _ => None,
    }
}

/// The prefix of a word.
pub fn read_prefix_word(word: &[u8]) -> Option<Prefix>
    ensures { result ≡ prefix_of word.now }
{
    match std::str::from_utf8(word) {
        Ok(text) => read_prefix(text).ok(),
        Err(_) => None,
    }
}

/// `on` or `off`.
pub fn read_on(word: &[u8]) -> Option<bool>
    ensures { result ≡ on_of word.now }
{
    match word {
        b"on" => Some(true),
        b"off" => Some(false),
        _ => None,
    }
}
