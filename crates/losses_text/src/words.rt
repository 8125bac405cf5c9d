//! How many losses, and which part of all schedules, words ask for.
ghost use Rattle.std.specs.Prelude.{◌≡◌, ◌≤◌, IfSome};
ghost use Rattle.losses_text.specs.Words.{most_in, part_in, part_from};

use crate::part_words::PartOf;
use line_cuts::{cut, read_up_to};

/// The word K: a digit from 1 to 9.
pub fn read_most(word: &[u8]) -> Option<u32>
    ensures most { result ≡ most_in word.now }
    ensures within { IfSome result (λ most. (1 ≤ most) × (most ≤ 9)) }
{
    match word {
        [digit] if b'1' <= *digit && *digit <= b'9' => Some(u32::from(*digit - b'0')),
        _ => None,
    }
}

/// The word `I/M`: decimal numbers, where I is from 1 to M and M at most 65,535.
pub fn read_part(word: &[u8]) -> Option<PartOf>
    ensures part { result ≡ part_in word.now }
    ensures within { IfSome result (λ part. (1 ≤ part.number) × (part.number ≤ part.of) × (part.of ≤ 65535)) }
{
    let (number, behind) = cut(word, b'/');
    let (of, more) = cut(behind?, b'/');
    match more {
        Some(_) => None,
        None => part_from(read_up_to(number, 65535), read_up_to(of, 65535)),
    }
}

/// A part by its number and how many there are.
pub(crate) fn part_from(number: Option<u32>, of: Option<u32>) -> Option<PartOf>
    requires { IfSome of (λ of. of ≤ 65535) }
    ensures part { result ≡ part_from number of }
    ensures within { IfSome result (λ part. (1 ≤ part.number) × (part.number ≤ part.of) × (part.of ≤ 65535)) }
{
    let number = number?;
    let of = of?;
    if number == 0 || number > of {
        return None;
    }
    Some(PartOf { number, of })
}
