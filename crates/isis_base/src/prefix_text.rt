//! Prefixes read from their texts.
ghost use Rattle.std.specs.Prelude.{◌≡◌, ℕ, ◌-◌, ◌%◌, ◌^◌, ◌<◌, ◌≤◌, Option, Some, IfOk, IfErr, IfSome, IsNone, IsOkAnd, true, false};
ghost use Rattle.isis_base.specs.PrefixFronts.{
  address_of_octets,
  is_clear,
  longest,
  with_digit,
  may_stand,
  mark_behind,
  after_digit,
  after_mark,
  after_byte,
  ends_prefix,
  after_text,
  no_front,
  prefix_parts,
};
ghost use Rattle.std.specs.Option.{option_map};
ghost use Rattle.std.specs.Result.{result_ok};
ghost use Rattle.isis_base.specs.PrefixTexts.{SpellsPrefix, IsPrefixText};
ghost use Rattle.isis_base.specs.Texts.{IsFaultAt};

use crate::prefix::Prefix;
use crate::texts::TextFault;

/// What is read of a prefix's text so far.
#[derive(Clone, Copy)]
struct Front {
    /// The octets of the address.
    octets: [u8; 4],
    /// How many of them are read with the mark behind them, 0 to 4.
    count: usize,
    /// The number whose digits are read now.
    number: Option<u8>,
}

/// Reads a prefix, as `10.0.1.0/24`.
pub fn read_prefix(text: &str) -> Result<Prefix, TextFault>
    ensures ok { IfOk result (λ prefix. SpellsPrefix text.now prefix.address prefix.length) }
    ensures read { (address length : ℕ) → SpellsPrefix text.now address length
        → IsOkAnd result (λ prefix. (prefix.address ≡ address) × (prefix.length ≡ length)) }
    ensures value { option_map (λ prefix. (prefix.address, prefix.length)) (result_ok result)
        ≡ prefix_parts text.now }
    ensures err { IfErr result (λ fault. IsFaultAt IsPrefixText text.now fault.place) }
{
    let bytes = text.as_bytes();
    let mut front = Front::new();
    for (place, byte) in bytes.iter().enumerate() {
        match front.after(*byte) {
            Some(next) => front = next,
            None => return Err(TextFault { place }),
        }
    }
    match front.prefix() {
        Some(prefix) => Ok(prefix),
        None => Err(TextFault { place: bytes.len() }),
    }
}

impl Front {
    fn new() -> Front
        ensures { result ≡ no_front }
    {
        Front {
            octets: [0; 4],
            count: 0,
            number: None,
        }
    }

    /// The front with an octet of the text more; none where no prefix's text goes on so.
    fn after(self, byte: u8) -> Option<Front>
        ensures { result ≡ after_byte self byte }
    {
        if byte.is_ascii_digit() {
            self.after_digit(byte - b'0')
        } else {
            self.after_mark(byte)
        }
    }

    fn after_digit(self, digit: u8) -> Option<Front>
        requires { digit < 10 }
        ensures { result ≡ after_digit self digit }
    {
        let number = with_digit(self.number, digit)?;
        if !self.may_stand(number) {
            return None;
        }
        Some(Front {
            number: Some(number),
            ..self
        })
    }

    fn after_mark(self, mark: u8) -> Option<Front>
        ensures { result ≡ after_mark self mark }
    {
        let number = self.number?;
        if self.count >= 4 || mark != mark_behind(self.count) {
            return None;
        }
        let mut octets = self.octets;
        octets[self.count] = number;
        Some(Front {
            octets,
            count: self.count + 1,
            number: None,
        })
    }

    /// The prefix whose text is read; none where the text has to go on.
    #[tactic(auto, unfolding(crate::specs::PrefixFronts::address_of_octets))]
    fn prefix(self) -> Option<Prefix>
        ensures none { IsNone result → ends_prefix self ≡ false }
        ensures some { IfSome result (λ prefix.
            (ends_prefix self ≡ true) × (prefix.address ≡ address_of_octets self.octets) × (Some prefix.length ≡ self.number)) }
    {
        let length = self.number?;
        if self.count < 4 {
            return None;
        }
        Prefix::new(u32::from_be_bytes(self.octets), length)
    }

    /// Whether a number may stand next: any octet, or the beginning of a length that the address has.
    #[tactic(auto, unfolding(crate::specs::PrefixFronts::address_of_octets))]
    fn may_stand(self, number: u8) -> bool
        ensures { result ≡ may_stand self.octets self.count number }
    {
        self.count < 4 || has_length(u32::from_be_bytes(self.octets), longest(number))
    }
}

/// Whether the address has no bit past this length.
fn has_length(address: u32, length: u8) -> bool
    ensures { result ≡ is_clear address length }
{
    Prefix::new(address, length).is_some()
}

/// The greatest length whose digits begin with those of this number.
fn longest(number: u8) -> u8
    ensures { result ≡ longest number }
{
    match number {
        1 => 19,
        2 => 29,
        3 => 32,
        other => other,
    }
}

/// A number with a digit more; none above 255, nor with a leading zero.
fn with_digit(number: Option<u8>, digit: u8) -> Option<u8>
    requires { digit < 10 }
    ensures { result ≡ with_digit number digit }
{
    match number {
        None => Some(digit),
        Some(0) => None,
        Some(number) => number.checked_mul(10)?.checked_add(digit),
    }
}

/// The mark behind an octet of the address.
fn mark_behind(count: usize) -> u8
    ensures { result ≡ mark_behind count }
{
    if count == 3 { b'/' } else { b'.' }
}
