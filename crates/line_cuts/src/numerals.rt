//! Decimal numbers.
ghost use Rattle.std.specs.Prelude.{◌≡◌, true, IfSome};
ghost use Rattle.std.specs.Char.{is_ascii_digit};
ghost use Rattle.std.specs.List.{list_all};
ghost use Rattle.std.specs.Str.Parse.{digits_value};
ghost use Rattle.line_cuts.specs.Numerals.{has_plain_lead, numeral_of};

/// The number of a word: decimal digits without sign or leading zero, up to 128 bits.
pub fn read_number(word: &[u8]) -> Option<u128>
    ensures { result ≡ numeral_of word.now }
{
    if !leads_plainly(word) {
        return None;
    }
    if let Some(number) = read_short(word) {
        return Some(u128::from(number));
    }
    if !all_digits(word) {
        return None;
    }
    match std::str::from_utf8(word) {
        Ok(text) => text.parse::<u128>().ok(),
        Err(_) => None,
    }
}

/// Whether there is something, and no 0 before another digit.
fn leads_plainly(word: &[u8]) -> bool
    ensures { result ≡ has_plain_lead word.now }
{
    match word {
        [] => false,
        [_] => true,
        [first, ..] => *first != b'0',
    }
}

/// The number of a word of digits, where it has up to 64 bits. This is how nearly all numbers are read.
fn read_short(word: &[u8]) -> Option<u64>
    ensures { IfSome result (λ number. (list_all is_ascii_digit word.now ≡ true)
        × (digits_value 10 word.now ≡ number)) }
{
    let mut left = word;
    let mut number = 0u64;
    while let [digit, behind @ ..] = left {
        if !digit.is_ascii_digit() {
            return None;
        }
        let Some(tens) = number.checked_mul(10) else {
            return None;
        };
        let Some(more) = tens.checked_add(u64::from(*digit - b'0')) else {
            return None;
        };
        number = more;
        left = behind;
    }
    Some(number)
}

fn all_digits(word: &[u8]) -> bool
    ensures { result ≡ list_all is_ascii_digit word.now }
{
    word.iter().all(|byte| byte.is_ascii_digit())
}
