//! Texts made of octets in hex and of marks.
ghost use Rattle.std.specs.Prelude.{◌≡◌, ◌≤◌, ◌<◌, length, take, SomeIff, IfNone};
ghost use Rattle.std.specs.Char.{digit_value};
ghost use Rattle.isis_base.specs.Texts.{octet_count};
ghost use Rattle.isis_base.specs.Misfit.{pair_of, misfit_of, octets_of};

/// One piece of a text: an octet as two hex digits, or a mark between octets.
#[derive(Clone, Copy, Debug, PartialEq, Eq)]
pub enum Part {
    Octet,
    Mark(u8),
}

/// The value of a hex digit, of either case.
fn hex_value(digit: u8) -> Option<u8>
    ensures { SomeIff result (digit_value digit < 16) (digit_value digit) }
{
    match char::from(digit).to_digit(16) {
        Some(value) => Some(value as u8),
        None => None,
    }
}

/// The octet of two hex digits, or how many of the two are digits before the first that is none.
fn pair_value(high: u8, low: u8) -> Result<u8, usize>
    ensures { result ≡ pair_of high low }
{
    let Some(high) = hex_value(high) else {
        return Err(0);
    };
    let Some(low) = hex_value(low) else {
        return Err(1);
    };
    Ok(16 * high + low)
}

/// Reads a text of this form into the first octets. Answers the place of the first octet of the text that
/// doesn't fit, or the text's length where it ends too early.
#[tactic(auto, unfolding(crate::specs::Misfit::misfit_of, crate::specs::Misfit::octets_of))]
pub fn read_parts(octets: &mut [u8], text: &[u8], parts: &[Part]) -> Option<usize>
    requires { octet_count parts.now ≤ length octets.old }
    ensures place { result ≡ misfit_of parts.now text.now }
    ensures octets { IfNone result
        (take (octet_count parts.now) octets.new ≡ octets_of parts.now text.now) }
{
    let (mut rest, mut left) = (text, parts);
    let (mut at, mut count) = (0usize, 0usize);
    while let [part, others @ ..] = left {
        match (part, rest) {
            (Part::Mark(mark), [byte, more @ ..]) if *byte == *mark => {
                rest = more;
                at += 1;
            }
            (Part::Mark(_), _) => return Some(at),
            (Part::Octet, [high, low, more @ ..]) => match pair_value(*high, *low) {
                Ok(octet) => {
                    octets[count] = octet;
                    count += 1;
                    rest = more;
                    at += 2;
                }
                Err(digits) => return Some(at + digits),
            },
            (Part::Octet, [high]) => return Some(if hex_value(*high).is_some() {
                at + 1
            } else {
                at
            }),
            (Part::Octet, []) => return Some(at),
        }
        left = others;
    }
    if rest.is_empty() { None } else { Some(at) }
}
