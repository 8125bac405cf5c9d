//! A text up to a mark, and what stands behind it.
ghost use Rattle.std.specs.Prelude.{◌≡◌, ◌<◌, ◌==◌, ◌∷◌, length, IfSome};
ghost use Rattle.std.specs.List.{slice_split};
ghost use Rattle.line_cuts.specs.Cuts.{parts_behind};

use memchr::memchr;

/// The octets before the first mark, and those behind it; all octets where there is no mark.
pub fn cut(text: &[u8], mark: u8) -> (&[u8], Option<&[u8]>)
    ensures parts { slice_split (λ byte. byte == mark) text.now
        ≡ result.0.now ∷ parts_behind mark result.1 }
    ensures less { IfSome result.1 (λ behind. length behind.now < length text.now) }
{
    match memchr(mark, text) {
        Some(place) => (&text[..place], Some(&text[place + 1..])),
        None => (text, None),
    }
}
