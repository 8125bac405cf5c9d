//! The hex digits of an octet.
ghost use Rattle.std.specs.Prelude.{◌≡◌, ◌<◌, ◌/◌, ◌%◌};
ghost use Rattle.std.specs.Char.{digit_char};

/// The hex digit of a value.
fn digit(value: u8) -> u8
    requires { value < 16 }
    ensures { result ≡ digit_char value }
{
    if value < 10 {
        b'0' + value
    } else {
        b'a' - 10 + value
    }
}

/// The first hex digit of an octet.
pub(crate) fn high(octet: u8) -> u8
    ensures { result ≡ digit_char (octet / 16) }
{
    digit(octet / 16)
}

/// The second hex digit of an octet.
pub(crate) fn low(octet: u8) -> u8
    ensures { result ≡ digit_char (octet % 16) }
{
    digit(octet % 16)
}
