//! A key's octets, lent.
ghost use Rattle.std.specs.Prelude.{◌≡◌};
ghost use Rattle.std.specs.Option.{option_copied};

use isis_base::Octets;

/// The octets of a key, where there is one, as `Draft` and `put_lsp` take them.
pub fn lent_key(key: Option<&Octets>) -> Option<&[u8]>
    ensures { option_copied result ≡ option_copied key.entry }
{
    match key {
        Some(key) => Some(key.as_slice()),
        None => None,
    }
}
