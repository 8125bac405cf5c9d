//! A name in a script.
ghost use Rattle.std.specs.Prelude.{◌≡◌};

use std::marker::Model;

/// A name in a script: a letter, then up to 15 letters or digits. Contracts see it as its octets.
#[derive(Drop)]
pub struct Name<'a> {
    letters: &'a str,
}

impl<'a> Model for Name<'a> {
    ghost use Rattle.std.specs.Prelude.{ℕ, List};

    ghost Value = { List ℕ };

    ghost view = { λ name. name.letters.now };
}

impl<'a> Name<'a> {
    /// The name of these letters and digits.
    pub(crate) fn new(letters: &'a str) -> Name<'a>
        ensures { result ≡ letters.now }
    {
        Name { letters }
    }

    /// Its letters and digits.
    pub fn letters(&self) -> &'a str
        ensures { result.now ≡ self.now }
    {
        self.letters
    }
}
