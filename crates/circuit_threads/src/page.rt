//! Octets that wait to be written.
ghost use Rattle.std.specs.Prelude.{◌≡◌, ◌+◌, ◌*◌, ◌<◌, ◌≤◌, [], ◌++◌, length, decimal};
ghost use Rattle.isis_base.specs.PrefixTexts.{prefix_text};
ghost use Rattle.circuit_threads.specs.JournalText.{hex_text};

use hex::encode_to_slice;
use isis_base::Prefix;
use isis_base::laws::octets_law;
use itoa::Buffer;
use std::marker::Model;

/// The greatest number of octets of a page.
const MOST: usize = 2048;

/// Octets that wait to be written, at most 2,048, kept without memory of the heap. Contracts see
/// the list of them.
#[derive(Drop)]
pub(crate) struct Page {
    octets: [u8; MOST],
    len: usize,
}

impl Model for Page {
    ghost use Rattle.std.specs.Prelude.{ℕ, List, ◌≤◌, take};

    ghost Value = { List ℕ };

    ghost view = { λ page. take page.len page.octets };

    ghost invariant = { λ page. page.len ≤ 2048 };
}

impl Page {
    /// A page of no octets.
    pub(crate) fn new() -> Page
        ensures { result ≡ [] }
    {
        Page {
            octets: [0; MOST],
            len: 0,
        }
    }

    /// How many octets more there is room for.
    pub(crate) fn room(&self) -> usize
        ensures { result + length self.now ≡ 2048 }
    {
        MOST - self.len
    }

    /// The octets, lent.
    pub(crate) fn as_slice(&self) -> &[u8]
        ensures { result.now ≡ self.now }
    {
        &self.octets[..self.len]
    }

    /// Lets all octets go.
    pub(crate) fn clear(&mut self)
        ensures { self.new ≡ [] }
    {
        self.len = 0;
    }

    /// Adds octets at the end.
    pub(crate) fn add(&mut self, piece: &[u8])
        requires { length self.old + length piece.now ≤ 2048 }
        ensures { self.new ≡ self.old ++ piece.now }
    {
        let end = self.len + piece.len();
        self.octets[self.len..end].copy_from_slice(piece);
        self.len = end;
    }

    /// Adds octets in hex.
    pub(crate) fn add_hex(&mut self, octets: &[u8])
        requires { length self.old + 2 * length octets.now ≤ 2048 }
        ensures { self.new ≡ self.old ++ hex_text octets.now }
    {
        let end = self.len + 2 * octets.len();
        put_hex(octets, &mut self.octets[self.len..end]);
        self.len = end;
    }

    /// Adds a word, of at most 20 octets, and a number.
    pub(crate) fn add_number(&mut self, word: &[u8], number: u64)
        requires { (length self.old + 40 ≤ 2048) × (length word.now ≤ 20) }
        ensures text { self.new ≡ self.old ++ (word.now ++ decimal number) }
        ensures count { length self.new ≤ length self.old + 40 }
    {
        let mut digits = Buffer::new();
        self.add(word);
        self.add(digits.format(number).as_bytes());
    }

    /// Adds the text of a prefix.
    pub(crate) fn add_prefix(&mut self, prefix: Prefix)
        requires { length self.old + 200 ≤ 2048 }
        ensures text { self.new ≡ self.old ++ prefix_text prefix.address prefix.length }
        ensures count { length self.new ≤ length self.old + 200 }
    {
        let [a, b, c, d] = prefix.address().to_be_bytes();
        self.add_number(b"", u64::from(a));
        self.add_number(b".", u64::from(b));
        self.add_number(b".", u64::from(c));
        self.add_number(b".", u64::from(d));
        self.add_number(b"/", u64::from(prefix.length()));
    }
}

/// Puts octets in hex, which fill their place.
fn put_hex(octets: &[u8], into: &mut [u8])
    requires { length into.old ≡ 2 * length octets.now }
    ensures { into.new ≡ hex_text octets.now }
{
    octets_law(octets);
    encode_to_slice(octets, into).unwrap();
}
