//! What a word of a line says.
ghost use Rattle.std.specs.Prelude.{◌≡◌};
ghost use Rattle.std.specs.Char.{is_ascii_alphanumeric};
ghost use Rattle.std.specs.List.{list_all};
ghost use Rattle.lab_script.specs.Fields.{is_name, name_of, id_of, mark_of, key_from, key_of, copy_of};

use crate::name::Name;
use isis_base::{Key, LspId, read_lsp_id};
use line_cuts::read_number;

fn all_alphanumeric(word: &[u8]) -> bool
    ensures { result ≡ list_all is_ascii_alphanumeric word.now }
{
    word.iter().all(|byte| byte.is_ascii_alphanumeric())
}

/// The name of a word: a letter, then up to 15 letters or digits.
pub fn read_name(word: &[u8]) -> Option<Name<'_>>
    ensures { result ≡ name_of word.now }
{
    if !reads_name(word) {
        return None;
    }
    match std::str::from_utf8(word) {
        Ok(letters) => Some(Name::new(letters)),
        Err(_) => None,
    }
}

/// Whether a word is a name.
pub(crate) fn reads_name(word: &[u8]) -> bool
    ensures { result ≡ is_name word.now }
{
    match word {
        [] => false,
        [first, rest @ ..] => {
            first.is_ascii_alphabetic() && rest.len() <= 15 && all_alphanumeric(rest)
        }
    }
}

/// The LSP ID of a word.
pub(crate) fn read_id(word: &[u8]) -> Option<LspId>
    ensures { result ≡ id_of word.now }
{
    match std::str::from_utf8(word) {
        Ok(text) => read_lsp_id(text).ok(),
        Err(_) => None,
    }
}

fn read_mark(word: &[u8]) -> Option<bool>
    ensures { result ≡ mark_of word.now }
{
    if word == b"live".as_slice() {
        return Some(false);
    }
    if word == b"purged".as_slice() {
        return Some(true);
    }
    None
}

fn make_key(number: u128, purged: bool) -> Option<Key>
    ensures { result ≡ key_from number purged }
{
    match u32::try_from(number) {
        Ok(0) => None,
        Ok(number) => Some(Key { number, purged }),
        Err(_) => None,
    }
}

/// The key of a number, 1 to 4294967295, and a mark, `live` or `purged`.
pub(crate) fn read_key(number: &[u8], mark: &[u8]) -> Option<Key>
    ensures { result ≡ key_of number.now mark.now }
{
    let number = read_number(number)?;
    let purged = read_mark(mark)?;
    make_key(number, purged)
}

/// The number of a copy; 0, which no copy has, where the number is too great for one.
pub(crate) fn read_copy(word: &[u8]) -> Option<usize>
    ensures { result ≡ copy_of word.now }
{
    let number = read_number(word)?;
    match usize::try_from(number) {
        Ok(copy) => Some(copy),
        Err(_) => Some(0),
    }
}
