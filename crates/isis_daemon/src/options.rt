//! The options of `daemon` and `state`.
ghost use Rattle.std.specs.Prelude.{◌≡◌, ◌≤◌, [], ◌∷◌, map, string_bytes, None, IfSome, MatchOption};
ghost use Rattle.std.specs.Option.{option_map};
ghost use Rattle.isis_daemon.specs.Options.{number_within, asked_by, both, is_option, name_in, value_in, options_of, daemon_of, state_of};

use isis_base::numbers::BOOT_LIMIT;
use line_cuts::read_number;
use memchr::memchr;
use std::marker::Model;

/// What `daemon` is asked for: the router's boot number, and the turns.
#[derive(Clone, Copy, Debug, PartialEq, Eq)]
pub struct DaemonOptions {
    /// 1 to 16,777,215.
    pub boot: u32,
    /// 1 to 86,400, or 10^12 where the words don't say how many.
    pub turns: u64,
}

/// What `state` is asked for: the router's boot number, and the entries of its journal.
#[derive(Clone, Copy, Debug, PartialEq, Eq)]
pub struct StateOptions {
    /// 1 to 16,777,215.
    pub boot: u32,
    /// At most so many entries, 1 to 4,294,967,295, or 10^12 where the words don't say how many.
    pub entries: u64,
}

/// A boot number, and a number that stands beside it, or 10^12 where none does.
#[derive(Drop)]
struct Asked {
    boot: u32,
    count: u64,
}

/// The most turns that words can say: the seconds of a day (own).
const TURN_LIMIT: u32 = 86_400;

/// The turns or entries where the words don't say how many: the seconds of some 32,000 years (own).
const ENDLESS: u64 = 1_000_000_000_000;

/// The options that words ask for which are `daemon` with `--boot N`, and with or without `--turns N`, each once, in either
/// order, the number as the next word or after `=`.
pub fn daemon_of(words: &[String]) -> Option<DaemonOptions>
    ensures value { option_map (λ options. (options.boot, options.turns)) result
        ≡ daemon_of (map string_bytes words.now) }
    ensures boot { IfSome result (λ options. (1 ≤ options.boot) × (options.boot ≤ 16777215)) }
    ensures turns { IfSome result (λ options. (1 ≤ options.turns) × (options.turns ≤ 1000000000000)) }
{
    let asked = asked_by(words, "daemon", b"--turns", TURN_LIMIT)?;
    Some(DaemonOptions {
        boot: asked.boot,
        turns: asked.count,
    })
}

/// The options that words ask for which are `state` with `--boot N`, and with or without `--entry N`, in the same way.
pub fn state_of(words: &[String]) -> Option<StateOptions>
    ensures value { option_map (λ options. (options.boot, options.entries)) result
        ≡ state_of (map string_bytes words.now) }
    ensures boot { IfSome result (λ options. (1 ≤ options.boot) × (options.boot ≤ 16777215)) }
    ensures entries { IfSome result (λ options. options.entries ≤ 1000000000000) }
{
    let asked = asked_by(words, "state", b"--entry", u32::MAX)?;
    Some(StateOptions {
        boot: asked.boot,
        entries: asked.count,
    })
}

/// The options of a word with `--boot N`, and with or without another option of this name and limit.
fn asked_by(words: &[String], word: &str, name: &[u8], limit: u32) -> Option<Asked>
    ensures value { option_map (λ asked. (asked.boot, asked.count)) result
        ≡ asked_by word.now name.now limit (map string_bytes words.now) }
    ensures boot { IfSome result (λ asked. (1 ≤ asked.boot) × (asked.boot ≤ 16777215)) }
    ensures count { IfSome result (λ asked. (1 ≤ asked.count) × (asked.count ≤ 1000000000000)) }
{
    let [first, words @ ..] = words else {
        return None;
    };
    if first.as_str() != word {
        return None;
    }
    let mut pieces = Pieces { words, rest: None };
    let first = pieces.next()?;
    let number = pieces.next()?;
    let Some(second) = pieces.next() else {
        return boot_of(first, number, name, limit);
    };
    let other = pieces.next()?;
    if pieces.next().is_some() {
        return None;
    }
    options_of(first, number, second, other, name, limit)
}

/// The option of a boot number alone.
fn boot_of(first: &[u8], number: &[u8], name: &[u8], limit: u32) -> Option<Asked>
    ensures value { option_map (λ asked. (asked.boot, asked.count)) result
        ≡ options_of name.now limit (first.now ∷ number.now ∷ []) }
    ensures boot { IfSome result (λ asked. (1 ≤ asked.boot) × (asked.boot ≤ 16777215)) }
    ensures count { IfSome result (λ asked. (1 ≤ asked.count) × (asked.count ≤ 1000000000000)) }
{
    if first != b"--boot".as_slice() {
        return None;
    }
    let boot = number_within(number, BOOT_LIMIT)?;
    Some(Asked {
        boot,
        count: ENDLESS,
    })
}

/// The options of two names, each with its number behind it.
fn options_of(
    first: &[u8],
    number: &[u8],
    second: &[u8],
    other: &[u8],
    name: &[u8],
    limit: u32,
) -> Option<Asked>
    ensures value { option_map (λ asked. (asked.boot, asked.count)) result
        ≡ options_of name.now limit (first.now ∷ number.now ∷ second.now ∷ other.now ∷ []) }
    ensures boot { IfSome result (λ asked. (1 ≤ asked.boot) × (asked.boot ≤ 16777215)) }
    ensures count { IfSome result (λ asked. (1 ≤ asked.count) × (asked.count ≤ 1000000000000)) }
{
    let boot = b"--boot".as_slice();
    if first == boot && second == name {
        return both(number, other, limit);
    }
    if first == name && second == boot {
        return both(other, number, limit);
    }
    None
}

/// The options of these numbers.
fn both(boot: &[u8], count: &[u8], limit: u32) -> Option<Asked>
    ensures value { option_map (λ asked. (asked.boot, asked.count)) result
        ≡ both limit boot.now count.now }
    ensures boot { IfSome result (λ asked. (1 ≤ asked.boot) × (asked.boot ≤ 16777215)) }
    ensures count { IfSome result (λ asked. (1 ≤ asked.count) × (asked.count ≤ 1000000000000)) }
{
    let boot = number_within(boot, BOOT_LIMIT)?;
    let count = number_within(count, limit)?;
    Some(Asked {
        boot,
        count: u64::from(count),
    })
}

/// A number from 1 to a limit.
fn number_within(word: &[u8], limit: u32) -> Option<u32>
    ensures value { result ≡ number_within limit word.now }
    ensures within { IfSome result (λ number. (1 ≤ number) × (number ≤ limit)) }
{
    let number = read_number(word)?;
    match u32::try_from(number) {
        Ok(number) if 1 <= number && number <= limit => Some(number),
        _ => None,
    }
}

/// The pieces of words: an option is cut at its first `=`.
#[derive(Drop)]
struct Pieces<'a> {
    words: &'a [String],
    rest: Option<&'a [u8]>,
}

impl<'a> Model for Pieces<'a> {
    ghost use Rattle.std.specs.Prelude.{ℕ, List, ◌++◌, map, string_bytes};
    ghost use Rattle.isis_daemon.specs.Options.{lent, pieces_of};

    ghost Value = { List (List ℕ) };

    ghost view = { λ p. lent p.rest ++ pieces_of (map string_bytes p.words.now) };
}

impl<'a> Pieces<'a> {
    /// Takes the next piece.
    fn next(&mut self) -> Option<&'a [u8]>
        ensures { MatchOption result ((self.old ≡ []) × (self.new ≡ []))
            (λ piece. self.old ≡ piece.now ∷ self.new) }
    {
        if let Some(piece) = self.rest {
            self.rest = None;
            return Some(piece);
        }
        match self.words {
            [] => None,
            [word, words @ ..] => {
                self.words = words;
                let word = word.as_bytes();
                if !is_option(word) {
                    return Some(word);
                }
                let (name, value) = split(word);
                self.rest = value;
                Some(name)
            }
        }
    }
}

/// Whether a word begins with `--`.
fn is_option(word: &[u8]) -> bool
    ensures { result ≡ is_option word.now }
{
    match word {
        [first, second, ..] => *first == b'-' && *second == b'-',
        _ => false,
    }
}

/// The name of an option, and its value where `=` stands behind the name.
fn split(word: &[u8]) -> (&[u8], Option<&[u8]>)
    ensures name { result.0.now ≡ name_in word.now }
    ensures value { option_map (λ value. value.now) result.1 ≡ value_in word.now }
{
    match memchr(b'=', word) {
        Some(place) => (&word[..place], Some(&word[place + 1..])),
        None => (word, None),
    }
}
