//! What the words after the program's name ask for.
ghost use Rattle.std.specs.Prelude.{◌≡◌, ◌≤◌, [], ◌∷◌, map, string_bytes, None, IfSome};
ghost use Rattle.std.specs.Option.{option_map};
ghost use Rattle.isis_daemon.specs.Commands.{command_of, captured_of, captured_text_of, long_of, losses_of, losses_in, timeline_of, two_of, three_of, IsAskedCommand, level_in, system_in, grid_size_of, size_of, walk_of, trace_of, weave_of, asked_of, tracing_of, AreNoText};
ghost use Rattle.isis_daemon.specs.Options.{daemon_of};

use daemon_config::read_host;
use isis_base::{Level, Prefix, SystemId, read_system};
use lab_text::read_name;
use line_cuts::read_prefix_word;
use losses_text::{PartOf, read_most, read_part};

/// A text of what captured LSPs say of a system.
#[derive(Clone, Copy, Debug, PartialEq, Eq)]
pub enum CapturedText {
    /// `routes`: its IPv4 routes (RFC 5302).
    Routes,
    /// `routes6`: its IPv6 routes (RFC 5308).
    Routes6,
    /// `alternates`: its loop-free alternates (RFC 5286).
    Alternates,
}

/// What the words after the program's name ask to be done with an input.
#[derive(Clone, Copy, Debug, PartialEq, Eq)]
pub enum Command {
    /// `lab`: a script is played and reported.
    Lab,
    /// `show`: the fields of PDUs; `show long`: also what their TLVs say.
    Show {
        long: bool,
    },
    /// `merge`: the texts of losses of all parts are joined.
    Merge,
    /// A text of a system, by captured LSPs of a level.
    Captured {
        what: CapturedText,
        level: Level,
        system: SystemId,
    },
    /// `timeline`: what becomes of packets to an address, at each moment of a script.
    Timeline {
        address: u32,
    },
    /// `losses`: what at most so many lost deliveries do to the last line of a script, in a part of all schedules or in all.
    Losses {
        most: u32,
        part: Option<PartOf>,
    },
}

/// What `walk` is asked for: a router by its name, and a prefix.
#[derive(Drop)]
pub struct WalkAsked<'a> {
    pub name: &'a str,
    pub prefix: Prefix,
}

/// What `trace` is asked for: a router by its name, and an IPv4 address.
#[derive(Drop)]
pub struct TraceAsked<'a> {
    pub name: &'a str,
    pub address: u32,
}

/// The command that the words are, if they are one.
pub fn command_of(words: &[String]) -> Option<Command>
    ensures value { result ≡ command_of (map string_bytes words.now) }
    ensures asked { IfSome result IsAskedCommand }
{
    match words {
        [word] => text_command(word.as_str()),
        [word, second] => two_of(word.as_str(), second.as_str()),
        [word, first, second] => three_of(word.as_str(), first.as_str(), second.as_str()),
        _ => None,
    }
}

/// The command that one word is.
fn text_command(word: &str) -> Option<Command>
    ensures value { result ≡ command_of (word.now ∷ []) }
    ensures asked { IfSome result IsAskedCommand }
{
    if word == "lab" {
        return Some(Command::Lab);
    }
    if word == "show" {
        return Some(Command::Show { long: false });
    }
    if word == "merge" {
        return Some(Command::Merge);
    }
    None
}

/// The command that a word and one behind it are.
fn two_of(word: &str, second: &str) -> Option<Command>
    ensures value { result ≡ two_of word.now second.now }
    ensures asked { IfSome result IsAskedCommand }
{
    if word == "losses" {
        return losses_of(second);
    }
    if word == "show" {
        return long_of(second);
    }
    if word == "timeline" {
        return timeline_of(second);
    }
    None
}

/// `show long`.
fn long_of(word: &str) -> Option<Command>
    ensures value { result ≡ long_of word.now }
    ensures asked { IfSome result IsAskedCommand }
{
    if word != "long" {
        return None;
    }
    Some(Command::Show { long: true })
}

/// `timeline` of packets to an address.
fn timeline_of(address: &str) -> Option<Command>
    ensures value { result ≡ timeline_of address.now }
    ensures asked { IfSome result IsAskedCommand }
{
    let address = read_host(address.as_bytes())?;
    Some(Command::Timeline { address })
}

/// `losses` of at most so many lost deliveries, in all schedules.
fn losses_of(most: &str) -> Option<Command>
    ensures value { result ≡ losses_of most.now }
    ensures asked { IfSome result IsAskedCommand }
{
    let most = read_most(most.as_bytes())?;
    Some(Command::Losses { most, part: None })
}

/// The command that a word and two behind it are.
fn three_of(word: &str, first: &str, second: &str) -> Option<Command>
    ensures value { result ≡ three_of word.now first.now second.now }
    ensures asked { IfSome result IsAskedCommand }
{
    if word == "losses" {
        return losses_in(first, second);
    }
    captured_of(word, first, second)
}

/// `losses` of at most so many lost deliveries, in a part of all schedules.
fn losses_in(most: &str, part: &str) -> Option<Command>
    ensures value { result ≡ losses_in most.now part.now }
    ensures asked { IfSome result IsAskedCommand }
{
    let most = read_most(most.as_bytes())?;
    let part = read_part(part.as_bytes())?;
    Some(Command::Losses {
        most,
        part: Some(part),
    })
}

/// The command of captured LSPs that a word, a level and a system are.
fn captured_of(word: &str, level: &str, system: &str) -> Option<Command>
    ensures value { result ≡ captured_of word.now level.now system.now }
    ensures asked { IfSome result IsAskedCommand }
{
    let what = captured_text_of(word)?;
    let level = level_in(level)?;
    let system = system_in(system)?;
    Some(Command::Captured {
        what,
        level,
        system,
    })
}

/// A text of captured LSPs, by its word.
fn captured_text_of(word: &str) -> Option<CapturedText>
    ensures { result ≡ captured_text_of word.now }
{
    if word == "routes" {
        return Some(CapturedText::Routes);
    }
    if word == "routes6" {
        return Some(CapturedText::Routes6);
    }
    if word == "alternates" {
        return Some(CapturedText::Alternates);
    }
    None
}

/// A level, `L1` or `L2`.
fn level_in(word: &str) -> Option<Level>
    ensures { result ≡ level_in word.now }
{
    if word == "L1" {
        return Some(Level::One);
    }
    if word == "L2" {
        return Some(Level::Two);
    }
    None
}

/// A system ID.
fn system_in(word: &str) -> Option<SystemId>
    ensures { result ≡ system_in word.now }
{
    read_system(word).ok()
}

/// How many rows and columns the grid has that the words ask for, `grid N` with N from 1 to 8.
pub fn grid_size_of(words: &[String]) -> Option<u8>
    ensures size { result ≡ grid_size_of (map string_bytes words.now) }
    ensures small { IfSome result (λ size. (1 ≤ size) × (size ≤ 8)) }
    ensures alone { IfSome result (λ _. command_of (map string_bytes words.now) ≡ None) }
{
    size_in(words)
}

/// How many rows and columns the words ask for.
fn size_in(words: &[String]) -> Option<u8>
    ensures size { result ≡ grid_size_of (map string_bytes words.now) }
    ensures small { IfSome result (λ size. (1 ≤ size) × (size ≤ 8)) }
{
    if words.len() != 2 || words[0].as_str() != "grid" {
        return None;
    }
    size_of(words[1].as_bytes())
}

/// A number from 1 to 8.
fn size_of(word: &[u8]) -> Option<u8>
    ensures size { result ≡ size_of word.now }
    ensures small { IfSome result (λ size. (1 ≤ size) × (size ≤ 8)) }
{
    match word {
        [digit] if b'1' <= *digit && *digit <= b'8' => Some(*digit - b'0'),
        _ => None,
    }
}

/// What the words ask for which are `walk`, a name and a prefix. Such words ask for nothing else.
pub fn walk_of(words: &[String]) -> Option<WalkAsked<'_>>
    ensures value { option_map (λ asked. (asked.name.now, asked.prefix)) result
        ≡ walk_of (map string_bytes words.now) }
    ensures alone { IfSome result (λ _. AreNoText (map string_bytes words.now)
        × (daemon_of (map string_bytes words.now) ≡ None)) }
{
    asked_in(words)
}

/// What the words ask for which are `trace`, a name and an address. Such words ask for nothing else.
pub fn trace_of(words: &[String]) -> Option<TraceAsked<'_>>
    ensures value { option_map (λ asked. (asked.name.now, asked.address)) result
        ≡ trace_of (map string_bytes words.now) }
    ensures alone { IfSome result (λ _. AreNoText (map string_bytes words.now)
        × (daemon_of (map string_bytes words.now) ≡ None)
        × (walk_of (map string_bytes words.now) ≡ None)) }
{
    trace_in(words)
}

/// Whether the words are `weave` alone. Such words ask for nothing else.
pub fn weave_of(words: &[String]) -> Option<()>
    ensures value { result ≡ weave_of (map string_bytes words.now) }
    ensures alone { IfSome result (λ _. AreNoText (map string_bytes words.now)
        × (daemon_of (map string_bytes words.now) ≡ None)
        × (walk_of (map string_bytes words.now) ≡ None)
        × (trace_of (map string_bytes words.now) ≡ None)) }
{
    weave_in(words)
}

/// Whether the words are `weave` alone.
fn weave_in(words: &[String]) -> Option<()>
    ensures { result ≡ weave_of (map string_bytes words.now) }
{
    let [word] = words else {
        return None;
    };
    if word.as_str() != "weave" {
        return None;
    }
    Some(())
}

/// What the words ask for.
fn asked_in(words: &[String]) -> Option<WalkAsked<'_>>
    ensures { option_map (λ asked. (asked.name.now, asked.prefix)) result
        ≡ walk_of (map string_bytes words.now) }
{
    let [word, name, prefix] = words else {
        return None;
    };
    if word.as_str() != "walk" {
        return None;
    }
    asked_of(name.as_bytes(), prefix.as_bytes())
}

/// A name and a prefix.
fn asked_of<'a>(name: &'a [u8], prefix: &[u8]) -> Option<WalkAsked<'a>>
    ensures { option_map (λ asked. (asked.name.now, asked.prefix)) result
        ≡ asked_of name.now prefix.now }
{
    let name = read_name(name)?;
    let prefix = read_prefix_word(prefix)?;
    Some(WalkAsked {
        name: name.letters(),
        prefix,
    })
}

/// What the words ask for.
fn trace_in(words: &[String]) -> Option<TraceAsked<'_>>
    ensures { option_map (λ asked. (asked.name.now, asked.address)) result
        ≡ trace_of (map string_bytes words.now) }
{
    let [word, name, address] = words else {
        return None;
    };
    if word.as_str() != "trace" {
        return None;
    }
    tracing_of(name.as_bytes(), address.as_bytes())
}

/// A name and an address.
fn tracing_of<'a>(name: &'a [u8], address: &[u8]) -> Option<TraceAsked<'a>>
    ensures { option_map (λ asked. (asked.name.now, asked.address)) result
        ≡ tracing_of name.now address.now }
{
    let name = read_name(name)?;
    let address = read_host(address)?;
    Some(TraceAsked {
        name: name.letters(),
        address,
    })
}
