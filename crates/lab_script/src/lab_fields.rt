//! What a word of a lab script's line says.
ghost use Rattle.std.specs.Prelude.{◌≡◌, ◌≤◌, ◌*◌, length, IfSome};
ghost use Rattle.isis_base.specs.AreaTexts.{area_of};
ghost use Rattle.isis_base.specs.Levels.{levels_of};
ghost use Rattle.line_cuts.specs.HexTexts.{is_hex, hex_of};
ghost use Rattle.lab_script.specs.LabFields as field;

use crate::fields::read_name;
use crate::named::NamedScope;
use isis_base::numbers::{CIRCUIT_METRIC, PREFIX_METRIC};
use isis_base::{AreaAddress, LevelSet, SystemId, read_area, read_system};
use line_cuts::{Hex, all_hex, read_up_to};
use model_network::PduWord;

/// The metric of a circuit, up to 16777215.
pub(crate) fn read_metric(word: &[u8]) -> Option<u32>
    ensures value { result ≡ field.metric_of word.now }
    ensures within { IfSome result (λ metric. metric ≤ 16777215) }
{
    read_up_to(word, CIRCUIT_METRIC)
}

/// The metric of a prefix, up to 4261412864, or `none`.
pub(crate) fn read_prefix_metric(word: &[u8]) -> Option<Option<u32>>
    ensures value { result ≡ field.prefix_metric_of word.now }
    ensures within { IfSome result (λ given. IfSome given (λ metric. metric ≤ 4261412864)) }
{
    if word == b"none".as_slice() {
        return Some(None);
    }
    let metric = read_up_to(word, PREFIX_METRIC)?;
    Some(Some(metric))
}

/// A priority, up to 127.
pub(crate) fn read_priority(word: &[u8]) -> Option<u8>
    ensures value { result ≡ field.priority_of word.now }
    ensures within { IfSome result (λ priority. priority ≤ 127) }
{
    let number = read_up_to(word, 127)?;
    Some(number as u8)
}

/// The seconds of a run, 1 to 86400.
pub(crate) fn read_seconds(word: &[u8]) -> Option<u32>
    ensures value { result ≡ field.seconds_of word.now }
    ensures within { IfSome result (λ seconds. (1 ≤ seconds) × (seconds ≤ 86400)) }
{
    let number = read_up_to(word, 86_400)?;
    if number == 0 {
        return None;
    }
    Some(number)
}

/// The system ID of a word.
pub(crate) fn read_system_id(word: &[u8]) -> Option<SystemId>
    ensures { result ≡ field.system_of word.now }
{
    match std::str::from_utf8(word) {
        Ok(text) => read_system(text).ok(),
        Err(_) => None,
    }
}

/// The area address of a word.
pub(crate) fn read_area_address(word: &[u8]) -> Option<AreaAddress>
    ensures { result ≡ area_of word.now }
{
    match std::str::from_utf8(word) {
        Ok(text) => read_area(text).ok(),
        Err(_) => None,
    }
}

/// The levels of a word.
pub(crate) fn read_level_set(word: &[u8]) -> Option<LevelSet>
    ensures { result ≡ levels_of word.now }
{
    match word {
        b"L1" => Some(LevelSet::One),
        b"L2" => Some(LevelSet::Two),
        b"L1L2" => Some(LevelSet::Both),
        _ => None,
    }
}

/// The kind of PDUs that a word names.
pub(crate) fn read_pdus(word: &[u8]) -> Option<PduWord>
    ensures { result ≡ field.pdus_of word.now }
{
    match word {
        b"hello" => Some(PduWord::Hello),
        b"lsp" => Some(PduWord::Lsp),
        b"csnp" => Some(PduWord::Csnp),
        b"psnp" => Some(PduWord::Psnp),
        _ => None,
    }
}

/// What a key is for: `area`, `domain`, or the circuit of a link.
pub(crate) fn read_scope(word: &[u8]) -> Option<NamedScope<'_>>
    ensures { result ≡ field.scope_of word.now }
{
    if word == b"area".as_slice() {
        return Some(NamedScope::Area);
    }
    if word == b"domain".as_slice() {
        return Some(NamedScope::Domain);
    }
    let link = read_name(word)?;
    Some(NamedScope::Link { link })
}

fn reads_hex(word: &[u8]) -> bool
    ensures { result ≡ is_hex word.now }
{
    word.len() > 0 && word.len() % 2 == 0 && all_hex(word)
}

/// Octets in hex, one or more.
pub(crate) fn read_hex(word: &[u8]) -> Option<Hex<'_>>
    ensures value { result ≡ hex_of word.now }
    ensures some { IfSome result (λ octets. 1 ≤ length octets) }
    ensures counted { IfSome result (λ octets. 2 * length octets ≤ length word.now) }
{
    if !reads_hex(word) {
        return None;
    }
    Some(Hex::new(word))
}

/// A key: 1 to 128 octets in hex.
pub(crate) fn read_key_octets(word: &[u8]) -> Option<Hex<'_>>
    ensures value { result ≡ field.key_octets_of word.now }
    ensures within { IfSome result (λ octets. (1 ≤ length octets) × (length octets ≤ 128)) }
{
    if word.len() > 256 {
        return None;
    }
    read_hex(word)
}
