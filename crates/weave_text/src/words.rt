//! Lines of words.
ghost use Rattle.std.specs.Prelude.{◌≡◌, [], ◌∷◌, ◌++◌, codes, decimal, OnOk};
ghost use Rattle.isis_base.specs.PrefixTexts.{prefix_text};
ghost use Rattle.line_cuts.specs.Fields.{on_text};
ghost use Rattle.line_cuts.specs.HexTexts.{hex_text};
ghost use Rattle.weave_text.specs.Written.{line_of_words, metric_word};

use isis_base::{Octets, OutOfMemory, Prefix, add_hex, add_number};
use std::alloc::Global;

/// A line of a word and a name.
pub(crate) fn add_named(text: &mut Octets, word: &[u8], name: &[u8]) -> Result<(), OutOfMemory>
    ensures { OnOk result
        (text.new ≡ text.old ++ line_of_words (word.now ∷ name.now ∷ [])) }
{
    text.extend(word)?;
    add_word(text, name)?;
    text.extend(b"\n")
}

/// A line of a word, a name and another word.
pub(crate) fn add_both(
    text: &mut Octets,
    word: &[u8],
    name: &[u8],
    other: &[u8],
) -> Result<(), OutOfMemory>
    ensures { OnOk result
        (text.new ≡ text.old ++ line_of_words (word.now ∷ name.now ∷ other.now ∷ [])) }
{
    text.extend(word)?;
    add_word(text, name)?;
    add_word(text, other)?;
    text.extend(b"\n")
}

/// `deliver K NAME`.
pub(crate) fn add_delivery(
    text: &mut Octets,
    datagram: usize,
    name: &[u8],
) -> Result<(), OutOfMemory>
    ensures { OnOk result (text.new
        ≡ text.old ++ line_of_words (codes "deliver" ∷ decimal datagram ∷ name.now ∷ [])) }
{
    text.extend(b"deliver")?;
    add_number(text, b" ", datagram as u64)?;
    add_word(text, name)?;
    text.extend(b"\n")
}

/// `metric NAME LINK METRIC`.
pub(crate) fn add_metric(
    text: &mut Octets,
    name: &[u8],
    link: &[u8],
    metric: u32,
) -> Result<(), OutOfMemory>
    ensures { OnOk result (text.new ≡ text.old
        ++ line_of_words (codes "metric" ∷ name.now ∷ link.now ∷ decimal metric ∷ [])) }
{
    text.extend(b"metric")?;
    add_word(text, name)?;
    add_word(text, link)?;
    add_number(text, b" ", u64::from(metric))?;
    text.extend(b"\n")
}

/// `prefix NAME PREFIX METRIC`, or `none` in place of the metric.
pub(crate) fn add_prefix(
    alloc: Global,
    text: &mut Octets,
    name: &[u8],
    prefix: Prefix,
    metric: Option<u32>,
) -> Result<(), OutOfMemory>
    ensures { OnOk result (text.new ≡ text.old ++ line_of_words (codes "prefix" ∷ name.now
        ∷ prefix_text prefix.address prefix.length ∷ metric_word metric ∷ [])) }
{
    text.extend(b"prefix")?;
    add_word(text, name)?;
    add_prefix_word(alloc, text, prefix)?;
    add_metric_word(text, metric)?;
    text.extend(b"\n")
}

/// `inject NAME LINK HEX`.
pub(crate) fn add_injection(
    text: &mut Octets,
    name: &[u8],
    link: &[u8],
    octets: &[u8],
) -> Result<(), OutOfMemory>
    ensures { OnOk result (text.new ≡ text.old
        ++ line_of_words (codes "inject" ∷ name.now ∷ link.now ∷ hex_text octets.now ∷ [])) }
{
    text.extend(b"inject")?;
    add_word(text, name)?;
    add_word(text, link)?;
    text.extend(b" ")?;
    add_hexes(text, octets)?;
    text.extend(b"\n")
}

/// A space and a word.
fn add_word(text: &mut Octets, word: &[u8]) -> Result<(), OutOfMemory>
    ensures { OnOk result (text.new ≡ text.old ++ (codes " " ++ word.now)) }
{
    text.extend(b" ")?;
    text.extend(word)
}

/// A space and the text of a prefix.
fn add_prefix_word(alloc: Global, text: &mut Octets, prefix: Prefix) -> Result<(), OutOfMemory>
    ensures { OnOk result
        (text.new ≡ text.old ++ (codes " " ++ prefix_text prefix.address prefix.length)) }
{
    let word = match format!(in alloc; "{prefix}") {
        Ok(word) => word,
        Err(_) => return Err(OutOfMemory),
    };
    add_word(text, word.as_bytes())
}

/// A space and a prefix's metric, or `none`.
fn add_metric_word(text: &mut Octets, metric: Option<u32>) -> Result<(), OutOfMemory>
    ensures { OnOk result (text.new ≡ text.old ++ (codes " " ++ metric_word metric)) }
{
    match metric {
        Some(metric) => add_number(text, b" ", u64::from(metric)),
        None => text.extend(b" none"),
    }
}

/// Octets in hex digits.
fn add_hexes(text: &mut Octets, octets: &[u8]) -> Result<(), OutOfMemory>
    ensures { OnOk result (text.new ≡ text.old ++ hex_text octets.now) }
{
    for octet in octets {
        match add_hex(text, *octet) {
            Ok(()) => {}
            Err(error) => return Err(error),
        }
    }
    Ok(())
}

/// `on` or `off`.
pub(crate) fn on_word(on: bool) -> &'static [u8]
    ensures { result.now ≡ on_text on }
{
    if on { b"on" } else { b"off" }
}
