//! Sets of levels read from their texts.
ghost use Rattle.std.specs.Prelude.{◌≡◌, ◌≤◌, length, nat_eq, IfOk, IfErr, Ok};
ghost use Rattle.std.specs.List.{common_prefix_len};
ghost use Rattle.std.specs.Result.{result_ok};
ghost use Rattle.isis_base.specs.Levels.{levels_text, levels_of, IsLevelsText};
ghost use Rattle.isis_base.specs.declared.level.LevelSet.{LevelSet};
ghost use Rattle.isis_base.specs.Texts.{IsFaultAt};

use crate::level::LevelSet;
use crate::texts::TextFault;

/// Reads a set of levels: `L1`, `L2` or `L1L2`.
pub fn read_levels(text: &str) -> Result<LevelSet, TextFault>
    ensures ok { IfOk result (λ set. text.now ≡ levels_text set) }
    ensures read { (set : LevelSet) → text.now ≡ levels_text set → result ≡ Ok set }
    ensures value { result_ok result ≡ levels_of text.now }
    ensures err { IfErr result (λ fault. IsFaultAt IsLevelsText text.now fault.place) }
{
    let bytes = text.as_bytes();
    match levels_of(bytes) {
        Some(set) => Ok(set),
        None => {
            let place = common_length(bytes, b"L1L2").max(common_length(bytes, b"L2"));
            Err(TextFault { place })
        }
    }
}

/// The set of levels of this text.
fn levels_of(text: &[u8]) -> Option<LevelSet>
    ensures { result ≡ levels_of text.now }
{
    if text == b"L1".as_slice() {
        return Some(LevelSet::One);
    }
    if text == b"L2".as_slice() {
        return Some(LevelSet::Two);
    }
    if text == b"L1L2".as_slice() {
        return Some(LevelSet::Both);
    }
    None
}

/// The number of octets in which two texts agree, before the first in which they don't.
fn common_length(text: &[u8], word: &[u8]) -> usize
    ensures { result ≡ common_prefix_len nat_eq word.now text.now }
{
    let (mut rest, mut left) = (text, word);
    let mut count = 0usize;
    while let [b, others @ ..] = left {
        match rest {
            [a, more @ ..] if a == b => {
                rest = more;
                count += 1;
            }
            _ => return count,
        }
        left = others;
    }
    count
}
