//! Texts put straight behind the octets of others: numbers, octets in hex, levels and identifiers. Where `Display` writes
//! the same text through a formatter, these write it in one piece, since reports have very many.
ghost use Rattle.std.specs.Prelude.{◌≡◌, ◌++◌, OnOk, decimal, take};
ghost use Rattle.isis_base.specs.Levels.{levels_text};
ghost use Rattle.isis_base.specs.Texts.{hex_pair, system_text, node_text, lsp_text};

use crate::digits::{high, low};
use crate::identifiers::{LspId, NodeId, SystemId};
use crate::level::LevelSet;
use crate::memory::OutOfMemory;
use crate::octets::Octets;
use itoa::Buffer;

/// Adds a word and a number in decimal digits.
pub fn add_number(text: &mut Octets, word: &[u8], number: u64) -> Result<(), OutOfMemory>
    ensures { OnOk result (text.new ≡ text.old ++ (word.now ++ decimal number)) }
{
    let mut digits = Buffer::new();
    text.extend(word)?;
    text.extend(digits.format(number).as_bytes())
}

/// Adds an octet as two hex digits.
pub fn add_hex(text: &mut Octets, octet: u8) -> Result<(), OutOfMemory>
    ensures { OnOk result (text.new ≡ text.old ++ hex_pair octet) }
{
    text.extend(&[high(octet), low(octet)])
}

/// Adds a word and the text of a set of levels.
pub fn add_levels(text: &mut Octets, word: &[u8], levels: LevelSet) -> Result<(), OutOfMemory>
    ensures { OnOk result (text.new ≡ text.old ++ (word.now ++ levels_text levels)) }
{
    text.extend(word)?;
    match levels {
        LevelSet::One => text.extend(b"L1"),
        LevelSet::Two => text.extend(b"L2"),
        LevelSet::Both => text.extend(b"L1L2"),
    }
}

/// The text of an LSP ID, which begins with those of its system and of its node.
fn text_of_lsp(id: LspId) -> [u8; 20]
    ensures lsp { result ≡ lsp_text id }
    ensures node { take 17 result ≡ node_text id.node }
    ensures system { take 14 result ≡ system_text id.node.system }
{
    let [a, b, c, d, e, g] = id.node.system.0;
    let (h, k) = (id.node.pseudonode, id.number);
    [
        high(a),
        low(a),
        high(b),
        low(b),
        b'.',
        high(c),
        low(c),
        high(d),
        low(d),
        b'.',
        high(e),
        low(e),
        high(g),
        low(g),
        b'.',
        high(h),
        low(h),
        b'-',
        high(k),
        low(k),
    ]
}

/// Adds a word and the text of a system ID.
pub fn add_system_id(text: &mut Octets, word: &[u8], system: SystemId) -> Result<(), OutOfMemory>
    ensures { OnOk result (text.new ≡ text.old ++ (word.now ++ system_text system)) }
{
    let node = NodeId {
        system,
        pseudonode: 0,
    };
    text.extend(word)?;
    text.extend(&text_of_lsp(LspId { node, number: 0 })[..14])
}

/// Adds a word and the text of a node ID.
pub fn add_node_id(text: &mut Octets, word: &[u8], node: NodeId) -> Result<(), OutOfMemory>
    ensures { OnOk result (text.new ≡ text.old ++ (word.now ++ node_text node)) }
{
    text.extend(word)?;
    text.extend(&text_of_lsp(LspId { node, number: 0 })[..17])
}

/// Adds a word and the text of an LSP ID.
pub fn add_lsp_id(text: &mut Octets, word: &[u8], id: LspId) -> Result<(), OutOfMemory>
    ensures { OnOk result (text.new ≡ text.old ++ (word.now ++ lsp_text id)) }
{
    text.extend(word)?;
    text.extend(&text_of_lsp(id))
}
