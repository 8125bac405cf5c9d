//! LSP entries, the value of code 9.
ghost use Rattle.std.specs.Prelude.{◌≡◌, ◌≤◌, ◌+◌, ◌*◌, ◌++◌, map, length, Ok, OnOk, OnErr};
ghost use Rattle.isis_tlv.specs.Fits.{IsEntry};
ghost use Rattle.isis_tlv.specs.Items.{entry_at, entries_of};
ghost use Rattle.isis_tlv.specs.Spelling.{entry_octets, entry_value, entry_tlv};

use crate::codes;
use crate::items::{Item, Items};
use crate::laws::item_laws;
use crate::put::put_tlv;
use isis_base::fields::{lsp_at, u16_at, u32_at};
use isis_base::{Draft, LspEntry, Octets, OutOfMemory};

/// The LSP entries of a value of code 9, in order. A fault is the last item. Contracts see what is left.
pub type EntryItems<'a> = Items<'a, LspEntry>;

/// The LSP entries of a value of code 9 (ISO 10589 9.10).
pub fn entries(value: &[u8]) -> EntryItems<'_>
    ensures { result ≡ entries_of value.now }
{
    Items::new(value)
}

impl Item for LspEntry {
    ghost use Rattle.isis_tlv.specs.Items.{entry_at};
    ghost use Rattle.isis_tlv.specs.Takes.{entry-takes_one};

    ghost first = { entry_at };

    ghost takes = { entry-takes_one };

    fn read_first(octets: &[u8]) -> Option<(LspEntry, usize)> {
        if octets.len() < 16 {
            return None;
        }
        let entry = LspEntry {
            lifetime: u16_at(octets, 0),
            id: lsp_at(octets, 2),
            number: u32_at(octets, 10),
            checksum: u16_at(octets, 14),
        };
        Some((entry, 16))
    }
}

/// Adds the sixteen octets of an entry.
fn add_entry(draft: &mut Draft, entry: &LspEntry)
    requires { length draft.old + 16 ≤ 255 }
    ensures added { draft.new ≡ draft.old ++ entry_octets entry.now }
    ensures count { length draft.new ≡ length draft.old + 16 }
    ensures fits { IsEntry entry.now }
{
    draft.add(&entry.lifetime.to_be_bytes());
    draft.add_lsp_id(entry.id);
    draft.add(&entry.number.to_be_bytes());
    draft.add(&entry.checksum.to_be_bytes());
}

/// Adds a TLV of code 9 with these entries, at most 15. At `OutOfMemory` the list is as it was.
pub fn put_entries(out: &mut Octets, list: &[LspEntry]) -> Result<(), OutOfMemory>
    requires { 16 * length list.now ≤ 255 }
    ensures ok { OnOk result (out.new ≡ out.old ++ entry_tlv list.now) }
    ensures err { OnErr result (out.new ≡ out.old) }
    ensures sized { length (entry_value list.now) ≡ 16 * length list.now }
    ensures reads { entries_of (entry_value list.now) ≡ map (λ entry. Ok entry) list.now }
{
    let mut draft = Draft::new();
    for entry in list {
        add_entry(&mut draft, entry);
    }
    item_laws();
    put_tlv(out, codes::ENTRIES, draft.as_slice())
}
