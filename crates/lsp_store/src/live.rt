//! The walk over live entries.
ghost use Rattle.std.specs.Prelude.{◌≡◌};
ghost use Rattle.lsp_store.specs.Databases.{is_live};

use crate::entry::Entry;
use crate::pairs::Pairs;
use isis_base::LspId;
use std::marker::Model;

/// The live entries of a walk, in order. Contracts see those that are left.
#[derive(Drop)]
pub struct Live<'a> {
    pub(crate) walk: Pairs<'a, Entry>,
}

impl<'a> Model for Live<'a> {
    ghost use Rattle.std.specs.Prelude.{List};
    ghost use Rattle.isis_base.specs.declared.identifiers.LspId.{LspId};
    ghost use Rattle.lsp_store.specs.declared.entry.Entry.{Entry};
    ghost use Rattle.lsp_store.specs.Databases.{live_of};

    ghost Value = { List (LspId × Entry) };

    ghost view = { λ l. live_of l.walk };
}

/// Whether an entry is live: it has a key that isn't purged.
pub fn is_live(entry: &Entry) -> bool
    ensures { result ≡ is_live entry.now }
{
    match entry.key {
        Some(key) => !key.purged,
        None => false,
    }
}

impl<'a> Iterator for Live<'a> {
    ghost use Rattle.std.specs.Iterator.{YieldsFirstBy, item_count};
    ghost use Rattle.lsp_store.specs.Maps.{pair_of};

    type Item = (LspId, &'a Entry);

    ghost next_gives = { YieldsFirstBy pair_of (λ rest. rest) };

    ghost remaining = { item_count (λ rest. rest) };

    fn next(&mut self) -> Option<(LspId, &'a Entry)> {
        while let Some((id, entry)) = self.walk.next() {
            if is_live(entry) {
                return Some((id, entry));
            }
        }
        None
    }
}
