//! The walk over LSPs of a range, of which one is read elsewhere (own).
ghost use Rattle.std.specs.Prelude.{◌≡◌, [], ◌∷◌, MatchOption};
ghost use Rattle.lsp_store.specs.Maps.{pair_of};
ghost use Rattle.lsp_view.specs.Lsps.{left_in};

use isis_base::LspId;
use lsp_store::{Entry, Range};
use std::marker::Model;

/// LSPs in order: some, then one that is read elsewhere, then some more. Contracts see those that are left.
#[derive(Drop)]
pub struct LspRange<'a> {
    pub(crate) below: Option<Range<'a>>,
    pub(crate) one: Option<(LspId, &'a Entry)>,
    pub(crate) above: Option<Range<'a>>,
}

impl<'a> Model for LspRange<'a> {
    ghost use Rattle.std.specs.Prelude.{List, ◌++◌};
    ghost use Rattle.isis_base.specs.declared.identifiers.LspId.{LspId};
    ghost use Rattle.lsp_store.specs.declared.entry.Entry.{Entry};
    ghost use Rattle.lsp_view.specs.Lsps.{left_in, one_in};

    ghost Value = { List (LspId × Entry) };

    ghost view = { λ r. left_in r.below ++ one_in r.one ++ left_in r.above };
}

impl<'a> Iterator for LspRange<'a> {
    ghost use Rattle.std.specs.Iterator.{YieldsFirstBy, item_count};
    ghost use Rattle.lsp_store.specs.Maps.{pair_of};

    type Item = (LspId, &'a Entry);

    ghost next_gives = { YieldsFirstBy pair_of (λ rest. rest) };

    ghost remaining = { item_count (λ rest. rest) };

    fn next(&mut self) -> Option<(LspId, &'a Entry)> {
        match next_of(&mut self.below) {
            Some(pair) => return Some(pair),
            None => {}
        }
        match self.one.take() {
            Some(pair) => return Some(pair),
            None => {}
        }
        next_of(&mut self.above)
    }
}

/// The next LSP, where some are left.
fn next_of<'a>(range: &mut Option<Range<'a>>) -> Option<(LspId, &'a Entry)>
    ensures { MatchOption result ((left_in range.old ≡ []) × (left_in range.new ≡ []))
        (λ pair. left_in range.old ≡ pair_of pair ∷ left_in range.new) }
{
    match range {
        Some(range) => range.next(),
        None => None,
    }
}
