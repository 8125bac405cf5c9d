//! The walk over the pairs from one LSP ID to another.
ghost use Rattle.std.specs.Prelude.{◌≡◌, ◌<◌, ◌++◌, [], length, drop, IfSome, IfNone};
ghost use Rattle.lsp_store.specs.Maps.{from, upto, RisesFrom};
ghost use Rattle.lsp_store.specs.Places.{AllFilled, IsStart, flatten};

use crate::entry::Entry;
use crate::page::Page;
use crate::pairs::Pairs;
use crate::places::search;
use isis_base::LspId;
use std::marker::Model;

/// The pairs of a map from one LSP ID to another, in order. Contracts see those that are left.
#[derive(Drop)]
pub struct PageRange<'a, T> {
    pairs: Pairs<'a, T>,
    end: u64,
}

impl<'a, T> Model for PageRange<'a, T> {
    ghost use Rattle.std.specs.Prelude.{List};
    ghost use Rattle.isis_base.specs.declared.identifiers.LspId.{LspId};
    ghost use Rattle.lsp_store.specs.Maps.{upto};

    ghost Value = { List (LspId × T) };

    ghost view = { λ r. upto r.end r.pairs };
}

impl<'a, T> Iterator for PageRange<'a, T> {
    ghost use Rattle.std.specs.Iterator.{YieldsFirstBy, item_count};
    ghost use Rattle.lsp_store.specs.Maps.{pair_of};

    type Item = (LspId, &'a T);

    ghost next_gives = { YieldsFirstBy pair_of (λ rest. rest) };

    ghost remaining = { item_count (λ rest. rest) };

    fn next(&mut self) -> Option<(LspId, &'a T)> {
        let Some((id, value)) = self.pairs.next() else {
            return None;
        };
        if id.to_number() > self.end {
            self.pairs = Pairs::new(&[], &[]);
            return None;
        }
        Some((id, value))
    }
}

/// The entries of a database from one LSP ID to another, in order. Contracts see those that are left.
#[derive(Drop)]
pub struct Range<'a> {
    pub(crate) walk: PageRange<'a, Entry>,
}

impl<'a> Model for Range<'a> {
    ghost use Rattle.std.specs.Prelude.{List};
    ghost use Rattle.isis_base.specs.declared.identifiers.LspId.{LspId};
    ghost use Rattle.lsp_store.specs.declared.entry.Entry.{Entry};

    ghost Value = { List (LspId × Entry) };

    ghost view = { λ r. r.walk };
}

impl<'a> Iterator for Range<'a> {
    ghost use Rattle.std.specs.Iterator.{YieldsFirstBy, item_count};
    ghost use Rattle.lsp_store.specs.Maps.{pair_of};

    type Item = (LspId, &'a Entry);

    ghost next_gives = { YieldsFirstBy pair_of (λ rest. rest) };

    ghost remaining = { item_count (λ rest. rest) };

    fn next(&mut self) -> Option<(LspId, &'a Entry)> {
        self.walk.next()
    }
}

/// The pairs from one number to another.
pub(crate) fn range_of<T>(pages: &[Page<T>], start: u64, end: u64) -> PageRange<'_, T>
    requires filled { AllFilled pages.now }
    requires rises { RisesFrom 0 (flatten pages.now) }
    ensures { result ≡ upto end (from start (flatten pages.now)) }
{
    let (here, rest) = pairs_from(pages, start);
    let pairs = Pairs::new(here, rest);
    PageRange { pairs, end }
}

/// The pairs from a number on, of which some are at hand.
pub(crate) fn pairs_from<T>(pages: &[Page<T>], start: u64) -> (&[(LspId, T)], &[Page<T>])
    requires filled { AllFilled pages.now }
    requires rises { RisesFrom 0 (flatten pages.now) }
    ensures same { result.0.now ++ flatten result.1.now ≡ from start (flatten pages.now) }
    ensures filled { AllFilled result.1.now }
{
    if pages.is_empty() {
        return (&[], pages);
    }
    let (page, place) = start_at(pages, start);
    (&pages[page].pairs()[place..], &pages[page + 1..])
}

/// Where the pairs from a number on begin.
fn start_at<T>(pages: &[Page<T>], n: u64) -> (usize, usize)
    requires some { 0 < length pages.now }
    requires filled { AllFilled pages.now }
    requires rises { RisesFrom 0 (flatten pages.now) }
    ensures { IsStart pages.now n result }
{
    match search(pages, n) {
        Ok(at) => at,
        Err(at) => at,
    }
}
