//! LSPs that are read by LSP ID: those of a database, or those of one node with one of them as it will be (own).
ghost use Rattle.std.specs.Prelude.{◌≡◌, ◌≤◌, ◌&&◌, [], ◌∷◌, nat_le, if◌then◌else◌};
ghost use Rattle.std.specs.Option.{option_map};
ghost use Rattle.std.specs.List.{AllByRecursion};
ghost use Rattle.isis_base.specs.Identifiers.{IsId, lsp_number};
ghost use Rattle.lsp_store.specs.Maps.{RisesFrom, between, find};
ghost use Rattle.lsp_view.specs.Lsps.{AreClipped, above_of, below_of, entries_in, left_in, node_with, one_in};
ghost use Rattle.lsp_view.specs.Views.{number_of};

use crate::lsp_range::LspRange;
use isis_base::LspId;
use isis_base::laws::lsp_id_law;
use lsp_store::{Entry, Range, Store};

/// The LSPs of a database, or those of an LSP ID's node with an entry in the place of what is held of the LSP ID. It lends them,
/// and takes no memory.
#[derive(Clone, Copy)]
pub struct Lsps<'a> {
    store: &'a Store,
    one: Option<(LspId, &'a Entry)>,
}

impl<'a> Lsps<'a> {
    /// Those of a database.
    pub fn of(store: &'a Store) -> Lsps<'a>
        ensures { entries_in result ≡ store.now.entries }
    {
        Lsps { store, one: None }
    }

    /// Those of an LSP ID's node, with this entry in the place of what is held of the LSP ID.
    pub fn node_with(store: &'a Store, id: LspId, entry: &'a Entry) -> Lsps<'a>
        ensures { entries_in result ≡ node_with store.now.entries id entry.now }
    {
        Lsps {
            store,
            one: Some((id, entry)),
        }
    }

    /// What is known of all of them. It does nothing.
    pub fn kept(&self)
        ensures rises { RisesFrom 0 (entries_in self.now) }
        ensures ids { AllByRecursion (λ pair. IsId pair.0) (entries_in self.now) }
    {
        let _entries = self.store.len();
        match self.one {
            Some((id, _)) => lsp_id_law(id),
            None => {}
        }
    }

    /// The entry of an LSP ID, if there is one.
    pub fn get(&self, id: LspId) -> Option<&'a Entry>
        ensures { option_map (λ entry. entry.now) result ≡ find (entries_in self.now) (lsp_number id) }
    {
        match self.one {
            None => self.store.get(id),
            Some((own, entry)) => {
                let (first, last) = ends(own);
                if id.to_number() == own.to_number() {
                    Some(entry)
                } else if first <= id.to_number() && id.to_number() <= last {
                    self.store.get(id)
                } else {
                    None
                }
            }
        }
    }

    /// The entries from one LSP ID to another, both included, in order.
    pub fn range(&self, start: LspId, end: LspId) -> LspRange<'a>
        ensures { result ≡ between (lsp_number start) (lsp_number end) (entries_in self.now) }
    {
        let _entries = self.store.len();
        match self.one {
            None => LspRange {
                below: Some(self.store.range(start, end)),
                one: None,
                above: None,
            },
            Some((id, entry)) => {
                range_with(self.store, id, entry, start.to_number(), end.to_number())
            }
        }
    }

    /// All entries, in order.
    pub fn iter(&self) -> LspRange<'a>
        ensures { result ≡ entries_in self.now }
    {
        self.kept();
        self.range(LspId::from_number(0), LspId::from_number(u64::MAX))
    }
}

/// The first and the last number that an LSP of an LSP ID's node can have.
fn ends(id: LspId) -> (u64, u64)
    ensures same { result ≡ (number_of id.node 0, number_of id.node 255) }
    ensures within { (result.0 ≤ lsp_number id) × (lsp_number id ≤ result.1) }
{
    lsp_id_law(id);
    let node = id.node;
    (
        LspId { node, number: 0 }.to_number(),
        LspId { node, number: 255 }.to_number(),
    )
}

/// The entries of a node from one number to another, with one in the place of what is held.
fn range_with<'a>(
    store: &'a Store,
    id: LspId,
    entry: &'a Entry,
    start: u64,
    end: u64,
) -> LspRange<'a>
    ensures { result ≡ between start end (node_with store.now.entries id entry.now) }
{
    let _entries = store.len();
    let number = id.to_number();
    let (first, last) = ends(id);
    let (start, end) = clipped(start, end, first, last);
    LspRange {
        below: below(store, start, end, number),
        one: one_between(id, entry, start, end),
        above: above(store, start, end, number),
    }
}

/// The ends of a range within those of another.
fn clipped(start: u64, end: u64, first: u64, last: u64) -> (u64, u64)
    ensures { AreClipped start end first last result.0 result.1 }
{
    let least = if start < first { first } else { start };
    let most = if last < end { last } else { end };
    (least, most)
}

/// An entry, where its LSP ID's number is between two, both included.
fn one_between<'a>(id: LspId, entry: &'a Entry, start: u64, end: u64) -> Option<(LspId, &'a Entry)>
    ensures { one_in result ≡ (if nat_le start (lsp_number id) && nat_le (lsp_number id) end
        then (id, entry.now) ∷ [] else []) }
{
    let number = id.to_number();
    if start <= number && number <= end {
        Some((id, entry))
    } else {
        None
    }
}

/// The entries from one number to another that are below a third.
fn below(store: &Store, start: u64, end: u64, number: u64) -> Option<Range<'_>>
    ensures { left_in result ≡ between start end (below_of number store.now.entries) }
{
    if number == 0 {
        return None;
    }
    let end = if end < number { end } else { number - 1 };
    Some(store.range(LspId::from_number(start), LspId::from_number(end)))
}

/// The entries from one number to another that are above a third.
fn above(store: &Store, start: u64, end: u64, number: u64) -> Option<Range<'_>>
    ensures { left_in result ≡ between start end (above_of number store.now.entries) }
{
    if number == u64::MAX {
        return None;
    }
    let start = if number < start { start } else { number + 1 };
    Some(store.range(LspId::from_number(start), LspId::from_number(end)))
}
