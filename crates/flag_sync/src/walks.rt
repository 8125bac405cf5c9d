//! The LSP IDs whose SRM is due on a circuit, and those whose SSN stands there.
ghost use Rattle.std.specs.Prelude.{◌≡◌, ◌<◌, ◌-◌, [], false};
ghost use Rattle.isis_base.specs.declared.level.Level.{Level};
ghost use Rattle.model_router.specs.Pulls.{srm_due, due_lsps};
ghost use Rattle.model_router.specs.Sets.{has};
ghost use Rattle.model_router.specs.Cells.{Cell};
ghost use Rattle.flag_sync.specs.Walks.{row_due, due_of, owed_of, numbers_of, ids_where};
ghost use Rattle.flag_sync.specs.BookStates.{book_of, IsCircuit};

use crate::bits::has_bit;
use crate::book::Book;
use crate::flag_row::FlagRow;
use isis_base::LspId;
use lsp_store::Pairs;
use std::marker::Model;

/// The LSP IDs whose SRM is due on a circuit, in order. Contracts see those that are left.
#[derive(Drop)]
pub struct Due<'a> {
    rows: Pairs<'a, FlagRow>,
    place: u8,
    some: bool,
    ghost fits: { place < 64 },
    ghost none: { some ≡ false → due_of place rows ≡ [] },
}

impl<'a> Model for Due<'a> {
    ghost use Rattle.std.specs.Prelude.{List};
    ghost use Rattle.isis_base.specs.declared.identifiers.LspId.{LspId};
    ghost use Rattle.flag_sync.specs.Walks.{due_of};

    ghost Value = { List LspId };

    ghost view = { λ d. due_of d.place d.rows };
}

impl<'a> Iterator for Due<'a> {
    ghost use Rattle.std.specs.Iterator.{YieldsFirst, item_count};

    type Item = LspId;

    ghost next_gives = { YieldsFirst (λ rest. rest) };

    ghost remaining = { item_count (λ rest. rest) };

    fn next(&mut self) -> Option<LspId> {
        if !self.some {
            return None;
        }
        while let Some((id, row)) = self.rows.next() {
            if is_due(row, self.place) {
                return Some(id);
            }
        }
        None
    }
}

/// The LSP IDs whose SSN stands on a circuit, in order. Contracts see those that are left.
#[derive(Drop)]
pub struct Owed<'a> {
    rows: Pairs<'a, FlagRow>,
    place: u8,
    some: bool,
    ghost fits: { place < 64 },
    ghost none: { some ≡ false → owed_of place rows ≡ [] },
}

impl<'a> Model for Owed<'a> {
    ghost use Rattle.std.specs.Prelude.{List};
    ghost use Rattle.isis_base.specs.declared.identifiers.LspId.{LspId};
    ghost use Rattle.flag_sync.specs.Walks.{owed_of};

    ghost Value = { List LspId };

    ghost view = { λ o. owed_of o.place o.rows };
}

impl<'a> Iterator for Owed<'a> {
    ghost use Rattle.std.specs.Iterator.{YieldsFirst, item_count};

    type Item = LspId;

    ghost next_gives = { YieldsFirst (λ rest. rest) };

    ghost remaining = { item_count (λ rest. rest) };

    fn next(&mut self) -> Option<LspId> {
        if !self.some {
            return None;
        }
        while let Some((id, row)) = self.rows.next() {
            if has_bit(row.ssn, self.place) {
                return Some(id);
            }
        }
        None
    }
}

impl Book {
    /// Whether LSPs may be due on a circuit: where not, nothing need be walked to know that none is.
    pub fn may_flood(&self, circuit: u8) -> bool
        requires { IsCircuit circuit self.now.circuits }
        ensures { result ≡ false → (level : Level)
            → due_lsps level (circuit - 1) (book_of self.now).cells ≡ [] }
    {
        self.flags.may_flood(self.place(circuit))
    }

    /// The LSP IDs whose SRM is due on a circuit, in order.
    pub fn due(&self, circuit: u8) -> Due<'_>
        requires { IsCircuit circuit self.now.circuits }
        ensures rows { result ≡ due_of (circuit - 1) self.now.rows }
        ensures cells { numbers_of result ≡ ids_where
            (λ (cell : Cell). srm_due (circuit - 1) cell) (book_of self.now).cells }
    {
        let place = self.place(circuit);
        let rows = self.flags.pairs();
        let some = self.flags.may_flood(place);
        Due { rows, place, some }
    }

    /// The LSP IDs whose SSN stands on a circuit, in order.
    pub fn owed(&self, circuit: u8) -> Owed<'_>
        requires { IsCircuit circuit self.now.circuits }
        ensures rows { result ≡ owed_of (circuit - 1) self.now.rows }
        ensures cells { numbers_of result ≡ ids_where
            (λ (cell : Cell). has cell.ssn (circuit - 1)) (book_of self.now).cells }
    {
        let place = self.place(circuit);
        let rows = self.flags.pairs();
        let some = self.flags.may_answer(place);
        Owed { rows, place, some }
    }
}

/// Whether a row's SRM is due on a circuit: one test of a word, with the bit planes of what waits.
pub(crate) fn is_due(row: &FlagRow, place: u8) -> bool
    requires { place < 64 }
    ensures { result ≡ row_due place row.now }
{
    let [ones, twos, fours] = row.waits;
    has_bit(row.srm, place)
        && !has_bit(ones, place)
        && !has_bit(twos, place)
        && !has_bit(fours, place)
}
