//! Rows of flags, as deeds and seconds leave them.
ghost use Rattle.std.specs.Prelude.{◌≡◌, ◌<◌};
ghost use Rattle.flag_sync.specs.FlagRows.{at_once, five, srm_done, ssn_done, fallen_planes};

use crate::bits::{with_bit, without_bit};
use crate::deed::{Deed, SrmDeed, SsnDeed};
use crate::flag_row::FlagRow;
use crate::walks::is_due;
use lsp_store::Change;

/// A second less of what each set SRM flag waits.
#[derive(Drop)]
pub(crate) struct SecondLess;

/// A deed where SRM is due on its circuit.
#[derive(Drop)]
pub(crate) struct WhereDue {
    pub(crate) deed: Deed,
}

/// A row becomes this one.
#[derive(Drop)]
pub(crate) struct Becomes {
    pub(crate) row: FlagRow,
}

impl Change<FlagRow> for Becomes {
    ghost changed = { λ becomes row. becomes.row };

    fn change(&self, row: &mut FlagRow) {
        *row = self.row;
    }
}

impl Change<FlagRow> for Deed {
    ghost use Rattle.flag_sync.specs.FlagRows.{done};

    ghost changed = { done };

    fn change(&self, row: &mut FlagRow) {
        *row = after_ssn(self.ssn, self.place, after_srm(self.srm, self.place, *row));
    }
}

impl Change<FlagRow> for WhereDue {
    ghost use Rattle.flag_sync.specs.Walks.{done_due};

    ghost changed = { λ due row. done_due due.deed row };

    fn change(&self, row: &mut FlagRow) {
        if is_due(row, self.deed.place) {
            self.deed.change(row);
        }
    }
}

impl Change<FlagRow> for SecondLess {
    ghost use Rattle.flag_sync.specs.FlagRows.{row_less};

    ghost changed = { λ _ row. row_less row };

    fn change(&self, row: &mut FlagRow) {
        let waits = waits_less(row.waits);
        row.waits = waits;
    }
}

/// The row after SRM of a circuit was changed.
fn after_srm(deed: SrmDeed, place: u8, row: FlagRow) -> FlagRow
    requires { place < 64 }
    ensures { result ≡ srm_done deed place row }
{
    let FlagRow { srm, ssn, waits } = row;
    match deed {
        SrmDeed::Keep => row,
        SrmDeed::Set => {
            let waits = due_at_once(waits, place);
            let srm = with_bit(srm, place);
            FlagRow { srm, ssn, waits }
        }
        SrmDeed::Clear => {
            let waits = due_at_once(waits, place);
            let srm = without_bit(srm, place);
            FlagRow { srm, ssn, waits }
        }
        SrmDeed::Wait => {
            let waits = due_in_five(waits, place);
            FlagRow { srm, ssn, waits }
        }
    }
}

/// The row after SSN of a circuit was changed.
fn after_ssn(deed: SsnDeed, place: u8, row: FlagRow) -> FlagRow
    requires { place < 64 }
    ensures { result ≡ ssn_done deed place row }
{
    let FlagRow { srm, ssn, waits } = row;
    match deed {
        SsnDeed::Keep => row,
        SsnDeed::Set => {
            let ssn = with_bit(ssn, place);
            FlagRow { srm, ssn, waits }
        }
        SsnDeed::Clear => {
            let ssn = without_bit(ssn, place);
            FlagRow { srm, ssn, waits }
        }
    }
}

/// The planes where a circuit's flag is due at once.
fn due_at_once(waits: [u64; 3], place: u8) -> [u64; 3]
    requires { place < 64 }
    ensures { result ≡ at_once waits place }
{
    let [ones, twos, fours] = waits;
    [
        without_bit(ones, place),
        without_bit(twos, place),
        without_bit(fours, place),
    ]
}

/// The planes where a circuit's flag is due in five seconds.
fn due_in_five(waits: [u64; 3], place: u8) -> [u64; 3]
    requires { place < 64 }
    ensures { result ≡ five waits place }
{
    let [ones, twos, fours] = waits;
    [
        with_bit(ones, place),
        without_bit(twos, place),
        with_bit(fours, place),
    ]
}

/// The planes a second later.
#[tactic(auto, unfolding(model_router::specs::Waits::fallen))]
fn waits_less(waits: [u64; 3]) -> [u64; 3]
    ensures { result ≡ fallen_planes waits }
{
    let [ones, twos, fours] = waits;
    let waiting = ones | (twos | fours);
    let first = ones ^ waiting;
    [first, twos ^ (first & waiting), fours & (ones | twos)]
}
