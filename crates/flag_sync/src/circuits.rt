//! What happens to a circuit's flags, for all LSP IDs, and what a second does.
ghost use Rattle.std.specs.Prelude.{◌≡◌, ℕ, ◌-◌, ◌<◌, Some};
ghost use Rattle.std.specs.Option.{option_map};
ghost use Rattle.isis_base.specs.Identifiers.{lsp_number};
ghost use Rattle.model_router.specs.Maps.{each};
ghost use Rattle.model_router.specs.Sets.{has};
ghost use Rattle.model_router.specs.Cells.{Cell, srm_sent, srm_off};
ghost use Rattle.model_router.specs.Books.{Book as TheBook, cell_at, set_cell};
ghost use Rattle.model_router.specs.Ageing.{wait_less};
ghost use Rattle.model_router.specs.Pulls.{sent, answered};
ghost use Rattle.flag_sync.specs.Deeds.{deed_cell};
ghost use Rattle.flag_sync.specs.Circuits.{cleared, open_or_close, sent_on};
ghost use Rattle.flag_sync.specs.BookStates.{BookState, book_of, IsCircuit, SameCircuits};

use crate::bits::{has_bit, with_bit, without_bit};
use crate::book::Book;
use crate::deed::{Deed, SrmDeed, SsnDeed};
use isis_base::LspId;

impl Book {
    /// Whether a circuit has an adjacency of the level that is up. Closing clears the circuit's
    /// flags.
    pub fn set_open(&mut self, circuit: u8, up: bool)
        requires { IsCircuit circuit self.old.circuits }
        ensures book { book_of self.new ≡ open_or_close (book_of self.old) (circuit - 1) up }
        ensures store { self.new.store ≡ self.old.store }
        ensures circuits { self.new.circuits ≡ self.old.circuits }
    {
        let place = self.place(circuit);
        if up {
            self.opened = with_bit(self.opened, place);
            return;
        }
        self.clear_circuit(circuit);
        self.opened = without_bit(self.opened, place);
    }

    /// Clears the circuit's flags.
    pub fn clear_circuit(&mut self, circuit: u8)
        requires { IsCircuit circuit self.old.circuits }
        ensures book { book_of self.new ≡ cleared (book_of self.old) (circuit - 1) }
        ensures store { self.new.store ≡ self.old.store }
        ensures rest { SameCircuits self.old self.new }
    {
        let deed = Deed {
            place: self.place(circuit),
            srm: SrmDeed::Clear,
            ssn: SsnDeed::Clear,
        };
        self.flag_all(&deed);
    }

    /// The LSP was sent on the circuit (ISO 10589 7.3.15.5): on a LAN SRM is cleared, else it
    /// waits five seconds.
    pub fn sent(&mut self, circuit: u8, id: LspId)
        requires { IsCircuit circuit self.old.circuits }
        ensures book { book_of self.new ≡ set_cell (book_of self.old) (lsp_number id)
            (option_map (sent_on self.old.points (circuit - 1))
            (cell_at (book_of self.old) (lsp_number id))) }
        ensures store { self.new.store ≡ self.old.store }
        ensures rest { SameCircuits self.old self.new }
    {
        let place = self.place(circuit);
        let deed = sent_deed(self.points, place);
        self.flag(id, &deed);
    }

    /// The LSPs that are due on the circuit were sent (ISO 10589 7.3.15.5): on a LAN their SRM is
    /// cleared, else it waits five seconds.
    pub fn sent_due(&mut self, circuit: u8)
        requires { IsCircuit circuit self.old.circuits }
        ensures book { book_of self.new ≡ sent (book_of self.old) (circuit - 1) }
        ensures store { self.new.store ≡ self.old.store }
        ensures rest { SameCircuits self.old self.new }
    {
        let place = self.place(circuit);
        let deed = sent_deed(self.points, place);
        self.flags.change_due(deed);
    }

    /// The sequence number PDUs that were owed on the circuit are sent: its SSN flags are cleared.
    pub fn answered(&mut self, circuit: u8)
        requires { IsCircuit circuit self.old.circuits }
        ensures book { book_of self.new ≡ answered (book_of self.old) (circuit - 1) }
        ensures store { self.new.store ≡ self.old.store }
        ensures rest { SameCircuits self.old self.new }
    {
        let deed = Deed {
            place: self.place(circuit),
            srm: SrmDeed::Keep,
            ssn: SsnDeed::Clear,
        };
        self.flag_all(&deed);
    }

    /// A second: what each set SRM flag still waits falls by one where it isn't 0.
    pub fn second(&mut self)
        ensures book { book_of self.new ≡ wait_less (book_of self.old) }
        ensures store { self.new.store ≡ self.old.store }
        ensures rest { SameCircuits self.old self.new }
    {
        self.flags.second();
    }

    /// Does to the flags of all LSP IDs what a deed says.
    fn flag_all(&mut self, deed: &Deed)
        ensures book { book_of self.new ≡ record (book_of self.old) {
          cells = each
              (λ (_ : ℕ) (cell : Cell). deed_cell deed.now cell) (book_of self.old).cells;
        } }
        ensures store { self.new.store ≡ self.old.store }
        ensures rest { SameCircuits self.old self.new }
    {
        self.flags.change_all(deed);
    }
}

/// SRM after it was sent: cleared on a LAN, waiting five seconds on a point-to-point circuit.
fn sent_deed(points: u64, place: u8) -> Deed
    requires { place < 64 }
    ensures deed { (cell : Cell) → deed_cell result cell ≡ sent_on points place cell }
    ensures place { result.place ≡ place }
{
    let ssn = SsnDeed::Keep;
    if has_bit(points, place) {
        let srm = SrmDeed::Wait;
        return Deed { place, srm, ssn };
    }
    let srm = SrmDeed::Clear;
    Deed { place, srm, ssn }
}
