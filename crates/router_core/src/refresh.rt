//! LSPs that tell routes what is held of their LSP IDs already (own).
ghost use Rattle.std.specs.Prelude.{◌≡◌, ◌-◌, true, None, IfSome};
ghost use Rattle.isis_base.specs.Identifiers.{lsp_number};
ghost use Rattle.model_router.specs.Places.{nth};
ghost use Rattle.model_router.specs.Receiving.{lsp_drop};
ghost use Rattle.model_router.specs.Steps.{step};
ghost use Rattle.lsp_store.specs.Maps.{find};
ghost use Rattle.flag_sync.specs.Heard.{answer_of, heard_of};
ghost use Rattle.flag_sync.specs.declared.heard.LspAnswer.TheVariants as answer;
ghost use Rattle.router_desk.specs.Opening.{envelope_of};
ghost use Rattle.router_routes.specs.Outlooks.{outlook_of};
ghost use Rattle.router_core.specs.Events.{IsThere};
ghost use Rattle.router_core.specs.Givens.{given};
ghost use Rattle.router_core.specs.Plans.{lsp_event, row_met};
ghost use Rattle.router_core.specs.Refreshes.{IsRefresh, TellsAgain};

use crate::parts::Parts;
use flag_sync::{LspAnswer, LspHeard};
use isis_base::Level;
use isis_base::fields::behind_header;
use isis_base::laws::lsp_id_law;
use lsp_store::{Entry, Store, is_live};
use router_desk::Envelope;

impl Parts {
    /// Whether an LSP that met a row is stored, and tells routes what was held of its LSP ID.
    pub(crate) fn is_refresh(
        &self,
        circuit: u8,
        from: (Level, Envelope),
        lsp: &LspHeard<'_>,
        row: LspAnswer,
    ) -> bool
        requires there { IsThere self.now circuit }
        requires kept { IfSome (nth self.now.circuits (circuit - 1)) (λ c.
            lsp_drop self.now (circuit - 1) c from.0 (envelope_of from.1) (heard_of lsp.now) ≡ None) }
        requires row { row ≡ answer_of (row_met self.now from.0 lsp.now) lsp.now }
        ensures { result ≡ true
            → outlook_of (step given self.now (lsp_event circuit from.0 from.1 lsp.now)).router
            ≡ outlook_of self.now }
    {
        let book = self.level(from.0).book();
        if !is_stored(row) {
            return false;
        }
        let _rows = book.flag_pages();
        let store = book.store();
        let _entries = store.len();
        lsp_id_law(lsp.entry.id);
        is_held(store, lsp)
    }
}

/// Whether an LSP meets the row by which it is stored.
fn is_stored(row: LspAnswer) -> bool
    ensures { result ≡ true → row ≡ answer.Stored }
{
    match row {
        LspAnswer::Stored => true,
        _ => false,
    }
}

/// Whether a database holds a live entry that tells routes what an LSP does.
fn is_held(store: &Store, lsp: &LspHeard<'_>) -> bool
    ensures { result ≡ true
        → IsRefresh (find store.now.entries (lsp_number lsp.now.entry.id)) lsp.now }
{
    match store.get(lsp.entry.id) {
        Some(held) => tells_again(held, lsp),
        None => false,
    }
}

/// Whether an entry and an LSP are live, with the same flags and the same octets behind their headers.
fn tells_again(held: &Entry, lsp: &LspHeard<'_>) -> bool
    ensures { result ≡ true → TellsAgain held.now lsp.now }
{
    is_live(held)
        && lsp.entry.number > 0
        && lsp.entry.lifetime > 0
        && lsp.flags == held.flags
        && behind_header(lsp.octets) == behind_header(held.octets.as_slice())
}
