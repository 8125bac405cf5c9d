//! The plan of a sequence number PDU: whether it is dropped, and else what its entries change of what nodes tell.
ghost use Rattle.std.specs.Prelude.{◌≡◌, ◌-◌, true, None, is_none, is_some, IfOk, IfSome};
ghost use Rattle.isis_base.specs.Identifiers.{lsp_number};
ghost use Rattle.model_router.specs.declared.whose.Whose.{Whose};
ghost use Rattle.model_router.specs.Books.{cell_at};
ghost use Rattle.model_router.specs.Events as model;
ghost use Rattle.model_router.specs.Numbers.{system_number};
ghost use Rattle.model_router.specs.Places.{nth};
ghost use Rattle.model_router.specs.Receiving.{snp_drop};
ghost use Rattle.model_router.specs.Routers.{book_of};
ghost use Rattle.model_router.specs.SnpTable.{snp_case};
ghost use Rattle.model_router.specs.Steps.{step};
ghost use Rattle.flag_sync.specs.BookStates.{book_of as state_of};
ghost use Rattle.flag_sync.specs.Heard.{entries_of, entry_of};
ghost use Rattle.router_desk.specs.Opening.{envelope_of};
ghost use Rattle.router_desk.specs.Heard.{range_of};
ghost use Rattle.router_routes.specs.Outlooks.{outlook_of};
ghost use Rattle.router_routes.specs.Following.{IsFollowing};
ghost use Rattle.router_core.specs.Calm.{AreClear, is_calm_entry};
ghost use Rattle.router_core.specs.Events.{IsThere};
ghost use Rattle.router_core.specs.Givens.{given};
ghost use Rattle.router_core.specs.Plans.{AreTold, IsPlan};
ghost use Rattle.router_core.specs.Reached.{IsReached};
ghost use Rattle.router_core.specs.Settled.{AreTrue};

use crate::marks::Marks;
use crate::parts::Parts;
use crate::plan::{Deed, Plan};
use crate::reached::outlook_laws;
use crate::reply::Reply;
use crate::told::Told;
use flag_sync::Book;
use isis_base::{Level, LspEntry, LspId, Order3, OutOfMemory, SystemId, newer};
use router_desk::Envelope;
use router_routes::Following;

impl Parts {
    /// The plan of a sequence number PDU that came (ISO 10589 7.3.15.2).
    pub(crate) fn plan_snp<'a>(
        &self,
        circuit: u8,
        level: Level,
        from: (Envelope, SystemId),
        range: Option<(LspId, LspId)>,
        entries: &'a [LspEntry],
        following: Option<&Following>,
        marks: Marks,
    ) -> Result<Plan<'a>, OutOfMemory>
        requires there { IsThere self.now circuit }
        requires reached { IsReached self.now }
        requires following { IfSome following (λ f. IsFollowing (outlook_of self.now) f.now) }
        requires marks { AreTrue marks self.now }
        ensures { IfOk result (IsPlan (is_some following.entry) self.now (model.Take (circuit - 1)
            (model.SnpHeard level (envelope_of from.0) (system_number from.1) (range_of range)
            (entries_of entries.now)))) }
    {
        let (envelope, source) = from;
        match self.snp_cause(circuit, level, envelope, source, range.is_none()) {
            Some(cause) => return Ok(self.plan_drop(cause, marks)),
            None => {}
        }
        let (told, marks) = self.told_by_snp(
            circuit, level, from, range, entries, following, marks,
        )?;
        let drafts = match self.answers(level, entries, following) {
            Ok(drafts) => drafts,
            Err(error) => {
                drop(told);
                return Err(error);
            }
        };
        Ok(Plan {
            deed: Deed::Snp {
                circuit,
                level,
                range,
                entries,
                drafts,
            },
            reply: Reply::Done,
            told,
            marks,
        })
    }

    /// What changes of what routes look at, where that is asked for, once a sequence number PDU is taken; and the marks as they
    /// will be.
    fn told_by_snp(
        &self,
        circuit: u8,
        level: Level,
        from: (Envelope, SystemId),
        range: Option<(LspId, LspId)>,
        entries: &[LspEntry],
        following: Option<&Following>,
        marks: Marks,
    ) -> Result<(Told, Marks), OutOfMemory>
        requires there { IsThere self.now circuit }
        requires reached { IsReached self.now }
        requires following { IfSome following (λ f. IsFollowing (outlook_of self.now) f.now) }
        requires kept { IfSome (nth self.now.circuits (circuit - 1)) (λ c. None
            ≡ snp_drop self.now (circuit - 1) c level (envelope_of from.0) (system_number from.1)
            (is_none (range_of range))) }
        requires marks { AreTrue marks self.now }
        ensures told { IfOk result (λ both. is_some following.entry ≡ true → AreTold (outlook_of self.now)
            (outlook_of (step given self.now (model.Take (circuit - 1)
            (model.SnpHeard level (envelope_of from.0) (system_number from.1) (range_of range)
            (entries_of entries.now)))).router) both.0) }
        ensures marks { IfOk result (λ both. AreTrue both.1
            (step given self.now (model.Take (circuit - 1)
            (model.SnpHeard level (envelope_of from.0) (system_number from.1) (range_of range)
            (entries_of entries.now)))).router) }
    {
        outlook_laws();
        if self.are_clear(level, entries) {
            return Ok((Told::Nothing, marks.after()));
        }
        if following.is_none() {
            return Ok((Told::Unasked, Marks::none()));
        }
        match self.told_by_entries(level, entries, following) {
            Ok(told) => Ok((told, Marks::none())),
            Err(error) => Err(error),
        }
    }

    /// Whether no entry of a sequence number PDU changes a key.
    fn are_clear(&self, level: Level, entries: &[LspEntry]) -> bool
        ensures { result ≡ true → AreClear (book_of self.now level) (entries_of entries.now) }
    {
        let mut left = entries;
        while let [entry, more @ ..] = left {
            if !is_calm_entry(self.level(level).book(), entry) {
                return false;
            }
            left = more;
        }
        true
    }
}

/// Whether an entry changes no key, whosever the LSP is: it sets no flag, or is of another key than what is held.
fn is_calm_entry(book: &Book, entry: &LspEntry) -> bool
    ensures { (whose : Whose) → result ≡ true → is_calm_entry (snp_case whose
        (cell_at (state_of book.now) (lsp_number entry.now.id)) (entry_of entry.now)) ≡ true }
{
    if !book.would_flag(entry) {
        return true;
    }
    match newer(book.key(entry.id), entry.key()) {
        Order3::Same => false,
        Order3::Older => true,
        Order3::Newer => true,
    }
}
