//! The plan of an LSP: whether it is dropped, and else the row that it meets, what is answered, and what its node tells
//! then.
ghost use Rattle.std.specs.Prelude.{◌≡◌, ◌-◌, ◌<◌, ◌≤◌, ◌⊎◌, true, length, None, is_some, IfOk, IfSome};
ghost use Rattle.model_router.specs.Places.{nth};
ghost use Rattle.model_router.specs.Receiving.{lsp_drop};
ghost use Rattle.model_router.specs.Steps.{step};
ghost use Rattle.flag_sync.specs.Heard.{answer_of, heard_of};
ghost use Rattle.flag_sync.specs.declared.heard.LspAnswer.TheVariants as answer;
ghost use Rattle.router_desk.specs.Opening.{envelope_of};
ghost use Rattle.router_routes.specs.Following.{IsFollowing};
ghost use Rattle.router_routes.specs.Outlooks.{outlook_of};
ghost use Rattle.router_core.specs.Calm.{is_calm_answer};
ghost use Rattle.router_core.specs.Events.{IsThere};
ghost use Rattle.router_core.specs.Givens.{given};
ghost use Rattle.router_core.specs.Plans.{AreTold, IsPlan, is_moving, lsp_event, row_met};
ghost use Rattle.router_core.specs.Reached.{IsReached};
ghost use Rattle.router_core.specs.Settled.{AreTrue};

use crate::aside::teller;
use crate::marks::Marks;
use crate::parts::Parts;
use crate::plan::{Deed, Plan};
use crate::reached::outlook_laws;
use crate::told::Told;
use flag_sync::{LspAnswer, LspHeard};
use isis_base::{Level, OutOfMemory};
use router_desk::Envelope;
use router_routes::Following;

impl Parts {
    /// The plan of an LSP that came (ISO 10589 7.3.15.1).
    pub(crate) fn plan_lsp<'a>(
        &self,
        circuit: u8,
        from: (Level, Envelope),
        lsp: &LspHeard<'a>,
        following: Option<&Following>,
        marks: Marks,
    ) -> Result<Plan<'a>, OutOfMemory>
        requires there { IsThere self.now circuit }
        requires number { 0 < lsp.now.entry.number }
        requires octets { 27 ≤ length lsp.now.octets.now }
        requires reached { IsReached self.now }
        requires following { IfSome following (λ f. IsFollowing (outlook_of self.now) f.now) }
        requires marks { AreTrue marks self.now }
        ensures { IfOk result (IsPlan (is_some following.entry) self.now (lsp_event circuit from.0 from.1 lsp.now)) }
    {
        let (level, envelope) = from;
        match self.lsp_cause(circuit, level, envelope, lsp) {
            Some(cause) => return Ok(self.plan_drop(cause, marks)),
            None => {}
        }
        let row = self.row_met(level, lsp);
        match bid_of(row) {
            Some(above) => self.plan_outbid(circuit, from, lsp, above, following),
            None => self.plan_row(circuit, from, lsp, row, following.is_some(), marks),
        }
    }

    /// The row of the table that an LSP meets in a level (ISO 10589 7.3.15.1, 7.3.16).
    fn row_met(&self, level: Level, lsp: &LspHeard<'_>) -> LspAnswer
        ensures { result ≡ answer_of (row_met self.now level lsp.now) lsp.now }
    {
        self.level(level).lsp_case(self.desk.system(), lsp)
    }

    /// The plan of an LSP that meets a row by which no own one is outbid.
    fn plan_row<'a>(
        &self,
        circuit: u8,
        from: (Level, Envelope),
        lsp: &LspHeard<'a>,
        row: LspAnswer,
        asked: bool,
        marks: Marks,
    ) -> Result<Plan<'a>, OutOfMemory>
        requires there { IsThere self.now circuit }
        requires number { 0 < lsp.now.entry.number }
        requires octets { 27 ≤ length lsp.now.octets.now }
        requires reached { IsReached self.now }
        requires kept { IfSome (nth self.now.circuits (circuit - 1)) (λ c.
            lsp_drop self.now (circuit - 1) c from.0 (envelope_of from.1) (heard_of lsp.now) ≡ None) }
        requires row { row ≡ answer_of (row_met self.now from.0 lsp.now) lsp.now }
        requires other { (is_calm_answer row ≡ true) ⊎ (is_moving row ≡ true) }
        requires marks { AreTrue marks self.now }
        ensures { IfOk result (IsPlan asked self.now (lsp_event circuit from.0 from.1 lsp.now)) }
    {
        let (level, _envelope) = from;
        let reply = self.acknowledged(circuit, level, lsp, row)?;
        let (told, marks) = self.told_by_lsp(circuit, from, lsp, row, asked, marks)?;
        let deed = Deed::Lsp {
            circuit,
            level,
            lsp: *lsp,
            answer: None,
        };
        Ok(Plan {
            deed,
            reply,
            told,
            marks,
        })
    }

    /// What changes of what routes look at, where that is asked for, once an LSP meets a row by which no own one is outbid; and
    /// the marks as they will be.
    fn told_by_lsp(
        &self,
        circuit: u8,
        from: (Level, Envelope),
        lsp: &LspHeard<'_>,
        row: LspAnswer,
        asked: bool,
        marks: Marks,
    ) -> Result<(Told, Marks), OutOfMemory>
        requires there { IsThere self.now circuit }
        requires reached { IsReached self.now }
        requires kept { IfSome (nth self.now.circuits (circuit - 1)) (λ c.
            lsp_drop self.now (circuit - 1) c from.0 (envelope_of from.1) (heard_of lsp.now) ≡ None) }
        requires row { row ≡ answer_of (row_met self.now from.0 lsp.now) lsp.now }
        requires other { (is_calm_answer row ≡ true) ⊎ (is_moving row ≡ true) }
        requires marks { AreTrue marks self.now }
        ensures told { IfOk result (λ both. asked ≡ true → AreTold (outlook_of self.now)
            (outlook_of (step given self.now (lsp_event circuit from.0 from.1 lsp.now)).router)
            both.0) }
        ensures marks { IfOk result (λ both. AreTrue both.1
            (step given self.now (lsp_event circuit from.0 from.1 lsp.now)).router) }
    {
        outlook_laws();
        if is_calm_row(row) {
            return Ok((Told::Nothing, marks.after()));
        }
        let marks = marks.after_lsp(self.runs(Level::One) & self.runs(Level::Two));
        if !asked {
            return Ok((Told::Unasked, marks));
        }
        if self.is_refresh(circuit, from, lsp, row) {
            return Ok((Told::Nothing, marks));
        }
        match self.moving_by(circuit, from, lsp, row) {
            Ok(told) => Ok((told, marks)),
            Err(error) => Err(error),
        }
    }

    /// What is told once an LSP met a row by which other LSPs are held live, and no own one is issued.
    fn moving_by(
        &self,
        circuit: u8,
        from: (Level, Envelope),
        lsp: &LspHeard<'_>,
        row: LspAnswer,
    ) -> Result<Told, OutOfMemory>
        requires there { IsThere self.now circuit }
        requires kept { IfSome (nth self.now.circuits (circuit - 1)) (λ c.
            lsp_drop self.now (circuit - 1) c from.0 (envelope_of from.1) (heard_of lsp.now) ≡ None) }
        requires row { row ≡ answer_of (row_met self.now from.0 lsp.now) lsp.now }
        requires moving { is_moving row ≡ true }
        ensures { IfOk result (AreTold (outlook_of self.now)
            (outlook_of (step given self.now (lsp_event circuit from.0 from.1 lsp.now)).router)) }
    {
        let (level, _envelope) = from;
        let entry = teller(self.alloc, lsp, row)?;
        self.told_with(level, lsp.entry.id, entry)
    }
}

/// The number at which an LSP outbids one's own; `None` where it meets a row by which no own one is issued.
fn bid_of(row: LspAnswer) -> Option<u32>
    ensures bid { IfSome result (λ above. answer.Outbid above ≡ row) }
    ensures other { result ≡ None → (is_calm_answer row ≡ true) ⊎ (is_moving row ≡ true) }
{
    match row {
        LspAnswer::Outbid { above } => Some(above),
        LspAnswer::AckPurge
        | LspAnswer::Same
        | LspAnswer::Older
        | LspAnswer::Stored
        | LspAnswer::Confused
        | LspAnswer::PurgedOwn => None,
    }
}

/// Whether an LSP meets a row by which no key changes.
fn is_calm_row(row: LspAnswer) -> bool
    ensures { result ≡ is_calm_answer row }
{
    match row {
        LspAnswer::AckPurge | LspAnswer::Same | LspAnswer::Older => true,
        _ => false,
    }
}
