//! The plan of an LSP that outbids one's own (ISO 10589 7.3.16.1).
ghost use Rattle.std.specs.Prelude.{◌≡◌, ◌+◌, ◌-◌, ◌<◌, ◌≤◌, true, length, map, None, is_some, IfOk, IfSome};
ghost use Rattle.std.specs.List.{AllByRecursion};
ghost use Rattle.isis_base.specs.Identifiers.{lsp_number};
ghost use Rattle.model_router.specs.Both.{at};
ghost use Rattle.model_router.specs.Good.{IsIssuable};
ghost use Rattle.model_router.specs.Places.{nth};
ghost use Rattle.model_router.specs.Receiving.{lsp_drop};
ghost use Rattle.model_router.specs.Routers.{Router};
ghost use Rattle.lsp_store.specs.declared.entry.Entry as entries;
ghost use Rattle.model_router.specs.Wanted as model;
ghost use Rattle.flag_sync.specs.Heard.{answer_of, heard_of};
ghost use Rattle.flag_sync.specs.declared.heard.LspAnswer.TheVariants as answer;
ghost use Rattle.router_desk.specs.Opening.{envelope_of};
ghost use Rattle.router_wanted.specs.Views.{contents_of, wanted_of};
ghost use Rattle.router_routes.specs.Following.{IsFollowing};
ghost use Rattle.router_routes.specs.Outlooks.{outlook_of};
ghost use Rattle.router_core.specs.Events.{IsThere};
ghost use Rattle.router_core.specs.Givens.{given};
ghost use Rattle.router_core.specs.Machines.{draft_at};
ghost use Rattle.router_core.specs.Plans.{AreTold, IsAbove, IsIssuedAt, IsPlan, lsp_event, row_met};
ghost use Rattle.router_core.specs.Puts.{IsWith};
ghost use Rattle.router_core.specs.Reached.{IsReached};

use crate::aside::no_entry;
use crate::marks::Marks;
use crate::parts::Parts;
use crate::plan::{Deed, Plan};
use crate::told::Told;
use flag_sync::{LspAnswer, LspHeard};
use isis_base::{Level, LspId, OutOfMemory};
use lsp_store::Entry;
use router_desk::Envelope;
use router_routes::Following;
use router_sending::{Draft, Issued};
use router_wanted::Wanted;

impl Parts {
    /// The plan of an LSP that outbids one's own: it is issued anew above it at once, and purged at the last number.
    pub(crate) fn plan_outbid<'a>(
        &self,
        circuit: u8,
        from: (Level, Envelope),
        lsp: &LspHeard<'a>,
        above: u32,
        following: Option<&Following>,
    ) -> Result<Plan<'a>, OutOfMemory>
        requires there { IsThere self.now circuit }
        requires number { 0 < lsp.now.entry.number }
        requires octets { 27 ≤ length lsp.now.octets.now }
        requires reached { IsReached self.now }
        requires following { IfSome following (λ f. IsFollowing (outlook_of self.now) f.now) }
        requires kept { IfSome (nth self.now.circuits (circuit - 1)) (λ c.
            lsp_drop self.now (circuit - 1) c from.0 (envelope_of from.1) (heard_of lsp.now) ≡ None) }
        requires row { answer.Outbid above ≡ answer_of (row_met self.now from.0 lsp.now) lsp.now }
        ensures { IfOk result (IsPlan (is_some following.entry) self.now (lsp_event circuit from.0 from.1 lsp.now)) }
    {
        let (level, _envelope) = from;
        let id = lsp.entry.id;
        let reply = self.acknowledged(circuit, level, lsp, LspAnswer::Outbid { above })?;
        let (draft, told) = self.answer_above(level, id, above, following)?;
        let deed = Deed::Lsp {
            circuit,
            level,
            lsp: *lsp,
            answer: Some(draft),
        };
        Ok(Plan {
            deed,
            reply,
            told,
            marks: Marks::none(),
        })
    }

    /// A draft of what is wanted of an own LSP ID, and what changes of what routes look at, where that is asked for, once its LSP
    /// is outbid at a number.
    fn answer_above(
        &self,
        level: Level,
        id: LspId,
        above: u32,
        following: Option<&Following>,
    ) -> Result<(Draft, Told), OutOfMemory>
        requires following { IfSome following (λ f. IsFollowing (outlook_of self.now) f.now) }
        ensures draft { IfOk result (λ both. both.0 ≡ draft_at self.now level id) }
        ensures told { IfOk result (λ both. is_some following.entry ≡ true → (t : Router)
            → ((e : entries.Entry) → IsAbove self.now level id above e → IsWith self.now t level id e)
            → AreTold (outlook_of self.now) (outlook_of t) both.1) }
    {
        let wanted = self.wanted(level, following)?;
        let told = self.told_above(&wanted, level, id, above, following.is_some())?;
        match self.draft_in(&wanted, level, id) {
            Ok(draft) => Ok((draft, told)),
            Err(error) => {
                drop(told);
                Err(error)
            }
        }
    }

    /// What changes of what routes look at, where that is asked for, once an own LSP is outbid at a number.
    fn told_above(
        &self,
        wanted: &[Wanted],
        level: Level,
        id: LspId,
        above: u32,
        asked: bool,
    ) -> Result<Told, OutOfMemory>
        requires wanted { map wanted_of wanted.now ≡ model.wanted given self.now self.now level }
        requires issuable { AllByRecursion
            (λ w. IsIssuable (at self.now.config.keys level) (contents_of w)) wanted.now }
        ensures { IfOk result (λ told. asked ≡ true → (t : Router)
            → ((e : entries.Entry) → IsAbove self.now level id above e → IsWith self.now t level id e)
            → AreTold (outlook_of self.now) (outlook_of t) told) }
    {
        if !asked {
            return Ok(Told::Unasked);
        }
        let entry = self.entry_above(wanted, level, id, above)?;
        self.told_with(level, id, entry)
    }

    /// The entry of an own LSP once it is outbid at a number; an empty one at the last, since what is kept then is purged.
    pub(crate) fn entry_above(
        &self,
        wanted: &[Wanted],
        level: Level,
        id: LspId,
        above: u32,
    ) -> Result<Entry, OutOfMemory>
        requires wanted { map wanted_of wanted.now ≡ model.wanted given self.now self.now level }
        requires issuable { AllByRecursion
            (λ w. IsIssuable (at self.now.config.keys level) (contents_of w)) wanted.now }
        ensures { IfOk result (IsAbove self.now level id above) }
    {
        match above.checked_add(1) {
            Some(number) => self.entry_at(wanted, level, id, number),
            None => Ok(no_entry(self.alloc)),
        }
    }

    /// The entry of an own LSP that is issued at a number.
    fn entry_at(
        &self,
        wanted: &[Wanted],
        level: Level,
        id: LspId,
        number: u32,
    ) -> Result<Entry, OutOfMemory>
        requires wanted { map wanted_of wanted.now ≡ model.wanted given self.now self.now level }
        requires issuable { AllByRecursion
            (λ w. IsIssuable (at self.now.config.keys level) (contents_of w)) wanted.now }
        requires some { 0 < number }
        ensures { IfOk result (IsIssuedAt self.now level id number) }
    {
        let draft = self.draft_in(wanted, level, id)?;
        let Issued { entry, tlvs } = draft.issue(self.level_key(level), number);
        drop(tlvs);
        Ok(entry)
    }
}
