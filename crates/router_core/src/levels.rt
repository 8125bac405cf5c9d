//! A router's levels: what is asked of one, and what one takes.
ghost use Rattle.std.specs.Prelude.{◌≡◌, ◌<◌, ◌≤◌, ◌-◌, false, length, is_some, option_map, Some, IfSome, OnOk, OnErr, IsSome};
ghost use Rattle.isis_base.specs.Identifiers.{lsp_number};
ghost use Rattle.model_router.specs.Both.{at};
ghost use Rattle.model_router.specs.Places.{nth};
ghost use Rattle.model_router.specs.Routers.{level_of, with_level};
ghost use Rattle.model_router.specs.LspTable as table;
ghost use Rattle.model_router.specs.declared.lsp_case.LspCase.TheVariants as case;
ghost use Rattle.model_router.specs.Takes as takes;
ghost use Rattle.model_router.specs.Takes.{whose_of};
ghost use Rattle.model_router.specs.Receiving.{lsp_drop, no_room, scene_of};
ghost use Rattle.flag_sync.specs.Heard.{heard_of};
ghost use Rattle.router_levels.specs.Views.{state_of};
ghost use Rattle.router_levels.specs.Drafts.{IsAnswer};
ghost use Rattle.router_desk.specs.Causes.{name_of};
ghost use Rattle.router_desk.specs.Opening.{envelope_of};
ghost use Rattle.router_core.specs.Givens.{given};
ghost use Rattle.router_core.specs.Events.{IsThere};

use crate::parts::Parts;
use flag_sync::LspHeard;
use isis_base::{Level, OutOfMemory};
use router_desk::{DropCause, Envelope};
use router_levels::LevelParts;
use router_sending::{Draft, lent_key};

impl Parts {
    /// A level.
    pub(crate) fn level(&self, level: Level) -> &LevelParts
        ensures state { state_of result.now ≡ level_of self.now level }
        ensures circuits { result.now.book.circuits ≡ length self.now.circuits }
    {
        match level {
            Level::One => &self.one,
            Level::Two => &self.two,
        }
    }

    /// Why an LSP is dropped, if it is (ISO 10589 7.3.15.1).
    pub(crate) fn lsp_cause(
        &self,
        circuit: u8,
        level: Level,
        from: Envelope,
        lsp: &LspHeard<'_>,
    ) -> Option<DropCause>
        requires { IsThere self.now circuit }
        ensures { IfSome (nth self.now.circuits (circuit - 1)) (λ c. option_map name_of result
            ≡ lsp_drop self.now (circuit - 1) c level (envelope_of from) (heard_of lsp.now)) }
    {
        let on = self.level(level);
        let sender = self.circuits[usize::from(circuit) - 1].sender(level, from);
        if !on.book().is_open(circuit) || sender.is_none() {
            return Some(DropCause::NoAdjacency);
        }
        if on.no_room(self.desk.system(), lsp) {
            return Some(DropCause::StoreFull);
        }
        None
    }

    /// A level takes an LSP; where it is outbid, with a draft of the answer.
    pub(crate) fn hear_lsp(
        &mut self,
        circuit: u8,
        level: Level,
        lsp: &LspHeard<'_>,
        answer: Option<Draft>,
    ) -> Result<(), OutOfMemory>
        requires there { IsThere self.old circuit }
        requires number { 0 < lsp.now.entry.number }
        requires octets { 27 ≤ length lsp.now.octets.now }
        requires room { no_room (level_of self.old level) self.old.config.system (heard_of lsp.now)
            ≡ false }
        requires answer { table.met (level_of self.old level).book
            (whose_of self.old.config.system (level_of self.old level)
            (lsp_number lsp.now.entry.id))
            (heard_of lsp.now) ≡ case.Outbid → IsSome answer }
        requires draft { IfSome answer (λ draft. draft.id ≡ lsp.now.entry.id) }
        requires said { IfSome answer (IsAnswer (at self.old.config.keys level)
            (scene_of given self.old level) (lsp_number lsp.now.entry.id)) }
        requires keyed { IfSome answer
            (λ draft. is_some (at self.old.config.keys level) ≡ draft.keyed) }
        ensures state { OnOk result (self.new ≡ with_level self.old level
            (takes.take_lsp (scene_of given self.old level) (level_of self.old level) (circuit - 1)
            (whose_of self.old.config.system (level_of self.old level)
            (lsp_number lsp.now.entry.id))
            (heard_of lsp.now))) }
        ensures err { OnErr result (self.new ≡ self.old) }
    {
        let system = self.desk.system();
        let key = lent_key(self.desk.key(level));
        match level {
            Level::One => self.one.take_lsp(circuit, system, lsp, key, answer)?,
            Level::Two => self.two.take_lsp(circuit, system, lsp, key, answer)?,
        };
        Ok(())
    }
}
