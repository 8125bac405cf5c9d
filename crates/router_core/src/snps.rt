//! Sequence number PDUs that are taken.
ghost use Rattle.std.specs.Prelude.{◌≡◌, ◌-◌, ◌||◌, not, is_some, option_map, Option, IfSome, OnOk, OnErr};
ghost use Rattle.model_router.specs.Both.{at};
ghost use Rattle.model_router.specs.Places.{nth};
ghost use Rattle.model_router.specs.Elections.{is_designated};
ghost use Rattle.model_router.specs.Routers.{book_of, level_of, with_level};
ghost use Rattle.model_router.specs.Sets.{has};
ghost use Rattle.model_router.specs.Takes as takes;
ghost use Rattle.model_router.specs.Receiving.{is_from, scene_of, sender_of, snp_drop};
ghost use Rattle.model_router.specs.Numbers.{system_number};
ghost use Rattle.flag_sync.specs.Heard.{entries_of};
ghost use Rattle.router_levels.specs.Drafts.{AreAnswers, AreReady, range_of};
ghost use Rattle.router_desk.specs.Causes.{name_of};
ghost use Rattle.router_desk.specs.Opening.{envelope_of};
ghost use Rattle.router_core.specs.Givens.{given};
ghost use Rattle.router_core.specs.Events.{IsThere};

use crate::parts::Parts;
use designated_is::are_same_systems;
use isis_base::{Level, LspEntry, LspId, OutOfMemory, SystemId};
use router_desk::{DropCause, Envelope};
use router_sending::{Draft, lent_key};

impl Parts {
    /// Why a sequence number PDU is dropped, if it is (ISO 10589 7.3.15.2); `partial` for a PSNP.
    pub(crate) fn snp_cause(
        &self,
        circuit: u8,
        level: Level,
        from: Envelope,
        source: SystemId,
        partial: bool,
    ) -> Option<DropCause>
        requires { IsThere self.now circuit }
        ensures { IfSome (nth self.now.circuits (circuit - 1)) (λ c. option_map name_of result
            ≡ snp_drop self.now (circuit - 1) c level (envelope_of from) (system_number source)
            partial) }
    {
        if !self.is_open(circuit, level) || !self.is_from(circuit, level, from, source) {
            return Some(DropCause::NoAdjacency);
        }
        if partial && !self.may_take_partial(circuit, level) {
            return Some(DropCause::NotDesignated);
        }
        None
    }

    /// Whether a level's database has a circuit open.
    pub(crate) fn is_open(&self, circuit: u8, level: Level) -> bool
        requires { IsThere self.now circuit }
        ensures { result ≡ has (book_of self.now level).opened (circuit - 1) }
    {
        self.level(level).book().is_open(circuit)
    }

    /// Whether a datagram of a level may come in this envelope, and is this system's (ISO 10589
    /// 7.3.15.2).
    fn is_from(&self, circuit: u8, level: Level, from: Envelope, source: SystemId) -> bool
        requires { IsThere self.now circuit }
        ensures { IfSome (nth self.now.circuits (circuit - 1)) (λ c. result
            ≡ is_from (sender_of c level (envelope_of from)) (system_number source)) }
    {
        match self.circuits[usize::from(circuit) - 1].sender(level, from) {
            Some(sender) => are_same_systems(sender, source),
            None => false,
        }
    }

    /// Whether PSNPs of a level are taken: on a LAN by the designated system alone (ISO 10589
    /// 7.3.15.2).
    fn may_take_partial(&self, circuit: u8, level: Level) -> bool
        requires { IsThere self.now circuit }
        ensures { IfSome (nth self.now.circuits (circuit - 1)) (λ c. result
            ≡ (not c.lan || is_designated self.now.config (circuit - 1) c level)) }
    {
        let on = &self.circuits[usize::from(circuit) - 1];
        !on.is_lan() || on.is_designated(self.desk.system(), circuit, level)
    }

    /// A level takes a sequence number PDU, with drafts of own LSPs that its entries may outbid.
    pub(crate) fn hear_snp(
        &mut self,
        circuit: u8,
        level: Level,
        range: Option<(LspId, LspId)>,
        entries: &[LspEntry],
        drafts: Vec<Option<Draft>>,
    ) -> Result<(), OutOfMemory>
        requires there { IsThere self.old circuit }
        requires ready { AreReady (is_some (at self.old.config.keys level))
            (level_of self.old level).own entries.now drafts.items }
        requires said { AreAnswers (at self.old.config.keys level) (scene_of given self.old level)
            entries.now drafts.items }
        ensures state { OnOk result (self.new ≡ with_level self.old level
            (takes.take_snp (scene_of given self.old level) (level_of self.old level)
            self.old.config.system (circuit - 1) (range_of range) (entries_of entries.now))) }
        ensures err { OnErr result (self.new ≡ self.old) }
    {
        let system = self.desk.system();
        let key = lent_key(self.desk.key(level));
        match level {
            Level::One => {
                self.one.reserve(entries.len(), 0)?;
                self.one
                    .take_snp(circuit, system, range, entries, key, drafts);
            }
            Level::Two => {
                self.two.reserve(entries.len(), 0)?;
                self.two
                    .take_snp(circuit, system, range, entries, key, drafts);
            }
        }
        Ok(())
    }
}
