//! Datagrams that are taken.
ghost use Rattle.std.specs.Prelude.{◌≡◌, ◌<◌, ◌-◌, ◌∷◌, [], not, IfSome, IfOk};
ghost use Rattle.isis_base.specs.Identifiers.{lsp_number};
ghost use Rattle.isis_base.specs.Keys.{entry_rank};
ghost use Rattle.model_router.specs.Datagrams as sent;
ghost use Rattle.model_router.specs.LspTable as table;
ghost use Rattle.model_router.specs.Places.{nth};
ghost use Rattle.model_router.specs.Routers.{level_of};
ghost use Rattle.model_router.specs.Takes.{whose_of};
ghost use Rattle.model_router.specs.Receiving.{acks};
ghost use Rattle.flag_sync.specs.Heard.{answer_of, heard_of};
ghost use Rattle.router_sending.specs.Sends.{Sends};
ghost use Rattle.router_core.specs.Events.{IsThere};
ghost use Rattle.router_core.specs.Replies.{Answers, datagrams_of};

use crate::datagrams::Datagrams;
use crate::parts::Parts;
use crate::reply::Reply;
use flag_sync::{LspAnswer, LspHeard};
use isis_base::{Level, LspEntry, OutOfMemory};
use router_sending::{Sender, psnp};

impl Parts {
    /// What is answered to an LSP that meets a row: a purge that isn't held is acknowledged at once on a
    /// point-to-point circuit (ISO 10589 7.3.16.4).
    pub(crate) fn acknowledged(
        &self,
        circuit: u8,
        level: Level,
        lsp: &LspHeard<'_>,
        row: LspAnswer,
    ) -> Result<Reply, OutOfMemory>
        requires there { IsThere self.now circuit }
        requires row { row ≡ answer_of (table.met (level_of self.now level).book
            (whose_of self.now.config.system (level_of self.now level)
            (lsp_number lsp.now.entry.id))
            (heard_of lsp.now)) lsp.now }
        ensures { IfOk result (λ reply. IfSome (nth self.now.circuits (circuit - 1)) (λ c.
            Answers self.now (circuit - 1) (acks c level (heard_of lsp.now)
            (table.met (level_of self.now level).book
            (whose_of self.now.config.system (level_of self.now level)
            (lsp_number lsp.now.entry.id))
            (heard_of lsp.now))) reply)) }
    {
        match row {
            LspAnswer::AckPurge if self.is_point(circuit) => {
                let out = self.ack(circuit, level, lsp.entry)?;
                Ok(Reply::Send(out))
            }
            _ => Ok(Reply::Done),
        }
    }

    /// Whether a circuit is point-to-point.
    fn is_point(&self, circuit: u8) -> bool
        requires { IsThere self.now circuit }
        ensures { IfSome (nth self.now.circuits (circuit - 1)) (λ c. result ≡ not c.lan) }
    {
        !self.circuits[usize::from(circuit) - 1].is_lan()
    }

    /// The acknowledgement of a purge, as a PSNP.
    fn ack(&self, circuit: u8, level: Level, purge: LspEntry) -> Result<Datagrams, OutOfMemory>
        requires { IsThere self.now circuit }
        ensures { IfOk result (λ out. out ≡ datagrams_of self.now (circuit - 1)
            (sent.Psnp level (record {
              id = lsp_number purge.id;
              rank = entry_rank (record purge { lifetime = 0; checksum = 0 });
              lifetime = 0;
              checksum = 0;
            } ∷ []) ∷ [])) }
    {
        let entry = LspEntry {
            lifetime: 0,
            checksum: 0,
            ..purge
        };
        let octets = psnp(self.alloc, &self.sender(circuit), level, &[entry])?;
        let mut out = Datagrams::new(self.alloc);
        out.push(octets)?;
        Ok(out)
    }

    /// The router as it sends on a circuit.
    pub(crate) fn sender(&self, circuit: u8) -> Sender<'_>
        requires { IsThere self.now circuit }
        ensures sends { IfSome (nth self.now.circuits (circuit - 1)) (λ c.
            Sends result self.now.config self.now.boot (circuit - 1) c) }
        ensures circuit { result.circuit ≡ circuit }
    {
        let on = &self.circuits[usize::from(circuit) - 1];
        Sender {
            system: self.desk.system(),
            boot: self.boot,
            levels: self.desk.levels(),
            areas: self.areas.as_slice(),
            area_key: self.level_key(Level::One),
            domain_key: self.level_key(Level::Two),
            circuit,
            priority: on.priority(),
            address: on.address(),
            key: on.key(),
        }
    }
}
