//! The own LSPs that are wanted of the router as it is, and drafts of them.
ghost use Rattle.std.specs.Prelude.{◌≡◌, ℕ, List, Option, map, is_some, IfOk, IfSome, option_copied, option_map};
ghost use Rattle.std.specs.List.{AllByRecursion};
ghost use Rattle.isis_base.specs.Identifiers.{lsp_number};
ghost use Rattle.model_router.specs.Both.{at};
ghost use Rattle.model_router.specs.Sorted.{RisesFrom};
ghost use Rattle.model_router.specs.Good.{IsIssuable};
ghost use Rattle.model_router.specs.Maps.{find};
ghost use Rattle.model_router.specs.Wanted as model;
ghost use Rattle.model_router.specs.Wanted.{is_type};
ghost use Rattle.model_router.specs.Receiving.{scene_of};
ghost use Rattle.router_wanted.specs.Views.{contents_of, wanted_of};
ghost use Rattle.model_router.specs.Routers.{level_of};
ghost use Rattle.router_levels.specs.Drafts.{AreAnswers, AreReady, IsAnswer, IsReady};
ghost use Rattle.router_routes.specs.Outlooks.{outlook_of};
ghost use Rattle.router_routes.specs.Following.{IsFollowing};
ghost use Rattle.router_core.specs.Givens.{given};
ghost use Rattle.router_core.specs.Machines.{AreWantedFor, draft_at};

use crate::parts::Parts;
use isis_base::{Level, LevelSet, LspEntry, LspId, Octets, OutOfMemory};
use router_desk::Desk;
use router_routes::Following;
use router_sending::Draft;
use router_wanted::Wanted;

impl Parts {
    /// The key of a level's LSPs and sequence number PDUs (RFC 5304 3).
    pub(crate) fn level_key(&self, level: Level) -> Option<&[u8]>
        ensures { option_copied result ≡ at self.now.config.keys level }
    {
        key_of(&self.desk, level)
    }

    /// The own LSPs that a level wants, by LSP ID (ISO 10589 7.3.6).
    pub(crate) fn wanted(
        &self,
        level: Level,
        following: Option<&Following>,
    ) -> Result<Vec<Wanted>, OutOfMemory>
        requires { IfSome following (λ f. IsFollowing (outlook_of self.now) f.now) }
        ensures wanted { IfOk result (λ list. map wanted_of list.items
            ≡ model.wanted given self.now self.now level) }
        ensures issuable { IfOk result (λ list. AllByRecursion
            (λ w. IsIssuable (at self.now.config.keys level) (contents_of w)) list.items) }
        ensures rises { IfOk result (λ list. RisesFrom 0 (map wanted_of list.items)) }
    {
        self.wanted_with(&self.circuits, level, following)
    }

    /// A draft of what this list of what is wanted says of an own LSP ID (ISO 10589 7.3.16.1); one that isn't
    /// wanted says its IS type alone (own).
    pub(crate) fn draft_in(
        &self,
        wanted: &[Wanted],
        level: Level,
        id: LspId,
    ) -> Result<Draft, OutOfMemory>
        requires wanted { map wanted_of wanted.now ≡ model.wanted given self.now self.now level }
        requires issuable { AllByRecursion
            (λ w. IsIssuable (at self.now.config.keys level) (contents_of w)) wanted.now }
        ensures { IfOk result (λ draft. draft ≡ draft_at self.now level id) }
    {
        let (flags, tlvs) = match said_of(wanted, id) {
            Some(wanted) => (wanted.flags, wanted.tlvs.copy()?),
            None => (self.is_type(), Octets::new(self.alloc)),
        };
        Draft::new(self.alloc, self.level_key(level), level, id, flags, tlvs)
    }

    /// For each entry of a sequence number PDU whose LSP ID is issued, a draft of what is wanted of
    /// it (ISO 10589 7.3.16.1).
    pub(crate) fn answers(
        &self,
        level: Level,
        entries: &[LspEntry],
        following: Option<&Following>,
    ) -> Result<Vec<Option<Draft>>, OutOfMemory>
        requires { IfSome following (λ f. IsFollowing (outlook_of self.now) f.now) }
        ensures ready { IfOk result (λ drafts. AreReady (is_some (at self.now.config.keys level))
            (level_of self.now level).own entries.now drafts.items) }
        ensures said { IfOk result (λ drafts. AreAnswers (at self.now.config.keys level)
            (scene_of given self.now level) entries.now drafts.items) }
    {
        let wanted = self.wanted_of(level, entries, following)?;
        let mut drafts = Vec::new(self.alloc);
        let mut left = entries;
        while let [entry, more @ ..] = left {
            let draft = self.answer_in(&wanted, level, entry)?;
            match drafts.push(draft) {
                Ok(()) => {}
                Err(_) => return Err(OutOfMemory),
            }
            left = more;
        }
        Ok(drafts)
    }

    /// The own LSPs that a level wants, where one of these entries is of an issued one; else none, since nothing is asked
    /// of them.
    pub(crate) fn wanted_of(
        &self,
        level: Level,
        entries: &[LspEntry],
        following: Option<&Following>,
    ) -> Result<Vec<Wanted>, OutOfMemory>
        requires { IfSome following (λ f. IsFollowing (outlook_of self.now) f.now) }
        ensures wanted { IfOk result (λ list. AllByRecursion
            (λ e. AreWantedFor self.now level (lsp_number e.id) (map wanted_of list.items)) entries.now) }
        ensures issuable { IfOk result (λ list. AllByRecursion
            (λ w. IsIssuable (at self.now.config.keys level) (contents_of w)) list.items) }
    {
        let own = self.level(level).own();
        if entries.iter().any(|entry| own.is_issued(entry.id)) {
            return self.wanted(level, following);
        }
        Ok(Vec::new(self.alloc))
    }

    /// The draft for an entry whose LSP ID is issued.
    fn answer_in(
        &self,
        wanted: &[Wanted],
        level: Level,
        entry: &LspEntry,
    ) -> Result<Option<Draft>, OutOfMemory>
        requires wanted { AreWantedFor self.now level (lsp_number entry.now.id)
            (map wanted_of wanted.now) }
        requires issuable { AllByRecursion
            (λ w. IsIssuable (at self.now.config.keys level) (contents_of w)) wanted.now }
        ensures ready { IfOk result (λ draft. IsReady (is_some (at self.now.config.keys level))
            (level_of self.now level).own entry.now draft) }
        ensures said { IfOk result (λ draft. IfSome draft (IsAnswer (at self.now.config.keys level)
            (scene_of given self.now level) (lsp_number entry.now.id))) }
    {
        if !self.level(level).own().is_issued(entry.id) {
            return Ok(None);
        }
        let draft = self.draft_in(wanted, level, entry.id)?;
        Ok(Some(draft))
    }

    /// The IS type in the flags octet: 1 for level 1, 3 where level 2 is run (ISO 10589 9.8).
    fn is_type(&self) -> u8
        ensures { result ≡ is_type self.now.config }
    {
        match self.desk.levels() {
            LevelSet::One => 1,
            LevelSet::Two | LevelSet::Both => 3,
        }
    }
}

/// The key of a level's LSPs and sequence number PDUs (RFC 5304 3), of what never changes.
pub(crate) fn key_of(desk: &Desk, level: Level) -> Option<&[u8]>
    ensures { option_copied result ≡ at desk.now.keys level }
{
    match desk.key(level) {
        None => None,
        Some(key) => Some(key.as_slice()),
    }
}

/// What is wanted of an LSP ID.
pub(crate) fn said_of(list: &[Wanted], id: LspId) -> Option<&Wanted>
    ensures said { option_map (λ w. contents_of w.now) result
        ≡ find (map wanted_of list.now) (lsp_number id) }
    ensures issuable { (key : Option (List ℕ)) → AllByRecursion
        (λ w. IsIssuable key (contents_of w)) list.now
        → IfSome result (λ w. IsIssuable key (contents_of w.now)) }
{
    let mut left = list;
    while let [wanted, more @ ..] = left {
        if wanted.id.to_number() == id.to_number() {
            return Some(wanted);
        }
        left = more;
    }
    None
}
