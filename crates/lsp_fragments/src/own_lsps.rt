//! The own LSPs that are issued.
ghost use Rattle.std.specs.Prelude.{◌≡◌, ◌+◌, ◌<◌, ◌≤◌, ℕ, [], OnOk, OnErr, IfOk, IsOk, IsSome, is_some, MatchOption, None, Some};
ghost use Rattle.std.specs.Option.{option_map};
ghost use Rattle.isis_base.specs.Identifiers.{lsp_number};
ghost use Rattle.isis_base.specs.Keys.{rank};
ghost use Rattle.model_router.specs.Maps.{find, put, erase, each};
ghost use Rattle.model_router.specs.Ranks.{number_of};
ghost use Rattle.model_router.specs.Routers.{Issued};
ghost use Rattle.model_router.specs.Seconds.{older};
ghost use Rattle.model_router.specs.Sorted.{RisesFrom};
ghost use Rattle.lsp_fragments.specs.Issues.{all_rest, issue_next, issue_above};
ghost use Rattle.lsp_fragments.specs.Kept.{all_issued, issued_from, first_id};

use crate::by_id::{age_all, copy_of, id_above, id_from, kept_of, place_of};
use crate::issue::Issue;
use crate::kept::Kept;
use isis_base::{Key, LspId, Octets, OutOfMemory};
use ordered::{insert_at, take_out};
use std::alloc::Global;
use std::marker::Model;

/// After so many seconds a fragment that says something else may be issued (own).
const CHANGED: u64 = 5;

/// After so many seconds a fragment is issued anew (ISO 10589 7.3.5).
const REFRESH: u64 = 900;

/// A level's own LSPs that are issued (ISO 10589 7.3.6): for each LSP ID what its last issue says,
/// and the seconds since then. Contracts see it as the router's model has it.
#[derive(Drop)]
pub struct OwnLsps {
    list: Vec<Kept>,
}

impl Model for OwnLsps {
    ghost use Rattle.std.specs.Prelude.{vec_capacity};
    ghost use Rattle.model_router.specs.Sorted.{RisesFrom};
    ghost use Rattle.lsp_fragments.specs.Kept.{OwnState};

    ghost Value = { OwnState };

    ghost use Rattle.lsp_fragments.specs.Kept.{by_id, own_state};

    ghost view = { λ o. own_state o.list.items (vec_capacity o.list) };

    ghost invariant = { λ o. RisesFrom 0 (by_id o.list.items) };
}

impl OwnLsps {
    /// None is issued. It takes no memory.
    pub fn new(alloc: Global) -> OwnLsps
        ensures { result.issued ≡ [] }
    {
        OwnLsps {
            list: Vec::new(alloc),
        }
    }

    /// What becomes of a wanted fragment, by the key that is held of its LSP ID, and by whether it
    /// says the `same` as its last issue (ISO 10589 7.3.5, 7.3.6). It is issued at the number above
    /// the one that is held where it isn't issued, where it says something else and was issued at
    /// least 5 seconds ago, and where it was issued at least 900 seconds ago; else it waits. At the
    /// last number it is `Exhausted`.
    pub fn next_issue(&self, id: LspId, held: Option<Key>, same: bool) -> Issue
        ensures { result ≡ issue_next (find self.now.issued (lsp_number id)) (rank held) same }
    {
        let due = match kept_of(&self.list, id) {
            Some(kept) => (kept.age >= CHANGED && !same) || kept.age >= REFRESH,
            None => true,
        };
        if !due {
            return Issue::Wait;
        }
        issue_at(number_of(held))
    }

    /// What becomes of an own LSP of which a copy of number `above` is heard (ISO 10589 7.3.16.1):
    /// it is issued at the next number at once. At the last number it is `Exhausted`.
    pub fn outbid(&self, _id: LspId, above: u32) -> Issue
        ensures { result ≡ issue_above above }
    {
        issue_at(above)
    }

    /// Takes the memory for so many more own LSPs. At `OutOfMemory` all is as before.
    pub fn reserve(&mut self, more: usize) -> Result<(), OutOfMemory>
        ensures issued { self.new.issued ≡ self.old.issued }
        ensures room { OnOk result (more ≤ self.new.spare) }
        ensures err { OnErr result (self.new ≡ self.old) }
    {
        self.list.reserve(more)?;
        Ok(())
    }

    /// Keeps what an LSP ID was issued with, just now. Where it was issued before, or room is
    /// spare, it takes no memory. At `OutOfMemory` all is as before.
    pub fn issued(&mut self, id: LspId, tlvs: Octets, flags: u8) -> Result<(), OutOfMemory>
        ensures ok { OnOk result (self.new.issued ≡ put self.old.issued (lsp_number id)
            (record { contents = record { flags = flags; tlvs = tlvs }; age = 0 })) }
        ensures spare { OnOk result (self.old.spare ≤ self.new.spare + 1) }
        ensures err { OnErr result (self.new ≡ self.old) }
        ensures held { IsSome (find self.old.issued (lsp_number id)) → IsOk result }
        ensures room { 0 < self.old.spare → IsOk result }
    {
        let place = place_of(&self.list, id);
        let kept = Kept {
            id,
            flags,
            tlvs,
            age: 0,
        };
        insert_at(&mut self.list, place, kept)
    }

    /// The LSP ID isn't issued any longer.
    pub fn drop_id(&mut self, id: LspId)
        ensures issued { self.new.issued ≡ erase self.old.issued (lsp_number id) }
        ensures spare { self.old.spare ≤ self.new.spare }
    {
        take_out(&mut self.list, id.to_number());
    }

    /// Whether the LSP ID is issued.
    pub fn is_issued(&self, id: LspId) -> bool
        ensures { result ≡ is_some (find self.now.issued (lsp_number id)) }
    {
        kept_of(&self.list, id).is_some()
    }

    /// The first LSP ID from one on that is issued.
    pub fn next_from(&self, start: LspId) -> Option<LspId>
        ensures first { option_map lsp_number result
            ≡ first_id (issued_from (lsp_number start) self.now.issued) }
        ensures rises { RisesFrom 0 self.now.issued }
    {
        id_from(&self.list, start)
    }

    /// The first LSP ID above one that is issued.
    pub fn next_above(&self, id: LspId) -> Option<LspId>
        ensures { option_map lsp_number result
            ≡ first_id (issued_from (lsp_number id + 1) self.now.issued) }
    {
        id_above(&self.list, id)
    }

    /// The TLVs and the flags octet of the last issue; `None` exactly where the LSP ID isn't
    /// issued.
    pub fn contents(&self, id: LspId) -> Option<(&[u8], u8)>
        ensures { MatchOption result (find self.now.issued (lsp_number id) ≡ None)
            (λ said. option_map (λ i. i.contents) (find self.now.issued (lsp_number id))
            ≡ Some (record { flags = said.1; tlvs = said.0.now })) }
    {
        match kept_of(&self.list, id) {
            Some(kept) => Some((kept.tlvs.as_slice(), kept.flags)),
            None => None,
        }
    }

    /// Whether none is to be issued anew a second later for its age alone (ISO 10589 7.3.5).
    pub fn rests(&self) -> bool
        ensures { result ≡ all_rest self.now.issued }
    {
        all_rest(&self.list)
    }

    /// A second more since each issue.
    pub fn second(&mut self)
        ensures issued { self.new.issued
            ≡ each (λ (_ : ℕ) (i : Issued). older i) self.old.issued }
        ensures spare { self.old.spare ≤ self.new.spare }
    {
        age_all(&mut self.list);
    }

    /// One with the same own LSPs.
    pub fn copy(&self) -> Result<OwnLsps, OutOfMemory>
        ensures { IfOk result (λ copy. copy.issued ≡ self.now.issued) }
    {
        let list = copy_of(*self.list.allocator(), &self.list)?;
        Ok(OwnLsps { list })
    }
}

/// Whether none is to be issued anew a second later for its age alone.
fn all_rest(list: &[Kept]) -> bool
    ensures { result ≡ all_rest (all_issued list.now) }
{
    let mut left = list;
    while let [kept, more @ ..] = left {
        if kept.age >= REFRESH - 1 {
            return false;
        }
        left = more;
    }
    true
}

/// The number of a key, 0 of none.
fn number_of(held: Option<Key>) -> u32
    ensures { result ≡ number_of (rank held) }
{
    match held {
        Some(key) => key.number,
        None => 0,
    }
}

/// The number above one, where there is one.
fn issue_at(above: u32) -> Issue
    ensures { result ≡ issue_above above }
{
    match above.checked_add(1) {
        Some(number) => Issue::Number(number),
        None => Issue::Exhausted,
    }
}
