//! What nodes tell once a second passed in a level, and its own LSPs are followed (own).
ghost use Rattle.std.specs.Prelude.{◌≡◌, ◌+◌, ◌<◌, ◌≤◌, ℕ, ◌==◌, ◌&&◌, not, List, map, true, false, Some, IfOk, OnOk, if◌then◌else◌};
ghost use Rattle.std.specs.List.{AllByRecursion};
ghost use Rattle.isis_base.specs.Identifiers.{lsp_number};
ghost use Rattle.isis_base.specs.Keys.{rank};
ghost use Rattle.lsp_store.specs.Maps.{find};
ghost use Rattle.lsp_store.specs.declared.entry.Entry as entries;
ghost use Rattle.isis_base.specs.declared.identifiers.LspId as ids;
ghost use Rattle.lsp_fragments.specs.declared.issue.Issue.TheVariants as issue;
ghost use Rattle.lsp_fragments.specs.Issues.{next_of};
ghost use Rattle.model_router.specs.Books.{cell_at, is_full};
ghost use Rattle.model_router.specs.Both.{at};
ghost use Rattle.model_router.specs.Good.{IsIssuable};
ghost use Rattle.model_router.specs.Maps as model;
ghost use Rattle.model_router.specs.OwnLsps as own;
ghost use Rattle.model_router.specs.Ranks.{number_of};
ghost use Rattle.model_router.specs.Routers.{Circuit, LevelState, Router, book_of, level_of};
ghost use Rattle.model_router.specs.Sorted.{RisesFrom};
ghost use Rattle.flag_sync.specs.declared.flag_row.FlagRow.{FlagRow};
ghost use Rattle.flag_sync.specs.Entries.{with_row};
ghost use Rattle.flag_sync.specs.FlagRows.{cell_of};
ghost use Rattle.router_wanted.specs.Views.{contents_of, wanted_of};
ghost use Rattle.spf_tree.specs.Nodes.{node_number};
ghost use Rattle.router_routes.specs.Moved.{AreMovedTo, NodesRise, is_among};
ghost use Rattle.router_routes.specs.Told.{told_in};
ghost use Rattle.router_core.specs.Asides.{IsShown, seen, seen_in};
ghost use Rattle.router_core.specs.Calm.{is_ending};
ghost use Rattle.router_core.specs.Givens.{given};
ghost use Rattle.router_core.specs.LevelSeconds.{IsShiftedTo};
ghost use Rattle.router_core.specs.Renewals.{IsAhead, IsForeseen, IsSeenAside, IsSightAside, Sight, ended, ended_one, number_in, sight_of, staying, stays, stays_in, with_sight, withdrawn, withdrawn_one};
ghost use Rattle.router_core.specs.Seconds.{level_later};
ghost use Rattle.router_core.specs.Shifts.{IsShifted};

use crate::aside::{no_entry, put_in, put_part};
use crate::movers::Movers;
use crate::parts::Parts;
use crate::plan_second::is_ending;
use crate::quiet::says_same;
use crate::snp_told::with_node;
use crate::wanted::said_of;
use isis_base::laws::lsp_id_law;
use isis_base::numbers::ENTRY_LIMIT;
use isis_base::{Key, Level, LspId, NodeId, OutOfMemory};
use lsp_fragments::{Issue, OwnLsps};
use lsp_store::{Entry, Store, is_live};
use router_sending::{Draft, Issued};
use router_wanted::Wanted;
use spf_tree::parts::number;
use std::alloc::Global;

impl Parts {
    /// The nodes of a level that tell other things once its second passed and these own LSPs are followed, where that is asked for;
    /// none in a level that isn't run, and `None` where the same is told.
    pub(crate) fn movers_by(
        &self,
        level: Level,
        wanted: &[Wanted],
        asked: bool,
    ) -> Result<Option<Movers>, OutOfMemory>
        requires issuable { AllByRecursion
            (λ w. IsIssuable (at self.now.config.keys level) (contents_of w)) wanted.now }
        requires rises { RisesFrom 0 (map wanted_of wanted.now) }
        ensures { asked ≡ true → IfOk result (λ movers. (circuits : List Circuit)
            → IsShiftedTo movers self.now level
            (own.renew given self.now level (level_later (level_of self.now level) level circuits)
            (map wanted_of wanted.now)).book) }
    {
        if !asked {
            return Ok(None);
        }
        if !self.runs(level) {
            return Ok(None);
        }
        let on = self.level(level);
        let book = on.book();
        let _rows = book.flag_pages();
        let store = book.store();
        let _entries = store.len();
        let mut later = on.own().copy()?;
        later.second();
        let mut movers = ended_told(self.alloc, store)?;
        match self.tell_renewed(&mut movers, level, &later, store, wanted) {
            Ok(()) => {
                let _told = movers.aside.len();
                Ok(if_any(movers))
            }
            Err(error) => Err(error),
        }
    }

    /// What is told becomes what it is once own LSPs are followed.
    fn tell_renewed(
        &self,
        movers: &mut Movers,
        level: Level,
        later: &OwnLsps,
        store: &Store,
        wanted: &[Wanted],
    ) -> Result<(), OutOfMemory>
        requires issuable { AllByRecursion
            (λ w. IsIssuable (at self.now.config.keys level) (contents_of w)) wanted.now }
        requires rises { RisesFrom 0 (map wanted_of wanted.now) }
        ensures { OnOk result ((s : LevelState) → IsShown self.now level store.now.entries
            → IsAhead self.now level store.now.entries later.now.issued 0
            (staying store.now.entries) movers.old.nodes.items movers.old.aside.entries s
            → IsSeenAside self.now level movers.new.nodes.items movers.new.aside.entries
            (own.renew given self.now level s (map wanted_of wanted.now))) }
    {
        let _entries = store.len();
        match self.tell_looked(movers, level, later, store, wanted) {
            Ok(()) => tell_withdrawn(self.alloc, movers, later, store, wanted),
            Err(error) => Err(error),
        }
    }

    /// What is told becomes what it is once each wanted fragment is looked at, in order (ISO 10589 7.3.6).
    fn tell_looked(
        &self,
        movers: &mut Movers,
        level: Level,
        later: &OwnLsps,
        store: &Store,
        wanted: &[Wanted],
    ) -> Result<(), OutOfMemory>
        requires issuable { AllByRecursion
            (λ w. IsIssuable (at self.now.config.keys level) (contents_of w)) wanted.now }
        requires rises { RisesFrom 0 (map wanted_of wanted.now) }
        ensures { OnOk result ((s : LevelState) → IsShown self.now level store.now.entries
            → IsAhead self.now level store.now.entries later.now.issued 0
            (staying store.now.entries) movers.old.nodes.items movers.old.aside.entries s
            → IsSeenAside self.now level movers.new.nodes.items movers.new.aside.entries
            (own.look_all given self.now level s (map wanted_of wanted.now))) }
    {
        let mut count = staying(store);
        let mut left = wanted;
        while let [want, more @ ..] = left {
            count = match self.tell_look(movers, level, later, store, count, want) {
                Ok(count) => count,
                Err(error) => return Err(error),
            };
            left = more;
        }
        Ok(())
    }

    /// What is told becomes what it is once a wanted fragment is looked at, where so many entries are held; how many are then.
    fn tell_look(
        &self,
        movers: &mut Movers,
        level: Level,
        later: &OwnLsps,
        store: &Store,
        count: usize,
        want: &Wanted,
    ) -> Result<usize, OutOfMemory>
        requires issuable { IsIssuable (at self.now.config.keys level) (contents_of want.now) }
        requires few { count ≤ 65536 }
        ensures few { IfOk result (λ more. more ≤ 65536) }
        ensures ahead { IfOk result (λ more. (least : ℕ) (s : LevelState)
            → least ≤ lsp_number want.now.id → IsShown self.now level store.now.entries
            → IsAhead self.now level store.now.entries later.now.issued least count
            movers.old.nodes.items movers.old.aside.entries s
            → IsAhead self.now level store.now.entries later.now.issued (lsp_number want.now.id + 1)
            more movers.new.nodes.items movers.new.aside.entries
            (own.look given self.now level s (wanted_of want.now))) }
    {
        lsp_id_law(want.id);
        match foreseen(later, store, count, want) {
            Issue::Wait => Ok(count),
            Issue::Exhausted => {
                match tell(self.alloc, movers, store, want.id, no_entry(self.alloc)) {
                    Ok(()) => Ok(count),
                    Err(error) => Err(error),
                }
            }
            Issue::Number(number) => {
                match self.tell_issue(movers, level, store, want, number) {
                    Ok(()) => Ok(with_one(store, count, want.id)),
                    Err(error) => Err(error),
                }
            }
        }
    }

    /// What is told becomes what it is once a wanted fragment is issued at a number.
    fn tell_issue(
        &self,
        movers: &mut Movers,
        level: Level,
        store: &Store,
        want: &Wanted,
        number: u32,
    ) -> Result<(), OutOfMemory>
        requires issuable { IsIssuable (at self.now.config.keys level) (contents_of want.now) }
        requires some { 0 < number }
        ensures { OnOk result ((sight : Sight) → IsShown self.now level store.now.entries
            → IsSightAside self.now level movers.old.nodes.items sight movers.old.aside.entries
            → IsSightAside self.now level movers.new.nodes.items
            (with_sight sight (lsp_number want.now.id) (seen (Some (own.issue_cell given self.now level
            (lsp_number want.now.id) number (contents_of want.now))))) movers.new.aside.entries) }
    {
        match self.issued_entry(level, want, number) {
            Ok(entry) => tell(self.alloc, movers, store, want.id, entry),
            Err(error) => Err(error),
        }
    }

    /// The entry of a wanted fragment that is issued at a number.
    fn issued_entry(&self, level: Level, want: &Wanted, number: u32) -> Result<Entry, OutOfMemory>
        requires issuable { IsIssuable (at self.now.config.keys level) (contents_of want.now) }
        requires some { 0 < number }
        ensures { IfOk result (λ e. (row : FlagRow) → cell_of e row ≡ with_row
            (own.issue_cell given self.now level (lsp_number want.now.id) number
            (contents_of want.now)) row) }
    {
        let tlvs = want.tlvs.copy()?;
        let key = self.level_key(level);
        let draft = Draft::new(self.alloc, key, level, want.id, want.flags, tlvs)?;
        let Issued { entry, tlvs } = draft.issue(key, number);
        drop(tlvs);
        Ok(entry)
    }
}

/// What is told once live entries whose time ends within a second are purged (ISO 10589 7.3.16.3).
fn ended_told(alloc: Global, store: &Store) -> Result<Movers, OutOfMemory>
    ensures { IfOk result (λ movers. (r : Router) (level : Level) → IsShown r level store.now.entries
        → IsSightAside r level movers.nodes.items
        (ended store.now.entries (sight_of (book_of r level))) movers.aside.entries) }
{
    let mut movers = Movers {
        nodes: Vec::new(alloc),
        aside: Store::new(alloc),
    };
    let mut left = store.pages().pairs();
    while let Some((id, entry)) = left.next() {
        match tell_end(alloc, &mut movers, store, id, entry) {
            Ok(()) => {}
            Err(error) => return Err(error),
        }
    }
    Ok(movers)
}

/// What is told becomes what it is once an entry is purged where it is live, and its time ends within a second.
fn tell_end(
    alloc: Global,
    movers: &mut Movers,
    store: &Store,
    id: LspId,
    entry: &Entry,
) -> Result<(), OutOfMemory>
    ensures { OnOk result ((r : Router) (level : Level) (sight : Sight)
        → IsShown r level store.now.entries
        → IsSightAside r level movers.old.nodes.items sight movers.old.aside.entries
        → IsSightAside r level movers.new.nodes.items
        (ended_one (is_ending entry.now) sight (lsp_number id)) movers.new.aside.entries) }
{
    if is_ending(entry) {
        return tell(alloc, movers, store, id, no_entry(alloc));
    }
    Ok(())
}

/// What is told becomes what it is once each own LSP that is issued and isn't wanted is purged, in order (ISO 10589 7.3.16.4).
fn tell_withdrawn(
    alloc: Global,
    movers: &mut Movers,
    later: &OwnLsps,
    store: &Store,
    wanted: &[Wanted],
) -> Result<(), OutOfMemory>
    ensures { OnOk result ((r : Router) (level : Level) (sight : Sight)
        → IsShown r level store.now.entries
        → IsSightAside r level movers.old.nodes.items sight movers.old.aside.entries
        → IsSightAside r level movers.new.nodes.items
        (withdrawn later.now.issued (map wanted_of wanted.now) sight) movers.new.aside.entries) }
{
    let mut next = later.next_from(LspId::from_number(0));
    while let Some(id) = next {
        match tell_withdraw(alloc, movers, store, wanted, id) {
            Ok(()) => {}
            Err(error) => return Err(error),
        }
        next = later.next_above(id);
    }
    Ok(())
}

/// What is told becomes what it is once an own LSP that is issued is purged where it isn't wanted.
fn tell_withdraw(
    alloc: Global,
    movers: &mut Movers,
    store: &Store,
    wanted: &[Wanted],
    id: LspId,
) -> Result<(), OutOfMemory>
    ensures { OnOk result ((r : Router) (level : Level) (sight : Sight)
        → IsShown r level store.now.entries
        → IsSightAside r level movers.old.nodes.items sight movers.old.aside.entries
        → IsSightAside r level movers.new.nodes.items (withdrawn_one sight (lsp_number id)
        (model.find (map wanted_of wanted.now) (lsp_number id))) movers.new.aside.entries) }
{
    match said_of(wanted, id) {
        Some(_) => Ok(()),
        None => tell(alloc, movers, store, id, no_entry(alloc)),
    }
}

/// An LSP ID's entry is told, whose node is one of those that tell other things then.
fn tell(
    alloc: Global,
    movers: &mut Movers,
    store: &Store,
    id: LspId,
    entry: Entry,
) -> Result<(), OutOfMemory>
    ensures { OnOk result ((r : Router) (level : Level) (sight : Sight)
        → IsShown r level store.now.entries
        → IsSightAside r level movers.old.nodes.items sight movers.old.aside.entries
        → IsSightAside r level movers.new.nodes.items
        (with_sight sight (lsp_number id) (seen_in (Some entry))) movers.new.aside.entries) }
{
    lsp_id_law(id);
    match reach(alloc, movers, store, id) {
        Ok(()) => put_in(&mut movers.aside, id, entry),
        Err(error) => Err(error),
    }
}

/// An LSP ID's node becomes one of those that tell other things, with what is held of it, where it isn't one already.
fn reach(alloc: Global, movers: &mut Movers, store: &Store, id: LspId) -> Result<(), OutOfMemory>
    ensures aside { OnOk result ((r : Router) (level : Level) (sight : Sight)
        → IsShown r level store.now.entries
        → IsSightAside r level movers.old.nodes.items sight movers.old.aside.entries
        → IsSightAside r level movers.new.nodes.items sight movers.new.aside.entries) }
    ensures among { OnOk result (is_among movers.new.nodes.items (node_number id.node) ≡ true) }
{
    lsp_id_law(id);
    if is_among(movers.nodes.as_slice(), id.node) {
        return Ok(());
    }
    match put_part(&mut movers.aside, store, id.node) {
        Ok(()) => {}
        Err(error) => return Err(error),
    }
    match with_node(alloc, movers.nodes.as_slice(), id.node) {
        Ok(nodes) => {
            movers.nodes = nodes;
            Ok(())
        }
        Err(error) => Err(error),
    }
}

/// Whether a node is one of some.
fn is_among(nodes: &[NodeId], node: NodeId) -> bool
    ensures { result ≡ is_among nodes.now (node_number node) }
{
    nodes.iter().any(|one| number(*one) == number(node))
}

/// What tells other things, where there is some.
fn if_any(movers: Movers) -> Option<Movers>
    ensures { (old new : List (ids.LspId × entries.Entry)) → NodesRise 0 movers.nodes.items
        → AreMovedTo movers.nodes.items (told_in movers.aside.entries) old new
        → IsShifted result true old new }
{
    if movers.nodes.is_empty() {
        return None;
    }
    Some(movers)
}

/// What will become of a wanted fragment once a second passed and those before it were looked at, where so many entries are held
/// then (ISO 10589 7.3.6, 7.3.5).
fn foreseen(later: &OwnLsps, store: &Store, count: usize, want: &Wanted) -> Issue
    ensures next { (least : ℕ) (s : LevelState) → least ≤ lsp_number want.now.id
        → IsForeseen store.now.entries later.now.issued least count s
        → next_of result ≡ own.next (is_full s.book) (model.find s.own (lsp_number want.now.id))
        (cell_at s.book (lsp_number want.now.id)) (contents_of want.now) }
    ensures number { (n : ℕ) → result ≡ issue.Number n → 0 < n }
    ensures place { (n : ℕ) → result ≡ issue.Number n
        → stays_in (find store.now.entries (lsp_number want.now.id)) ≡ false
        → count ≡ 65536 → ⊥ }
{
    if has_no_place(store, count, want.id) {
        return Issue::Wait;
    }
    let same = says_same(later, want);
    later.next_issue(want.id, key_then(store, want.id), same)
}

/// Whether so many entries are held that none can be added, and none of an LSP ID is held.
fn has_no_place(store: &Store, count: usize, id: LspId) -> bool
    ensures { result
        ≡ (count == 65536 && not (stays_in (find store.now.entries (lsp_number id)))) }
{
    count == ENTRY_LIMIT && !is_staying(store, id)
}

/// How many entries are held once an LSP ID is issued.
fn with_one(store: &Store, count: usize, id: LspId) -> usize
    requires { count ≤ 65536 }
    ensures { result ≡ (if stays_in (find store.now.entries (lsp_number id)) then count else count + 1) }
{
    if is_staying(store, id) {
        return count;
    }
    count + 1
}

/// Whether an LSP ID has an entry a second later.
fn is_staying(store: &Store, id: LspId) -> bool
    ensures { result ≡ stays_in (find store.now.entries (lsp_number id)) }
{
    match store.get(id) {
        Some(entry) => stays(entry),
        None => false,
    }
}

/// A key of the number that is held of an LSP ID a second later; `None` where none is.
fn key_then(store: &Store, id: LspId) -> Option<Key>
    ensures { number_of (rank result) ≡ number_in (find store.now.entries (lsp_number id)) }
{
    match store.get(id) {
        Some(entry) => {
            if stays(entry) {
                return entry.key;
            }
            None
        }
        None => None,
    }
}

/// How many entries stay.
fn staying(store: &Store) -> usize
    ensures count { result ≡ staying store.now.entries }
    ensures few { result ≤ 65536 }
{
    let _entries = store.len();
    let mut count = 0;
    let mut left = store.pages().pairs();
    while let Some((_, entry)) = left.next() {
        if stays(entry) {
            count += 1;
        }
    }
    count
}

/// Whether an entry is held a second later, be it as a purge.
fn stays(entry: &Entry) -> bool
    ensures { result ≡ stays entry.now }
{
    entry.left >= 2 || is_live(entry)
}
