//! What nodes tell once entries of a sequence number PDU are taken by which own LSPs are outbid, or others purged.
ghost use Rattle.std.specs.Prelude.{◌≡◌, ℕ, ◌++◌, ◌∷◌, [], List, true, map, Option, Some, IfOk, IfSome, OnOk};
ghost use Rattle.std.specs.List.{AllByRecursion};
ghost use Rattle.isis_base.specs.Identifiers.{lsp_number};
ghost use Rattle.isis_base.specs.declared.identifiers.NodeId.{NodeId};
ghost use Rattle.lsp_store.specs.Maps.{find};
ghost use Rattle.model_router.specs.Both.{at};
ghost use Rattle.model_router.specs.Good.{IsIssuable};
ghost use Rattle.model_router.specs.Receiving.{scene_of};
ghost use Rattle.model_router.specs.Routers.{LevelState, level_of, with_level};
ghost use Rattle.model_router.specs.Takes.{take_entries, take_entry, take_snp};
ghost use Rattle.flag_sync.specs.Heard.{entries_of, entry_of};
ghost use Rattle.router_wanted.specs.Views.{contents_of, wanted_of};
ghost use Rattle.spf_tree.specs.Nodes.{node_number};
ghost use Rattle.router_routes.specs.Following.{IsFollowing};
ghost use Rattle.router_routes.specs.Moved.{is_among, NodesRise};
ghost use Rattle.router_routes.specs.Outlooks.{outlook_of};
ghost use Rattle.router_core.specs.Asides.{AreSeven, is_apart, IsAnswered, IsHeldAside, IsCovered, IsShown, with_node, with_parts};
ghost use Rattle.router_core.specs.Givens.{given};
ghost use Rattle.router_core.specs.Machines.{AreWantedFor};
ghost use Rattle.router_core.specs.Plans.{AreTold};
ghost use Rattle.router_core.specs.Reached.{IsReached};

use crate::aside::{no_entry, put_in, put_part};
use crate::movers::Movers;
use crate::parts::Parts;
use crate::told::{Told, told_at};
use flag_sync::Whose;
use isis_base::laws::lsp_id_law;
use isis_base::{Level, LspEntry, NodeId, Order3, OutOfMemory, newer};
use lsp_store::{Entry, Store, is_live};
use router_routes::Following;
use router_wanted::Wanted;
use spf_tree::parts::number;
use std::alloc::Global;

impl Parts {
    /// What is told once a level takes these entries (ISO 10589 7.3.15.2): own LSPs that are outbid are issued anew (7.3.16.1),
    /// and others purged that are held with another checksum (7.3.16.2). Nothing in a level that isn't run.
    pub(crate) fn told_by_entries(
        &self,
        level: Level,
        entries: &[LspEntry],
        following: Option<&Following>,
    ) -> Result<Told, OutOfMemory>
        requires reached { IsReached self.now }
        requires following { IfSome following (λ f. IsFollowing (outlook_of self.now) f.now) }
        ensures { IfOk result (λ told. (place : ℕ) (range : Option (ℕ × ℕ))
            → AreTold (outlook_of self.now) (outlook_of (with_level self.now level
            (take_snp (scene_of given self.now level) (level_of self.now level)
            self.now.config.system place range (entries_of entries.now)))) told) }
    {
        if !self.runs(level) {
            return Ok(Told::Nothing);
        }
        let book = self.level(level).book();
        let _rows = book.flag_pages();
        let store = book.store();
        let _entries = store.len();
        let nodes = nodes_apart(self.alloc, store, entries)?;
        match self.aside_after(level, store, &nodes, entries, following) {
            Ok(aside) => {
                let _told = aside.len();
                Ok(told_at(level, Movers { nodes, aside }))
            }
            Err(error) => {
                drop(nodes);
                Err(error)
            }
        }
    }

    /// The LSPs of these nodes once a level takes these entries.
    fn aside_after(
        &self,
        level: Level,
        store: &Store,
        nodes: &[NodeId],
        entries: &[LspEntry],
        following: Option<&Following>,
    ) -> Result<Store, OutOfMemory>
        requires following { IfSome following (λ f. IsFollowing (outlook_of self.now) f.now) }
        requires shown { IsShown self.now level store.now.entries }
        requires nodes { AreSeven nodes.now }
        requires covered { AllByRecursion (IsCovered self.now level nodes.now) entries.now }
        ensures { IfOk result (λ aside. (place : ℕ) → IsHeldAside self.now level nodes.now
            (take_entries (scene_of given self.now level) (level_of self.now level)
            self.now.config.system place (entries_of entries.now)) aside.entries) }
    {
        let wanted = self.wanted_of(level, entries, following)?;
        let mut aside = parts_of(self.alloc, store, nodes)?;
        match self.put_answers(&mut aside, level, entries, &wanted) {
            Ok(()) => Ok(aside),
            Err(error) => Err(error),
        }
    }

    /// What is aside becomes what it is once a level takes these entries, in order.
    fn put_answers(
        &self,
        aside: &mut Store,
        level: Level,
        entries: &[LspEntry],
        wanted: &[Wanted],
    ) -> Result<(), OutOfMemory>
        requires wanted { AllByRecursion (λ e. AreWantedFor self.now level (lsp_number e.id)
            (map wanted_of wanted.now)) entries.now }
        requires issuable { AllByRecursion
            (λ w. IsIssuable (at self.now.config.keys level) (contents_of w)) wanted.now }
        ensures { OnOk result ((nodes : List NodeId) (place : ℕ) (s : LevelState)
            → AllByRecursion (IsCovered self.now level nodes) entries.now
            → IsHeldAside self.now level nodes s aside.old.entries
            → IsHeldAside self.now level nodes (take_entries (scene_of given self.now level) s
            self.now.config.system place (entries_of entries.now)) aside.new.entries) }
    {
        let mut left = entries;
        while let [entry, more @ ..] = left {
            match self.put_answer(aside, level, entry, wanted) {
                Ok(()) => {}
                Err(error) => return Err(error),
            }
            left = more;
        }
        Ok(())
    }

    /// What is aside becomes what it is once a level takes an entry.
    fn put_answer(
        &self,
        aside: &mut Store,
        level: Level,
        entry: &LspEntry,
        wanted: &[Wanted],
    ) -> Result<(), OutOfMemory>
        requires wanted { AreWantedFor self.now level (lsp_number entry.now.id)
            (map wanted_of wanted.now) }
        requires issuable { AllByRecursion
            (λ w. IsIssuable (at self.now.config.keys level) (contents_of w)) wanted.now }
        ensures { OnOk result ((nodes : List NodeId) (place : ℕ) (s : LevelState)
            → IsCovered self.now level nodes entry.now
            → IsHeldAside self.now level nodes s aside.old.entries
            → IsHeldAside self.now level nodes (take_entry (scene_of given self.now level) s
            self.now.config.system place (entry_of entry.now)) aside.new.entries) }
    {
        lsp_id_law(entry.id);
        if !is_apart_in(aside, entry) {
            return Ok(());
        }
        let told = match self.answer_told(level, entry, wanted) {
            Ok(told) => told,
            Err(error) => return Err(error),
        };
        put_in(aside, entry.id, told)
    }

    /// What is told of an LSP ID once an entry outbids it, or purges it.
    fn answer_told(
        &self,
        level: Level,
        entry: &LspEntry,
        wanted: &[Wanted],
    ) -> Result<Entry, OutOfMemory>
        requires wanted { AreWantedFor self.now level (lsp_number entry.now.id)
            (map wanted_of wanted.now) }
        requires issuable { AllByRecursion
            (λ w. IsIssuable (at self.now.config.keys level) (contents_of w)) wanted.now }
        ensures { IfOk result (IsAnswered self.now level entry.now) }
    {
        match self.level(level).whose(self.desk.system(), entry.id) {
            Whose::Issued => self.entry_above(wanted, level, entry.id, entry.number),
            Whose::Other => Ok(no_entry(self.alloc)),
            Whose::Unissued => Ok(no_entry(self.alloc)),
        }
    }
}

/// The nodes of LSP IDs of which an entry has the live key that is held, and another checksum: in order, each once.
fn nodes_apart(
    alloc: Global,
    store: &Store,
    entries: &[LspEntry],
) -> Result<Vec<NodeId>, OutOfMemory>
    ensures rises { IfOk result (λ nodes. NodesRise 0 nodes.items) }
    ensures ids { IfOk result (λ nodes. AreSeven nodes.items) }
    ensures covered { IfOk result (λ nodes. AllByRecursion (λ e.
        is_apart (find store.now.entries (lsp_number e.id)) e ≡ true
        → is_among nodes.items (node_number e.id.node) ≡ true) entries.now) }
{
    let mut nodes = Vec::new(alloc);
    let mut left = entries;
    while let [entry, more @ ..] = left {
        lsp_id_law(entry.id);
        if is_apart_in(store, entry) {
            nodes = match with_node(alloc, nodes.as_slice(), entry.id.node) {
                Ok(nodes) => nodes,
                Err(error) => return Err(error),
            };
        }
        left = more;
    }
    Ok(nodes)
}

/// These nodes in order, with one more.
pub(crate) fn with_node(
    alloc: Global,
    nodes: &[NodeId],
    node: NodeId,
) -> Result<Vec<NodeId>, OutOfMemory>
    ensures { IfOk result (λ list. list.items ≡ with_node nodes.now node) }
{
    let mut list = match Vec::with_capacity(alloc, nodes.len() + 1) {
        Ok(list) => list,
        Err(_) => return Err(OutOfMemory),
    };
    let mut left = nodes;
    while let [first, more @ ..] = left {
        if number(*first) == number(node) {
            return with_all(list, left);
        }
        if number(node) < number(*first) {
            push(&mut list, node)?;
            return with_all(list, left);
        }
        match push(&mut list, *first) {
            Ok(()) => {}
            Err(error) => return Err(error),
        }
        left = more;
    }
    match push(&mut list, node) {
        Ok(()) => Ok(list),
        Err(error) => Err(error),
    }
}

/// Adds a node.
fn push(list: &mut Vec<NodeId>, node: NodeId) -> Result<(), OutOfMemory>
    ensures { OnOk result (list.new.items ≡ list.old.items ++ node ∷ []) }
{
    match list.push(node) {
        Ok(()) => Ok(()),
        Err(_) => Err(OutOfMemory),
    }
}

/// A list with these nodes behind it.
fn with_all(mut list: Vec<NodeId>, nodes: &[NodeId]) -> Result<Vec<NodeId>, OutOfMemory>
    ensures { IfOk result (λ all. all.items ≡ list.items ++ nodes.now) }
{
    match list.extend_from_slice(nodes) {
        Ok(()) => Ok(list),
        Err(_) => Err(OutOfMemory),
    }
}

/// The LSPs that are held of these nodes.
fn parts_of(alloc: Global, store: &Store, nodes: &[NodeId]) -> Result<Store, OutOfMemory>
    ensures { IfOk result (λ parts. parts.entries ≡ with_parts store.now.entries [] nodes.now) }
{
    let mut parts = Store::new(alloc);
    let mut left = nodes;
    while let [node, more @ ..] = left {
        match put_part(&mut parts, store, *node) {
            Ok(()) => {}
            Err(error) => return Err(error),
        }
        left = more;
    }
    Ok(parts)
}

/// Whether an entry has the live key that a database holds of its LSP ID, and another checksum.
fn is_apart_in(store: &Store, entry: &LspEntry) -> bool
    ensures { result ≡ is_apart (find store.now.entries (lsp_number entry.now.id)) entry.now }
{
    match store.get(entry.id) {
        Some(held) => is_apart(held, entry),
        None => false,
    }
}

/// Whether an entry has the live key of what is held, and another checksum (ISO 10589 7.3.16.2).
fn is_apart(held: &Entry, entry: &LspEntry) -> bool
    ensures { result ≡ is_apart (Some held.now) entry.now }
{
    match newer(held.key, entry.key()) {
        Order3::Same => is_live(held) && held.checksum != entry.checksum,
        Order3::Older => false,
        Order3::Newer => false,
    }
}
