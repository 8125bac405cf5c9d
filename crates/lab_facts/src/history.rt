//! What routers held of their own LSP IDs.
ghost use Rattle.std.specs.Prelude.{◌≡◌, ◌==◌, ◌*◌, ℕ, List, [], ◌∷◌, OnOk, if◌then◌else◌, Some};
ghost use Rattle.isis_base.specs.Identifiers.{lsp_number};
ghost use Rattle.model_router.specs.Maps.{find};
ghost use Rattle.model_router.specs.LetGos.{with_id};
ghost use Rattle.flag_sync.specs.BookStates.{book_of, AreBeside};
ghost use Rattle.flag_sync.specs.Walks.{numbers_of};
ghost use Rattle.lsp_store.specs.declared.entry.Entry.{Entry as StoreEntry};
ghost use Rattle.isis_base.specs.declared.identifiers.LspId.{LspId as AnId};
ghost use Rattle.ordered.specs.Keyed.{IsGap};
ghost use Rattle.purge_ageing.specs.Ids.{Rises};
ghost use Rattle.model_router.specs.Numbers.{system_number};
ghost use Rattle.lab_facts.specs.Sightings.{Sighting, Remembers, after, own_lsps, key_of, doubled_of};
ghost use Rattle.lab_facts.specs.Entries.{live_of, Compares, Left};

use crate::look::Look;
use crate::said::{Said, live_number, tlvs_of};
use designated_is::system_to_number;
use flag_sync::Book;
use isis_base::{LspId, OutOfMemory, SystemId};
use lsp_store::Entry;
use purge_ageing::ids::place_of;
use std::alloc::Global;
use std::collections::BTreeMap;
use std::marker::Model;

/// The last LSP ID of a system, counted from its first.
const LAST_OWN: u64 = 65535;

/// What routers held live of their own LSP IDs on one level: of each LSP ID and number the contents
/// that were seen first, and the LSP IDs that are doubled.
#[derive(Drop)]
pub struct History {
    alloc: Global,
    first: BTreeMap<u128, Said>,
    doubled: Vec<LspId>,
}

impl Model for History {
    ghost use Rattle.flag_sync.specs.Walks.{numbers_of};
    ghost use Rattle.purge_ageing.specs.Ids.{Rises};
    ghost use Rattle.lab_facts.specs.Sightings.{Memory};
    ghost use Rattle.lab_facts.specs.Entries.{kept_of};

    ghost Value = { Memory };

    ghost view = { λ h. record {
      first = kept_of h.first.entries;
      doubled = numbers_of h.doubled.items;
    } };

    ghost invariant = { λ h. Rises 0 (numbers_of h.doubled.items) };
}

impl History {
    /// Nothing was seen yet. It takes no memory.
    pub fn new(alloc: Global) -> History
        ensures { Remembers result [] }
    {
        History {
            alloc,
            first: BTreeMap::new(alloc),
            doubled: Vec::new(alloc),
        }
    }

    /// Sees what a system's book of the level holds live of its own LSP IDs.
    pub fn note(&mut self, system: SystemId, book: &Book) -> Result<(), OutOfMemory>
        requires { AreBeside book.now.store.entries book.now.rows }
        ensures { OnOk result ((seen : List Sighting) → Remembers self.old seen
            → Remembers self.new
            (after (own_lsps (system_number system) (book_of book.now).cells) seen)) }
    {
        let first = system_to_number(system) * 65536;
        let (start, end) = (
            LspId::from_number(first),
            LspId::from_number(first + LAST_OWN),
        );
        let mut entries = book.store().range(start, end);
        while let Some((id, entry)) = entries.next() {
            match self.note_entry(id, entry) {
                Ok(()) => {}
                Err(fault) => return Err(fault),
            }
        }
        Ok(())
    }

    /// The LSP IDs that are doubled, in order.
    pub fn doubled(&self) -> &[LspId]
        ensures { (seen : List Sighting) → Remembers self.now seen
            → numbers_of result.now ≡ doubled_of seen }
    {
        &self.doubled
    }

    /// Sees an entry, where it is live.
    fn note_entry(&mut self, id: LspId, entry: &Entry) -> Result<(), OutOfMemory>
        ensures { OnOk result ((more : List (AnId × StoreEntry)) (whole : List Sighting)
            → Left self.old (live_of ((id, entry.now) ∷ more)) whole
            → Left self.new (live_of more) whole) }
    {
        match live_number(entry.key) {
            Some(number) => self.see(id, number, entry.flags, tlvs_of(&entry.octets)),
            None => Ok(()),
        }
    }

    /// Sees contents of an LSP ID and number.
    fn see(&mut self, id: LspId, number: u32, flags: u8, tlvs: &[u8]) -> Result<(), OutOfMemory>
        ensures { OnOk result ((seen : List Sighting) → Remembers self.old seen
            → Remembers self.new (record {
              id = lsp_number id;
              number = number;
              contents = record { flags = flags; tlvs = tlvs.now };
            } ∷ seen)) }
    {
        let key = key_of(id, number);
        match self.look(key, flags, tlvs) {
            Look::New => self.keep(key, flags, tlvs),
            Look::Same => Ok(()),
            Look::Other => self.add(id),
        }
    }

    /// How contents compare with the first ones of a key.
    fn look(&self, key: u128, flags: u8, tlvs: &[u8]) -> Look
        ensures { Compares result (find self.now.first key)
            (record { flags = flags; tlvs = tlvs.now }) }
    {
        match self.first.get(&key) {
            Some(said) => {
                if said.is(flags, tlvs) {
                    return Look::Same;
                }
                Look::Other
            }
            None => Look::New,
        }
    }

    /// Keeps the first contents of a key.
    fn keep(&mut self, key: u128, flags: u8, tlvs: &[u8]) -> Result<(), OutOfMemory>
        ensures first { OnOk result ((other : ℕ) → find self.new.first other
            ≡ (if other == key then Some (record { flags = flags; tlvs = tlvs.now })
            else find self.old.first other)) }
        ensures doubled { self.new.doubled ≡ self.old.doubled }
    {
        let said = Said::new(self.alloc, flags, tlvs)?;
        match self.first.insert(key, said) {
            Ok(_) => Ok(()),
            Err(_) => Err(OutOfMemory),
        }
    }

    /// An LSP ID is doubled.
    fn add(&mut self, id: LspId) -> Result<(), OutOfMemory>
        ensures first { self.new.first ≡ self.old.first }
        ensures doubled { OnOk result (self.new.doubled
            ≡ with_id self.old.doubled (lsp_number id)) }
    {
        match place_of(&self.doubled, id) {
            Ok(_) => Ok(()),
            Err(place) => put_at(&mut self.doubled, place, id),
        }
    }
}

/// An LSP ID and a number as one number.
fn key_of(id: LspId, number: u32) -> u128
    ensures { result ≡ key_of (lsp_number id) number }
{
    u128::from(id.to_number()) * 4_294_967_296 + u128::from(number)
}

/// Puts an LSP ID in at its place.
fn put_at(ids: &mut Vec<LspId>, place: usize, id: LspId) -> Result<(), OutOfMemory>
    requires rises { Rises 0 (numbers_of ids.old.items) }
    requires gap { IsGap lsp_number ids.old.items (lsp_number id) place }
    ensures items { OnOk result (numbers_of ids.new.items
        ≡ with_id (numbers_of ids.old.items) (lsp_number id)) }
    ensures rises { Rises 0 (numbers_of ids.new.items) }
{
    match ids.insert(place, id) {
        Ok(()) => Ok(()),
        Err(_) => Err(OutOfMemory),
    }
}
