//! Whether routers have one live view.
ghost use Rattle.std.specs.Prelude.{◌≡◌, false, MatchBool};
ghost use Rattle.isis_base.specs.Keys.{rank};
ghost use Rattle.model_router.specs.Ranks.{number_of};
ghost use Rattle.walk_text.specs.Views.{view_of, stored, view_stored};

use crate::level_one::level_one;
use crate::test::Test;
use isis_base::fields::behind_header;
use isis_base::{Key, LspId, OutOfMemory};
use lsp_store::{Entry, Store};
use router_core::Router;

/// That a router has the live view of level 1 that another one has.
#[derive(Drop)]
pub(crate) struct SameView<'a> {
    pub(crate) first: &'a Router,
}

impl<'a> Test for SameView<'a> {
    ghost needs = { λ test r. (test.first.now.config.runs.two ≡ false)
        × (r.config.runs.two ≡ false) };

    ghost has = { λ test look. view_of look.router ≡ view_of test.first.now };

    fn passes(&self, router: &Router) -> Result<bool, OutOfMemory> {
        Ok(has_lsps(level_one(router), level_one(self.first)))
    }
}

/// Whether two databases hold the same live LSPs.
fn has_lsps(store: &Store, first: &Store) -> bool
    ensures { MatchBool result (view_stored store.now.entries ≡ view_stored first.now.entries)
        (view_stored store.now.entries ≡ view_stored first.now.entries → ⊥) }
{
    let mut others = first.live();
    for (id, entry) in store.live() {
        match others.next() {
            Some((other_id, other)) => {
                if !is_same(id, entry, other_id, other) {
                    return false;
                }
            }
            None => return false,
        }
    }
    others.next().is_none()
}

/// Whether two LSPs are alike: the ID, the sequence number, the flags octet and the TLVs.
fn is_same(id: LspId, entry: &Entry, other_id: LspId, other: &Entry) -> bool
    ensures { MatchBool result (stored (id, entry.now) ≡ stored (other_id, other.now))
        (stored (id, entry.now) ≡ stored (other_id, other.now) → ⊥) }
{
    id.to_number() == other_id.to_number()
        && number_of(entry.key) == number_of(other.key)
        && entry.flags == other.flags
        && behind_header(entry.octets.as_slice()) == behind_header(other.octets.as_slice())
}

/// The sequence number of a key; 0 where there is none.
fn number_of(key: Option<Key>) -> u32
    ensures { result ≡ number_of (rank key) }
{
    match key {
        Some(key) => key.number,
        None => 0,
    }
}
