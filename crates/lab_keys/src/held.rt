//! The keys that a router holds, by LSP ID.
ghost use Rattle.std.specs.Prelude.{◌≡◌, ◌<◌, MatchResult, OnOk, vec_len, vec_capacity};
ghost use Rattle.isis_base.specs.Identifiers.{lsp_number};
ghost use Rattle.lab_keys.specs.Held.{entry_number, IsRising, IsGap, IsPlaceOf, Joins};

use isis_base::{Key, LspId, Order3, newer};
use std::alloc::AllocError;

/// Makes room for one more entry.
pub fn make_room(held: &mut Vec<(LspId, Key)>) -> Result<(), AllocError>
    ensures same { held.new.items ≡ held.old.items }
    ensures room { OnOk result (vec_len held.new < vec_capacity held.new) }
{
    held.reserve(1)
}

/// Where the LSP ID's entry is, or where it would go.
fn place_of(held: &[(LspId, Key)], id: LspId) -> Result<usize, usize>
    requires { IsRising entry_number held.now }
    ensures { MatchResult result (IsPlaceOf held.now (lsp_number id))
        (IsGap entry_number held.now (lsp_number id)) }
{
    held.binary_search_by_key(&id.to_number(), |entry| entry.0.to_number())
}

/// Puts the key where the LSP ID has none, or an older one. The entries are by LSP ID and stay so.
pub fn join_in(held: &mut Vec<(LspId, Key)>, id: LspId, key: Key)
    requires rising { IsRising entry_number held.old.items }
    requires room { vec_len held.old < vec_capacity held.old }
    ensures { Joins held.old.items held.new.items (id, key) }
{
    match place_of(held, id) {
        Ok(place) => {
            let entry = held[place];
            match newer(Some(entry.1), Some(key)) {
                Order3::Older => held[place] = (id, key),
                Order3::Same => {}
                Order3::Newer => {}
            }
        }
        Err(place) => held.insert(place, (id, key)).unwrap(),
    }
}
