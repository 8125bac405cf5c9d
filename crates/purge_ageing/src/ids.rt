//! LSP IDs in a sorted list: where one is, and how one is put in. It serves crates above, too.
ghost use Rattle.std.specs.Prelude.{◌≡◌, ◌<◌, length, MatchResult, vec_capacity};
ghost use Rattle.isis_base.specs.Identifiers.{lsp_number};
ghost use Rattle.model_router.specs.LetGos.{with_id};
ghost use Rattle.flag_sync.specs.Walks.{numbers_of};
ghost use Rattle.ordered.specs.Keyed.{IsPlace, IsGap};
ghost use Rattle.purge_ageing.specs.Ids.{Rises};

use isis_base::LspId;

/// Where an LSP ID is, or where it would go.
pub fn place_of(ids: &[LspId], id: LspId) -> Result<usize, usize>
    requires { Rises 0 (numbers_of ids.now) }
    ensures { MatchResult result (IsPlace lsp_number ids.now (lsp_number id))
        (IsGap lsp_number ids.now (lsp_number id)) }
{
    ordered::place_of(ids, id.to_number())
}

/// Puts an LSP ID in at its place.
pub(crate) fn put_at(ids: &mut Vec<LspId>, place: usize, id: LspId)
    requires gap { IsGap lsp_number ids.old.items (lsp_number id) place }
    requires room { length ids.old.items < vec_capacity ids.old }
    ensures items { numbers_of ids.new.items
        ≡ with_id (numbers_of ids.old.items) (lsp_number id) }
    ensures room { vec_capacity ids.new ≡ vec_capacity ids.old }
{
    ids.insert(place, id).unwrap();
}
