//! The database of level 1 that a router has.
ghost use Rattle.std.specs.Prelude.{◌≡◌, false, []};
ghost use Rattle.std.specs.List.{AllByRecursion};
ghost use Rattle.isis_base.specs.Identifiers.{IsId};
ghost use Rattle.lsp_store.specs.Maps.{RisesFrom};
ghost use Rattle.router_routes.specs.Outlooks.{outlook_of};
ghost use Rattle.router_routes.specs.Told.{told_in};
ghost use Rattle.walk_text.specs.Views.{view_of, view_stored};

use isis_base::Level;
use lsp_store::Store;
use router_core::Router;

/// The database of level 1 of a router that doesn't run level 2, lent.
pub(crate) fn level_one(router: &Router) -> &Store
    requires { router.now.config.runs.two ≡ false }
    ensures told { (outlook_of router.now).told.one ≡ told_in result.now.entries }
    ensures view { view_of router.now ≡ view_stored result.now.entries }
    ensures two { (outlook_of router.now).told.two ≡ [] }
    ensures ids { AllByRecursion (λ pair. IsId pair.0) result.now.entries }
    ensures rises { RisesFrom 0 result.now.entries }
{
    // it runs a level, each entry has its row of flags, and what is known of IDs
    router.facts();
    let book = router.database(Level::One);
    let _rows = book.flag_pages();
    let store = book.store();
    let _count = store.len();
    store
}
