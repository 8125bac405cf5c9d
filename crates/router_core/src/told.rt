//! What routes will look at once an event is done.
ghost use Rattle.std.specs.Prelude.{◌≡◌, Bool, List, IfOk, MatchOption};
ghost use Rattle.isis_base.specs.declared.identifiers.LspId as ids;
ghost use Rattle.lsp_store.specs.declared.entry.Entry as entries;
ghost use Rattle.model_router.specs.Routers.{Router};
ghost use Rattle.router_routes.specs.Outlooks.{Outlook, outlook_of, prefixes_by};
ghost use Rattle.router_routes.specs.Following.{IsFollowing};
ghost use Rattle.router_routes.specs.Coming.{IsComing};
ghost use Rattle.router_routes.specs.Moved.{AreMoved, IsInOrder, IsMovedBy};
ghost use Rattle.router_routes.specs.Told.{told_in};
ghost use Rattle.router_core.specs.declared.told.Told.TheVariants as told;
ghost use Rattle.router_core.specs.Plans.{AreInOrder, AreMovedIn, AreTold};
ghost use Rattle.router_core.specs.Puts.{IsWith};
ghost use Rattle.router_core.specs.Shifts.{AreRising, IsMovedOn};

use crate::movers::Movers;
use crate::parts::Parts;
use crate::prefixes::OwnPrefixes;
use isis_base::laws::lsp_id_law;
use isis_base::{Level, LspId, OutOfMemory};
use lsp_store::Entry;
use lsp_view::Lsps;
use router_routes::{Coming, Following, Moved};

/// What an event changes of what routes look at: nothing, what one LSP ID tells in a level, what some nodes of both levels do, or
/// one's own prefixes; or it wasn't asked, since no routes follow the router.
#[derive(Drop)]
pub(crate) enum Told {
    Nothing,
    Entry(Moving),
    Levels {
        one: Option<Movers>,
        two: Option<Movers>,
    },
    Prefixes(OwnPrefixes),
    Unasked,
}

/// An entry that takes the place of what is held of an LSP ID in a level.
#[derive(Drop)]
pub(crate) struct Moving {
    pub(crate) level: Level,
    pub(crate) id: LspId,
    pub(crate) entry: Entry,
}

impl Parts {
    /// What is told once an entry takes the place of what is held of an LSP ID; nothing in a level that isn't run.
    pub(crate) fn told_with(
        &self,
        level: Level,
        id: LspId,
        entry: Entry,
    ) -> Result<Told, OutOfMemory>
        ensures { IfOk result (λ told. (t : Router) → IsWith self.now t level id entry
            → AreTold (outlook_of self.now) (outlook_of t) told) }
    {
        if !self.runs(level) {
            return Ok(Told::Nothing);
        }
        let book = self.level(level).book();
        let _rows = book.flag_pages();
        let store = book.store();
        let _entries = store.len();
        lsp_id_law(id);
        Ok(Told::Entry(Moving { level, id, entry }))
    }

    /// What will follow the router once it tells this; `None` where that is what follows it now.
    pub(crate) fn following_told(
        &self,
        following: &Following,
        told: &Told,
    ) -> Result<Option<Coming>, OutOfMemory>
        requires follows { IsFollowing (outlook_of self.now) following.now }
        requires order { AreInOrder told.now }
        ensures { IfOk result (λ next. (o : Outlook) → AreTold (outlook_of self.now) o told.now
            → MatchOption next (IsFollowing o following.now) (λ c. IsComing o following.now c)) }
    {
        match told {
            Told::Nothing => Ok(None),
            Told::Entry(moving) => {
                let lent = self.lent();
                following.ahead(&lent, moving.level, moving.id, &moving.entry)
            }
            Told::Levels { one, two } => {
                let lent = self.lent();
                following.after(&lent, &told_by(one, two))
            }
            Told::Prefixes(own) => self.following_with(following, own),
            Told::Unasked => Ok(None),
        }
    }

    /// What will follow the router once its own prefixes are these; `None` where that is what follows it now.
    fn following_with(
        &self,
        following: &Following,
        own: &OwnPrefixes,
    ) -> Result<Option<Coming>, OutOfMemory>
        requires { IsFollowing (outlook_of self.now) following.now }
        ensures { IfOk result (λ next. (o : Outlook)
            → o ≡ record (outlook_of self.now) { prefixes = prefixes_by own.now }
            → MatchOption next (IsFollowing o following.now) (λ c. IsComing o following.now c)) }
    {
        let lent = self.lent();
        following.with_prefixes(&lent, own.as_slice())
    }
}

/// What is told where nodes of one level alone tell other things.
pub(crate) fn told_at(level: Level, movers: Movers) -> Told
    ensures { (old new : Outlook) → AreMovedIn old new level movers.nodes.items
        (told_in movers.aside.entries) → AreTold old new result }
{
    match level {
        Level::One => Told::Levels {
            one: Some(movers),
            two: None,
        },
        Level::Two => Told::Levels {
            one: None,
            two: Some(movers),
        },
    }
}

/// What nodes of both levels will tell, in the routes' words.
fn told_by<'a>(one: &'a Option<Movers>, two: &'a Option<Movers>) -> router_routes::Told<'a>
    ensures moved { (old new : Outlook) → AreTold old new (told.Levels one.now two.now)
        → AreMoved old new result }
    ensures one { AreRising one.now → IsInOrder result.one }
    ensures two { AreRising two.now → IsInOrder result.two }
{
    router_routes::Told {
        one: moved_by(one),
        two: moved_by(two),
        prefixes: None,
    }
}

/// The same of a level.
fn moved_by(movers: &Option<Movers>) -> Option<Moved<'_>>
    ensures moved { (runs : Bool) (old new : List (ids.LspId × entries.Entry))
        → IsMovedOn movers.now runs old new → IsMovedBy result runs old new }
    ensures order { AreRising movers.now → IsInOrder result }
{
    match movers {
        None => None,
        Some(movers) => Some(Moved {
            nodes: movers.nodes.as_slice(),
            aside: Lsps::of(&movers.aside),
        }),
    }
}
