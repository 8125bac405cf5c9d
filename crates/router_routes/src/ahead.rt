//! What will follow a router once nodes tell other LSPs, or its own prefixes are others (own).
ghost use Rattle.std.specs.Prelude.{◌≡◌, ◌∷◌, [], true, None, IfOk, IfSome, MatchOption};
ghost use Rattle.isis_base.specs.declared.identifiers.NodeId.{NodeId};
ghost use Rattle.isis_base.specs.declared.level.Level.TheVariants as level;
ghost use Rattle.model_router.specs.Both.{at};
ghost use Rattle.lsp_view.specs.Lsps.{entries_in};
ghost use Rattle.router_routes.specs.Told.{told_in};
ghost use Rattle.router_routes.specs.Outlooks.{Outlook, outlook_in};
ghost use Rattle.router_routes.specs.Following.{AreHopsOf, FollowingOf, IsFollowing, IsLevel};
ghost use Rattle.router_routes.specs.Coming.{AreLevels, AreLevelsBeside, AreLevelsOf, AreOfOneRoot, AreReachedAfter, AreRoutesAfter, FitsIn, IsComing};
ghost use Rattle.router_routes.specs.Kept.{AreBeside};
ghost use Rattle.router_routes.specs.Touched.{IsReachedAfter};
ghost use Rattle.router_routes.specs.Moved.{AreFit, AreMoved, AreRowsMoved, AreViewed, IsInOrder, IsMovedAt, IsPutAt, NodesRise, nodes_of, or_old, outlook_at};

use crate::coming::{Coming, LevelsAfter, ReachedAfter, all_stays, level_of};
use crate::following::Following;
use crate::kept::{moved, told_nodes};
use crate::lent::Lent;
use crate::moving::level_after;
use crate::told::{Moved, Told};
use crate::view::{View, as_told, nodes_law};
use isis_base::laws::lsp_id_law;
use isis_base::{Level, LspId, NodeId, OutOfMemory, Prefix};
use lsp_store::{Entry, Store};
use lsp_view::Lsps;
use model_router::has_level;
use route_table::Patches;
use spf_repair::Repaired;

impl Following {
    /// What will follow the router once this is told: in each level these nodes tell what is aside, all others what they
    /// tell now, and own prefixes are these. `None` where nothing of it changes.
    pub fn after(&self, lent: &Lent<'_>, told: &Told<'_>) -> Result<Option<Coming>, OutOfMemory>
        requires follows { IsFollowing (outlook_in lent.now) self.now }
        requires one { IsInOrder told.now.one }
        requires two { IsInOrder told.now.two }
        ensures fits { IfOk result (λ next. IfSome next (λ c. FitsIn self.now c)) }
        ensures moves { IfOk result (λ next. (o : Outlook) → AreMoved (outlook_in lent.now) o told.now
            → MatchOption next (IsFollowing o self.now) (λ c. IsComing o self.now c)) }
    {
        let view = as_told(lent, told);
        let one = level_after(
            self.alloc,
            has_level(lent.levels, Level::One),
            &self.one,
            &view.one,
        )?;
        match level_after(
            self.alloc,
            has_level(lent.levels, Level::Two),
            &self.two,
            &view.two,
        ) {
            Ok(two) => self.with_levels(lent, told, &view, one, two),
            Err(error) => {
                drop(one);
                Err(error)
            }
        }
    }

    /// The same once an entry takes the place of what is held of an LSP ID in one level. It reads the LSPs of its node and of the
    /// node's neighbours, and copies none.
    pub fn ahead(
        &self,
        lent: &Lent<'_>,
        level: Level,
        id: LspId,
        entry: &Entry,
    ) -> Result<Option<Coming>, OutOfMemory>
        requires follows { IsFollowing (outlook_in lent.now) self.now }
        ensures fits { IfOk result (λ next. IfSome next (λ c. FitsIn self.now c)) }
        ensures moves { IfOk result (λ next. (o : Outlook)
            → IsPutAt (outlook_in lent.now) o level id entry.now
            → MatchOption next (IsFollowing o self.now) (λ c. IsComing o self.now c)) }
    {
        lsp_id_law(id);
        let nodes = [id.node];
        let store = store_in(lent, level);
        let _entries = store.len();
        let told = told_by(level, &nodes, Lsps::node_with(store, id, entry));
        self.after(lent, &told)
    }

    /// The same once its own prefixes are these.
    pub fn with_prefixes(
        &self,
        lent: &Lent<'_>,
        prefixes: &[(Prefix, u32)],
    ) -> Result<Option<Coming>, OutOfMemory>
        requires follows { IsFollowing (outlook_in lent.now) self.now }
        ensures fits { IfOk result (λ next. IfSome next (λ c. FitsIn self.now c)) }
        ensures moves { IfOk result (λ next. (o : Outlook)
            → o ≡ record (outlook_in lent.now) { prefixes = prefixes.now }
            → MatchOption next (IsFollowing o self.now) (λ c. IsComing o self.now c)) }
    {
        let told = Told {
            one: None,
            two: None,
            prefixes: Some(prefixes),
        };
        self.after(lent, &told)
    }

    /// What comes of what is seen, at these levels' costs, each where it has new ones; `None` where nothing of it changes.
    fn with_levels(
        &self,
        lent: &Lent<'_>,
        told: &Told<'_>,
        view: &View<'_>,
        one: Option<Repaired>,
        two: Option<Repaired>,
    ) -> Result<Option<Coming>, OutOfMemory>
        requires follows { IsFollowing (outlook_in lent.now) self.now }
        requires viewed { AreViewed lent.now told.now view.now }
        requires fit { AreFit view.now }
        requires beside { AreBeside (nodes_of told.now) (outlook_in lent.now) (outlook_at view.now) }
        requires one { IsLevel (outlook_at view.now) level.One (or_old one self.now.levels.one) }
        requires two { IsLevel (outlook_at view.now) level.Two (or_old two self.now.levels.two) }
        requires rows_one { AreRowsMoved self.now.levels.one one }
        requires rows_two { AreRowsMoved self.now.levels.two two }
        ensures { IfOk result (λ next. MatchOption next
            (IsFollowing (outlook_at view.now) self.now)
            (λ c. IsComing (outlook_at view.now) self.now c)) }
    {
        if none_of(&one, &two, told) {
            return self.with_nodes(lent, told, view);
        }
        match self.levels_of(one, two) {
            Ok(levels) => self.with_hops(lent, told, view, levels),
            Err(error) => Err(error),
        }
    }

    /// Both levels with next hops that follow of their costs, where these are new.
    fn levels_of(
        &self,
        one: Option<Repaired>,
        two: Option<Repaired>,
    ) -> Result<LevelsAfter, OutOfMemory>
        requires one { AreOfOneRoot self.now.levels.one (or_old one self.now.levels.one) }
        requires two { AreOfOneRoot self.now.levels.two (or_old two self.now.levels.two) }
        requires rows_one { AreRowsMoved self.now.levels.one one }
        requires rows_two { AreRowsMoved self.now.levels.two two }
        requires hops_one { AreHopsOf self.now.levels.one self.now.hops.one }
        requires hops_two { AreHopsOf self.now.levels.two self.now.hops.two }
        ensures { IfOk result (λ levels. AreLevelsOf self.now one two levels) }
    {
        let one = match level_of(self.alloc, one, &self.one, &self.hops_one) {
            Ok(one) => one,
            Err(error) => {
                drop(two);
                return Err(error);
            }
        };
        match level_of(self.alloc, two, &self.two, &self.hops_two) {
            Ok(two) => Ok(LevelsAfter { one, two }),
            Err(error) => {
                drop(one);
                Err(error)
            }
        }
    }

    /// What comes of what is seen, by these levels.
    fn with_hops(
        &self,
        lent: &Lent<'_>,
        told: &Told<'_>,
        view: &View<'_>,
        levels: LevelsAfter,
    ) -> Result<Option<Coming>, OutOfMemory>
        requires follows { IsFollowing (outlook_in lent.now) self.now }
        requires viewed { AreViewed lent.now told.now view.now }
        requires fit { AreFit view.now }
        requires beside { AreBeside (nodes_of told.now) (outlook_in lent.now) (outlook_at view.now) }
        requires levels { AreLevels (outlook_at view.now) self.now levels }
        ensures { IfOk result (λ next. MatchOption next
            (IsFollowing (outlook_at view.now) self.now)
            (λ c. IsComing (outlook_at view.now) self.now c)) }
    {
        let nodes = moved(self.alloc, told, &levels);
        match nodes {
            Ok(nodes) => self.with_moved(lent, told, view, nodes.as_slice(), levels),
            Err(error) => {
                drop(levels);
                Err(error)
            }
        }
    }

    /// The same, where these nodes moved.
    fn with_moved(
        &self,
        lent: &Lent<'_>,
        told: &Told<'_>,
        view: &View<'_>,
        nodes: &[NodeId],
        levels: LevelsAfter,
    ) -> Result<Option<Coming>, OutOfMemory>
        requires follows { IsFollowing (outlook_in lent.now) self.now }
        requires viewed { AreViewed lent.now told.now view.now }
        requires fit { AreFit view.now }
        requires levels { AreLevelsBeside nodes.now (outlook_in lent.now) (outlook_at view.now)
            self.now levels }
        ensures { IfOk result (λ next. MatchOption next
            (IsFollowing (outlook_at view.now) self.now)
            (λ c. IsComing (outlook_at view.now) self.now c)) }
    {
        let reached = self.reached_by(lent, view, nodes, &levels);
        match reached {
            Ok(reached) => match self.with_reached(lent, told, view, nodes, levels, reached) {
                Ok(coming) => Ok(Some(coming)),
                Err(error) => Err(error),
            },
            Err(error) => {
                drop(levels);
                Err(error)
            }
        }
    }

    /// What comes of what is reached, where these nodes moved.
    fn with_reached(
        &self,
        lent: &Lent<'_>,
        told: &Told<'_>,
        view: &View<'_>,
        nodes: &[NodeId],
        levels: LevelsAfter,
        reached: ReachedAfter,
    ) -> Result<Coming, OutOfMemory>
        requires follows { IsFollowing (outlook_in lent.now) self.now }
        requires viewed { AreViewed lent.now told.now view.now }
        requires fit { AreFit view.now }
        requires levels { AreLevelsBeside nodes.now (outlook_in lent.now) (outlook_at view.now)
            self.now levels }
        requires reached { IsReachedAfter nodes.now (outlook_in lent.now) (outlook_at view.now) self.now reached }
        ensures { IfOk result (λ c. IsComing (outlook_at view.now) self.now c) }
    {
        self.still_law(lent, view, nodes, &levels);
        let routes = self.routes_after(lent, told, view, nodes, &levels, &reached);
        match routes {
            Ok(routes) => Ok(coming_of(levels, reached, routes)),
            Err(error) => {
                drop(levels);
                drop(reached);
                Err(error)
            }
        }
    }

    /// What comes of what is seen, where costs and own prefixes stay; `None` where nothing of it changes.
    fn with_nodes(
        &self,
        lent: &Lent<'_>,
        told: &Told<'_>,
        view: &View<'_>,
    ) -> Result<Option<Coming>, OutOfMemory>
        requires follows { IsFollowing (outlook_in lent.now) self.now }
        requires viewed { AreViewed lent.now told.now view.now }
        requires prefixes { told.now.prefixes ≡ None }
        requires fit { AreFit view.now }
        requires beside { AreBeside (nodes_of told.now) (outlook_in lent.now) (outlook_at view.now) }
        requires one { IsLevel (outlook_at view.now) level.One self.now.levels.one }
        requires two { IsLevel (outlook_at view.now) level.Two self.now.levels.two }
        ensures { IfOk result (λ next. MatchOption next
            (IsFollowing (outlook_at view.now) self.now)
            (λ c. IsComing (outlook_at view.now) self.now c)) }
    {
        match (told.one, told.two) {
            (Some(one), None) => self.next(lent, told, view, one.nodes),
            (None, Some(two)) => self.next(lent, told, view, two.nodes),
            _ => {
                let nodes = told_nodes(self.alloc, told)?;
                self.next(lent, told, view, nodes.as_slice())
            }
        }
    }

    /// The same, where these are the nodes that tell other things.
    fn next(
        &self,
        lent: &Lent<'_>,
        told: &Told<'_>,
        view: &View<'_>,
        nodes: &[NodeId],
    ) -> Result<Option<Coming>, OutOfMemory>
        requires follows { IsFollowing (outlook_in lent.now) self.now }
        requires viewed { AreViewed lent.now told.now view.now }
        requires prefixes { told.now.prefixes ≡ None }
        requires fit { AreFit view.now }
        requires beside { AreBeside nodes.now (outlook_in lent.now) (outlook_at view.now) }
        requires one { IsLevel (outlook_at view.now) level.One self.now.levels.one }
        requires two { IsLevel (outlook_at view.now) level.Two self.now.levels.two }
        ensures { IfOk result (λ next. MatchOption next
            (IsFollowing (outlook_at view.now) self.now)
            (λ c. IsComing (outlook_at view.now) self.now c)) }
    {
        nodes_law(nodes);
        let reached = match self.reached_with(lent, view, nodes, &self.one, &self.two) {
            Ok(reached) => reached,
            Err(error) => return Err(error),
        };
        if all_stays(&reached, self.attached) {
            return Ok(None);
        }
        let levels = LevelsAfter {
            one: None,
            two: None,
        };
        match self.with_reached(lent, told, view, nodes, levels, reached) {
            Ok(coming) => Ok(Some(coming)),
            Err(error) => Err(error),
        }
    }
}

/// What comes by these parts.
fn coming_of(levels: LevelsAfter, reached: ReachedAfter, routes: Patches) -> Coming
    ensures { (o : Outlook) (f : FollowingOf) → AreLevels o f levels
        → AreReachedAfter o f reached → AreRoutesAfter o f.routes routes → IsComing o f result }
{
    let LevelsAfter { one, two } = levels;
    let ReachedAfter {
        told,
        attached,
        prefixes: _,
    } = reached;
    Coming {
        one,
        two,
        routes,
        attached,
        told,
    }
}

/// The database of a level.
fn store_in<'a>(lent: &Lent<'a>, level: Level) -> &'a Store
    ensures { at (outlook_in lent.now).runs level ≡ true
        → at (outlook_in lent.now).told level ≡ told_in result.now.entries }
{
    match level {
        Level::One => lent.one,
        Level::Two => lent.two,
    }
}

/// That one node tells in one level what is aside.
fn told_by<'a>(level: Level, nodes: &'a [NodeId], aside: Lsps<'a>) -> Told<'a>
    ensures moved { (old new : Outlook) (node : NodeId) → nodes.now ≡ node ∷ []
        → IsMovedAt old new level node (told_in (entries_in aside.entry)) → AreMoved old new result }
    ensures one { NodesRise 0 nodes.now → IsInOrder result.one }
    ensures two { NodesRise 0 nodes.now → IsInOrder result.two }
{
    let moved = Some(Moved { nodes, aside });
    match level {
        Level::One => Told {
            one: moved,
            two: None,
            prefixes: None,
        },
        Level::Two => Told {
            one: None,
            two: moved,
            prefixes: None,
        },
    }
}

/// Whether both levels' costs stay, and own prefixes too.
fn none_of(one: &Option<Repaired>, two: &Option<Repaired>, told: &Told<'_>) -> bool
    ensures one { result ≡ true → one.now ≡ None }
    ensures two { result ≡ true → two.now ≡ None }
    ensures prefixes { result ≡ true → told.now.prefixes ≡ None }
{
    match one {
        Some(_) => false,
        None => match two {
            Some(_) => false,
            None => match told.prefixes {
                Some(_) => false,
                None => true,
            },
        },
    }
}
