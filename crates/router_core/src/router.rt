//! A router.
ghost use Rattle.std.specs.Prelude.{◌≡◌, ◌≤◌, ◌-◌, true, length, OnOk, OnErr, IfOk, IfErr, IfSome, MatchOption, false, is_some};
ghost use Rattle.std.specs.Option.{option_map};
ghost use Rattle.isis_base.specs.declared.level.Level as level;
ghost use Rattle.model_router.specs.Both.{at};
ghost use Rattle.model_router.specs.Places.{nth};
ghost use Rattle.model_router.specs.Drops.{drops_of};
ghost use Rattle.model_router.specs.Numbers.{system_number};
ghost use Rattle.router_core.specs.Designated.{designated_system};
ghost use Rattle.router_core.specs.NamedBoots.{named_boot};
ghost use Rattle.model_router.specs.AdjacencyLaws.{opens, place_of};
ghost use Rattle.model_router.specs.Steps.{step};
ghost use Rattle.model_router.specs.Starts.{start};
ghost use Rattle.flag_sync.specs.BookStates.{book_of as book_in};
ghost use Rattle.model_router.specs.Routers.{book_of, level_of};
ghost use Rattle.model_router.specs.Maps.{find};
ghost use Rattle.isis_base.specs.Prefixes.{prefix_number};
ghost use Rattle.router_desk.specs.Configs.{config_of, circuits_of};
ghost use Rattle.router_desk.specs.Desks.{desk_of};
ghost use Rattle.router_desk.specs.Limits.{IsValid};
ghost use Rattle.router_routes.specs.Outlooks.{Outlook, outlook_of};
ghost use Rattle.router_routes.specs.Candidates.{attached_of, AreRoutesOf};
ghost use Rattle.router_routes.specs.Following.{IsFollowing, IsLevel};
ghost use Rattle.router_routes.specs.Coming.{FitsIn, IsComing};
ghost use Rattle.router_core.specs.Givens.{given};
ghost use Rattle.router_core.specs.Events.{event_of, Fits, IsThere};
ghost use Rattle.router_core.specs.Plans.{AreInOrder, AreTold, committed, IsReady, IsSound};
ghost use Rattle.router_core.specs.Keeping.{AreCounted, IsPutIn};
ghost use Rattle.router_core.specs.Replies.{Answers};
ghost use Rattle.router_core.specs.Reached.{IsReached, IsWhole};

use crate::event::NodeEvent;
use crate::keeping::{Asked, Keeping, Kept};
use crate::marks::Marks;
use crate::parts::Parts;
use crate::plan::{Deed, Plan};
use crate::reached::{event_octets, reached_laws, start_reached};
use crate::reply::Reply;
use crate::told::Told;
use flag_sync::Book;
use isis_base::{Level, OutOfMemory, Prefix, SystemId};
use purge_ageing::LetGo;
use route_table::Routes;
use router_desk::{Config, Desk, DropName};
use router_routes::Coming;
use spf_repair::Repaired;
use std::alloc::Global;
use std::marker::Model;

/// One router. Contracts see it as the machine of model_router, in a state that is reached: what always
/// holds of such states, `facts` tells. Levels are marked whose own LSPs say what is wanted. Its routes follow its databases at
/// each event; those of a `Machine` are computed when asked for.
#[derive(Drop)]
pub struct Router<K: Keeping = Kept> {
    parts: Parts,
    kept: K,
    marks: Marks,
}

/// A router that keeps no routes.
pub type Machine = Router<Asked>;

impl<K: Keeping> Model for Router<K> {
    ghost use Rattle.model_router.specs.Routers as model;
    ghost use Rattle.router_core.specs.Reached.{IsWhole};

    ghost Value = { model.Router };

    ghost view = { λ r. r.parts };

    ghost invariant = { λ r. IsWhole r.parts (K.kept r.kept) r.marks };
}

impl<K: Keeping> Router<K> {
    /// The router of a configuration at its start, in a boot of three octets that isn't 0. At
    /// `OutOfMemory` the configuration comes back.
    pub fn new(alloc: Global, config: Config, boot: u32) -> Result<Router<K>, (Config, OutOfMemory)>
        requires valid { IsValid config }
        requires boot { (1 ≤ boot) × (boot ≤ 16777215) }
        ensures start { IfOk result (λ router. router
            ≡ start (config_of config) boot (circuits_of config)) }
        ensures reached { IfOk result (λ router. IsReached router) }
        ensures back { IfErr result (λ back. back.0 ≡ config) }
    {
        start_reached(&config, boot);
        let parts = match Parts::new(alloc, &config, boot) {
            Ok(parts) => parts,
            Err(error) => return Err((config, error)),
        };
        match begun(parts) {
            Ok(router) => {
                drop(config);
                Ok(router)
            }
            Err(error) => Err((config, error)),
        }
    }

    /// What always holds of a router. It does nothing.
    pub fn facts(&self)
        ensures { IsReached self.now }
    {
        let _ = &self.parts;
    }

    /// The opening state of another boot, which isn't 0, of the configuration as changed so far.
    pub fn restarted(&self, boot: u32) -> Result<Router<K>, OutOfMemory>
        requires boot { (1 ≤ boot) × (boot ≤ 16777215) }
        ensures start { IfOk result (λ router. router
            ≡ start self.now.config boot self.now.circuits) }
        ensures reached { IfOk result (λ router. IsReached router) }
    {
        reached_laws();
        let parts = self.parts.restarted(boot)?;
        begun(parts)
    }

    /// An event: the state and the answer are the machine's. At `OutOfMemory` the router is as it
    /// was.
    pub fn step(&mut self, event: NodeEvent) -> Result<Reply, OutOfMemory>
        requires { Fits self.old event }
        ensures state { OnOk result (self.new
            ≡ (step given self.old (event_of self.old event)).router) }
        ensures reply { IfOk result (λ reply. Answers self.new
            (place_of (event_of self.old event))
            (step given self.old (event_of self.old event)).reply reply) }
        ensures reached { OnOk result (IsReached self.new) }
        ensures err { OnErr result (self.new ≡ self.old) }
    {
        reached_laws();
        event_octets(&event);
        let read = self.parts.read(&event)?;
        let plan = self.parts.plan(&read, self.kept.following(), self.marks)?;
        done(&mut self.parts, &mut self.kept, &mut self.marks, plan)
    }

    /// The routes of the router as it is, computed now: for each prefix the best way over the live LSPs of its databases (RFC
    /// 5302 3.2).
    pub fn best_routes(&self) -> Result<Routes, OutOfMemory>
        ensures { IfOk result (AreRoutesOf (outlook_of self.now)) }
    {
        self.parts.lent().routes(self.parts.alloc)
    }

    /// All of it but its routes.
    pub fn parts(&self) -> &Parts
        ensures { result.now ≡ self.now }
    {
        &self.parts
    }

    /// What never changes of its configuration.
    pub fn desk(&self) -> &Desk
        ensures { result.now ≡ desk_of self.now.config self.now.circuits }
    {
        self.parts.desk()
    }

    /// A level's database; `None` exactly where the level isn't run.
    pub fn book(&self, level: Level) -> Option<&Book>
        ensures { MatchOption result (at self.now.config.runs level ≡ false)
            (λ book. (at self.now.config.runs level ≡ true)
            × (book_in book.now ≡ (level_of self.now level).book)) }
    {
        if self.parts.runs(level) {
            return Some(self.parts.book(level));
        }
        None
    }

    /// A level's database, whether the level is run or not.
    pub fn database(&self, level: Level) -> &Book
        ensures { book_in result.now ≡ book_of self.now level }
    {
        self.parts.book(level)
    }

    /// The LSP IDs of a level that were let go since the start.
    pub fn let_go(&self, level: Level) -> &LetGo
        ensures { result.now ≡ (level_of self.now level).gone }
    {
        self.parts.level(level).gone()
    }

    /// Whether a circuit, counted from 1, has an up adjacency of a level.
    pub fn up(&self, circuit: u8, level: Level) -> bool
        requires { IsThere self.now circuit }
        ensures { result ≡ opens (nth self.now.circuits (circuit - 1)) level }
    {
        self.parts.up(circuit, level)
    }

    /// The boot number that the neighbour of a point-to-point circuit, counted from 1, tells: its extended circuit ID
    /// divided by 256 (RFC 5303 3.1; the parts: own). `None` exactly on a LAN, and where the adjacency isn't Up.
    pub fn names_boot(&self, circuit: u8) -> Option<u32>
        requires { IsThere self.now circuit }
        ensures { IfSome (nth self.now.circuits (circuit - 1)) (λ c. result ≡ named_boot c) }
    {
        self.parts.names_boot(circuit)
    }

    /// The designated system of a LAN and level (ISO 10589 8.4.5), of the circuit counted from 1;
    /// `None` exactly where the circuit is no LAN with an up neighbour of that level.
    pub fn designated(&self, circuit: u8, level: Level) -> Option<SystemId>
        requires { IsThere self.now circuit }
        ensures { IfSome (nth self.now.circuits (circuit - 1)) (λ c. option_map system_number result
            ≡ designated_system self.now.config (circuit - 1) c level) }
    {
        self.parts.designated(circuit, level)
    }

    /// How many changes of keys a level's database has had since the start: entries that came and went, and other keys; the
    /// count stands still at its type's end.
    pub fn changes(&self, level: Level) -> u64
        ensures { result ≡ (book_of self.now level).changes }
    {
        self.parts.changes(level)
    }

    /// How often a cause of a drop was met.
    pub fn drops(&self, cause: DropName) -> u64
        ensures { result ≡ drops_of self.now.drops cause }
    {
        self.parts.drops(cause)
    }

    /// The boot.
    pub fn boot(&self) -> u32
        ensures { result ≡ self.now.boot }
    {
        self.parts.boot()
    }

    /// Whether a prefix is one of its own.
    pub fn has_prefix(&self, prefix: Prefix) -> bool
        ensures { result ≡ is_some (find self.now.config.prefixes (prefix_number prefix)) }
    {
        self.parts.has_prefix(prefix)
    }

    /// The number of its own prefixes.
    pub fn prefix_count(&self) -> usize
        ensures { result ≡ length self.now.config.prefixes }
    {
        self.parts.prefix_count()
    }
}

impl Router {
    /// The routes of the router as it is: for each prefix the best way over the live LSPs of its
    /// databases (RFC 5302 3.2).
    pub fn routes(&self) -> &Routes
        ensures { AreRoutesOf (outlook_of self.now) result.now }
    {
        self.kept.following.routes()
    }

    /// A level's least costs from the router's own node, over the rows of live LSPs that may be walked
    /// (ISO 10589 7.2.8, C.2); `None` exactly where the level isn't run.
    pub fn repaired(&self, level: Level) -> Option<&Repaired>
        ensures { MatchOption result (at self.now.config.runs level ≡ false)
            (λ repaired. (at self.now.config.runs level ≡ true)
            × IsLevel (outlook_of self.now) level repaired.now) }
    {
        if !self.parts.runs(level) {
            return None;
        }
        Some(self.kept.following.repaired(level))
    }

    /// Whether the router is attached to another area (ISO 10589 7.2.9.2).
    pub fn attached(&self) -> bool
        ensures { result ≡ attached_of (outlook_of self.now) }
    {
        self.kept.following.attached()
    }
}

impl Router<Asked> {
    /// The same router, which keeps its routes from now on.
    pub fn with_routes(self) -> Result<Router, OutOfMemory>
        ensures { IfOk result (λ router. router ≡ self) }
    {
        let Router { parts, kept, marks } = self;
        drop(kept);
        match followed(&parts) {
            Ok(kept) => Ok(Router { parts, kept, marks }),
            Err(error) => {
                drop(parts);
                Err(error)
            }
        }
    }
}

/// What was planned is done, and the answer is the plan's. At `OutOfMemory` the router is as it was. A level's count of repairs
/// rises by one exactly where some row that may be walked is there another number of times than before.
fn done<K: Keeping>(
    parts: &mut Parts,
    kept: &mut K,
    marks: &mut Marks,
    plan: Plan<'_>,
) -> Result<Reply, OutOfMemory>
    requires sound { IsSound (is_some (K.kept kept.old)) parts.old plan }
    requires whole { IsWhole parts.old (K.kept kept.old) marks.old }
    ensures state { OnOk result (parts.new ≡ committed parts.old plan.entry.deed) }
    ensures reply { IfOk result (λ reply. reply ≡ plan.entry.reply) }
    ensures whole { IsWhole parts.new (K.kept kept.new) marks.new }
    ensures counted { OnOk result (AreCounted (K.kept kept.old) (K.kept kept.new)) }
    ensures err { OnErr result (parts.new ≡ parts.old) }
{
    let Plan {
        deed,
        reply,
        told,
        marks: after,
    } = plan;
    match advance(parts, kept, deed, told) {
        Ok(()) => {
            *marks = after;
            Ok(reply)
        }
        Err(error) => {
            drop(reply);
            Err(error)
        }
    }
}

/// A deed is done that tells routes this, and what then follows the router, where anything does, stands in its place.
fn advance<K: Keeping>(
    parts: &mut Parts,
    kept: &mut K,
    deed: Deed<'_>,
    told: Told,
) -> Result<(), OutOfMemory>
    requires ready { IsReady parts.old deed }
    requires told { is_some (K.kept kept.old) ≡ true
        → AreTold (outlook_of parts.old) (outlook_of (committed parts.old deed)) told }
    requires follows { IfSome (K.kept kept.old) (IsFollowing (outlook_of parts.old)) }
    ensures state { OnOk result (parts.new ≡ committed parts.old deed.entry) }
    ensures follows { OnOk result (IfSome (K.kept kept.new) (IsFollowing (outlook_of parts.new))) }
    ensures counted { OnOk result (AreCounted (K.kept kept.old) (K.kept kept.new)) }
    ensures err { OnErr result (parts.new ≡ parts.old) }
    ensures kept { OnErr result (K.kept kept.new ≡ K.kept kept.old) }
{
    let next = match next_told(parts, kept, &told) {
        Ok(next) => next,
        Err(error) => {
            drop(told);
            drop(deed);
            return Err(error);
        }
    };
    drop(told);
    match parts.commit(deed) {
        Ok(()) => {}
        Err(error) => {
            drop(next);
            return Err(error);
        }
    }
    put_next(kept, next);
    Ok(())
}

/// What follows the router once it tells this, where anything does; `None` where that is what follows it now.
fn next_told<K: Keeping>(
    parts: &Parts,
    kept: &K,
    told: &Told,
) -> Result<Option<Coming>, OutOfMemory>
    requires follows { IfSome (K.kept kept.now) (IsFollowing (outlook_of parts.now)) }
    requires order { is_some (K.kept kept.now) ≡ true → AreInOrder told.now }
    ensures { IfOk result (λ next. (new : Outlook)
        → (is_some (K.kept kept.now) ≡ true → AreTold (outlook_of parts.now) new told.now)
        → IfSome (K.kept kept.now) (λ f. MatchOption next (IsFollowing new f) (λ c. IsComing new f c))) }
{
    match kept.following() {
        Some(following) => parts.following_told(following, told),
        None => Ok(None),
    }
}

/// What comes stands in the place of what follows the router, where anything comes.
fn put_next<K: Keeping>(kept: &mut K, next: Option<Coming>)
    requires { IfSome next (λ c. IfSome (K.kept kept.old) (λ f. FitsIn f c)) }
    ensures { MatchOption next (K.kept kept.new ≡ K.kept kept.old)
        (λ c. IsPutIn (K.kept kept.old) c (K.kept kept.new)) }
{
    match next {
        Some(next) => kept.put(next),
        None => {}
    }
}

/// The router of these parts at its start.
fn begun<K: Keeping>(parts: Parts) -> Result<Router<K>, OutOfMemory>
    requires { IsReached parts }
    ensures { IfOk result (λ router. router ≡ parts) }
{
    match followed(&parts) {
        Ok(kept) => Ok(Router {
            parts,
            kept,
            marks: Marks::none(),
        }),
        Err(error) => {
            drop(parts);
            Err(error)
        }
    }
}

/// What follows a router from the start on, where anything does.
fn followed<K: Keeping>(parts: &Parts) -> Result<K, OutOfMemory>
    ensures { IfOk result (λ k. IfSome (K.kept k) (IsFollowing (outlook_of parts.now))) }
{
    K::begun(parts.alloc, &parts.lent())
}
