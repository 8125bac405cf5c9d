//! What is asked of a router.
ghost use Rattle.std.specs.Prelude.{◌≡◌, ◌-◌, length, is_some, IfSome};
ghost use Rattle.std.specs.Option.{option_map};
ghost use Rattle.model_router.specs.AdjacencyLaws.{opens};
ghost use Rattle.model_router.specs.Drops.{drops_of};
ghost use Rattle.model_router.specs.Maps.{find};
ghost use Rattle.model_router.specs.Both.{at};
ghost use Rattle.model_router.specs.Routers.{book_of};
ghost use Rattle.router_desk.specs.Desks.{desk_of};
ghost use Rattle.model_router.specs.Places.{nth};
ghost use Rattle.isis_base.specs.Prefixes.{prefix_number};
ghost use Rattle.model_router.specs.Numbers.{system_number};
ghost use Rattle.router_core.specs.Events.{IsThere};
ghost use Rattle.router_core.specs.Designated.{designated_system};
ghost use Rattle.router_core.specs.NamedBoots.{named_boot};

use crate::parts::Parts;
use isis_base::{Level, Prefix, SystemId};
use model_router::laws::states::count_laws;
use model_router::{DropName, has_level};
use router_desk::Desk;

impl Parts {
    /// How often a cause of a drop was met.
    pub(crate) fn drops(&self, cause: DropName) -> u64
        ensures { result ≡ drops_of self.now.drops cause }
    {
        count_laws();
        self.drops[cause.place()]
    }

    /// The boot.
    pub(crate) fn boot(&self) -> u32
        ensures { result ≡ self.now.boot }
    {
        self.boot
    }

    /// Whether it has a prefix of its own.
    pub(crate) fn has_prefix(&self, prefix: Prefix) -> bool
        ensures { result ≡ is_some (find self.now.config.prefixes (prefix_number prefix)) }
    {
        self.prefixes.has(prefix)
    }

    /// The number of its own prefixes.
    pub(crate) fn prefix_count(&self) -> usize
        ensures { result ≡ length self.now.config.prefixes }
    {
        self.prefixes.len()
    }

    /// Whether a circuit has an up adjacency of a level.
    pub(crate) fn up(&self, circuit: u8, level: Level) -> bool
        requires { IsThere self.now circuit }
        ensures { result ≡ opens (nth self.now.circuits (circuit - 1)) level }
    {
        self.circuits[usize::from(circuit) - 1].is_open(level)
    }

    /// The boot number that the neighbour of a point-to-point circuit tells.
    pub(crate) fn names_boot(&self, circuit: u8) -> Option<u32>
        requires { IsThere self.now circuit }
        ensures { IfSome (nth self.now.circuits (circuit - 1)) (λ c. result ≡ named_boot c) }
    {
        let on = &self.circuits[usize::from(circuit) - 1];
        if on.is_lan() {
            return None;
        }
        on.names_boot()
    }

    /// The designated system of a LAN and level.
    pub(crate) fn designated(&self, circuit: u8, level: Level) -> Option<SystemId>
        requires { IsThere self.now circuit }
        ensures { IfSome (nth self.now.circuits (circuit - 1)) (λ c. option_map system_number result
            ≡ designated_system self.now.config (circuit - 1) c level) }
    {
        let on = &self.circuits[usize::from(circuit) - 1];
        match on.designated(self.desk.system(), circuit, level) {
            Some(designated) => Some(designated.system),
            None => None,
        }
    }

    /// How many changes of keys a level's database has had since the start; the count stands still at its type's end.
    pub(crate) fn changes(&self, level: Level) -> u64
        ensures { result ≡ (book_of self.now level).changes }
    {
        self.book(level).store().changes()
    }

    /// What never changes of its configuration.
    pub(crate) fn desk(&self) -> &Desk
        ensures { result.now ≡ desk_of self.now.config self.now.circuits }
    {
        &self.desk
    }

    /// Whether a level is run.
    pub(crate) fn runs(&self, level: Level) -> bool
        ensures { result ≡ at self.now.config.runs level }
    {
        has_level(self.desk.levels(), level)
    }
}
