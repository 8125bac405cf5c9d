//! The parts of a router, and what they have in common.
ghost use Rattle.std.specs.Prelude.{◌≡◌, ◌-◌, ◌<◌, IfSome};
ghost use Rattle.model_router.specs.Places.{nth};
ghost use Rattle.model_router.specs.Drops.{count_drop};
ghost use Rattle.model_router.specs.Hellos.{follow};
ghost use Rattle.model_router.specs.Elections.{idle};
ghost use Rattle.model_router.specs.Routers.{with_circuit};
ghost use Rattle.router_core.specs.Events.{IsThere};

use crate::at::idle_at;
use crate::prefixes::OwnPrefixes;
use isis_base::Level;
use model_router::DropName;
use model_router::laws::states::count_laws;
use router_circuits::Circuit;
use router_desk::{Areas, Desk};
use router_levels::LevelParts;
use std::alloc::Global;
use std::marker::Model;

/// The parts of a router but for its routes. Contracts see them as the router's model has them.
#[derive(Drop)]
pub struct Parts {
    pub(crate) alloc: Global,
    pub(crate) desk: Desk,
    pub(crate) areas: Areas,
    pub(crate) leak: bool,
    pub(crate) overload: bool,
    pub(crate) prefixes: OwnPrefixes,
    pub(crate) boot: u32,
    pub(crate) circuits: Vec<Circuit>,
    pub(crate) one: LevelParts,
    pub(crate) two: LevelParts,
    pub(crate) drops: [u64; 21],
}

impl Model for Parts {
    ghost use Rattle.model_router.specs.Routers as model;
    ghost use Rattle.router_core.specs.Machines.{machine_of, IsLaid};

    ghost Value = { model.Router };

    ghost view = { machine_of };

    ghost invariant = { IsLaid };
}

impl Parts {
    /// The circuits, the first of which is circuit 1.
    pub fn circuits(&self) -> &[Circuit]
        ensures { result.now ≡ self.now.circuits }
    {
        self.circuits.as_slice()
    }

    /// One more datagram is dropped for a cause; the count stands still at its type's end.
    pub(crate) fn count_drop(&mut self, cause: DropName)
        ensures { self.new ≡ record self.old { drops = count_drop self.old.drops cause } }
    {
        count_laws();
        let place = cause.place();
        self.drops[place] = self.drops[place].saturating_add(1);
    }

    /// Both levels follow a circuit, which closes first where its hello is of another neighbour than
    /// the one that was kept.
    pub(crate) fn follow(&mut self, circuit: u8, anew: bool)
        requires { IsThere self.old circuit }
        ensures { IfSome (nth self.old.circuits (circuit - 1)) (λ c.
            self.new ≡ follow self.old anew (circuit - 1) c) }
    {
        let at = &self.circuits[usize::from(circuit) - 1];
        let (one, two) = (at.is_open(Level::One), at.is_open(Level::Two));
        self.one.follow(circuit, anew, one);
        self.two.follow(circuit, anew, two);
    }

    /// The CSNP counters of a circuit stand at 0 where the router isn't designated.
    pub(crate) fn settle(&mut self, circuit: u8)
        requires { IsThere self.old circuit }
        ensures { IfSome (nth self.old.circuits (circuit - 1)) (λ c. self.new
            ≡ with_circuit self.old (circuit - 1) (idle self.old.config (circuit - 1) c)) }
    {
        let system = self.desk.system();
        idle_at(&mut self.circuits, system, circuit);
    }
}
