//! Hellos that are tested, and taken.
ghost use Rattle.std.specs.Prelude.{◌≡◌, ◌<◌, ◌^◌, ◌-◌, true, false, not, None, IfSome, IfOk, OnOk, OnErr};
ghost use Rattle.model_router.specs.Adjacencies as model;
ghost use Rattle.model_router.specs.Both.{alone, at};
ghost use Rattle.model_router.specs.Places.{nth};
ghost use Rattle.model_router.specs.Hellos as hellos;
ghost use Rattle.model_router.specs.HelloTests.{lan_drop, point_drop};
ghost use Rattle.model_router.specs.Routers.{extended_of, with_circuit};
ghost use Rattle.model_router.specs.AdjacencyLaws.{AreIdle};
ghost use Rattle.model_router.specs.Events.{Done, settled};
ghost use Rattle.model_router.specs.Receiving.{greeted};
ghost use Rattle.adjacency.specs.Changes.{IsTested};
ghost use Rattle.router_circuits.specs.Hellos.{hello_of};
ghost use Rattle.router_core.specs.Events.{IsThere};
ghost use Rattle.router_core.specs.Settled.{LeavesFace};

use crate::at::{hear_lan_at, hear_point_at, test_lan_at, test_point_at};
use crate::own::own_of;
use crate::parts::Parts;
use adjacency::{HelloDrop, HelloFields};
use isis_base::{Level, OutOfMemory};

impl Parts {
    /// A circuit hears a point-to-point hello: whether it isn't from the neighbour that was kept.
    pub(crate) fn hear_point(
        &mut self,
        circuit: u8,
        hello: &HelloFields<'_>,
    ) -> Result<Result<bool, HelloDrop>, OutOfMemory>
        requires there { IsThere self.old circuit }
        requires kind { IfSome (nth self.old.circuits (circuit - 1)) (λ c. c.lan ≡ false) }
        requires boot { self.old.boot < 2 ^ 24 }
        ensures tested { IfOk result (λ heard. IfSome (nth self.old.circuits (circuit - 1)) (λ c.
            IsTested heard (point_drop self.old.config (extended_of self.old.boot (circuit - 1))
            c.boots (hello_of hello.now)))) }
        ensures unchanged { IfOk result (λ heard. OnErr heard (self.new ≡ self.old)) }
        ensures state { IfOk result (λ heard. IfOk heard (λ anew.
            IfSome (nth self.old.circuits (circuit - 1)) (λ c.
            IfSome (hello_of hello.now).handshake (λ shake. (self.new
            ≡ with_circuit self.old (circuit - 1) (hellos.point_circuit c
            (model.common_of self.old.config (hello_of hello.now)) (hello_of hello.now) shake))
            × (anew ≡ not (model.is_same c.point.neighbour
            (model.common_of self.old.config (hello_of hello.now)) (hello_of hello.now)
            shake.extended)))))) }
        ensures there { IsThere self.new circuit }
        ensures err { OnErr result (self.new ≡ self.old) }
    {
        let own = own_of(&self.desk, self.areas.as_slice(), self.boot, circuit);
        hear_point_at(&mut self.circuits, self.alloc, circuit, &own, hello)
    }

    /// A circuit hears a hello of a level on a LAN.
    pub(crate) fn hear_lan(
        &mut self,
        circuit: u8,
        level: Level,
        hello: &HelloFields<'_>,
    ) -> Result<Result<(), HelloDrop>, OutOfMemory>
        requires there { IsThere self.old circuit }
        requires kind { IfSome (nth self.old.circuits (circuit - 1)) (λ c. c.lan ≡ true) }
        requires boot { self.old.boot < 2 ^ 24 }
        ensures tested { IfOk result (λ heard. IfSome (nth self.old.circuits (circuit - 1)) (λ c.
            IsTested heard (lan_drop self.old.config level c.boots (at c.levels level).heard
            (hello_of hello.now)))) }
        ensures unchanged { IfOk result (λ heard. OnErr heard (self.new ≡ self.old)) }
        ensures state { IfOk result (λ heard. OnOk heard
            (IfSome (nth self.old.circuits (circuit - 1)) (λ c.
            self.new ≡ with_circuit self.old (circuit - 1) (hellos.lan_circuit c level
            (alone level (model.common_of self.old.config (hello_of hello.now)))
            (hello_of hello.now))))) }
        ensures there { IsThere self.new circuit }
        ensures err { OnErr result (self.new ≡ self.old) }
    {
        let own = own_of(&self.desk, self.areas.as_slice(), self.boot, circuit);
        hear_lan_at(&mut self.circuits, self.alloc, circuit, &own, level, hello)
    }

    /// Whether own LSPs will say the same of a point-to-point adjacency after a hello, or why that is refused (own).
    pub(crate) fn test_point(&self, circuit: u8, hello: &HelloFields<'_>) -> Result<bool, HelloDrop>
        requires there { IsThere self.now circuit }
        requires kind { IfSome (nth self.now.circuits (circuit - 1)) (λ c. c.lan ≡ false) }
        requires boot { self.now.boot < 2 ^ 24 }
        ensures tested { IfSome (nth self.now.circuits (circuit - 1)) (λ c.
            IsTested result (point_drop self.now.config (extended_of self.now.boot (circuit - 1))
            c.boots (hello_of hello.now))) }
        ensures alike { IfSome (nth self.now.circuits (circuit - 1)) (λ c. IfOk result (λ alike.
            alike ≡ true → LeavesFace c self.now.config (hello_of hello.now))) }
    {
        let own = own_of(&self.desk, self.areas.as_slice(), self.boot, circuit);
        test_point_at(&self.circuits, circuit, &own, hello)
    }

    /// Whether a hello of a level passes on a LAN, or why it is refused.
    pub(crate) fn test_lan(
        &self,
        circuit: u8,
        level: Level,
        hello: &HelloFields<'_>,
    ) -> Result<(), HelloDrop>
        requires there { IsThere self.now circuit }
        requires kind { IfSome (nth self.now.circuits (circuit - 1)) (λ c. c.lan ≡ true) }
        requires boot { self.now.boot < 2 ^ 24 }
        ensures { IfSome (nth self.now.circuits (circuit - 1)) (λ c.
            IsTested result (lan_drop self.now.config level c.boots (at c.levels level).heard
            (hello_of hello.now))) }
    {
        let own = own_of(&self.desk, self.areas.as_slice(), self.boot, circuit);
        test_lan_at(&self.circuits, circuit, &own, level, hello)
    }

    /// A point-to-point hello that passes is taken.
    pub(crate) fn take_point(
        &mut self,
        circuit: u8,
        hello: &HelloFields<'_>,
    ) -> Result<(), OutOfMemory>
        requires there { IsThere self.old circuit }
        requires kind { IfSome (nth self.old.circuits (circuit - 1)) (λ c. c.lan ≡ false) }
        requires boot { self.old.boot < 2 ^ 24 }
        requires idle { AreIdle self.old }
        requires passes { IfSome (nth self.old.circuits (circuit - 1)) (λ c. point_drop
            self.old.config (extended_of self.old.boot (circuit - 1)) c.boots (hello_of hello.now)
            ≡ None) }
        ensures state { OnOk result (IfSome (nth self.old.circuits (circuit - 1)) (λ c.
            self.new ≡ (settled (record {
              router = greeted self.old (circuit - 1) c (hello_of hello.now)
                  (hello_of hello.now).handshake;
              reply = Done;
            })).router)) }
        ensures err { OnErr result (self.new ≡ self.old) }
    {
        let anew = match self.hear_point(circuit, hello)? {
            Ok(anew) => anew,
            Err(_) => unreachable!(),
        };
        self.follow(circuit, anew);
        self.settle(circuit);
        Ok(())
    }

    /// A hello of a level that passes is taken on a LAN.
    pub(crate) fn take_lan(
        &mut self,
        circuit: u8,
        level: Level,
        hello: &HelloFields<'_>,
    ) -> Result<(), OutOfMemory>
        requires there { IsThere self.old circuit }
        requires kind { IfSome (nth self.old.circuits (circuit - 1)) (λ c. c.lan ≡ true) }
        requires boot { self.old.boot < 2 ^ 24 }
        requires idle { AreIdle self.old }
        requires passes { IfSome (nth self.old.circuits (circuit - 1)) (λ c. lan_drop
            self.old.config level c.boots (at c.levels level).heard (hello_of hello.now) ≡ None) }
        ensures state { OnOk result (IfSome (nth self.old.circuits (circuit - 1)) (λ c.
            self.new ≡ (settled (record {
              router = hellos.take_lan self.old (circuit - 1) c level (hello_of hello.now);
              reply = Done;
            })).router)) }
        ensures err { OnErr result (self.new ≡ self.old) }
    {
        match self.hear_lan(circuit, level, hello)? {
            Ok(()) => {}
            Err(_) => unreachable!(),
        }
        self.follow(circuit, false);
        self.settle(circuit);
        Ok(())
    }
}
