//! One circuit of a list, by its number: how a hello fares on it, what changes on it, and that its kind and key stay.
ghost use Rattle.std.specs.Prelude.{◌≡◌, ◌≤◌, ◌-◌, map, length, true, false, not, IfSome, IfOk, OnErr};
ghost use Rattle.std.specs.List.{AllByRecursion};
ghost use Rattle.model_router.specs.Adjacencies as model;
ghost use Rattle.model_router.specs.Both.{alone, at};
ghost use Rattle.model_router.specs.Places.{nth, with_nth};
ghost use Rattle.model_router.specs.Configs as configs;
ghost use Rattle.model_router.specs.Elections.{idle};
ghost use Rattle.model_router.specs.Hellos as hellos;
ghost use Rattle.model_router.specs.HelloTests.{lan_drop, point_drop};
ghost use Rattle.model_router.specs.Pulls as pulls;
ghost use Rattle.model_router.specs.Numbers.{system_number};
ghost use Rattle.adjacency.specs.Changes.{IsTested};
ghost use Rattle.router_circuits.specs.Hellos.{hello_of, IsOwn};
ghost use Rattle.router_desk.specs.Desks.{desk_circuit};
ghost use Rattle.router_core.specs.Machines.{IsFit};
ghost use Rattle.router_core.specs.Seconds.{later};
ghost use Rattle.router_core.specs.Settled.{LeavesFace};

use crate::faces::test_point;
use adjacency::{HelloDrop, HelloFields, Own};
use isis_base::{Level, OutOfMemory, SystemId};
use router_circuits::Circuit;
use std::alloc::Global;

/// The CSNP counters of a circuit stand at 0 where the router isn't designated.
pub(crate) fn idle_at(circuits: &mut Vec<Circuit>, system: SystemId, circuit: u8)
    requires { (1 ≤ circuit) × (circuit ≤ length circuits.old.items) }
    ensures state { (config : configs.Config) → config.system ≡ system_number system
        → IfSome (nth circuits.old.items (circuit - 1)) (λ c. circuits.new.items
        ≡ with_nth circuits.old.items (circuit - 1) (idle config (circuit - 1) c)) }
    ensures same { map desk_circuit circuits.new.items ≡ map desk_circuit circuits.old.items }
    ensures fit { AllByRecursion IsFit circuits.old.items
        → AllByRecursion IsFit circuits.new.items }
{
    circuits[usize::from(circuit) - 1].idle(system, circuit);
}

/// A second of a circuit: its counters, then its holding times.
pub(crate) fn second_at(circuits: &mut Vec<Circuit>, circuit: u8)
    requires { (1 ≤ circuit) × (circuit ≤ length circuits.old.items) }
    ensures state { IfSome (nth circuits.old.items (circuit - 1)) (λ c. circuits.new.items
        ≡ with_nth circuits.old.items (circuit - 1) (later c)) }
    ensures same { map desk_circuit circuits.new.items ≡ map desk_circuit circuits.old.items }
    ensures fit { AllByRecursion IsFit circuits.old.items
        → AllByRecursion IsFit circuits.new.items }
{
    circuits[usize::from(circuit) - 1].second();
}

/// A hello was sent on a circuit.
pub(crate) fn hello_sent_at(circuits: &mut Vec<Circuit>, circuit: u8)
    requires { (1 ≤ circuit) × (circuit ≤ length circuits.old.items) }
    ensures state { IfSome (nth circuits.old.items (circuit - 1)) (λ c. circuits.new.items
        ≡ with_nth circuits.old.items (circuit - 1) (record c { hello = 10 })) }
    ensures same { map desk_circuit circuits.new.items ≡ map desk_circuit circuits.old.items }
    ensures fit { AllByRecursion IsFit circuits.old.items
        → AllByRecursion IsFit circuits.new.items }
{
    circuits[usize::from(circuit) - 1].hello_sent();
}

/// A CSNP set of a level was sent on a circuit.
pub(crate) fn csnp_sent_at(circuits: &mut Vec<Circuit>, circuit: u8, level: Level)
    requires { (1 ≤ circuit) × (circuit ≤ length circuits.old.items) }
    ensures state { IfSome (nth circuits.old.items (circuit - 1)) (λ c. circuits.new.items
        ≡ with_nth circuits.old.items (circuit - 1)
        (pulls.with_part c level (pulls.csnp_sent c.lan (at c.levels level)))) }
    ensures same { map desk_circuit circuits.new.items ≡ map desk_circuit circuits.old.items }
    ensures fit { AllByRecursion IsFit circuits.old.items
        → AllByRecursion IsFit circuits.new.items }
{
    circuits[usize::from(circuit) - 1].csnp_sent(level);
}

/// PSNPs of a level were sent on a circuit.
pub(crate) fn answer_sent_at(circuits: &mut Vec<Circuit>, circuit: u8, level: Level)
    requires { (1 ≤ circuit) × (circuit ≤ length circuits.old.items) }
    ensures state { IfSome (nth circuits.old.items (circuit - 1)) (λ c. circuits.new.items
        ≡ with_nth circuits.old.items (circuit - 1)
        (pulls.with_part c level (record (at c.levels level) { psnp = 2 }))) }
    ensures same { map desk_circuit circuits.new.items ≡ map desk_circuit circuits.old.items }
    ensures fit { AllByRecursion IsFit circuits.old.items
        → AllByRecursion IsFit circuits.new.items }
{
    circuits[usize::from(circuit) - 1].answer_sent(level);
}

/// The metric of a circuit.
pub(crate) fn set_metric_at(circuits: &mut Vec<Circuit>, circuit: u8, metric: u32)
    requires there { (1 ≤ circuit) × (circuit ≤ length circuits.old.items) }
    requires metric { metric ≤ 16777215 }
    ensures state { IfSome (nth circuits.old.items (circuit - 1)) (λ c. circuits.new.items
        ≡ with_nth circuits.old.items (circuit - 1) (record c { metric = metric })) }
    ensures same { map desk_circuit circuits.new.items ≡ map desk_circuit circuits.old.items }
    ensures fit { AllByRecursion IsFit circuits.old.items
        → AllByRecursion IsFit circuits.new.items }
{
    circuits[usize::from(circuit) - 1].set_metric(metric);
}

/// Whether own LSPs will say the same of a point-to-point adjacency after a hello, or why that is refused (own).
pub(crate) fn test_point_at(
    circuits: &[Circuit],
    circuit: u8,
    own: &Own<'_>,
    hello: &HelloFields<'_>,
) -> Result<bool, HelloDrop>
    requires there { (1 ≤ circuit) × (circuit ≤ length circuits.now) }
    requires kind { IfSome (nth circuits.now (circuit - 1)) (λ c. c.lan ≡ false) }
    ensures tested { (config : configs.Config) → IsOwn config own.now
        → IfSome (nth circuits.now (circuit - 1)) (λ c.
        IsTested result (point_drop config own.now.id c.boots (hello_of hello.now))) }
    ensures alike { (config : configs.Config) → IsOwn config own.now
        → IfSome (nth circuits.now (circuit - 1)) (λ c.
        IfOk result (λ alike. alike ≡ true → LeavesFace c config (hello_of hello.now))) }
{
    test_point(&circuits[usize::from(circuit) - 1], own, hello)
}

/// Whether a hello of a level passes on a LAN, or why it is refused.
pub(crate) fn test_lan_at(
    circuits: &[Circuit],
    circuit: u8,
    own: &Own<'_>,
    level: Level,
    hello: &HelloFields<'_>,
) -> Result<(), HelloDrop>
    requires there { (1 ≤ circuit) × (circuit ≤ length circuits.now) }
    requires kind { IfSome (nth circuits.now (circuit - 1)) (λ c. c.lan ≡ true) }
    ensures { (config : configs.Config) → IsOwn config own.now
        → IfSome (nth circuits.now (circuit - 1)) (λ c. IsTested result
        (lan_drop config level c.boots (at c.levels level).heard (hello_of hello.now))) }
{
    circuits[usize::from(circuit) - 1].test_lan(own, level, hello)
}

/// A hello is taken on a point-to-point circuit: whether it isn't from the neighbour that was kept.
pub(crate) fn hear_point_at(
    circuits: &mut Vec<Circuit>,
    alloc: Global,
    circuit: u8,
    own: &Own<'_>,
    hello: &HelloFields<'_>,
) -> Result<Result<bool, HelloDrop>, OutOfMemory>
    requires there { (1 ≤ circuit) × (circuit ≤ length circuits.old.items) }
    requires kind { IfSome (nth circuits.old.items (circuit - 1)) (λ c. c.lan ≡ false) }
    ensures tested { (config : configs.Config) → IsOwn config own.now → IfOk result (λ heard.
        IfSome (nth circuits.old.items (circuit - 1)) (λ c.
        IsTested heard (point_drop config own.now.id c.boots (hello_of hello.now)))) }
    ensures unchanged { IfOk result
        (λ heard. OnErr heard (circuits.new.items ≡ circuits.old.items)) }
    ensures state { (config : configs.Config) → IsOwn config own.now
        → IfOk result (λ heard. IfOk heard (λ anew.
        IfSome (nth circuits.old.items (circuit - 1)) (λ c.
        IfSome (hello_of hello.now).handshake (λ shake. (circuits.new.items
        ≡ with_nth circuits.old.items (circuit - 1) (hellos.point_circuit c
        (model.common_of config (hello_of hello.now)) (hello_of hello.now) shake))
        × (anew ≡ not (model.is_same c.point.neighbour
        (model.common_of config (hello_of hello.now)) (hello_of hello.now) shake.extended)))))) }
    ensures err { OnErr result (circuits.new.items ≡ circuits.old.items) }
    ensures same { map desk_circuit circuits.new.items ≡ map desk_circuit circuits.old.items }
    ensures fit { AllByRecursion IsFit circuits.old.items
        → AllByRecursion IsFit circuits.new.items }
{
    circuits[usize::from(circuit) - 1].hear_point(alloc, own, hello)
}

/// A hello of a level is taken on a LAN.
pub(crate) fn hear_lan_at(
    circuits: &mut Vec<Circuit>,
    alloc: Global,
    circuit: u8,
    own: &Own<'_>,
    level: Level,
    hello: &HelloFields<'_>,
) -> Result<Result<(), HelloDrop>, OutOfMemory>
    requires there { (1 ≤ circuit) × (circuit ≤ length circuits.old.items) }
    requires kind { IfSome (nth circuits.old.items (circuit - 1)) (λ c. c.lan ≡ true) }
    ensures tested { (config : configs.Config) → IsOwn config own.now → IfOk result (λ heard.
        IfSome (nth circuits.old.items (circuit - 1)) (λ c. IsTested heard
        (lan_drop config level c.boots (at c.levels level).heard (hello_of hello.now)))) }
    ensures unchanged { IfOk result
        (λ heard. OnErr heard (circuits.new.items ≡ circuits.old.items)) }
    ensures state { (config : configs.Config) → IsOwn config own.now
        → IfOk result (λ heard. IfOk heard (λ _.
        IfSome (nth circuits.old.items (circuit - 1)) (λ c. circuits.new.items
        ≡ with_nth circuits.old.items (circuit - 1) (hellos.lan_circuit c level
        (alone level (model.common_of config (hello_of hello.now))) (hello_of hello.now))))) }
    ensures err { OnErr result (circuits.new.items ≡ circuits.old.items) }
    ensures same { map desk_circuit circuits.new.items ≡ map desk_circuit circuits.old.items }
    ensures fit { AllByRecursion IsFit circuits.old.items
        → AllByRecursion IsFit circuits.new.items }
{
    circuits[usize::from(circuit) - 1].hear_lan(alloc, own, level, hello)
}
