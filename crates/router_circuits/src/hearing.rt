//! Hellos that are heard on a circuit.
ghost use Rattle.std.specs.Prelude.{◌≡◌, true, false, Bool, if◌then◌else◌, not, IfOk, IfSome, IsSome, OnErr};
ghost use Rattle.model_router.specs.Adjacencies as model;
ghost use Rattle.model_router.specs.Both.{alone, at, with_at};
ghost use Rattle.model_router.specs.Configs.{Config};
ghost use Rattle.model_router.specs.Hellos as hellos;
ghost use Rattle.model_router.specs.HelloTests.{lan_drop, point_drop};
ghost use Rattle.model_router.specs.Maps.{find};
ghost use Rattle.adjacency.specs.Changes.{IsTested};
ghost use Rattle.adjacency.specs.Lans as lans;
ghost use Rattle.router_circuits.specs.Hellos.{hello_of, IsGreeted, IsOwn, with_due};
ghost use Rattle.router_circuits.specs.Views.{AllSized, AreSized, boots_in, heard_in, is_lan, point_in};

use crate::adjacencies::is_change;
use crate::circuit::Circuit;
use crate::greeted::Greeted;
use crate::greeting::greet;
use crate::medium::Medium;
use crate::sizes::{hello_sizes, own_words};
use crate::timers::Timers;
use adjacency::{Boots, HelloDrop, HelloFields, LanAdj, Own};
use isis_base::{Level, OutOfMemory};
use std::alloc::Global;

impl Circuit {
    /// Takes a hello on a point-to-point circuit (ISO 10589 8.2.4, RFC 5303 3.2). The first test
    /// that fails refuses it, and the circuit is as before. Else: whether it isn't from the
    /// neighbour that was kept, for then the circuit closes first. At `OutOfMemory`, where it is the
    /// first hello and there is no room for boots, the circuit is as before too.
    pub fn hear_point(
        &mut self,
        alloc: Global,
        own: &Own<'_>,
        hello: &HelloFields<'_>,
    ) -> Result<Result<bool, HelloDrop>, OutOfMemory>
        requires { self.old.lan ≡ false }
        ensures kind { self.new.lan ≡ false }
        ensures tested { (config : Config) → IsOwn config own.now → IfOk result (λ heard.
            IsTested heard (point_drop config own.now.id self.old.boots (hello_of hello.now))) }
        ensures shaken { IfOk result (λ heard. IfOk heard (λ _. IsSome hello.now.three_way)) }
        ensures unchanged { IfOk result (λ heard. OnErr heard (self.new ≡ self.old)) }
        ensures heard { (config : Config) → IsOwn config own.now → IfOk result (λ heard.
            IfOk heard (λ _. IfSome (hello_of hello.now).handshake (λ shake.
            self.new ≡ hellos.point_circuit self.old (model.common_of config (hello_of hello.now))
            (hello_of hello.now) shake))) }
        ensures anew { (config : Config) → IsOwn config own.now → IfOk result (λ heard.
            IfOk heard (λ anew. IfSome (hello_of hello.now).handshake (λ shake.
            anew ≡ not (model.is_same self.old.point.neighbour
            (model.common_of config (hello_of hello.now)) (hello_of hello.now) shake.extended)))) }
        ensures err { OnErr result (self.new ≡ self.old) }
    {
        let mut boots = boots_of(alloc, &mut self.boots)?;
        let heard = self.medium.hear_point(own, hello, &mut boots);
        self.boots = Some(boots);
        let greeted = match heard {
            Ok(greeted) => greeted,
            Err(refused) => return Ok(Err(refused)),
        };
        self.hello = due_or(greeted.moved, self.hello);
        self.one = with_due(self.one, greeted.one);
        self.two = with_due(self.two, greeted.two);
        Ok(Ok(greeted.anew))
    }

    /// Takes a hello of a level on a LAN (ISO 10589 8.4.2). The first test that fails refuses it,
    /// and the circuit is as before. At `OutOfMemory`, where it is the first hello and there is no
    /// room for boots, the circuit is as before too.
    pub fn hear_lan(
        &mut self,
        alloc: Global,
        own: &Own<'_>,
        level: Level,
        hello: &HelloFields<'_>,
    ) -> Result<Result<(), HelloDrop>, OutOfMemory>
        requires { self.old.lan ≡ true }
        ensures kind { self.new.lan ≡ true }
        ensures tested { (config : Config) → IsOwn config own.now → IfOk result (λ heard.
            IsTested heard (lan_drop config level self.old.boots (at self.old.levels level).heard
            (hello_of hello.now))) }
        ensures unchanged { IfOk result (λ heard. OnErr heard (self.new ≡ self.old)) }
        ensures heard { (config : Config) → IsOwn config own.now → IfOk result (λ heard.
            IfOk heard (λ _. self.new ≡ hellos.lan_circuit self.old level
            (alone level (model.common_of config (hello_of hello.now))) (hello_of hello.now))) }
        ensures err { OnErr result (self.new ≡ self.old) }
    {
        let mut boots = boots_of(alloc, &mut self.boots)?;
        let heard = self.medium.hear_lan(own, level, hello, &mut boots);
        self.boots = Some(boots);
        let due = match heard {
            Ok(due) => due,
            Err(refused) => return Ok(Err(refused)),
        };
        self.hello = due_or(due, self.hello);
        Ok(Ok(()))
    }
}

/// The boots that are remembered, taken out, or else the room for them.
fn boots_of(alloc: Global, boots: &mut Option<Boots>) -> Result<Boots, OutOfMemory>
    ensures taken { IfOk result (λ taken. taken ≡ boots_in boots.old) }
    ensures err { OnErr result (boots_in boots.new ≡ boots_in boots.old) }
{
    match boots.take() {
        Some(boots) => Ok(boots),
        None => Boots::new(alloc),
    }
}

impl Medium {
    /// Takes a hello on a point-to-point circuit.
    fn hear_point(
        &mut self,
        own: &Own<'_>,
        hello: &HelloFields<'_>,
        boots: &mut Boots,
    ) -> Result<Greeted, HelloDrop>
        requires { is_lan self.old ≡ false }
        ensures tested { (config : Config) → IsOwn config own.now
            → IsTested result (point_drop config own.now.id boots.old (hello_of hello.now)) }
        ensures shaken { IfOk result (λ _. IsSome hello.now.three_way) }
        ensures unchanged { OnErr result (self.new ≡ self.old) }
        ensures forgets { OnErr result (boots.new ≡ boots.old) }
        ensures minded { IfOk result (λ _. boots.new ≡ hellos.minded boots.old (hello_of hello.now)) }
        ensures lan { is_lan self.new ≡ false }
        ensures greeted { (config : Config) → IsOwn config own.now
            → IfOk result (λ greeted. IfSome (hello_of hello.now).handshake (λ shake.
            IsGreeted (point_in self.old) (point_in self.new)
            (model.common_of config (hello_of hello.now)) (hello_of hello.now) shake greeted)) }
    {
        match self {
            Medium::Point(point) => greet(point, own, hello, boots),
            Medium::Lan(_, _) => unreachable!(),
        }
    }

    /// Takes a hello of a level on a LAN; whether a hello is due.
    fn hear_lan(
        &mut self,
        own: &Own<'_>,
        level: Level,
        hello: &HelloFields<'_>,
        boots: &mut Boots,
    ) -> Result<bool, HelloDrop>
        requires lan { is_lan self.old ≡ true }
        requires sized { AreSized self.old }
        ensures tested { (config : Config) → IsOwn config own.now → IsTested result
            (lan_drop config level boots.old (at (heard_in self.old) level) (hello_of hello.now)) }
        ensures unchanged { OnErr result (self.new ≡ self.old) }
        ensures forgets { OnErr result (boots.new ≡ boots.old) }
        ensures minded { IfOk result (λ _. boots.new ≡ hellos.minded boots.old (hello_of hello.now)) }
        ensures lan { is_lan self.new ≡ true }
        ensures heard { (config : Config) → IsOwn config own.now
            → IfOk result (λ _. heard_in self.new ≡ with_at (heard_in self.old) level
            (lans.hear_lan (at (heard_in self.old) level)
            (alone level (model.common_of config (hello_of hello.now))) (hello_of hello.now))) }
        ensures due { IfOk result (λ due. due ≡ not (hellos.seen_so
            (find (at (heard_in self.old) level) (hello_of hello.now).snpa)
            hello.now.boot hello.now.names_me)) }
        ensures sized { AreSized self.new }
    {
        match self {
            Medium::Point(_) => unreachable!(),
            Medium::Lan(one, two) => match level {
                Level::One => hear(one, own, level, hello, boots),
                Level::Two => hear(two, own, level, hello, boots),
            },
        }
    }
}

/// Takes a hello of a level; whether a hello is due.
fn hear(
    lan: &mut LanAdj,
    own: &Own<'_>,
    level: Level,
    hello: &HelloFields<'_>,
    boots: &mut Boots,
) -> Result<bool, HelloDrop>
    ensures tested { (config : Config) → IsOwn config own.now
        → IsTested result (lan_drop config level boots.old lan.old (hello_of hello.now)) }
    ensures unchanged { OnErr result (lan.new ≡ lan.old) }
    ensures forgets { OnErr result (boots.new ≡ boots.old) }
    ensures minded { IfOk result (λ _. boots.new ≡ hellos.minded boots.old (hello_of hello.now)) }
    ensures heard { (config : Config) → IsOwn config own.now
        → IfOk result (λ _. lan.new ≡ lans.hear_lan lan.old
        (alone level (model.common_of config (hello_of hello.now))) (hello_of hello.now)) }
    ensures due { IfOk result (λ due. due ≡ not (hellos.seen_so
        (find lan.old (hello_of hello.now).snpa) hello.now.boot hello.now.names_me)) }
    ensures sized { AllSized lan.old → AllSized lan.new }
{
    own_words(own);
    hello_sizes(hello);
    match lan.hear_hello(own, level, hello, boots) {
        Ok(change) => Ok(is_change(change)),
        Err(refused) => Err(refused),
    }
}

/// 0 where a hello is due.
fn due_or(due: bool, hello: u8) -> u8
    ensures { result ≡ (if due then 0 else hello) }
{
    if due { 0 } else { hello }
}

/// The counters with a CSNP set due, where one is.
fn with_due(timers: Timers, due: bool) -> Timers
    ensures { result ≡ with_due timers due }
{
    Timers {
        due: timers.due || due,
        ..timers
    }
}
