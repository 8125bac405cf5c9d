//! Hellos that are tested beforehand: what they will do, or why they are refused, while nothing changes.
ghost use Rattle.std.specs.Prelude.{◌≡◌, ℕ, List, true, false, IfOk, IfSome};
ghost use Rattle.model_router.specs.Adjacencies as model;
ghost use Rattle.model_router.specs.Both.{at};
ghost use Rattle.model_router.specs.Configs.{Config};
ghost use Rattle.model_router.specs.HelloTests.{lan_drop, point_drop};
ghost use Rattle.model_router.specs.Numbers.{system_number};
ghost use Rattle.adjacency.specs.Changes.{IsTested};
ghost use Rattle.adjacency.specs.Views.{point_of};
ghost use Rattle.router_circuits.specs.Hellos.{hello_of, IsKnown, IsOwn};
ghost use Rattle.router_circuits.specs.Views.{boots_in, heard_in, is_lan, point_in};

use crate::circuit::Circuit;
use crate::medium::Medium;
use crate::sizes::{hello_sizes, own_words};
use adjacency::{Boots, HelloDrop, HelloFields, LanAdj, Own, P2pAdj};
use isis_base::{Level, SystemId};

impl Circuit {
    /// The adjacency of a point-to-point circuit as it will be after a hello, or the first test that refuses it (ISO 10589
    /// 8.2.4, RFC 5303 3.2).
    pub fn point_after(&self, own: &Own<'_>, hello: &HelloFields<'_>) -> Result<P2pAdj, HelloDrop>
        requires { self.now.lan ≡ false }
        ensures tested { (config : Config) → IsOwn config own.now → IsTested result
            (point_drop config own.now.id self.now.boots (hello_of hello.now)) }
        ensures after { (config : Config) → IsOwn config own.now → IfOk result (λ after.
            IfSome (hello_of hello.now).handshake (λ shake. point_of after
            ≡ model.hear_point self.now.point (model.common_of config (hello_of hello.now))
            (hello_of hello.now) shake)) }
    {
        let known = known(&self.boots, hello.source);
        self.medium.point_after(own, hello, known)
    }

    /// Whether a hello of a level passes on a LAN, or the first test that refuses it (ISO 10589 8.4.2).
    pub fn test_lan(
        &self,
        own: &Own<'_>,
        level: Level,
        hello: &HelloFields<'_>,
    ) -> Result<(), HelloDrop>
        requires { self.now.lan ≡ true }
        ensures { (config : Config) → IsOwn config own.now → IsTested result
            (lan_drop config level self.now.boots (at self.now.levels level).heard
            (hello_of hello.now)) }
    {
        let known = known(&self.boots, hello.source);
        self.medium.test_lan(own, level, hello, known)
    }
}

/// What is remembered of a system: its boot number, where it is remembered, and whether it isn't where 256 are.
fn known(boots: &Option<Boots>, system: SystemId) -> (Option<u32>, bool)
    ensures { IsKnown (boots_in boots.now) (system_number system) result }
{
    match boots {
        Some(boots) => (boots.heard(system), boots.is_full(system)),
        None => (None, false),
    }
}

impl Medium {
    /// The point-to-point adjacency after a hello, or why it is refused.
    fn point_after(
        &self,
        own: &Own<'_>,
        hello: &HelloFields<'_>,
        known: (Option<u32>, bool),
    ) -> Result<P2pAdj, HelloDrop>
        requires { is_lan self.now ≡ false }
        ensures tested { (config : Config) (boots : List (ℕ × ℕ)) → IsOwn config own.now
            → IsKnown boots (hello_of hello.now).source known
            → IsTested result (point_drop config own.now.id boots (hello_of hello.now)) }
        ensures after { (config : Config) → IsOwn config own.now → IfOk result (λ after.
            IfSome (hello_of hello.now).handshake (λ shake. point_of after
            ≡ model.hear_point (point_in self.now) (model.common_of config (hello_of hello.now))
            (hello_of hello.now) shake)) }
    {
        match self {
            Medium::Point(point) => after(point, own, hello, known),
            Medium::Lan(_, _) => unreachable!(),
        }
    }

    /// Whether a hello of a level passes, or why it is refused.
    fn test_lan(
        &self,
        own: &Own<'_>,
        level: Level,
        hello: &HelloFields<'_>,
        known: (Option<u32>, bool),
    ) -> Result<(), HelloDrop>
        requires { is_lan self.now ≡ true }
        ensures { (config : Config) (boots : List (ℕ × ℕ)) → IsOwn config own.now
            → IsKnown boots (hello_of hello.now).source known → IsTested result
            (lan_drop config level boots (at (heard_in self.now) level) (hello_of hello.now)) }
    {
        match self {
            Medium::Point(_) => unreachable!(),
            Medium::Lan(one, two) => match level {
                Level::One => test(one, own, level, hello, known),
                Level::Two => test(two, own, level, hello, known),
            },
        }
    }
}

/// An adjacency after a hello, or why it is refused.
fn after(
    point: &P2pAdj,
    own: &Own<'_>,
    hello: &HelloFields<'_>,
    known: (Option<u32>, bool),
) -> Result<P2pAdj, HelloDrop>
    ensures tested { (config : Config) (boots : List (ℕ × ℕ)) → IsOwn config own.now
        → IsKnown boots (hello_of hello.now).source known
        → IsTested result (point_drop config own.now.id boots (hello_of hello.now)) }
    ensures after { (config : Config) → IsOwn config own.now → IfOk result (λ after.
        IfSome (hello_of hello.now).handshake (λ shake. point_of after
        ≡ model.hear_point (point_of point.now) (model.common_of config (hello_of hello.now))
        (hello_of hello.now) shake)) }
{
    own_words(own);
    hello_sizes(hello);
    point.after_hello(own, hello, known.0, known.1)
}

/// Whether a hello passes among those heard on a level, or why it is refused.
fn test(
    lan: &LanAdj,
    own: &Own<'_>,
    level: Level,
    hello: &HelloFields<'_>,
    known: (Option<u32>, bool),
) -> Result<(), HelloDrop>
    ensures { (config : Config) (boots : List (ℕ × ℕ)) → IsOwn config own.now
        → IsKnown boots (hello_of hello.now).source known
        → IsTested result (lan_drop config level boots lan.now (hello_of hello.now)) }
{
    own_words(own);
    hello_sizes(hello);
    lan.test_hello(own, level, hello, known.0, known.1)
}
