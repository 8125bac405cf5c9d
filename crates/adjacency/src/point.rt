//! A point-to-point adjacency.
ghost use Rattle.std.specs.Prelude.{◌≡◌, ◌↔◌, ℕ, List, true, false, Option, IsNone, OnErr, IfOk, IfSome};
ghost use Rattle.std.specs.Option.{option_map};
ghost use Rattle.isis_tlv.specs.declared.three_way.Adj.TheVariants as adj;
ghost use Rattle.model_router.specs.Adjacencies as model;
ghost use Rattle.model_router.specs.HelloTests.{is_below, known_point, point_drop};
ghost use Rattle.model_router.specs.Seconds.{point_less};
ghost use Rattle.model_router.specs.Hellos.{minded};
ghost use Rattle.model_router.specs.Maps.{find};
ghost use Rattle.model_router.specs.Numbers.{system_number};
ghost use Rattle.adjacency.specs.Views.{config_of, hello_of, neighbour_of, point_of, point_down, shake_of};
ghost use Rattle.adjacency.specs.Changes.{IsTested, change_of, boot_of};
ghost use Rattle.adjacency.specs.Remembered.{is_full};

use crate::boots::Boots;
use crate::held::Held;
use crate::hello::{AdjChange, HelloDrop, HelloFields, Own};
use crate::keeping::{change, held_after, held_less, keeps, state_of};
use crate::neighbour::Neighbour;
use crate::tests_of_hello::test_point;
use isis_tlv::Adj;
use std::marker::Model;

/// The adjacency of a point-to-point circuit (ISO 10589 8.2.4, RFC 5303 3.2): its state, and the
/// neighbour that is kept outside Down. Contracts see it as these, and `point_of` says what the
/// router's model has of them.
#[derive(Clone, Copy, Debug, PartialEq, Eq)]
pub struct P2pAdj {
    held: Held,
}

impl Model for P2pAdj {
    ghost use Rattle.adjacency.specs.declared.held.Held.{Held};

    ghost Value = { Held };

    ghost view = { λ a. a.held };

    ghost inverse = { λ held. record { held = held } };
}

impl P2pAdj {
    /// An adjacency in Down.
    pub fn new() -> P2pAdj
        ensures { point_of result ≡ point_down }
    {
        P2pAdj { held: Held::Down }
    }

    /// The state.
    pub fn state(&self) -> Adj
        ensures { result ≡ (point_of self.now).state }
    {
        state_of(self.held)
    }

    /// The neighbour that is kept. `None` exactly in Down.
    pub fn neighbour(&self) -> Option<&Neighbour>
        ensures value { option_map (λ n. neighbour_of n.now) result
            ≡ (point_of self.now).neighbour }
        ensures none { IsNone result ↔ ((point_of self.now).state ≡ adj.Down) }
    {
        match &self.held {
            Held::Down => None,
            Held::Initializing(neighbour) => Some(neighbour),
            Held::Up(neighbour) => Some(neighbour),
        }
    }

    /// Takes a hello. The first test that fails refuses it, and the adjacency and the boots are as
    /// before. Else its boot number is the one that is remembered of its source (own). Where the
    /// system, the extended circuit ID, the boot number or the levels in common aren't those of the
    /// neighbour that is kept, the adjacency first goes Down (own); then the table of the handshake
    /// says its state, and outside Down the hello's sender is kept.
    pub fn hear_hello(
        &mut self,
        own: &Own<'_>,
        hello: &HelloFields<'_>,
        boots: &mut Boots,
    ) -> Result<AdjChange, HelloDrop>
        ensures tested { IsTested result
            (point_drop (config_of own.now) own.now.id boots.old (hello_of hello.now)) }
        ensures unchanged { OnErr result (self.new ≡ self.old) }
        ensures forgets { OnErr result (boots.new ≡ boots.old) }
        ensures minded { IfOk result (λ _. boots.new ≡ minded boots.old (hello_of hello.now)) }
        ensures heard { IfOk result (λ change. IfSome hello.now.three_way (λ shake.
            point_of self.new ≡ model.hear_point (point_of self.old)
            (model.common_of (config_of own.now) (hello_of hello.now))
            (hello_of hello.now) (shake_of shake))) }
        ensures change { IfOk result (λ change. IfSome hello.now.three_way (λ shake.
            change ≡ change_of (point_of self.old) (point_of self.new)
            (model.is_same (point_of self.old).neighbour
            (model.common_of (config_of own.now) (hello_of hello.now))
            (hello_of hello.now) (shake_of shake).extended))) }
    {
        let (held, change) = match after(self.held, own, hello, boots.heard(hello.source)) {
            Ok(after) => after,
            Err(refused) => return Err(refused),
        };
        if boots.hear(hello.source, hello.boot).is_err() {
            return Err(HelloDrop::TooMany);
        }
        self.held = held;
        Ok(change)
    }

    /// The adjacency as it will be after a hello, or the first test that refuses it, by the boot number that is remembered of
    /// its source; `full` where the source isn't remembered and 256 systems are. Nothing changes.
    pub fn after_hello(
        &self,
        own: &Own<'_>,
        hello: &HelloFields<'_>,
        greatest: Option<u32>,
        full: bool,
    ) -> Result<P2pAdj, HelloDrop>
        ensures tested { (boots : List (ℕ × ℕ))
            → greatest ≡ find boots (system_number hello.now.source)
            → full ≡ is_full boots (system_number hello.now.source) → IsTested result
            (point_drop (config_of own.now) own.now.id boots (hello_of hello.now)) }
        ensures heard { IfOk result (λ after. IfSome hello.now.three_way (λ shake.
            point_of after ≡ model.hear_point (point_of self.now)
            (model.common_of (config_of own.now) (hello_of hello.now))
            (hello_of hello.now) (shake_of shake))) }
    {
        let (held, _) = match after(self.held, own, hello, greatest) {
            Ok(after) => after,
            Err(refused) => return Err(refused),
        };
        if full {
            return Err(HelloDrop::TooMany);
        }
        Ok(P2pAdj { held })
    }

    /// A second of the holding time: at 1 or 0 the adjacency ends, else it falls by one (ISO 10589
    /// 8.2.5).
    pub fn second(&mut self) -> AdjChange
        ensures held { point_of self.new ≡ point_less (point_of self.old) }
        ensures change { result ≡ change_of (point_of self.old) (point_of self.new) true }
    {
        match self.held {
            Held::Down => AdjChange::None,
            Held::Initializing(neighbour) => {
                if neighbour.left <= 1 {
                    self.held = Held::Down;
                    return AdjChange::Moved;
                }
                self.held = Held::Initializing(held_less(neighbour));
                AdjChange::None
            }
            Held::Up(neighbour) => {
                if neighbour.left <= 1 {
                    self.held = Held::Down;
                    return AdjChange::LeftUp;
                }
                self.held = Held::Up(held_less(neighbour));
                AdjChange::None
            }
        }
    }

    /// The boot number in the neighbour's extended circuit ID, where the state is Up (own).
    pub fn names_boot(&self) -> Option<u32>
        ensures { result ≡ boot_of (point_of self.now) }
    {
        match self.held {
            Held::Up(neighbour) => Some(neighbour.id / 256),
            _ => None,
        }
    }
}

/// The state and the neighbour as they will be after a hello, and what becomes of them, or the first test that refuses it but for
/// that of room for its boot number. `greatest` is the boot number that is remembered of its source.
fn after(
    held: Held,
    own: &Own<'_>,
    hello: &HelloFields<'_>,
    greatest: Option<u32>,
) -> Result<(Held, AdjChange), HelloDrop>
    ensures tested { (boots : List (ℕ × ℕ)) → greatest ≡ find boots (system_number hello.now.source)
        → IsTested result (known_point (config_of own.now) own.now.id boots (hello_of hello.now)) }
    ensures recent { IfOk result (λ _. is_below hello.now.boot greatest ≡ false) }
    ensures heard { IfOk result (λ after. IfSome hello.now.three_way (λ shake.
        point_of after.0 ≡ model.hear_point (point_of held)
        (model.common_of (config_of own.now) (hello_of hello.now))
        (hello_of hello.now) (shake_of shake))) }
    ensures change { IfOk result (λ after. IfSome hello.now.three_way (λ shake.
        after.1 ≡ change_of (point_of held) (point_of after.0)
        (model.is_same (point_of held).neighbour
        (model.common_of (config_of own.now) (hello_of hello.now))
        (hello_of hello.now) (shake_of shake).extended))) }
{
    let (levels, shake) = match test_point(own, hello, greatest) {
        Ok(passed) => passed,
        Err(refused) => return Err(refused),
    };
    let same = keeps(held, hello, levels, shake.own_id.unwrap_or(0));
    let after = held_after(held, same, hello, levels, shake);
    Ok((after, change(held, after, same)))
}
