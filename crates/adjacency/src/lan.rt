//! The adjacencies of a LAN circuit and level.
ghost use Rattle.std.specs.Result.{is_err};
ghost use Rattle.std.specs.Prelude.{◌≡◌, ◌≤◌, ◌<◌, ◌⊎◌, nat_le, ◌&&◌, false, ℕ, [], length, map, List, IfOk, IsSome, OnErr, vec_capacity};
ghost use Rattle.model_router.specs.Adjacencies as model;
ghost use Rattle.model_router.specs.Both as both;
ghost use Rattle.model_router.specs.Both.{runs_of};
ghost use Rattle.model_router.specs.Maps.{find};
ghost use Rattle.model_router.specs.HelloTests.{is_below, known_lan, lan_drop};
ghost use Rattle.model_router.specs.Hellos.{minded};
ghost use Rattle.model_router.specs.Seconds.{heard_less};
ghost use Rattle.model_router.specs.Sorted.{RisesFrom};
ghost use Rattle.adjacency.specs.Views.{by_snpa, config_of, hello_of, neighbour_of};
ghost use Rattle.adjacency.specs.Inside.{lan_of, IsLan, IsAt};
ghost use Rattle.adjacency.specs.Changes.{IsTested};
ghost use Rattle.adjacency.specs.Lans.{AreHeard, neighbours, ups, hear_lan, lan_change_of, lan_less_change};
ghost use Rattle.adjacency.specs.Remembered as remembered;
ghost use Rattle.model_router.specs.Numbers.{snpa_number, system_number};

use crate::boots::Boots;
use crate::by_snpa::place_of;
use crate::hello::{AdjChange, HelloDrop, HelloFields, Own};
use crate::keeping::neighbour_in;
use crate::lan_lists::{age_both, keep};
use crate::neighbour::Neighbour;
use crate::tests_of_hello::test_lan;
use isis_base::{Level, LevelSet, OutOfMemory};
use std::alloc::Global;
use std::marker::Model;

/// The most neighbours that are heard on a LAN and level (own).
const MOST: usize = 200;

/// The adjacencies of a LAN circuit and level (ISO 10589 8.4.2): the neighbours that are heard, by
/// SNPA, each in state Up or Initializing. Contracts see it as the router's model has it.
#[derive(Drop, Debug)]
pub struct LanAdj {
    heard: Vec<Neighbour>,
    up: Vec<Neighbour>,
}

impl Model for LanAdj {
    ghost use Rattle.std.specs.Prelude.{ℕ, List, vec_capacity};
    ghost use Rattle.model_router.specs.Routers.{LanNeighbour};

    ghost Value = { List (ℕ × LanNeighbour) };

    ghost use Rattle.adjacency.specs.Inside.{lan_of, IsLan};

    ghost view = { λ a. lan_of a.heard.items a.up.items };

    ghost invariant = { λ a. IsLan a.heard.items a.up.items (vec_capacity a.heard)
        (vec_capacity a.up) };
}

impl LanAdj {
    /// The adjacencies of nobody, with the room for 200 neighbours.
    pub fn new(alloc: Global) -> Result<LanAdj, OutOfMemory>
        ensures { IfOk result (λ lan. lan ≡ []) }
    {
        let heard = Vec::with_capacity(alloc, MOST)?;
        let up = Vec::with_capacity(alloc, MOST)?;
        Ok(LanAdj { heard, up })
    }

    /// The neighbours in state Up, by SNPA.
    pub fn up(&self) -> &[Neighbour]
        ensures up { map neighbour_of result.now ≡ ups self.now }
        ensures heard { AreHeard self.now }
    {
        &self.up
    }

    /// All neighbours that are heard, by SNPA.
    pub fn heard(&self) -> &[Neighbour]
        ensures all { map neighbour_of result.now ≡ neighbours self.now }
        ensures heard { AreHeard self.now }
    {
        &self.heard
    }

    /// Takes a hello of this level. The first test that fails refuses it, and all is as before.
    /// Else its sender is kept with its holding time, in state Up where the hello lists one's own
    /// SNPA. It takes no memory.
    pub fn hear_hello(
        &mut self,
        own: &Own<'_>,
        level: Level,
        hello: &HelloFields<'_>,
        boots: &mut Boots,
    ) -> Result<AdjChange, HelloDrop>
        ensures tested { IsTested result
            (lan_drop (config_of own.now) level boots.old self.old (hello_of hello.now)) }
        ensures unchanged { OnErr result (self.new ≡ self.old) }
        ensures forgets { OnErr result (boots.new ≡ boots.old) }
        ensures minded { IfOk result (λ _. boots.new ≡ minded boots.old (hello_of hello.now)) }
        ensures heard { IfOk result (λ change. self.new ≡ hear_lan self.old
            (both.alone level (model.common_of (config_of own.now) (hello_of hello.now)))
            (hello_of hello.now)) }
        ensures change { IfOk result (λ change. change ≡ lan_change_of
            (find self.old (snpa_number hello.now.snpa)) hello.now.boot hello.now.names_me) }
    {
        let greatest = boots.heard(hello.source);
        let (place, levels) = match passed(&self.heard, own, level, hello, greatest) {
            Ok(passed) => passed,
            Err(refused) => return Err(refused),
        };
        if boots.hear(hello.source, hello.boot).is_err() {
            return Err(HelloDrop::TooMany);
        }
        let neighbour = neighbour_in(hello, levels, 0);
        Ok(keep(
            &mut self.heard,
            &mut self.up,
            place,
            neighbour,
            hello.names_me,
        ))
    }

    /// Whether a hello of this level passes, or the first test that refuses it, by the boot number that is remembered of its
    /// source; `full` where the source isn't remembered and 256 systems are. Nothing changes.
    pub fn test_hello(
        &self,
        own: &Own<'_>,
        level: Level,
        hello: &HelloFields<'_>,
        greatest: Option<u32>,
        full: bool,
    ) -> Result<(), HelloDrop>
        ensures { (boots : List (ℕ × ℕ)) → greatest ≡ find boots (system_number hello.now.source)
            → full ≡ remembered.is_full boots (system_number hello.now.source) → IsTested result
            (lan_drop (config_of own.now) level boots self.now (hello_of hello.now)) }
    {
        match passed(&self.heard, own, level, hello, greatest) {
            Ok(_) => {}
            Err(refused) => return Err(refused),
        }
        if full {
            return Err(HelloDrop::TooMany);
        }
        Ok(())
    }

    /// A second of each holding time: at 1 or 0 the neighbour goes, else it falls by one (ISO 10589
    /// 8.4.2).
    pub fn second(&mut self) -> AdjChange
        ensures less { self.new ≡ heard_less self.old }
        ensures change { result ≡ lan_less_change self.old }
    {
        age_both(&mut self.heard, &mut self.up)
    }

    /// Equal adjacencies, with the room for 200 neighbours.
    pub fn copy(&self) -> Result<LanAdj, OutOfMemory>
        ensures { IfOk result (λ copy. copy ≡ self.now) }
    {
        let alloc = *self.heard.allocator();
        let heard = copy_of(alloc, &self.heard)?;
        let up = copy_of(alloc, &self.up)?;
        Ok(LanAdj { heard, up })
    }
}

/// The place that a hello's sender has among those heard, and the levels in common, or the first test that refuses it but for that
/// of room for its boot number. `greatest` is the boot number that is remembered of its source.
fn passed(
    heard: &[Neighbour],
    own: &Own<'_>,
    level: Level,
    hello: &HelloFields<'_>,
    greatest: Option<u32>,
) -> Result<(Result<usize, usize>, LevelSet), HelloDrop>
    requires { RisesFrom 0 (by_snpa heard.now) }
    ensures tested { (up : List Neighbour) (space up_space : ℕ) (boots : List (ℕ × ℕ))
        → IsLan heard.now up space up_space
        → greatest ≡ find boots (system_number hello.now.source) → IsTested result
        (known_lan (config_of own.now) level boots (lan_of heard.now up) (hello_of hello.now)) }
    ensures recent { IfOk result (λ _. is_below hello.now.boot greatest ≡ false) }
    ensures place { IfOk result (λ p. IsAt heard.now (snpa_number hello.now.snpa) p.0) }
    ensures room { IfOk result (λ _. (length heard.now < 200)
        ⊎ IsSome (find (by_snpa heard.now) (snpa_number hello.now.snpa))) }
    ensures levels { IfOk result (λ p. runs_of p.1
        ≡ both.alone level (model.common_of (config_of own.now) (hello_of hello.now))) }
    ensures system { IfOk result (λ _.
        system_number hello.now.source ≡ snpa_number hello.now.snpa) }
{
    let place = place_of(heard, hello.snpa);
    match test_lan(own, level, hello, is_full(heard, place), greatest) {
        Ok(levels) => Ok((place, levels)),
        Err(refused) => Err(refused),
    }
}

/// Whether 200 are heard, and no place was found among them.
fn is_full(heard: &[Neighbour], place: Result<usize, usize>) -> bool
    ensures { result ≡ (nat_le 200 (length heard.now) && is_err place) }
{
    heard.len() >= MOST && place.is_err()
}

/// A copy of a list, with the room for 200 neighbours.
fn copy_of(alloc: Global, list: &[Neighbour]) -> Result<Vec<Neighbour>, OutOfMemory>
    ensures items { IfOk result (λ copy. copy.items ≡ list.now) }
    ensures room { IfOk result (λ copy. 200 ≤ vec_capacity copy) }
{
    let mut copy = Vec::with_capacity(alloc, MOST)?;
    copy.extend_from_slice(list)?;
    Ok(copy)
}
