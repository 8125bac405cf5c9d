//! How a second passes in a level: in place, or in a copy where a nearly full database has no place for all that is wanted (own).
ghost use Rattle.std.specs.Prelude.{◌≡◌, ◌≤◌, List, Option, length, is_some, option_copied, IfOk, IfSome};
ghost use Rattle.model_router.specs.Both.{at};
ghost use Rattle.model_router.specs.Routers.{Router};
ghost use Rattle.router_sending.specs.Drafts.{DraftView};
ghost use Rattle.router_levels.specs.Views.{state_of, KeepsSpare};
ghost use Rattle.router_core.specs.Passing.{FitsPassing, HasPlaces, Leads};
ghost use Rattle.router_core.specs.Seconds.{AreMade, follow_first, followed, level_later};

use isis_base::numbers::ENTRY_LIMIT;
use isis_base::{Level, OutOfMemory};
use router_circuits::Circuit;
use router_levels::{LevelParts, Wants};

/// How a second passes in a level: in place, and then its own LSPs are followed by drafts where there are some, for which there is
/// room; or the level was made anew.
#[derive(Drop)]
pub(crate) enum Passing {
    InPlace(Option<Wants>),
    Anew(LevelParts),
}

/// How a second passes in a level that is followed by these drafts then, where there are some. Room is taken for them; where
/// 65,536 entries leave too few places for them, the level is made anew in a copy, since entries that are erased leave places
/// without room.
pub(crate) fn ready_to_pass(
    on: &mut LevelParts,
    key: Option<&[u8]>,
    circuits: &[Circuit],
    level: Level,
    wants: Option<Wants>,
) -> Result<Passing, OutOfMemory>
    requires few { length circuits.now ≤ 64 }
    requires same { on.old.book.circuits ≡ length circuits.now }
    requires made { IfSome wants (AreMade (is_some (option_copied key)) level) }
    ensures state { state_of on.new ≡ state_of on.old }
    ensures circuits { on.new.book.circuits ≡ on.old.book.circuits }
    ensures fits { IfOk result (FitsPassing on.new (is_some (option_copied key.entry)) level) }
    ensures leads { (r : Router) → at r.config.keys level ≡ option_copied key.entry
        → IfOk result (Leads r level circuits.now (state_of on.old) wants) }
{
    match wants {
        None => Ok(Passing::InPlace(None)),
        Some(wants) => ready_by(on, key, circuits, level, wants),
    }
}

/// The same where it is followed.
fn ready_by(
    on: &mut LevelParts,
    key: Option<&[u8]>,
    circuits: &[Circuit],
    level: Level,
    wants: Wants,
) -> Result<Passing, OutOfMemory>
    requires few { length circuits.now ≤ 64 }
    requires same { on.old.book.circuits ≡ length circuits.now }
    requires made { AreMade (is_some (option_copied key)) level wants }
    ensures state { state_of on.new ≡ state_of on.old }
    ensures circuits { on.new.book.circuits ≡ on.old.book.circuits }
    ensures fits { IfOk result (FitsPassing on.new (is_some (option_copied key.entry)) level) }
    ensures leads { (r : Router) → at r.config.keys level ≡ option_copied key.entry
        → IfOk result (Leads r level circuits.now (state_of on.old) (Some wants)) }
{
    let many = wants.len();
    match on.reserve(many, many) {
        Ok(()) => {}
        Err(error) => return Err(error),
    }
    if many > ENTRY_LIMIT - on.book().store().len() {
        return match made_anew(on, key, circuits, level, wants) {
            Ok(later) => Ok(Passing::Anew(later)),
            Err(error) => Err(error),
        };
    }
    Ok(Passing::InPlace(Some(wants)))
}

/// A copy of a level a second later, with the circuits as they then are and by these drafts of what it then wants.
fn made_anew(
    on: &LevelParts,
    key: Option<&[u8]>,
    circuits: &[Circuit],
    level: Level,
    wants: Wants,
) -> Result<LevelParts, OutOfMemory>
    requires few { length circuits.now ≤ 64 }
    requires same { on.now.book.circuits ≡ length circuits.now }
    requires made { AreMade (is_some (option_copied key)) level wants }
    ensures state { (r : Router) → at r.config.keys level ≡ option_copied key.entry
        → IfOk result (λ later. state_of later ≡ followed r level (Some wants)
        (level_later (state_of on.now) level circuits.now)) }
    ensures circuits { IfOk result (λ later. later.book.circuits ≡ on.now.book.circuits) }
{
    let mut later = on.copy()?;
    pass_in_place(&mut later, circuits, level);
    later.reserve(wants.len(), wants.len())?;
    later.renew(key, wants);
    Ok(later)
}

/// A second passes so in a level.
pub(crate) fn pass(
    on: &mut LevelParts,
    key: Option<&[u8]>,
    passing: Passing,
    circuits: &[Circuit],
    level: Level,
)
    requires few { length circuits.now ≤ 64 }
    requires same { on.old.book.circuits ≡ length circuits.now }
    requires fits { FitsPassing on.old (is_some (option_copied key)) level passing }
    ensures state { (r : Router) (wants : Option (List DraftView))
        → at r.config.keys level ≡ option_copied key.entry
        → Leads r level circuits.now (state_of on.old) wants passing → state_of on.new
        ≡ followed r level wants (level_later (state_of on.old) level circuits.now) }
    ensures circuits { on.new.book.circuits ≡ on.old.book.circuits }
{
    match passing {
        Passing::Anew(later) => *on = later,
        Passing::InPlace(wants) => pass_followed(on, key, wants, circuits, level),
    }
}

/// A second passes in place in a level, which then is followed by drafts where there are some.
fn pass_followed(
    on: &mut LevelParts,
    key: Option<&[u8]>,
    wants: Option<Wants>,
    circuits: &[Circuit],
    level: Level,
)
    requires few { length circuits.now ≤ 64 }
    requires same { on.old.book.circuits ≡ length circuits.now }
    requires places { IfSome wants (HasPlaces on.old) }
    requires made { IfSome wants (AreMade (is_some (option_copied key)) level) }
    ensures state { (r : Router) → at r.config.keys level ≡ option_copied key.entry → state_of on.new
        ≡ followed r level wants (level_later (state_of on.old) level circuits.now) }
    ensures circuits { on.new.book.circuits ≡ on.old.book.circuits }
{
    pass_in_place(on, circuits, level);
    match wants {
        Some(wants) => on.renew(key, wants),
        None => {}
    }
}

/// A second of a level, with the circuits as they then are, before its own LSPs are followed.
fn pass_in_place(on: &mut LevelParts, circuits: &[Circuit], level: Level)
    requires few { length circuits.now ≤ 64 }
    requires same { on.old.book.circuits ≡ length circuits.now }
    ensures state { state_of on.new ≡ level_later (state_of on.old) level circuits.now }
    ensures circuits { on.new.book.circuits ≡ on.old.book.circuits }
    ensures spare { KeepsSpare on.old on.new }
{
    on.wait();
    follow_all(on, circuits, level);
    on.age();
}

/// A level follows all circuits, in order.
fn follow_all(on: &mut LevelParts, circuits: &[Circuit], level: Level)
    requires few { length circuits.now ≤ 64 }
    requires same { on.old.book.circuits ≡ length circuits.now }
    ensures state { state_of on.new
        ≡ follow_first (state_of on.old) level circuits.now (length circuits.now) }
    ensures circuits { on.new.book.circuits ≡ on.old.book.circuits }
    ensures spare { KeepsSpare on.old on.new }
{
    for place in 0..circuits.len() {
        let up = circuits[place].is_open(level);
        on.follow(place as u8 + 1, false, up);
    }
}
