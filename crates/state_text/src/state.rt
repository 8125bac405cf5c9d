//! The whole text of a router's state.
ghost use Rattle.std.specs.Prelude.{◌≡◌, ◌++◌, IfOk, OnOk};
ghost use Rattle.isis_base.specs.declared.level.Level.TheVariants as level;
ghost use Rattle.model_router.specs.Numbers.{system_id};
ghost use Rattle.state_text.specs.StateLines as lines;
ghost use Rattle.state_text.specs.States.{IsStateText};

use crate::circuit_lines::add_circuits;
use crate::drop_lines::add_drops;
use crate::level_lines::add_level;
use crate::route_lines::add_routes;
use isis_base::{Level, Octets, OutOfMemory, SystemId, add_number, add_system_id};
use model_router::laws::identifiers::system_law;
use route_table::Route;
use router_core::Router;
use std::alloc::Global;

/// The text of a router's state, after so many entries of its journal.
pub fn state_of(alloc: Global, entries: u64, router: &Router) -> Result<Octets, OutOfMemory>
    ensures { IfOk result (λ text. IsStateText entries router.now text) }
{
    let mut text = Octets::new(alloc);
    match add_state(&mut text, entries, router, router.routes().list()) {
        Ok(()) => Ok(text),
        Err(error) => Err(error),
    }
}

/// Adds the text of a router's state, with these routes.
#[tactic(auto, unfolding(crate::specs::StateLines::state_text))]
fn add_state(
    text: &mut Octets,
    entries: u64,
    router: &Router,
    routes: &[Route],
) -> Result<(), OutOfMemory>
    ensures { OnOk result (text.new
        ≡ text.old ++ lines.state_text entries router.now routes.now) }
{
    router.facts();
    add_head(text)?;
    add_router(text, entries, system_of(router), router.boot())?;
    add_circuits(text, router)?;
    add_level(text, router, Level::One)?;
    add_level(text, router, Level::Two)?;
    add_routes(text, routes)?;
    add_drops(text, router)
}

/// `isis-state 1`.
#[tactic(auto, unfolding(crate::specs::StateLines::head_line))]
fn add_head(page: &mut Octets) -> Result<(), OutOfMemory>
    ensures { OnOk result (page.new ≡ page.old ++ lines.head_line) }
{
    page.extend(b"isis-state 1\n")
}

/// `router SYSTEM boot B entries N`.
#[tactic(auto, unfolding(crate::specs::StateLines::router_line))]
fn add_router(
    page: &mut Octets,
    entries: u64,
    system: SystemId,
    boot: u32,
) -> Result<(), OutOfMemory>
    ensures { OnOk result (page.new ≡ page.old ++ lines.router_line entries system boot) }
{
    add_system_id(page, b"router ", system)?;
    add_number(page, b" boot ", u64::from(boot))?;
    add_number(page, b" entries ", entries)?;
    page.extend(b"\n")
}

/// A router's system ID.
fn system_of(router: &Router) -> SystemId
    ensures { system_id router.now.config.system ≡ result }
{
    let system = router.desk().system();
    system_law(system);
    system
}
