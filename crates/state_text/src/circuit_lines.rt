//! The lines of a circuit, of its neighbours, and of the boots that it remembers.
ghost use Rattle.std.specs.Prelude.{◌≡◌, ◌++◌, ◌+◌, ◌-◌, ◌<◌, ◌≤◌, map, length, Some, OnOk};
ghost use Rattle.std.specs.List.{flat_map};
ghost use Rattle.isis_base.specs.Levels.{level_text};
ghost use Rattle.model_router.specs.Both.{at, runs_of};
ghost use Rattle.std.specs.Option.{option_map};
ghost use Rattle.model_router.specs.Numbers.{system_id, system_number};
ghost use Rattle.model_router.specs.Places.{nth};
ghost use Rattle.router_core.specs.Designated.{designated_system};
ghost use Rattle.router_core.specs.Events.{IsThere};
ghost use Rattle.adjacency.specs.Views.{neighbour_of, point_of};
ghost use Rattle.state_text.specs.StateLines as lines;

use adjacency::{Neighbour, P2pAdj};
use isis_base::{Level, LevelSet, Octets, OutOfMemory, SystemId, add_number, add_system_id};
use isis_tlv::Adj;
use model_router::laws::identifiers::system_law;
use router_circuits::Circuit;
use router_core::Router;

/// Adds the lines of all circuits.
pub(crate) fn add_circuits(page: &mut Octets, router: &Router) -> Result<(), OutOfMemory>
    requires { length router.now.circuits ≤ 64 }
    ensures { OnOk result (page.new
        ≡ page.old ++ lines.circuit_blocks router.now.config 1 router.now.circuits) }
{
    let circuits = router.parts().circuits();
    for place in 0..circuits.len() {
        match add_circuit(page, router, place as u8 + 1, &circuits[place]) {
            Ok(()) => {}
            Err(error) => return Err(error),
        }
    }
    Ok(())
}

/// The lines of a circuit: its own, that of its point-to-point adjacency or those of its LAN's levels, and the boots.
#[tactic(auto, unfolding(crate::specs::StateLines::circuit_block))]
fn add_circuit(
    page: &mut Octets,
    router: &Router,
    number: u8,
    circuit: &Circuit,
) -> Result<(), OutOfMemory>
    requires there { IsThere router.now number }
    requires of { nth router.now.circuits (number - 1) ≡ Some circuit.now }
    ensures { OnOk result (page.new
        ≡ page.old ++ lines.circuit_block router.now.config number circuit.now) }
{
    add_circuit_line(page, number, circuit)?;
    add_point(page, number, circuit)?;
    add_level(page, router, number, circuit, Level::One)?;
    add_level(page, router, number, circuit, Level::Two)?;
    add_boots(page, number, circuit.boots())
}

/// The neighbours of a LAN and level, and who is designated.
#[tactic(auto, unfolding(crate::specs::StateLines::lan_block))]
fn add_level(
    page: &mut Octets,
    router: &Router,
    number: u8,
    circuit: &Circuit,
    level: Level,
) -> Result<(), OutOfMemory>
    requires there { IsThere router.now number }
    requires of { nth router.now.circuits (number - 1) ≡ Some circuit.now }
    ensures { OnOk result (page.new
        ≡ page.old ++ lines.lan_block router.now.config number level circuit.now) }
{
    add_lan(page, number, circuit, level)?;
    add_designated(
        page,
        number,
        level,
        designated(router, number, circuit, level),
    )
}

/// The number of the system that is designated on a circuit and level.
fn designated(router: &Router, number: u8, circuit: &Circuit, level: Level) -> Option<SystemId>
    requires there { IsThere router.now number }
    requires of { nth router.now.circuits (number - 1) ≡ Some circuit.now }
    ensures { option_map system_number result
        ≡ designated_system router.now.config (number - 1) circuit.now level }
{
    router.designated(number, level)
}

/// The line of the system that is designated; none where none is.
fn add_designated(
    page: &mut Octets,
    number: u8,
    level: Level,
    system: Option<SystemId>,
) -> Result<(), OutOfMemory>
    ensures { OnOk result (page.new ≡ page.old
        ++ lines.designated_line number level (option_map system_number system)) }
{
    match system {
        Some(system) => {
            system_law(system);
            add_designated_words(page, number, level, system)
        }
        None => Ok(()),
    }
}

/// `designated C LEVEL SYSTEM`.
#[tactic(auto, unfolding(crate::specs::StateLines::designated_words))]
fn add_designated_words(
    page: &mut Octets,
    number: u8,
    level: Level,
    system: SystemId,
) -> Result<(), OutOfMemory>
    ensures { OnOk result (page.new ≡ page.old ++ lines.designated_words number level system) }
{
    add_at(page, b"designated ", number, level)?;
    add_system(page, system)?;
    page.extend(b"\n")
}

/// `WORD C LEVEL`.
#[tactic(auto, unfolding(crate::specs::StateLines::at_words))]
fn add_at(page: &mut Octets, word: &[u8], number: u8, level: Level) -> Result<(), OutOfMemory>
    ensures { OnOk result (page.new ≡ page.old ++ lines.at_words word.now number level) }
{
    add_number(page, word, u64::from(number))?;
    page.extend(b" ")?;
    page.extend(level_word(level))
}

/// A line for each system whose boot number was heard.
fn add_boots(page: &mut Octets, number: u8, boots: &[(u64, u32)]) -> Result<(), OutOfMemory>
    ensures { OnOk result (page.new ≡ page.old ++ flat_map (lines.boot_line number) boots.now) }
{
    for heard in boots {
        match add_boot(page, number, heard.0, heard.1) {
            Ok(()) => {}
            Err(error) => return Err(error),
        }
    }
    Ok(())
}

/// The line of a system, by its number.
fn add_boot(page: &mut Octets, number: u8, system: u64, boot: u32) -> Result<(), OutOfMemory>
    ensures { OnOk result (page.new ≡ page.old ++ lines.boot_line number (system, boot)) }
{
    add_boot_words(page, number, system_of(system), boot)
}

/// `heard-boot C SYSTEM B`.
#[tactic(auto, unfolding(crate::specs::StateLines::boot_words))]
fn add_boot_words(
    page: &mut Octets,
    number: u8,
    system: SystemId,
    boot: u32,
) -> Result<(), OutOfMemory>
    ensures { OnOk result (page.new ≡ page.old ++ lines.boot_words number system boot) }
{
    add_of(page, b"heard-boot ", number, system)?;
    add_number(page, b" ", u64::from(boot))?;
    page.extend(b"\n")
}

/// `WORD C SYSTEM`.
#[tactic(auto, unfolding(crate::specs::StateLines::of_words))]
fn add_of(page: &mut Octets, word: &[u8], number: u8, system: SystemId) -> Result<(), OutOfMemory>
    ensures { OnOk result (page.new ≡ page.old ++ lines.of_words word.now number system) }
{
    add_number(page, word, u64::from(number))?;
    add_system(page, system)
}

/// ` SYSTEM`.
#[tactic(auto, unfolding(crate::specs::StateLines::system_word))]
fn add_system(page: &mut Octets, system: SystemId) -> Result<(), OutOfMemory>
    ensures { OnOk result (page.new ≡ page.old ++ lines.system_word system) }
{
    add_system_id(page, b" ", system)
}

/// The system ID of a number.
fn system_of(number: u64) -> SystemId
    ensures { result ≡ system_id number }
{
    let [_, _, a, b, c, d, e, f] = number.to_be_bytes();
    SystemId([a, b, c, d, e, f])
}

/// `circuit C KIND metric M priority P`.
#[tactic(auto, unfolding(crate::specs::StateLines::circuit_line))]
fn add_circuit_line(page: &mut Octets, number: u8, circuit: &Circuit) -> Result<(), OutOfMemory>
    ensures { OnOk result (page.new ≡ page.old ++ lines.circuit_line number circuit.now) }
{
    add_number(page, b"circuit ", u64::from(number))?;
    page.extend(kind_word(circuit.is_lan()))?;
    add_number(page, b" metric ", u64::from(circuit.metric()))?;
    add_number(page, b" priority ", u64::from(circuit.priority()))?;
    page.extend(b"\n")
}

fn kind_word(lan: bool) -> &'static [u8]
    ensures { result.now ≡ lines.kind_text lan }
{
    if lan { b" lan" } else { b" p2p" }
}

/// The adjacency of a point-to-point circuit.
#[tactic(auto, unfolding(crate::specs::StateLines::point_lines))]
fn add_point(page: &mut Octets, number: u8, circuit: &Circuit) -> Result<(), OutOfMemory>
    ensures { OnOk result (page.new ≡ page.old ++ lines.point_lines number circuit.now) }
{
    match circuit.point() {
        Some(point) => add_adjacency(page, number, point),
        None => Ok(()),
    }
}

/// `adjacency C STATE ..`.
#[tactic(auto, unfolding(crate::specs::StateLines::adjacency_line))]
fn add_adjacency(page: &mut Octets, number: u8, point: &P2pAdj) -> Result<(), OutOfMemory>
    ensures { OnOk result (page.new
        ≡ page.old ++ lines.adjacency_line number (point_of point.now)) }
{
    add_number(page, b"adjacency ", u64::from(number))?;
    page.extend(adjacency_word(point.state()))?;
    add_kept(page, point.neighbour())?;
    page.extend(b"\n")
}

fn adjacency_word(state: Adj) -> &'static [u8]
    ensures { result.now ≡ lines.adjacency_word state }
{
    match state {
        Adj::Down => b" down",
        Adj::Initializing => b" initializing",
        Adj::Up => b" up",
    }
}

#[tactic(auto, unfolding(crate::specs::StateLines::kept_words))]
fn add_kept(page: &mut Octets, kept: Option<&Neighbour>) -> Result<(), OutOfMemory>
    ensures { OnOk result (page.new ≡ page.old ++ lines.kept_words (lines.kept_of kept.entry)) }
{
    match kept {
        Some(neighbour) => add_neighbour(page, neighbour),
        None => Ok(()),
    }
}

/// ` SYSTEM boot B levels L priority P holding H`.
#[tactic(auto, unfolding(crate::specs::StateLines::neighbour_words))]
fn add_neighbour(page: &mut Octets, neighbour: &Neighbour) -> Result<(), OutOfMemory>
    ensures { OnOk result (page.new
        ≡ page.old ++ lines.neighbour_words (neighbour_of neighbour.now)) }
{
    system_law(neighbour.system);
    add_who(page, neighbour.system, neighbour.boot)?;
    page.extend(levels_word(neighbour.levels))?;
    add_number(page, b" priority ", u64::from(neighbour.priority))?;
    add_number(page, b" holding ", u64::from(neighbour.left))
}

/// ` SYSTEM boot B`.
#[tactic(auto, unfolding(crate::specs::StateLines::who_words))]
fn add_who(page: &mut Octets, system: SystemId, boot: u32) -> Result<(), OutOfMemory>
    ensures { OnOk result (page.new ≡ page.old ++ lines.who_words system boot) }
{
    add_system_id(page, b" ", system)?;
    add_number(page, b" boot ", u64::from(boot))
}

#[tactic(auto, unfolding(crate::specs::StateLines::runs_text))]
fn levels_word(levels: LevelSet) -> &'static [u8]
    ensures { result.now ≡ lines.runs_text (runs_of levels) }
{
    match levels {
        LevelSet::One => b" levels L1",
        LevelSet::Two => b" levels L2",
        LevelSet::Both => b" levels L1L2",
    }
}

/// The neighbours of a LAN and level: those that are Up, then all that are heard.
#[tactic(auto, unfolding(crate::specs::StateLines::lan_lines))]
fn add_lan(
    page: &mut Octets,
    number: u8,
    circuit: &Circuit,
    level: Level,
) -> Result<(), OutOfMemory>
    ensures { OnOk result (page.new
        ≡ page.old ++ lines.lan_lines number level (at circuit.now.levels level).heard) }
{
    add_all(page, b"up ", number, level, circuit.up(level))?;
    add_all(page, b"heard ", number, level, circuit.heard(level))
}

/// A line for each of these neighbours.
fn add_all(
    page: &mut Octets,
    word: &[u8],
    number: u8,
    level: Level,
    neighbours: &[Neighbour],
) -> Result<(), OutOfMemory>
    ensures { OnOk result (page.new ≡ page.old
        ++ flat_map (lines.lan_line word.now number level) (map neighbour_of neighbours.now)) }
{
    for neighbour in neighbours {
        match add_one(page, word, number, level, neighbour) {
            Ok(()) => {}
            Err(error) => return Err(error),
        }
    }
    Ok(())
}

/// `WORD C LEVEL SYSTEM ..`.
#[tactic(auto, unfolding(crate::specs::StateLines::lan_line))]
fn add_one(
    page: &mut Octets,
    word: &[u8],
    number: u8,
    level: Level,
    neighbour: &Neighbour,
) -> Result<(), OutOfMemory>
    ensures { OnOk result (page.new ≡ page.old
        ++ lines.lan_line word.now number level (neighbour_of neighbour.now)) }
{
    add_number(page, word, u64::from(number))?;
    page.extend(b" ")?;
    page.extend(level_word(level))?;
    add_neighbour(page, neighbour)?;
    page.extend(b"\n")
}

/// A level's word.
pub(crate) fn level_word(level: Level) -> &'static [u8]
    ensures { result.now ≡ level_text level }
{
    match level {
        Level::One => b"L1",
        Level::Two => b"L2",
    }
}
