//! All schedules of a part are played, one after another.
ghost use Rattle.std.specs.Prelude.{◌≡◌, ◌<◌, ◌%◌, ◌==◌, ◌+◌, ℕ, true, [], ◌∷◌, ◌++◌, IfOk, IfErr, OnOk, length, if◌then◌else◌};
ghost use Rattle.losses.specs.Trees.{Tree, behind, losses_in, quiet_length};
ghost use Rattle.losses.specs.Schedules.{schedules};
ghost use Rattle.losses.specs.Counts.{nothing, with_all};
ghost use Rattle.losses.specs.Claims.{IsWorst};
ghost use Rattle.losses.specs.Parts.{of_part};
ghost use Rattle.losses.specs.PartsLeft.{first_schedule, lost_here, part_losses};
ghost use Rattle.losses.specs.Causes.{Cause};

use crate::fault::LossesFault;
use crate::part::Part;
use crate::player::Player;
use crate::tally::Tally;
use std::alloc::Global;

/// Plays each schedule of a part with at most so many losses once. The tally says how many there are, how many of them cost more
/// than is wanted, and the worst. `TooMany` comes only where the part has more than 16,777,216 schedules, and then no tally
/// comes. `Limit` comes only where a run with at most so many losses meets a limit.
pub fn explore<P: Player>(
    alloc: Global,
    player: &P,
    most: u32,
    wanted: u64,
    part: Part,
) -> Result<Tally, LossesFault>
    requires { 0 < part.of }
    ensures counted { IfOk result (λ tally. (tree : Tree) → P.plays player.now tree
        → tally ≡ with_all wanted nothing (of_part tree part.of part.number (schedules tree most []))) }
    ensures worst { IfOk result (λ tally. part.number ≡ 0 → part.of ≡ 1
        → (tree : Tree) → P.plays player.now tree → IsWorst tree most tally) }
    ensures cause { IfErr result (λ fault. (tree : Tree) → P.plays player.now tree
        → Cause (P.meets player.now) most 0 (of_part tree part.of part.number (schedules tree most [])) fault) }
{
    let mut tally = Tally::new(alloc);
    let further = match begin(player, wanted, part, &mut tally) {
        Ok(further) => further,
        Err(fault) => return Err(fault),
    };
    match lose_each(alloc, player, most, wanted, part, further, &mut tally) {
        Ok(()) => Ok(tally),
        Err(fault) => Err(fault),
    }
}

/// Plays the run in which nothing is lost, and adds it where it belongs to the part. The answer is how many deliveries came up.
fn begin<P: Player>(
    player: &P,
    wanted: u64,
    part: Part,
    tally: &mut Tally,
) -> Result<usize, LossesFault>
    ensures further { IfOk result (λ further. (tree : Tree) → P.plays player.now tree
        → further ≡ quiet_length (behind tree [])) }
    ensures counted { OnOk result ((tree : Tree) → P.plays player.now tree
        → tally.new ≡ with_all wanted tally.old (first_schedule part.number tree)) }
    ensures cause { IfErr result (λ fault. (tree : Tree) → P.plays player.now tree
        → Cause (P.meets player.now) 0 tally.old.schedules (first_schedule part.number tree) fault) }
{
    let played = match player.play(&[]) {
        Ok(played) => played,
        Err(stop) => return Err(LossesFault::from(stop)),
    };
    if part.number != 0 {
        return Ok(played.further);
    }
    match tally.add(wanted, &[], played.cost) {
        Ok(()) => Ok(played.further),
        Err(fault) => Err(fault),
    }
}

/// Plays the schedules of a part that lose something, by the place of their first loss.
fn lose_each<P: Player>(
    alloc: Global,
    player: &P,
    most: u32,
    wanted: u64,
    part: Part,
    further: usize,
    tally: &mut Tally,
) -> Result<(), LossesFault>
    requires part { 0 < part.of }
    requires further { (tree : Tree) → P.plays player.now tree → further ≡ quiet_length (behind tree []) }
    ensures counted { OnOk result ((tree : Tree) → P.plays player.now tree
        → tally.new ≡ with_all wanted tally.old (part_losses part.of part.number 0 tree most [])) }
    ensures cause { IfErr result (λ fault. (tree : Tree) → P.plays player.now tree
        → Cause (P.meets player.now) most tally.old.schedules (part_losses part.of part.number 0 tree most []) fault) }
{
    if most == 0 {
        return Ok(());
    }
    let mut fates = Vec::new(alloc);
    for place in 0..further {
        match lose(player, most, wanted, part, place, &mut fates, tally) {
            Ok(()) => {}
            Err(fault) => return Err(fault),
        }
        match put(&mut fates, false) {
            Ok(()) => {}
            Err(fault) => return Err(fault),
        }
    }
    Ok(())
}

/// Plays the schedules that lose the next delivery, which has this place, after these fates, where the part has them.
fn lose<P: Player>(
    player: &P,
    most: u32,
    wanted: u64,
    part: Part,
    place: usize,
    fates: &mut Vec<bool>,
    tally: &mut Tally,
) -> Result<(), LossesFault>
    requires part { 0 < part.of }
    requires most { 0 < most }
    ensures fates { OnOk result (fates.new.items ≡ fates.old.items) }
    ensures counted { OnOk result ((tree : Tree) → P.plays player.now tree
        → tally.new ≡ with_all wanted tally.old
        (lost_here part.of part.number place (behind tree (fates.old.items ++ true ∷ [])) most fates.old.items)) }
    ensures cause { IfErr result (λ fault. (tree : Tree) → P.plays player.now tree
        → Cause (P.meets player.now) (losses_in fates.old.items + most) tally.old.schedules
        (lost_here part.of part.number place (behind tree (fates.old.items ++ true ∷ [])) most fates.old.items) fault) }
{
    if !part.has(place) {
        return Ok(());
    }
    match put(fates, true) {
        Ok(()) => {}
        Err(fault) => return Err(fault),
    }
    match follow(player, most - 1, wanted, fates, tally) {
        Ok(()) => {}
        Err(fault) => return Err(fault),
    }
    fates.pop();
    Ok(())
}

/// Plays the schedules that begin with these fates and have at most so many losses after them.
fn follow<P: Player>(
    player: &P,
    most: u32,
    wanted: u64,
    fates: &mut Vec<bool>,
    tally: &mut Tally,
) -> Result<(), LossesFault>
    ensures fates { OnOk result (fates.new.items ≡ fates.old.items) }
    ensures counted { OnOk result ((tree : Tree) → P.plays player.now tree
        → tally.new ≡ with_all wanted tally.old
        (schedules (behind tree fates.old.items) most fates.old.items)) }
    ensures cause { IfErr result (λ fault. (tree : Tree) → P.plays player.now tree
        → Cause (P.meets player.now) (losses_in fates.old.items + most) tally.old.schedules
        (schedules (behind tree fates.old.items) most fates.old.items) fault) }
{
    let played = match player.play(fates.as_slice()) {
        Ok(played) => played,
        Err(stop) => return Err(LossesFault::from(stop)),
    };
    match tally.add(wanted, fates.as_slice(), played.cost) {
        Ok(()) => {}
        Err(fault) => return Err(fault),
    }
    if most == 0 {
        return Ok(());
    }
    let start = fates.len();
    for place in 0..played.further {
        match put(fates, true) {
            Ok(()) => {}
            Err(fault) => return Err(fault),
        }
        match follow(player, most - 1, wanted, fates, tally) {
            Ok(()) => {}
            Err(fault) => return Err(fault),
        }
        fates.pop();
        match put(fates, false) {
            Ok(()) => {}
            Err(fault) => return Err(fault),
        }
    }
    fates.truncate(start);
    Ok(())
}

/// One fate more.
fn put(fates: &mut Vec<bool>, fate: bool) -> Result<(), LossesFault>
    ensures put { OnOk result (fates.new.items ≡ fates.old.items ++ (fate ∷ [])) }
    ensures memory { IfErr result (λ fault. fault ≡ LossesFault.OutOfMemory) }
{
    match fates.push(fate) {
        Ok(()) => Ok(()),
        Err(_) => Err(LossesFault::OutOfMemory),
    }
}
