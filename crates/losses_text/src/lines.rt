//! The text of losses.
ghost use Rattle.std.specs.Prelude.{◌≡◌, ◌++◌, map, OnOk, IfOk};
ghost use Rattle.std.specs.List.{flat_map};
ghost use Rattle.losses_text.specs.Said.{lost_of};
ghost use Rattle.losses_text.specs.LossesText as lines;

use crate::part_words::PartOf;
use crate::said::{Losses, NamedLoss};
use isis_base::{Octets, OutOfMemory, add_number};
use std::alloc::Global;

/// The text of losses.
#[tactic(auto, unfolding(crate::specs::LossesText::losses_text))]
pub fn losses_text(alloc: Global, losses: &Losses<'_>) -> Result<Octets, OutOfMemory>
    ensures { IfOk result (λ text. text ≡ lines.losses_text losses.now) }
{
    let mut text = Octets::new(alloc);
    add_asked(&mut text, losses)?;
    add_found(&mut text, losses)?;
    add_lost(&mut text, losses)?;
    Ok(text)
}

/// `isis-losses 1`, `most K` and `part I M`.
#[tactic(auto, unfolding(crate::specs::LossesText::asked_lines))]
fn add_asked(text: &mut Octets, losses: &Losses<'_>) -> Result<(), OutOfMemory>
    ensures { OnOk result (text.new ≡ text.old ++ lines.asked_lines losses.now) }
{
    text.extend(b"isis-losses 1\n")?;
    add_number(text, b"most ", u64::from(losses.most))?;
    text.extend(b"\n")?;
    add_part(text, losses.part)
}

/// `part I M`, where a part was played.
#[tactic(auto, unfolding(crate::specs::LossesText::part_line))]
fn add_part(text: &mut Octets, part: Option<PartOf>) -> Result<(), OutOfMemory>
    ensures { OnOk result (text.new ≡ text.old ++ lines.part_line part) }
{
    match part {
        None => Ok(()),
        Some(part) => {
            add_number(text, b"part ", u64::from(part.number))?;
            add_number(text, b" ", u64::from(part.of))?;
            text.extend(b"\n")
        }
    }
}

/// `schedules N`, `agree S`, `apart N` and `latest S`.
#[tactic(auto, unfolding(crate::specs::LossesText::found_lines))]
fn add_found(text: &mut Octets, losses: &Losses<'_>) -> Result<(), OutOfMemory>
    ensures { OnOk result (text.new ≡ text.old ++ lines.found_lines losses.now) }
{
    add_number(text, b"schedules ", losses.schedules)?;
    add_number(text, b"\nagree ", losses.agree)?;
    add_number(text, b"\napart ", losses.apart)?;
    add_number(text, b"\nlatest ", losses.latest)?;
    text.extend(b"\n")
}

/// A line of each delivery that is lost.
fn add_lost(text: &mut Octets, losses: &Losses<'_>) -> Result<(), OutOfMemory>
    ensures { OnOk result (text.new ≡ text.old ++ flat_map lines.lost_line losses.now.lost) }
{
    add_all(text, losses.lost.as_slice())
}

/// A line of each of these deliveries.
fn add_all(text: &mut Octets, lost: &[NamedLoss<'_>]) -> Result<(), OutOfMemory>
    ensures { OnOk result (text.new ≡ text.old ++ flat_map lines.lost_line (map lost_of lost.now)) }
{
    for loss in lost {
        match add_loss(text, loss) {
            Ok(()) => {}
            Err(error) => return Err(error),
        }
    }
    Ok(())
}

/// `lost P K R`.
#[tactic(auto, unfolding(crate::specs::LossesText::lost_line))]
fn add_loss(text: &mut Octets, loss: &NamedLoss<'_>) -> Result<(), OutOfMemory>
    ensures { OnOk result (text.new ≡ text.old ++ lines.lost_line (lost_of loss.now)) }
{
    add_number(text, b"lost ", loss.place as u64)?;
    add_number(text, b" ", loss.datagram as u64)?;
    text.extend(b" ")?;
    text.extend(loss.name)?;
    text.extend(b"\n")
}
