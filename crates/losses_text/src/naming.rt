//! Lost deliveries with the names of their routers.
ghost use Rattle.std.specs.Prelude.{◌≡◌, [], ◌∷◌, ◌++◌, map, OnOk, IfOk};
ghost use Rattle.line_cuts.specs.Words.{texts};
ghost use Rattle.losses_text.specs.Said.{lost_of};
ghost use Rattle.losses_text.specs.Named.{named, name_at};

use crate::said::NamedLoss;
use isis_base::OutOfMemory;
use lossy_runs::Loss;
use std::alloc::Global;

/// Lost deliveries with the names of their routers, where routers are named so by their numbers.
pub fn name_losses<'a>(
    alloc: Global,
    names: &[&'a str],
    lost: &[Loss],
) -> Result<Vec<NamedLoss<'a>>, OutOfMemory>
    ensures { IfOk result (λ named_losses. map lost_of named_losses.items ≡ map (named (texts names.now)) lost.now) }
{
    let mut named_losses = Vec::new(alloc);
    for loss in lost {
        match add_named(&mut named_losses, names, loss) {
            Ok(()) => {}
            Err(error) => return Err(error),
        }
    }
    Ok(named_losses)
}

/// One more.
fn add_named<'a>(
    named_losses: &mut Vec<NamedLoss<'a>>,
    names: &[&'a str],
    loss: &Loss,
) -> Result<(), OutOfMemory>
    ensures { OnOk result (map lost_of named_losses.new.items
        ≡ map lost_of named_losses.old.items ++ named (texts names.now) loss.now ∷ []) }
{
    let loss = NamedLoss {
        place: loss.place,
        datagram: loss.datagram,
        name: name_of(names, loss.router).as_bytes(),
    };
    named_losses.push(loss)?;
    Ok(())
}

/// The name of a router; nothing where there is none of this number.
fn name_of<'a>(names: &[&'a str], router: usize) -> &'a str
    ensures { result.now ≡ name_at (texts names.now) router }
{
    match names.get(router) {
        Some(name) => name,
        None => "",
    }
}
