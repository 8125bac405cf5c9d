//! The text of a walk.
ghost use Rattle.std.specs.Prelude.{◌≡◌, ◌++◌, OnOk, IfOk};
ghost use Rattle.std.specs.List.{flat_map};
ghost use Rattle.lab_script.specs.Scripts.{names_in};
ghost use Rattle.lab_text.specs.Passed.{name_at, prefix_words, told_cost};
ghost use Rattle.walk_text.specs.WalkText as lines;

use crate::Walked;
use isis_base::numbers::PREFIX_METRIC;
use isis_base::{Octets, OutOfMemory, Prefix, add_number};
use lab_text::Script;
use std::alloc::Global;

/// The text of a walk from the router of this name.
#[tactic(auto, unfolding(crate::specs::WalkText::walk_text))]
pub(crate) fn walk_text(
    alloc: Global,
    script: &Script<'_>,
    name: &str,
    prefix: Prefix,
    walked: &Walked,
) -> Result<Octets, OutOfMemory>
    ensures { IfOk result (λ text.
        text ≡ lines.walk_text (names_in script.now) name.now prefix walked.now) }
{
    let mut text = Octets::new(alloc);
    text.extend(b"isis-walk 1\n")?;
    add_walk(alloc, &mut text, name, prefix, walked.cost)?;
    add_via(&mut text, script, walked.routers.as_slice())?;
    Ok(text)
}

/// `walk NAME PREFIX cost C`, where C is at most the greatest metric of a prefix.
#[tactic(auto, unfolding(crate::specs::WalkText::walk_line))]
fn add_walk(
    alloc: Global,
    text: &mut Octets,
    name: &str,
    prefix: Prefix,
    cost: u64,
) -> Result<(), OutOfMemory>
    ensures { OnOk result (text.new ≡ text.old ++ lines.walk_line name.now prefix cost) }
{
    text.extend(b"walk ")?;
    text.extend(name.as_bytes())?;
    add_prefix(alloc, text, prefix)?;
    add_number(text, b" cost ", printed_cost(cost))?;
    text.extend(b"\n")
}

/// The cost that is printed: at most the greatest metric of a prefix (RFC 5305 4).
pub fn printed_cost(cost: u64) -> u64
    ensures { result ≡ told_cost cost }
{
    cost.min(u64::from(PREFIX_METRIC))
}

/// A blank and the text of a prefix.
pub fn add_prefix(alloc: Global, text: &mut Octets, prefix: Prefix) -> Result<(), OutOfMemory>
    ensures { OnOk result (text.new ≡ text.old ++ prefix_words prefix) }
{
    let words = match format!(in alloc; "{prefix}") {
        Ok(words) => words,
        Err(_) => return Err(OutOfMemory),
    };
    text.extend(b" ")?;
    text.extend(words.as_bytes())
}

/// `via NAME NAME`.
#[tactic(auto, unfolding(crate::specs::WalkText::via_line))]
fn add_via(text: &mut Octets, script: &Script<'_>, routers: &[usize]) -> Result<(), OutOfMemory>
    ensures { OnOk result (text.new
        ≡ text.old ++ lines.via_line (names_in script.now) routers.now) }
{
    text.extend(b"via")?;
    add_hops(text, script, routers)?;
    text.extend(b"\n")
}

/// A blank and the name of each router.
pub fn add_hops(
    text: &mut Octets,
    script: &Script<'_>,
    routers: &[usize],
) -> Result<(), OutOfMemory>
    ensures { OnOk result (text.new
        ≡ text.old ++ flat_map (lines.hop_words (names_in script.now)) routers.now) }
{
    for router in routers {
        match add_hop(text, script, *router) {
            Ok(()) => {}
            Err(error) => return Err(error),
        }
    }
    Ok(())
}

/// A blank and the name of a router.
#[tactic(auto, unfolding(crate::specs::WalkText::hop_words))]
fn add_hop(text: &mut Octets, script: &Script<'_>, router: usize) -> Result<(), OutOfMemory>
    ensures { OnOk result (text.new ≡ text.old ++ lines.hop_words (names_in script.now) router) }
{
    text.extend(b" ")?;
    text.extend(name_of(script, router).as_bytes())
}

/// The name of a router; nothing where there is none of this number.
#[tactic(auto, unfolding(lab_text::specs::Passed::name_at))]
pub fn name_of<'s>(script: &'s Script<'_>, router: usize) -> &'s str
    ensures { result.now ≡ name_at (names_in script.now) router }
{
    match script.name(router) {
        Some(name) => name,
        None => "",
    }
}
