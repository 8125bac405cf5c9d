//! The lines of the items of a value, whatever they are.
ghost use Rattle.std.specs.Prelude.{◌≡◌, ◌++◌, ℕ, List, OnOk};
ghost use Rattle.isis_tlv.specs.Items.{values_of};
ghost use Rattle.value_text.specs.ValueLines.{item_line, items_lines, misfit_line};

use isis_base::{Octets, OutOfMemory, add_number};
use isis_tlv::{Item, Items, ValueFault};
use std::alloc::Global;

/// What has a line of its own.
pub(crate) trait Line {
    ghost line: { Self → List ℕ };

    /// Adds the line.
    fn add_line(&self, alloc: Global, text: &mut Octets) -> Result<(), OutOfMemory>
        ensures { OnOk result (text.new ≡ text.old ++ line self.now) };
}

/// Adds a line for each item of a value, and for the first place at which there is none.
pub(crate) fn add_items<I: Item + Line + Drop>(
    alloc: Global,
    text: &mut Octets,
    value: &[u8],
) -> Result<(), OutOfMemory>
    ensures { OnOk result (text.new ≡ text.old ++ items_lines I.line (values_of I.first 0 value.now)) }
{
    for item in Items::<I>::new(value) {
        match add_item(alloc, text, item) {
            Ok(()) => {}
            Err(error) => return Err(error),
        }
    }
    Ok(())
}

/// Adds the line of an item, or of the place at which there is none.
fn add_item<I: Line + Drop>(
    alloc: Global,
    text: &mut Octets,
    item: Result<I, ValueFault>,
) -> Result<(), OutOfMemory>
    ensures { OnOk result (text.new ≡ text.old ++ item_line I.line item) }
{
    match item {
        Ok(item) => item.add_line(alloc, text),
        Err(fault) => add_misfit(text, fault),
    }
}

/// `misfit PLACE`.
pub(crate) fn add_misfit(text: &mut Octets, fault: ValueFault) -> Result<(), OutOfMemory>
    ensures { OnOk result (text.new ≡ text.old ++ misfit_line fault) }
{
    add_number(text, b"misfit ", fault.place as u64)?;
    text.extend(b"\n")
}
