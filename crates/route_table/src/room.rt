//! How much room a table of routes has.

ghost use Rattle.std.specs.Prelude.{◌≡◌, IfOk};
ghost use Rattle.route_table.specs.Patches.{room_of};

use isis_base::OutOfMemory;

/// How many routes a table of so many has room for. A table that grows by one route takes other room once in 64 routes, or in
/// 1,024 where it is large.
pub fn room_of(many: usize) -> Result<usize, OutOfMemory>
    ensures { IfOk result (λ room. room ≡ room_of many) }
{
    if many <= 4096 {
        return Ok((many + 63) / 64 * 64);
    }
    let Some(above) = many.checked_add(1023) else {
        return Err(OutOfMemory);
    };
    Ok(above / 1024 * 1024)
}
