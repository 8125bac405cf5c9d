//! Values that are made together, where memory may lack for one of them (own).
ghost use Rattle.std.specs.Prelude.{◌≡◌, Ok, IfOk};

use isis_base::OutOfMemory;

/// Both values, where memory sufficed for both; else one that was made is let go.
pub(crate) fn both<A: Drop, B: Drop>(
    one: Result<A, OutOfMemory>,
    two: Result<B, OutOfMemory>,
) -> Result<(A, B), OutOfMemory>
    ensures { IfOk result (λ pair. (one ≡ Ok pair.0) × (two ≡ Ok pair.1)) }
{
    match one {
        Ok(one) => match two {
            Ok(two) => Ok((one, two)),
            Err(error) => Err(error),
        },
        Err(error) => Err(error),
    }
}
