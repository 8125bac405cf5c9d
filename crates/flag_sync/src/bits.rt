//! Sets of circuits as words: circuit c is bit c - 1.
ghost use Rattle.std.specs.Prelude.{◌≡◌, ◌<◌};
ghost use Rattle.model_router.specs.Sets.{has, with_one, without, only};

/// Whether the circuit at a place is in the set.
pub(crate) fn has_bit(set: u64, place: u8) -> bool
    requires { place < 64 }
    ensures { result ≡ has set place }
{
    (set >> place) & 1 == 1
}

/// The set with the circuit.
pub(crate) fn with_bit(set: u64, place: u8) -> u64
    requires { place < 64 }
    ensures { result ≡ with_one set place }
{
    set | (1u64 << place)
}

/// The set without the circuit.
pub(crate) fn without_bit(set: u64, place: u8) -> u64
    requires { place < 64 }
    ensures { result ≡ without set place }
{
    set ^ (set & (1u64 << place))
}

/// The circuit alone, where it is in the set.
pub(crate) fn only_bit(set: u64, place: u8) -> u64
    requires { place < 64 }
    ensures { result ≡ only set place }
{
    set & (1u64 << place)
}
