//! The key of a copy of an LSP.
ghost use Rattle.std.specs.Prelude.{◌<◌};

/// What is known of one copy of an LSP: its sequence number, at least 1, and whether it is purged
/// (ISO 10589 7.3.16).
#[derive(Clone, Copy, Debug, PartialEq, Eq, Hash)]
pub struct Key {
    pub number: u32,
    pub purged: bool,
    pub ghost numbered: { 0 < number },
}
