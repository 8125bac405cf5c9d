//! Why there are no losses to tell of.

use std::fmt;

/// Why there are no losses to tell of.
#[derive(Clone, Copy, Debug, PartialEq, Eq)]
pub enum LossesReason {
    /// The text is a keys script.
    Keys,
    /// The last event line is no `run`, or there is no event line.
    Run,
    /// Texts of losses aren't the whole texts of all parts.
    Parts,
}

impl fmt::Display for LossesReason {
    ghost use Rattle.std.specs.Prelude.{Some};
    ghost use Rattle.lab_losses.specs.ScriptLosses.{reason_word};

    ghost output = { λ reason. Some (reason_word reason) };

    fn fmt<W: fmt::Write>(&self, f: &mut fmt::Formatter<W>) -> fmt::Result {
        match self {
            LossesReason::Keys => write!(f, "keys"),
            LossesReason::Run => write!(f, "run"),
            LossesReason::Parts => write!(f, "parts"),
        }
    }
}
