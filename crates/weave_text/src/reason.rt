//! Why journals can't be woven.
ghost use Rattle.std.specs.Prelude.{◌≡◌, Some};
ghost use Rattle.weave_text.specs.Reasons.{reason_word};

use std::fmt;

/// Why journals can't be woven, in the order in which it is looked for.
#[derive(Clone, Copy, Debug, PartialEq, Eq)]
pub enum WeaveReason {
    /// The entry's circuit isn't there, or its value is out of its limits.
    Event,
    /// Its router answers otherwise.
    Reply,
    /// No schedule of the network comes to it.
    Stuck,
}

impl fmt::Display for WeaveReason {
    ghost output = { λ reason. Some (reason_word reason) };

    fn fmt<W: fmt::Write>(&self, f: &mut fmt::Formatter<W>) -> fmt::Result {
        match self {
            WeaveReason::Event => write!(f, "event"),
            WeaveReason::Reply => write!(f, "reply"),
            WeaveReason::Stuck => write!(f, "stuck"),
        }
    }
}
