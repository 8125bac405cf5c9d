//! Lines so far, and those of octets that are read next: functions without a body, whose contracts are the laws.
ghost use Rattle.std.specs.Prelude.{◌≡◌, ℕ, List, ◌++◌};
ghost use Rattle.line_cuts.specs.Words.{lines_of};

/// Where a text is some lines and what is pending, more octets change nothing but what is pending.
pub fn more_law()
    ensures { (text pending more : List ℕ) (lines : List (List ℕ))
        → lines_of text ≡ lines ++ lines_of pending
        → lines_of (text ++ more) ≡ lines ++ lines_of (pending ++ more) }
{}
