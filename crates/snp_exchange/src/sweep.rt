//! Which LSP IDs the ranges of CSNPs cover.
ghost use Rattle.std.specs.Prelude.{◌≡◌, ◌||◌, ℕ, [], false, IfOk, OnOk, OnErr};
ghost use Rattle.isis_base.specs.Identifiers.{lsp_number};
ghost use Rattle.snp_exchange.specs.Sweeps.{covers, in_range, IsSwept, AreApart};

use crate::ranges::with_range;
use isis_base::{LspId, OutOfMemory};
use std::alloc::Global;
use std::marker::Model;

/// What ranges of CSNPs cover (own).
#[derive(Clone, Copy, Debug, PartialEq, Eq)]
pub enum Swept {
    /// Some LSP ID isn't covered.
    Partial,
    /// All are, and it is clean where no range was flagged.
    Whole { clean: bool },
}

/// The ranges of CSNPs that were taken, merged and in order (own). Contracts see them, and whether
/// one was flagged.
#[derive(Drop)]
pub struct Sweep {
    alloc: Global,
    ranges: Vec<(u64, u64)>,
    flagged: bool,
}

impl Model for Sweep {
    ghost use Rattle.snp_exchange.specs.Sweeps.{SweepState};

    ghost Value = { SweepState };

    ghost use Rattle.snp_exchange.specs.Sweeps.{AreApart};

    ghost view = { λ s. record { ranges = s.ranges.items; flagged = s.flagged } };

    ghost invariant = { λ s. AreApart 0 s.ranges.items };
}

impl Sweep {
    /// No range is taken yet. It takes no memory.
    pub fn new(alloc: Global) -> Sweep
        ensures { result ≡ record { ranges = []; flagged = false } }
    {
        Sweep {
            alloc,
            ranges: Vec::new(alloc),
            flagged: false,
        }
    }

    /// Takes a range, from one LSP ID to another, both included, and whether a flag was set as its
    /// CSNP was taken.
    pub fn take(&mut self, start: LspId, end: LspId, flagged: bool) -> Result<Swept, OutOfMemory>
        ensures covered { OnOk result ((n : ℕ) → covers self.new.ranges n
            ≡ (covers self.old.ranges n || in_range (lsp_number start) (lsp_number end) n)) }
        ensures flagged { OnOk result (self.new.flagged ≡ (self.old.flagged || flagged)) }
        ensures swept { IfOk result (λ swept. IsSwept swept self.new) }
        ensures err { OnErr result (self.new ≡ self.old) }
    {
        match with_range(self.alloc, &self.ranges, start.to_number(), end.to_number()) {
            Ok(ranges) => self.ranges = ranges,
            Err(fault) => return Err(fault),
        }
        self.flagged |= flagged;
        Ok(swept_of(&self.ranges, self.flagged))
    }
}

/// What ranges cover: all LSP IDs exactly where the first one does.
fn swept_of(ranges: &[(u64, u64)], flagged: bool) -> Swept
    requires { AreApart 0 ranges.now }
    ensures { IsSwept result (record { ranges = ranges.now; flagged = flagged }) }
{
    match ranges {
        [] => Swept::Partial,
        [range, ..] => {
            if range.0 > 0 {
                return Swept::Partial;
            }
            if range.1 < u64::MAX {
                return Swept::Partial;
            }
            let clean = !flagged;
            Swept::Whole { clean }
        }
    }
}
