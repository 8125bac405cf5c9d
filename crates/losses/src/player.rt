//! What plays a run.
ghost use Rattle.std.specs.Prelude.{◌≡◌, List, Bool, IfOk, Err};
ghost use Rattle.losses.specs.Trees.{Tree, behind, quiet_length, quiet_cost};

/// Why a run isn't played to its end.
#[derive(Clone, Copy, Debug, PartialEq, Eq)]
pub enum Stop {
    /// It meets a limit of its network.
    Limit,
    /// There is no memory for it.
    OutOfMemory,
}

/// A run that was played with given fates.
#[derive(Clone, Copy, Debug, PartialEq, Eq)]
pub struct Played {
    /// How many deliveries came up after those that had a fate.
    pub further: usize,
    /// What it cost.
    pub cost: u64,
}

/// What plays one run again and again, from its beginning.
pub trait Player {
    // What the run may come to.
    ghost plays: { Self → Tree → Type 0 };

    // The run with these fates meets a limit.
    ghost meets: { Self → List Bool → Type 0 };

    /// Plays the run. A delivery is lost where its fate is true. It arrives where its fate is false, and where it has none.
    fn play(&self, fates: &[bool]) -> Result<Played, Stop>
        ensures further { IfOk result (λ p. (tree : Tree) → plays self.now tree
            → p.further ≡ quiet_length (behind tree fates.now)) }
        ensures cost { IfOk result (λ p. (tree : Tree) → plays self.now tree
            → p.cost ≡ quiet_cost (behind tree fates.now)) }
        ensures limit { result ≡ Err Stop.Limit → meets self.now fates.now };
}
