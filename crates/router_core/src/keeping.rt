//! What a router keeps of its routes: what follows its databases at each event, or nothing (own).
ghost use Rattle.std.specs.Prelude.{◌≡◌, Option, Some, None, option_copied, IfOk, IfSome};
ghost use Rattle.router_routes.specs.Coming.{FitsIn};
ghost use Rattle.router_routes.specs.Following.{FollowingOf, IsFollowing};
ghost use Rattle.router_routes.specs.Outlooks.{outlook_in};
ghost use Rattle.router_core.specs.Keeping.{IsPutIn};

use isis_base::OutOfMemory;
use router_routes::{Coming, Following, Lent};
use std::alloc::Global;

/// Whether routes follow a router at each event.
pub trait Keeping: Drop {
    // What follows the router, where anything does.
    ghost kept: { Self → Option FollowingOf };

    /// What is kept from the start on. No level's costs were repaired yet.
    fn begun(alloc: Global, lent: &Lent<'_>) -> Result<Self, OutOfMemory>
        ensures follows { IfOk result (λ k. IfSome (kept k) (IsFollowing (outlook_in lent.now))) }
        ensures uncounted { IfOk result (λ k. IfSome (kept k)
            (λ f. (f.levels.one.changes ≡ 0) × (f.levels.two.changes ≡ 0))) };

    /// What follows the router, where anything does.
    fn following(&self) -> Option<&Following>
        ensures { option_copied result ≡ kept self.now };

    /// What comes is put in its place.
    fn put(&mut self, next: Coming)
        requires { IfSome (kept self.old) (λ f. FitsIn f next) }
        ensures { IsPutIn (kept self.old) next (kept self.new) };
}

/// Routes follow the router at each event.
#[derive(Drop)]
pub struct Kept {
    pub(crate) following: Following,
}

/// Nothing is kept: routes are computed when asked for.
#[derive(Drop)]
pub struct Asked;

impl Keeping for Kept {
    ghost use Rattle.std.specs.Prelude.{Some};

    ghost kept = { λ k. Some k.following };

    fn begun(alloc: Global, lent: &Lent<'_>) -> Result<Kept, OutOfMemory> {
        Ok(Kept {
            following: Following::new(alloc, lent)?,
        })
    }

    fn following(&self) -> Option<&Following> {
        Some(&self.following)
    }

    fn put(&mut self, next: Coming) {
        self.following.put(next);
    }
}

impl Keeping for Asked {
    ghost use Rattle.std.specs.Prelude.{None};

    ghost kept = { λ _. None };

    fn begun(_alloc: Global, _lent: &Lent<'_>) -> Result<Asked, OutOfMemory> {
        Ok(Asked)
    }

    fn following(&self) -> Option<&Following> {
        None
    }

    fn put(&mut self, next: Coming) {
        drop(next);
    }
}
