//! The own LSPs that a level wants, and drafts of them.
ghost use Rattle.std.specs.Prelude.{◌≡◌, ◌≤◌, true, length, map, is_some, option_copied, IfOk, IfSome};
ghost use Rattle.std.specs.List.{AllByRecursion};
ghost use Rattle.model_router.specs.Both.{at};
ghost use Rattle.model_router.specs.Good.{IsIssuable};
ghost use Rattle.model_router.specs.Routers.{Router};
ghost use Rattle.model_router.specs.Sorted.{RisesFrom};
ghost use Rattle.model_router.specs.Wanted as model;
ghost use Rattle.router_wanted.specs.Views.{contents_of, wanted_of};
ghost use Rattle.router_levels.specs.Drafts.{wants_of};
ghost use Rattle.router_routes.specs.Outlooks.{outlook_of};
ghost use Rattle.router_routes.specs.Candidates.{attached_of};
ghost use Rattle.router_routes.specs.Following.{IsFollowing};
ghost use Rattle.router_routes.specs.Leaks.{leaks_of, pair_of};
ghost use Rattle.router_core.specs.Givens.{given};
ghost use Rattle.router_core.specs.Machines.{IsFit};
ghost use Rattle.router_core.specs.Settled.{faces};
ghost use Rattle.router_core.specs.Seconds.{IsMade};

use crate::parts::Parts;
use isis_base::{Level, OutOfMemory};
use router_circuits::Circuit;
use router_levels::Wants;
use router_routes::{Following, Leaked};
use router_sending::Draft;
use router_wanted::{Wanted, wanted_lsps};
use std::alloc::Global;

impl Parts {
    /// The own LSPs that a level wants where the circuits are these, by LSP ID (ISO 10589 7.3.6), by
    /// what the routes leak and whether the router is attached. None in a level that isn't run.
    pub(crate) fn wanted_with(
        &self,
        circuits: &[Circuit],
        level: Level,
        following: Option<&Following>,
    ) -> Result<Vec<Wanted>, OutOfMemory>
        requires few { length circuits.now ≤ 64 }
        requires fit { AllByRecursion IsFit circuits.now }
        requires following { IfSome following (λ f. IsFollowing (outlook_of self.now) f.now) }
        ensures wanted { (r : Router) → r.config ≡ self.now.config → faces r.circuits ≡ faces circuits.now
            → IfOk result (λ list. map wanted_of list.items ≡ model.wanted given self.now r level) }
        ensures issuable { IfOk result (λ list. AllByRecursion
            (λ w. IsIssuable (at self.now.config.keys level) (contents_of w)) list.items) }
        ensures rises { IfOk result (λ list. RisesFrom 0 (map wanted_of list.items)) }
    {
        if !self.runs(level) {
            return Ok(Vec::new(self.alloc));
        }
        let base = router_wanted::Wants {
            system: self.desk.system(),
            areas: self.areas.as_slice(),
            levels: self.desk.levels(),
            leak: self.leak,
            overload: self.overload,
            prefixes: self.prefixes.as_slice(),
            signed: self.desk.key(level).is_some(),
        };
        let leaked = self.leaked(level, following)?;
        wanted_lsps(
            self.alloc,
            &base,
            circuits,
            level,
            leaked.prefixes.as_slice(),
            leaked.attached,
        )
    }

    /// What is leaked into a level that is run, and whether the router is attached: by what follows it, or else computed.
    fn leaked(&self, level: Level, following: Option<&Following>) -> Result<Leaked, OutOfMemory>
        requires runs { at self.now.config.runs level ≡ true }
        requires following { IfSome following (λ f. IsFollowing (outlook_of self.now) f.now) }
        ensures prefixes { IfOk result
            (λ leaked. map pair_of leaked.prefixes.items ≡ leaks_of (outlook_of self.now) level) }
        ensures attached { IfOk result (λ leaked. leaked.attached ≡ attached_of (outlook_of self.now)) }
    {
        match following {
            Some(following) => Ok(Leaked {
                prefixes: following.leaks(level)?,
                attached: following.attached(),
            }),
            None => self.lent().leaked(self.alloc, level),
        }
    }
}

/// Drafts of what is wanted.
pub(crate) fn drafts_of(
    alloc: Global,
    key: Option<&[u8]>,
    level: Level,
    wanted: Vec<Wanted>,
) -> Result<Wants, OutOfMemory>
    requires { AllByRecursion (λ w. IsIssuable (option_copied key) (contents_of w)) wanted.items }
    ensures says { IfOk result (λ wants. wants_of wants ≡ map wanted_of wanted.items) }
    ensures made { IfOk result (λ wants. AllByRecursion
        (IsMade (is_some (option_copied key.entry)) level) wants) }
{
    let mut wants = Wants::new(alloc);
    let mut left = wanted.into_iter();
    while let Some(want) = left.next() {
        let draft = match Draft::new(alloc, key, level, want.id, want.flags, want.tlvs) {
            Ok(draft) => draft,
            Err(error) => return Err(error),
        };
        match wants.push(draft) {
            Ok(()) => {}
            Err(error) => return Err(error),
        }
    }
    Ok(wants)
}
