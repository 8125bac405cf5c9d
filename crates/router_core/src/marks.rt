//! Marks of levels whose own LSPs say what is wanted.
ghost use Rattle.std.specs.Prelude.{◌≡◌, ℕ, true};
ghost use Rattle.isis_base.specs.declared.level.Level.{Level};
ghost use Rattle.model_router.specs.Cells.{Heard};
ghost use Rattle.model_router.specs.Events.{Envelope, Event, LspHeard, Take};
ghost use Rattle.model_router.specs.Routers.{Router};
ghost use Rattle.model_router.specs.Steps.{step};
ghost use Rattle.router_routes.specs.Outlooks.{outlook_of};
ghost use Rattle.router_core.specs.Calm.{IsCalm};
ghost use Rattle.router_core.specs.Givens.{given};
ghost use Rattle.router_core.specs.Settled.{AreTrue, IsAside, IsNoBid, runs_both};

/// For each level whether it is known that each fragment that it wants is issued with those contents,
/// and nothing else is issued (ISO 10589 7.3.6; that it is marked: own). So a second of a marked level
/// needn't make what is wanted.
#[derive(Clone, Copy)]
pub(crate) struct Marks {
    pub(crate) one: bool,
    pub(crate) two: bool,
}

impl Marks {
    /// Nothing is known.
    pub(crate) fn none() -> Marks
        ensures { (r : Router) → AreTrue result r }
    {
        Marks {
            one: false,
            two: false,
        }
    }

    /// What is known after an event that changes no key, and nothing that own LSPs are made from: all that was.
    pub(crate) fn after(self) -> Marks
        ensures { (r : Router) (event : Event) → AreTrue self r → IsAside event
            → outlook_of (step given r event).router ≡ outlook_of r
            → IsCalm r event → AreTrue result (step given r event).router }
    {
        self
    }

    /// What is known after an LSP by which no own one is outbid: of a router of one level all that was, since nothing is leaked
    /// into its own LSPs (RFC 5302 3), and nothing where it runs both.
    pub(crate) fn after_lsp(self, both: bool) -> Marks
        ensures { (r : Router) (place : ℕ) (l : Level) (from : Envelope) (h : Heard)
            → both ≡ runs_both r → AreTrue self r → IsNoBid r l h
            → AreTrue result (step given r (Take place (LspHeard l from h))).router }
    {
        if both {
            return Marks::none();
        }
        self
    }

    /// These where the adjacency is alike, and else others.
    pub(crate) fn or(self, alike: bool, others: Marks) -> Marks
        ensures { (r : Router) → (alike ≡ true → AreTrue self r) → AreTrue others r
            → AreTrue result r }
    {
        if alike {
            return self;
        }
        others
    }
}
