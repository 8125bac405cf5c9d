//! Laws of adjacencies: which circuits are open, whom they keep, and what hellos tell of it.
ghost use Rattle.std.specs.Prelude.{◌≡◌, ◌≢◌, ℕ, true, false, List, Option, ◌&&◌, Some, None};
ghost use Rattle.isis_base.specs.declared.level.Level.{Level};
ghost use Rattle.model_router.specs.Both.{at};
ghost use Rattle.model_router.specs.Configs.{Config};
ghost use Rattle.model_router.specs.Routers.{Router, Circuit, some_up};
ghost use Rattle.model_router.specs.Elections.{Candidate, beats, designated};
ghost use Rattle.model_router.specs.ElectionLaws.{IsElected, SameRank};
ghost use Rattle.model_router.specs.Givens.{Given};
ghost use Rattle.model_router.specs.declared.drop_name.DropName.TheVariants.{NoAdjacency};
ghost use Rattle.model_router.specs.Places.{nth};
ghost use Rattle.model_router.specs.Cells.{Heard};
ghost use Rattle.model_router.specs.SnpTable.{SnpEntry};
ghost use Rattle.model_router.specs.Drops.{count_drop};
ghost use Rattle.model_router.specs.Events.{Envelope, LspHeard, SnpHeard, Event, Take};
ghost use Rattle.model_router.specs.Steps.{step};
ghost use Rattle.model_router.specs.AdjacencyLaws.{is_point, tie_at, FollowsAdjacencies, AreBonds, NewcomerIsFlagged, Stays, Bonds, place_of, IsReplyGreeting};

/// A book's open circuits are those whose adjacency is up, before and after a step.
pub fn step_follows()
    ensures { (given : Given) (r : Router) (event : Event)
        → FollowsAdjacencies r → FollowsAdjacencies (step given r event).router }
{}

/// A step leaves a router's system ID, area addresses, keys, boot and the number of its circuits,
/// and changes adjacencies only by hellos and by their end. A circuit that keeps another neighbour
/// than before has the flag of every key, and somebody is kept exactly outside Down. Each hello
/// that is sent tells the adjacency as it is.
pub fn step_bonds()
    ensures stays { (given : Given) (r : Router) (event : Event)
        → Stays r (step given r event).router }
    ensures bonds { (given : Given) (r : Router) (event : Event) (place : ℕ)
        → Bonds r event (step given r event).router place }
    ensures newcomer { (given : Given) (r : Router) (event : Event)
        → NewcomerIsFlagged r (step given r event).router }
    ensures kept { (given : Given) (r : Router) (event : Event)
        → AreBonds r → AreBonds (step given r event).router }
    ensures greets { (given : Given) (r : Router) (event : Event)
        → IsReplyGreeting (step given r event).router (place_of event) (step given r event).reply }
{}

/// A point-to-point circuit takes no LSP or SNP but of the boot that it keeps: it is dropped, and its
/// counter alone changes.
pub fn step_strange()
    ensures lsp { (given : Given) (r : Router) (place : ℕ) (level : Level) (from : Envelope)
        (h : Heard) → is_point (nth r.circuits place) ≡ true
        → (tie_at r place).boot ≢ Some from.boot
        → (step given r (Take place (LspHeard level from h))).router
        ≡ record r { drops = count_drop r.drops NoAdjacency } }
    ensures snp { (given : Given) (r : Router) (place : ℕ) (level : Level) (from : Envelope)
        (source : ℕ) (range : Option (ℕ × ℕ)) (entries : List SnpEntry)
        → is_point (nth r.circuits place) ≡ true → (tie_at r place).boot ≢ Some from.boot
        → (step given r (Take place (SnpHeard level from source range entries))).router
        ≡ record r { drops = count_drop r.drops NoAdjacency } }
{}

/// Who is designated on a LAN and level (ISO 10589 8.4.5): a candidate that stands behind none, by
/// priority, then SNPA, then system, of oneself and the neighbours that are Up; and nobody exactly
/// where none is Up. Two candidates of which neither stands before the other are of one system.
pub fn election_laws()
    ensures elected { (config : Config) (place : ℕ) (c : Circuit) (level : Level) (x : Candidate)
        → designated config place c level ≡ Some x → IsElected config place c level x }
    ensures nobody { (config : Config) (place : ℕ) (c : Circuit) (level : Level)
        → designated config place c level ≡ None
        → (c.lan && some_up (at c.levels level).heard) ≡ false }
    ensures somebody { (config : Config) (place : ℕ) (c : Circuit) (level : Level)
        → (c.lan && some_up (at c.levels level).heard) ≡ false
        → designated config place c level ≡ None }
    ensures one { (a b : Candidate) → beats a b ≡ false → beats b a ≡ false → SameRank a b }
{}
