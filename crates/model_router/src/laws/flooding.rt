//! Laws of ranks and flags: for each part that hears or ages, for a step, and for two ends of a
//! link.
ghost use Rattle.std.specs.Prelude.{◌≡◌, ℕ, ◌≤◌, ◌||◌, ◌&&◌, not, ◌==◌, Bool, true, false, List, Option};
ghost use Rattle.std.specs.List.{AllByRecursion};
ghost use Rattle.isis_base.specs.declared.level.Level.{Level};
ghost use Rattle.model_router.specs.declared.whose.Whose.{Whose};
ghost use Rattle.model_router.specs.Sets.{has, with_one, without, only};
ghost use Rattle.model_router.specs.Cells.{Heard};
ghost use Rattle.model_router.specs.Books.{Book, rank_at, srm_at};
ghost use Rattle.model_router.specs.LspTable.{hear_lsp};
ghost use Rattle.model_router.specs.SnpTable.{SnpEntry, hear_entry};
ghost use Rattle.model_router.specs.Routers.{Router, LevelState, Contents, book_of};
ghost use Rattle.model_router.specs.Givens.{Given};
ghost use Rattle.model_router.specs.OwnLsps.{renew};
ghost use Rattle.model_router.specs.Takes.{Scene, take_lsp, take_snp};
ghost use Rattle.model_router.specs.Ageing.{age};
ghost use Rattle.model_router.specs.Events.{Event};
ghost use Rattle.model_router.specs.Steps.{step};
ghost use Rattle.model_router.specs.Good.{IsGoodBook};
ghost use Rattle.model_router.specs.Flooding.{Floods, Keeps, KeepsBoth, Stands, IsKept};
ghost use Rattle.model_router.specs.Hearings.{heard_in};
ghost use Rattle.model_router.specs.StepLaws.{RankStays, FlagStays, RiseIsFlagged, OpeningIsFlagged, SsnRises, SsnStays};
ghost use Rattle.model_router.specs.SweepLaws.{ListsOnce, Frees, AreClean, IsRangeClean, IsListed, AreHeldLive};

/// A set of circuits has a circuit exactly as the words that made it say.
pub fn set_laws()
    ensures with_one { (set place q : ℕ) → has (with_one set place) q ≡ (place == q || has set q) }
    ensures without { (set place q : ℕ)
        → has (without set place) q ≡ (not (place == q) && has set q) }
    ensures only { (set place q : ℕ) → has (only set place) q ≡ (place == q && has set q) }
    ensures none { (q : ℕ) → has 0 q ≡ false }
{}

/// An LSP that is heard keeps the flooding of every LSP ID on every circuit.
pub fn lsp_floods()
    ensures { (heard : ℕ → ℕ → ℕ) (gone : ℕ → Bool) (book : Book) (place : ℕ)
        (whose : Whose) (h : Heard)
        → h.rank ≤ heard place h.id → Floods heard gone book (hear_lsp book place whose h) }
{}

/// An entry that is heard keeps the flooding of every LSP ID on every circuit.
pub fn entry_floods()
    ensures { (heard : ℕ → ℕ → ℕ) (gone : ℕ → Bool) (book : Book) (place : ℕ)
        (whose : Whose) (h : SnpEntry)
        → h.rank ≤ heard place h.id → Floods heard gone book (hear_entry book place whose h) }
{}

/// An LSP that is taken keeps a level's flooding: what is let go stays so, ranks don't fall, and
/// flags cover them.
pub fn take_lsp_keeps()
    ensures { (heard : ℕ → ℕ → ℕ) (scene : Scene) (state : LevelState) (place : ℕ)
        (whose : Whose) (h : Heard)
        → h.rank ≤ heard place h.id → Keeps heard state (take_lsp scene state place whose h) }
{}

/// An SNP that is taken keeps a level's flooding.
pub fn take_snp_keeps()
    ensures { (heard : ℕ → ℕ → ℕ) (scene : Scene) (state : LevelState) (system place : ℕ)
        (range : Option (ℕ × ℕ)) (entries : List SnpEntry)
        → AllByRecursion (λ h. h.rank ≤ heard place h.id) entries
        → Keeps heard state (take_snp scene state system place range entries) }
{}

/// A second of a level's entries keeps its flooding.
pub fn age_keeps()
    ensures { (heard : ℕ → ℕ → ℕ) (state : LevelState) → Keeps heard state (age state) }
{}

/// One's own LSPs, as they are followed, keep their level's flooding.
pub fn renew_keeps()
    ensures { (heard : ℕ → ℕ → ℕ) (given : Given) (r : Router) (level : Level) (state : LevelState)
        (wants : List (ℕ × Contents)) → Keeps heard state (renew given r level state wants) }
{}

/// A step keeps the flooding of both levels.
pub fn step_floods()
    ensures { (given : Given) (r : Router) (event : Event)
        → KeepsBoth (heard_in event) r (step given r event).router }
{}

/// What a step does to ranks and to the flags of point-to-point circuits.
pub fn step_flags()
    ensures rank { (given : Given) (r : Router) (event : Event)
        → RankStays r (step given r event).router }
    ensures flag { (given : Given) (r : Router) (event : Event)
        → FlagStays event r (step given r event).router }
    ensures opening { (given : Given) (r : Router) (event : Event)
        → OpeningIsFlagged r (step given r event).router }
    ensures rise { (given : Given) (r : Router) (event : Event)
        → RiseIsFlagged event r (step given r event).router }
{}

/// What a step does to SSN: it rises only for what a datagram names that is taken on that circuit
/// (ISO 10589 7.3.15.1, 7.3.15.2). It stays, on a circuit that stays open, until the key changes or
/// is let go, such a datagram names it, or the circuit is pulled (7.3.15.4) or takes a hello.
pub fn step_ssn()
    ensures rises { (given : Given) (r : Router) (event : Event)
        → SsnRises event r (step given r event).router }
    ensures stays { (given : Given) (r : Router) (event : Event)
        → SsnStays event r (step given r event).router }
{}

/// What stands between two routers at an end of a link still stands after a step of that end, where
/// the step hears there no rank above the other's, and after a step of the other, which doesn't let
/// the LSP ID go.
pub fn standing_laws()
    ensures here { (given : Given) (a b : Router) (event : Event) (level : Level) (place id : ℕ)
        → heard_in event level place id ≤ rank_at (book_of b level) id
        → Stands a place b level id → Stands (step given a event).router place b level id }
    ensures there { (given : Given) (a b : Router) (event : Event) (level : Level) (place id : ℕ)
        → IsKept (step given b event).router level id
        → Stands a place b level id → Stands a place (step given b event).router level id }
{}

/// Where an SNP is taken on a point-to-point circuit that lists an LSP ID once, at least as new as
/// what is held and with its checksum, the LSP ID's flag is clear there afterwards.
pub fn snp_frees()
    ensures { (scene : Scene) (state : LevelState) (system place : ℕ) (range : Option (ℕ × ℕ))
        (entries : List SnpEntry) (h : SnpEntry)
        → has state.book.p2p place ≡ true
        → IsGoodBook state.book → ListsOnce entries h → Frees state.book h
        → srm_at (take_snp scene state system place range entries).book h.id place ≡ false }
{}

/// Where an SNP is taken and no entry sets a flag, what it lists live is held so; and where the
/// range of a CSNP sets none either, what is held live in the range is listed.
pub fn sweep_laws()
    ensures listed { (scene : Scene) (state : LevelState) (system place : ℕ)
        (entries : List SnpEntry)
        → AreClean scene state system place entries → AreHeldLive state.book entries }
    ensures held { (scene : Scene) (state : LevelState) (system place start end : ℕ)
        (entries : List SnpEntry)
        → AreClean scene state system place entries → IsRangeClean state start end entries
        → (id : ℕ) → start ≤ id → id ≤ end → IsListed state.book entries id }
{}
