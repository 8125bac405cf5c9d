//! Laws of states: what holds at the start and is kept by every step, where new LSPs come from, own
//! LSPs, and drops.
ghost use Rattle.std.specs.Prelude.{◌≡◌, ◌≢◌, ℕ, ◌/◌, ◌^◌, ◌<◌, ◌≤◌, List, length, Some, None, Bool};
ghost use Rattle.std.specs.List.{AllByRecursion};
ghost use Rattle.isis_base.specs.declared.level.Level.{Level};
ghost use Rattle.model_router.specs.declared.drop_name.DropName.{DropName};
ghost use Rattle.isis_tlv.specs.Spelling.{area_value};
ghost use Rattle.model_router.specs.Both.{at};
ghost use Rattle.model_router.specs.Places.{nth};
ghost use Rattle.model_router.specs.Books.{risen};
ghost use Rattle.model_router.specs.Configs.{Config};
ghost use Rattle.model_router.specs.Drops.{drop_place, drops_of, count_drop};
ghost use Rattle.model_router.specs.Routers.{Circuit, Contents, Router};
ghost use Rattle.model_router.specs.Givens.{Given};
ghost use Rattle.model_router.specs.Splits.{Item, split};
ghost use Rattle.model_router.specs.SplitLaws.{IsSmall, SaysEntries};
ghost use Rattle.std.specs.Option.{option_map};
ghost use Rattle.model_router.specs.Maps.{find};
ghost use Rattle.model_router.specs.Elections.{oneself};
ghost use Rattle.model_router.specs.LspPrefixes.{Reach, with_leaks};
ghost use Rattle.model_router.specs.Wanted.{pseudonode_lsp, wanted};
ghost use Rattle.model_router.specs.Events.{Message, Event, Take, Dropped};
ghost use Rattle.model_router.specs.Receiving.{drop_of};
ghost use Rattle.model_router.specs.Steps.{step};
ghost use Rattle.model_router.specs.Starts.{start};
ghost use Rattle.model_router.specs.Sorted.{IsSorted};
ghost use Rattle.model_router.specs.Good.{IsGoodGiven, IsGoodEvent, IsGoodRouter, IsTelling, IsIssuable};
ghost use Rattle.model_router.specs.Deeds.{Courses};
ghost use Rattle.model_router.specs.Hearings.{hearing};
ghost use Rattle.model_router.specs.AdjacencyLaws.{FollowsAdjacencies, AreBonds, AreIdle};
ghost use Rattle.model_router.specs.ContentLaws.{TellsBoth};

/// A step is a course of both levels.
pub fn step_course()
    ensures { (given : Given) (r : Router) (event : Event)
        → Courses (hearing given r event) r (step given r event).router }
{}

/// What holds of every state holds at the start.
pub fn start_laws()
    ensures sorted { (config : Config) (boot : ℕ) (circuits : List Circuit)
        → IsSorted (start config boot circuits) }
    ensures good { (config : Config) (boot : ℕ) (circuits : List Circuit)
        → config.system < 2 ^ 48
        → length circuits ≤ 255 → IsGoodRouter (start config boot circuits) }
    ensures telling { (config : Config) (boot : ℕ) (circuits : List Circuit)
        → length (area_value config.areas) ≤ 255 → length circuits ≤ 126
        → IsTelling (start config boot circuits) }
    ensures follows { (config : Config) (boot : ℕ) (circuits : List Circuit)
        → FollowsAdjacencies (start config boot circuits) }
    ensures bonds { (config : Config) (boot : ℕ) (circuits : List Circuit)
        → AreBonds (start config boot circuits) }
    ensures idle { (config : Config) (boot : ℕ) (circuits : List Circuit)
        → AreIdle (start config boot circuits) }
{}

/// A router's cells are by LSP ID before and after a step.
pub fn step_sorted()
    ensures { (given : Given) (r : Router) (event : Event)
        → IsSorted r → IsSorted (step given r event).router }
{}

/// Where the event and what is given are good, a step keeps a good router good: both levels' cells,
/// its system ID and its circuits' number. Its area addresses still fit one TLV.
pub fn step_good()
    ensures good { (given : Given) (r : Router) (event : Event)
        → IsGoodGiven given → IsGoodEvent event
        → IsGoodRouter r → IsGoodRouter (step given r event).router }
    ensures telling { (given : Given) (r : Router) (event : Event)
        → IsTelling r → IsTelling (step given r event).router }
{}

/// The CSNP counter stands at 0 where the router isn't designated, before and after a step.
pub fn step_idle()
    ensures { (given : Given) (r : Router) (event : Event)
        → AreIdle r → AreIdle (step given r event).router }
{}

/// What a step tells of keys and contents: a new live LSP was taken or issued in it, and while the
/// count of changes stands below its end, keys and contents stand.
pub fn step_tells()
    ensures { (given : Given) (r : Router) (event : Event)
        → TellsBoth given event r (step given r event).router }
{}

/// The LSPs that are wanted are of one's own system, and each of them has TLVs that fit the room.
pub fn wanted_own()
    ensures own { (given : Given) (before r : Router) (level : Level) → length r.circuits ≤ 255
        → AllByRecursion (λ w. w.0 / 65536 ≡ r.config.system) (wanted given before r level) }
    ensures issuable { (given : Given) (before r : Router) (level : Level) → IsTelling r
        → AllByRecursion (λ w. IsIssuable (at r.config.keys level) w.1)
        (wanted given before r level) }
{}

/// A prefix of one's own isn't leaked over, and each other one is leaked as it is named first
/// (RFC 5302 3). A pseudonode's LSPs have the LAN ID that the router's hellos give it.
pub fn own_lsp_laws()
    ensures own { (down : Bool) (leaks : List (ℕ × ℕ)) (prefixes : List (ℕ × Reach)) (p : ℕ)
        (reach : Reach) → find prefixes p ≡ Some reach
        → find (with_leaks down prefixes leaks) p ≡ Some reach }
    ensures leaked { (down : Bool) (leaks : List (ℕ × ℕ)) (prefixes : List (ℕ × Reach)) (p : ℕ)
        → find prefixes p ≡ None
        → find (with_leaks down prefixes leaks) p
        ≡ option_map (λ metric. record { metric = metric; down = down }) (find leaks p) }
    ensures pseudonode { (r : Router) (place : ℕ) (c : Circuit) (level : Level)
        → AllByRecursion (λ w. w.0 / 256 ≡ (oneself r.config place c).lan)
        (pseudonode_lsp r place c level) }
{}

/// A split has at most 256 fragments. Where each entry fits a TLV and a fragment alone, each
/// fragment fits the room, and the fragments say the entries in order, each once, up to the first
/// that doesn't fit.
pub fn split_laws()
    ensures count { (first : List ℕ) (items : List Item) (room : ℕ)
        → length (split first items room).fragments ≤ 256 }
    ensures room { (first : List ℕ) (items : List Item) (room : ℕ)
        → length first ≤ room → AllByRecursion (IsSmall room) items
        → AllByRecursion (λ f. length f ≤ room) (split first items room).fragments }
    ensures entries { (first : List ℕ) (items : List Item) (room : ℕ)
        → AllByRecursion (IsSmall room) items → SaysEntries first items (split first items room) }
{}

/// A datagram is dropped where a test refuses it, and then its cause's counter alone changes.
pub fn step_drops()
    ensures refused { (given : Given) (r : Router) (place : ℕ) (c : Circuit) (m : Message)
        (cause : DropName)
        → nth r.circuits place ≡ Some c → drop_of r place c m ≡ Some cause
        → (step given r (Take place m)).reply ≡ Dropped cause }
    ensures unchanged { (given : Given) (r : Router) (event : Event) (cause : DropName)
        → (step given r event).reply ≡ Dropped cause
        → (step given r event).router ≡ record r { drops = count_drop r.drops cause } }
{}

/// Each cause has a counter of its own, which rises to its type's end.
pub fn count_laws()
    ensures counted { (drops : List ℕ) (cause : DropName) → length drops ≡ 21
        → drops_of (count_drop drops cause) cause ≡ risen (drops_of drops cause) }
    ensures others { (drops : List ℕ) (cause other : DropName) → other ≢ cause
        → drops_of (count_drop drops cause) other ≡ drops_of drops other }
    ensures places { (cause : DropName) → drop_place cause < 21 }
{}
