//! What holds of every network: functions without a body, whose contracts are the laws.
ghost use Rattle.std.specs.Prelude.{◌≡◌, ℕ, List, ◌++◌, Option, Some, true, false};
ghost use Rattle.isis_base.specs.declared.level.Level.{Level};
ghost use Rattle.model_router.specs.Places.{nth};
ghost use Rattle.model_router.specs.Books.{srm_at};
ghost use Rattle.model_router.specs.SnpTable.{SnpEntry};
ghost use Rattle.model_router.specs.SweepLaws.{ListsOnce, Frees};
ghost use Rattle.model_router.specs.Routers.{Router, book_of};
ghost use Rattle.model_router.specs.Events.{Envelope, SnpHeard, Take};
ghost use Rattle.model_router.specs.AdjacencyLaws.{is_point};
ghost use Rattle.model_router.specs.Steps.{step};
ghost use Rattle.router_core.specs.Reached.{IsReached};
ghost use Rattle.router_core.specs.Givens.{given};
ghost use Rattle.model_network.specs.Networks.{Network};
ghost use Rattle.model_network.specs.Runs.{Happening, Deliver, apply, run};
ghost use Rattle.model_network.specs.Ports.{Port};
ghost use Rattle.model_network.specs.Kept.{IsPointLink};
ghost use Rattle.model_network.specs.Speakers.{AreOctets};
ghost use Rattle.model_network.specs.Sweeps.{IsSweptBy};
ghost use Rattle.network_lab.specs.LabNets.{Seen, seen_of};
ghost use Rattle.network_lab.specs.LanStates.{swept_by};
ghost use Rattle.network_lab.specs.Claims.{IsClaimed};
ghost use Rattle.network_lab.specs.Reached.{IsReachedNet, IsFitting, AreFitting};
ghost use Rattle.network_lab.specs.Acknowledged.{IsTaken, Acknowledges};

/// A network in its run, whose routers can be reached, goes on so with each event that fits, where
/// what is sent are octets and nothing was injected. So after each event of a list, whatever is
/// delivered, in whichever order and how often, the claim of each point-to-point link that is up holds
/// (ISO 10589 7.3.17): each end names the other, and what one end holds the other holds as new or
/// newer, or its SRM flag stands.
pub fn run_laws()
    ensures event { (net : Network) (h : Happening) → IsReachedNet net → IsFitting net h
        → AreOctets (apply given net h) → (apply given net h).injected ≡ 0
        → IsReachedNet (apply given net h) }
    ensures claimed { (net : Network) (first rest : List Happening) → IsReachedNet net
        → AreFitting net (first ++ rest) → AreOctets (run given net (first ++ rest))
        → IsClaimed (seen_of (run given net first)) }
{}

/// A member of a LAN that is seen as swept by another router is swept by it in each network of the model that is seen
/// so: the ranges that it took cleanly, at the present boots and counts of changed keys of both, cover all LSP IDs (ISO
/// 10589 7.3.15.2).
pub fn sweep_laws()
    ensures { (s : Seen) (net : Network) (link : ℕ) (level : Level) (member other : ℕ)
        → swept_by s link level member other ≡ true → seen_of net ≡ s
        → IsSweptBy net link level member other }
{}

/// Where a router takes, on a point-to-point circuit, a sequence number PDU that lists an LSP ID once
/// with a key of at least the rank that it holds, and with the same checksum where both are live and of
/// one number, its SRM flag for the LSP ID is clear there afterwards (ISO 10589 7.3.15.2). So the
/// acknowledgement of an LSP, when it is delivered, clears the flag, unless the key changed meanwhile.
pub fn acknowledgement_laws()
    ensures taken { (r : Router) (place : ℕ) (level : Level) (from : Envelope) (source : ℕ)
        (range : Option (ℕ × ℕ)) (entries : List SnpEntry) (h : SnpEntry) → IsReached r
        → is_point (nth r.circuits place) ≡ true
        → IsTaken (step given r (Take place (SnpHeard level from source range entries))).reply
        → ListsOnce entries h → Frees (book_of r level) h
        → srm_at (book_of (step given r
        (Take place (SnpHeard level from source range entries))).router level) h.id place ≡ false }
    ensures delivered { (net : Network) (e f : Port) (link n : ℕ) (a : Router) (level : Level)
        (h : SnpEntry) → IsReachedNet net → net.injected ≡ 0 → IsPointLink net e f link
        → Acknowledges net e f link n a level h → (t : Router)
        → nth (apply given net (Deliver n e.router)).routers e.router ≡ Some t
        → srm_at (book_of t level) h.id e.place ≡ false }
{}
