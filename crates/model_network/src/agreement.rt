//! The laws of agreement: functions without a body, whose contracts hold for every network and event.
ghost use Rattle.std.specs.Prelude.{◌≡◌, ℕ, Bool, true, false, List, Some};
ghost use Rattle.isis_base.specs.declared.level.Level.{Level};
ghost use Rattle.model_router.specs.Places.{nth};
ghost use Rattle.model_router.specs.Ranks.{is_live};
ghost use Rattle.model_router.specs.Cells.{Cell};
ghost use Rattle.model_router.specs.Books.{cell_at};
ghost use Rattle.model_router.specs.Routers.{Router, book_of};
ghost use Rattle.model_datagram.specs.Lsps.{given_octets};
ghost use Rattle.model_network.specs.Networks.{Network};
ghost use Rattle.model_network.specs.Runs.{Happening, apply, is_injection};
ghost use Rattle.model_network.specs.Speakers.{AreSpeaking, AreOctets};
ghost use Rattle.model_network.specs.Kept.{IsKeptNet};
ghost use Rattle.model_network.specs.LiveViews.{live_at};
ghost use Rattle.model_network.specs.Chains.{Leads, IsKeptBy};
ghost use Rattle.model_network.specs.Origins.{body_of, HaveOrigins, HoldsNothing, IsSingle};
ghost use Rattle.model_network.specs.Sweeps.{AreTrue, AreAgreed, IsSweptBy};

/// Where what is kept of a network holds and nothing was injected, two routers that a chain of joined routers connects hold
/// the same live LSP of each LSP ID that no router so connected let go, or neither holds one.
pub fn group_claim()
    ensures { (net : Network) (level : Level) (i j : ℕ) (a b : Router) (id : ℕ)
        → IsKeptNet net → net.injected ≡ 0 → AreAgreed net net.takings
        → Leads net level i j → IsKeptBy net level i id
        → nth net.routers i ≡ Some a → nth net.routers j ≡ Some b
        → live_at a level id ≡ live_at b level id }
{}

/// In a run without injections, each live LSP that is held anywhere, or stands in a datagram, was held at some moment by the
/// router of its own system, with its rank and body: so at the start, and after each event, where each router is one that can
/// be reached.
pub fn origin_claim()
    ensures start { (net : Network) → HoldsNothing net → HaveOrigins net }
    ensures event { (leaks : Router → Level → List (ℕ × ℕ)) (attached : Router → Bool)
        (net : Network) (h : Happening)
        → is_injection h ≡ false → AreOctets net → AreSpeaking net
        → AreSpeaking (apply (given_octets leaks attached) net h)
        → HaveOrigins net → HaveOrigins (apply (given_octets leaks attached) net h) }
{}

/// Two live LSPs of one LSP ID and rank that are held anywhere have one body, where the LSP ID isn't doubled.
pub fn body_claim()
    ensures { (net : Network) (level : Level) (i j id : ℕ) (a b : Router)
        (c d : Cell) → HaveOrigins net → IsSingle net.past level id
        → nth net.routers i ≡ Some a → nth net.routers j ≡ Some b
        → cell_at (book_of a level) id ≡ Some c → cell_at (book_of b level) id ≡ Some d
        → c.rank ≡ d.rank → is_live c.rank ≡ true → body_of c ≡ body_of d }
{}

/// A CSNP tells its sender's keys while these stand. So a router that took one cleanly holds the same live LSPs in its range,
/// while its own keys stand too: that is kept by each event of a run without injections. And a router that is swept by another
/// holds just the same live LSPs, whatever was let go.
pub fn sweep_claim()
    ensures start { (net : Network) → HoldsNothing net → AreTrue net }
    ensures sent { (leaks : Router → Level → List (ℕ × ℕ)) (attached : Router → Bool)
        (net : Network) (h : Happening) → is_injection h ≡ false → AreSpeaking net
        → AreTrue net → AreTrue (apply (given_octets leaks attached) net h) }
    ensures taken { (leaks : Router → Level → List (ℕ × ℕ)) (attached : Router → Bool)
        (net : Network) (h : Happening) → is_injection h ≡ false → HaveOrigins net → AreTrue net
        → AreAgreed net net.takings
        → AreAgreed (apply (given_octets leaks attached) net h)
        (apply (given_octets leaks attached) net h).takings }
    ensures swept { (net : Network) (link : ℕ) (level : Level) (member other : ℕ) (a b : Router)
        (id : ℕ) → AreSpeaking net → AreAgreed net net.takings
        → IsSweptBy net link level member other
        → nth net.routers member ≡ Some a → nth net.routers other ≡ Some b
        → live_at a level id ≡ live_at b level id }
{}
