//! What follows for all candidates and routes: functions without a body, whose contracts are the laws.

ghost use Rattle.std.specs.Prelude.{◌≡◌, ℕ, List};
ghost use Rattle.std.specs.Ordering.{nat_cmp};
ghost use Rattle.spf_tree.specs.Graphs.{GraphOf};
ghost use Rattle.route_table.specs.declared.candidate.Candidate.{Candidate};
ghost use Rattle.route_table.specs.declared.route.Route.{Route};
ghost use Rattle.route_table.specs.Ranks.{rank_number};
ghost use Rattle.route_table.specs.Routes.{IsHopTo, AreRising, AreRoutes};
ghost use Rattle.route_table.specs.Lookups.{IsLongest};
ghost use Rattle.route_table.specs.declared.patch.Patch.{Patch};
ghost use Rattle.route_table.specs.Patches.{AreClean, AreMoved, ArePatches, IsPart, IsPatched};

use crate::rank::Rank;

/// Ranks are ordered by their places: `Own`, `One`, `Two`, `OneDown`, `Default`.
pub fn rank_order_law(a: Rank, b: Rank)
    ensures { ⟦<Rank as Ord>⟧.cmp a b ≡ nat_cmp (rank_number a) (rank_number b) }
{}

/// Candidates have one list of routes, and the longest prefix of an address is one. So the contracts of `routes` and
/// `lookup` leave no choice.
pub fn routes_laws()
    ensures routes { (one two : GraphOf) (candidates : List Candidate) (a b : List Route)
        → AreRoutes (IsHopTo one two) candidates a → AreRoutes (IsHopTo one two) candidates b
        → a ≡ b }
    ensures longest { (routes : List Route) (address : ℕ) (a b : Route) → AreRising routes
        → IsLongest routes address a → IsLongest routes address b → a ≡ b }
{}

/// Where nothing moved for prefixes without a patch, and the patches are right, the patched routes are those of the new
/// candidates and graphs.
pub fn patch_law()
    ensures { (one two later_one later_two : GraphOf) (old new : List Candidate)
        (routes patched : List Route) (patches : List Patch)
        → AreRoutes (IsHopTo one two) old routes → ArePatches (IsHopTo later_one later_two) new patches
        → AreClean (IsHopTo one two) (IsHopTo later_one later_two) old new patches
        → IsPatched routes patches patched → AreRoutes (IsHopTo later_one later_two) new patched }
{}

/// Where what the systems of other nodes tell stays, with the hops to them, and all that the moved nodes told or tell has
/// a patch, nothing moved for prefixes without a patch.
pub fn moved_law()
    ensures { (one two later_one later_two : GraphOf) (old new : List Candidate) (moved : List ℕ)
        (patches : List Patch)
        → AreMoved (IsHopTo one two) (IsHopTo later_one later_two) old new moved patches
        → AreClean (IsHopTo one two) (IsHopTo later_one later_two) old new patches }
{}

/// Patches that are right of some candidates, which have all for their prefixes, are right of all.
pub fn part_law()
    ensures { (one two : GraphOf) (all part : List Candidate) (patches : List Patch)
        → ArePatches (IsHopTo one two) part patches → IsPart all part patches
        → ArePatches (IsHopTo one two) all patches }
{}
