//! What follows for all rows and all routers: functions without a body, whose contracts are the laws.
ghost use Rattle.std.specs.Prelude.{◌≡◌, ◌≢◌, ◌≤◌, ℕ, List, ◌+◌, ◌<◌, true, length, map};
ghost use Rattle.std.specs.List.{Contains};
ghost use Rattle.isis_base.specs.declared.identifiers.NodeId.{NodeId};
ghost use Rattle.spf_tree.specs.declared.row.Row.{Row};
ghost use Rattle.spf_tree.specs.Walks.{start};
ghost use Rattle.spf_tree.specs.NextHops.{IsNextHop};
ghost use Rattle.forward_views.specs.Moves.{usable_from, IsMoveCost, Falls};
ghost use Rattle.spf_tree.specs.Graphs.{GraphOf};
ghost use Rattle.spf_tree.specs.Nodes.{node_number, is_system};
ghost use Rattle.route_table.specs.declared.candidate.Candidate.{Candidate};
ghost use Rattle.route_table.specs.declared.route.Route.{Route};
ghost use Rattle.route_table.specs.Ranks.{prefix_number};
ghost use Rattle.route_table.specs.Routes.{IsHopTo, IsRoute, AreRoutes};
ghost use Rattle.forward_views.specs.Owned.{IsAt, FallsTo};
ghost use Rattle.forward_views.specs.Walked.{RouterOf, root_of, Agree, IsRouteOf, AreMoves, costs_of};
ghost use Rattle.forward_views.specs.Looks.{Look, AreAlike, IsOwner};
ghost use Rattle.forward_views.specs.Forwarded.{router_in, DoAgree, IsNext, IsReached};

/// Along a move the cost falls by what the move costs, whatever is overloaded and whichever LANs
/// lie between. A move from a router that lists no metric of 0 costs something.
pub fn falling_laws()
    ensures falls { (rows : List Row) (overloaded : List NodeId) (from hop target : ℕ)
        → from ≢ target → IsNextHop (usable_from rows overloaded from) from target hop
        → Falls rows overloaded from hop target }
    ensures some { (rows : List Row) (from hop least : ℕ) → from ≢ hop
        → ((row : Row) → Contains rows row → start row ≡ from → 1 ≤ row.metric)
        → IsMoveCost rows from hop least → 1 ≤ least }
{}

/// Where two routers have the same rows and tell one owner of a prefix, the one being a next hop of
/// the other's route, it has a route as well, and the cost falls by just what the move to it costs.
pub fn routes_law()
    ensures { (rows : List Row) (overloaded : List NodeId) (prefix owner metric : ℕ)
        (one two next_one next_two : GraphOf) (candidates next_candidates : List Candidate)
        (route : Route) (next_routes : List Route)
        → one.rows ≡ usable_from rows overloaded (node_number one.root)
        → next_one.rows ≡ usable_from rows overloaded (node_number next_one.root)
        → IsAt one candidates prefix owner metric
        → IsAt next_one next_candidates prefix owner metric
        → node_number one.root ≢ owner
        → IsRoute (IsHopTo one two) candidates route → prefix_number route.prefix ≡ prefix
        → AreRoutes (IsHopTo next_one next_two) next_candidates next_routes
        → Contains route.hops (node_number next_one.root)
        → FallsTo one (node_number next_one.root) route prefix next_routes }
{}

/// After any list of moves the costs of the moves and the cost of the route at the router reached
/// are the cost of the route at the first router; the router reached has a route; and there are
/// fewer moves than routers.
pub fn walks_law()
    ensures { (rows : List Row) (overloaded : List NodeId) (prefix owner metric : ℕ)
        (routers : List RouterOf) (from to : RouterOf) (route : Route)
        (moves : List (RouterOf × ℕ))
        → Agree rows overloaded prefix owner metric routers → Contains routers from
        → IsRouteOf from prefix route → AreMoves routers prefix from moves to
        → (last : Route) × IsRouteOf to prefix last × (route.cost ≡ costs_of moves + last.cost)
        × (length moves < length routers) }
{}

/// A route of the prefix at another router than the owner has a next hop, so a walk ends nowhere
/// else.
pub fn next_law()
    ensures { (rows : List Row) (overloaded : List NodeId) (prefix owner metric : ℕ)
        (routers : List RouterOf) (from : RouterOf) (route : Route)
        → Agree rows overloaded prefix owner metric routers → Contains routers from
        → IsRouteOf from prefix route → root_of from ≢ owner → is_system owner ≡ true
        → (hop : ℕ) × Contains route.hops hop }
{}

/// Routers that are alike have the same rows, and tell one owner of a prefix at one metric.
pub fn agree_law()
    ensures { (looks : List Look) (prefix : ℕ) (owner : Look)
        → AreAlike looks → IsOwner looks prefix owner → DoAgree looks prefix owner }
{}

/// Each next hop of a router is another of the routers.
pub fn hops_law()
    ensures { (looks : List Look) (look : Look) (route : Route) (hop : ℕ)
        → AreAlike looks → Contains looks look → Contains look.routes route
        → Contains route.hops hop → (next : Look) × IsNext looks look hop next }
{}

/// After any moves from a router that has a route of the prefix, the router reached has one too, at
/// the cost that is left; at another router than the owner the walk goes on, to each of the next
/// hops; and there were fewer moves than there are routers.
pub fn forward_law()
    ensures { (looks : List Look) (prefix : ℕ) (owner from : Look) (route : Route)
        (moves : List (RouterOf × ℕ)) (to : RouterOf)
        → AreAlike looks → IsOwner looks prefix owner → Contains looks from
        → IsRouteOf (router_in from) prefix route
        → AreMoves (map router_in looks) prefix (router_in from) moves to
        → IsReached looks prefix owner route moves to }
{}
