//! How many routes there are, and what they cost.
ghost use Rattle.std.specs.Prelude.{◌≡◌, List, [], ◌∷◌, ◌++◌};
ghost use Rattle.route_table.specs.declared.route.Route.{Route};
ghost use Rattle.lab_grid.specs.Tallies.{tally_of};

use route_table::Route;

/// Numbers of routes: how many there are, the sum of their costs and the greatest, in units of metrics. The first two stop at
/// the greatest number of 64 bits.
#[derive(Clone, Copy, Debug, PartialEq, Eq)]
pub struct Tally {
    pub routes: u64,
    pub cost: u64,
    pub greatest: u64,
}

impl Tally {
    /// The numbers of no routes.
    #[tactic(auto, unfolding(crate::specs::Tallies::tally_of))]
    pub fn new() -> Tally
        ensures { result ≡ tally_of [] }
    {
        Tally {
            routes: 0,
            cost: 0,
            greatest: 0,
        }
    }

    /// Counts more routes.
    pub fn add(&mut self, routes: &[Route])
        ensures { (before : List Route) → self.old ≡ tally_of before
            → self.new ≡ tally_of (before ++ routes.now) }
    {
        for route in routes {
            self.add_one(route.cost);
        }
    }

    /// Counts a route of this cost.
    fn add_one(&mut self, cost: u64)
        ensures { (before : List Route) (route : Route) → route.cost ≡ cost
            → self.old ≡ tally_of before → self.new ≡ tally_of (before ++ route ∷ []) }
    {
        self.routes = self.routes.saturating_add(1);
        self.cost = self.cost.saturating_add(cost);
        self.greatest = self.greatest.max(cost);
    }
}
