//! What follows for all lists of routes, and for all grids: functions without a body, whose contracts are the laws.
ghost use Rattle.std.specs.Prelude.{◌≡◌, ℕ, ◌≤◌, true, List, length, Ok, Err};
ghost use Rattle.std.specs.List.{AllByRecursion};
ghost use Rattle.route_table.specs.declared.route.Route.{Route};
ghost use Rattle.lab_script.specs.declared.reason.Reason.{Reason};
ghost use Rattle.lab_script.specs.declared.reason.ScriptFault.TheVariants.{Refused};
ghost use Rattle.lab_script.specs.declared.script.Script.{Script};
ghost use Rattle.lab_script.specs.Scripts.{script_of, is_lab_script};
ghost use Rattle.lab_grid.specs.GridText.{grid_text};
ghost use Rattle.lab_grid.specs.GridRuns.{grid_end};
ghost use Rattle.lab_grid.specs.GridScripts.{IsGridRead};
ghost use Rattle.lab_grid.specs.Tallies.{tally_of, cost_of};

/// Of at most 2^32 routes, each of at most the greatest cost that is told (RFC 5305 4), the numbers are exact.
pub fn tally_laws()
    ensures routes { (routes : List Route) → length routes ≤ 4294967296
        → (tally_of routes).routes ≡ length routes }
    ensures cost { (routes : List Route) → length routes ≤ 4294967296
        → AllByRecursion (λ (route : Route). route.cost ≤ 4261412864) routes
        → (tally_of routes).cost ≡ cost_of routes }
{}

/// Where the text of a grid is read as a script, it is a lab script.
pub fn grid_laws()
    ensures { (size : ℕ) (script : Script) → script_of (grid_text size) ≡ Ok script
        → is_lab_script script ≡ true }
{}

/// The text of a grid of 1 to 8 rows and as many columns is read as the script of its routers, links and prefixes, and
/// no line of it is refused while it runs.
pub fn grid_read_laws()
    ensures read { (size : ℕ) → 1 ≤ size → size ≤ 8 → IsGridRead size }
    ensures unrefused { (size line : ℕ) (reason : Reason) → 1 ≤ size → size ≤ 8
        → grid_end size ≡ Err (Refused line reason) → ⊥ }
{}
