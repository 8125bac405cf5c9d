//! What own LSPs look at of circuits: whether it is the same after a hello.
ghost use Rattle.std.specs.Prelude.{◌≡◌, true, false, IfOk};
ghost use Rattle.std.specs.Option.{option_map};
ghost use Rattle.model_router.specs.Configs.{Config};
ghost use Rattle.model_router.specs.HelloTests.{point_drop};
ghost use Rattle.adjacency.specs.Changes.{IsTested};
ghost use Rattle.adjacency.specs.Views.{neighbour_of, point_of};
ghost use Rattle.router_circuits.specs.Hellos.{hello_of, IsOwn};
ghost use Rattle.router_core.specs.Settled.{LeavesFace, neighbour_face, point_face};

use adjacency::{HelloDrop, HelloFields, Neighbour, Own, P2pAdj};
use router_circuits::Circuit;

/// Whether own LSPs will say the same of a point-to-point adjacency after a hello, or why that is refused (own).
pub(crate) fn test_point(
    circuit: &Circuit,
    own: &Own<'_>,
    hello: &HelloFields<'_>,
) -> Result<bool, HelloDrop>
    requires { circuit.now.lan ≡ false }
    ensures tested { (config : Config) → IsOwn config own.now → IsTested result
        (point_drop config own.now.id circuit.now.boots (hello_of hello.now)) }
    ensures alike { (config : Config) → IsOwn config own.now → IfOk result
        (λ alike. alike ≡ true → LeavesFace circuit.now config (hello_of hello.now)) }
{
    match circuit.point_after(own, hello) {
        Ok(after) => Ok(leaves_face(circuit, &after)),
        Err(refused) => Err(refused),
    }
}

/// Whether own LSPs say the same of an adjacency as of a circuit's (own).
fn leaves_face(circuit: &Circuit, after: &P2pAdj) -> bool
    ensures { result ≡ true → point_face (point_of after.now) ≡ point_face circuit.now.point }
{
    match circuit.point() {
        Some(before) => are_alike(before, after),
        None => false,
    }
}

/// Whether own LSPs say the same of two adjacencies (own).
fn are_alike(before: &P2pAdj, after: &P2pAdj) -> bool
    ensures { result ≡ true
        → point_face (point_of after.now) ≡ point_face (point_of before.now) }
{
    before.state() == after.state()
        && are_alike_neighbours(before.neighbour().copied(), after.neighbour().copied())
}

/// The same of neighbours.
fn are_alike_neighbours(before: Option<Neighbour>, after: Option<Neighbour>) -> bool
    ensures { result ≡ true → option_map (λ n. neighbour_face (neighbour_of n)) after
        ≡ option_map (λ n. neighbour_face (neighbour_of n)) before }
{
    match before {
        Some(before) => match after {
            Some(after) => before.system == after.system && before.levels == after.levels,
            None => false,
        },
        None => after.is_none(),
    }
}
