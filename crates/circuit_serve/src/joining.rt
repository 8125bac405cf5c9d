//! Passes joined, label by label.
ghost use Rattle.std.specs.Prelude.{◌≡◌, ◌+◌, [], ℕ, length};
ghost use Rattle.turn_lock.specs.Passes.{turns_left, label, own, seen};
ghost use Rattle.circuit_threads.specs.History.{opening, replay};
ghost use Rattle.circuit_threads.specs.Sharing.{first_router, IsPassOf, HasAll};
ghost use Rattle.circuit_serve.specs.Labels.{of_label, by_label};
ghost use Rattle.circuit_serve.specs.Joined.{KeepsStop};
ghost use Rattle.circuit_serve.specs.Walks.{IsCalm};

use circuit_threads::{Behind, Journal, Pass, SharedRouter};

/// Joins two passes. A label of which one has nothing has what the other has of it; where all turns are taken or left,
/// that is all that there is.
pub fn join_labels<J: Journal + Drop>(
    shared: &SharedRouter<J>,
    first: Pass<Behind<J>>,
    second: Pass<Behind<J>>,
) -> Pass<Behind<J>>
    requires { IsPassOf shared.now first × IsPassOf shared.now second }
    ensures lock { IsPassOf shared.now result }
    ensures turns { turns_left result + length (own result)
        ≡ (turns_left first + length (own first)) + (turns_left second + length (own second)) }
    ensures label { label result ≡ label first }
    ensures first { (c : ℕ) → by_label c (own second) (seen second) ≡ []
        → by_label c (own result) (seen result) ≡ by_label c (own first) (seen first) }
    ensures second { (c : ℕ) → by_label c (own first) (seen first) ≡ []
        → by_label c (own result) (seen result) ≡ by_label c (own second) (seen second) }
    ensures whole { HasAll shared.now result
        → (c : ℕ) → of_label c (seen result) ≡ by_label c (own result) (seen result) }
    ensures calm { IsCalm (first_router shared.now) (seen first)
        → IsCalm (first_router shared.now) (seen second)
        → IsCalm (first_router shared.now) (seen result) }
    ensures stops { KeepsStop (first_router shared.now) (seen first) (seen result)
        × KeepsStop (first_router shared.now) (seen second) (seen result) }
{
    shared.join(first, second)
}
