//! Offers that wait, in a heap.

ghost use Rattle.std.specs.Prelude.{◌≡◌, ◌≤◌, [], ◌∷◌, OnOk, MatchOption};
ghost use Rattle.std.specs.Option.{IfSome};
ghost use Rattle.std.specs.List.{All};
ghost use Rattle.std.specs.List.Sorted.{IsPermutation};

use isis_base::OutOfMemory;
use std::alloc::Global;
use std::cmp::Reverse;
use std::collections::BinaryHeap;
use std::marker::Model;

/// Costs offered to nodes; the least comes out first.
#[derive(Drop)]
pub struct Queue {
    heap: BinaryHeap<Reverse<(u64, u64)>>,
}

impl Model for Queue {
    ghost use Rattle.std.specs.Prelude.{ℕ, List, map};
    ghost use Rattle.std.specs.BinaryHeap.{heap_items, IsHeap};
    ghost use Rattle.std.specs.Ordering.{nat_cmp, ordering_then};

    ghost Value = { List (ℕ × ℕ) };

    ghost view = { λ q. map (λ r. r.0) (heap_items q.heap) };

    ghost invariant = { λ q. IsHeap
        (λ x y. ordering_then (nat_cmp y.0.0 x.0.0) (nat_cmp y.0.1 x.0.1)) (heap_items q.heap) };
}

impl Queue {
    /// No offers.
    pub fn new(alloc: Global) -> Queue
        ensures { result ≡ [] }
    {
        Queue {
            heap: BinaryHeap::new(alloc),
        }
    }

    /// An offer more: a cost to a node.
    pub fn push(&mut self, cost: u64, node: u64) -> Result<(), OutOfMemory>
        ensures { OnOk result (IsPermutation ((cost, node) ∷ self.old) self.new) }
    {
        self.heap.push(Reverse((cost, node)))?;
        Ok(())
    }

    /// Takes an offer of the least cost out; `None` exactly where there is none.
    pub fn pop(&mut self) -> Option<(u64, u64)>
        ensures left { MatchOption result ((self.old ≡ [])
            × (self.new ≡ [])) (λ e. IsPermutation self.old (e ∷ self.new)) }
        ensures least { IfSome result (λ e. All (λ o. e.0 ≤ o.0) self.new) }
    {
        let Some(Reverse(offer)) = self.heap.pop() else {
            return None;
        };
        Some(offer)
    }
}
