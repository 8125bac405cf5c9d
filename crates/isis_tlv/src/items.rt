//! The walk over the items of a value, whatever they are.
ghost use Rattle.std.specs.Prelude.{◌≡◌, ◌≤◌, ℕ, List, length, Option, IfSome};
ghost use Rattle.isis_tlv.specs.Items.{values_of, TakesSome};

use crate::fault::ValueFault;
use crate::left::Left;
use std::marker::{Model, PhantomData};

/// An item of a value: which one stands first in octets, and how many of them it has.
pub trait Item: Sized {
    ghost first: { List ℕ → Option (Self × ℕ) };

    /// The item that stands first, and the number of its octets, at least 1; none where the octets begin with none.
    fn read_first(octets: &[u8]) -> Option<(Self, usize)>
        ensures first { result ≡ first octets.now }
        ensures within { IfSome result (λ found. found.1 ≤ length octets.now) };

    ghost takes: { TakesSome first };
}

/// The items of a value, in order. A fault is the last one. Contracts see what is left.
#[derive(Debug, Drop)]
pub struct Items<'a, I: Item> {
    left: Left<'a>,
    item: PhantomData<I>,
}

impl<'a, I: Item> Model for Items<'a, I> {
    ghost use Rattle.std.specs.Prelude.{List, Result};
    ghost use Rattle.isis_tlv.specs.declared.fault.ValueFault.{ValueFault};
    ghost use Rattle.isis_tlv.specs.Items.{values_of};

    ghost Value = { List (Result I ValueFault) };

    ghost view = { λ walk. values_of I.first walk.left.place walk.left.octets.now };
}

impl<'a, I: Item> Items<'a, I> {
    /// The items of a value.
    pub fn new(value: &'a [u8]) -> Items<'a, I>
        ensures { result ≡ values_of I.first 0 value.now }
    {
        let left = Left {
            octets: value,
            place: 0,
        };
        let item = PhantomData;
        Items { left, item }
    }
}

impl<'a, I: Item> Iterator for Items<'a, I> {
    ghost use Rattle.std.specs.Iterator.{YieldsFirst, item_count};

    type Item = Result<I, ValueFault>;

    ghost next_gives = { YieldsFirst (λ rest. rest) };

    ghost remaining = { item_count (λ rest. rest) };

    fn next(&mut self) -> Option<Result<I, ValueFault>> {
        if self.left.is_done() {
            return None;
        }
        let Some((item, count)) = I::read_first(self.left.octets) else {
            let place = self.left.stop();
            return Some(Err(ValueFault { place }));
        };
        self.left.pass(count);
        Some(Ok(item))
    }
}
