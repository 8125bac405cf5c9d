//! The walk over all pairs.
ghost use Rattle.std.specs.Prelude.{◌≡◌, ◌++◌, [], ◌<◌, length, IfSome, IfNone};
ghost use Rattle.lsp_store.specs.Places.{AllFilled, flatten};

use crate::page::Page;
use isis_base::LspId;
use std::marker::Model;

/// The pairs of a map, in order. Contracts see those that are left.
#[derive(Drop)]
pub struct Pairs<'a, T> {
    here: &'a [(LspId, T)],
    rest: &'a [Page<T>],
}

impl<'a, T> Model for Pairs<'a, T> {
    ghost use Rattle.std.specs.Prelude.{List, ◌++◌};
    ghost use Rattle.isis_base.specs.declared.identifiers.LspId.{LspId};
    ghost use Rattle.lsp_store.specs.Places.{AllFilled, flatten};

    ghost Value = { List (LspId × T) };

    ghost view = { λ p. p.here.now ++ flatten p.rest.now };

    ghost invariant = { λ p. AllFilled p.rest.now };
}

impl<'a, T> Pairs<'a, T> {
    /// The pairs at hand, and behind them those of pages.
    pub(crate) fn new(here: &'a [(LspId, T)], rest: &'a [Page<T>]) -> Pairs<'a, T>
        requires { AllFilled rest.now }
        ensures { result ≡ here.now ++ flatten rest.now }
    {
        Pairs { here, rest }
    }

    /// The same walk once more, from where this one is.
    pub fn again(&self) -> Pairs<'a, T>
        ensures { result ≡ self.now }
    {
        Pairs {
            here: self.here,
            rest: self.rest,
        }
    }
}

impl<'a, T> Iterator for Pairs<'a, T> {
    ghost use Rattle.std.specs.Iterator.{YieldsFirstBy, item_count};
    ghost use Rattle.lsp_store.specs.Maps.{pair_of};

    type Item = (LspId, &'a T);

    ghost next_gives = { YieldsFirstBy pair_of (λ rest. rest) };

    ghost remaining = { item_count (λ rest. rest) };

    fn next(&mut self) -> Option<(LspId, &'a T)> {
        let Some((here, rest)) = at_hand(self.here, self.rest) else {
            return None;
        };
        let pair = &here[0];
        self.here = &here[1..];
        self.rest = rest;
        Some((pair.0, &pair.1))
    }
}

/// The pairs that are left, some of them at hand.
fn at_hand<'a, T>(
    here: &'a [(LspId, T)],
    rest: &'a [Page<T>],
) -> Option<(&'a [(LspId, T)], &'a [Page<T>])>
    requires { AllFilled rest.now }
    ensures same { IfSome result (λ left. left.0.now ++ flatten left.1.now
        ≡ here.now ++ flatten rest.now) }
    ensures some { IfSome result (λ left. 0 < length left.0.now) }
    ensures filled { IfSome result (λ left. AllFilled left.1.now) }
    ensures none { IfNone result (here.now ++ flatten rest.now ≡ []) }
{
    if !here.is_empty() {
        return Some((here, rest));
    }
    match rest {
        [] => None,
        [page, more @ ..] => Some((page.pairs(), more)),
    }
}
